// Rules inside rules: the readers of a part of command 28 and of its inner parts, and how what they leave becomes the expansion.
// A part's fresh shapes are put into a table of rows of their own as the parts open, since their numbers are known only when all shapes are
// written: until then fresh shape f is 256 + f, which no operand of one byte can say.
#![tactic(auto)]

pub mod expanding;
pub mod heads;
pub mod readers;
pub mod tables;
