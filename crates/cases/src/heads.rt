// The head of a part of command 28: its byte and its own operands, which stand before its inner parts.
use crate::command::Row;

// What a part opens: a named shape; a rule with no, one or two inner parts; or an at most around one.
#[derive(Clone, Copy, PartialEq, Eq)]
pub enum Opens {
    Name,
    Alone,
    One,
    Two,
    AtMost,
}

// What stands where a part opens: its row, of a rule's shape operands 0 where they are inner parts, for an at most that of the at least behind
// it, and how many bytes the head takes.
#[derive(Clone, Copy)]
pub struct PartHead {
    pub opens: Opens,
    pub row: Row,
    pub width: usize,
}
