// Which levels of a shape are below a bound: at a node, at the nodes of a word, at every node of a row of node sets and at how many of them. At
// the nodes of a word they are compared by their digits (`digits`) or read one by one.
ghost use Rattle.std.specs.Prelude.{◌≡◌, ◌&&◌, ◌||◌, not, ◌*◌, ◌^◌, ◌<◌, ◌≤◌};
ghost use Rattle.bitset.specs.Words.{member, HasRow, WordBelow};
ghost use Rattle.fixpoint.specs.Lists.{up_to, all, count};
ghost use Rattle.justifying.specs.Digits.{DigitsUnless};
ghost use Rattle.justifying.specs.LevelRows.{is_low, LevelRow, RowBelow, WordWhere};

use crate::digits::{level_at, lower_in};
use bitset::rows::is_member;
use bitset::taking::Bits;
use bitset::words::with_bit_if;
use cases::counts::Size;
use cases::numbers::{Node, Shape};

// Whether the level of shape s at node a is below the bound.
pub fn is_lower(levels: &[u8], bound: usize, size: Size, s: Shape, a: Node) -> bool
    requires level_row { LevelRow levels.now size s.0 }
    requires a_lt_nodes { a.0 < size.nodes }
    ensures { result ≡ is_low levels.now bound size s.0 a.0 }
{
    level_at(levels, s.0 * size.nodes + a.0) < bound
}

// Whether shape s at node a is in the set, with a level below the bound.
pub fn is_low_member(
    set: &[u64],
    levels: &[u8],
    bound: usize,
    size: Size,
    s: Shape,
    a: Node,
) -> bool
    requires has_row { HasRow set.now size.words s.0 }
    requires level_row { LevelRow levels.now size s.0 }
    requires nodes_bound { size.nodes ≤ 64 * size.words }
    requires a_lt_nodes { a.0 < size.nodes }
    ensures { result ≡ (member set.now size.words s.0 a.0 && is_low levels.now bound size s.0 a.0) }
{
    is_member(set, size.words, s.0, a.0) && is_lower(levels, bound, size, s, a)
}

// A shape whose levels are compared with a bound, and how many digits they have, if their digits are worked out.
#[derive(Clone, Copy)]
pub struct Lower {
    pub shape: Shape,
    pub size: Size,
    pub used: Option<usize>,
    pub bound: usize,
}

// Of word i of a set of nodes, those at which the level is below the bound: node by node.
fn lower_by_node(low: Lower, word: u64, i: usize, levels: &[u8]) -> u64
    requires word_below { WordBelow low.size.nodes i word }
    requires level_row { LevelRow levels.now low.size low.shape.0 }
    ensures { WordWhere (is_low levels.now low.bound low.size low.shape.0) word i result }
{
    let mut lower = 0;
    // those that are taken are sorted out
    for j in Bits(word) {
        let b = 64 * i + j;
        let there = is_lower(levels, low.bound, low.size, low.shape, Node(b));
        lower = with_bit_if(lower, j, there);
    }
    lower
}

// The same, by digits if they are worked out and the word has eight nodes or more: fewer levels are sooner read one by one.
fn lower_word(low: Lower, word: u64, i: usize, levels: &[u8], digits: &[u64]) -> u64
    requires word_below { WordBelow low.size.nodes i word }
    requires i_lt_words { i < low.size.words }
    requires level_row { LevelRow levels.now low.size low.shape.0 }
    requires digits_unless { DigitsUnless levels.now low.size low.shape.0 digits.now low.used }
    ensures { WordWhere (is_low levels.now low.bound low.size low.shape.0) word i result }
{
    if let Some(used) = low.used
        && 8 <= u64::count_ones(word)
    {
        return word & lower_in(digits, low.size.words, used, i, low.bound);
    }
    lower_by_node(low, word, i, levels)
}

// Whether the level is below the bound at every node of a row of node sets. Those in the words below i are.
pub fn all_lower(low: Lower, sets: &[u64], row: usize, levels: &[u8], digits: &[u64]) -> bool
    requires has_row { HasRow sets.now low.size.words row }
    requires row_below { RowBelow sets.now row low.size }
    requires level_row { LevelRow levels.now low.size low.shape.0 }
    requires digits_unless { DigitsUnless levels.now low.size low.shape.0 digits.now low.used }
    ensures { result ≡ all (up_to (64 * low.size.words)) (λ b. not (member sets.now low.size.words row b) || is_low levels.now low.bound low.size low.shape.0 b) }
{
    for i in 0..low.size.words {
        let word = sets[row * low.size.words + i];
        if lower_word(low, word, i, levels, digits) != word {
            return false;
        }
    }
    true
}

// At how many nodes of the row the shape is in the set, with a level below the bound. Those in the words below i are counted.
pub fn count_lower(
    low: Lower,
    sets: &[u64],
    row: usize,
    set: &[u64],
    levels: &[u8],
    digits: &[u64],
) -> usize
    requires has_row { HasRow sets.now low.size.words row }
    requires has_row_2 { HasRow set.now low.size.words low.shape.0 }
    requires row_below { RowBelow sets.now row low.size }
    requires level_row { LevelRow levels.now low.size low.shape.0 }
    requires digits_unless { DigitsUnless levels.now low.size low.shape.0 digits.now low.used }
    requires words_bound { 64 * low.size.words < 2 ^ 64 }
    ensures { result ≡ count (up_to (64 * low.size.words)) (λ b. member sets.now low.size.words row b && (member set.now low.size.words low.shape.0 b && is_low levels.now low.bound low.size low.shape.0 b)) }
{
    let mut n = 0;
    for i in 0..low.size.words {
        let word = sets[row * low.size.words + i] & set[low.shape.0 * low.size.words + i];
        n += u64::count_ones(lower_word(low, word, i, levels, digits)) as usize;
    }
    n
}
