// The levels of one shape by their binary digits: row k of a table of node sets has the nodes whose level has a 1 as digit k. The levels of a word of
// nodes are then compared with a bound digit by digit, not node by node.
ghost use Rattle.std.specs.Prelude.{◌≡◌, ◌+◌, ◌*◌, ◌/◌, ◌^◌, ◌<◌, ◌≤◌, length};
ghost use Rattle.justifying.specs.LevelRows.{level_at, LevelRow};
ghost use Rattle.justifying.specs.Digits.{DigitsInserted, DigitsOf, LowerNext, SameNext, LowerIn};

use bitset::rows::{clear, insert};
use bitset::taking::Bits;
use bitset::words::without;
use cases::counts::Size;
use cases::numbers::Shape;

// The level of pair k: two bytes, low first.
pub fn level_at(levels: &[u8], k: usize) -> usize
    requires { 2 * k + 2 ≤ length levels.now }
    ensures value { result ≡ level_at levels.now k }
    ensures upper_bound { result < 65536 }
{
    let at = 2 * k;
    usize::from(levels[at]) + 256 * usize::from(levels[at + 1])
}

// Puts node a into the row of each digit of its level.
fn insert_digits(digits: &mut [u64], w: usize, a: usize, level: usize)
    requires w_in_bounds { 16 * w ≤ length digits.old }
    requires a_bound { a < 64 * w }
    requires level_bound { level < 65536 }
    ensures { DigitsInserted digits.old w a level digits.new }
{
    // it is in the rows of the digits that are taken
    for k in Bits(level as u64) {
        insert(digits, w, k, a);
    }
}

// How many digits a number has, 0 for 0.
fn digits_of(most: usize) -> usize
    requires { most < 65536 }
    ensures upper_bound { result ≤ 16 }
    ensures result_value { most / 2 ^ result ≡ 0 }
{
    (usize::BITS - most.leading_zeros()) as usize
}

// Makes the rows those of the levels of shape s, and says how many are used. The nodes below a are there, none with a level above `most`.
pub fn fill_digits(levels: &[u8], size: Size, s: Shape, digits: &mut [u64]) -> usize
    requires level_row { LevelRow levels.now size s.0 }
    requires nodes_bound { size.nodes ≤ 64 * size.words }
    requires words_in_bounds { 16 * size.words ≤ length digits.old }
    ensures { DigitsOf levels.now size s.0 digits.new result }
{
    clear(digits);
    let mut most = 0;
    for a in 0..size.nodes {
        let level = level_at(levels, s.0 * size.nodes + a);
        insert_digits(digits, size.words, a, level);
        most = most.max(level);
    }
    digits_of(most)
}

// One digit further: the numbers that are lower, where the bound has a 1 or not.
fn lower_next(lower: u64, same: u64, digit: u64, one: bool) -> u64
    ensures { LowerNext lower same digit one result }
{
    if one {
        lower | without(same, digit)
    } else {
        lower
    }
}

// And those that are the same so far.
fn same_next(same: u64, digit: u64, one: bool) -> u64
    ensures { SameNext same digit one result }
{
    if one {
        same & digit
    } else {
        without(same, digit)
    }
}

// Of word i, the numbers that are lower than the bound. Without their last k digits and the bound's, those in `lower` are, and those in `same` are the same.
pub fn lower_in(digits: &[u64], w: usize, used: usize, i: usize, bound: usize) -> u64
    requires w_in_bounds { 16 * w ≤ length digits.now }
    requires used_bound { used ≤ 16 }
    requires i_lt_w { i < w }
    ensures { LowerIn digits.now w used i bound result }
{
    // a bound with more digits is above every level
    if bound >> used != 0 {
        return u64::MAX;
    }
    let mut lower = 0;
    let mut same = u64::MAX;
    for k in (0..used).rev() {
        let digit = digits[k * w + i];
        let one = (bound >> k) % 2 == 1;
        lower = lower_next(lower, same, digit, one);
        same = same_next(same, digit, one);
    }
    lower
}
