// Rows of a table: membership, insertion and removal, union, and the tests and counts on two rows.
ghost use Rattle.std.specs.Prelude.{◌≡◌, ◌&&◌, ◌||◌, not, ◌+◌, ◌*◌, ◌^◌, ◌<◌, ◌≤◌, length};
ghost use Rattle.std.specs.Bool.{beq};
ghost use Rattle.fixpoint.specs.Lists.{up_to, all, count};
ghost use Rattle.bitset.specs.Words.{member, HasRow, Inserted, Assigned, Joined, Cleared, WordsCopied, RowCopied, RowAdded};

use crate::words::{assign_bit, has_bit};

// Whether b is in row r.
pub fn is_member(t: &[u64], w: usize, r: usize, b: usize) -> bool
    requires has_row { HasRow t.now w r }
    requires b_bound { b < 64 * w }
    ensures { result ≡ member t.now w r b }
{
    let at = r * w + b / 64;
    has_bit(t[at], b % 64)
}

// Puts b into row r, or takes it out.
pub fn assign(t: &mut [u64], w: usize, r: usize, b: usize, there: bool)
    requires has_row { HasRow t.old w r }
    requires b_bound { b < 64 * w }
    ensures { Assigned t.old w r b there t.new }
{
    let at = r * w + b / 64;
    let word = assign_bit(t[at], b % 64, there);
    t[at] = word;
}

// Puts b into row r.
pub fn insert(t: &mut [u64], w: usize, r: usize, b: usize)
    requires has_row { HasRow t.old w r }
    requires b_bound { b < 64 * w }
    ensures { Inserted t.old w r b t.new }
{
    assign(t, w, r, b, true);
}

// Adds row `from` to row `into`. Rows of two words, the commonest, are a call of their own, whose loop the compiler unrolls.
pub fn join(t: &mut [u64], w: usize, into: usize, from: usize)
    requires has_row { HasRow t.old w into }
    requires has_row_2 { HasRow t.old w from }
    ensures { Joined t.old w into from t.new }
{
    if w == 2 {
        join_words(t, 2, into, from);
    } else {
        join_words(t, w, into, from);
    }
}

#[inline(always)]
fn join_words(t: &mut [u64], w: usize, into: usize, from: usize)
    requires has_row { HasRow t.old w into }
    requires has_row_2 { HasRow t.old w from }
    ensures { Joined t.old w into from t.new }
{
    for i in 0..w {
        t[into * w + i] |= t[from * w + i];
    }
}

// Empties every row.
pub fn clear(t: &mut [u64])
    ensures { Cleared t.old t.new }
{
    t.fill(0);
}

// Makes n words of t from `at` on those of u from `from` on.
pub fn copy_words(t: &mut [u64], at: usize, u: &[u64], from: usize, n: usize)
    requires n_in_bounds { at + n ≤ length t.old }
    requires n_in_bounds_2 { from + n ≤ length u.now }
    ensures { WordsCopied u.now from at n t.old t.new }
{
    for i in 0..n {
        t[at + i] = u[from + i];
    }
}

// Makes row s of t row r of u.
pub fn copy_row(t: &mut [u64], s: usize, u: &[u64], r: usize, w: usize)
    requires has_row { HasRow t.old w s }
    requires has_row_2 { HasRow u.now w r }
    ensures { RowCopied u.now w r s t.old t.new }
{
    copy_words(t, s * w, u, r * w, w);
}

// Adds row r of u to row s of t. Apart from `join_words`, since one slice can't be lent twice, to be read and written.
pub fn join_row(t: &mut [u64], s: usize, u: &[u64], r: usize, w: usize)
    requires has_row { HasRow t.old w s }
    requires has_row_2 { HasRow u.now w r }
    ensures { RowAdded u.now w r s t.old t.new }
{
    for i in 0..w {
        t[s * w + i] |= u[r * w + i];
    }
}

// Whether all of row r of t is in row s of u. Rows of two words are apart here and below, as in `join`.
pub fn is_subset(t: &[u64], r: usize, u: &[u64], s: usize, w: usize) -> bool
    requires has_row { HasRow t.now w r }
    requires has_row_2 { HasRow u.now w s }
    ensures { result ≡ all (up_to (64 * w)) (λ b. not (member t.now w r b) || member u.now w s b) }
{
    if w == 2 {
        subset_words(t, r, u, s, 2)
    } else {
        subset_words(t, r, u, s, w)
    }
}

#[inline(always)]
fn subset_words(t: &[u64], r: usize, u: &[u64], s: usize, w: usize) -> bool
    requires has_row { HasRow t.now w r }
    requires has_row_2 { HasRow u.now w s }
    ensures { result ≡ all (up_to (64 * w)) (λ b. not (member t.now w r b) || member u.now w s b) }
{
    for i in 0..w {
        let word = t[r * w + i];
        if word & u[s * w + i] != word {
            return false;
        }
    }
    true
}

// Whether rows r and s of t are the same set.
pub fn is_same(t: &[u64], r: usize, s: usize, w: usize) -> bool
    requires has_row { HasRow t.now w r }
    requires has_row_2 { HasRow t.now w s }
    ensures { result ≡ all (up_to (64 * w)) (λ b. beq (member t.now w r b) (member t.now w s b)) }
{
    if w == 2 {
        same_words(t, r, s, 2)
    } else {
        same_words(t, r, s, w)
    }
}

#[inline(always)]
fn same_words(t: &[u64], r: usize, s: usize, w: usize) -> bool
    requires has_row { HasRow t.now w r }
    requires has_row_2 { HasRow t.now w s }
    ensures { result ≡ all (up_to (64 * w)) (λ b. beq (member t.now w r b) (member t.now w s b)) }
{
    for i in 0..w {
        if t[r * w + i] != t[s * w + i] {
            return false;
        }
    }
    true
}

// How many numbers are both in row r of t and in row s of u: set bits, counted by ones.
pub fn count_common(t: &[u64], r: usize, u: &[u64], s: usize, w: usize) -> usize
    requires has_row { HasRow t.now w r }
    requires has_row_2 { HasRow u.now w s }
    requires w_bound { 64 * w < 2 ^ 64 }
    ensures { result ≡ count (up_to (64 * w)) (λ b. member t.now w r b && member u.now w s b) }
{
    if w == 2 {
        count_words(t, r, u, s, 2)
    } else {
        count_words(t, r, u, s, w)
    }
}

#[inline(always)]
fn count_words(t: &[u64], r: usize, u: &[u64], s: usize, w: usize) -> usize
    requires has_row { HasRow t.now w r }
    requires has_row_2 { HasRow u.now w s }
    requires w_bound { 64 * w < 2 ^ 64 }
    ensures { result ≡ count (up_to (64 * w)) (λ b. member t.now w r b && member u.now w s b) }
{
    let mut n = 0;
    for i in 0..w {
        let common = t[r * w + i] & u[s * w + i];
        n += common.count_ones() as usize;
    }
    n
}
