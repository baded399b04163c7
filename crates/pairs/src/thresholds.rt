// The sets of the pairs that have at least a value, as tables of words: row s holds the nodes of shape s.
ghost use Rattle.std.specs.Prelude.{◌+◌, ◌*◌, ◌≤◌, length};
ghost use Rattle.bitset.specs.Words.{HasRow};
ghost use Rattle.cases.specs.Counts.{words_of};
ghost use Rattle.pairs.specs.Sets.{RowAtLeast, Threshold};

use bitset::rows::{clear, insert};
use cases::counts::{Counts, Size, size_of};
use cases::numbers::Shape;
use semantics::value::Value;

// Puts the nodes at which shape s has at least the value into row s, which is empty. Those below a are there.
fn fill_row(size: Size, s: Shape, values: &[u8], least: Value, table: &mut [u64])
    requires nodes_bound { size.nodes ≤ 64 * size.words }
    requires has_row { HasRow table.old size.words s.0 }
    requires nodes_in_bounds { s.0 * size.nodes + size.nodes ≤ length values.now }
    ensures { RowAtLeast size s.0 values.now least.0 table.old table.new }
{
    for a in 0..size.nodes {
        if least.0 <= values[s.0 * size.nodes + a] {
            insert(table, size.words, s.0, a);
        }
    }
}

// Makes the table the set of the pairs that have at least the value. The rows of the shapes below s are done.
pub fn fill(counts: Counts, values: &[u8], least: Value, table: &mut [u64])
    requires nodes_bound { counts.nodes ≤ 64 * words_of counts }
    requires counts_bound { counts.shapes * words_of counts ≤ 64 }
    requires nodes_in_bounds { counts.shapes * counts.nodes ≤ length values.now }
    requires in_bounds { 64 ≤ length table.old }
    ensures { Threshold counts values.now least.0 table.new }
{
    clear(table);
    for s in 0..counts.shapes {
        fill_row(size_of(counts), Shape(s), values, least, table);
    }
}
