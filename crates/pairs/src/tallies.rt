// How many of the first bytes of a table, how many targets, and how many pairs of a node have a value.
ghost use Rattle.std.specs.Prelude.{◌≡◌, ◌*◌, ◌<◌, ◌≤◌, length, take};
ghost use Rattle.cases.specs.Counts.{Fit};
ghost use Rattle.cases.specs.Rows.{CaseIn, case_in};
ghost use Rattle.semantics.specs.Operations.{tally};
ghost use Rattle.semantics.specs.Solving.{target_values};
ghost use Rattle.pairs.specs.Values.{node_values};

use crate::writing::{target_value, value_at};
use cases::counts::{Counts, size_of};
use cases::numbers::{Node, Shape};
use semantics::value::Value;

// How many of the first n bytes are v. Those below i are counted, without a branch: bytes may stand in any order.
pub fn tally_of(bytes: &[u8], n: usize, v: Value) -> usize
    requires { n ≤ length bytes.now }
    ensures { result ≡ tally v.0 (take n bytes.now) }
{
    let mut count = 0;
    for i in 0..n {
        count += usize::from(bytes[i] == v.0);
    }
    count
}

// How many targets have the value v.
pub fn tally_targets(counts: Counts, rows: &[u16], values: &[u8], v: Value) -> usize
    requires case_in { CaseIn counts rows.now }
    requires nodes_in_bounds { counts.shapes * counts.nodes ≤ length values.now }
    ensures { result ≡ tally v.0 (target_values (case_in counts rows.now) values.now) }
{
    (0..counts.targets)
        .filter(|i| target_value(counts, rows, *i, values) == v.0)
        .count()
}

// How many pairs of node a have the value v, off the two sets of pairs.
pub fn tally_node(counts: Counts, a: Node, valid: &[u64], possible: &[u64], v: Value) -> usize
    requires fit { Fit counts }
    requires a_lt_nodes { a.0 < counts.nodes }
    requires in_bounds { 64 ≤ length valid.now }
    requires in_bounds_2 { 64 ≤ length possible.now }
    ensures { result ≡ tally v.0 (node_values counts a.0 valid.now possible.now) }
{
    let size = size_of(counts);
    (0..counts.shapes)
        .filter(|s| value_at(size, Shape(*s), a, valid, possible) == v)
        .count()
}
