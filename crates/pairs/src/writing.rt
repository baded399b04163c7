// Writing the value of each pair, off the set of valid pairs and the set of possible ones, and the verdict of each target, its pair's value.
ghost use Rattle.std.specs.Prelude.{◌≡◌, cond, ◌+◌, ◌*◌, ◌<◌, ◌≤◌, length, get_or};
ghost use Rattle.bitset.specs.Words.{HasRow};
ghost use Rattle.cases.specs.Counts.{Fit};
ghost use Rattle.cases.specs.Rows.{CaseIn};
ghost use Rattle.fixpoint.specs.Entries.{Put};
ghost use Rattle.pairs.specs.Values.{value_in, target_pair, ValuesWritten, VerdictsWritten};

use bitset::rows::is_member;
use cases::counts::{Counts, Size, size_of};
use cases::numbers::{Node, Shape};
use cases::rows::target_in;
use semantics::value::Value;

// Valid if the pair is in the valid set, undetermined if it is only in the possible one.
pub fn value_of(valid: bool, possible: bool) -> Value
    ensures { result.0 ≡ cond valid 2 (cond possible 1 0) }
{
    if valid {
        Value::VALID
    } else if possible {
        Value::OPEN
    } else {
        Value::VIOLATED
    }
}

// The value of shape s at node a.
pub fn value_at(size: Size, s: Shape, a: Node, valid: &[u64], possible: &[u64]) -> Value
    requires nodes_bound { size.nodes ≤ 64 * size.words }
    requires a_lt_nodes { a.0 < size.nodes }
    requires has_row { HasRow valid.now size.words s.0 }
    requires has_row_2 { HasRow possible.now size.words s.0 }
    ensures { result.0 ≡ value_in size valid.now possible.now (s.0 * size.nodes + a.0) }
{
    value_of(
        is_member(valid, size.words, s.0, a.0),
        is_member(possible, size.words, s.0, a.0),
    )
}

// Writes the values of shape s. Those of the nodes below a are written.
fn write_row(size: Size, s: Shape, valid: &[u64], possible: &[u64], values: &mut [u8])
    requires nodes_bound { size.nodes ≤ 64 * size.words }
    requires has_row { HasRow valid.now size.words s.0 }
    requires has_row_2 { HasRow possible.now size.words s.0 }
    requires nodes_in_bounds { s.0 * size.nodes + size.nodes ≤ length values.old }
    ensures { Put (value_in size valid.now possible.now) (s.0 * size.nodes) (s.0 * size.nodes + size.nodes) values.old values.new }
{
    let base = s.0 * size.nodes;
    for a in 0..size.nodes {
        values[base + a] = value_at(size, s, Node(a), valid, possible).0;
    }
}

// Writes the value of every pair. Those of the shapes below s are written.
pub fn write_values(counts: Counts, valid: &[u64], possible: &[u64], values: &mut [u8])
    requires fit { Fit counts }
    requires in_bounds { 64 ≤ length valid.now }
    requires in_bounds_2 { 64 ≤ length possible.now }
    requires nodes_in_bounds { counts.shapes * counts.nodes ≤ length values.old }
    ensures { ValuesWritten counts valid.now possible.now values.old values.new }
{
    let size = size_of(counts);
    for s in 0..counts.shapes {
        write_row(size, Shape(s), valid, possible, values);
    }
}

// The value of target i.
pub fn target_value(counts: Counts, rows: &[u16], i: usize, values: &[u8]) -> u8
    requires case_in { CaseIn counts rows.now }
    requires nodes_in_bounds { counts.shapes * counts.nodes ≤ length values.now }
    requires i_lt_targets { i < counts.targets }
    ensures { result ≡ get_or values.now (target_pair counts rows.now i) 0 }
{
    let target = target_in(rows, i);
    let pair = target.shape.0 * counts.nodes + target.node.0;
    values[pair]
}

// Writes the verdict of every target. Those of the targets below i are written.
pub fn write_verdicts(counts: Counts, rows: &[u16], values: &[u8], verdicts: &mut [u8])
    requires case_in { CaseIn counts rows.now }
    requires nodes_in_bounds { counts.shapes * counts.nodes ≤ length values.now }
    requires targets_in_bounds { counts.targets ≤ length verdicts.old }
    ensures { VerdictsWritten counts rows.now values.now verdicts.old verdicts.new }
{
    for i in 0..counts.targets {
        verdicts[i] = target_value(counts, rows, i, values);
    }
}
