// What is answered off the sets of valid and of possible pairs: values, verdicts and their tallies, and the totals of a node.
ghost use Rattle.std.specs.Prelude.{◌≡◌, ◌*◌, ◌<◌, ◌≤◌, length, take};
ghost use Rattle.cases.specs.Counts.{Fit};
ghost use Rattle.cases.specs.Rows.{CaseIn};
ghost use Rattle.semantics.specs.Answered.{tally_of};
ghost use Rattle.pairs.specs.Values.{AnswersWritten, node_totals};

use crate::tallies::{tally_node, tally_of};
use crate::writing::{write_values, write_verdicts};
use cases::counts::Counts;
use cases::numbers::Node;
use semantics::answers::{Tally, Totals};
use semantics::value::Value;

// Counts the first so many values and verdicts.
fn tally_answers(values: &[u8], pairs: usize, verdicts: &[u8], targets: usize) -> Tally
    requires pairs_in_bounds { pairs ≤ length values.now }
    requires targets_in_bounds { targets ≤ length verdicts.now }
    ensures { result ≡ tally_of (take pairs values.now) (take targets verdicts.now) }
{
    Tally {
        valid: tally_of(values, pairs, Value::VALID),
        undetermined: tally_of(values, pairs, Value::OPEN),
        sure: tally_of(verdicts, targets, Value::VALID),
        open: tally_of(verdicts, targets, Value::OPEN),
        impossible: tally_of(verdicts, targets, Value::VIOLATED),
    }
}

// Writes the value of every pair and the verdict of every target, and counts them.
pub fn write_answers(
    counts: Counts,
    rows: &[u16],
    valid: &[u64],
    possible: &[u64],
    values: &mut [u8],
    verdicts: &mut [u8],
) -> Tally
    requires case_in { CaseIn counts rows.now }
    requires in_bounds { 64 ≤ length valid.now }
    requires in_bounds_2 { 64 ≤ length possible.now }
    requires nodes_in_bounds { counts.shapes * counts.nodes ≤ length values.old }
    requires targets_in_bounds { counts.targets ≤ length verdicts.old }
    ensures { AnswersWritten counts rows.now valid.now possible.now values.old verdicts.old result values.new verdicts.new }
{
    let pairs = counts.shapes * counts.nodes;
    write_values(counts, valid, possible, values);
    write_verdicts(counts, rows, values, verdicts);
    tally_answers(values, pairs, verdicts, counts.targets)
}

// The totals of a node.
pub fn total_node(counts: Counts, a: Node, valid: &[u64], possible: &[u64]) -> Totals
    requires fit { Fit counts }
    requires a_lt_nodes { a.0 < counts.nodes }
    requires in_bounds { 64 ≤ length valid.now }
    requires in_bounds_2 { 64 ≤ length possible.now }
    ensures { result ≡ node_totals counts a.0 valid.now possible.now }
{
    Totals {
        number: 0,
        place: 0,
        valid: tally_node(counts, a, valid, possible, Value::VALID),
        undetermined: tally_node(counts, a, valid, possible, Value::OPEN),
    }
}
