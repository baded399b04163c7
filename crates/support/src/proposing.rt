// The first fault of proposed values: 13, then 14. The sets of the valid and of the possible pairs are made beside 13, and 14 is looked for
// by them.
ghost use Rattle.std.specs.Prelude.{◌≡◌, ◌*◌, ◌≤◌, length};
ghost use Rattle.cases.specs.Counts.{words_of};
ghost use Rattle.cases.specs.Refusals.{refusal_in};
ghost use Rattle.cases.specs.Rows.{case_in};
ghost use Rattle.fillers.specs.CaseTables.{Tables};
ghost use Rattle.semantics.specs.OldCode.{support_fault};
ghost use Rattle.semantics.specs.Operations.{or_else, value_fault};
ghost use Rattle.support.specs.Proposals.{Proposed, ProposedUnless, ValuesRead, RowSupported, value_fault_in};

use crate::rule_values::pair_value;
use cases::counts::Counts;
use cases::numbers::{Node, Shape};
use cases::refusals::{Fault, Refused};
use cases::ruled::{Ruled, ruled_in};
use pairs::thresholds::fill;
use semantics::refusals::refused_unless;
use semantics::value::Value;

// 13: the first pair whose byte says no value. Those below k say one.
pub fn value_fault(values: &[u8], pairs: usize) -> Result<(), Refused>
    requires { pairs ≤ length values.now }
    ensures { refusal_in result ≡ value_fault_in values.now pairs }
{
    for k in 0..pairs {
        Value::of_byte(values[k]).map_err(|fault| fault.at(k))?;
    }
    Ok(())
}

// 13; and where there is none, the sets are those of the valid and of the possible pairs.
pub fn propose(
    counts: Counts,
    values: &[u8],
    valid: &mut [u64],
    possible: &mut [u64],
) -> Result<(), Refused>
    requires nodes_bound { counts.nodes ≤ 64 * words_of counts }
    requires counts_bound { counts.shapes * words_of counts ≤ 64 }
    requires nodes_in_bounds { counts.shapes * counts.nodes ≤ length values.now }
    requires in_bounds { 64 ≤ length valid.old }
    requires in_bounds_2 { 64 ≤ length possible.old }
    ensures { ProposedUnless counts values.now valid.new possible.new (refusal_in result) }
{
    fill(counts, values, Value::VALID, valid);
    fill(counts, values, Value::OPEN, possible);
    value_fault(values, counts.shapes * counts.nodes)
}

// The first pair of a shape that is not supported. Those at the nodes below a are.
fn unsupported_row(
    of: Ruled,
    sets: &[u64],
    values: &[u8],
    valid: &[u64],
    possible: &[u64],
) -> Result<(), Refused>
    requires { ValuesRead of sets.now values.now valid.now possible.now }
    ensures { RowSupported of sets.now values.now (refusal_in result) }
{
    for a in 0..of.size.nodes {
        let k = of.shape.0 * of.size.nodes + a;
        let value = pair_value(of, Node(a), sets, values, valid, possible);
        refused_unless(values[k] == value.0, Fault::Unsupported, k)?;
    }
    Ok(())
}

// The first pair that is not supported. Those of the shapes below s are.
pub fn support_fault(
    counts: Counts,
    rows: &[u16],
    sets: &[u64],
    values: &[u8],
    valid: &[u64],
    possible: &[u64],
) -> Result<(), Refused>
    requires tables { Tables counts rows.now sets.now }
    requires proposed { Proposed counts values.now valid.now possible.now }
    ensures { refusal_in result ≡ support_fault (case_in counts rows.now) values.now }
{
    for s in 0..counts.shapes {
        let of = ruled_in(counts, rows, Shape(s));
        unsupported_row(of, sets, values, valid, possible)?;
    }
    Ok(())
}

// The first fault of the proposed values, without levels.
pub fn check_support(
    counts: Counts,
    rows: &[u16],
    sets: &[u64],
    values: &[u8],
) -> Result<(), Refused>
    requires tables { Tables counts rows.now sets.now }
    requires nodes_in_bounds { counts.shapes * counts.nodes ≤ length values.now }
    ensures { refusal_in result ≡ or_else (value_fault (case_in counts rows.now) values.now) (support_fault (case_in counts rows.now) values.now) }
{
    let mut valid = [0u64; 64];
    let mut possible = [0u64; 64];
    propose(counts, values, &mut valid, &mut possible)?;
    support_fault(counts, rows, sets, values, &valid, &possible)
}
