// The first fault of a proposal, and the answer that goes with it. Every pair is looked at for 14 first: 15 can then only stand below the first
// 14, and the pairs there are supported.
ghost use Rattle.std.specs.Prelude.{◌≡◌, cond, ◌*◌, ◌≤◌, eqb, length};
ghost use Rattle.cases.specs.Refusals.{refusal_in};
ghost use Rattle.cases.specs.Rows.{CaseIn, case_in};
ghost use Rattle.fillers.specs.CaseTables.{Tables};
ghost use Rattle.lookups.specs.Edges.{set_words};
ghost use Rattle.semantics.specs.Operations.{or_else, levels_in, value_fault, pair_fault, checked};
ghost use Rattle.semantics.specs.Values.{pair_count};
ghost use Rattle.support.specs.Proposals.{Proposed};
ghost use Rattle.checker.specs.Codes.{levels_needed, proposal_fault, checked_in};

use cases::counts::Counts;
use cases::refusals::Refused;
use fillers::table::{is_small, node_sets};
use justifying::justification::level_fault;
use pairs::tallies::{tally_of, tally_targets};
use semantics::answers::Checked;
use semantics::value::Value;
use support::proposing::{check_support, propose, support_fault};

// How many pairs are supported before the first that isn't.
fn supported_pairs(pairs: usize, unsupported: Result<(), Refused>) -> usize
    ensures { result ≡ cond (eqb (refusal_in unsupported).number 0) pairs (refusal_in unsupported).place }
{
    match unsupported {
        Ok(()) => pairs,
        Err(refused) => refused.place,
    }
}

// 14 and 15: the first pair with either.
fn pair_fault(
    counts: Counts,
    rows: &[u16],
    sets: &[u64],
    values: &[u8],
    valid: &[u64],
    possible: &[u64],
    levels: &[u8],
) -> Result<(), Refused>
    requires tables { Tables counts rows.now sets.now }
    requires proposed { Proposed counts values.now valid.now possible.now }
    requires nodes_in_bounds { 2 * (counts.shapes * counts.nodes) ≤ length levels.now }
    ensures { refusal_in result ≡ pair_fault (case_in counts rows.now) values.now (levels_in (pair_count (case_in counts rows.now)) levels.now) }
{
    let unsupported = support_fault(counts, rows, sets, values, valid, possible);
    let supported = supported_pairs(counts.shapes * counts.nodes, unsupported);
    level_fault(counts, rows, sets, valid, possible, levels, supported)?;
    unsupported
}

// The first fault of the proposed values and levels.
fn check_pairs(
    counts: Counts,
    rows: &[u16],
    sets: &[u64],
    values: &[u8],
    levels: &[u8],
) -> Result<(), Refused>
    requires tables { Tables counts rows.now sets.now }
    requires nodes_in_bounds { counts.shapes * counts.nodes ≤ length values.now }
    requires nodes_in_bounds_2 { 2 * (counts.shapes * counts.nodes) ≤ length levels.now }
    ensures { refusal_in result ≡ or_else (value_fault (case_in counts rows.now) values.now) (pair_fault (case_in counts rows.now) values.now (levels_in (pair_count (case_in counts rows.now)) levels.now)) }
{
    let mut valid = [0u64; 64];
    let mut possible = [0u64; 64];
    propose(counts, values, &mut valid, &mut possible)?;
    pair_fault(counts, rows, sets, values, &valid, &possible, levels)
}

// The code that a proposal is checked under. The older one takes a supported assignment without levels, and reads none.
#[derive(Clone, Copy)]
pub enum Code {
    Older,
    Newer,
}

// The first fault of a proposal for the case in the tables.
fn fault_in(
    code: Code,
    counts: Counts,
    rows: &[u16],
    sets: &[u64],
    values: &[u8],
    levels: &[u8],
) -> Result<(), Refused>
    requires tables { Tables counts rows.now sets.now }
    requires nodes_in_bounds { counts.shapes * counts.nodes ≤ length values.now }
    requires counts_in_bounds { levels_needed code counts ≤ length levels.now }
    ensures { refusal_in result ≡ proposal_fault code (case_in counts rows.now) values.now levels.now }
{
    match code {
        Code::Older => check_support(counts, rows, sets, values),
        Code::Newer => check_pairs(counts, rows, sets, values, levels),
    }
}

// The same for the case in the rows: its sets of nodes are made in a table of N words, which has room for them.
fn fault_with<const N: usize>(
    code: Code,
    counts: Counts,
    rows: &[u16],
    values: &[u8],
    levels: &[u8],
) -> Result<(), Refused>
    requires case_in { CaseIn counts rows.now }
    requires room { set_words counts ≤ N }
    requires n_bound { N ≤ 65544 }
    requires nodes_in_bounds { counts.shapes * counts.nodes ≤ length values.now }
    requires counts_in_bounds { levels_needed code counts ≤ length levels.now }
    ensures { refusal_in result ≡ proposal_fault code (case_in counts rows.now) values.now levels.now }
{
    let mut sets = [0u64; N];
    node_sets(counts, rows, &mut sets);
    fault_in(code, counts, rows, &sets, values, levels)
}

// The same, in a table of the size that the case asks for.
pub fn proposal_fault(
    code: Code,
    counts: Counts,
    rows: &[u16],
    values: &[u8],
    levels: &[u8],
) -> Result<(), Refused>
    requires case_in { CaseIn counts rows.now }
    requires nodes_in_bounds { counts.shapes * counts.nodes ≤ length values.now }
    requires counts_in_bounds { levels_needed code counts ≤ length levels.now }
    ensures { refusal_in result ≡ proposal_fault code (case_in counts rows.now) values.now levels.now }
{
    if is_small(counts) {
        fault_with::<4104>(code, counts, rows, values, levels)
    } else {
        fault_with::<65544>(code, counts, rows, values, levels)
    }
}

// Checks a proposal for the case in the rows: its first fault, or the counts.
pub fn check_proposal(
    code: Code,
    counts: Counts,
    rows: &[u16],
    values: &[u8],
    levels: &[u8],
) -> Result<Checked, Refused>
    requires case_in { CaseIn counts rows.now }
    requires nodes_in_bounds { counts.shapes * counts.nodes ≤ length values.now }
    requires counts_in_bounds { levels_needed code counts ≤ length levels.now }
    ensures { checked_in result ≡ checked (proposal_fault code (case_in counts rows.now) values.now levels.now) (case_in counts rows.now) values.now }
{
    proposal_fault(code, counts, rows, values, levels)?;
    Ok(Checked {
        number: 0,
        place: 0,
        undetermined: tally_of(values, counts.shapes * counts.nodes, Value::OPEN),
        valid: tally_targets(counts, rows, values, Value::VALID),
    })
}
