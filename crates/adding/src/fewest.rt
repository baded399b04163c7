// The fewest edges to add: reading's refusals, 23 and 24, then the first key whose selection makes the target sure, or 25.
ghost use Rattle.std.specs.Prelude.{◌≡◌};
ghost use Rattle.cases.specs.Refusals.{answer_in, refusal_in, refusal_says};
ghost use Rattle.cases.specs.Rows.{case_in};
ghost use Rattle.semantics.specs.Adding.{key_count, fewest_answer};
ghost use Rattle.semantics.specs.Answered.{fewest_by};
ghost use Rattle.adding.specs.Answering.{asked_fault};
ghost use Rattle.adding.specs.Deciding.{sure_over};
ghost use Rattle.adding.specs.Searching.{Searchable, first_sure_below};

use crate::candidates::{first_unknown, is_fit};
use crate::searching::{search, selection_count};
use crate::slicing::slice_shapes;
use cases::command::Target;
use cases::counts::Counts;
use cases::refusals::{Fault, Refused, answered};
use cases::rows::target_in;
use reader::reading::parse;
use references::reaching::reached;
use semantics::answers::Fewest;
use semantics::refusals::refused_unless;

// 23 and 24, by the counts of the case.
fn asked_fault(counts: Counts, target: usize, list: &[u8]) -> Result<(), Refused>
    ensures { refusal_in result ≡ asked_fault counts target list.now }
{
    refused_unless(is_fit(list.len()), Fault::UnfitList, list.len())?;
    refused_unless(target < counts.targets, Fault::NotInCase, 0)?;
    first_unknown(list, counts.nodes)
}

// The first key of the case in the rows, over the shapes that the target depends on.
fn sliced_key(counts: Counts, pair: Target, list: &[u8], rows: &mut [u16]) -> Option<usize>
    requires { Searchable counts pair rows.old list.now }
    ensures { result ≡ first_sure_below (key_count list.now) (sure_over (case_in counts rows.old) pair list.now) }
{
    let set = reached(counts, rows, pair.shape);
    slice_shapes(counts.shapes, set, rows);
    search(counts, pair, rows, list)
}

// What the call comes to.
fn fewest(case: &[u8], target: usize, candidates: &[u8]) -> Result<Fewest, Refused>
    ensures { answer_in (λ r. fewest_by (refusal_says r) 0) result ≡ fewest_answer case.now target candidates.now }
{
    let mut rows = [0u16; 5360];
    let counts = parse(case, &mut rows)?;
    asked_fault(counts, target, candidates)?;
    let pair = target_in(&rows, target);
    let found = sliced_key(counts, pair, candidates, &mut rows);
    let key = found.ok_or(Fault::NoneSuffices.at(0))?;
    Ok(Fewest::selected(key % selection_count(candidates.len() / 5)))
}

// The fewest candidates that make a target sure, of a case of any bytes, a target of any number and a list of any bytes.
pub fn fewest_edges(case: &[u8], target: usize, candidates: &[u8]) -> Fewest
    ensures { result ≡ fewest_answer case.now target candidates.now }
{
    answered(fewest(case, target, candidates))
}
