// The judge's exports for C, thin over the entry points. A slice passes as a pointer and a length, an answer as a struct by value.
#![tactic(auto)]

ghost use Rattle.std.specs.Prelude.{◌≡◌};
ghost use Rattle.cases.specs.Reading.{reading};
ghost use Rattle.semantics.specs.Adding.{fewest_answer};
ghost use Rattle.semantics.specs.OldCode.{old_answer};
ghost use Rattle.semantics.specs.Operations.{check_answer};
ghost use Rattle.semantics.specs.Totals.{totals_answer};
ghost use Rattle.semantics.specs.Unfinished.{begun, advance_answer, asked};
ghost use Rattle.judge.specs.Equations.{SolvedAs, NumberedAs, CaseRanked};

use adding::fewest;
use cases::answers::Reading;
use judge::{checking, ranking, solving, supporting, totalling};
use reader::reading::read;
use semantics::answers::{Checked, CheckedOld, Fewest, Ranked, Solution, Totals};
use semantics::ongoing::{Advanced, Begun, Reply, Unfinished};
use unfinished::{advancing, asking, beginning};

// Solves, for the crew desk: the refusal number, 0 for none.
#[unsafe(no_mangle)]
pub extern "C" fn solve(
    case: &[u8],
    values: &mut [u8],
    levels: &mut [u8],
    verdicts: &mut [u8],
) -> usize
    ensures { NumberedAs case.now values.old levels.old verdicts.old result values.new levels.new verdicts.new }
{
    let answer = solving::solve(case, values, levels, verdicts);
    answer.number
}

// Checks, for the crew desk: the refusal number, 0 for none.
#[unsafe(no_mangle)]
pub extern "C" fn check(case: &[u8], values: &[u8], levels: &[u8]) -> usize
    ensures { result ≡ (check_answer case.now values.now levels.now).number }
{
    let answer = checking::check(case, values, levels);
    answer.number
}

#[unsafe(no_mangle)]
pub extern "C" fn judge_read(case: &[u8]) -> Reading
    ensures { result ≡ reading case.now }
{
    read(case)
}

#[unsafe(no_mangle)]
pub extern "C" fn judge_solve(
    case: &[u8],
    values: &mut [u8],
    levels: &mut [u8],
    verdicts: &mut [u8],
) -> Solution
    ensures { SolvedAs case.now values.old levels.old verdicts.old result values.new levels.new verdicts.new }
{
    solving::solve(case, values, levels, verdicts)
}

#[unsafe(no_mangle)]
pub extern "C" fn judge_check(case: &[u8], values: &[u8], levels: &[u8]) -> Checked
    ensures { result ≡ check_answer case.now values.now levels.now }
{
    checking::check(case, values, levels)
}

#[unsafe(no_mangle)]
pub extern "C" fn judge_rank(case: &[u8], strata: &mut [u8]) -> Ranked
    ensures { CaseRanked case.now strata.old result strata.new }
{
    ranking::rank(case, strata)
}

#[unsafe(no_mangle)]
pub extern "C" fn judge_node_totals(case: &[u8], node: usize) -> Totals
    ensures { result ≡ totals_answer case.now node }
{
    totalling::node_totals(case, node)
}

#[unsafe(no_mangle)]
pub extern "C" fn judge_check_supported(case: &[u8], values: &[u8]) -> CheckedOld
    ensures { result ≡ old_answer case.now values.now }
{
    supporting::check_supported(case, values)
}

#[unsafe(no_mangle)]
pub extern "C" fn judge_begin(case: &[u8]) -> Begun
    ensures { result ≡ begun case.now }
{
    beginning::begin(case)
}

#[unsafe(no_mangle)]
pub extern "C" fn judge_advance(unfinished: Unfinished) -> Advanced
    ensures { result ≡ advance_answer unfinished }
{
    advancing::advance(unfinished)
}

#[unsafe(no_mangle)]
pub extern "C" fn judge_ask(unfinished: Unfinished, pair: usize) -> Reply
    ensures { result ≡ asked unfinished pair }
{
    asking::ask(unfinished, pair)
}

#[unsafe(no_mangle)]
pub extern "C" fn judge_fewest_edges(case: &[u8], target: usize, candidates: &[u8]) -> Fewest
    ensures { result ≡ fewest_answer case.now target candidates.now }
{
    fewest::fewest_edges(case, target, candidates)
}
