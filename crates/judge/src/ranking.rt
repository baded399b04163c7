// Ranking shapes by denial: reading's refusals, 16, 17, else a byte for each shape and the number of strata.
ghost use Rattle.cases.specs.Refusals.{refusal_says, answer_in};
ghost use Rattle.judge.specs.Equations.{CaseRanked};
ghost use Rattle.semantics.specs.Answered.{ranked_by};

use cases::refusals::{Fault, Refused, answered};
use reader::reading::parse;
use semantics::answers::Ranked;
use semantics::refusals::long_enough;
use strata::ranks::rank_shapes;

// What ranking comes to.
fn rank_read(case: &[u8], strata: &mut [u8]) -> Result<Ranked, Refused>
    ensures { CaseRanked case.now strata.old (answer_in (λ r. ranked_by (refusal_says r) 0) result) strata.new }
{
    let mut rows = [0u16; 5360];
    let counts = parse(case, &mut rows)?;
    long_enough(Fault::ShortStrata, counts.shapes, strata.len())?;
    let count = rank_shapes(counts, &rows, strata)?;
    Ok(Ranked::ranked(count))
}

// Ranks the shapes of a case of any bytes, into a table of any length.
pub fn rank(case: &[u8], strata: &mut [u8]) -> Ranked
    ensures { CaseRanked case.now strata.old result strata.new }
{
    answered(rank_read(case, strata))
}
