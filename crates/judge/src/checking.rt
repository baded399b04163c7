// Checking a proposal: reading's refusals, 10, 11, 13, 14, 15, else the undetermined pairs and the valid targets. Nothing is written.
ghost use Rattle.std.specs.Prelude.{◌≡◌};
ghost use Rattle.cases.specs.Counts.{Fit};
ghost use Rattle.cases.specs.Refusals.{refusal_in, refusal_says, answer_in};
ghost use Rattle.semantics.specs.Answered.{refused_checked};
ghost use Rattle.semantics.specs.Operations.{check_answer};
ghost use Rattle.judge.specs.Checked.{short_check};

use cases::counts::Counts;
use cases::refusals::{Fault, Refused, answered};
use checker::checking::{Code, check_proposal};
use reader::reading::parse;
use semantics::answers::Checked;
use semantics::refusals::long_enough;

// 10 and 11, for tables of these lengths.
fn short_tables(counts: Counts, values: usize, levels: usize) -> Result<(), Refused>
    requires { Fit counts }
    ensures { refusal_in result ≡ short_check counts values levels }
{
    let pairs = counts.shapes * counts.nodes;
    long_enough(Fault::ShortValues, pairs, values)?;
    long_enough(Fault::ShortLevels, 2 * pairs, levels)
}

// What checking comes to.
fn check_read(case: &[u8], values: &[u8], levels: &[u8]) -> Result<Checked, Refused>
    ensures { answer_in (λ r. refused_checked (refusal_says r)) result ≡ check_answer case.now values.now levels.now }
{
    let mut rows = [0u16; 5360];
    let counts = parse(case, &mut rows)?;
    short_tables(counts, values.len(), levels.len())?;
    check_proposal(Code::Newer, counts, &rows, values, levels)
}

// Checks a proposal: a case of any bytes, and a value and a level table of any bytes and lengths.
pub fn check(case: &[u8], values: &[u8], levels: &[u8]) -> Checked
    ensures { result ≡ check_answer case.now values.now levels.now }
{
    answered(check_read(case, values, levels))
}
