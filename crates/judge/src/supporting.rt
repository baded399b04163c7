// Checking under the old code, which takes a supported assignment without levels: refusals 1 to 10, 13 and 14 and reading's later ones, else
// checking's counts; and in each case the byte 1. Nothing is written.
ghost use Rattle.std.specs.Prelude.{◌≡◌};
ghost use Rattle.cases.specs.Refusals.{refusal_says, answer_in};
ghost use Rattle.semantics.specs.Answered.{refused_checked};
ghost use Rattle.semantics.specs.OldCode.{old_answer, with_old_code};

use cases::refusals::{Fault, Refused, answered};
use checker::checking::{Code, check_proposal};
use reader::reading::parse;
use semantics::answers::{Checked, CheckedOld};
use semantics::refusals::long_enough;

// What checking comes to, but for the byte 1.
fn support_read(case: &[u8], values: &[u8]) -> Result<Checked, Refused>
    ensures { with_old_code (answer_in (λ r. refused_checked (refusal_says r)) result) ≡ old_answer case.now values.now }
{
    let mut rows = [0u16; 5360];
    let counts = parse(case, &mut rows)?;
    long_enough(
        Fault::ShortValues,
        counts.shapes * counts.nodes,
        values.len(),
    )?;
    check_proposal(Code::Older, counts, &rows, values, &values[..0])
}

// Checks values of any bytes and length for a case of any bytes. No levels are read, so there are none to pass.
pub fn check_supported(case: &[u8], values: &[u8]) -> CheckedOld
    ensures { result ≡ old_answer case.now values.now }
{
    let checked: Checked = answered(support_read(case, values));
    CheckedOld::from(checked)
}
