// A refusal where something is not well.
ghost use Rattle.std.specs.Prelude.{◌≡◌, leb};
ghost use Rattle.cases.specs.Refusals.{fault_number, refusal_in};
ghost use Rattle.semantics.specs.Operations.{refuse_unless};

use cases::refusals::{Fault, Refused};

pub fn refused_unless(well: bool, fault: Fault, place: usize) -> Result<(), Refused>
    ensures { refusal_in result ≡ refuse_unless well (fault_number fault) place }
{
    if well { Ok(()) } else { Err(fault.at(place)) }
}

// A table shorter than needed is refused with the length needed.
pub fn long_enough(fault: Fault, needed: usize, length: usize) -> Result<(), Refused>
    ensures { refusal_in result ≡ refuse_unless (leb needed length) (fault_number fault) needed }
{
    refused_unless(needed <= length, fault, needed)
}
