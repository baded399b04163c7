// What the input begins with: the profile, which a 00 may say, else 0. Refusals 3 and 22 of that command.
ghost use Rattle.std.specs.Prelude.{◌≡◌, true};
ghost use Rattle.cases.specs.Reading.{headed, heading_of, heading_says};

use cases::answers::Preamble;
use cases::counts::is_profile;
use cases::format::{format_of, read_operands};
use cases::refusals::Fault;

// The profile that a 00 says.
fn said_profile(case: &[u8]) -> Result<Preamble, Fault>
    requires { headed case.now ≡ true }
    ensures { heading_says result ≡ heading_of case.now }
{
    let Some(row) = read_operands(case, format_of(0x00)) else {
        return Err(Fault::Incomplete);
    };
    let profile = usize::from(row.1);
    if !is_profile(profile) {
        return Err(Fault::UnknownProfile);
    }
    Ok(Preamble { profile, width: 2 })
}

// The profile of a case of any bytes, and how many of them say it.
pub fn heading(case: &[u8]) -> Result<Preamble, Fault>
    ensures { heading_says result ≡ heading_of case.now }
{
    match case {
        [0x00, ..] => said_profile(case),
        _ => Ok(Preamble {
            profile: 0,
            width: 0,
        }),
    }
}
