// One walk over the input, under the profile that it begins with. Its invariant: the tables hold the commands before `at`, none of them at
// fault, and what the whole input comes to is what the walk comes to from there.
ghost use Rattle.std.specs.Prelude.{◌≡◌, ◌*◌, ◌≤◌, length, Err, IfErr};
ghost use Rattle.cases.specs.Reading.{HeadingIs, heading_of, reading, is_end, unknown_shape};
ghost use Rattle.cases.specs.Rows.{Full};
ghost use Rattle.parts.specs.Tables.{named_in};
ghost use Rattle.cases.specs.Refusals.{refused_at, refusal_in};
ghost use Rattle.reader.specs.Parsing.{ParsedAs, parsed_in, EndRoom, EndedAs};

use crate::storing::store;
use cases::answers::{Preamble, Reading};
use cases::command::Command;
use cases::counts::Counts;
use cases::refusals::{Fault, Refused};
use finding::commands::{Reached, find, nothing_reached};
use fitness::heading::heading;
use parts::expanding::expand;

// Refusal 9: the first noted shape operand that is not in the case.
fn unknown_shape(shapes: usize, named: &[usize], count: usize) -> Result<(), Refused>
    requires { 2 * count ≤ length named.now }
    ensures { refusal_in result ≡ unknown_shape shapes (named_in named.now count) }
{
    for i in 0..count {
        if shapes <= named[2 * i] {
            return Err(Fault::UnknownShape.at(named[2 * i + 1]));
        }
    }
    Ok(())
}

// Once the end command is read: refusals 8 and 9, or the case, whose fresh shapes now get their numbers. `end` is the offset after the end
// command.
fn ended(
    bytes: usize,
    end: usize,
    reached: Reached,
    fresh: &[u16],
    named: &[usize],
    rows: &mut [u16],
) -> Result<Counts, Refused>
    requires { EndRoom reached fresh.now named.now rows.old }
    ensures { EndedAs bytes end reached fresh.now named.now rows.old (parsed_in result) rows.new }
{
    if end < bytes {
        return Err(Fault::BehindEnd.at(end));
    }
    let counts = reached.counts;
    unknown_shape(counts.shapes, named, reached.noted)?;
    Ok(expand(counts, fresh, reached.fresh, rows))
}

fn is_end(command: Command) -> bool
    ensures { result ≡ is_end command }
{
    matches!(command, Command::End)
}

// What is refused, at its place; where nothing is, no counts.
fn refused<T: Copy>(answer: Result<T, Fault>, place: usize) -> Result<Counts, Refused>
    ensures { IfErr answer (λ fault. result ≡ Err (refused_at fault place)) }
{
    match answer {
        Ok(_) => Ok(Counts::default()),
        Err(fault) => Err(fault.at(place)),
    }
}

// Reads the commands of a case into the rows, from the offset behind the profile on.
fn walk(case: &[u8], begun: Preamble, rows: &mut [u16]) -> Result<Counts, Refused>
    requires full { Full rows.old }
    requires begun_value { heading_of case.now ≡ HeadingIs begun.profile begun.width }
    ensures { ParsedAs case.now (parsed_in result) rows.new }
{
    let mut fresh = [0u16; 2168];
    let mut named = [0usize; 1660];
    let mut at = begun.width;
    let mut reached = nothing_reached(begun.profile);
    // no `for`: how far a command reaches is known when it is found
    while at < case.len() {
        let found = find(&case[at..], at, reached, rows, &mut fresh, &mut named);
        let Ok(finding) = found else {
            return refused(found, at);
        };
        let accepted = finding.accepted;
        let command = accepted.command;
        let taken = accepted.taken;
        if is_end(command) {
            return ended(case.len(), at + 1, reached, &fresh, &named, rows);
        }
        let counts = store(command, accepted.row, reached.counts, rows);
        let under = reached.profile;
        reached = Reached {
            profile: under,
            last: taken.group,
            counts,
            fresh: finding.fresh,
            noted: finding.noted,
        };
        at += taken.width;
    }
    Err(Fault::Incomplete.at(at))
}

// Reads a case into the rows.
pub fn parse(case: &[u8], rows: &mut [u16]) -> Result<Counts, Refused>
    requires { Full rows.old }
    ensures { ParsedAs case.now (parsed_in result) rows.new }
{
    let said = heading(case);
    let Ok(begun) = said else {
        return refused(said, 0);
    };
    walk(case, begun, rows)
}

// Reads a case of any bytes and any length.
pub fn read(case: &[u8]) -> Reading
    ensures { result ≡ reading case.now }
{
    let mut rows = [0u16; 5360];
    match parse(case, &mut rows) {
        Ok(counts) => Reading::from(counts),
        Err(refused) => Reading::from(refused),
    }
}
