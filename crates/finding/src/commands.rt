// What is found where a command should start: a command with its row, and, in tables of their own, the fresh shapes that it makes and the shapes
// that it names. A 28 has a form of its own; every other command is judged by `next`. 19 is the last check of every shape command, 20 that of a 03.
ghost use Rattle.std.specs.Prelude.{◌≡◌, ◌+◌, ◌≤◌, map};
ghost use Rattle.fixpoint.specs.Lists.{up_to};
ghost use Rattle.cases.specs.Rows.{edge_in};
ghost use Rattle.finding.specs.Finding.{nothing_reached, shape_finding, part_finding, is_shape, with_room, with_edge};
ghost use Rattle.finding.specs.Finding.{PlainRoom, PlainAs, FindRoom, NestedAs, RoomyAs, RowRoom, FoundAs};

use crate::noting::note;
use cases::answers::{Accepted, Taken};
use cases::command::{Command, Row, ShapeRule};
use cases::counts::{Counts, shape_limit};
use cases::refusals::Fault;
use fitness::faults::{in_order, next};
use fitness::parking::edge_there;
use parts::readers::{Cursor, Opened, read_part};

// What has been read: the profile, the last command's group, the counts of what the rows hold, and how many fresh rows and notes there are.
#[derive(Clone, Copy)]
pub struct Reached {
    pub profile: usize,
    pub last: usize,
    pub counts: Counts,
    pub fresh: usize,
    pub noted: usize,
}

// Nothing but the profile.
pub fn nothing_reached(profile: usize) -> Reached
    ensures { result ≡ nothing_reached profile }
{
    Reached {
        profile,
        last: 0,
        counts: Counts::default(),
        fresh: 0,
        noted: 0,
    }
}

// A command, and how many fresh rows and notes there are with it.
#[derive(Clone, Copy)]
pub struct Finding {
    pub accepted: Accepted,
    pub fresh: usize,
    pub noted: usize,
}

// A command but 28, and the shapes that it names noted.
fn find_plain(
    part: &[u8],
    at: usize,
    reached: Reached,
    named: &mut [usize],
) -> Result<Finding, Fault>
    requires { PlainRoom part.now reached named.old }
    ensures { PlainAs part.now at reached named.old result named.new }
{
    let accepted = next(part, reached.profile, reached.last, reached.counts)?;
    let noted = note(accepted.command, at, named, reached.noted);
    Ok(Finding {
        accepted,
        fresh: reached.fresh,
        noted,
    })
}

// A shape whose rule is the row's, read up to the cursor.
fn shape_finding(row: Row, after: Cursor) -> Finding
    ensures { result ≡ shape_finding row after }
{
    Finding {
        accepted: Accepted {
            command: Command::Shape(ShapeRule::from(row)),
            row,
            taken: Taken {
                group: 4,
                width: after.at,
            },
        },
        fresh: after.fresh,
        noted: after.noted,
    }
}

// A part as a written shape: a named shape is the or of that shape with itself.
fn part_finding(opened: Opened) -> Finding
    ensures { result ≡ part_finding opened }
{
    match opened {
        Opened::Name(shape, after) => shape_finding(Row(0x23, shape, shape, 0), after),
        Opened::Rule(row, after) => shape_finding(row, after),
    }
}

// A 28: 2 and 4 first, then its parts, of which eight levels may open.
fn find_nested(
    part: &[u8],
    at: usize,
    reached: Reached,
    fresh: &mut [u16],
    named: &mut [usize],
) -> Result<Finding, Fault>
    requires { FindRoom part.now reached fresh.old named.old }
    ensures { NestedAs part.now at reached fresh.old named.old result fresh.new named.new }
{
    let counts = reached.counts;
    if !in_order(reached.last, 4) {
        return Err(Fault::OutOfOrder);
    }
    if shape_limit(reached.profile) <= counts.shapes {
        return Err(Fault::BeyondLimit);
    }
    let cursor = Cursor {
        place: at,
        at: 1,
        fresh: reached.fresh,
        noted: reached.noted,
    };
    let opened = read_part(part, 7, counts, cursor, fresh, named)?;
    Ok(part_finding(opened))
}

fn is_shape(command: Command) -> bool
    ensures { result ≡ is_shape command }
{
    matches!(command, Command::Shape(_))
}

// 19, after all other checks of a shape command: there are already as many shapes as there may be under the profile.
fn with_room(finding: Finding, reached: Reached) -> Result<Finding, Fault>
    requires { reached.counts.shapes + finding.fresh ≤ 1000 }
    ensures { result ≡ with_room finding reached }
{
    let shapes = reached.counts.shapes + finding.fresh;
    if is_shape(finding.accepted.command) && shape_limit(reached.profile) <= shapes {
        return Err(Fault::TooManyShapes);
    }
    Ok(finding)
}

// Any command, judged by all but 20.
fn find_roomy(
    part: &[u8],
    at: usize,
    reached: Reached,
    fresh: &mut [u16],
    named: &mut [usize],
) -> Result<Finding, Fault>
    requires { FindRoom part.now reached fresh.old named.old }
    ensures { RoomyAs part.now at reached fresh.old named.old result fresh.new named.new }
{
    let finding = if part[0] == 0x28 {
        find_nested(part, at, reached, fresh, named)?
    } else {
        find_plain(part, at, reached, named)?
    };
    with_room(finding, reached)
}

// 20, after all other checks of a 03. The rows hold the edges so far.
fn with_edge(finding: Finding, reached: Reached, rows: &[u16]) -> Result<Finding, Fault>
    requires { RowRoom reached.counts.edges rows.now }
    ensures { result ≡ with_edge finding (map (edge_in rows.now) (up_to reached.counts.edges)) }
{
    let counts = reached.counts;
    if !edge_there(finding.accepted.command, counts.edges, rows) {
        return Err(Fault::NeverLaid);
    }
    Ok(finding)
}

// Finds the command that `part` starts with, which stands at `at`.
pub fn find(
    part: &[u8],
    at: usize,
    reached: Reached,
    rows: &[u16],
    fresh: &mut [u16],
    named: &mut [usize],
) -> Result<Finding, Fault>
    requires find_room { FindRoom part.now reached fresh.old named.old }
    requires row_room { RowRoom reached.counts.edges rows.now }
    ensures { FoundAs part.now at reached rows.now fresh.old named.old result fresh.new named.new }
{
    let found = find_roomy(part, at, reached, fresh, named);
    let Ok(finding) = found else {
        return found;
    };
    with_edge(finding, reached, rows)
}
