// What is at fault with a command but 28, judged by the profile and by what has been read before it: refusals 1 to 7 in their order.
ghost use Rattle.std.specs.Prelude.{◌≡◌, ◌<◌, ◌&&◌, ltb, length};
ghost use Rattle.cases.specs.Faults.{in_order, within_limit, nodes_known, paths_earlier, least_positive};
ghost use Rattle.cases.specs.Reading.{judged, step_at, step_says};

use crate::shapes::{all_earlier, shape_least_positive, shape_nodes_known, shape_paths_earlier};
use cases::answers::Accepted;
use cases::command::{Command, command_of};
use cases::counts::{Counts, EDGE_LIMIT, PATH_LIMIT, TARGET_LIMIT, node_limit, shape_limit};
use cases::format::{format_of, read_operands, taken_by};
use cases::numbers::Node;
use cases::paths::paths_of_path;
use cases::refusals::Fault;

// Whether a command of this group may come after one of the group `last`, 0 before the 01: one 01 first, then the groups in their order. A 00,
// of group 0, may come nowhere here.
pub fn in_order(last: usize, group: usize) -> bool
    ensures { result ≡ in_order last group }
{
    if last == 0 {
        return group == 1;
    }
    if group == 1 {
        return false;
    }
    last <= group
}

fn within_limit(profile: usize, counts: Counts, command: Command) -> bool
    ensures { result ≡ within_limit profile counts command }
{
    match command {
        Command::Nodes(n) => n <= node_limit(profile),
        Command::Edge(_) => counts.edges < EDGE_LIMIT,
        Command::Path(_) => counts.paths < PATH_LIMIT,
        Command::Shape(_) => counts.shapes < shape_limit(profile),
        Command::Target(_) => counts.targets < TARGET_LIMIT,
        Command::End => true,
    }
}

// Whether both nodes are below the node count.
fn both_known(a: Node, b: Node, nodes: usize) -> bool
    ensures { result ≡ ltb a.0 nodes && ltb b.0 nodes }
{
    a.0 < nodes && b.0 < nodes
}

fn nodes_known(counts: Counts, command: Command) -> bool
    ensures { result ≡ nodes_known counts command }
{
    match command {
        Command::Nodes(_) => true,
        Command::Edge(e) => both_known(e.subject, e.object, counts.nodes),
        Command::Path(_) => true,
        Command::Shape(rule) => shape_nodes_known(counts.nodes, rule),
        Command::Target(t) => t.node.0 < counts.nodes,
        Command::End => true,
    }
}

fn paths_earlier(counts: Counts, command: Command) -> bool
    ensures { result ≡ paths_earlier counts command }
{
    match command {
        Command::Nodes(_) => true,
        Command::Edge(_) => true,
        Command::Path(rule) => all_earlier(paths_of_path(rule), counts.paths),
        Command::Shape(rule) => shape_paths_earlier(counts.paths, rule),
        Command::Target(_) => true,
        Command::End => true,
    }
}

fn least_positive(command: Command) -> bool
    ensures { result ≡ least_positive command }
{
    match command {
        Command::Nodes(_) => true,
        Command::Edge(_) => true,
        Command::Path(_) => true,
        Command::Shape(rule) => shape_least_positive(rule),
        Command::Target(_) => true,
        Command::End => true,
    }
}

// Judges a command that is there whole: refusals 4 to 7.
fn judge(profile: usize, counts: Counts, found: Accepted) -> Result<Accepted, Fault>
    ensures { step_says result ≡ judged profile counts found.command found.row found.taken }
{
    let command = found.command;
    if !within_limit(profile, counts, command) {
        return Err(Fault::BeyondLimit);
    }
    if !nodes_known(counts, command) {
        return Err(Fault::UnknownNode);
    }
    if !paths_earlier(counts, command) {
        return Err(Fault::UnknownPath);
    }
    if !least_positive(command) {
        return Err(Fault::LeastZero);
    }
    Ok(found)
}

// Reads and judges the command that `part` starts with, under a profile and after one of the group `last`.
pub fn next(part: &[u8], profile: usize, last: usize, counts: Counts) -> Result<Accepted, Fault>
    requires { 0 < length part.now }
    ensures { step_says result ≡ step_at profile last counts part.now }
{
    let format = format_of(part[0]);
    let taken = taken_by(format);
    let group = taken.group;
    if group == 7 {
        return Err(Fault::UnknownCommand);
    }
    if !in_order(last, group) {
        return Err(Fault::OutOfOrder);
    }
    let Some(row) = read_operands(part, format) else {
        return Err(Fault::Incomplete);
    };
    let command = command_of(group, row);
    judge(
        profile,
        counts,
        Accepted {
            command,
            row,
            taken,
        },
    )
}
