// What reading answers: of what the input begins with, of one command, of the whole input.
ghost use Rattle.std.specs.Prelude.{◌≡◌};
ghost use Rattle.cases.specs.Reading.{reading_of, reading_refused};

use crate::command::{Command, Row};
use crate::counts::Counts;
use crate::refusals::Refused;

// What the input begins with: the profile and how many bytes say it.
#[derive(Clone, Copy)]
pub struct Preamble {
    // a number: `node_limit` and `shape_limit` promise their answers for every number
    pub profile: usize,
    pub width: usize,
}

// What a command takes of the input: its group, in the order in which the groups stand, and its bytes.
#[derive(Clone, Copy)]
pub struct Taken {
    // a number: `command_of` and `in_order` promise their answers for every number
    pub group: usize,
    pub width: usize,
}

// What reading finds where a command should start, where it is not refused: a command, its row and what it takes.
#[derive(Clone, Copy)]
pub struct Accepted {
    pub command: Command,
    pub row: Row,
    pub taken: Taken,
}

// What `read` answers: number and place of the refusal, 0 for none, and the counts, 0 on a refusal.
#[repr(C)]
#[derive(Clone, Copy)]
pub struct Reading {
    pub number: usize,
    pub place: usize,
    pub nodes: usize,
    pub edges: usize,
    pub paths: usize,
    pub shapes: usize,
    pub targets: usize,
}

impl From<Counts> for Reading {
    ghost from_gives = { λ counts reading. reading ≡ reading_of counts };

    fn from(counts: Counts) -> Reading {
        Reading {
            number: 0,
            place: 0,
            nodes: counts.nodes,
            edges: counts.edges,
            paths: counts.paths,
            shapes: counts.shapes,
            targets: counts.targets,
        }
    }
}

impl From<Refused> for Reading {
    ghost from_gives = { λ refused reading. reading ≡ reading_refused refused };

    fn from(refused: Refused) -> Reading {
        Reading {
            number: refused.fault.number(),
            place: refused.place,
            nodes: 0,
            edges: 0,
            paths: 0,
            shapes: 0,
            targets: 0,
        }
    }
}
