// Beginning: the state takes a copy of the case, that of 01 00 00 FF where the input is refused. No pair is settled.
ghost use Rattle.std.specs.Prelude.{◌≡◌, ◌≤◌, length};
ghost use Rattle.cases.specs.Reading.{reading};
ghost use Rattle.semantics.specs.Unfinished.{begun, first_state_with, first_state, held_input};

use cases::answers::Reading;
use reader::reading::read;
use semantics::ongoing::{Begun, Unfinished};

// A state that has taken no round, of an input with so many pairs.
fn open_input(input: &[u8], pairs: usize) -> Unfinished
    requires { length input.now ≤ 8192 }
    ensures { result ≡ first_state_with input.now pairs }
{
    let mut held = [0u8; 8192];
    held[..input.len()].copy_from_slice(input);
    Unfinished {
        bytes: held,
        length: input.len(),
        values: [1u8; 4096],
        pairs,
        over: 0,
    }
}

// The state that goes with what reading answers.
fn start(case: &[u8], answer: Reading) -> Unfinished
    requires { answer ≡ reading case.now }
    ensures { result ≡ first_state (held_input case.now) }
{
    // reading's answer is a struct for C, which holds the number
    if answer.number != 0 {
        return open_input(b"\x01\x00\x00\xff", 0);
    }
    open_input(case, answer.shapes * answer.nodes)
}

// Begins a solve of a case of any bytes.
pub fn begin(case: &[u8]) -> Begun
    ensures { result ≡ begun case.now }
{
    let answer = read(case);
    Begun {
        number: answer.number,
        place: answer.place,
        nodes: answer.nodes,
        edges: answer.edges,
        paths: answer.paths,
        shapes: answer.shapes,
        targets: answer.targets,
        unfinished: start(case, answer),
    }
}
