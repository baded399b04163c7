// A solve that is not finished, as a state by value: its own copy of the case and the value of each pair so far; and what its calls answer.
ghost use Rattle.std.specs.Prelude.{◌≡◌, min};
ghost use Rattle.cases.specs.Refusals.{refusal_says};
ghost use Rattle.semantics.specs.Answered.{refused_reply};
ghost use Rattle.semantics.specs.Unfinished.{certainty, reply_number};

use crate::value::Value;
use cases::refusals::Refused;

// The values: 2 in the last T, 0 outside the last P worked out, else 1. `over` is 0 until the end is reached.
#[repr(C)]
#[derive(Clone, Copy)]
pub struct Unfinished {
    pub bytes: [u8; 8192],
    pub length: usize,
    pub values: [u8; 4096],
    pub pairs: usize,
    pub over: usize,
}

#[repr(C)]
#[derive(Clone, Copy)]
pub struct Begun {
    pub number: usize,
    pub place: usize,
    pub nodes: usize,
    pub edges: usize,
    pub paths: usize,
    pub shapes: usize,
    pub targets: usize,
    pub unfinished: Unfinished,
}

#[repr(C)]
#[derive(Clone, Copy)]
pub struct Advanced {
    pub over: usize,
    pub unfinished: Unfinished,
}

#[repr(C)]
#[derive(Clone, Copy)]
pub struct Reply {
    pub number: usize,
    pub place: usize,
    pub reply: usize,
}

impl From<Refused> for Reply {
    ghost from_gives = { λ refused reply. reply ≡ refused_reply (refusal_says refused) };

    fn from(refused: Refused) -> Reply {
        Reply {
            number: refused.fault.number(),
            place: refused.place,
            reply: 0,
        }
    }
}

// What is certain of a pair while a solve is unfinished, and when it is over, in the order of the replies.
#[derive(Clone, Copy, PartialEq, Eq)]
pub enum Certainty {
    Impossible,
    Open,
    Sure,
    NotYet,
}

// The value that a byte of a state stands for. A byte above 2, which no call writes, is as good as 2.
pub fn held_value(byte: u8) -> Value
    ensures { result.0 ≡ min byte 2 }
{
    Value::of_byte(byte).unwrap_or(Value::VALID)
}

// By the value of a pair so far, and whether the end is reached.
pub fn certainty_of(value: Value, over: bool) -> Certainty
    ensures { result ≡ certainty value.0 over }
{
    if 2 <= value.0 {
        return Certainty::Sure;
    }
    if value.0 == 0 {
        return Certainty::Impossible;
    }
    if over {
        return Certainty::Open;
    }
    Certainty::NotYet
}

pub fn reply_number(certainty: Certainty) -> usize
    ensures { result ≡ reply_number certainty }
{
    certainty as usize
}
