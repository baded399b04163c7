// Runs the calls that its input names, a line each, and prints what they answer: the samples of document 01, each limit and each refusal.
#![tactic(auto)]

mod calls;
mod text;

use calls::{answer, print};
use text::{Table, cut};

// standard input
const IN: i32 = 0;

// Line by line, with no case at first: a line that reads sets it anew.
fn run(input: &[u8]) {
    let mut case = None;
    for ended in input.split_inclusive(|b| *b == b'\n') {
        let (line, _) = cut(ended, b'\n');
        let (call, _) = cut(line, b' ');
        let (title, given) = cut(line, b':');
        match call {
            b"#" => continue,
            b"read" => case = Table::read(given),
            _ => {}
        }
        print(title);
        print(b":");
        let answered = case
            .as_ref()
            .and_then(|case| answer(call, title, case.as_slice(), given));
        if answered.is_none() {
            print(b" not understood");
        }
        print(b"\n");
    }
}

fn main() {
    let mut input = [0u8; 16384];
    let n = io::read_full(IN, &mut input);
    run(&input[..n]);
    if n == 16384 {
        print(b"input too long\n");
    }
}
