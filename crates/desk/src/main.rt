// The desk program: reads a case from standard input, solves it, and prints the rounds, each shape's values by node, and the verdicts;
// or `too long`, or the refusal.
#![tactic(auto)]

use judge::solving::solve;
use listing::{print_listing, print_refusal};
use reader::reading::read;

// standard input
const IN: i32 = 0;

// standard output
const OUT: i32 = 1;

// The longest case that the desk takes.
const MOST: usize = 8192;

// Solves the case into tables that are long enough for every case.
fn print_solution(case: &[u8]) {
    let mut values = [0u8; 4096];
    let mut levels = [0u8; 8192];
    let mut verdicts = [0u8; 256];
    let read = read(case);
    let solved = solve(case, &mut values, &mut levels, &mut verdicts);
    // the answers are structs for C, which hold the number
    if solved.number != 0 {
        print_refusal(solved.number, solved.place);
    } else {
        print_listing(
            read.nodes,
            read.shapes,
            read.targets,
            solved.rounds,
            &values,
            &verdicts,
        );
    }
}

fn main() {
    let mut input = [0u8; 8193];
    let n = io::read_full(IN, &mut input);
    if n > MOST {
        io::write_all(OUT, b"too long\n");
        return;
    }
    print_solution(&input[..n]);
}
