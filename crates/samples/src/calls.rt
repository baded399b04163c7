// Each call: what a line gives it, and the numbers that it answers. `None` where the line is not understood; nothing is printed then.
use crate::text::{Table, cut, decimal};
use adding::fewest::fewest_edges;
use judge::checking::check;
use judge::ranking::rank;
use judge::solving::solve;
use judge::supporting::check_supported;
use judge::totalling::node_totals;
use reader::reading::read;
use semantics::ongoing::Unfinished;
use unfinished::advancing::advance;
use unfinished::asking::ask;
use unfinished::beginning::begin;

// standard output
const OUT: i32 = 1;

pub fn print(text: &[u8]) {
    io::write_all(OUT, text);
}

fn print_numbers(numbers: &[usize]) {
    for n in numbers {
        print(b" ");
        io::print_decimal(OUT, *n as u64);
    }
}

// Number, place, nodes, edges, paths, shapes, targets, and the length of the case.
fn answer_read(case: &[u8]) {
    let r = read(case);
    print_numbers(&[
        r.number, r.place, r.nodes, r.edges, r.paths, r.shapes, r.targets,
    ]);
    print(b",");
    print_numbers(&[case.len()]);
    print(b" bytes");
}

// Solves into tables of the lengths that are given: number, place, rounds, valid, undetermined, sure, open, impossible;
// and where it is solved, what checking answers of the tables.
fn answer_solve(title: &[u8], case: &[u8], given: &[u8]) -> Option<()> {
    let mut values = [0u8; 64];
    let mut levels = [0u8; 64];
    let mut verdicts = [0u8; 64];
    let (_, given) = cut(given, b' ');
    let (a, given) = cut(given, b' ');
    let (b, c) = cut(given, b' ');
    let values = values.get_mut(..decimal(a)?)?;
    let levels = levels.get_mut(..decimal(b)?)?;
    let verdicts = verdicts.get_mut(..decimal(c)?)?;
    let r = solve(case, values, levels, verdicts);
    print_numbers(&[
        r.number,
        r.place,
        r.rounds,
        r.valid,
        r.undetermined,
        r.sure,
        r.open,
        r.impossible,
    ]);
    // the answers are structs for C, which hold the number
    if r.number == 0 {
        print(b"\n");
        print(title);
        print(b" solved:");
        answer_check(case, values, levels);
    }
    Some(())
}

// Number, place, undetermined, valid targets.
fn answer_check(case: &[u8], values: &[u8], levels: &[u8]) {
    let r = check(case, values, levels);
    print_numbers(&[r.number, r.place, r.undetermined, r.valid]);
}

// Checks the values and the levels that are given.
fn check_given(case: &[u8], given: &[u8]) -> Option<()> {
    let (values, levels) = cut(given, b'/');
    let values = Table::read(values)?;
    let levels = Table::read(levels)?;
    answer_check(case, values.as_slice(), levels.as_slice());
    Some(())
}

// Checks the values that are given under the old code: number, place, undetermined, valid targets, code.
fn answer_old(case: &[u8], given: &[u8]) -> Option<()> {
    let r = check_supported(case, Table::read(given)?.as_slice());
    print_numbers(&[r.number, r.place, r.undetermined, r.valid, r.code]);
    Some(())
}

// Number, place, strata.
fn answer_rank(case: &[u8], length: usize) -> Option<()> {
    let mut strata = [0u8; 64];
    let r = rank(case, strata.get_mut(..length)?);
    print_numbers(&[r.number, r.place, r.strata]);
    Some(())
}

// Number, place, valid, undetermined.
fn answer_totals(case: &[u8], node: usize) {
    let r = node_totals(case, node);
    print_numbers(&[r.number, r.place, r.valid, r.undetermined]);
}

// The target's number, and behind it the candidates that are given: number, place, selection.
fn answer_fewest(case: &[u8], given: &[u8]) -> Option<()> {
    let (_, given) = cut(given, b' ');
    let (target, candidates) = cut(given, b' ');
    let r = fewest_edges(case, decimal(target)?, Table::read(candidates)?.as_slice());
    print_numbers(&[r.number, r.place, r.selection]);
    Some(())
}

// Number, place, reply.
fn answer_ask(u: Unfinished, pair: usize) {
    let r = ask(u, pair);
    print_numbers(&[r.number, r.place, r.reply]);
}

// Begins a solve and advances it twice: reading's number and place, the replies about a pair, and whether the end is reached.
fn answer_course(case: &[u8], pair: usize) {
    let begun = begin(case);
    print_numbers(&[begun.number, begun.place]);
    print(b"\n  begun:");
    answer_ask(begun.unfinished, pair);
    let one = advance(begun.unfinished);
    print(b"\n");
    print_numbers(&[one.over]);
    print(b" after one round:");
    answer_ask(one.unfinished, pair);
    let two = advance(one.unfinished);
    print(b"\n");
    print_numbers(&[two.over]);
    print(b" after two:");
    answer_ask(two.unfinished, pair);
}

// The number behind the blank.
fn given_number(given: &[u8]) -> Option<usize> {
    decimal(cut(given, b' ').1)
}

// The call by its name.
pub fn answer(call: &[u8], title: &[u8], case: &[u8], given: &[u8]) -> Option<()> {
    match call {
        b"read" => answer_read(case),
        b"solve" => answer_solve(title, case, given)?,
        b"check" => check_given(case, given)?,
        b"old" => answer_old(case, given)?,
        b"fewest" => answer_fewest(case, given)?,
        b"rank" => answer_rank(case, given_number(given)?)?,
        b"totals" => answer_totals(case, given_number(given)?),
        b"course" => answer_course(case, given_number(given)?),
        _ => return None,
    }
    Some(())
}
