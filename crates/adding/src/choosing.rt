// The case with the chosen candidates, as rows: its edges, those that are parked and chosen laid again, and behind them the chosen ones.
ghost use Rattle.std.specs.Prelude.{◌≡◌, map, ◌+◌, ◌*◌, ◌≤◌, ◌<◌, length};
ghost use Rattle.cases.specs.Format.{edge_of};
ghost use Rattle.cases.specs.Rows.{edge_in, Full, CaseIn};
ghost use Rattle.fixpoint.specs.Lists.{up_to};
ghost use Rattle.semantics.specs.Adding.{candidate_count, unparked};
ghost use Rattle.adding.specs.Choosing.{ChosenTo, Behind, EdgesLaid, RowsWith};

use crate::candidates::candidate_row;
use bitset::words::has_bit;
use cases::command::{Edge, LAID, Row};
use cases::counts::Counts;
use cases::rows::{put_row, row_in};
use fitness::parking::is_laid;

// Puts candidate i behind the n chosen ones before it if it is chosen, and answers how many they are now.
fn choose_if(list: &[u8], selection: usize, i: usize, n: usize, chosen: &mut [u16]) -> usize
    requires chosen_to { ChosenTo list.now selection i n chosen.old }
    requires i_bound { i < candidate_count list.now }
    requires i_bound_2 { i < 12 }
    ensures { ChosenTo list.now selection (i + 1) result chosen.new }
{
    if has_bit(selection as u64, i) {
        put_row(chosen, n, candidate_row(list, i));
        return n + 1;
    }
    n
}

// Puts the chosen candidates into rows, one after another, and answers how many they are.
fn choose(list: &[u8], selection: usize, chosen: &mut [u16]) -> usize
    requires list_len_bound { length list.now ≤ 60 }
    requires in_bounds { 48 ≤ length chosen.old }
    ensures { ChosenTo list.now selection (candidate_count list.now) result chosen.new }
{
    let count = list.len() / 5;
    let mut n = 0;
    // the chosen ones below i are there
    for i in 0..count {
        n = choose_if(list, selection, i, n, chosen);
    }
    n
}

// An edge command, as an 02 if one of the first n rows has its operands.
fn unparked_row(row: Row, n: usize, chosen: &[u16]) -> Row
    requires { 4 * n ≤ length chosen.now }
    ensures { edge_of result ≡ unparked (map (edge_in chosen.now) (up_to n)) (edge_of row) }
{
    let edge = Edge::from(row);
    if edge.code == LAID {
        return row;
    }
    if is_laid(edge, n, chosen) {
        return Row(0x02, row.1, row.2, row.3);
    }
    row
}

// Lays the edges of the case, so changed.
fn lay_edges(edges: usize, slice: &[u16], n: usize, chosen: &[u16], rows: &mut [u16])
    requires edges_bound { edges ≤ 1024 }
    requires full { Full slice.now }
    requires n_in_bounds { 4 * n ≤ length chosen.now }
    requires behind { Behind slice.now rows.old }
    ensures { EdgesLaid edges slice.now n chosen.now rows.new }
{
    // those below i are there
    for i in 0..edges {
        put_row(rows, i, unparked_row(row_in(slice, i), n, chosen));
    }
}

// Makes the rows of the case with the chosen edges, and answers its counts.
pub fn rows_with(
    counts: Counts,
    slice: &[u16],
    list: &[u8],
    selection: usize,
    rows: &mut [u16],
) -> Counts
    requires case_in { CaseIn counts slice.now }
    requires edges_bound { counts.edges ≤ 1024 }
    requires list_len_bound { length list.now ≤ 60 }
    requires behind { Behind slice.now rows.old }
    ensures { RowsWith counts slice.now list.now selection result rows.new }
{
    let mut chosen = [0u16; 48];
    let n = choose(list, selection, &mut chosen);
    lay_edges(counts.edges, slice, n, &chosen, rows);
    let behind = 4 * counts.edges;
    rows[behind..behind + 4 * n].copy_from_slice(&chosen[..4 * n]);
    Counts {
        edges: counts.edges + n,
        ..counts
    }
}
