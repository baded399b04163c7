// The table of rows that holds a case: a command in four numbers, edges, paths, shapes and targets each from a row of their own on.
// With the counts it is the case: `case_in`.
ghost use Rattle.std.specs.Prelude.{◌≡◌, ◌+◌, ◌*◌, ◌<◌, ◌≤◌, length};
ghost use Rattle.cases.specs.Rows.{row_in, put_row, edge_in, shape_in, target_in, Full};

use crate::command::{Edge, Row, ShapeRule, Target};
use crate::numbers::Shape;

// The first row of paths, shapes and targets; edges start at row 0, and there is room for 12 beyond the limit.
pub const PATHS: usize = 1036;

pub const SHAPES: usize = 1052;

pub const TARGETS: usize = 1084;

// Row i.
pub fn row_in(rows: &[u16], i: usize) -> Row
    requires { 4 * i + 4 ≤ length rows.now }
    ensures { result ≡ row_in rows.now i }
{
    let at = 4 * i;
    Row(rows[at], rows[at + 1], rows[at + 2], rows[at + 3])
}

// Makes row i this one.
pub fn put_row(rows: &mut [u16], i: usize, row: Row)
    requires { 4 * i + 4 ≤ length rows.old }
    ensures { rows.new ≡ put_row rows.old i row }
{
    let at = 4 * i;
    let code = row.0;
    let first = row.1;
    let second = row.2;
    let third = row.3;
    rows[at] = code;
    rows[at + 1] = first;
    rows[at + 2] = second;
    rows[at + 3] = third;
}

pub fn edge_in(rows: &[u16], i: usize) -> Edge
    requires full { Full rows.now }
    requires i_bound { i < 1036 }
    ensures { result ≡ edge_in rows.now i }
{
    Edge::from(row_in(rows, i))
}

pub fn shape_in(rows: &[u16], s: Shape) -> ShapeRule
    requires full { Full rows.now }
    requires s_bound { s.0 < 32 }
    ensures { result ≡ shape_in rows.now s.0 }
{
    ShapeRule::from(row_in(rows, SHAPES + s.0))
}

pub fn target_in(rows: &[u16], i: usize) -> Target
    requires full { Full rows.now }
    requires i_bound { i < 256 }
    ensures { result ≡ target_in rows.now i }
{
    Target::from(row_in(rows, TARGETS + i))
}
