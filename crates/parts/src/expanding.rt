// The expansion: the fresh rows behind the written ones, with the numbers that they have now that all shapes are written.
ghost use Rattle.std.specs.Prelude.{◌≡◌, ◌+◌, ◌*◌, ◌≤◌, ◌<◌, length};
ghost use Rattle.cases.specs.Rows.{Full};
ghost use Rattle.parts.specs.Expanding.{renumbered_reference, renumbered_row, source_row, ExpandRoom, ExpandedAs};

use cases::command::Row;
use cases::counts::Counts;
use cases::rows::{SHAPES, put_row, row_in};

// The shape that a reference says: fresh shape f is the f-th behind the written ones.
fn renumbered_reference(reference: u16, written: u16) -> u16
    requires { written ≤ 32 }
    ensures { result ≡ renumbered_reference written reference }
{
    if reference < 256 {
        return reference;
    }
    written + (reference - 256)
}

pub fn renumbered_row(row: Row, written: u16) -> Row
    requires { written ≤ 32 }
    ensures { result ≡ renumbered_row written row }
{
    let code = row.0;
    match code {
        0x20 => row,
        0x21 => row,
        0x22 => Row(
            code,
            renumbered_reference(row.1, written),
            renumbered_reference(row.2, written),
            row.3,
        ),
        0x23 => Row(
            code,
            renumbered_reference(row.1, written),
            renumbered_reference(row.2, written),
            row.3,
        ),
        0x24 => Row(code, renumbered_reference(row.1, written), row.2, row.3),
        0x25 => row,
        0x26 => Row(code, row.1, renumbered_reference(row.2, written), row.3),
        _ => Row(code, row.1, row.2, renumbered_reference(row.3, written)),
    }
}

// The row of shape i: a written one, or a fresh one.
fn source_row(rows: &[u16], fresh: &[u16], written: usize, i: usize) -> Row
    requires full { Full rows.now }
    requires i_bound { i < 32 }
    requires i_in_bounds { 4 * i + 4 ≤ length fresh.now + 4 * written }
    ensures { result ≡ source_row rows.now fresh.now written i }
{
    if i < written {
        return row_in(rows, SHAPES + i);
    }
    row_in(fresh, i - written)
}

// Puts so many fresh rows behind the written shapes, and gives each shape its number.
pub fn expand(counts: Counts, fresh: &[u16], count: usize, rows: &mut [u16]) -> Counts
    requires { ExpandRoom counts fresh.now count rows.old }
    ensures { ExpandedAs counts fresh.now count rows.old result rows.new }
{
    let written = counts.shapes;
    let shapes = written + count;
    for i in 0..shapes {
        let row = source_row(rows, fresh, written, i);
        put_row(rows, SHAPES + i, renumbered_row(row, written as u16));
    }
    Counts { shapes, ..counts }
}
