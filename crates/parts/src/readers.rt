// The readers of a part and of its inner parts, which call each other, the remaining depth falling. A part opens with its head; then its
// inner parts are read, one after another; then its own row is complete. An inner part takes its number, the next row of the table, before
// what is inside it takes theirs, and puts its row there when it is complete.
ghost use Rattle.std.specs.Prelude.{◌≡◌, ◌+◌, ◌*◌, ◌≤◌, length};
ghost use Rattle.parts.specs.Reads.{with_references, cursor_behind, cursor_reserved};
ghost use Rattle.parts.specs.Reads.{NamedAs, PartRoom, OpenedAs, InnerRoom, InnerAs};

use crate::heads::head_at;
use crate::tables::note_one;
use cases::command::Row;
use cases::counts::Counts;
use cases::heads::Opens;
use cases::numbers::Shape;
use cases::refusals::Fault;
use cases::rows::put_row;

// Where the readers stand: the offset of their command in the case, their own offset in the command, how many fresh rows there are, and how
// many notes.
#[derive(Clone, Copy)]
pub struct Cursor {
    pub place: usize,
    pub at: usize,
    pub fresh: usize,
    pub noted: usize,
}

impl Cursor {
    // So many bytes on.
    fn behind(self, width: usize) -> Cursor
        requires { self.at + width ≤ 18446744073709551615 }
        ensures { result ≡ cursor_behind self width }
    {
        Cursor {
            at: self.at + width,
            ..self
        }
    }

    // With a row of the table taken.
    fn reserved(self) -> Cursor
        requires { self.fresh ≤ 542 }
        ensures { result ≡ cursor_reserved self }
    {
        Cursor {
            fresh: self.fresh + 1,
            ..self
        }
    }
}

// What a part comes to: a named shape, or a rule as a row; and where it ends.
#[derive(Clone, Copy)]
pub enum Opened {
    Name(u16, Cursor),
    Rule(Row, Cursor),
}

// What an inner part comes to: the reference that stands for it, and where it ends.
#[derive(Clone, Copy)]
pub struct Inner {
    pub reference: u16,
    pub after: Cursor,
}

// The row with these shape operands, the first, and the second where its rule has two.
pub fn with_references(row: Row, first: u16, second: u16) -> Row
    ensures { result ≡ with_references row first second }
{
    let code = row.0;
    match code {
        0x20 => row,
        0x21 => row,
        0x22 => Row(code, first, second, row.3),
        0x23 => Row(code, first, second, row.3),
        0x24 => Row(code, first, row.2, row.3),
        0x25 => row,
        0x26 => Row(code, row.1, first, row.3),
        _ => Row(code, row.1, row.2, first),
    }
}

// The reference to fresh shape f.
fn fresh_reference(f: usize) -> u16
    requires { f ≤ 542 }
    ensures { result ≡ 256 + f }
{
    256 + f as u16
}

// A named shape, which is noted.
fn name_part(row: Row, cursor: Cursor, named: &mut [usize]) -> Opened
    requires { 2 * cursor.noted + 2 ≤ length named.old }
    ensures { NamedAs row.1 cursor named.old result named.new }
{
    let shape = Shape(usize::from(row.1));
    let noted = note_one(shape, cursor.place, named, cursor.noted);
    Opened::Name(row.1, Cursor { noted, ..cursor })
}

// Reads the part at the cursor, in which so many levels may open.
#[cycle(read_inner_read_part)]
pub fn read_part(
    bytes: &[u8],
    depth: usize,
    counts: Counts,
    cursor: Cursor,
    fresh: &mut [u16],
    named: &mut [usize],
) -> Result<Opened, Fault>
    requires { PartRoom depth bytes.now cursor fresh.old named.old }
    ensures { OpenedAs depth counts bytes.now cursor fresh.old named.old result fresh.new named.new }
{
    let at = cursor.at;
    let head = head_at(&bytes[at..], counts)?;
    let row = head.row;
    let start = cursor.behind(head.width);
    match head.opens {
        Opens::Name => Ok(name_part(row, start, named)),
        Opens::Alone => Ok(Opened::Rule(row, start)),
        Opens::One => {
            let inner = read_inner(bytes, depth, counts, start, fresh, named)?;
            let whole = with_references(row, inner.reference, inner.reference);
            Ok(Opened::Rule(whole, inner.after))
        }
        Opens::Two => {
            let first = read_inner(bytes, depth, counts, start, fresh, named)?;
            let second = read_inner(bytes, depth, counts, first.after, fresh, named)?;
            let whole = with_references(row, first.reference, second.reference);
            Ok(Opened::Rule(whole, second.after))
        }
        // the not of the at least around the inner part, which is a fresh shape
        Opens::AtMost => {
            let inner = read_inner(bytes, depth, counts, start.reserved(), fresh, named)?;
            let least = with_references(row, inner.reference, inner.reference);
            put_row(fresh, start.fresh, least);
            Ok(Opened::Rule(Row(0x24, fresh_reference(start.fresh), 0, 0), inner.after))
        }
    }
}

// Reads the inner part at the cursor, where so many levels may open: 18 if none may. A named shape gives its row back.
#[cycle(read_inner_read_part)]
pub fn read_inner(
    bytes: &[u8],
    depth: usize,
    counts: Counts,
    cursor: Cursor,
    fresh: &mut [u16],
    named: &mut [usize],
) -> Result<Inner, Fault>
    requires { InnerRoom depth bytes.now cursor fresh.old named.old }
    ensures { InnerAs depth counts bytes.now cursor fresh.old named.old result fresh.new named.new }
{
    if depth == 0 {
        return Err(Fault::TooDeep);
    }
    let opened = read_part(bytes, depth - 1, counts, cursor.reserved(), fresh, named)?;
    match opened {
        Opened::Name(reference, after) => Ok(Inner {
            reference,
            after: Cursor {
                fresh: cursor.fresh,
                ..after
            },
        }),
        Opened::Rule(row, after) => {
            put_row(fresh, cursor.fresh, row);
            Ok(Inner {
                reference: fresh_reference(cursor.fresh),
                after,
            })
        }
    }
}
