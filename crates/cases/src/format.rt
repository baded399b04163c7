// The format: which bytes are commands, how wide their operands are, and reading a command's operands.
ghost use Rattle.std.specs.Prelude.{◌≡◌, ◌+◌, ◌≤◌, ◌<◌, length};
ghost use Rattle.cases.specs.Format.{format_of, taken_by, number_at, operands_by};
ghost use Rattle.cases.specs.Parts.{part_format_of};

use crate::answers::Taken;
use crate::command::Row;

// A command byte's group, 7 for an unknown byte, and the widths of its operands in bytes.
// The group is a number, since the order of groups is one of numbers (`in_order`).
#[derive(Clone, Copy)]
pub struct Format(pub usize, pub u8, pub u8, pub u8);

pub fn format_of(code: u8) -> Format
    ensures { result ≡ format_of code }
{
    match code {
        0x00 => Format(0, 1, 0, 0),
        0x01 => Format(1, 2, 0, 0),
        0x02 => Format(2, 1, 2, 2),
        0x03 => Format(2, 1, 2, 2),
        0x10 => Format(3, 1, 0, 0),
        0x11 => Format(3, 1, 0, 0),
        0x12 => Format(3, 1, 1, 0),
        0x13 => Format(3, 1, 1, 0),
        0x14 => Format(3, 1, 0, 0),
        0x20 => Format(4, 0, 0, 0),
        0x21 => Format(4, 2, 0, 0),
        0x22 => Format(4, 1, 1, 0),
        0x23 => Format(4, 1, 1, 0),
        0x24 => Format(4, 1, 0, 0),
        0x25 => Format(4, 1, 1, 0),
        0x26 => Format(4, 1, 1, 0),
        0x27 => Format(4, 1, 1, 1),
        0x30 => Format(5, 1, 2, 0),
        0xff => Format(6, 0, 0, 0),
        _ => Format(7, 0, 0, 0),
    }
}

// A part byte's kind, 0 for a byte that opens no part, and the widths of the operands that stand before its inner parts.
pub fn part_format_of(code: u8) -> Format
    ensures { result ≡ part_format_of code }
{
    match code {
        0x20 => Format(1, 0, 0, 0),
        0x21 => Format(1, 2, 0, 0),
        0x22 => Format(3, 0, 0, 0),
        0x23 => Format(3, 0, 0, 0),
        0x24 => Format(2, 0, 0, 0),
        0x25 => Format(1, 1, 1, 0),
        0x26 => Format(2, 1, 0, 0),
        0x27 => Format(2, 1, 1, 0),
        0x29 => Format(4, 1, 0, 0),
        0x2a => Format(5, 1, 1, 0),
        _ => Format(0, 0, 0, 0),
    }
}

// What a command of this format takes: its byte and its operands.
pub fn taken_by(f: Format) -> Taken
    ensures { result ≡ taken_by f }
{
    Taken {
        group: f.0,
        width: 1 + usize::from(f.1) + usize::from(f.2) + usize::from(f.3),
    }
}

// The number of `width` bytes at `at`, low byte first.
pub fn number_at(part: &[u8], at: usize, width: u8) -> u16
    requires { at + width ≤ length part.now }
    ensures { result ≡ number_at part.now at width }
{
    if width == 0 {
        return 0;
    }
    let low = u16::from(part[at]);
    if width == 1 {
        return low;
    }
    low + 256 * u16::from(part[at + 1])
}

// Reads the operands that stand behind the byte that `part` starts with, of the widths that the format says: the whole command as a row, unless
// the input ends too early.
pub fn read_operands(part: &[u8], f: Format) -> Option<Row>
    requires { 0 < length part.now }
    ensures { result ≡ operands_by f part.now }
{
    let second = 1 + usize::from(f.1);
    let third = second + usize::from(f.2);
    let end = third + usize::from(f.3);
    if part.len() < end {
        return None;
    }
    let x = number_at(part, 1, f.1);
    let y = number_at(part, second, f.2);
    let z = number_at(part, third, f.3);
    Some(Row(u16::from(part[0]), x, y, z))
}
