// The head of a part: refusals 1, 3, 5, 6 and 7, in this order.
ghost use Rattle.std.specs.Prelude.{◌≡◌};
ghost use Rattle.cases.specs.Parts.{opening, rule_head, at_most_head, head_at, head_opens, head_says};

use cases::command::{Row, ShapeRule};
use cases::counts::Counts;
use cases::format::{part_format_of, read_operands, taken_by};
use cases::heads::{Opens, PartHead};
use cases::refusals::Fault;
use fitness::shapes::{shape_least_positive, shape_nodes_known, shape_paths_earlier};

// The head of a rule without a fault, by how many inner parts it opens.
// The kind is the number that `part_format_of` promises.
fn opening_of(kind: usize, row: Row, width: usize) -> PartHead
    ensures { head_opens result.opens result.row result.width ≡ opening kind row width }
{
    let opens = match kind {
        1 => Opens::Alone,
        2 => Opens::One,
        _ => Opens::Two,
    };
    PartHead { opens, row, width }
}

fn rule_head(counts: Counts, kind: usize, row: Row, width: usize) -> Result<PartHead, Fault>
    ensures { head_says result ≡ rule_head counts.nodes counts.paths kind row width }
{
    let rule = ShapeRule::from(row);
    if !shape_nodes_known(counts.nodes, rule) {
        return Err(Fault::UnknownNode);
    }
    if !shape_paths_earlier(counts.paths, rule) {
        return Err(Fault::UnknownPath);
    }
    if !shape_least_positive(rule) {
        return Err(Fault::LeastZero);
    }
    Ok(opening_of(kind, row, width))
}

// At most n is the not of at least n + 1.
fn at_most_head(paths: usize, row: Row, width: usize) -> Result<PartHead, Fault>
    ensures { head_says result ≡ at_most_head paths row width }
{
    if paths <= usize::from(row.2) {
        return Err(Fault::UnknownPath);
    }
    if 255 <= row.1 {
        return Err(Fault::LeastZero);
    }
    Ok(PartHead {
        opens: Opens::AtMost,
        row: Row(0x27, row.1 + 1, row.2, 0),
        width,
    })
}

// What stands where a part opens.
pub fn head_at(part: &[u8], counts: Counts) -> Result<PartHead, Fault>
    ensures { head_says result ≡ head_at counts.nodes counts.paths part.now }
{
    let [code, ..] = part else {
        return Err(Fault::Incomplete);
    };
    let format = part_format_of(*code);
    let kind = format.0;
    if kind == 0 {
        return Err(Fault::UnknownCommand);
    }
    let Some(row) = read_operands(part, format) else {
        return Err(Fault::Incomplete);
    };
    let width = taken_by(format).width;
    match kind {
        4 => Ok(PartHead {
            opens: Opens::Name,
            row,
            width,
        }),
        5 => at_most_head(counts.paths, row, width),
        _ => rule_head(counts, kind, row, width),
    }
}
