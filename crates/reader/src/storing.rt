// Storing a command in the table of rows.
ghost use Rattle.reader.specs.Storing.{Stored, StoreRoom};

use cases::command::{Command, Row};
use cases::counts::Counts;
use cases::rows::{PATHS, SHAPES, TARGETS, put_row};

// Adds a command to the case in the rows, and answers the new counts.
pub fn store(command: Command, row: Row, counts: Counts, rows: &mut [u16]) -> Counts
    requires { StoreRoom command row counts rows.old }
    ensures { Stored command counts rows.old result rows.new }
{
    let mut next = counts;
    match command {
        Command::Nodes(n) => {
            next.nodes = n;
            next
        }
        Command::Edge(_) => {
            put_row(rows, counts.edges, row);
            next.edges = counts.edges + 1;
            next
        }
        Command::Path(_) => {
            put_row(rows, PATHS + counts.paths, row);
            next.paths = counts.paths + 1;
            next
        }
        Command::Shape(_) => {
            put_row(rows, SHAPES + counts.shapes, row);
            next.shapes = counts.shapes + 1;
            next
        }
        Command::Target(_) => {
            put_row(rows, TARGETS + counts.targets, row);
            next.targets = counts.targets + 1;
            next
        }
        Command::End => next,
    }
}
