// A shape with its rule and the size of the sets of nodes: what a function that works for one shape is told.
ghost use Rattle.std.specs.Prelude.{◌≡◌, ◌<◌};
ghost use Rattle.cases.specs.Rows.{Full};
ghost use Rattle.cases.specs.Ruled.{ruled_in};

use crate::command::ShapeRule;
use crate::counts::{Counts, Size, size_of};
use crate::numbers::Shape;
use crate::rows::shape_in;

#[derive(Clone, Copy)]
pub struct Ruled {
    pub rule: ShapeRule,
    pub shape: Shape,
    pub size: Size,
}

// Shape s of the case in the rows.
pub fn ruled_in(counts: Counts, rows: &[u16], s: Shape) -> Ruled
    requires full { Full rows.now }
    requires s_bound { s.0 < 32 }
    ensures { result ≡ ruled_in counts rows.now s }
{
    Ruled {
        rule: shape_in(rows, s),
        shape: s,
        size: size_of(counts),
    }
}
