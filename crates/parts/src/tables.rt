// Shapes noted in a table with the offset of the command that names them.
ghost use Rattle.std.specs.Prelude.{[], ◌∷◌, ◌+◌, ◌*◌, ◌≤◌, length};
ghost use Rattle.parts.specs.Tables.{Noted};

use cases::numbers::Shape;

// Notes a shape that the command at `place` names, and answers how many are noted now.
pub fn note_one(shape: Shape, place: usize, named: &mut [usize], count: usize) -> usize
    requires { 2 * count + 2 ≤ length named.old }
    ensures { Noted (shape.0 ∷ []) place count named.old result named.new }
{
    let at = 2 * count;
    named[at] = shape.0;
    named[at + 1] = place;
    count + 1
}
