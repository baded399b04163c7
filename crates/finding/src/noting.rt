// Noting the shapes that a command names, with the offset of the command.
ghost use Rattle.cases.specs.References.{listed};
ghost use Rattle.cases.specs.Reading.{shapes_named};
ghost use Rattle.parts.specs.Tables.{Noted, NoteRoom};

use cases::command::Command;
use cases::few::Few;
use cases::numbers::Shape;
use cases::shape_operands::references_of;
use parts::tables::note_one;

// Notes the shapes that a rule refers to.
fn note_all(references: Few<Shape>, place: usize, named: &mut [usize], count: usize) -> usize
    requires { NoteRoom (listed references) count named.old }
    ensures { Noted (listed references) place count named.old result named.new }
{
    match references {
        Few::No => count,
        Few::One(s) => note_one(s, place, named, count),
        Few::Two(s, t) => {
            let more = note_one(s, place, named, count);
            note_one(t, place, named, more)
        }
    }
}

// Notes the shapes that the command at `place` names, and answers how many are noted now.
pub fn note(command: Command, place: usize, named: &mut [usize], count: usize) -> usize
    requires { NoteRoom (shapes_named command) count named.old }
    ensures { Noted (shapes_named command) place count named.old result named.new }
{
    match command {
        Command::Nodes(_) => count,
        Command::Edge(_) => count,
        Command::Path(_) => count,
        Command::Shape(rule) => note_all(references_of(rule), place, named, count),
        Command::Target(t) => note_one(t.shape, place, named, count),
        Command::End => count,
    }
}
