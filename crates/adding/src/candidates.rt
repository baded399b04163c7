// Candidates: five bytes each, an edge's operands one after another, read as the rows of 02 commands.
ghost use Rattle.std.specs.Prelude.{◌≡◌, ◌&&◌, ◌+◌, ◌*◌, ◌%◌, ◌≤◌, eqb, leb, ltb, length};
ghost use Rattle.cases.specs.Format.{edge_of};
ghost use Rattle.cases.specs.Refusals.{refusal_in};
ghost use Rattle.fixpoint.specs.Lists.{up_to};
ghost use Rattle.semantics.specs.Adding.{candidate_at, candidate_count};
ghost use Rattle.semantics.specs.Operations.{first_of};
ghost use Rattle.adding.specs.Candidates.{unknown_at, of_property};

use cases::command::{Edge, Row};
use cases::format::number_at;
use cases::refusals::{Fault, Refused};
use semantics::refusals::refused_unless;

pub fn candidate_row(list: &[u8], i: usize) -> Row
    requires { 5 * i + 5 ≤ length list.now }
    ensures { edge_of result ≡ candidate_at list.now i }
{
    let at = 5 * i;
    Row(
        0x02,
        number_at(list, at, 1),
        number_at(list, at + 1, 2),
        number_at(list, at + 3, 2),
    )
}

// Whether a list of so many bytes has at most 12 candidates, each in full.
pub fn is_fit(length: usize) -> bool
    ensures { result ≡ (leb length 60 && eqb (length % 5) 0) }
{
    length <= 60 && length % 5 == 0
}

// Whether both nodes of an edge are among the first so many.
fn is_known(edge: Edge, nodes: usize) -> bool
    ensures { result ≡ (ltb edge.subject.0 nodes && ltb edge.object.0 nodes) }
{
    edge.subject.0 < nodes && edge.object.0 < nodes
}

// The first candidate, by its position from 1, whose nodes are not both among the first so many.
pub fn first_unknown(list: &[u8], nodes: usize) -> Result<(), Refused>
    ensures { refusal_in result ≡ first_of (up_to (candidate_count list.now)) (unknown_at list.now nodes) }
{
    // those below i are known
    for i in 0..list.len() / 5 {
        let edge = Edge::from(candidate_row(list, i));
        refused_unless(is_known(edge, nodes), Fault::NotInCase, i + 1)?;
    }
    Ok(())
}

// Whether a candidate is of the property.
pub fn is_candidate_property(list: &[u8], property: usize) -> bool
    ensures { result ≡ of_property list.now property }
{
    (0..list.len() / 5).any(|i| Edge::from(candidate_row(list, i)).property.0 == property)
}
