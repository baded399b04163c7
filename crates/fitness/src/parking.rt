// Refusal 20: whether the edge that a 03 parks was laid before it.
ghost use Rattle.std.specs.Prelude.{◌≡◌, not, ◌||◌, map, ◌*◌, ◌≤◌, eqb, length};
ghost use Rattle.fixpoint.specs.Lists.{up_to};
ghost use Rattle.cases.specs.Case.{edge_is};
ghost use Rattle.cases.specs.Faults.{laid, edge_there};
ghost use Rattle.cases.specs.Rows.{Full, edge_in};

use cases::command::{Command, Edge, LAID, PARKED};
use cases::rows::row_in;

// Whether an edge is laid by an 02 with the operands of another. Ends differ most often, so they are asked first.
fn lays(edge: Edge, other: Edge) -> bool
    ensures { result ≡ edge_is 0x02 other.property.0 other.subject.0 other.object.0 edge }
{
    if edge.object != other.object {
        return false;
    }
    if edge.subject != other.subject {
        return false;
    }
    edge.property == other.property && edge.code == LAID
}

// Whether it is one of the first so many edges in the rows.
pub fn is_laid(edge: Edge, edges: usize, rows: &[u16]) -> bool
    requires { 4 * edges ≤ length rows.now }
    ensures { result ≡ laid (map (edge_in rows.now) (up_to edges)) edge }
{
    (0..edges).any(|i| lays(Edge::from(row_in(rows, i)), edge))
}

fn parks_laid(edge: Edge, edges: usize, rows: &[u16]) -> bool
    requires full { Full rows.now }
    requires edges_bound { edges ≤ 1036 }
    ensures { result ≡ (not (eqb edge.code 0x03) || laid (map (edge_in rows.now) (up_to edges)) edge) }
{
    edge.code != PARKED || is_laid(edge, edges, rows)
}

pub fn edge_there(command: Command, edges: usize, rows: &[u16]) -> bool
    requires full { Full rows.now }
    requires edges_bound { edges ≤ 1036 }
    ensures { result ≡ edge_there (map (edge_in rows.now) (up_to edges)) command }
{
    match command {
        Command::Nodes(_) => true,
        Command::Edge(edge) => parks_laid(edge, edges, rows),
        Command::Path(_) => true,
        Command::Shape(_) => true,
        Command::Target(_) => true,
        Command::End => true,
    }
}
