// Whether the operands of a shape are fit: the tests behind refusals 5, 6 and 7, for a command and for a part.
ghost use Rattle.std.specs.Prelude.{◌≡◌, ltb};
ghost use Rattle.fixpoint.specs.Lists.{all};
ghost use Rattle.cases.specs.References.{listed_paths};
ghost use Rattle.cases.specs.Faults.{shape_nodes_known, shape_paths_earlier, shape_least_positive};

use cases::command::ShapeRule;
use cases::few::Few;
use cases::numbers::Path;
use cases::paths::paths_of_shape;

pub fn shape_nodes_known(nodes: usize, rule: ShapeRule) -> bool
    ensures { result ≡ shape_nodes_known nodes rule }
{
    match rule {
        ShapeRule::Top => true,
        ShapeRule::Node(a) => a.0 < nodes,
        ShapeRule::And(_, _) => true,
        ShapeRule::Or(_, _) => true,
        ShapeRule::Not(_) => true,
        ShapeRule::Same(_, _) => true,
        ShapeRule::All(_, _) => true,
        ShapeRule::AtLeast(_, _, _) => true,
    }
}

// Whether each of the paths stands earlier.
pub fn all_earlier(named: Few<Path>, paths: usize) -> bool
    ensures { result ≡ all (listed_paths named) (λ p. ltb p paths) }
{
    named.fold(true, |all, p| all && p.0 < paths)
}

pub fn shape_paths_earlier(paths: usize, rule: ShapeRule) -> bool
    ensures { result ≡ shape_paths_earlier paths rule }
{
    all_earlier(paths_of_shape(rule), paths)
}

pub fn shape_least_positive(rule: ShapeRule) -> bool
    ensures { result ≡ shape_least_positive rule }
{
    match rule {
        ShapeRule::Top => true,
        ShapeRule::Node(_) => true,
        ShapeRule::And(_, _) => true,
        ShapeRule::Or(_, _) => true,
        ShapeRule::Not(_) => true,
        ShapeRule::Same(_, _) => true,
        ShapeRule::All(_, _) => true,
        ShapeRule::AtLeast(n, _, _) => 1 <= n,
    }
}
