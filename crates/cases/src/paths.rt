// The paths that a rule names: its path operands, at most two.
ghost use Rattle.std.specs.Prelude.{◌≡◌};
ghost use Rattle.cases.specs.Case.{paths_of_path, paths_of_shape};
ghost use Rattle.cases.specs.References.{listed_paths};

use crate::command::{PathRule, ShapeRule};
use crate::few::Few;
use crate::numbers::Path;

pub fn paths_of_path(rule: PathRule) -> Few<Path>
    ensures { listed_paths result ≡ paths_of_path rule }
{
    match rule {
        PathRule::Forward(_) => Few::No,
        PathRule::Backward(_) => Few::No,
        PathRule::Union(p, q) => Few::Two(p, q),
        PathRule::Sequence(p, q) => Few::Two(p, q),
        PathRule::Star(p) => Few::One(p),
    }
}

pub fn paths_of_shape(rule: ShapeRule) -> Few<Path>
    ensures { listed_paths result ≡ paths_of_shape rule }
{
    match rule {
        ShapeRule::Top => Few::No,
        ShapeRule::Node(_) => Few::No,
        ShapeRule::And(_, _) => Few::No,
        ShapeRule::Or(_, _) => Few::No,
        ShapeRule::Not(_) => Few::No,
        ShapeRule::Same(p, q) => Few::Two(p, q),
        ShapeRule::All(p, _) => Few::One(p),
        ShapeRule::AtLeast(_, p, _) => Few::One(p),
    }
}
