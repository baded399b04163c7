// What the rule of a shape refers to: its references, at most two.
ghost use Rattle.std.specs.Prelude.{◌≡◌};
ghost use Rattle.cases.specs.Case.{references};
ghost use Rattle.cases.specs.References.{listed};

use crate::command::ShapeRule;
use crate::few::Few;
use crate::numbers::Shape;

pub fn references_of(rule: ShapeRule) -> Few<Shape>
    ensures { listed result ≡ references rule }
{
    match rule {
        ShapeRule::Top => Few::No,
        ShapeRule::Node(_) => Few::No,
        ShapeRule::And(s, t) => Few::Two(s, t),
        ShapeRule::Or(s, t) => Few::Two(s, t),
        ShapeRule::Not(s) => Few::One(s),
        ShapeRule::Same(_, _) => Few::No,
        ShapeRule::All(_, s) => Few::One(s),
        ShapeRule::AtLeast(_, _, s) => Few::One(s),
    }
}
