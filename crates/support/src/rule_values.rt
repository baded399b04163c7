// 14: the value that a rule gives a pair. The values of references are read one by one; over fillers an all and an at least ask the set of
// valid pairs and, where it doesn't do, that of possible ones.
ghost use Rattle.std.specs.Prelude.{◌≡◌, ◌+◌, ◌*◌, ◌<◌, ◌≤◌, length, get_or};
ghost use Rattle.support.specs.Rules.{RuleGives, PairGives};
ghost use Rattle.support.specs.Proposals.{ValuesRead};

use bitset::rows::{count_common, is_member, is_same, is_subset};
use cases::command::ShapeRule;
use cases::counts::Size;
use cases::numbers::{Node, Shape};
use cases::ruled::Ruled;
use fillers::places::filler_row;
use pairs::writing::value_of;
use semantics::value::Value;

// The value of shape s at node a, a byte of which is known that it says one.
fn value_at(values: &[u8], size: Size, s: Shape, a: Node) -> Value
    requires a_in_bounds { s.0 * size.nodes + a.0 < length values.now }
    requires a_bound { get_or values.now (s.0 * size.nodes + a.0) 0 ≤ 2 }
    ensures { result.0 ≡ get_or values.now (s.0 * size.nodes + a.0) 0 }
{
    Value::of_byte(values[s.0 * size.nodes + a.0]).unwrap_or(Value::VIOLATED)
}

// The rule's value at node a, which is live.
fn rule_value(
    of: Ruled,
    a: Node,
    sets: &[u64],
    values: &[u8],
    valid: &[u64],
    possible: &[u64],
) -> Value
    requires values_read { ValuesRead of sets.now values.now valid.now possible.now }
    requires a_lt_nodes { a.0 < of.size.nodes }
    ensures { RuleGives of a.0 sets.now values.now result.0 }
{
    let size = of.size;
    let w = size.words;
    let rule = of.rule;
    match rule {
        ShapeRule::Top => Value::VALID,
        ShapeRule::Node(b) => value_of(b == a, false),
        ShapeRule::And(s, q) => value_at(values, size, s, a).smaller(value_at(values, size, q, a)),
        ShapeRule::Or(s, q) => value_at(values, size, s, a).larger(value_at(values, size, q, a)),
        ShapeRule::Not(s) => value_at(values, size, s, a).deny(),
        ShapeRule::Same(p, q) => value_of(
            is_same(sets, filler_row(p, a, size), filler_row(q, a, size), w),
            false,
        ),
        ShapeRule::All(p, s) => {
            let row = filler_row(p, a, size);
            if is_subset(sets, row, valid, s.0, w) {
                return Value::VALID;
            }
            value_of(false, is_subset(sets, row, possible, s.0, w))
        }
        ShapeRule::AtLeast(least, p, s) => {
            let row = filler_row(p, a, size);
            if least <= count_common(sets, row, valid, s.0, w) {
                return Value::VALID;
            }
            value_of(false, least <= count_common(sets, row, possible, s.0, w))
        }
    }
}

// The value that the rule gives the pair at node a.
pub fn pair_value(
    of: Ruled,
    a: Node,
    sets: &[u64],
    values: &[u8],
    valid: &[u64],
    possible: &[u64],
) -> Value
    requires values_read { ValuesRead of sets.now values.now valid.now possible.now }
    requires a_lt_nodes { a.0 < of.size.nodes }
    ensures { PairGives of a.0 sets.now values.now result.0 }
{
    if !is_member(sets, of.size.words, 0, a.0) {
        return Value::VIOLATED;
    }
    rule_value(of, a, sets, values, valid, possible)
}
