// The commands of a case, and how a row of numbers says one.
ghost use Rattle.std.specs.Prelude.{◌≡◌};
ghost use Rattle.cases.specs.Format.{edge_of, path_rule_of, shape_rule_of, target_of, command_of};

use crate::numbers::{Node, Path, Property, Shape};

// The codes of edge commands: 02 lays an edge, 03 parks it.
pub const LAID: usize = 0x02;

pub const PARKED: usize = 0x03;

// An edge command, with its byte.
#[derive(Clone, Copy)]
pub struct Edge {
    // a number: an edge is promised of every row, whatever its byte
    pub code: usize,
    pub property: Property,
    pub subject: Node,
    pub object: Node,
}

#[derive(Clone, Copy)]
pub enum PathRule {
    Forward(Property),
    Backward(Property),
    Union(Path, Path),
    Sequence(Path, Path),
    Star(Path),
}

#[derive(Clone, Copy)]
pub enum ShapeRule {
    Top,
    Node(Node),
    And(Shape, Shape),
    Or(Shape, Shape),
    Not(Shape),
    Same(Path, Path),
    All(Path, Shape),
    AtLeast(usize, Path, Shape),
}

#[derive(Clone, Copy)]
pub struct Target {
    pub shape: Shape,
    pub node: Node,
}

#[derive(Clone, Copy)]
pub enum Command {
    Nodes(usize),
    Edge(Edge),
    Path(PathRule),
    Shape(ShapeRule),
    Target(Target),
    End,
}

// A command as four numbers: its byte and its operands, 0 for those that it lacks.
#[derive(Clone, Copy)]
pub struct Row(pub u16, pub u16, pub u16, pub u16);

impl From<Row> for Edge {
    fn from(row: Row) -> Edge
        ensures { result ≡ edge_of row }
    {
        Edge {
            code: row.0 as usize,
            property: Property(row.1 as usize),
            subject: Node(row.2 as usize),
            object: Node(row.3 as usize),
        }
    }
}

impl From<Row> for PathRule {
    fn from(row: Row) -> PathRule
        ensures { result ≡ path_rule_of row }
    {
        let code = row.0;
        match code {
            0x10 => PathRule::Forward(Property(row.1 as usize)),
            0x11 => PathRule::Backward(Property(row.1 as usize)),
            0x12 => PathRule::Union(Path(row.1 as usize), Path(row.2 as usize)),
            0x13 => PathRule::Sequence(Path(row.1 as usize), Path(row.2 as usize)),
            _ => PathRule::Star(Path(row.1 as usize)),
        }
    }
}

impl From<Row> for ShapeRule {
    fn from(row: Row) -> ShapeRule
        ensures { result ≡ shape_rule_of row }
    {
        let code = row.0;
        // `as` widens; by `usize::from` each arm's answer would have a call more to rewrite
        match code {
            0x20 => ShapeRule::Top,
            0x21 => ShapeRule::Node(Node(row.1 as usize)),
            0x22 => ShapeRule::And(Shape(row.1 as usize), Shape(row.2 as usize)),
            0x23 => ShapeRule::Or(Shape(row.1 as usize), Shape(row.2 as usize)),
            0x24 => ShapeRule::Not(Shape(row.1 as usize)),
            0x25 => ShapeRule::Same(Path(row.1 as usize), Path(row.2 as usize)),
            0x26 => ShapeRule::All(Path(row.1 as usize), Shape(row.2 as usize)),
            _ => ShapeRule::AtLeast(row.1 as usize, Path(row.2 as usize), Shape(row.3 as usize)),
        }
    }
}

impl From<Row> for Target {
    fn from(row: Row) -> Target
        ensures { result ≡ target_of row }
    {
        Target {
            shape: Shape(row.1 as usize),
            node: Node(row.2 as usize),
        }
    }
}

// The command of a row, in the group that its byte belongs to.
pub fn command_of(group: usize, row: Row) -> Command
    ensures { result ≡ command_of group row }
{
    match group {
        1 => Command::Nodes(row.1 as usize),
        2 => Command::Edge(Edge::from(row)),
        3 => Command::Path(PathRule::from(row)),
        4 => Command::Shape(ShapeRule::from(row)),
        5 => Command::Target(Target::from(row)),
        _ => Command::End,
    }
}
