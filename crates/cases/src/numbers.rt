// The numbers of nodes, properties, shapes and paths. They are numbered from separate sets, and one never stands for another.
#[derive(Clone, Copy, PartialEq, Eq)]
pub struct Node(pub usize);

#[derive(Clone, Copy, PartialEq, Eq)]
pub struct Property(pub usize);

#[derive(Clone, Copy, PartialEq, Eq)]
pub struct Shape(pub usize);

#[derive(Clone, Copy, PartialEq, Eq)]
pub struct Path(pub usize);
