// The counts of a case and the limits that they keep, and the size of its sets of nodes.
ghost use Rattle.std.specs.Prelude.{◌≡◌};
ghost use Rattle.cases.specs.Counts.{is_profile, node_limit, shape_limit, words_of, size_of};

// How many nodes, edges, paths, shapes and targets a case has.
#[derive(Clone, Copy, Default)]
pub struct Counts {
    pub nodes: usize,
    pub edges: usize,
    pub paths: usize,
    pub shapes: usize,
    pub targets: usize,
}

pub const EDGE_LIMIT: usize = 1024;

pub const PATH_LIMIT: usize = 16;

pub const TARGET_LIMIT: usize = 256;

// A profile stays a number here and below: each function promises its answer for every number.
pub fn is_profile(profile: usize) -> bool
    ensures { result ≡ is_profile profile }
{
    profile <= 2
}

// The limits that a profile sets.
pub fn node_limit(profile: usize) -> usize
    ensures { result ≡ node_limit profile }
{
    match profile {
        0 => 128,
        1 => 256,
        _ => 512,
    }
}

pub fn shape_limit(profile: usize) -> usize
    ensures { result ≡ shape_limit profile }
{
    match profile {
        0 => 32,
        1 => 16,
        _ => 8,
    }
}

// How many nodes there are, and how many words of 64 bits a set of them takes.
#[derive(Clone, Copy)]
pub struct Size {
    pub nodes: usize,
    pub words: usize,
}

// The one place that says how many words a set of nodes takes.
pub fn words_of(counts: Counts) -> usize
    ensures { result ≡ words_of counts }
{
    if counts.nodes <= 128 {
        return 2;
    }
    if counts.nodes <= 256 {
        return 4;
    }
    8
}

pub fn size_of(counts: Counts) -> Size
    ensures { result ≡ size_of counts }
{
    Size {
        nodes: counts.nodes,
        words: words_of(counts),
    }
}
