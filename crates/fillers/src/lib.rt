// The sets of nodes of a case in one table of rows: row 0 the live nodes, row 1 + path × nodes + node the fillers of the path at the node,
// for each path that a shape names. The crate lookups says which paths that takes, and alone reads edges, once, before any path is worked
// out, into blocks that `clearing` emptied; `paths` works out the others from that, as blocks of rows, which the crate relations joins;
// `table` does these in turn. `converse` makes the same table by the converse of the paths.
#![tactic(auto)]

pub mod clearing;
pub mod converse;
pub mod paths;
pub mod places;
pub mod table;
