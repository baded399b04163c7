// Where the words of a set of pairs stand in its table: row s, the nodes of shape s, after the rows before it.
ghost use Rattle.std.specs.Prelude.{◌≡◌, ◌+◌, ◌*◌, ◌<◌, ◌≤◌};
ghost use Rattle.cases.specs.Counts.{words_of};

use cases::counts::{Counts, words_of};
use cases::numbers::Shape;

// The place of word i of row s.
pub fn word_place(counts: Counts, s: Shape, i: usize) -> usize
    requires counts_bound { counts.shapes * words_of counts ≤ 64 }
    requires s_lt_shapes { s.0 < counts.shapes }
    requires i_bound { i < words_of counts }
    ensures value { result ≡ s.0 * words_of counts + i }
    ensures upper_bound { result < 64 }
{
    s.0 * words_of(counts) + i
}
