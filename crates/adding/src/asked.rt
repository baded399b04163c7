// What is the same for every selection: the case without it, in the counts and the slice; the target's shape and node; the candidates; and the
// paths that none of them touches, whose sets of nodes stay as they are.
ghost use Rattle.adding.specs.Searching.{Question};

use cases::command::Target;
use cases::counts::Counts;

#[derive(Clone, Copy)]
pub struct Asked<'a> {
    pub counts: Counts,
    pub slice: &'a [u16],
    pub pair: Target,
    pub list: &'a [u8],
    pub held: u64,
    pub ghost question: { Question counts slice.now pair list.now held },
}
