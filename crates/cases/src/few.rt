// At most two operands of one kind: the shapes or the paths that a rule names.
ghost use Rattle.cases.specs.References.{FewCallable, FewFolded};

#[derive(Clone, Copy)]
pub enum Few<T> {
    No,
    One(T),
    Two(T, T),
}

impl<T: Copy> Few<T> {
    // What the steps make of the first state, one for each operand in order.
    pub fn fold<S, F: Fn(S, T) -> S>(self, first: S, step: F) -> S
        requires { FewCallable (F.pre step) (F.post step) first self }
        ensures { FewFolded (F.post step) first self result }
    {
        match self {
            Few::No => first,
            Few::One(a) => step(first, a),
            Few::Two(a, b) => step(step(first, a), b),
        }
    }
}
