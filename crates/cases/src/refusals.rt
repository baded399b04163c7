// Refusals: what is at fault, by the numbers of the scope and the requests, and where.
ghost use Rattle.std.specs.Prelude.{◌≡◌};
ghost use Rattle.cases.specs.Refusals.{fault_number, refused_at, AnsweredBy};

// What is at fault, in the order of the numbers. 10, 11, 12 and 16 are of lent tables that are too short; 24 is of a target or of a candidate's node.
#[derive(Clone, Copy, PartialEq, Eq)]
pub enum Fault {
    UnknownCommand = 1,
    OutOfOrder = 2,
    Incomplete = 3,
    BeyondLimit = 4,
    UnknownNode = 5,
    UnknownPath = 6,
    LeastZero = 7,
    BehindEnd = 8,
    UnknownShape = 9,
    ShortValues = 10,
    ShortLevels = 11,
    ShortVerdicts = 12,
    NoValue = 13,
    Unsupported = 14,
    Unjustified = 15,
    ShortStrata = 16,
    OwnDenial = 17,
    TooDeep = 18,
    TooManyShapes = 19,
    NeverLaid = 20,
    UnknownPair = 21,
    UnknownProfile = 22,
    UnfitList = 23,
    NotInCase = 24,
    NoneSuffices = 25,
}

impl Fault {
    pub fn number(self) -> usize
        ensures { result ≡ fault_number self }
    {
        self as usize
    }

    // This fault at a place.
    pub fn at(self, place: usize) -> Refused
        ensures { result ≡ refused_at self place }
    {
        Refused { fault: self, place }
    }
}

// What a call that refuses answers: what is at fault, and its place.
#[derive(Clone, Copy, PartialEq, Eq)]
pub struct Refused {
    pub fault: Fault,
    pub place: usize,
}

// What a call answers: what it came to, or the answer that says the refusal.
pub fn answered<T: From<Refused>>(outcome: Result<T, Refused>) -> T
    ensures { AnsweredBy T.from_gives outcome result }
{
    match outcome {
        Ok(answer) => answer,
        Err(refused) => T::from(refused),
    }
}
