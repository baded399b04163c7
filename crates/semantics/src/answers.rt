// What solving, checking, checking under the old code, ranking, totals by fitting and the search for links to add answer: number and place of the
// refusal, 0 for none, then the counts or the selection, 0 on a refusal; the code of the old check is no count.
ghost use Rattle.std.specs.Prelude.{◌≡◌};
ghost use Rattle.semantics.specs.OldCode.{with_old_code};
ghost use Rattle.cases.specs.Faults.{no_refusal};
ghost use Rattle.cases.specs.Refusals.{refusal_says};
ghost use Rattle.semantics.specs.Answered.{refused_solution, refused_checked, refused_totals, ranked_by, fewest_by, solved_with};

use cases::refusals::Refused;

// How many pairs are valid and undetermined, and how many targets sure, open and impossible.
#[derive(Clone, Copy)]
pub struct Tally {
    pub valid: usize,
    pub undetermined: usize,
    pub sure: usize,
    pub open: usize,
    pub impossible: usize,
}

#[repr(C)]
#[derive(Clone, Copy)]
pub struct Solution {
    pub number: usize,
    pub place: usize,
    pub rounds: usize,
    pub valid: usize,
    pub undetermined: usize,
    pub sure: usize,
    pub open: usize,
    pub impossible: usize,
}

impl From<Refused> for Solution {
    ghost from_gives = { λ refused answer. answer ≡ refused_solution (refusal_says refused) };

    fn from(refused: Refused) -> Solution {
        Solution {
            number: refused.fault.number(),
            place: refused.place,
            rounds: 0,
            valid: 0,
            undetermined: 0,
            sure: 0,
            open: 0,
            impossible: 0,
        }
    }
}

impl Solution {
    pub fn solved(rounds: usize, tally: Tally) -> Solution
        ensures { result ≡ solved_with rounds tally }
    {
        Solution {
            number: 0,
            place: 0,
            rounds,
            valid: tally.valid,
            undetermined: tally.undetermined,
            sure: tally.sure,
            open: tally.open,
            impossible: tally.impossible,
        }
    }
}

#[repr(C)]
#[derive(Clone, Copy)]
pub struct Checked {
    pub number: usize,
    pub place: usize,
    pub undetermined: usize,
    pub valid: usize,
}

impl From<Refused> for Checked {
    ghost from_gives = { λ refused answer. answer ≡ refused_checked (refusal_says refused) };

    fn from(refused: Refused) -> Checked {
        Checked {
            number: refused.fault.number(),
            place: refused.place,
            undetermined: 0,
            valid: 0,
        }
    }
}

#[repr(C)]
#[derive(Clone, Copy)]
pub struct CheckedOld {
    pub number: usize,
    pub place: usize,
    pub undetermined: usize,
    pub valid: usize,
    // a number, for C
    pub code: usize,
}

// Under the old code: the same, and the byte 1.
impl From<Checked> for CheckedOld {
    ghost from_gives = { λ checked answer. answer ≡ with_old_code checked };

    fn from(checked: Checked) -> CheckedOld {
        CheckedOld {
            number: checked.number,
            place: checked.place,
            undetermined: checked.undetermined,
            valid: checked.valid,
            code: 1,
        }
    }
}

#[repr(C)]
#[derive(Clone, Copy)]
pub struct Ranked {
    pub number: usize,
    pub place: usize,
    pub strata: usize,
}

impl From<Refused> for Ranked {
    ghost from_gives = { λ refused answer. answer ≡ ranked_by (refusal_says refused) 0 };

    fn from(refused: Refused) -> Ranked {
        Ranked {
            number: refused.fault.number(),
            place: refused.place,
            strata: 0,
        }
    }
}

impl Ranked {
    pub fn ranked(strata: usize) -> Ranked
        ensures { result ≡ ranked_by no_refusal strata }
    {
        Ranked {
            number: 0,
            place: 0,
            strata,
        }
    }
}

#[repr(C)]
#[derive(Clone, Copy)]
pub struct Totals {
    pub number: usize,
    pub place: usize,
    pub valid: usize,
    pub undetermined: usize,
}

impl From<Refused> for Totals {
    ghost from_gives = { λ refused answer. answer ≡ refused_totals (refusal_says refused) };

    fn from(refused: Refused) -> Totals {
        Totals {
            number: refused.fault.number(),
            place: refused.place,
            valid: 0,
            undetermined: 0,
        }
    }
}

#[repr(C)]
#[derive(Clone, Copy)]
pub struct Fewest {
    pub number: usize,
    pub place: usize,
    pub selection: usize,
}

impl From<Refused> for Fewest {
    ghost from_gives = { λ refused answer. answer ≡ fewest_by (refusal_says refused) 0 };

    fn from(refused: Refused) -> Fewest {
        Fewest {
            number: refused.fault.number(),
            place: refused.place,
            selection: 0,
        }
    }
}

impl Fewest {
    pub fn selected(selection: usize) -> Fewest
        ensures { result ≡ fewest_by no_refusal selection }
    {
        Fewest {
            number: 0,
            place: 0,
            selection,
        }
    }
}
