// What was counted. No run of the program makes a count wrap.
use crate::agreement::Agreement;
use std::fmt;
use std::ops::Add;

// How many were compared, and how many of them differ.
#[derive(Clone, Copy, Default)]
pub struct Tally {
    compared: u64,
    differing: u64,
}

impl Tally {
    #[inline(always)]
    pub fn one(same: bool) -> Tally {
        Tally {
            compared: 1,
            differing: u64::from(!same),
        }
    }

    pub fn is_same(self) -> bool {
        self.differing == 0
    }
}

impl Add for Tally {
    type Output = Tally;

    #[inline(always)]
    fn add(self, other: Tally) -> Tally {
        Tally {
            compared: self.compared.wrapping_add(other.compared),
            differing: self.differing.wrapping_add(other.differing),
        }
    }
}

impl fmt::Display for Tally {
    fn fmt<W: fmt::Write>(&self, f: &mut fmt::Formatter<W>) -> fmt::Result {
        let compared = self.compared;
        let differing = self.differing;
        write!(f, "{compared} {differing}")
    }
}

// What a number of cases came to.
#[derive(Clone, Copy, Default)]
pub struct Counts {
    // The cases, of which those differ whose answer does, the stored angles and the marks left aside.
    pub cases: Tally,
    pub angles: Tally,
    pub marks: Tally,
}

// One case.
impl From<Agreement> for Counts {
    fn from(a: Agreement) -> Counts {
        Counts {
            cases: Tally::one(a.same),
            angles: a.angles,
            marks: a.marks,
        }
    }
}

impl Add for Counts {
    type Output = Counts;

    fn add(self, other: Counts) -> Counts {
        Counts {
            cases: self.cases + other.cases,
            angles: self.angles + other.angles,
            marks: self.marks + other.marks,
        }
    }
}
