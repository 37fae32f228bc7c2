// What comparing a case with the library's answer came to.
//
// The two angles that a joint has beside the Rust's fields, and the marks of what may fall back to zeros,
// are left aside where a case is the same or not, and are compared and counted apart: the Rust has nothing
// to hold them to.
use crate::counts::Tally;
use std::ops::BitAnd;

#[derive(Clone, Copy)]
pub struct Agreement {
    // Whether the answer is the recorded one, angles and marks left aside.
    pub same: bool,
    // The stored angles that were compared.
    pub angles: Tally,
    pub marks: Tally,
}

impl Agreement {
    // Of one stored angle.
    pub fn of_angle(same: bool) -> Agreement {
        Agreement {
            same: true,
            angles: Tally::one(same),
            marks: Tally::default(),
        }
    }

    // Of one mark.
    pub fn of_mark(same: bool) -> Agreement {
        Agreement {
            same: true,
            angles: Tally::default(),
            marks: Tally::one(same),
        }
    }

    // Whether all is the same, the angles too: so are the words that a joint was read from, which have no
    // marks.
    pub fn is_all(self) -> bool {
        self.same & self.angles.is_same()
    }
}

// Of what is neither an angle nor a mark.
impl From<bool> for Agreement {
    #[inline(always)]
    fn from(same: bool) -> Agreement {
        Agreement {
            same,
            angles: Tally::default(),
            marks: Tally::default(),
        }
    }
}

// Of two parts of an answer.
impl BitAnd for Agreement {
    type Output = Agreement;

    #[inline(always)]
    fn bitand(self, other: Agreement) -> Agreement {
        Agreement {
            same: self.same & other.same,
            angles: self.angles + other.angles,
            marks: self.marks + other.marks,
        }
    }
}
