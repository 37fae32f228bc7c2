// The words of a joint: its base, its two angles, then the record of its case.
use crate::agreement::Agreement;
use crate::words::{Answer, Input, Words};
use records::joint::{JointSim, JointUnion, LimitAngles, joint_sim};

// The case of a joint. It is a number: 0 for the revolute joint, 1 for the spherical one, 2 for the weld
// joint, 3 for the empty case, which has no record.
#[derive(Clone, Copy)]
pub enum Kind {
    Revolute,
    Spherical,
    Weld,
    Other,
}

impl Answer for Kind {
    fn compare(&self, words: &mut Words<'_>) -> Agreement {
        words.compare(&(*self as u32))
    }
}

// Any other number reads as 3, which comparing tells from it: the words after it are read and compared all the
// same, so it is no Option.
impl Input for Kind {
    fn read(words: &mut Words<'_>) -> Kind {
        match words.word() {
            0 => Kind::Revolute,
            1 => Kind::Spherical,
            2 => Kind::Weld,
            _ => Kind::Other,
        }
    }
}

impl Kind {
    pub fn of(joint: &JointSim) -> Kind {
        match joint.union_ {
            JointUnion::Revolute(_) => Kind::Revolute,
            JointUnion::Spherical(_) => Kind::Spherical,
            JointUnion::Weld(_) => Kind::Weld,
            JointUnion::Other => Kind::Other,
        }
    }

    fn record(self, words: &mut Words<'_>) -> JointUnion {
        match self {
            Kind::Revolute => JointUnion::Revolute(words.read()),
            Kind::Spherical => JointUnion::Spherical(words.read()),
            Kind::Weld => JointUnion::Weld(words.read()),
            Kind::Other => JointUnion::Other,
        }
    }

    // The joint of this case.
    pub fn joint(self, words: &mut Words<'_>) -> JointSim {
        let base = words.read();
        let angles = words.read();
        joint_sim(base, self.record(words), angles)
    }
}

impl Input for LimitAngles {
    fn read(words: &mut Words<'_>) -> LimitAngles {
        LimitAngles {
            twist: words.read(),
            swing: words.read(),
        }
    }
}

// The angles are counted apart.
impl Answer for LimitAngles {
    fn compare(&self, words: &mut Words<'_>) -> Agreement {
        let twist = words.compare(&self.twist);
        let swing = words.compare(&self.swing);
        Agreement::of_angle(twist.same) & Agreement::of_angle(swing.same)
    }
}

// What is to be the record of a case.
#[derive(Clone, Copy)]
struct UnionOfKind<'a>(Kind, &'a JointUnion);

// Whether a record is of the case, and the words are its. Where it is not, those of the case's are passed.
impl Answer for UnionOfKind<'_> {
    fn compare(&self, words: &mut Words<'_>) -> Agreement {
        match (self.0, self.1) {
            (Kind::Revolute, JointUnion::Revolute(j)) => words.compare(j),
            (Kind::Spherical, JointUnion::Spherical(j)) => words.compare(j),
            (Kind::Weld, JointUnion::Weld(j)) => words.compare(j),
            (Kind::Other, JointUnion::Other) => Agreement::from(true),
            (kind, _) => {
                let _passed = kind.record(words);
                Agreement::from(false)
            }
        }
    }
}

// What is to be a joint of a case.
#[derive(Clone, Copy)]
pub struct OfKind<'a>(pub Kind, pub &'a JointSim);

impl Answer for OfKind<'_> {
    fn compare(&self, words: &mut Words<'_>) -> Agreement {
        let joint = self.1;
        words.compare(&joint.base)
            & words.compare(&joint.angles)
            & words.compare(&UnionOfKind(self.0, &joint.union_))
    }
}

// A joint after the number of its case.
impl Answer for JointSim {
    fn compare(&self, words: &mut Words<'_>) -> Agreement {
        let mut ahead = *words;
        let kind: Kind = ahead.read();
        words.compare(&kind) & words.compare(&OfKind(kind, self))
    }
}

impl Input for JointSim {
    fn read(words: &mut Words<'_>) -> JointSim {
        let kind: Kind = words.read();
        kind.joint(words)
    }
}
