// What a panel shows of bodies and joints: numbers with three decimals.
use math_functions::types::Vec3;
use records::body::BodyState;
use records::joint::{JointSim, JointUnion};
use std::fmt;
use stop_code::stop_code;

// A number of this size or more is far.
const FAR: f32 = 8388.607;

// A number, or a record of another crate, as the panel shows it.
#[derive(Clone, Copy)]
pub struct Shown<T>(pub T);

// Adding 0 turns -0, which would be printed with its sign, into 0.
impl fmt::Display for Shown<f32> {
    fn fmt<W: fmt::Write>(&self, f: &mut fmt::Formatter<W>) -> fmt::Result {
        let x = self.0;
        if x.is_nan() {
            write!(f, "no number")
        } else if x >= FAR {
            write!(f, "far")
        } else if x <= -FAR {
            write!(f, "-far")
        } else {
            write!(f, "{:.3}", x + 0.0)
        }
    }
}

impl fmt::Display for Shown<Vec3> {
    fn fmt<W: fmt::Write>(&self, f: &mut fmt::Formatter<W>) -> fmt::Result {
        let v = self.0;
        write!(f, "{} {} {}", Shown(v.x), Shown(v.y), Shown(v.z))
    }
}

// A body's two velocities.
impl fmt::Display for Shown<BodyState> {
    fn fmt<W: fmt::Write>(&self, f: &mut fmt::Formatter<W>) -> fmt::Result {
        let moves = Shown(self.0.linear_velocity);
        let turns = Shown(self.0.angular_velocity);
        write!(f, "moves {moves}, turns {turns}")
    }
}

// The pushes of a joint and of its limits.
impl fmt::Display for Shown<JointUnion> {
    fn fmt<W: fmt::Write>(&self, f: &mut fmt::Formatter<W>) -> fmt::Result {
        match self.0 {
            JointUnion::Revolute(j) => {
                let pushes = Shown(j.linear_impulse);
                let lower = Shown(j.lower_impulse);
                let upper = Shown(j.upper_impulse);
                write!(f, "hinge pushes {pushes}, lower {lower}, upper {upper}")
            }
            JointUnion::Spherical(j) => {
                let pushes = Shown(j.linear_impulse);
                let lower = Shown(j.lower_twist_impulse);
                let upper = Shown(j.upper_twist_impulse);
                let cone = Shown(j.swing_impulse);
                write!(
                    f,
                    "socket pushes {pushes}, lower {lower}, upper {upper}, cone {cone}"
                )
            }
            JointUnion::Weld(j) => write!(f, "weld pushes {}", Shown(j.linear_impulse)),
            JointUnion::Other => write!(f, "not in use"),
        }
    }
}

// A joint's pushes, and the code of the stops at which it is.
impl fmt::Display for Shown<JointSim> {
    fn fmt<W: fmt::Write>(&self, f: &mut fmt::Formatter<W>) -> fmt::Result {
        let pushes = Shown(self.0.union_);
        let code = stop_code(self.0).unwrap_or(0);
        write!(f, "{pushes}, stop code {code}")
    }
}
