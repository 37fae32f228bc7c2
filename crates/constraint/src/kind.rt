// What the prepare and the solve of one kind leave, over the kind's own record.
use crate::answer::Report;
use crate::velocity::Velocities;
use math_functions::mark::Mark;
use records::joint::{JointBase, LimitAngles};

// What a prepare leaves, and the mark of the mass that it inverts. A revolute joint's inverts none.
#[derive(Clone, Copy)]
pub struct KindPrepared<J> {
    pub base: JointBase,
    pub joint: J,
    pub mass_mark: Option<Mark>,
}

// What a solve leaves. The angles of a weld joint, which has no limit, are NaN.
#[derive(Clone, Copy)]
pub struct KindSolved<J> {
    pub joint: J,
    pub angles: LimitAngles,
    pub velocities: Velocities,
    pub report: Report,
}
