// The stages of each kind by value, on a joint of an array.
use bench_wall::wall::Kind;
use constraint::velocity::Velocities;
use records::body::{BodyRecord, BodyState};
use records::joint::JointSim;
use revolute::{prepare_revolute_joint, solve_revolute_joint, warm_start_revolute_joint};
use solver::StepContext;
use spherical::{prepare_spherical_joint, solve_spherical_joint, warm_start_spherical_joint};
use weld::{prepare_weld_joint, solve_weld_joint, warm_start_weld_joint};

// A stage reads the joint where it stands, and puts back what its call changed; a refused joint is not put
// back. With the answers handed on whole a call takes more instructions: a revolute prepare 667 for 552, a
// revolute solve with bias 1,735 for 1,702, a weld's 1,063 for 1,022. A refusal is told by `if let`: by
// `is_none`, which takes a reference, a revolute prepare had 641.
pub trait Stages {
    const KIND: Kind;

    fn prepare(joint: &mut JointSim, context: StepContext, a: BodyRecord, b: BodyRecord);

    fn warm_start(joint: &JointSim, a: BodyState, b: BodyState) -> Velocities;

    fn solve(
        joint: &mut JointSim,
        context: StepContext,
        a: BodyState,
        b: BodyState,
        use_bias: bool,
    ) -> Velocities;
}

pub struct Revolute;

pub struct Spherical;

pub struct Weld;

impl Stages for Revolute {
    const KIND: Kind = Kind::Revolute;

    fn prepare(joint: &mut JointSim, context: StepContext, a: BodyRecord, b: BodyRecord) {
        let p = prepare_revolute_joint(*joint, context, a, b);
        if let None = p.refused {
            *joint = p.joint;
        }
    }

    fn warm_start(joint: &JointSim, a: BodyState, b: BodyState) -> Velocities {
        warm_start_revolute_joint(*joint, a, b).velocities
    }

    fn solve(
        joint: &mut JointSim,
        context: StepContext,
        a: BodyState,
        b: BodyState,
        use_bias: bool,
    ) -> Velocities {
        let s = solve_revolute_joint(*joint, context, a, b, use_bias);
        *joint = s.joint;
        s.velocities
    }
}

impl Stages for Spherical {
    const KIND: Kind = Kind::Spherical;

    fn prepare(joint: &mut JointSim, context: StepContext, a: BodyRecord, b: BodyRecord) {
        let p = prepare_spherical_joint(*joint, context, a, b);
        if let None = p.refused {
            *joint = p.joint;
        }
    }

    fn warm_start(joint: &JointSim, a: BodyState, b: BodyState) -> Velocities {
        warm_start_spherical_joint(*joint, a, b).velocities
    }

    fn solve(
        joint: &mut JointSim,
        context: StepContext,
        a: BodyState,
        b: BodyState,
        use_bias: bool,
    ) -> Velocities {
        let s = solve_spherical_joint(*joint, context, a, b, use_bias);
        *joint = s.joint;
        s.velocities
    }
}

impl Stages for Weld {
    const KIND: Kind = Kind::Weld;

    fn prepare(joint: &mut JointSim, context: StepContext, a: BodyRecord, b: BodyRecord) {
        let p = prepare_weld_joint(*joint, context, a, b);
        if let None = p.refused {
            *joint = p.joint;
        }
    }

    fn warm_start(joint: &JointSim, a: BodyState, b: BodyState) -> Velocities {
        warm_start_weld_joint(*joint, a, b).velocities
    }

    fn solve(
        joint: &mut JointSim,
        context: StepContext,
        a: BodyState,
        b: BodyState,
        use_bias: bool,
    ) -> Velocities {
        let s = solve_weld_joint(*joint, context, a, b, use_bias);
        *joint = s.joint;
        s.velocities
    }
}
