// The three kinds of joints, each by its record, so that what is the same of them is written once.
ghost use Rattle.std.specs.Prelude.{◌≡◌, ℕ, ◌<◌, eqb};
ghost use Rattle.std.proofs.Common.{rules};
ghost use Rattle.records.specs.Joint.{case_of};
ghost use Rattle.constraint.specs.Answer.{prepare_answer, warm_start_answer, solve_answer};
ghost use Rattle.joint.specs.Prepare.{prepare_of};
ghost use Rattle.joint.specs.Stage.{warm_start_of, solve_of};

use constraint::answer::{Prepared, Solved, WarmStarted};
use records::body::{BodyRecord, BodyState};
use records::joint::{JointSim, JointUnion, RevoluteJoint, SphericalJoint, WeldJoint};
use revolute::{prepare_revolute_joint, solve_revolute_joint, warm_start_revolute_joint};
use solver::StepContext;
use spherical::{prepare_spherical_joint, solve_spherical_joint, warm_start_spherical_joint};
use weld::{prepare_weld_joint, solve_weld_joint, warm_start_weld_joint};

// A kind, with its stages by value. A joint of another case is refused by each of them.
pub trait Kind {
    // The number of the kind's case.
    ghost kind: { ℕ };

    // Whether the joint's case is this kind.
    fn is_of(union_: JointUnion) -> bool
        ensures { result ≡ eqb (case_of union_) kind };

    fn prepare(
        joint: JointSim,
        context: StepContext,
        body_a: BodyRecord,
        body_b: BodyRecord,
    ) -> Prepared
        ensures { prepare_answer result ≡ prepare_of kind joint context body_a body_b };

    fn warm_start(joint: JointSim, state_a: BodyState, state_b: BodyState) -> WarmStarted
        ensures { warm_start_answer result ≡ warm_start_of kind joint state_a state_b };

    fn solve(
        joint: JointSim,
        context: StepContext,
        state_a: BodyState,
        state_b: BodyState,
        use_bias: bool,
    ) -> Solved
        ensures { solve_answer result ≡ solve_of kind joint context state_a state_b use_bias };

    // It is one of the three.
    ghost is_one: { kind < 3 };
}

impl Kind for RevoluteJoint {
    ghost kind = { 0 };

    fn is_of(union_: JointUnion) -> bool {
        matches!(union_, JointUnion::Revolute(_))
    }

    fn prepare(
        joint: JointSim,
        context: StepContext,
        body_a: BodyRecord,
        body_b: BodyRecord,
    ) -> Prepared {
        prepare_revolute_joint(joint, context, body_a, body_b)
    }

    fn warm_start(joint: JointSim, state_a: BodyState, state_b: BodyState) -> WarmStarted {
        warm_start_revolute_joint(joint, state_a, state_b)
    }

    fn solve(
        joint: JointSim,
        context: StepContext,
        state_a: BodyState,
        state_b: BodyState,
        use_bias: bool,
    ) -> Solved {
        solve_revolute_joint(joint, context, state_a, state_b, use_bias)
    }

    ghost is_one = { Prim.search rules };
}

impl Kind for SphericalJoint {
    ghost kind = { 1 };

    fn is_of(union_: JointUnion) -> bool {
        matches!(union_, JointUnion::Spherical(_))
    }

    fn prepare(
        joint: JointSim,
        context: StepContext,
        body_a: BodyRecord,
        body_b: BodyRecord,
    ) -> Prepared {
        prepare_spherical_joint(joint, context, body_a, body_b)
    }

    fn warm_start(joint: JointSim, state_a: BodyState, state_b: BodyState) -> WarmStarted {
        warm_start_spherical_joint(joint, state_a, state_b)
    }

    fn solve(
        joint: JointSim,
        context: StepContext,
        state_a: BodyState,
        state_b: BodyState,
        use_bias: bool,
    ) -> Solved {
        solve_spherical_joint(joint, context, state_a, state_b, use_bias)
    }

    ghost is_one = { Prim.search rules };
}

impl Kind for WeldJoint {
    ghost kind = { 2 };

    fn is_of(union_: JointUnion) -> bool {
        matches!(union_, JointUnion::Weld(_))
    }

    fn prepare(
        joint: JointSim,
        context: StepContext,
        body_a: BodyRecord,
        body_b: BodyRecord,
    ) -> Prepared {
        prepare_weld_joint(joint, context, body_a, body_b)
    }

    fn warm_start(joint: JointSim, state_a: BodyState, state_b: BodyState) -> WarmStarted {
        warm_start_weld_joint(joint, state_a, state_b)
    }

    fn solve(
        joint: JointSim,
        context: StepContext,
        state_a: BodyState,
        state_b: BodyState,
        use_bias: bool,
    ) -> Solved {
        solve_weld_joint(joint, context, state_a, state_b, use_bias)
    }

    ghost is_one = { Prim.search rules };
}
