// The rows that a solve works, counted from the joint's switches and fixed rotation.
#![tactic(auto)]

ghost use Rattle.std.specs.Prelude.{◌≡◌};
ghost use Rattle.row_count.specs.RowCount as D;

use records::joint::{JointSim, JointUnion};

pub mod revolute;
mod rows;
pub mod spherical;
pub mod weld;

// By the joint's case; the empty one is refused, and has none.
#[tactic(auto, unfolding(crate::specs::RowCount::rows_of_case))]
fn rows_of_case(fixed_rotation: bool, union_: JointUnion) -> u32
    ensures { result ≡ D.rows_of_case fixed_rotation union_ }
{
    match union_ {
        JointUnion::Revolute(j) => revolute::count_rows(fixed_rotation, j),
        JointUnion::Spherical(j) => spherical::count_rows(fixed_rotation, j),
        JointUnion::Weld(_) => weld::count_rows(fixed_rotation),
        JointUnion::Other => 0,
    }
}

pub fn rows_of(joint: JointSim) -> u32
    ensures { result ≡ D.rows_of joint }
{
    let union_ = joint.union_;
    rows_of_case(joint.base.fixed_rotation, union_)
}
