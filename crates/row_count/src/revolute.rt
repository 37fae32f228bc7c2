// The rows of a revolute solve.
ghost use Rattle.std.specs.Prelude.{◌≡◌};
ghost use Rattle.row_count.specs.Revolute as D;

use crate::rows::sum_rows;
use constraint::angular::is_worked;
use records::joint::RevoluteJoint;

#[tactic(auto, unfolding(crate::specs::Revolute::count_rows))]
pub fn count_rows(fixed_rotation: bool, joint: RevoluteJoint) -> u32
    ensures { result ≡ D.count_rows fixed_rotation joint }
{
    let spring = is_worked(joint.enable_spring, fixed_rotation);
    let motor = is_worked(joint.enable_motor, fixed_rotation);
    let limits = is_worked(joint.enable_limit, fixed_rotation);
    sum_rows(spring, motor, limits, !fixed_rotation)
}
