// The rows of a spherical solve.
ghost use Rattle.std.specs.Prelude.{◌≡◌};
ghost use Rattle.row_count.specs.Spherical as D;

use crate::rows::sum_rows;
use constraint::angular::is_worked;
use records::joint::SphericalJoint;

#[tactic(auto, unfolding(crate::specs::Spherical::count_rows))]
pub fn count_rows(fixed_rotation: bool, joint: SphericalJoint) -> u32
    ensures { result ≡ D.count_rows fixed_rotation joint }
{
    let spring = is_worked(joint.enable_spring, fixed_rotation);
    let motor = is_worked(joint.enable_motor, fixed_rotation);
    let limits = is_worked(joint.enable_twist_limit, fixed_rotation);
    let cone = is_worked(joint.enable_cone_limit, fixed_rotation);
    sum_rows(spring, motor, limits, cone)
}
