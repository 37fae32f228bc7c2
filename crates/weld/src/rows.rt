// The angular row of the weld joint, and which of its rows are soft. Its point row is that of every kind.
ghost use Rattle.std.specs.Prelude.{◌≡◌};
ghost use Rattle.weld.specs.Weld as D;

use constraint::angular::{Row, angular_row};
use constraint::rotation::{RelativeRotation, rotation_error};
use constraint::soft::{SoftBias, rigid, soft_bias};
use constraint::velocity::{InvMasses, Velocities};
use math_functions::types::{Matrix3, QUAT_IDENTITY, Vec3};
use solver::Softness;

// A row whose hertz is above zero is soft also where the call has no bias.
#[tactic(auto, unfolding(crate::specs::Weld::is_soft))]
pub fn is_soft(use_bias: bool, hertz: f32) -> bool
    ensures { result ≡ D.is_soft use_bias hertz }
{
    use_bias || hertz > 0.0
}

// The bias of the angular row.
#[tactic(auto, unfolding(crate::specs::Weld::angular_bias))]
fn angular_bias(soft: bool, softness: Softness, rotation: RelativeRotation) -> SoftBias<Vec3>
    ensures { result ≡ D.angular_bias soft softness rotation }
{
    if soft {
        soft_bias(softness, rotation_error(rotation, QUAT_IDENTITY))
    } else {
        rigid()
    }
}

// The angular constraint.
#[tactic(auto, unfolding(crate::specs::Weld::weld_angular_row))]
pub fn weld_angular_row(
    worked: bool,
    rotation: RelativeRotation,
    use_bias: bool,
    hertz: f32,
    softness: Softness,
    mass: Matrix3,
    old_impulse: Vec3,
    m: InvMasses,
    v: Velocities,
) -> Row<Vec3>
    ensures { result ≡ D.weld_angular_row worked rotation use_bias hertz softness mass old_impulse m v }
{
    if !worked {
        return Row {
            impulse: old_impulse,
            velocities: v,
        };
    }
    let s = angular_bias(is_soft(use_bias, hertz), softness, rotation);
    angular_row(s, mass, old_impulse, m, v)
}
