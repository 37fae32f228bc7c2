// The stops at which a joint's parts have arrived and are pushed back, read off the joint alone.
#![tactic(auto)]

ghost use Rattle.std.specs.Prelude.{◌≡◌};
ghost use Rattle.stop_code.specs.StopCode as D;

use records::joint::{JointSim, JointUnion, LimitAngles, RevoluteJoint, SphericalJoint};
use records::refusal::WrongKind;

// Whether a limit that is on pushes.
#[tactic(auto, unfolding(crate::specs::StopCode::is_pushing))]
fn is_pushing(enabled: bool, impulse: f32) -> bool
    ensures { result ≡ D.is_pushing enabled impulse }
{
    enabled && impulse > 0.0
}

// Whether a limit pushes at its lower stop, and the part has arrived there. Neither `>=` nor `<=` holds
// with a NaN, so that where no angle is stored nothing has arrived.
#[tactic(auto, unfolding(crate::specs::StopCode::is_at_lower))]
fn is_at_lower(enabled: bool, impulse: f32, lower_angle: f32, angle: f32) -> bool
    ensures { result ≡ D.is_at_lower enabled impulse lower_angle angle }
{
    is_pushing(enabled, impulse) && lower_angle >= angle
}

// The same of its upper stop, and of a cone.
#[tactic(auto, unfolding(crate::specs::StopCode::is_at_upper))]
fn is_at_upper(enabled: bool, impulse: f32, upper_angle: f32, angle: f32) -> bool
    ensures { result ≡ D.is_at_upper enabled impulse upper_angle angle }
{
    is_pushing(enabled, impulse) && upper_angle <= angle
}

// 1 for the lower stop, plus 2 for the upper, plus 4 for the cone: a number, as document 01 gives it.
#[tactic(auto, unfolding(crate::specs::StopCode::sum_stops))]
fn sum_stops(lower: bool, upper: bool, cone: bool) -> u32
    ensures { result ≡ D.sum_stops lower upper cone }
{
    u32::from(lower) + 2 * u32::from(upper) + 4 * u32::from(cone)
}

// The two kinds' limits have other names, and only a spherical joint has a cone.
#[tactic(auto, unfolding(crate::specs::StopCode::revolute_stops))]
fn revolute_stops(j: RevoluteJoint, angles: LimitAngles) -> u32
    ensures { result ≡ D.revolute_stops j angles }
{
    let on = j.enable_limit;
    let lower = is_at_lower(on, j.lower_impulse, j.lower_angle, angles.twist);
    let upper = is_at_upper(on, j.upper_impulse, j.upper_angle, angles.twist);
    sum_stops(lower, upper, false)
}

#[tactic(auto, unfolding(crate::specs::StopCode::spherical_stops))]
fn spherical_stops(j: SphericalJoint, angles: LimitAngles) -> u32
    ensures { result ≡ D.spherical_stops j angles }
{
    let on = j.enable_twist_limit;
    let lower = is_at_lower(on, j.lower_twist_impulse, j.lower_twist_angle, angles.twist);
    let upper = is_at_upper(on, j.upper_twist_impulse, j.upper_twist_angle, angles.twist);
    let cone = is_at_upper(
        j.enable_cone_limit,
        j.swing_impulse,
        j.cone_angle,
        angles.swing,
    );
    sum_stops(lower, upper, cone)
}

// The code of a joint's case; the empty case is refused.
#[tactic(auto, unfolding(crate::specs::StopCode::stops_of))]
fn stops_of(union_: JointUnion, fixed_rotation: bool, angles: LimitAngles) -> Result<u32, WrongKind>
    ensures { D.answer_of result ≡ D.stops_of union_ fixed_rotation angles }
{
    match union_ {
        JointUnion::Revolute(j) => {
            if fixed_rotation {
                return Ok(0);
            }
            Ok(revolute_stops(j, angles))
        }
        JointUnion::Spherical(j) => {
            if fixed_rotation {
                return Ok(0);
            }
            Ok(spherical_stops(j, angles))
        }
        JointUnion::Weld(_) => Ok(0),
        JointUnion::Other => Err(WrongKind),
    }
}

#[tactic(auto, unfolding(crate::specs::StopCode::stop_code))]
pub fn stop_code(joint: JointSim) -> Result<u32, WrongKind>
    ensures { D.answer_of result ≡ D.stop_code joint }
{
    let union_ = joint.union_;
    stops_of(union_, joint.base.fixed_rotation, joint.angles)
}
