// The velocities that the rows change, the inverse masses that they multiply by, the anchors, and how
// a row's impulse changes the velocities.
ghost use Rattle.std.specs.Prelude.{◌≡◌};
ghost use Rattle.constraint.specs.Velocity as D;

use math_functions::matrix::mul_mv;
use math_functions::quat::rotate_vector;
use math_functions::types::{Matrix3, Transform, Vec3};
use math_functions::vector::{add, cross, mul_add, mul_sub, sub};
use records::body::BodyState;
use records::joint::JointBase;

// The velocities of a joint's two bodies.
#[derive(Clone, Copy)]
pub struct Velocities {
    pub v_a: Vec3,
    pub w_a: Vec3,
    pub v_b: Vec3,
    pub w_b: Vec3,
}

// The inverse masses and the inverse inertias of a joint's two bodies. A row is handed them and the
// velocities apart: they stay through a solve, and each row leaves other velocities.
#[derive(Clone, Copy)]
pub struct InvMasses {
    pub m_a: f32,
    pub m_b: f32,
    pub i_a: Matrix3,
    pub i_b: Matrix3,
}

// The anchors of a joint's two frames: r_a reaches from A's centre to its anchor, r_b from B's.
#[derive(Clone, Copy)]
pub struct Anchors {
    pub r_a: Vec3,
    pub r_b: Vec3,
}

// Here and in the rows the two states come apart, as the stages take them: a pair would be put together
// in each stage only to be taken apart here.
#[tactic(auto, unfolding(crate::specs::Velocity::velocities_of))]
pub fn velocities_of(state_a: BodyState, state_b: BodyState) -> Velocities
    ensures { result ≡ D.velocities_of state_a state_b }
{
    let v_a = state_a.linear_velocity;
    let w_a = state_a.angular_velocity;
    let v_b = state_b.linear_velocity;
    let w_b = state_b.angular_velocity;
    Velocities { v_a, w_a, v_b, w_b }
}

#[tactic(auto, unfolding(crate::specs::Velocity::inv_masses_of))]
pub fn inv_masses_of(base: JointBase) -> InvMasses
    ensures { result ≡ D.inv_masses_of base }
{
    let i_a = base.inv_i_a;
    let i_b = base.inv_i_b;
    InvMasses {
        m_a: base.inv_mass_a,
        m_b: base.inv_mass_b,
        i_a,
        i_b,
    }
}

// The anchors as the two bodies stand within a step.
#[inline(always)]
pub fn anchors_of(
    frame_a: Transform,
    frame_b: Transform,
    state_a: BodyState,
    state_b: BodyState,
) -> Anchors
    ensures { result ≡ D.anchors_of frame_a frame_b state_a state_b }
{
    let r_a = rotate_vector(state_a.delta_rotation, frame_a.p);
    let r_b = rotate_vector(state_b.delta_rotation, frame_b.p);
    Anchors { r_a, r_b }
}

// An impulse about an axis.
#[tactic(auto, unfolding(crate::specs::Velocity::apply_axial))]
pub fn apply_axial(m: InvMasses, impulse: f32, axis: Vec3, v: Velocities) -> Velocities
    ensures { result ≡ D.apply_axial m impulse axis v }
{
    let mut out = v;
    out.w_a = mul_sub(v.w_a, impulse, mul_mv(m.i_a, axis));
    out.w_b = mul_add(v.w_b, impulse, mul_mv(m.i_b, axis));
    out
}

// The same with the sign flipped, as the upper limits apply it. The two stay two: they differ in both
// their lines, and a sign handed over would be one more operation of the definition.
#[tactic(auto, unfolding(crate::specs::Velocity::apply_axial_flipped))]
pub fn apply_axial_flipped(m: InvMasses, impulse: f32, axis: Vec3, v: Velocities) -> Velocities
    ensures { result ≡ D.apply_axial_flipped m impulse axis v }
{
    let mut out = v;
    out.w_a = mul_add(v.w_a, impulse, mul_mv(m.i_a, axis));
    out.w_b = mul_sub(v.w_b, impulse, mul_mv(m.i_b, axis));
    out
}

// An angular impulse.
#[tactic(auto, unfolding(crate::specs::Velocity::apply_angular))]
pub fn apply_angular(m: InvMasses, impulse: Vec3, v: Velocities) -> Velocities
    ensures { result ≡ D.apply_angular m impulse v }
{
    let mut out = v;
    out.w_a = sub(v.w_a, mul_mv(m.i_a, impulse));
    out.w_b = add(v.w_b, mul_mv(m.i_b, impulse));
    out
}

// A linear impulse at the anchors.
#[tactic(auto, unfolding(crate::specs::Velocity::apply_point))]
pub fn apply_point(m: InvMasses, anchors: Anchors, impulse: Vec3, v: Velocities) -> Velocities
    ensures { result ≡ D.apply_point m anchors.r_a anchors.r_b impulse v }
{
    Velocities {
        v_a: mul_sub(v.v_a, m.m_a, impulse),
        w_a: sub(v.w_a, mul_mv(m.i_a, cross(anchors.r_a, impulse))),
        v_b: mul_add(v.v_b, m.m_b, impulse),
        w_b: add(v.w_b, mul_mv(m.i_b, cross(anchors.r_b, impulse))),
    }
}

// A warm start: the linear impulse at the anchors together with the angular impulse. The angular
// velocities come first: the run's loop then keeps fewer values on the stack (docs/PERFORMANCE.md).
#[tactic(auto, unfolding(crate::specs::Velocity::apply_warm))]
pub fn apply_warm(
    m: InvMasses,
    anchors: Anchors,
    linear_impulse: Vec3,
    angular_impulse: Vec3,
    v: Velocities,
) -> Velocities
    ensures { result ≡ D.apply_warm m anchors.r_a anchors.r_b linear_impulse angular_impulse v }
{
    let impulse_a = add(cross(anchors.r_a, linear_impulse), angular_impulse);
    let w_a = sub(v.w_a, mul_mv(m.i_a, impulse_a));
    let impulse_b = add(cross(anchors.r_b, linear_impulse), angular_impulse);
    let w_b = add(v.w_b, mul_mv(m.i_b, impulse_b));
    Velocities {
        v_a: mul_sub(v.v_a, m.m_a, linear_impulse),
        w_a,
        v_b: mul_add(v.v_b, m.m_b, linear_impulse),
        w_b,
    }
}
