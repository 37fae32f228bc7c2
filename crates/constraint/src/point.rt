// The point row, which the three kinds work alike but for their biases and the grouping of the velocity
// error.
ghost use Rattle.std.specs.Prelude.{◌≡◌};
ghost use Rattle.constraint.specs.Point as D;

use crate::soft::{SoftBias, rigid, soft_bias, soft_impulse_of};
use crate::velocity::{Anchors, InvMasses, Velocities, apply_point};
use math_functions::mark::Mark;
use math_functions::matrix::{add_mm, mul_mm, negate_mat3, skew, solve3};
use math_functions::types::{Matrix3, Vec3};
use math_functions::vector::{add, cross, sub};
use records::body::BodyState;
use solver::Softness;

// What a point row leaves, and the mark of its matrix.
#[derive(Clone, Copy)]
pub struct PointRow {
    pub impulse: Vec3,
    pub velocities: Velocities,
    pub mark: Mark,
}

// The bias of the point row.
#[inline(always)]
#[tactic(auto, unfolding(crate::specs::Point::point_bias))]
pub fn point_bias(
    is_soft: bool,
    softness: Softness,
    anchors: Anchors,
    delta_center: Vec3,
    state_a: BodyState,
    state_b: BodyState,
) -> SoftBias<Vec3>
    ensures { result ≡ D.point_bias is_soft softness anchors.r_a anchors.r_b state_a.delta_position state_b.delta_position delta_center }
{
    if is_soft {
        let moved = sub(state_b.delta_position, state_a.delta_position);
        let separation = add(add(moved, sub(anchors.r_b, anchors.r_a)), delta_center);
        soft_bias(softness, separation)
    } else {
        rigid()
    }
}

// The matrix with a mass added on its diagonal.
pub fn add_mass(k: Matrix3, mass: f32) -> Matrix3
    ensures { result ≡ D.add_mass k mass }
{
    let mut out = k;
    let x = k.cx.x + mass;
    let y = k.cy.y + mass;
    let z = k.cz.z + mass;
    out.cx.x = x;
    out.cy.y = y;
    out.cz.z = z;
    out
}

// The matrix of a point row:
// K = [(1/m1 + 1/m2) * eye(3) - skew(r1) * invI1 * skew(r1) - skew(r2) * invI2 * skew(r2)]
#[inline(always)]
#[tactic(auto, unfolding(crate::specs::Point::point_mass))]
fn point_mass(m: InvMasses, anchors: Anchors) -> Matrix3
    ensures { result ≡ D.point_mass m anchors.r_a anchors.r_b }
{
    let s_a = skew(anchors.r_a);
    let s_b = skew(anchors.r_b);
    let k_a = mul_mm(s_a, mul_mm(m.i_a, s_a));
    let k_b = mul_mm(s_b, mul_mm(m.i_b, s_b));
    add_mass(negate_mat3(add_mm(k_a, k_b)), m.m_a + m.m_b)
}

// The velocity error at the anchors, as revolute and spherical subtract it: v_a, then w_a x r_a.
#[tactic(auto, unfolding(crate::specs::Point::point_cdot))]
pub fn point_cdot(anchors: Anchors, v: Velocities) -> Vec3
    ensures { result ≡ D.point_cdot anchors.r_a anchors.r_b v }
{
    let at_b = add(v.v_b, cross(v.w_b, anchors.r_b));
    sub(sub(at_b, v.v_a), cross(v.w_a, anchors.r_a))
}

// The same as weld groups it: (v_b + w_b x r_b) - (v_a + w_a x r_a).
#[tactic(auto, unfolding(crate::specs::Point::point_cdot_grouped))]
pub fn point_cdot_grouped(anchors: Anchors, v: Velocities) -> Vec3
    ensures { result ≡ D.point_cdot_grouped anchors.r_a anchors.r_b v }
{
    let at_b = add(v.v_b, cross(v.w_b, anchors.r_b));
    sub(at_b, add(v.v_a, cross(v.w_a, anchors.r_a)))
}

// The point row holds the two anchors together, where s is its bias and cdot the velocity error.
#[inline(always)]
#[tactic(auto, using(crate::proofs::Impulse::vector_impulse), unfolding(crate::specs::Point::point_row_at))]
pub fn point_row(
    s: SoftBias<Vec3>,
    cdot: Vec3,
    anchors: Anchors,
    old_impulse: Vec3,
    m: InvMasses,
    v: Velocities,
) -> PointRow
    ensures { result ≡ D.point_row_at s cdot anchors.r_a anchors.r_b old_impulse m v }
{
    let k = point_mass(m, anchors);
    let b = solve3(k, add(cdot, s.bias));
    let delta_impulse = soft_impulse_of(s, b.value, old_impulse);
    let impulse = add(old_impulse, delta_impulse);
    let velocities = apply_point(m, anchors, delta_impulse, v);
    let mark = b.mark;
    PointRow {
        impulse,
        velocities,
        mark,
    }
}
