// The words of a spherical joint's own record.
use crate::agreement::Agreement;
use crate::words::{Answer, Input, Words};
use records::joint::SphericalJoint;

impl Input for SphericalJoint {
    fn read(words: &mut Words<'_>) -> SphericalJoint {
        SphericalJoint {
            linear_impulse: words.read(),
            spring_impulse: words.read(),
            motor_impulse: words.read(),
            lower_twist_impulse: words.read(),
            upper_twist_impulse: words.read(),
            swing_impulse: words.read(),
            hertz: words.read(),
            damping_ratio: words.read(),
            max_motor_torque: words.read(),
            motor_velocity: words.read(),
            lower_twist_angle: words.read(),
            upper_twist_angle: words.read(),
            cone_angle: words.read(),
            target_rotation: words.read(),
            index_a: words.read(),
            index_b: words.read(),
            frame_a: words.read(),
            frame_b: words.read(),
            delta_center: words.read(),
            swing_axis: words.read(),
            twist_jacobian: words.read(),
            rotation_mass: words.read(),
            swing_mass: words.read(),
            twist_mass: words.read(),
            spring_softness: words.read(),
            enable_spring: words.read(),
            enable_motor: words.read(),
            enable_cone_limit: words.read(),
            enable_twist_limit: words.read(),
        }
    }
}

// Whether the words before the indices are the joint's.
fn compare_settings(j: &SphericalJoint, words: &mut Words<'_>) -> Agreement {
    words.compare(&j.linear_impulse)
        & words.compare(&j.spring_impulse)
        & words.compare(&j.motor_impulse)
        & words.compare(&j.lower_twist_impulse)
        & words.compare(&j.upper_twist_impulse)
        & words.compare(&j.swing_impulse)
        & words.compare(&j.hertz)
        & words.compare(&j.damping_ratio)
        & words.compare(&j.max_motor_torque)
        & words.compare(&j.motor_velocity)
        & words.compare(&j.lower_twist_angle)
        & words.compare(&j.upper_twist_angle)
        & words.compare(&j.cone_angle)
        & words.compare(&j.target_rotation)
}

// Whether the words from the indices on are the joint's.
fn compare_solver_data(j: &SphericalJoint, words: &mut Words<'_>) -> Agreement {
    words.compare(&j.index_a)
        & words.compare(&j.index_b)
        & words.compare(&j.frame_a)
        & words.compare(&j.frame_b)
        & words.compare(&j.delta_center)
        & words.compare(&j.swing_axis)
        & words.compare(&j.twist_jacobian)
        & words.compare(&j.rotation_mass)
        & words.compare(&j.swing_mass)
        & words.compare(&j.twist_mass)
        & words.compare(&j.spring_softness)
        & words.compare(&j.enable_spring)
        & words.compare(&j.enable_motor)
        & words.compare(&j.enable_cone_limit)
        & words.compare(&j.enable_twist_limit)
}

impl Answer for SphericalJoint {
    fn compare(&self, words: &mut Words<'_>) -> Agreement {
        compare_settings(self, words) & compare_solver_data(self, words)
    }
}
