// The words of a revolute joint's own record.
use crate::agreement::Agreement;
use crate::words::{Answer, Input, Words};
use records::joint::RevoluteJoint;

impl Input for RevoluteJoint {
    fn read(words: &mut Words<'_>) -> RevoluteJoint {
        RevoluteJoint {
            linear_impulse: words.read(),
            perp_impulse: words.read(),
            spring_impulse: words.read(),
            motor_impulse: words.read(),
            lower_impulse: words.read(),
            upper_impulse: words.read(),
            hertz: words.read(),
            damping_ratio: words.read(),
            max_motor_torque: words.read(),
            motor_speed: words.read(),
            target_angle: words.read(),
            lower_angle: words.read(),
            upper_angle: words.read(),
            index_a: words.read(),
            index_b: words.read(),
            frame_a: words.read(),
            frame_b: words.read(),
            rotation_axis_z: words.read(),
            perp_axis_x: words.read(),
            perp_axis_y: words.read(),
            delta_center: words.read(),
            delta_angle: words.read(),
            axial_mass: words.read(),
            spring_softness: words.read(),
            enable_spring: words.read(),
            enable_motor: words.read(),
            enable_limit: words.read(),
        }
    }
}

// Whether the words before the indices are the joint's.
fn compare_settings(j: &RevoluteJoint, words: &mut Words<'_>) -> Agreement {
    words.compare(&j.linear_impulse)
        & words.compare(&j.perp_impulse)
        & words.compare(&j.spring_impulse)
        & words.compare(&j.motor_impulse)
        & words.compare(&j.lower_impulse)
        & words.compare(&j.upper_impulse)
        & words.compare(&j.hertz)
        & words.compare(&j.damping_ratio)
        & words.compare(&j.max_motor_torque)
        & words.compare(&j.motor_speed)
        & words.compare(&j.target_angle)
        & words.compare(&j.lower_angle)
        & words.compare(&j.upper_angle)
}

// Whether the words from the indices on are the joint's.
fn compare_solver_data(j: &RevoluteJoint, words: &mut Words<'_>) -> Agreement {
    words.compare(&j.index_a)
        & words.compare(&j.index_b)
        & words.compare(&j.frame_a)
        & words.compare(&j.frame_b)
        & words.compare(&j.rotation_axis_z)
        & words.compare(&j.perp_axis_x)
        & words.compare(&j.perp_axis_y)
        & words.compare(&j.delta_center)
        & words.compare(&j.delta_angle)
        & words.compare(&j.axial_mass)
        & words.compare(&j.spring_softness)
        & words.compare(&j.enable_spring)
        & words.compare(&j.enable_motor)
        & words.compare(&j.enable_limit)
}

impl Answer for RevoluteJoint {
    fn compare(&self, words: &mut Words<'_>) -> Agreement {
        compare_settings(self, words) & compare_solver_data(self, words)
    }
}
