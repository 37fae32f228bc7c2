// The words of a weld joint's own record.
use crate::agreement::Agreement;
use crate::words::{Answer, Input, Words};
use records::joint::WeldJoint;

impl Input for WeldJoint {
    fn read(words: &mut Words<'_>) -> WeldJoint {
        WeldJoint {
            linear_hertz: words.read(),
            linear_damping_ratio: words.read(),
            angular_hertz: words.read(),
            angular_damping_ratio: words.read(),
            linear_spring: words.read(),
            angular_spring: words.read(),
            linear_impulse: words.read(),
            angular_impulse: words.read(),
            index_a: words.read(),
            index_b: words.read(),
            frame_a: words.read(),
            frame_b: words.read(),
            delta_center: words.read(),
            angular_mass: words.read(),
        }
    }
}

impl Answer for WeldJoint {
    fn compare(&self, words: &mut Words<'_>) -> Agreement {
        words.compare(&self.linear_hertz)
            & words.compare(&self.linear_damping_ratio)
            & words.compare(&self.angular_hertz)
            & words.compare(&self.angular_damping_ratio)
            & words.compare(&self.linear_spring)
            & words.compare(&self.angular_spring)
            & words.compare(&self.linear_impulse)
            & words.compare(&self.angular_impulse)
            & words.compare(&self.index_a)
            & words.compare(&self.index_b)
            & words.compare(&self.frame_a)
            & words.compare(&self.frame_b)
            & words.compare(&self.delta_center)
            & words.compare(&self.angular_mass)
    }
}
