// The words of the records that the stages of all kinds take: the base of a joint, the step's
// context, what prepare reads of a body, and a body's state.
use crate::agreement::Agreement;
use crate::words::{Answer, Input, Words};
use records::body::{BodyRecord, BodyState};
use records::joint::{JointBase, JointType};
use solver::StepContext;

impl Answer for JointType {
    fn compare(&self, words: &mut Words<'_>) -> Agreement {
        words.compare(&(*self as u32))
    }
}

// A number that no type has reads as the last, which comparing tells from it. (No derive reads an enum's number.)
impl Input for JointType {
    fn read(words: &mut Words<'_>) -> JointType {
        match words.word() {
            0 => JointType::Parallel,
            1 => JointType::Distance,
            2 => JointType::Filter,
            3 => JointType::Motor,
            4 => JointType::Prismatic,
            5 => JointType::Revolute,
            6 => JointType::Spherical,
            7 => JointType::Weld,
            _ => JointType::Wheel,
        }
    }
}

impl Answer for JointBase {
    fn compare(&self, words: &mut Words<'_>) -> Agreement {
        words.compare(&self.joint_id)
            & words.compare(&self.body_id_a)
            & words.compare(&self.body_id_b)
            & words.compare(&self.type_)
            & words.compare(&self.local_frame_a)
            & words.compare(&self.local_frame_b)
            & words.compare(&self.inv_mass_a)
            & words.compare(&self.inv_mass_b)
            & words.compare(&self.inv_i_a)
            & words.compare(&self.inv_i_b)
            & words.compare(&self.constraint_hertz)
            & words.compare(&self.constraint_damping_ratio)
            & words.compare(&self.constraint_softness)
            & words.compare(&self.force_threshold)
            & words.compare(&self.torque_threshold)
            & words.compare(&self.fixed_rotation)
    }
}

impl Input for JointBase {
    fn read(words: &mut Words<'_>) -> JointBase {
        JointBase {
            joint_id: words.read(),
            body_id_a: words.read(),
            body_id_b: words.read(),
            type_: words.read(),
            local_frame_a: words.read(),
            local_frame_b: words.read(),
            inv_mass_a: words.read(),
            inv_mass_b: words.read(),
            inv_i_a: words.read(),
            inv_i_b: words.read(),
            constraint_hertz: words.read(),
            constraint_damping_ratio: words.read(),
            constraint_softness: words.read(),
            force_threshold: words.read(),
            torque_threshold: words.read(),
            fixed_rotation: words.read(),
        }
    }
}

impl Answer for StepContext {
    fn compare(&self, words: &mut Words<'_>) -> Agreement {
        words.compare(&self.dt)
            & words.compare(&self.inv_dt)
            & words.compare(&self.h)
            & words.compare(&self.inv_h)
            & words.compare(&self.sub_step_count)
            & words.compare(&self.contact_softness)
            & words.compare(&self.static_softness)
            & words.compare(&self.restitution_threshold)
            & words.compare(&self.max_linear_velocity)
            & words.compare(&self.contact_speed)
            & words.compare(&self.enable_warm_starting)
    }
}

impl Input for StepContext {
    fn read(words: &mut Words<'_>) -> StepContext {
        StepContext {
            dt: words.read(),
            inv_dt: words.read(),
            h: words.read(),
            inv_h: words.read(),
            sub_step_count: words.read(),
            contact_softness: words.read(),
            static_softness: words.read(),
            restitution_threshold: words.read(),
            max_linear_velocity: words.read(),
            contact_speed: words.read(),
            enable_warm_starting: words.read(),
        }
    }
}

impl Answer for BodyRecord {
    fn compare(&self, words: &mut Words<'_>) -> Agreement {
        words.compare(&self.set_index)
            & words.compare(&self.local_index)
            & words.compare(&self.inv_mass)
            & words.compare(&self.inv_inertia_world)
            & words.compare(&self.rotation)
            & words.compare(&self.center)
            & words.compare(&self.local_center)
    }
}

impl Input for BodyRecord {
    fn read(words: &mut Words<'_>) -> BodyRecord {
        BodyRecord {
            set_index: words.read(),
            local_index: words.read(),
            inv_mass: words.read(),
            inv_inertia_world: words.read(),
            rotation: words.read(),
            center: words.read(),
            local_center: words.read(),
        }
    }
}

impl Answer for BodyState {
    fn compare(&self, words: &mut Words<'_>) -> Agreement {
        words.compare(&self.linear_velocity)
            & words.compare(&self.angular_velocity)
            & words.compare(&self.delta_position)
            & words.compare(&self.delta_rotation)
            & words.compare(&self.flags)
    }
}

impl Input for BodyState {
    fn read(words: &mut Words<'_>) -> BodyState {
        BodyState {
            linear_velocity: words.read(),
            angular_velocity: words.read(),
            delta_position: words.read(),
            delta_rotation: words.read(),
            flags: words.read(),
        }
    }
}
