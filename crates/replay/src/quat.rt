// The cases of the quaternion functions.
use crate::agreement::Agreement;
use crate::case::{Case, answers};
use math_functions::quat::{
    conjugate, delta_quat_to_rotation, dot_quat, get_swing_angle, get_twist_angle, inv_mul_quat,
    mul_quat, negate_quat, rotate_vector,
};

pub fn agrees(f: u32, case: Case<'_>) -> Option<Agreement> {
    Some(match f {
        0x40 => answers(case, |(q, v)| rotate_vector(q, v)),
        0x41 => answers(case, |(a, b)| dot_quat(a, b)),
        0x42 => answers(case, |(a, b)| mul_quat(a, b)),
        0x43 => answers(case, |(a, b)| inv_mul_quat(a, b)),
        0x44 => answers(case, conjugate),
        0x45 => answers(case, negate_quat),
        0x46 => answers(case, get_twist_angle),
        0x47 => answers(case, |(a, b)| delta_quat_to_rotation(a, b)),
        0x48 => answers(case, get_swing_angle),
        _ => return None,
    })
}
