// The cases of the functions of world positions, which are Vec3 here.
use crate::agreement::Agreement;
use crate::case::{Case, answers};
use math_functions::transform::sub_pos;

pub fn agrees(f: u32, case: Case<'_>) -> Option<Agreement> {
    Some(match f {
        0x60 => answers(case, |(a, b)| sub_pos(a, b)),
        _ => return None,
    })
}
