// The cases of the scalar functions, and of sqrt.
use crate::agreement::Agreement;
use crate::case::{Case, answers};
use math_functions::scalar::{abs_float, atan2, clamp_float, max_float, min_float};
use sqrt::sqrt;

pub fn agrees(f: u32, case: Case<'_>) -> Option<Agreement> {
    Some(match f {
        0x10 => answers(case, abs_float),
        0x11 => answers(case, |(x, y)| min_float(x, y)),
        0x12 => answers(case, |(x, y)| max_float(x, y)),
        0x13 => answers(case, |(x, y, z)| clamp_float(x, y, z)),
        0x14 => answers(case, |(x, y)| atan2(x, y)),
        0x15 => answers(case, sqrt),
        _ => return None,
    })
}
