// The cases of the matrix functions.
use crate::agreement::Agreement;
use crate::case::{Case, answers};
use math_functions::matrix::{
    add_mm, det, det2, invert_matrix, mul_mm, mul_mv, negate_mat3, skew, solve2, solve3,
};

pub fn agrees(f: u32, case: Case<'_>) -> Option<Agreement> {
    Some(match f {
        0x50 => answers(case, det),
        0x51 => answers(case, |(m, v)| mul_mv(m, v)),
        0x52 => answers(case, negate_mat3),
        0x53 => answers(case, |(a, b)| add_mm(a, b)),
        0x54 => answers(case, |(a, b)| mul_mm(a, b)),
        0x56 => answers(case, invert_matrix),
        0x57 => answers(case, |(m, v)| solve3(m, v)),
        0x58 => answers(case, det2),
        0x59 => answers(case, |(m, v)| solve2(m, v)),
        0x5a => answers(case, skew),
        _ => return None,
    })
}
