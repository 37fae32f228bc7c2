// The two leaves that the language does not supply.
use bench_wall::sum::add_float;
use math_functions::scalar::atan2;
use sqrt::sqrt;

// The roots of numbers half a unit apart, summed.
pub fn roots(calls: u64) -> u32 {
    let mut x = 0.5f32;
    let mut total = 0.0f32;
    for _ in 0..calls {
        total += sqrt(x);
        x += 0.5;
    }
    add_float(0, total)
}

// The angles of a point that goes round the origin, summed.
pub fn arctangents(calls: u64) -> u32 {
    let mut x = 1.0f32;
    let mut y = 0.0f32;
    let mut total = 0.0f32;
    for _ in 0..calls {
        total += atan2(y, x);
        let turned = 0.8 * x - 0.6 * y;
        y = 0.6 * x + 0.8 * y;
        x = turned;
    }
    add_float(0, total)
}
