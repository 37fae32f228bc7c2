// The bit patterns of some numbers, and the comparison of results with them.
pub const ZERO: u32 = 0;

pub const MINUS_ZERO: u32 = 0x8000_0000;

pub const ONE: u32 = 0x3f80_0000;

pub const MINUS_ONE: u32 = 0xbf80_0000;

pub const TWO: u32 = 0x4000_0000;

pub const MINUS_TWO: u32 = 0xc000_0000;

pub const THREE: u32 = 0x4040_0000;

// Whether bits is the pattern of x, which is not a NaN.
fn is_bits(x: f32, bits: u32) -> bool {
    !x.is_nan() && x.to_bits() == bits
}

// Whether what is computed has the patterns that it must have.
pub fn holds<const N: usize>(gives: [f32; N], must: [u32; N]) -> bool {
    gives.iter().zip(&must).all(|(x, bits)| is_bits(*x, *bits))
}
