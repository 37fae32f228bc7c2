// The words of the numbers and of what the leaves take and answer. Each is taken into what reads or compares it:
// without the attribute cases of stages have 18 in a hundred more instructions.
use crate::agreement::Agreement;
use crate::words::{Answer, Floats, Input, Words, float_of};
use math_functions::mark::{Mark, Marked};
use math_functions::matrix::Mat2;
use math_functions::types::{Matrix3, Quat, Transform, Vec2, Vec3};
use solver::Softness;

// Whether bits is the pattern of x. Rattle gives no pattern of a NaN, so one is told first: any is the same.
fn same(x: f32, bits: u32) -> bool {
    if x.is_nan() {
        return float_of(bits).is_nan();
    }
    x.to_bits() == bits
}

impl Answer for u32 {
    #[inline(always)]
    fn compare(&self, words: &mut Words<'_>) -> Agreement {
        Agreement::from(words.word() == *self)
    }
}

impl Input for u32 {
    #[inline(always)]
    fn read(words: &mut Words<'_>) -> u32 {
        words.word()
    }
}

// Two's complement.
impl Answer for i32 {
    #[inline(always)]
    fn compare(&self, words: &mut Words<'_>) -> Agreement {
        words.compare(&self.cast_unsigned())
    }
}

impl Input for i32 {
    #[inline(always)]
    fn read(words: &mut Words<'_>) -> i32 {
        words.word().cast_signed()
    }
}

impl Answer for bool {
    #[inline(always)]
    fn compare(&self, words: &mut Words<'_>) -> Agreement {
        words.compare(&u32::from(*self))
    }
}

impl Input for bool {
    #[inline(always)]
    fn read(words: &mut Words<'_>) -> bool {
        words.switch()
    }
}

impl Answer for f32 {
    #[inline(always)]
    fn compare(&self, words: &mut Words<'_>) -> Agreement {
        Agreement::from(same(*self, words.word()))
    }
}

impl Input for f32 {
    #[inline(always)]
    fn read(words: &mut Words<'_>) -> f32 {
        words.float()
    }
}

impl Answer for Vec2 {
    #[inline(always)]
    fn compare(&self, words: &mut Words<'_>) -> Agreement {
        words.compare(&self.x) & words.compare(&self.y)
    }
}

impl Input for Vec2 {
    #[inline(always)]
    fn read(words: &mut Words<'_>) -> Vec2 {
        Vec2 {
            x: words.read(),
            y: words.read(),
        }
    }
}

impl Answer for Vec3 {
    #[inline(always)]
    fn compare(&self, words: &mut Words<'_>) -> Agreement {
        words.compare(&self.x) & words.compare(&self.y) & words.compare(&self.z)
    }
}

impl Input for Vec3 {
    #[inline(always)]
    fn read(words: &mut Words<'_>) -> Vec3 {
        Vec3 {
            x: words.read(),
            y: words.read(),
            z: words.read(),
        }
    }
}

impl Answer for Quat {
    #[inline(always)]
    fn compare(&self, words: &mut Words<'_>) -> Agreement {
        words.compare(&self.v) & words.compare(&self.s)
    }
}

impl Input for Quat {
    #[inline(always)]
    fn read(words: &mut Words<'_>) -> Quat {
        Quat {
            v: words.read(),
            s: words.read(),
        }
    }
}

impl Answer for Mat2 {
    #[inline(always)]
    fn compare(&self, words: &mut Words<'_>) -> Agreement {
        words.compare(&self.cx) & words.compare(&self.cy)
    }
}

impl Input for Mat2 {
    #[inline(always)]
    fn read(words: &mut Words<'_>) -> Mat2 {
        Mat2 {
            cx: words.read(),
            cy: words.read(),
        }
    }
}

impl Answer for Matrix3 {
    #[inline(always)]
    fn compare(&self, words: &mut Words<'_>) -> Agreement {
        words.compare(&self.cx) & words.compare(&self.cy) & words.compare(&self.cz)
    }
}

impl Input for Matrix3 {
    #[inline(always)]
    fn read(words: &mut Words<'_>) -> Matrix3 {
        Matrix3 {
            cx: words.read(),
            cy: words.read(),
            cz: words.read(),
        }
    }
}

impl Answer for Transform {
    #[inline(always)]
    fn compare(&self, words: &mut Words<'_>) -> Agreement {
        words.compare(&self.p) & words.compare(&self.q)
    }
}

impl Input for Transform {
    #[inline(always)]
    fn read(words: &mut Words<'_>) -> Transform {
        Transform {
            p: words.read(),
            q: words.read(),
        }
    }
}

impl Answer for Softness {
    #[inline(always)]
    fn compare(&self, words: &mut Words<'_>) -> Agreement {
        words.compare(&self.bias_rate)
            & words.compare(&self.mass_scale)
            & words.compare(&self.impulse_scale)
    }
}

impl Input for Softness {
    #[inline(always)]
    fn read(words: &mut Words<'_>) -> Softness {
        Softness {
            bias_rate: words.read(),
            mass_scale: words.read(),
            impulse_scale: words.read(),
        }
    }
}

// Inputs that stand one after the other, and parts of an answer.
impl Answer for () {
    #[inline(always)]
    fn compare(&self, _words: &mut Words<'_>) -> Agreement {
        Agreement::from(true)
    }
}

impl<X: Answer, Y: Answer> Answer for (X, Y) {
    #[inline(always)]
    fn compare(&self, words: &mut Words<'_>) -> Agreement {
        words.compare(&self.0) & words.compare(&self.1)
    }
}

impl<X: Input, Y: Input> Input for (X, Y) {
    #[inline(always)]
    fn read(words: &mut Words<'_>) -> (X, Y) {
        (words.read(), words.read())
    }
}

impl<X: Answer, Y: Answer, Z: Answer> Answer for (X, Y, Z) {
    #[inline(always)]
    fn compare(&self, words: &mut Words<'_>) -> Agreement {
        words.compare(&self.0) & words.compare(&self.1) & words.compare(&self.2)
    }
}

impl<X: Input, Y: Input, Z: Input> Input for (X, Y, Z) {
    #[inline(always)]
    fn read(words: &mut Words<'_>) -> (X, Y, Z) {
        (words.read(), words.read(), words.read())
    }
}

// A mark: 0 for none, 1 for solved, 2 for fell back.
impl Answer for Option<Mark> {
    #[inline(always)]
    fn compare(&self, words: &mut Words<'_>) -> Agreement {
        let mark = match *self {
            None => 0,
            Some(Mark::Solved) => 1,
            Some(Mark::FellBack) => 2,
        };
        Agreement::of_mark(words.word() == mark)
    }
}

// The answer of a leaf that may fall back to zeros has its mark last.
impl<T: Answer> Answer for Marked<T> {
    #[inline(always)]
    fn compare(&self, words: &mut Words<'_>) -> Agreement {
        words.compare(&self.value) & words.compare(&Some(self.mark))
    }
}

impl Floats for f32 {}

impl Floats for Vec2 {}

impl Floats for Vec3 {}

impl Floats for Quat {}

impl Floats for Mat2 {}

impl Floats for Matrix3 {}

impl<X: Floats, Y: Floats> Floats for (X, Y) {}

impl<X: Floats, Y: Floats, Z: Floats> Floats for (X, Y, Z) {}
