// The tests of a direct call, and the positions of its two states in the slice.
ghost use Rattle.std.specs.Prelude.{◌≡◌};
ghost use Rattle.joint.specs.Index.{index_a, index_b};
ghost use Rattle.direct.specs.Direct as D;
ghost use Rattle.direct.specs.Steps as S;

use joint::index::{check_indices, indices_of};
use joint::kind::Kind;
use records::joint::JointUnion;
use records::refusal::Cause;

// The positions of the two states among n, where n is the position of none, and the first cause of a
// refusal.
#[derive(Clone, Copy)]
pub struct Positions {
    pub a: usize,
    pub b: usize,
    pub refused: Option<Cause>,
}

// The first cause of a refusal, if there is one.
#[tactic(auto, unfolding(crate::specs::Direct::cause))]
fn cause_of<K: Kind>(union_: JointUnion, n: usize) -> Option<Cause>
    ensures { D.refused_number result ≡ D.cause K.kind union_ n }
{
    if !K::is_of(union_) {
        return Some(Cause::Kind);
    }
    check_indices(n, union_).err()
}

fn position_of(n: usize, index: i32) -> usize
    ensures { result ≡ S.position_of n index }
{
    if index < 0 {
        return n;
    }
    index as usize
}

// The cases of -1 return apart: the compiler then makes up to 32 instructions less of a warm start.
pub fn find_positions<K: Kind>(union_: JointUnion, n: usize) -> Positions
    ensures refused { D.refused_number result.refused ≡ D.cause K.kind union_ n }
    ensures a { result.a ≡ S.position_of n (index_a union_) }
    ensures b { result.b ≡ S.position_of n (index_b union_) }
{
    let refused = cause_of::<K>(union_, n);
    let i = indices_of(union_);
    if i.a < 0 {
        let b = position_of(n, i.b);
        return Positions { a: n, b, refused };
    }
    let a = position_of(n, i.a);
    if i.b < 0 {
        return Positions { a, b: n, refused };
    }
    let b = position_of(n, i.b);
    Positions { a, b, refused }
}
