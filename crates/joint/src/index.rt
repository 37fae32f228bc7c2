// The bodies that a joint names by its two indices, and the tests of these.
ghost use Rattle.std.specs.Prelude.{◌≡◌};
ghost use Rattle.records.specs.Refusal.{tested};
ghost use Rattle.joint.specs.Index as D;

use records::NULL_INDEX;
use records::joint::JointUnion;
use records::refusal::Cause;

// The two body indices of a joint.
#[derive(Clone, Copy)]
pub struct Indices {
    pub a: i32,
    pub b: i32,
}

// The empty case names no body.
pub fn indices_of(union_: JointUnion) -> Indices
    ensures { result ≡ D.indices_of union_ }
{
    match union_ {
        JointUnion::Revolute(r) => Indices {
            a: r.index_a,
            b: r.index_b,
        },
        JointUnion::Spherical(r) => Indices {
            a: r.index_a,
            b: r.index_b,
        },
        JointUnion::Weld(r) => Indices {
            a: r.index_a,
            b: r.index_b,
        },
        JointUnion::Other => Indices {
            a: NULL_INDEX,
            b: NULL_INDEX,
        },
    }
}

// An index below -1, or at or above the count.
pub fn bad_index(body_count: usize, index: i32) -> bool
    ensures { result ≡ D.bad_index body_count index }
{
    if index < -1 {
        return true;
    }
    if index < 0 {
        return false;
    }
    body_count <= index as usize
}

// The tests of a joint's two indices, the first before the second.
pub fn check_indices(body_count: usize, union_: JointUnion) -> Result<(), Cause>
    ensures { tested result ≡ D.index_cause body_count union_ }
{
    let i = indices_of(union_);
    if bad_index(body_count, i.a) {
        return Err(Cause::FirstIndex);
    }
    if bad_index(body_count, i.b) {
        return Err(Cause::SecondIndex);
    }
    Ok(())
}
