// The tests of a run, made on the whole list before anything runs.
#![tactic(auto)]

ghost use Rattle.std.specs.Prelude.{◌≡◌, leb, map};
ghost use Rattle.records.specs.Joint.{is_other};
ghost use Rattle.records.specs.Refusal.{tested};
ghost use Rattle.scene.specs.Plain.{joint_cause, stage_cause, early_cause, verdict, verdict_answer};
ghost use Rattle.list_check.specs.Causes.{joint_causes};

use joint::index::check_indices;
use records::joint::JointUnion;
use records::refusal::{Cause, Refusal};
use scene::Scene;
use std::array;

fn is_other(union_: JointUnion) -> bool
    ensures { result ≡ is_other union_ }
{
    matches!(union_, JointUnion::Other)
}

// The tests of a call that only its joint decides.
fn check_joint(body_count: u32, union_: JointUnion) -> Result<(), Cause>
    ensures { tested result ≡ joint_cause body_count union_ }
{
    if is_other(union_) {
        return Err(Cause::Kind);
    }
    check_indices(body_count as usize, union_)
}

// These tests of each joint, made once for all its calls.
fn check_joints(scene: Scene) -> [Result<(), Cause>; 32]
    ensures { map tested result ≡ joint_causes scene }
{
    array::from_fn(|k| check_joint(scene.body_count, scene.joints[k].union_))
}

// Whether a slot is past the last joint.
fn is_past(joint_count: u32, slot: u8) -> bool
    ensures { result ≡ leb joint_count slot }
{
    joint_count <= slot as u32
}

// The tests of a call whose slot holds a joint, of which `of_joint` tells. The stage is a byte of the list.
fn check_stage(of_joint: Result<(), Cause>, stage: u8) -> Result<(), Cause>
    ensures { tested result ≡ stage_cause (tested of_joint) stage }
{
    if 2 < stage {
        return Err(Cause::Stage);
    }
    of_joint
}

// The tests before any call is looked at.
#[tactic(auto, unfolding(scene::specs::Plain::early_cause))]
fn check_before(body_count: u32, joint_count: u32, bytes: usize) -> Result<(), Cause>
    ensures { tested result ≡ early_cause body_count joint_count bytes }
{
    if 32 < body_count {
        return Err(Cause::Count);
    }
    if 32 < joint_count {
        return Err(Cause::Count);
    }
    if bytes % 2 == 1 {
        return Err(Cause::Length);
    }
    if 8192 < bytes {
        return Err(Cause::Length);
    }
    Ok(())
}

// The first cause of a refusal in the whole list, with its place. A slot is tested before its joint's
// tests are read, which is faster than both tests of the call in one.
pub fn check_list(scene: Scene, list: &[u8]) -> Result<(), Refusal>
    ensures { verdict_answer result ≡ verdict scene list.now }
{
    check_before(scene.body_count, scene.joint_count, list.len())?;
    let checked = check_joints(scene);
    let (calls, _) = list.as_chunks::<2>();
    for (place, &[slot, stage]) in calls.iter().enumerate() {
        let place = place as u32;
        if is_past(scene.joint_count, slot) {
            return Err(Refusal {
                cause: Cause::Slot,
                place,
            });
        }
        check_stage(checked[slot as usize], stage).map_err(|cause| Refusal { cause, place })?;
    }
    Ok(())
}
