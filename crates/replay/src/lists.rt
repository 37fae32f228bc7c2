// The cases of call lists.
//
// The inputs are the scene's two counts, how many joints and states are given, how many bytes the
// list has, the context, the joints, the states, and the list, four bytes to a word. The answer is
// number, place, still, the two counts, the context, the joints and the states.
use crate::agreement::Agreement;
use crate::case::Case;
use crate::scene_words::{answer_places, places_of};
use call_list::run_list;
use scene::{Scene, empty_scene};
use solver::StepContext;

// What stands before the context.
#[derive(Clone, Copy)]
struct Head {
    joint_count: u32,
    body_count: u32,
    joints: u32,
    states: u32,
    bytes: u32,
}

fn head_of(case: &mut Case<'_>) -> Head {
    Head {
        joint_count: case.input(),
        body_count: case.input(),
        joints: case.input(),
        states: case.input(),
        bytes: case.input(),
    }
}

// The scene of the inputs.
fn scene_of(case: &mut Case<'_>, head: Head) -> Scene {
    let context: StepContext = case.input();
    let empty = empty_scene(context);
    Scene {
        joints: places_of(case, head.joints as usize, empty.joints),
        bodies: places_of(case, head.states as usize, empty.bodies),
        joint_count: head.joint_count,
        body_count: head.body_count,
        context,
    }
}

// Whether the list runs as the answer says.
fn left(mut case: Case<'_>, head: Head, answer: (u32, u32, bool), scene: &Scene) -> Agreement {
    case.answer(answer);
    case.answer((scene.joint_count, scene.body_count, scene.context));
    answer_places(&mut case, head.joints as usize, &scene.joints);
    answer_places(&mut case, head.states as usize, &scene.bodies);
    case.end()
}

fn runs(mut case: Case<'_>) -> Agreement {
    let head = head_of(&mut case);
    if head.joints > 32 || head.states > 32 {
        return Agreement::from(false);
    }
    let scene = scene_of(&mut case, head);
    let list = case.bytes(head.bytes as usize);
    match run_list(scene, list) {
        Ok(run) => left(case, head, (0, 0, run.still), &run.scene),
        Err(r) => left(case, head, (r.cause.number(), r.place, false), &scene),
    }
}

pub fn agrees(f: u32, case: Case<'_>) -> Option<Agreement> {
    Some(match f {
        0xa0 => runs(case),
        _ => return None,
    })
}
