// The direct calls on a joint and states that are handed over by value: they are lent to a number of
// calls, each on what the one before it left, and handed back as the last left them.
#![tactic(auto)]

ghost use Rattle.std.specs.Prelude.{◌≡◌, min};
ghost use Rattle.direct.specs.Direct.{StageCall};
ghost use Rattle.direct.specs.Direct as D;
ghost use Rattle.lent_calls.specs.Lent as L;

use constraint::answer::NO_REPORT;
use direct::{
    Answer, solve_revolute_joint, solve_spherical_joint, solve_weld_joint,
    warm_start_revolute_joint, warm_start_spherical_joint, warm_start_weld_joint,
};
use records::body::BodyState;
use records::joint::JointSim;
use solver::StepContext;

// What the last call answered (no refusal and no mark where there was none), and what the calls left. The
// states are an array, handed over and back, since nothing here allocates.
#[derive(Clone, Copy)]
pub struct Lent {
    pub answer: Answer,
    pub joint: JointSim,
    pub states: [BodyState; 40],
}

// How many states are lent: the body count, or all of them where there are not as many.
// Speed: by `min` a revolute warm start in bench_direct has 328 instructions, and 280 without it, on one
// code.
fn lent_count(body_count: usize) -> usize
    ensures { result ≡ min body_count 40 }
{
    if body_count < 40 {
        return body_count;
    }
    40
}

// What is answered before there is a call.
fn no_answer() -> Answer
    ensures { D.answered result ≡ L.no_answer }
{
    Answer {
        report: NO_REPORT,
        refused: None,
    }
}

// One call. It stays a call, as a direct call does in the Rust: as a part of the loop it would not be worked
// whole each time, since what no call changes would be read before the loop.
#[inline(never)]
fn make<F: Fn(&mut JointSim, &mut [BodyState]) -> Answer>(
    call: &F,
    joint: &mut JointSim,
    states: &mut [BodyState],
) -> Answer
    requires { F.IsAlwaysCallable call.now }
    ensures { (c : StageCall) → L.Makes (F.post call.now) c
        → D.Leaves (D.direct_call c joint.old states.old) (D.answered result) joint.new states.new }
{
    call(joint, states)
}

// The calls of any direct call `c` that `call` makes.
fn lend_calls<F: Fn(&mut JointSim, &mut [BodyState]) -> Answer>(
    mut joint: JointSim,
    mut states: [BodyState; 40],
    body_count: usize,
    calls: u64,
    call: F,
) -> Lent
    requires { F.IsAlwaysCallable call }
    ensures { (c : StageCall) → L.Makes (F.post call) c
        → L.lent_answer result ≡ L.lent_calls c joint states body_count calls }
{
    let n = lent_count(body_count);
    let mut answer = no_answer();
    for _ in 0..calls {
        answer = make(&call, &mut joint, &mut states[..n]);
    }
    Lent {
        answer,
        joint,
        states,
    }
}

// The six direct calls, each lent by its own name: a program that times one has no closure of its own.

pub fn lend_warm_start_revolute_joint(
    joint: JointSim,
    states: [BodyState; 40],
    body_count: usize,
    calls: u64,
) -> Lent
    ensures { L.lent_answer result ≡ L.lent_calls (D.warm_start D.revolute) joint states body_count calls }
{
    lend_calls(joint, states, body_count, calls, warm_start_revolute_joint)
}

pub fn lend_warm_start_spherical_joint(
    joint: JointSim,
    states: [BodyState; 40],
    body_count: usize,
    calls: u64,
) -> Lent
    ensures { L.lent_answer result ≡ L.lent_calls (D.warm_start D.spherical) joint states body_count calls }
{
    lend_calls(joint, states, body_count, calls, warm_start_spherical_joint)
}

pub fn lend_warm_start_weld_joint(
    joint: JointSim,
    states: [BodyState; 40],
    body_count: usize,
    calls: u64,
) -> Lent
    ensures { L.lent_answer result ≡ L.lent_calls (D.warm_start D.weld) joint states body_count calls }
{
    lend_calls(joint, states, body_count, calls, warm_start_weld_joint)
}

pub fn lend_solve_revolute_joint(
    joint: JointSim,
    context: StepContext,
    states: [BodyState; 40],
    body_count: usize,
    use_bias: bool,
    calls: u64,
) -> Lent
    ensures { L.lent_answer result ≡ L.lent_calls (D.solve D.revolute context use_bias) joint states body_count calls }
{
    lend_calls(joint, states, body_count, calls, |joint, states| {
        solve_revolute_joint(joint, context, states, use_bias)
    })
}

pub fn lend_solve_spherical_joint(
    joint: JointSim,
    context: StepContext,
    states: [BodyState; 40],
    body_count: usize,
    use_bias: bool,
    calls: u64,
) -> Lent
    ensures { L.lent_answer result ≡ L.lent_calls (D.solve D.spherical context use_bias) joint states body_count calls }
{
    lend_calls(joint, states, body_count, calls, |joint, states| {
        solve_spherical_joint(joint, context, states, use_bias)
    })
}

// Speed: by `lend_calls`, as the others, a weld's solve in bench_direct has 1,290 instructions, so it has
// 1,208. The first call stands before the loop, so that the direct call has two callers and stays a call, and
// the loop counts on from it.
pub fn lend_solve_weld_joint(
    mut joint: JointSim,
    context: StepContext,
    mut states: [BodyState; 40],
    body_count: usize,
    use_bias: bool,
    calls: u64,
) -> Lent
    ensures { L.lent_answer result ≡ L.lent_calls (D.solve D.weld context use_bias) joint states body_count calls }
{
    let n = lent_count(body_count);
    let mut answer = no_answer();
    let mut i = 0u64;
    if i < calls {
        answer = solve_weld_joint(&mut joint, context, &mut states[..n], use_bias);
        i = 1;
    }
    while i < calls {
        answer = solve_weld_joint(&mut joint, context, &mut states[..n], use_bias);
        i += 1;
    }
    Lent {
        answer,
        joint,
        states,
    }
}
