// A call list, run on a scene. The whole list is checked before anything runs.
#![tactic(auto)]

ghost use Rattle.std.specs.Prelude.{◌≡◌, ◌≤◌};
ghost use Rattle.scene.specs.Plain.{same_below, run_answer, plain_run};

use crate::calls::run_calls;
use crate::still::same_velocities;
use list_check::check_list;
use records::body::BodyState;
use records::refusal::Refusal;
use scene::{Run, Scene};

mod calls;
mod positions;
mod still;

// Whether the first `count` bodies kept their velocities. (By `zip` and `all` no proof was found.)
fn is_still(count: u32, before: [BodyState; 32], after: [BodyState; 32]) -> bool
    requires { count ≤ 32 }
    ensures { result ≡ same_below count before after }
{
    let mut same = true;
    for k in 0..count as usize {
        same = same & same_velocities(before[k], after[k]);
    }
    same
}

// The run of a list of any bytes on a scene of any counts.
pub fn run_list(scene: Scene, list: &[u8]) -> Result<Run, Refusal>
    ensures { run_answer scene result ≡ plain_run scene list.now }
{
    check_list(scene, list)?;
    let next = run_calls(scene, list);
    let before = scene.bodies;
    let after = next.bodies;
    let still = is_still(scene.body_count, before, after);
    Ok(Run { still, scene: next })
}
