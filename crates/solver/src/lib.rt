// Soft constraint coefficients, and the step context.
#![tactic(auto)]

ghost use Rattle.std.specs.Prelude.{◌≡◌};
ghost use Rattle.solver.specs.Solver as D;

use math_functions::types::PI;

// Soft constraint coefficients.
#[derive(Clone, Copy)]
pub struct Softness {
    pub bias_rate: f32,
    pub mass_scale: f32,
    pub impulse_scale: f32,
}

pub const NO_SOFTNESS: Softness = Softness {
    bias_rate: 0.0,
    mass_scale: 0.0,
    impulse_scale: 0.0,
};

#[tactic(auto, unfolding(crate::specs::Solver::make_soft))]
pub fn make_soft(hertz: f32, zeta: f32, h: f32) -> Softness
    ensures { result ≡ D.make_soft hertz zeta h }
{
    if hertz == 0.0 {
        return NO_SOFTNESS;
    }

    let omega = 2.0 * PI * hertz;
    let a1 = 2.0 * zeta + h * omega;
    let a2 = h * omega * a1;
    let a3 = 1.0 / (1.0 + a2);

    // bias = w / (2 * z + hw)
    // mass_scale = hw * (2 * z + hw) / (1 + hw * (2 * z + hw))
    // impulse_scale = 1 / (1 + hw * (2 * z + hw))
    Softness {
        bias_rate: omega / a1,
        mass_scale: a2 * a3,
        impulse_scale: a3,
    }
}

// Context for a time step.
#[derive(Clone, Copy)]
pub struct StepContext {
    // time step
    pub dt: f32,

    // inverse time step (0 if dt == 0).
    pub inv_dt: f32,

    // sub-step
    pub h: f32,
    pub inv_h: f32,

    pub sub_step_count: i32,

    pub contact_softness: Softness,
    pub static_softness: Softness,

    pub restitution_threshold: f32,
    pub max_linear_velocity: f32,
    pub contact_speed: f32,

    pub enable_warm_starting: bool,
}
