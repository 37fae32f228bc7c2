// How many rows are counted.
ghost use Rattle.std.specs.Prelude.{◌≡◌};
ghost use Rattle.row_count.specs.Rows as D;

// `n` where they are worked, else 0.
#[tactic(auto, unfolding(crate::specs::Rows::rows_if))]
pub fn rows_if(worked: bool, n: u32) -> u32
    ensures { result ≡ D.rows_if worked n }
{
    if worked { n } else { 0 }
}

// Of revolute and spherical, which differ in the names of their switches: spring, motor, the limit's two, one
// more (revolute's perpendicular axes, spherical's cone), point.
#[tactic(auto, unfolding(crate::specs::Rows::sum_rows))]
pub fn sum_rows(spring: bool, motor: bool, limits: bool, perp_or_cone: bool) -> u32
    ensures { result ≡ D.sum_rows spring motor limits perp_or_cone }
{
    let a = rows_if(spring, 1);
    let b = rows_if(motor, 1);
    let c = rows_if(limits, 2);
    let d = rows_if(perp_or_cone, 1);
    a + b + c + d + 1
}
