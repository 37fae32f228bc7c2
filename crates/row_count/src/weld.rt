// The rows of a weld solve.
ghost use Rattle.std.specs.Prelude.{◌≡◌};
ghost use Rattle.row_count.specs.Weld as D;

use crate::rows::rows_if;

#[tactic(auto, unfolding(crate::specs::Weld::count_rows))]
pub fn count_rows(fixed_rotation: bool) -> u32
    ensures { result ≡ D.count_rows fixed_rotation }
{
    rows_if(!fixed_rotation, 1) + 1
}
