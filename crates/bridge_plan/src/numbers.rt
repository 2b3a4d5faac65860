//! Applications of both sides by one number.
ghost use Rattle.std.specs.Prelude.{◌≡◌, ◌⊎◌};
ghost use Rattle.bridge_plan.specs.Plan.{gate_number_of};

use fsw_base::{AppNo, MAX_APPS};

/// What a gate calls an application of a side, 1 or 2: its number, and on side 2 16 more.
pub fn gate_number(side: u32, app: AppNo) -> u32
    requires { (side ≡ 1) ⊎ (side ≡ 2) }
    ensures { result ≡ gate_number_of side app }
{
    if side == 1 {
        app.get()
    } else {
        app.get() + MAX_APPS
    }
}
