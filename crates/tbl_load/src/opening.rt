//! What a core takes when it opens.
ghost use Rattle.std.specs.Prelude.{◌≡◌, ◌<◌, ◌^◌, sum_by};

use fsw_base::Budget;

/// How many entries the budgets allow in all.
pub(crate) fn total_entries(budgets: &[Budget]) -> u32
    requires { sum_by (λ budget. budget.entries) budgets.now < 2 ^ 32 }
    ensures { result ≡ sum_by (λ budget. budget.entries) budgets.now }
{
    budgets.iter().map(|budget| budget.entries).sum()
}
