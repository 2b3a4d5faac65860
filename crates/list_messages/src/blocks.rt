//! The blocks of a pool that are out.
ghost use Rattle.std.specs.Prelude.{◌≡◌, ℕ, ◌*◌, ◌≤◌, ◌<◌, length, slice_index};
ghost use Rattle.fsw_base.specs.PoolAccounts.{cost_of};
ghost use Rattle.bus_words.specs.Held.{bytes_in_use};

use list_pool::ListAccount;

/// The sizes of the blocks that are out, added up.
pub(crate) fn bytes_in_use(account: &ListAccount) -> u32
    requires made_all { length account.now.made ≡ length account.now.sizes }
    requires out_all { length account.now.out ≡ length account.now.sizes }
    requires most { (class : ℕ) → class < length account.now.sizes →
        slice_index account.now.out class ≤ slice_index account.now.made class }
    requires paid { cost_of account.now.made account.now.sizes ≤ account.now.bytes }
    ensures { result ≡ bytes_in_use account.now }
{
    let mut bytes = 0;
    let _ = account.bytes();
    for class in 0..account.sizes().count() {
        let held = bytes_at(account, class);
        bytes += held;
    }
    bytes as u32
}

// The bytes of the blocks of a size that are out.
fn bytes_at(account: &ListAccount, class: u32) -> u64
    requires { class < length account.now.sizes }
    ensures { result ≡
        slice_index account.now.out class * slice_index account.now.sizes class }
{
    u64::from(account.out_at(class)) * u64::from(account.sizes().at(class))
}
