//! Opening and closing.
ghost use Rattle.std.specs.Prelude.{◌≡◌, ◌≢◌, ◌↔◌, false, None, IsSome, IsSomeAnd};
ghost use Rattle.fsw_c.specs.Codes.{closed_code, already_open_code, bad_limits_code, no_memory_code};
ghost use Rattle.fsw_c.specs.Opened.{status_of};
ghost use Rattle.fsw_c.specs.Limits.{IsNewCore, are_limits};

use crate::codes::{CLOSED, SUCCESS};
use crate::handle::FswCore;
use crate::limits::{FswLimits, config_of};
use crate::opened::FswOpened;
use fsw_core::Core;
use std::alloc::Global;

/// Opens a core of these limits. C has the status, which comes back as a number does.
#[unsafe(no_mangle)]
pub extern "C" fn fsw_raw_open(alloc: Global, core: &mut FswCore, limits: &FswLimits) -> FswOpened
    ensures new { status_of result ≡ 0 → IsSomeAnd core.new.held.value (IsNewCore limits.now) }
    ensures refused { status_of result ≢ 0 → core.new.held.value ≡ core.old.held.value }
    ensures already { (status_of result ≡ already_open_code) ↔ IsSome core.old.held.value }
    ensures bad { (status_of result ≡ bad_limits_code) ↔
        ((core.old.held.value ≡ None) × (are_limits limits.now ≡ false)) }
    ensures memory { status_of result ≢ 0 → status_of result ≢ already_open_code →
        status_of result ≢ bad_limits_code → status_of result ≡ no_memory_code }
{
    if core.is_open == 1 {
        return FswOpened::already_open();
    }
    let Some(cfg) = config_of(limits) else {
        return FswOpened::bad_limits();
    };
    match Core::new_boxed(alloc, &cfg, limits.apps, limits.buffers) {
        Ok(it) => {
            *core = FswCore::open(it);
            FswOpened::done()
        }
        Err(evidence) => FswOpened::no_memory(evidence),
    }
}

/// Closes the core. The memory of messages and tables stays taken.
#[unsafe(no_mangle)]
pub extern "C" fn fsw_raw_close(alloc: Global, core: &mut FswCore) -> u32
    ensures closed { core.new.held.value ≡ None }
    ensures answer { (result ≡ 0) ↔ IsSome core.old.held.value }
    ensures was_closed { result ≢ 0 → result ≡ closed_code }
{
    match core.take(alloc) {
        Some(it) => {
            Core::let_go(it);
            SUCCESS
        }
        None => CLOSED,
    }
}
