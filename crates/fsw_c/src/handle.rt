//! What C holds of the core.
ghost use Rattle.std.specs.Prelude.{◌≡◌, ◌↔◌, Some, None, IsSome, MatchOption};

use crate::held::HeldCore;
use fsw_core::Core;
use std::alloc::Global;
use std::mem;

/// What C holds of the core: all zero while it is closed.
#[repr(C)]
#[derive(Drop)]
pub struct FswCore {
    // The core, or none.
    pub(crate) held: HeldCore,
    // 1 if there is one, else 0. It fills the struct, so that no call writes bytes behind it.
    pub(crate) is_open: u64,
    /// It is open if there is a core.
    pub ghost opened: { (is_open ≡ 1) ↔ IsSome held.value },
}

impl FswCore {
    /// One with a core.
    pub(crate) fn open(core: Box<Core>) -> FswCore
        ensures { result.held.value ≡ Some core.entry.value }
    {
        FswCore {
            held: HeldCore::of(core),
            is_open: 1,
        }
    }

    /// Takes the core out, if there is one.
    pub(crate) fn take(&mut self, alloc: Global) -> Option<Box<Core>>
        ensures taken { MatchOption result (self.old.held.value ≡ None)
            (λ core. self.old.held.value ≡ Some core.value) }
        ensures closed { self.new.held.value ≡ None }
    {
        if self.is_open != 1 {
            return None;
        }
        let closed = FswCore {
            held: HeldCore::none(alloc),
            is_open: 0,
        };
        let FswCore { held, is_open: _ } = mem::replace(self, closed);
        Some(held.into_box())
    }
}
