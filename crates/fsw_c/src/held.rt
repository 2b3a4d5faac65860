//! A boxed core as its pointer.
ghost use Rattle.std.specs.Prelude.{◌≡◌, Some, None, Option, IsSome};
ghost use Rattle.fsw_core.specs.declared.Core.{Core};

use crate::parts::Parts;
use fsw_core::Core;
use std::alloc::Global;
use std::marker::Model;

/// A boxed core as its pointer, or none.
#[repr(C)]
#[derive(Drop)]
pub struct HeldCore {
    // Where the core lies; null if there is none.
    at: *mut u8,
    // What frees it.
    alloc: Global,
    /// The core.
    pub ghost value: { Option Core },
}

impl Model for HeldCore {
    ghost use Rattle.fsw_c.specs.Owned.{maybe_owns};

    ghost also_owns = { λ h. maybe_owns h.alloc h.at h.value };
}

impl HeldCore {
    /// Holds nothing.
    pub(crate) fn none(alloc: Global) -> HeldCore
        ensures { result.value ≡ None }
    {
        HeldCore {
            at: std::ptr::null_mut(),
            alloc,
        }
    }

    fn of_parts(parts: Parts<Core, Global>) -> HeldCore
        ensures { result.value ≡ Some parts.entry.value }
    {
        let Parts { ptr, alloc } = parts;
        HeldCore {
            at: ptr as *mut u8,
            alloc,
        }
    }

    fn into_parts(self) -> Parts<Core, Global>
        requires { IsSome self.value }
        ensures { self.value ≡ Some result.value }
    {
        let HeldCore { at, alloc } = self;
        Parts {
            ptr: at as *mut Core,
            alloc,
        }
    }

    /// Holds a box.
    pub(crate) fn of(core: Box<Core>) -> HeldCore
        ensures { result.value ≡ Some core.entry.value }
    {
        HeldCore::of_parts(Parts::of(core))
    }

    /// The box.
    pub(crate) fn into_box(self) -> Box<Core>
        requires { IsSome self.value }
        ensures { self.value ≡ Some result.value }
    {
        self.into_parts().into_box()
    }
}

unsafe impl Send for HeldCore {}
