//! What the applications do.
ghost use Rattle.std.specs.Prelude.{◌≡◌, replicate, IfOk};

use std::alloc::{AllocError, Global};

/// What an application does.
#[derive(Clone, Copy, Debug)]
pub(crate) enum Activity {
    /// It makes calls.
    Active,
    /// It waits for a message on this pipe of its own.
    Waiting(u32),
    /// It has made its last call.
    Ended,
}

/// So many applications, all active.
pub(crate) fn all_active(alloc: Global, apps: usize) -> Result<Vec<Activity>, AllocError>
    ensures { IfOk result (λ activities. activities.items ≡ replicate apps Activity.Active) }
{
    let mut activities = Vec::with_capacity(alloc, apps)?;
    for _ in 0..apps {
        activities.push_reserved(Activity::Active);
    }
    Ok(activities)
}
