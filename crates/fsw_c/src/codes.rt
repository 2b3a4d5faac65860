//! Statuses as C sees them.

/// The call was accepted.
pub(crate) const SUCCESS: u32 = 0;
/// The handle isn't open.
pub(crate) const CLOSED: u32 = 0xc000_0001;
