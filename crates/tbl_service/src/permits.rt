//! Whether a call may be made now, as a port tells it.
ghost use Rattle.std.specs.Prelude.{◌≡◌, ◌↔◌, ◌&&◌, nat_le, IsTrue};
ghost use Rattle.tbl_words.specs.Entries.{call_of, call_bytes};
ghost use Rattle.table_core.specs.Core.{is_within, is_range};
ghost use Rattle.tbl_load.specs.Core.{MayCall};

use crate::ports::TblPort;
use fsw_base::MAX_TABLE_BYTES;
use tbl_words::{Allowance, TblCall};

/// What an application may still add to the journal, and whether it may make its last call, as any
/// other that brings no bytes.
#[derive(Clone, Copy)]
pub struct Permits {
    /// What it may still add.
    pub(crate) left: Allowance,
    /// Whether it may make its last call.
    pub(crate) may_end: bool,
}

impl TblPort<'_> {
    /// Whether the application may make this call now, which is the condition of the call: it
    /// hasn't ended, it has an entry and the call's bytes left, and what is loaded has 1 to 65536
    /// bytes from an offset of at most 65536 on. Told without the lock.
    pub fn may_make(&self, call: &TblCall<'_>) -> bool
        ensures { IsTrue result ↔ MayCall self.now.seen self.now.app (call_of call.now) }
    {
        is_permitted(*self.port.permits(), call)
    }
}

// Whether an application with these permits may make the call.
fn is_permitted(permits: Permits, call: &TblCall<'_>) -> bool
    ensures { result ≡
        (permits.may_end && nat_le (call_bytes (call_of call.now)) permits.left.bytes &&
        is_within (call_of call.now)) }
{
    let bytes = call.byte_count();
    let within = is_within(call);
    permits.may_end && bytes <= permits.left.bytes as usize && within
}

// Whether the range of a load is one; calls of other kinds have none.
fn is_within(call: &TblCall<'_>) -> bool
    ensures { result ≡ is_within (call_of call.now) }
{
    match call {
        TblCall::Stage { offset, bytes, .. } => is_range(*offset, bytes),
        TblCall::Load { offset, bytes, .. } => is_range(*offset, bytes),
        _ => true,
    }
}

// Whether a range is one.
fn is_range(offset: u32, bytes: &[u8]) -> bool
    ensures { result ≡ is_range offset bytes.now }
{
    offset <= MAX_TABLE_BYTES && 1 <= bytes.len() && bytes.len() <= MAX_TABLE_BYTES as usize
}
