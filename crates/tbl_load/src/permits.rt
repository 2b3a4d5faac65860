//! Whether a call may be made now.
ghost use Rattle.std.specs.Prelude.{◌≡◌, ◌↔◌, ◌&&◌, nat_le, IsTrue};
ghost use Rattle.tbl_words.specs.Entries.{call_of, call_bytes};
ghost use Rattle.table_core.specs.Core.{is_within, is_range};
ghost use Rattle.tbl_load.specs.Core.{MayCall};

use crate::tables::TblCore;
use fsw_base::{AppNo, MAX_TABLE_BYTES};
use tbl_words::{Allowance, TblCall};

impl TblCore<'_> {
    /// Whether the application may make this call now, which is the condition of the call, beside
    /// that on its bag if it takes one along: the core serves it, it hasn't ended, it has an
    /// entry and the call's bytes left, and what is loaded has 1 to 65536 bytes from an offset of
    /// at most 65536 on.
    pub fn may_make(&self, app: AppNo, call: &TblCall<'_>) -> bool
        ensures { IsTrue result ↔ MayCall self.now app (call_of call.now) }
    {
        if app.get() > self.apps() {
            return false;
        }
        let left = self.noted.journal().left(app);
        let lets = self.core.is_open(app);
        is_permitted(lets, left, call)
    }
}

// Whether an application may make the call that has so much left, and that hasn't ended or has.
fn is_permitted(lets: bool, left: Allowance, call: &TblCall<'_>) -> bool
    ensures { result ≡
        (lets && nat_le 1 left.entries && nat_le (call_bytes (call_of call.now)) left.bytes &&
        is_within (call_of call.now)) }
{
    let bytes = call.byte_count();
    let within = is_within(call);
    lets && 1 <= left.entries && bytes <= left.bytes as usize && within
}

// Whether the range of a load is one; calls of other kinds have none.
fn is_within(call: &TblCall<'_>) -> bool
    ensures { result ≡ is_within (call_of call.now) }
{
    match call {
        TblCall::Stage { offset, bytes, .. } => is_range(*offset, bytes),
        TblCall::Load { offset, bytes, .. } => is_range(*offset, bytes),
        _ => true,
    }
}

// Whether a range is one.
fn is_range(offset: u32, bytes: &[u8]) -> bool
    ensures { result ≡ is_range offset bytes.now }
{
    offset <= MAX_TABLE_BYTES && 1 <= bytes.len() && bytes.len() <= MAX_TABLE_BYTES as usize
}
