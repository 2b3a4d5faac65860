//! Whether the tables are asked.
ghost use Rattle.std.specs.Prelude.{◌≡◌, ◌≤◌, Some, None, not, IfOk, IsTrue, if◌then◌else◌};
ghost use Rattle.std.specs.Result.{result_err};
ghost use Rattle.tbl_words.specs.Machine.{may_call};
ghost use Rattle.table_core.specs.Core.{has_handle_number, is_range};
ghost use Rattle.checked_tables.specs.Asked.{is_application, reason_if};
ghost use Rattle.checked_tables.specs.Box.{apps_in};

use crate::boxed::TblBox;
use crate::refusal::Refusal;
use fsw_base::{AppNo, MAX_TABLE_BYTES};

impl<'r> TblBox<'r> {
    /// The application of a number.
    pub(crate) fn caller(&self, app: u32) -> Result<AppNo, Refusal>
        ensures why { result_err result ≡
            (if is_application self.now.core app then None else Some Refusal.NoApplication) }
        ensures value { IfOk result (λ caller. caller ≡ app) }
        ensures first { IfOk result (λ caller. 1 ≤ caller) }
        ensures known { IfOk result (λ caller. caller ≤ apps_in self.now.core) }
    {
        let served = self.bags.len();
        let Some(caller) = AppNo::try_new(app) else {
            return Err(Refusal::NoApplication);
        };
        if app as usize > served {
            return Err(Refusal::NoApplication);
        }
        Ok(caller)
    }

    /// The caller of a call whose bytes and rules are few enough, or not.
    pub(crate) fn asks(&self, app: u32, within: bool) -> Result<AppNo, Refusal>
        ensures why { result_err result ≡
            reason_if (not (is_application self.now.core app)) Refusal.NoApplication
            (reason_if (not within) Refusal.TooLong
            (reason_if (not (may_call self.now.core.state app)) Refusal.NotActive None)) }
        ensures value { IfOk result (λ caller. caller ≡ app) }
        ensures first { IfOk result (λ caller. 1 ≤ caller) }
        ensures known { IfOk result (λ caller. caller ≤ apps_in self.now.core) }
        ensures standing { IfOk result (λ caller. IsTrue (may_call self.now.core.state caller)) }
        ensures within { IfOk result (λ caller. IsTrue within) }
    {
        let caller = self.caller(app)?;
        if !within {
            return Err(Refusal::TooLong);
        }
        if !self.core.is_open(caller) {
            return Err(Refusal::NotActive);
        }
        Ok(caller)
    }

    /// The same of a call that gives a handle.
    pub(crate) fn asks_handle(&self, app: u32, within: bool) -> Result<AppNo, Refusal>
        ensures why { result_err result ≡
            reason_if (not (is_application self.now.core app)) Refusal.NoApplication
            (reason_if (not within) Refusal.TooLong
            (reason_if (not (may_call self.now.core.state app)) Refusal.NotActive
            (reason_if (not (has_handle_number self.now.core.state)) Refusal.NoNumbers None))) }
        ensures value { IfOk result (λ caller. caller ≡ app) }
        ensures standing { IfOk result (λ caller. IsTrue (may_call self.now.core.state caller)) }
        ensures within { IfOk result (λ caller. IsTrue within) }
        ensures number { IfOk result (λ caller. IsTrue (has_handle_number self.now.core.state)) }
    {
        let caller = self.asks(app, within)?;
        if !self.core.has_handle_number() {
            return Err(Refusal::NoNumbers);
        }
        Ok(caller)
    }
}

/// Whether a load has 1 to 65536 bytes, from an offset of at most 65536 on.
pub(crate) fn is_range(offset: u32, bytes: &[u8]) -> bool
    ensures { result ≡ is_range offset bytes.now }
{
    offset <= MAX_TABLE_BYTES && !bytes.is_empty() && bytes.len() <= MAX_TABLE_BYTES as usize
}
