//! Whether the bus is asked.
ghost use Rattle.std.specs.Prelude.{◌≡◌, ◌≤◌, ◌&&◌, nat_le, ℕ, Bool, List, Some, None, IfOk, IsTrue, if◌then◌else◌};
ghost use Rattle.std.specs.Result.{result_err};
ghost use Rattle.bus_words.specs.Entries.{call_of};
ghost use Rattle.bus_words.specs.declared.history.Call.TheVariants.{Figures, TransmitBuffer, Release, PoolPut, Register};
ghost use Rattle.bus_core.specs.Core.{MayAct, apps_in};
ghost use Rattle.checked_bus.specs.Asked.{is_application, unasked, has_number};

use crate::boxed::SbBox;
use crate::refusal::Refusal;
use bus_core::is_within;
use bus_words::BusCall;
use fsw_base::AppNo;
use ruled_out::surely_some;

// The application of a number, if so many are served.
#[inline(always)]
fn caller_among(app: u32, served: usize) -> Result<AppNo, Refusal>
    requires few { served ≤ 16 }
    ensures why { result_err result ≡
        (if nat_le 1 app && nat_le app served then None else Some Refusal.NoApplication) }
    ensures value { IfOk result (λ caller. caller ≡ app) }
    ensures first { IfOk result (λ caller. 1 ≤ caller) }
    ensures known { IfOk result (λ caller. caller ≤ served) }
{
    // 0 less 1 is past every number, so that one test tells all.
    if app.wrapping_sub(1) as usize >= served {
        return Err(Refusal::NoApplication);
    }
    Ok(surely_some(AppNo::try_new(app)))
}

impl<'r> SbBox<'r> {
    /// The application of a number.
    #[inline(always)]
    pub(crate) fn caller(&self, app: u32) -> Result<AppNo, Refusal>
        ensures why { result_err result ≡
            (if is_application self.now.core app then None else Some Refusal.NoApplication) }
        ensures value { IfOk result (λ caller. caller ≡ app) }
        ensures first { IfOk result (λ caller. 1 ≤ caller) }
        ensures known { IfOk result (λ caller. caller ≤ apps_in self.now.core) }
    {
        caller_among(app, self.core.apps())
    }

    /// The caller of a call that the bus may be asked. Inlined, it makes the tests of this one call
    /// alone, and the call isn't made in memory.
    #[inline(always)]
    pub(crate) fn caller_for(&self, app: u32, call: &BusCall<'_>) -> Result<AppNo, Refusal>
        ensures why { result_err result ≡ unasked self.now.core app (call_of call.now) }
        ensures value { IfOk result (λ caller. caller ≡ app) }
        ensures first { IfOk result (λ caller. 1 ≤ caller) }
        ensures may { IfOk result (λ caller. MayAct self.now.core caller (call_of call.now)) }
        ensures number { IfOk result
            (λ caller. IsTrue (has_number self.now.core.whole.bus (call_of call.now))) }
    {
        let caller = self.caller(app)?;
        if !is_within(call) {
            return Err(Refusal::TooLong);
        }
        if !self.core.is_open(caller, call) {
            return Err(Refusal::NotActive);
        }
        if !self.has_number(call) {
            return Err(Refusal::NoNumbers);
        }
        Ok(caller)
    }

    /// The caller of a call that the bus may be asked if the application is active, whatever buffer
    /// or grant it names and whichever filters it brings. That is the same for each such call, and
    /// for one that names nothing.
    pub(crate) fn active_caller(&self, app: u32) -> Result<AppNo, Refusal>
        ensures why { result_err result ≡ unasked self.now.core app Figures }
        ensures transmit { (buf : ℕ) (bytes : List ℕ) (inc : Bool) →
            result_err result ≡ unasked self.now.core app (TransmitBuffer buf bytes inc) }
        ensures release { (buf : ℕ) →
            result_err result ≡ unasked self.now.core app (Release buf) }
        ensures put { (pool grant : ℕ) →
            result_err result ≡ unasked self.now.core app (PoolPut pool grant) }
        ensures register { (filters : List (ℕ × ℕ)) →
            result_err result ≡ unasked self.now.core app (Register filters) }
        ensures value { IfOk result (λ caller. caller ≡ app) }
        ensures first { IfOk result (λ caller. 1 ≤ caller) }
        ensures may_transmit { IfOk result
            (λ caller. (buf : ℕ) (bytes : List ℕ) (inc : Bool) →
            MayAct self.now.core caller (TransmitBuffer buf bytes inc)) }
        ensures may_release { IfOk result
            (λ caller. (buf : ℕ) → MayAct self.now.core caller (Release buf)) }
        ensures may_put { IfOk result
            (λ caller. (pool grant : ℕ) → MayAct self.now.core caller (PoolPut pool grant)) }
        ensures may_register { IfOk result
            (λ caller. (filters : List (ℕ × ℕ)) →
            MayAct self.now.core caller (Register filters)) }
    {
        let caller = self.caller_for(app, &BusCall::Figures)?;
        Ok(caller)
    }

    // Whether a number is left for what the call makes.
    fn has_number(&self, call: &BusCall<'_>) -> bool
        ensures { result ≡ has_number self.now.core.whole.bus (call_of call.now) }
    {
        match call {
            BusCall::Create { .. } => self.core.has_pipe_number(),
            BusCall::Subscribe { .. } => self.core.has_subscription_number(),
            _ => true,
        }
    }
}
