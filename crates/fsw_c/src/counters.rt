//! Counters, and what is in use.
ghost use Rattle.std.specs.Prelude.{◌≡◌, None, IfSome};
ghost use Rattle.bus_words.specs.Held.{in_use};
ghost use Rattle.fsw_c.specs.Figures.{open_code, counters_shown, use_shown};

use crate::codes::{CLOSED, SUCCESS};
use crate::handle::FswCore;
use housekeeping::{CounterName, Counters, InUse};
use std::alloc::Global;

/// The counters of the bus.
#[repr(C)]
#[derive(Clone, Copy)]
pub struct FswCounters {
    /// The counter `nosub`.
    pub nosub: u32,
    /// The counter `send`.
    pub send: u32,
    /// The counter `recv`.
    pub recv: u32,
    /// The counter `create`.
    pub create: u32,
    /// The counter `sub`.
    pub sub: u32,
    /// The counter `opts`.
    pub opts: u32,
    /// The counter `find`.
    pub find: u32,
    /// The counter `dup`.
    pub dup: u32,
    /// The counter `limit`.
    pub limit: u32,
    /// The counter `overflow`.
    pub overflow: u32,
    /// The counter `oldest`.
    pub oldest: u32,
}

impl FswCounters {
    // What they show.
    fn of(counters: &Counters) -> FswCounters
        ensures { result ≡ counters_shown counters.now.counts }
    {
        FswCounters {
            nosub: counters.at(CounterName::Nosub),
            send: counters.at(CounterName::Send),
            recv: counters.at(CounterName::Recv),
            create: counters.at(CounterName::Create),
            sub: counters.at(CounterName::Sub),
            opts: counters.at(CounterName::Opts),
            find: counters.at(CounterName::Find),
            dup: counters.at(CounterName::Dup),
            limit: counters.at(CounterName::Limit),
            overflow: counters.at(CounterName::Overflow),
            oldest: counters.at(CounterName::Oldest),
        }
    }
}

/// What of the bus is in use.
#[repr(C)]
#[derive(Clone, Copy)]
pub struct FswUse {
    /// Message ids that have a route.
    pub msgids: u32,
    /// Live pipes.
    pub pipes: u32,
    /// Subscriptions.
    pub subs: u32,
    /// Blocks of messages and unsent buffers.
    pub buffers: u32,
    /// The bytes of these blocks.
    pub bytes: u32,
}

impl FswUse {
    // These numbers.
    fn of(it: InUse) -> FswUse
        ensures { result ≡ use_shown it }
    {
        FswUse {
            msgids: it.msgids,
            pipes: it.pipes,
            subs: it.subs,
            buffers: it.buffers,
            bytes: it.bytes,
        }
    }
}

/// Shows the counters.
#[unsafe(no_mangle)]
pub extern "C" fn fsw_raw_counters(
    alloc: Global,
    core: &mut FswCore,
    counters: &mut FswCounters,
) -> u32
    ensures status { result ≡ open_code core.old.held.value }
    ensures same { core.new.held.value ≡ core.old.held.value }
    ensures kept { core.old.held.value ≡ None → counters.new ≡ counters.old }
    ensures shown { IfSome core.old.held.value
        (λ it. counters.new ≡ counters_shown it.bus.core.whole.bus.statistics.counts) }
{
    let Some(it) = core.take(alloc) else {
        return CLOSED;
    };
    *counters = FswCounters::of(it.bus.counters());
    *core = FswCore::open(it);
    SUCCESS
}

/// Shows what is in use now, and the most of each that was.
#[unsafe(no_mangle)]
pub extern "C" fn fsw_raw_use(
    alloc: Global,
    core: &mut FswCore,
    now: &mut FswUse,
    peak: &mut FswUse,
) -> u32
    ensures status { result ≡ open_code core.old.held.value }
    ensures same { core.new.held.value ≡ core.old.held.value }
    ensures kept_now { core.old.held.value ≡ None → now.new ≡ now.old }
    ensures kept_peak { core.old.held.value ≡ None → peak.new ≡ peak.old }
    ensures shown_now { IfSome core.old.held.value
        (λ it. now.new ≡ use_shown (in_use it.bus.core.limits it.bus.core.whole.bus)) }
    ensures shown_peak { IfSome core.old.held.value
        (λ it. peak.new ≡ use_shown it.bus.core.whole.bus.statistics.peak) }
{
    let Some(it) = core.take(alloc) else {
        return CLOSED;
    };
    *now = FswUse::of(it.bus.in_use());
    *peak = FswUse::of(it.bus.counters().peak());
    *core = FswCore::open(it);
    SUCCESS
}
