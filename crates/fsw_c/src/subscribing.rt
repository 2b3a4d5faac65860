//! Subscriptions.
ghost use Rattle.std.specs.Prelude.{◌≡◌};
ghost use Rattle.bus_words.specs.declared.history.Call.TheVariants.{Subscribe, Unsubscribe};
ghost use Rattle.checked_bus.specs.Asked.{unasked, unasked_subscribe};
ghost use Rattle.fsw_c.specs.Args.{scope_or_global};
ghost use Rattle.fsw_c.specs.BusAnswers.{BusCall};

use crate::bus_codes::code_of_call;
use crate::codes::CLOSED;
use crate::handle::FswCore;
use std::alloc::Global;
use std::marker::Brand;
use step_count::Blank;

/// Subscribes a pipe of the caller's to a message id. The scope is 0, local, or 1, global.
#[unsafe(no_mangle)]
pub extern "C" fn fsw_raw_subscribe(
    alloc: Global,
    core: &mut FswCore,
    app: u32,
    id: u16,
    pipe: u32,
    limit: u32,
    scope: u32,
) -> u32
    ensures call { BusCall core.old.held.value core.new.held.value app
        (Subscribe id pipe limit (scope_or_global scope))
        (λ bus. unasked_subscribe bus.core app id pipe limit scope) result }
{
    let Some(mut it) = core.take(alloc) else {
        return CLOSED;
    };
    let answer = it
        .bus
        .subscribe::<Brand>(app, id, pipe, limit, scope, Blank::new(1));
    *core = FswCore::open(it);
    code_of_call(&answer)
}

/// Ends a subscription.
#[unsafe(no_mangle)]
pub extern "C" fn fsw_raw_unsubscribe(
    alloc: Global,
    core: &mut FswCore,
    app: u32,
    id: u16,
    pipe: u32,
) -> u32
    ensures call { BusCall core.old.held.value core.new.held.value app (Unsubscribe id pipe)
        (λ bus. unasked bus.core app (Unsubscribe id pipe)) result }
{
    let Some(mut it) = core.take(alloc) else {
        return CLOSED;
    };
    let answer = it.bus.unsubscribe::<Brand>(app, id, pipe, Blank::new(1));
    *core = FswCore::open(it);
    code_of_call(&answer)
}
