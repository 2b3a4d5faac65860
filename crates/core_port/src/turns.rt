//! The two ends of a turn.
ghost use Rattle.std.specs.Prelude.{◌≡◌, ◌||◌, true, false, Some};
ghost use Rattle.turn_lock.specs.Seats.{IsOut, IsIn, IsReady, view_of, entered_view, left_view};
ghost use Rattle.core_port.specs.Histories.{history_of};
ghost use Rattle.core_port.specs.Turns.{Entered, MadeOne};

use crate::boxed::BoxedCore;
use crate::history::{NotedCall, Opening};
use crate::kind::Kind;
use crate::served::ServedCore;
use crate::service::Service;
use std::sync::Wait;
use turn_lock::{Seat, Turn};

/// Waits for a turn of the seat. If the application's last look was in vain, it has slept since or
/// was kept awake.
#[inline(always)]
pub(crate) fn begin<K: Kind, C: ServedCore<K> + Drop, R: Wait>(
    service: &Service<K, C>,
    rt: &R,
    seat: &mut Seat<Opening, NotedCall<K::Call, K::Answer>>,
) -> Turn<BoxedCore<K, C>>
    requires { IsReady seat.old service.now }
    ensures out { IsOut seat.new }
    ensures kept_awake { seat.new.kept_awake ≡ seat.old.kept_awake }
    ensures lock { result.lock ≡ service.now }
    ensures found { result.found ≡ result.value }
    ensures entered { Entered K.words (view_of seat.old) result.value.core }
    ensures view { result.view ≡ entered_view (view_of seat.old)
        (history_of K.words result.value.core) }
{
    let turn = service.lock.enter(rt, seat);
    turn.value().recall();
    turn
}

/// Waits for a turn of the seat for a call that is no look. It doesn't sleep before, even if the
/// application's last look was in vain: an application that ends needs no news.
#[inline(always)]
pub(crate) fn begin_awake<K: Kind, C: ServedCore<K> + Drop, R: Wait>(
    service: &Service<K, C>,
    rt: &R,
    seat: &mut Seat<Opening, NotedCall<K::Call, K::Answer>>,
) -> Turn<BoxedCore<K, C>>
    requires { IsIn seat.old service.now }
    ensures out { IsOut seat.new }
    ensures kept_awake { seat.new.kept_awake ≡ (seat.old.rests || seat.old.kept_awake) }
    ensures lock { result.lock ≡ service.now }
    ensures found { result.found ≡ result.value }
    ensures entered { Entered K.words (view_of seat.old) result.value.core }
    ensures view { result.view ≡ entered_view (view_of seat.old)
        (history_of K.words result.value.core) }
{
    service.lock.stay_awake(seat);
    begin(service, rt, seat)
}

/// Ends a turn in which one call was made, and wakes the sleepers if and only if a waiting
/// application has news.
#[inline(always)]
pub(crate) fn finish<K: Kind, C: ServedCore<K> + Drop>(
    service: &Service<K, C>,
    seat: &mut Seat<Opening, NotedCall<K::Call, K::Answer>>,
    mut turn: Turn<BoxedCore<K, C>>,
)
    requires out { IsOut seat.old }
    requires lock { turn.lock ≡ service.now }
    requires made { MadeOne K.words turn.view turn.value.core }
    requires asleep { turn.value.asleep ≡ turn.found.asleep }
    ensures seat { IsReady seat.new service.now }
    ensures view { view_of seat.new ≡ left_view turn.view
        (history_of K.words turn.value.core) }
    ensures sound { K.words.sound turn.value.core }
{
    turn.value().recall();
    if turn.value_mut().take_sleepers() {
        service.lock.leave_and_wake(seat, turn);
    } else {
        service.lock.leave(seat, turn);
    }
}

/// Ends a turn in which an application looked in vain: it made no entry, and sleeps before its next
/// turn. If its look before was in vain too, it slept in between.
pub(crate) fn pause<K: Kind, C: ServedCore<K> + Drop>(
    service: &Service<K, C>,
    seat: &mut Seat<Opening, NotedCall<K::Call, K::Answer>>,
    mut turn: Turn<BoxedCore<K, C>>,
)
    requires out { IsOut seat.old }
    requires lock { turn.lock ≡ service.now }
    requires opening { Some (K.words.fixed turn.value.core) ≡ turn.view.fixed }
    requires none { history_of K.words turn.value.core ≡ turn.view.seen }
    requires slept { seat.old.kept_awake ≡ false }
    ensures seat { IsIn seat.new service.now }
    ensures rests { seat.new.rests ≡ true }
    ensures view { view_of seat.new ≡ left_view turn.view
        (history_of K.words turn.value.core) }
    ensures sound { K.words.sound turn.value.core }
{
    turn.value().recall();
    turn.value_mut().note_sleeper();
    service.lock.leave_to_sleep(seat, turn);
}
