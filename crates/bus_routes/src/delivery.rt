//! A message on its way to the pipes.
ghost use Rattle.std.specs.Prelude.{◌≡◌, ◌+◌, ◌*◌, ◌<◌, ◌≤◌, ◌^◌, ◌++◌, length, map, IsSome, Some};
ghost use Rattle.std.specs.Option.{ForSome};
ghost use Rattle.bus_words.specs.Bus.{route};
ghost use Rattle.routing.specs.Routing.{route_of};
ghost use Rattle.subscriptions.specs.Subs.{live_at};
ghost use Rattle.bus_words.specs.Pipes.{with_pipe};
ghost use Rattle.bus_routes.specs.Rows.{offered_row, row_takes, deliver_rows, reached_rows, row_misses, missed_rows, row_drops, dropped_rows};
ghost use Rattle.bus_routes.specs.Inside.{AreQueued, ArePlaced, AreRouted, row_in, sub_in, still, frame};

use crate::making::{count_down, item_row};
use crate::message::Message;
use crate::misses::Misses;
use crate::route_no::RouteNo;
use bus_words::{MissCause, Verdict};
use pipe_queue::Item;
use pipe_table::{PipeNo, PipeTable};
use routing::Routes;
use step_count::{Ledger, Steps};
use subscriptions::{SubNo, Subs};

/// Offers the message to the subscriptions of the route's id, in order, and tells how many
/// pipes took it.
pub(crate) fn along<L: Ledger>(
    pipes: &mut PipeTable,
    subs: &mut Subs,
    routes: &Routes,
    way: RouteNo,
    message: &Message,
    misses: &mut Misses,
    steps: &mut Steps<L>,
) -> u32
    requires way { route_of routes.now.routes way.id ≡ Some way.place }
    requires room { routes.now.dests ≤ misses.old.room }
    requires few { length subs.old.live < 2 ^ 32 }
    requires queued { AreQueued pipes.old.live subs.old }
    requires placed { ArePlaced pipes.old.places subs.old }
    requires routed { AreRouted subs.old routes.now }
    ensures rows { map row_in pipes.new.live ≡
        deliver_rows message.now (route (map sub_in subs.old.live) way.id)
        (map row_in pipes.old.live) }
    ensures reached { result ≡
        reached_rows message.now (route (map sub_in subs.old.live) way.id)
        (map row_in pipes.old.live) }
    ensures missed { misses.new ≡
        record
        misses.old {
          items = missed_rows message.now (route (map sub_in subs.old.live) way.id)
              (map row_in pipes.old.live);
          dropped = dropped_rows message.now (route (map sub_in subs.old.live) way.id)
              (map row_in pipes.old.live);
        } }
    ensures frame { frame pipes.new ≡ frame pipes.old }
    ensures subs { still subs.new ≡ still subs.old }
    ensures queued { AreQueued pipes.new.live subs.new }
    ensures cost { steps.new
        ≤ steps.old + 2 * length (route (map sub_in subs.old.live) way.id) + 2 }
{
    misses.clear();
    // Nothing that is written into a pipe can change this copy, so it isn't read again for each.
    let copy = *message;
    let message = &copy;
    // Do nothing; the proof learns of them that no two subscriptions have one number, and that no
    // route has more destinations than may be.
    subs.recall_order();
    routes.recall_routes();
    let mut at = routes.first(way.place, steps);
    let mut reached = 0;
    for _ in 0..routes.dests_of(way.place) {
        let Some((node, sub)) = at else {
            return reached;
        };
        reached += offer(pipes, subs, sub, message, misses);
        at = routes.next(node, steps);
    }
    reached
}

// Offers the message to a live subscription: 1 if its pipe takes it, else 0. Adds the pipe to
// those that miss it, if it does, or if it dropped its oldest message for it.
fn offer(
    pipes: &mut PipeTable,
    subs: &mut Subs,
    sub: SubNo,
    message: &Message,
    misses: &mut Misses,
) -> u32
    requires live { IsSome (live_at subs.old sub) }
    requires room { length misses.old.items < misses.old.room }
    requires queued { AreQueued pipes.old.live subs.old }
    requires placed { ArePlaced pipes.old.places subs.old }
    ensures rows { ForSome (live_at subs.old sub)
        (λ s. map row_in pipes.new.live ≡
        with_pipe (offered_row message.now (sub_in s)) s.pipe (map row_in pipes.old.live)) }
    ensures taken { ForSome (live_at subs.old sub)
        (λ s. result ≡ row_takes message.now (sub_in s) (map row_in pipes.old.live)) }
    ensures missed { ForSome (live_at subs.old sub)
        (λ s. misses.new ≡
        record misses.old {
          items = misses.old.items ++ row_misses message.now (sub_in s) (map row_in pipes.old.live);
          dropped = misses.old.dropped ++
              row_drops message.now (sub_in s) (map row_in pipes.old.live);
        }) }
    ensures once { result ≤ 1 }
    ensures frame { frame pipes.new ≡ frame pipes.old }
    ensures subs { still subs.new ≡ still subs.old }
    ensures queued { AreQueued pipes.new.live subs.new }
{
    // Do nothing; the proof learns of them that no two pipes, and no two subscriptions, have one
    // number.
    pipes.recall_order();
    subs.recall_order();
    let row = subs.at(sub);
    let pipe = PipeNo {
        number: row.pipe,
        place: row.place,
    };
    let item = Item {
        desc: message.desc,
        number: message.number,
        sub,
    };
    let is_over = row.admission() == subscriptions::Admission::OverLimit;
    // The pipe's number is read again if it misses the message, so it isn't kept if it
    // doesn't.
    let offered = pipes.offer(pipe, message.sender, is_over, item);
    match offered.verdict {
        Verdict::Skip => 0,
        Verdict::OverLimit => {
            misses.push(subs.at(sub).pipe, MissCause::OverLimit);
            0
        }
        Verdict::In => {
            subs.add_waiting(sub);
            1
        }
        Verdict::Oldest => {
            prove!(row.waiting < u32::MAX);
            misses.push_drop(subs.at(sub).pipe, item_row(offered.dropped));
            count_down(subs, offered.dropped);
            // Does nothing, as above.
            subs.recall_order();
            subs.add_waiting(sub);
            1
        }
        Verdict::Full => {
            misses.push(subs.at(sub).pipe, MissCause::Full);
            0
        }
    }
}
