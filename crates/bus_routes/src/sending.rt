//! Sends: the next count of an id, and a delivery.
ghost use Rattle.std.specs.Prelude.{◌≡◌, ◌+◌, ◌*◌, ◌%◌, ◌<◌, ◌≤◌, ◌^◌, length, Some};
ghost use Rattle.fsw_base.specs.Starts.{start_of};
ghost use Rattle.bus_words.specs.Bus.{route};
ghost use Rattle.bus_routes.specs.Rows.{deliver_rows, reached_rows, missed_rows, dropped_rows, counted_in, counted_on, way_of};

use crate::delivery::along;
use crate::message::Message;
use crate::misses::Misses;
use crate::route_no::RouteNo;
use crate::tables::BusTables;
use step_count::{Ledger, Steps};

impl BusTables {
    /// The next sequence count of the route's id: its start, one for each count that it has given,
    /// and one more, modulo 16384 (CCSDS 133.0-B, 4.1.3.4.3). It counts as given. By the code,
    /// takes a constant time, and looks up no id.
    pub fn next_count(&mut self, way: RouteNo) -> u16
        requires { way_of self.old.routes way.id ≡ Some way.place }
        ensures count { result ≡
            (start_of self.old.room.starts way.id + counted_in self.old.routes way.id + 1) % 16384 }
        ensures after { self.new ≡ record self.old { routes = counted_on self.old.routes way.id } }
    {
        self.routes.next_count(way.place)
    }

    /// Offers the message to the subscriptions of the route's id, in order. Answers how many pipes
    /// took it, and leaves in `misses` those that missed it, or dropped their oldest message for
    /// it, with the cause of each, and the messages that were dropped. A pipe takes it if it
    /// doesn't ignore the sender, fewer messages of the subscription wait than its limit says, and
    /// either fewer wait in all than its depth or its option bits say that it drops the oldest.
    /// Goes along the id's subscriptions alone: at most 2 steps for each, and 2 more. By the code,
    /// looks up no id.
    pub fn deliver<L: Ledger>(
        &mut self,
        way: RouteNo,
        message: &Message,
        misses: &mut Misses,
        steps: &mut Steps<L>,
    ) -> u32
        requires way { way_of self.old.routes way.id ≡ Some way.place }
        requires room { self.old.room.dests ≤ misses.old.room }
        requires few { length self.old.subscriptions < 2 ^ 32 }
        ensures after { self.new ≡
            record
            self.old {
              pipes = deliver_rows message.now (route self.old.subscriptions way.id)
                  self.old.pipes;
            } }
        ensures reached { result ≡
            reached_rows message.now (route self.old.subscriptions way.id) self.old.pipes }
        ensures missed { misses.new ≡
            record
            misses.old {
              items = missed_rows message.now (route self.old.subscriptions way.id) self.old.pipes;
              dropped = dropped_rows message.now (route self.old.subscriptions way.id)
                  self.old.pipes;
            } }
        ensures cost { steps.new
            ≤ steps.old + 2 * length (route self.old.subscriptions way.id) + 2 }
    {
        along(
            &mut self.pipes,
            &mut self.subs,
            &self.routes,
            way,
            message,
            misses,
            steps,
        )
    }
}
