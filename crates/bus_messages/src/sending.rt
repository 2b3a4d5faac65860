//! Sends.
ghost use Rattle.std.specs.Prelude.{◌≡◌, ℕ, ◌+◌, ◌*◌, ◌<◌, ◌≤◌, ◌^◌, true, length, map, Some, None, IfSome, if◌then◌else◌};
ghost use Rattle.ccsds_msg.specs.Message.{message_id};
ghost use Rattle.fsw_base.specs.PoolAccounts.{has_room, after_request};
ghost use Rattle.bus_words.specs.Bus.{route, deliver, reached, drops, missed};
ghost use Rattle.bus_routes.specs.Rows.{has_way, way_of};
ghost use Rattle.bus_words.specs.Acts.{next_in};
ghost use Rattle.buf_desc.specs.Held.{Holding};
ghost use Rattle.lend_block.specs.Loan.{LentBytes};
ghost use Rattle.bus_messages.specs.Bag.{HoldsViews};
ghost use Rattle.bus_messages.specs.Words.{next_of, sending_of, counted_up, with_held};

use crate::blocks::{drop_uses, put_message, settle_message};
use crate::store::BusStore;
use bus_routes::{BusTables, Message, RouteNo};
use bus_words::Miss;
use ccsds_msg::id_of;
use fsw_base::AppNo;
use step_count::{Ledger, Steps};

/// What a send was answered.
#[derive(Clone, Copy, Debug, PartialEq, Eq)]
pub struct Sent {
    /// The number of the message, from 1.
    pub number: u64,
    /// How many pipes it reached.
    pub reached: u32,
}

/// The place of the route of an id that has one.
pub(crate) fn place_of_route(tables: &BusTables, id: u16) -> u32
    requires { has_way tables.now.routes id ≡ true }
    ensures { way_of tables.now.routes id ≡ Some result }
{
    tables.route_of(id).unwrap()
}

/// The next count of the route's id, which then counts as given, if the send asks for it.
pub(crate) fn next_count(tables: &mut BusTables, way: RouteNo, inc: bool) -> Option<u16>
    requires some { has_way tables.old.routes way.id ≡ true }
    requires way { way_of tables.old.routes way.id ≡ Some way.place }
    ensures count { result ≡
        (if inc then
        Some (next_in (map (next_of tables.old.room.starts) tables.old.routes) way.id) else None) }
    ensures few { IfSome result (λ n. n < 16384) }
    ensures after { tables.new ≡
        record tables.old { routes = counted_up tables.old.routes way.id inc } }
    ensures way { way_of tables.new.routes way.id ≡ Some way.place }
{
    if inc {
        return Some(tables.next_count(way));
    }
    None
}

impl<'r> BusStore<'r> {
    /// How many send numbers were given.
    pub fn numbers_given(&self) -> u64
        ensures { result ≡ self.now.numbers_given }
    {
        self.given
    }

    /// The pipes that missed the message sent last, or dropped their oldest one for it, in order of
    /// its id's subscriptions, with the cause of each.
    pub fn misses(&self) -> &[Miss]
        ensures { result.now ≡ self.now.missed }
    {
        self.misses.as_slice()
    }

    /// Whether the pool has a block for so many bytes.
    pub fn fits(&self, size: u32) -> bool
        ensures { result ≡ has_room self.now.account size }
    {
        self.desk.pool().fits(size, 1)
    }

    /// Sends a message, whose id has a route, under the next send number: each pipe that takes it
    /// gets it queued. Its bytes are written once, into one block. With `inc` it gets the id's next
    /// sequence count (CCSDS 133.0-B, 4.1.3.4.3). If no pipe takes it, its block goes back at
    /// once. A message that a full pipe drops for it is let go after that: its block goes back
    /// if no other pipe has a use for it. No bag changes. At most 4 steps for each subscription
    /// of the id, 8 more for each whose pipe drops a message, and 32 more.
    #[inline(always)]
    pub fn send<L: Ledger>(
        &mut self,
        sender: AppNo,
        bytes: &[u8],
        inc: bool,
        steps: &mut Steps<L>,
    ) -> Sent
        requires least { 7 ≤ length bytes.now }
        requires most { length bytes.now ≤ 65542 }
        requires way { has_way self.old.routes (message_id bytes.now) ≡ true }
        requires room { has_room self.old.account (length bytes.now) ≡ true }
        requires number { self.old.numbers_given + 1 < 2 ^ 64 }
        ensures number { result.number ≡ self.old.numbers_given + 1 }
        ensures reached { result.reached ≡
            reached (sending_of self.old sender bytes.now inc)
            (route self.old.subscriptions (message_id bytes.now)) self.old.pipes }
        ensures after { self.new ≡ record self.old {
          pipes = deliver (sending_of self.old sender bytes.now inc)
              (route self.old.subscriptions (message_id bytes.now)) self.old.pipes;
          routes = counted_up self.old.routes (message_id bytes.now) inc;
          missed = missed (sending_of self.old sender bytes.now inc)
              (route self.old.subscriptions (message_id bytes.now)) self.old.pipes;
          numbers_given = self.old.numbers_given + 1;
          account = with_held (after_request self.old.account (length bytes.now)) self.new.pipes
              self.old.unsent self.new.numbers_given;
        } }
        ensures bags { (app : ℕ) (bag : Holding LentBytes) →
            HoldsViews self.old.pipes self.old.loans self.old.room.pipes app bag →
            HoldsViews self.new.pipes self.new.loans self.new.room.pipes app bag }
        ensures cost { steps.new
            ≤ steps.old + 32 + 4 * length (route self.old.subscriptions (message_id bytes.now)) +
            8 * drops (sending_of self.old sender bytes.now inc)
            (route self.old.subscriptions (message_id bytes.now)) self.old.pipes }
    {
        // Do nothing; the proof learns of them that the pipes stand in order, and which blocks are
        // out.
        self.tables.recall_order();
        self.desk.recall_live();
        let id = id_of(bytes);
        let place = place_of_route(&self.tables, id);
        let way = RouteNo { id, place };
        let count = next_count(&mut self.tables, way, inc);
        let number = self.given + 1;
        let desc = put_message(&mut self.desk, bytes, count, number, steps);
        let message = Message {
            sender,
            number,
            desc,
        };
        let reached = self.tables.deliver(way, &message, &mut self.misses, steps);
        settle_message(&mut self.desk, desc, reached, steps);
        drop_uses(&mut self.desk, self.misses.dropped_messages(), steps);
        self.given = number;
        Sent { number, reached }
    }
}
