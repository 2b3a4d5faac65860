//! Buffers that applications are given, and send or give back (cFE Software Bus, zero copy).
ghost use Rattle.std.specs.Prelude.{◌≡◌, ◌≢◌, ℕ, ◌==◌, find, ◌+◌, ◌*◌, ◌<◌, ◌≤◌, ◌^◌, true, false, List, [], Some, None, length, replicate, IfSome, IsNone};
ghost use Rattle.ccsds_msg.specs.Message.{message_id, front_fault};
ghost use Rattle.fsw_base.specs.PoolAccounts.{has_room, after_request};
ghost use Rattle.lend_block.specs.Loan.{LentBytes};
ghost use Rattle.buf_desc.specs.Held.{Holding, buffer_at, bytes_at, with_bytes_at};
ghost use Rattle.buf_desc.specs.Block.{Unsent};
ghost use Rattle.bus_words.specs.Bus.{Pipe, Buffer, route, deliver, reached, drops, missed, has_unsent, unsent_of, with_unsent, without_unsent, without_all_unsent};
ghost use Rattle.bus_routes.specs.Rows.{has_way};
ghost use Rattle.bus_messages.specs.Bag.{HoldsViews, HoldsBuffers, HoldsBuffer, HoldsBuffersInPart, with_lent};
ghost use Rattle.bus_messages.specs.Store.{LastLoan, BufferDesc};
ghost use Rattle.bus_messages.specs.Words.{desc_of, passing_of, counted_up, with_held};

use crate::blocks::{drawn_empty, drop_uses, seal_front, settle_message};
use crate::sending::{Sent, next_count, place_of_route};
use crate::store::BusStore;
use buf_desc::Held;
use bus_routes::{Message, RouteNo};
use ccsds_msg::id_of;
use fsw_base::AppNo;
use step_count::{Ledger, Steps};

/// What an application writes into its buffers changes neither what its bag is to have of buffers
/// nor what of views. Does nothing.
pub fn recall_written()
    ensures buffers { (unsent : List (List Buffer)) (descs : List BufferDesc) (sizes : List ℕ)
        (app number : ℕ) (bag : Holding LentBytes) (w : List ℕ) →
        HoldsBuffers unsent descs sizes app bag →
        HoldsBuffers unsent descs sizes app (with_bytes_at bag number w) }
    ensures views { (pipes : List Pipe) (loans : List LastLoan) (most app number : ℕ)
        (bag : Holding LentBytes) (w : List ℕ) → HoldsViews pipes loans most app bag →
        HoldsViews pipes loans most app (with_bytes_at bag number w) }
{
    buf_desc::recall_written();
}

impl<'r> BusStore<'r> {
    /// Gives the application a buffer of zeros, for whose size the pool has a block, under the next
    /// send number, and answers that number. At most 16 steps.
    pub fn allocate<L: Ledger>(
        &mut self,
        app: AppNo,
        size: u32,
        held: &mut Held<'r>,
        steps: &mut Steps<L>,
    ) -> u64
        requires app { app ≤ length self.old.unsent }
        requires room { has_room self.old.account size ≡ true }
        requires number { self.old.numbers_given + 1 < 2 ^ 64 }
        requires bag { HoldsBuffersInPart self.old.unsent self.old.descs self.old.account.sizes app
            held.old }
        requires bag_room { length held.old.buffers < held.old.buffer_room }
        ensures number { result ≡ self.old.numbers_given + 1 }
        ensures after { self.new ≡ record self.old {
          unsent = with_unsent self.old.unsent app
              (record { number = self.old.numbers_given + 1; size = size });
          numbers_given = self.old.numbers_given + 1;
          account = with_held (after_request self.old.account size) self.old.pipes self.new.unsent
              self.new.numbers_given;
          descs = self.new.descs;
        } }
        ensures descs { (other : ℕ) → result ≢ other →
            desc_of self.new.descs other ≡ desc_of self.old.descs other }
        ensures bag { (lent : List Unsent) →
            HoldsBuffers self.old.unsent self.old.descs self.old.account.sizes app
            (with_lent held.old lent) →
            HoldsBuffers self.new.unsent self.new.descs self.new.account.sizes app
            (with_lent held.new lent) }
        ensures other_bags { (other : ℕ) (bag : Holding LentBytes) → other ≢ app →
            HoldsBuffers self.old.unsent self.old.descs self.old.account.sizes other bag →
            HoldsBuffers self.new.unsent self.new.descs self.new.account.sizes other bag }
        ensures zeros { bytes_at held.new result ≡ replicate size 0 }
        ensures buffers { (other : ℕ) → result ≢ other →
            buffer_at held.new other ≡ buffer_at held.old other }
        ensures views { held.new ≡ record held.old { buffers = held.new.buffers } }
        ensures count { length held.new.buffers ≡ length held.old.buffers + 1 }
        ensures cost { steps.new ≤ steps.old + 16 }
    {
        // Does nothing; the proof learns of it, here and below, which blocks are out.
        self.desk.recall_live();
        let number = self.given + 1;
        let block = drawn_empty(&mut self.desk, size, number, steps);
        self.desk.recall_live();
        // Does nothing; the proof learns of it that the lists have a place for the block.
        self.desk.pool().recall_whole();
        self.lists.hold(app, block.desc(), steps);
        held.put_buffer(block);
        self.given = number;
        number
    }

    /// Sends the message that the application's buffer begins with, whose id has a route, under the
    /// buffer's number. By the code, the buffer's block is then the message's, and nothing is drawn
    /// or copied. The buffer is taken out of the bag. All else is as with [`BusStore::send`]. At
    /// most 4 steps for each subscription of the id, 8 more for each whose pipe drops a message,
    /// and 32 more.
    pub fn transmit_buffer<L: Ledger>(
        &mut self,
        app: AppNo,
        buf: u64,
        inc: bool,
        held: &mut Held<'r>,
        steps: &mut Steps<L>,
    ) -> Sent
        requires has { has_unsent self.old.unsent app buf ≡ true }
        requires bag { HoldsBuffer self.old.unsent self.old.descs self.old.account.sizes app
            held.old buf }
        requires message { front_fault (bytes_at held.old buf) ≡ None }
        requires way { has_way self.old.routes (message_id (bytes_at held.old buf)) ≡ true }
        ensures number { result.number ≡ buf }
        ensures first { 1 ≤ buf }
        ensures reached { result.reached ≡
            reached (passing_of self.old app buf (bytes_at held.old buf) inc)
            (route self.old.subscriptions (message_id (bytes_at held.old buf))) self.old.pipes }
        ensures after { self.new ≡ record self.old {
          pipes = deliver (passing_of self.old app buf (bytes_at held.old buf) inc)
              (route self.old.subscriptions (message_id (bytes_at held.old buf))) self.old.pipes;
          routes = counted_up self.old.routes (message_id (bytes_at held.old buf)) inc;
          missed = missed (passing_of self.old app buf (bytes_at held.old buf) inc)
              (route self.old.subscriptions (message_id (bytes_at held.old buf))) self.old.pipes;
          unsent = without_unsent self.old.unsent app buf;
          account = with_held self.old.account self.new.pipes self.new.unsent
              self.old.numbers_given;
          descs = self.new.descs;
        } }
        ensures descs { (other : ℕ) → buf ≢ other →
            desc_of self.new.descs other ≡ desc_of self.old.descs other }
        ensures bag { (lent : List Unsent) → find (λ block. block.number == buf) lent ≡ None →
            HoldsBuffers self.old.unsent self.old.descs self.old.account.sizes app
            (with_lent held.old lent) →
            HoldsBuffers self.new.unsent self.new.descs self.new.account.sizes app
            (with_lent held.new lent) }
        ensures other_bags { (other : ℕ) (bag : Holding LentBytes) → other ≢ app →
            HoldsBuffers self.old.unsent self.old.descs self.old.account.sizes other bag →
            HoldsBuffers self.new.unsent self.new.descs self.new.account.sizes other bag }
        ensures view_bags { (other : ℕ) (bag : Holding LentBytes) →
            HoldsViews self.old.pipes self.old.loans self.old.room.pipes other bag →
            HoldsViews self.new.pipes self.new.loans self.new.room.pipes other bag }
        ensures buffers { (other : ℕ) → buf ≢ other →
            buffer_at held.new other ≡ buffer_at held.old other }
        ensures views { held.new ≡ record held.old { buffers = held.new.buffers } }
        ensures count { length held.new.buffers ≤ length held.old.buffers }
        ensures cost { steps.new
            ≤ steps.old + 32 + 4 * length
            (route self.old.subscriptions (message_id (bytes_at held.old buf))) +
            8 * drops (passing_of self.old app buf (bytes_at held.old buf) inc)
            (route self.old.subscriptions (message_id (bytes_at held.old buf))) self.old.pipes }
    {
        // Do nothing; the proof learns of them that the pipes stand in order, and which blocks are
        // out.
        self.tables.recall_order();
        self.desk.recall_live();
        let block = held.take_buffer(buf).unwrap();
        self.lists.let_go(app, block.desc(), steps);
        let id = id_of(block.bytes());
        let place = place_of_route(&self.tables, id);
        let way = RouteNo { id, place };
        let count = next_count(&mut self.tables, way, inc);
        let desc = seal_front(&mut self.desk, block, count);
        let message = Message {
            sender: app,
            number: buf,
            desc,
        };
        let reached = self.tables.deliver(way, &message, &mut self.misses, steps);
        settle_message(&mut self.desk, desc, reached, steps);
        drop_uses(&mut self.desk, self.misses.dropped_messages(), steps);
        Sent {
            number: buf,
            reached,
        }
    }

    /// Takes the application's buffer out of the bag unsent, and gives its block back to the pool.
    /// At most 16 steps.
    pub fn release<L: Ledger>(
        &mut self,
        app: AppNo,
        buf: u64,
        held: &mut Held<'r>,
        steps: &mut Steps<L>,
    )
        requires has { has_unsent self.old.unsent app buf ≡ true }
        requires bag { HoldsBuffer self.old.unsent self.old.descs self.old.account.sizes app
            held.old buf }
        ensures after { self.new ≡ record self.old {
          unsent = without_unsent self.old.unsent app buf;
          account = with_held self.old.account self.old.pipes self.new.unsent
              self.old.numbers_given;
          descs = self.new.descs;
        } }
        ensures descs { (other : ℕ) → buf ≢ other →
            desc_of self.new.descs other ≡ desc_of self.old.descs other }
        ensures bag { (lent : List Unsent) → find (λ block. block.number == buf) lent ≡ None →
            HoldsBuffers self.old.unsent self.old.descs self.old.account.sizes app
            (with_lent held.old lent) →
            HoldsBuffers self.new.unsent self.new.descs self.new.account.sizes app
            (with_lent held.new lent) }
        ensures other_bags { (other : ℕ) (bag : Holding LentBytes) → other ≢ app →
            HoldsBuffers self.old.unsent self.old.descs self.old.account.sizes other bag →
            HoldsBuffers self.new.unsent self.new.descs self.new.account.sizes other bag }
        ensures buffers { (other : ℕ) → buf ≢ other →
            buffer_at held.new other ≡ buffer_at held.old other }
        ensures views { held.new ≡ record held.old { buffers = held.new.buffers } }
        ensures count { length held.new.buffers ≤ length held.old.buffers }
        ensures cost { steps.new ≤ steps.old + 16 }
    {
        // Does nothing; the proof learns of it, here and below, which blocks are out.
        self.desk.recall_live();
        let block = held.take_buffer(buf).unwrap();
        self.lists.let_go(app, block.desc(), steps);
        self.desk.give_up(block, steps);
        self.desk.recall_live();
    }

    // Does the same with the buffer that the application was given last, and answers its number;
    // None if it has none.
    fn release_newest<L: Ledger>(
        &mut self,
        app: AppNo,
        held: &mut Held<'r>,
        steps: &mut Steps<L>,
    ) -> Option<u64>
        requires app { app ≤ length self.old.unsent }
        requires bag { HoldsBuffers self.old.unsent self.old.descs self.old.account.sizes app
            held.old }
        ensures none { IsNone result → unsent_of self.old.unsent app ≡ [] }
        ensures still { IsNone result → self.new ≡ self.old }
        ensures bag_still { IsNone result → held.new ≡ held.old }
        ensures has { IfSome result (λ buf. has_unsent self.old.unsent app buf ≡ true) }
        ensures after { IfSome result (λ buf. self.new ≡ record self.old {
          unsent = without_unsent self.old.unsent app buf;
          account = with_held self.old.account self.old.pipes self.new.unsent
              self.old.numbers_given;
          descs = self.new.descs;
        }) }
        ensures fewer { IfSome result
            (λ buf. length (unsent_of self.new.unsent app) + 1 ≡
            length (unsent_of self.old.unsent app)) }
        ensures descs { (other : ℕ) → has_unsent self.old.unsent app other ≡ false →
            desc_of self.new.descs other ≡ desc_of self.old.descs other }
        ensures bag { HoldsBuffers self.new.unsent self.new.descs self.new.account.sizes app
            held.new }
        ensures other_bags { (other : ℕ) (bag : Holding LentBytes) → other ≢ app →
            HoldsBuffers self.old.unsent self.old.descs self.old.account.sizes other bag →
            HoldsBuffers self.new.unsent self.new.descs self.new.account.sizes other bag }
        ensures views { held.new ≡ record held.old { buffers = held.new.buffers } }
        ensures cost { steps.new ≤ steps.old + 16 }
    {
        // Does nothing; the proof learns of it, here and below, which blocks are out.
        self.desk.recall_live();
        let desc = self.lists.take_first(app, steps)?;
        let buf = self.desk.number(desc);
        let block = held.take_buffer(buf).unwrap();
        self.desk.give_up(block, steps);
        self.desk.recall_live();
        Some(buf)
    }

    /// Takes all of the application's buffers out of its bag unsent, and gives their blocks back to
    /// the pool. At most 16 steps for each, and 16 more.
    pub fn release_all<L: Ledger>(&mut self, app: AppNo, held: &mut Held<'r>, steps: &mut Steps<L>)
        requires app { app ≤ length self.old.unsent }
        requires bag { HoldsBuffers self.old.unsent self.old.descs self.old.account.sizes app
            held.old }
        ensures after { self.new ≡ record self.old {
          unsent = without_all_unsent self.old.unsent app;
          account = with_held self.old.account self.old.pipes self.new.unsent
              self.old.numbers_given;
          descs = self.new.descs;
        } }
        ensures descs { (other : ℕ) → has_unsent self.old.unsent app other ≡ false →
            desc_of self.new.descs other ≡ desc_of self.old.descs other }
        ensures bag { HoldsBuffers self.new.unsent self.new.descs self.new.account.sizes app
            held.new }
        ensures other_bags { (other : ℕ) (bag : Holding LentBytes) → other ≢ app →
            HoldsBuffers self.old.unsent self.old.descs self.old.account.sizes other bag →
            HoldsBuffers self.new.unsent self.new.descs self.new.account.sizes other bag }
        ensures empty { held.new ≡ record held.old { buffers = [] } }
        ensures cost { steps.new ≤ steps.old + 16 * length (unsent_of self.old.unsent app) + 16 }
    {
        release_each(self, app, held, steps);
        // Does nothing; the proof learns of it which blocks are out.
        self.recall_held();
    }
}

// Releases the buffer that the application was given last until it has none.
fn release_each<'r, L: Ledger>(
    store: &mut BusStore<'r>,
    app: AppNo,
    held: &mut Held<'r>,
    steps: &mut Steps<L>,
)
    requires app { app ≤ length store.old.unsent }
    requires bag { HoldsBuffers store.old.unsent store.old.descs store.old.account.sizes app
        held.old }
    ensures none { unsent_of store.new.unsent app ≡ [] }
    ensures others { without_all_unsent store.new.unsent app ≡
        without_all_unsent store.old.unsent app }
    ensures places { length store.new.unsent ≡ length store.old.unsent }
    ensures same { store.new ≡ record store.old {
      unsent = store.new.unsent;
      account = store.new.account;
      descs = store.new.descs;
    } }
    ensures account { store.new.account ≡
        record store.old.account { out = store.new.account.out } }
    ensures descs { (other : ℕ) → has_unsent store.old.unsent app other ≡ false →
        desc_of store.new.descs other ≡ desc_of store.old.descs other }
    ensures bag { HoldsBuffers store.new.unsent store.new.descs store.new.account.sizes app
        held.new }
    ensures other_bags { (other : ℕ) (bag : Holding LentBytes) → other ≢ app →
        HoldsBuffers store.old.unsent store.old.descs store.old.account.sizes other bag →
        HoldsBuffers store.new.unsent store.new.descs store.new.account.sizes other bag }
    ensures views { held.new ≡ record held.old { buffers = held.new.buffers } }
    ensures cost { steps.new ≤ steps.old + 16 * length (unsent_of store.old.unsent app) + 16 }
{
    while let Some(_) = store.release_newest(app, held, steps) {}
}
