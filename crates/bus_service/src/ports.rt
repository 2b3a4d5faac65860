//! One application's part of the service.
ghost use Rattle.std.specs.Prelude.{◌≡◌, ◌-◌, true, length};
ghost use Rattle.std.specs.Option.{option_map};
ghost use Rattle.journal_store.specs.Budgets.{allowance_of};
ghost use Rattle.bus_words.specs.Log.{left_of};
ghost use Rattle.bus_words.specs.Bus.{standing_of, has_ended};
ghost use Rattle.sb_calls.specs.Bags.{HasBag, last_message};
ghost use Rattle.sb_calls.specs.Core.{MayCall, state_of};
ghost use Rattle.sb_calls.specs.Views.{bytes_seen};
ghost use Rattle.bus_words.specs.Runs.{own_entries};
ghost use Rattle.bus_service.specs.Ports.{Answers, FindsRoom, left_by};

use crate::bus::Bus;
use crate::calls::{MadeCall, PortCall};
use crate::kind::BusKind;
use crate::unsent::MessageView;
use buf_desc::{Bag, Memory};
use core_port::Port;
use fsw_base::AppNo;
use lend_block::View;
use sb_calls::bags_stay;
use std::marker::Model;
use std::sync::Wait;

/// One application's calls of the software bus, from a thread of its own. Each call waits for the
/// application's turn at the core.
///
/// Contracts see which lock it is of, its application, the core with the history that it has seen,
/// the entries that it made, and what its application holds.
///
/// It is generic in what its bag holds so that proofs about a `&mut` out of it name no lifetime;
/// [`BusPort`] is the one that is used.
#[derive(Drop)]
pub struct PortOf<S: Memory + Drop, V: MessageView + Drop> {
    // Its part at the lock.
    pub(crate) port: Port<BusKind>,
    // What its application holds.
    pub(crate) bag: Bag<S, V>,
}

/// The port of an application of a bus.
pub type BusPort<'r> = PortOf<&'r mut [u8], View<'r>>;

impl<S: Memory + Drop, V: MessageView + Drop> Model for PortOf<S, V> {
    ghost use Rattle.bus_service.specs.Ports.{PortView};
    ghost use Rattle.bus_service.specs.Inside.{with_bag};
    ghost use Rattle.sb_calls.specs.Bags.{HasBag};

    ghost Value = { PortView };

    ghost view = { λ p. with_bag p.port (V.held p.bag) };

    ghost invariant = { λ p. HasBag p.port.seen p.port.app (V.held p.bag) };
}

/// What is left of a port whose application has ended. It names no lifetime.
///
/// Contracts see what they see of the port, but for the bag.
pub type BusDone = Port<BusKind>;

impl<'r> BusPort<'r> {
    /// Its application.
    pub fn app(&self) -> AppNo
        ensures { result ≡ self.now.app }
    {
        self.port.app()
    }

    /// How many entries the application may still add to the journal, told from its own entries
    /// without the lock.
    pub fn entries_left(&self) -> u32
        ensures asked { result ≡
            (allowance_of (left_of self.now.seen.log) self.now.app).entries }
        ensures own { result ≡
            (allowance_of (left_by self.now.seen self.now.mine) self.now.app).entries }
    {
        self.port.recall();
        self.port.permits().left.entries
    }

    /// How many bytes of names, messages and buffers the application may still add to the journal,
    /// told from its own entries without the lock.
    pub fn bytes_left(&self) -> u32
        ensures asked { result ≡
            (allowance_of (left_of self.now.seen.log) self.now.app).bytes }
        ensures own { result ≡
            (allowance_of (left_by self.now.seen self.now.mine) self.now.app).bytes }
    {
        self.port.recall();
        self.port.permits().left.bytes
    }

    /// How many buffers still fit into the application's bag.
    pub fn buffer_room(&self) -> u32
        ensures { result ≡ self.now.bag.buffer_room - length self.now.bag.buffers }
    {
        self.bag.buffer_room()
    }

    /// The message received last from a pipe; None if and only if the pipe has none, or isn't this
    /// application's. Takes neither the lock nor the runtime.
    pub fn last(&self, pipe: u32) -> Option<&[u8]>
        ensures last { option_map (λ bytes. bytes.now) result ≡
            last_message (state_of self.now.seen) self.now.app pipe }
        ensures seen { option_map (λ bytes. bytes.now) result ≡ bytes_seen self.now.bag pipe }
    {
        bags_stay();
        match self.bag.view_of(pipe) {
            Some(view) => Some(view.bytes()),
            None => None,
        }
    }

    /// The bag is the application's, and the port's own entries are all that the history seen has
    /// of the application. Does nothing.
    pub fn recall(&self)
        ensures bag { HasBag self.now.seen self.now.app self.now.bag }
        ensures mine { own_entries self.now.app self.now.seen.log.entries ≡ self.now.mine }
    {
        self.port.recall();
    }

    /// What is left of a port whose application has ended. Its bag, which is empty, is let go.
    pub fn finish(self) -> BusDone
        requires { has_ended (standing_of (state_of self.seen) self.app) ≡ true }
        ensures { result ≡
            record {
              lock = self.entry.lock;
              app = self.entry.app;
              seen = self.entry.seen;
              mine = self.entry.mine;
            } }
    {
        let BusPort { port, bag: _ } = self;
        port
    }

    /// Makes one call of the core at the application's turn, which it waits for.
    pub(crate) fn visit<R: Wait, C: PortCall>(&mut self, bus: &Bus<'r>, rt: &R, call: C) -> C::Told
        requires bus { self.old.lock ≡ bus.now }
        requires may { MayCall self.old.seen self.old.app (C.call call self.old.bag) }
        requires room { FindsRoom self.old.bag (C.call call self.old.bag) }
        ensures answers { Answers self.old self.new (C.call call self.old.bag) (C.answer result) }
        ensures left { C.leaves call self.old.bag self.new.bag result }
    {
        self.port
            .visit(&bus.service, rt, &mut self.bag, MadeCall { call })
    }
}
