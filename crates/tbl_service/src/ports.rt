//! One application's part of the service.
ghost use Rattle.std.specs.Prelude.{◌≡◌, true};
ghost use Rattle.std.specs.Option.{option_map};
ghost use Rattle.journal_store.specs.Budgets.{allowance_of};
ghost use Rattle.tbl_words.specs.Log.{left_of};
ghost use Rattle.tbl_words.specs.Tables.{has_ended};
ghost use Rattle.tbl_load.specs.Bags.{HasBag, bytes_seen, held_bytes};
ghost use Rattle.tbl_load.specs.Core.{MayCall, state_of};
ghost use Rattle.tbl_service.specs.Ports.{Answers, left_by, own_entries};

use crate::calls::{MadeCall, PortCall};
use crate::kind::TblKind;
use crate::tables::Tables;
use core_port::Port;
use fsw_base::AppNo;
use std::marker::Model;
use std::sync::Wait;
use tbl_load::{HeldTables, bags_stay};

/// One application's calls of Table Services, from a thread of its own. Each call waits for the
/// application's turn at the core.
///
/// Contracts see which lock it is of, its application, the core with the history that it has seen,
/// the entries that it made, and what its application holds.
#[derive(Drop)]
pub struct TblPort<'r> {
    // Its part at the lock.
    pub(crate) port: Port<TblKind>,
    // What its application holds.
    pub(crate) bag: HeldTables<'r>,
}

impl<'r> Model for TblPort<'r> {
    ghost use Rattle.tbl_service.specs.Ports.{PortView};
    ghost use Rattle.tbl_service.specs.Inside.{with_bag};
    ghost use Rattle.tbl_load.specs.Bags.{HasBag};

    ghost Value = { PortView };

    ghost view = { λ p. with_bag p.port p.bag };

    ghost invariant = { λ p. HasBag p.port.seen p.port.app p.bag };
}

/// What is left of a port whose application has ended. It names no lifetime.
///
/// Contracts see what they see of the port, but for the bag.
pub type TblDone = Port<TblKind>;

impl<'r> TblPort<'r> {
    /// Its application.
    pub fn app(&self) -> AppNo
        ensures { result ≡ self.now.app }
    {
        self.port.app()
    }

    /// How many entries the application may still add to the journal, told from its own entries
    /// without the lock.
    pub fn entries_left(&self) -> u32
        ensures asked { result ≡
            (allowance_of (left_of self.now.seen.log) self.now.app).entries }
        ensures own { result ≡
            (allowance_of (left_by self.now.seen self.now.mine) self.now.app).entries }
    {
        self.port.recall();
        self.port.permits().left.entries
    }

    /// How many bytes of names and loads the application may still add to the journal, told from
    /// its own entries without the lock.
    pub fn bytes_left(&self) -> u32
        ensures asked { result ≡
            (allowance_of (left_of self.now.seen.log) self.now.app).bytes }
        ensures own { result ≡
            (allowance_of (left_by self.now.seen self.now.mine) self.now.app).bytes }
    {
        self.port.recall();
        self.port.permits().left.bytes
    }

    /// The bytes of the version that a handle holds, whatever was loaded since; None if and only if
    /// it holds nothing, or isn't this application's. Takes neither the lock nor the runtime.
    pub fn held(&self, handle: u32) -> Option<&[u8]>
        ensures held { option_map (λ bytes. bytes.now) result ≡
            held_bytes (state_of self.now.seen) self.now.app handle }
        ensures seen { option_map (λ bytes. bytes.now) result ≡ bytes_seen self.now.bag handle }
    {
        bags_stay();
        match self.bag.view_of(handle) {
            Some(view) => Some(view.bytes()),
            None => None,
        }
    }

    /// The bag is the application's, and the port's own entries are all that the history seen has
    /// of the application. Does nothing.
    pub fn recall(&self)
        ensures bag { HasBag self.now.seen self.now.app self.now.bag }
        ensures mine { own_entries self.now.app self.now.seen.log.entries ≡ self.now.mine }
    {
        self.port.recall();
    }

    /// What is left of a port whose application has ended. Its bag, which is empty, is let go.
    pub fn finish(self) -> TblDone
        requires { has_ended (state_of self.seen) self.app ≡ true }
        ensures { result ≡
            record {
              lock = self.entry.lock;
              app = self.entry.app;
              seen = self.entry.seen;
              mine = self.entry.mine;
            } }
    {
        let TblPort { port, bag: _ } = self;
        port
    }

    /// Makes one call of the core at the application's turn, which it waits for.
    pub(crate) fn visit<R: Wait, C: PortCall>(
        &mut self,
        tables: &Tables<'r>,
        rt: &R,
        call: C,
    ) -> C::Told
        requires tables { self.old.lock ≡ tables.now }
        requires may { MayCall self.old.seen self.old.app (C.call call) }
        ensures answers { Answers self.old self.new (C.call call) (C.answer result) }
        ensures left { C.leaves call self.old.bag self.new.bag result }
    {
        self.port
            .visit(&tables.service, rt, &mut self.bag, MadeCall { call })
    }
}
