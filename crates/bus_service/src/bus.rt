//! The service: a core of the bus behind a lock, and its main part.
ghost use Rattle.std.specs.Prelude.{◌≡◌, ℕ, ◌≤◌, ◌++◌, ◌∷◌, [], length, map, All, Contains, IfOk, IfErr};
ghost use Rattle.fsw_base.specs.Limits.{limits_of};
ghost use Rattle.journal_store.specs.Budgets.{AreBudgets};
ghost use Rattle.sb_calls.specs.Core.{IsLegalCore, StandAlone};
ghost use Rattle.bus_words.specs.Runs.{own_entries};
ghost use Rattle.bus_service.specs.Ports.{Begins, KeepsLongerOf, buffers_for};

use crate::kind::BusKind;
use crate::permits::Permits;
use crate::ports::{BusDone, BusPort};
use buf_desc::Held;
use bus_words::Allowance;
use core_port::{Main, Service};
use fsw_base::{AppNo, Budget, Config};
use sb_calls::BusCore;
use std::alloc::{AllocError, Global};
use std::marker::Model;

/// A software bus that threads share. The threads' ports take turns at one core.
///
/// Contracts see which lock it is.
#[derive(Drop)]
pub struct Bus<'r> {
    // The core behind its lock.
    pub(crate) service: Service<BusKind, BusCore<'r>>,
}

impl<'r> Model for Bus<'r> {
    ghost use Rattle.atomic_table.specs.Seated.{TableId};

    ghost Value = { TableId };

    ghost view = { λ b. b.service };
}

/// The part of the service that makes ports and closes it. It stays with whoever opened the
/// service, and names no lifetime.
///
/// Contracts see which lock it is of, the core with the history that it has seen, the applications
/// whose ports were made, and of those joined their entries.
pub type BusMain = Main<BusKind>;

impl<'r> Bus<'r> {
    /// A bus on which no call was made, as [`BusCore::new`] makes it, and its main part.
    ///
    /// # Errors
    /// If memory runs out.
    pub fn new(
        alloc: Global,
        cfg: &Config,
        budgets: &[Budget],
        region: &'r mut [u8],
    ) -> Result<(Bus<'r>, BusMain), AllocError>
        requires budgets { AreBudgets budgets.now }
        requires region { cfg.now.pool ≤ length region.old }
        ensures { IfOk result
            (λ opened. opened.1 ≡
            record {
              lock = opened.0;
              seen = record {
                limits = limits_of cfg.now;
                log = record { budgets = budgets.now; entries = [] };
                notes = [];
              };
              apps = [];
              ended = [];
            }) }
    {
        let core = BusCore::new(alloc, cfg, budgets, region)?;
        let (service, main) = Service::new(alloc, core, budgets, cfg.pipes)?;
        Ok((Bus { service }, main))
    }

    /// The port of an application that has none yet. It has seen what the main part has, has made
    /// no call, and holds nothing.
    ///
    /// # Errors
    /// If memory runs out: the application has no port then, and may still get one.
    pub fn port(
        &self,
        alloc: Global,
        main: &mut BusMain,
        app: AppNo,
    ) -> Result<BusPort<'r>, AllocError>
        requires main { main.old.lock ≡ self.now }
        requires known { app ≤ length main.old.seen.log.budgets }
        requires new { ¬ (Contains main.old.apps app) }
        ensures port { IfOk result
            (λ port. port ≡
            record {
              lock = self.now;
              app = app;
              seen = main.old.seen;
              mine = [];
              bag = record {
                views = [];
                buffers = [];
                view_room = main.old.seen.limits.pipes;
                buffer_room = buffers_for main.old.seen.log.budgets app;
              };
            }) }
        ensures apps { IfOk result
            (λ _. main.new ≡ record main.old { apps = main.old.apps ++ app ∷ [] }) }
        ensures refused { IfErr result (λ _. main.new ≡ main.old) }
    {
        let budget = main.budget(app);
        let bag = Held::new(alloc, main.view_room(), budget.buffers)?;
        let left = Allowance {
            entries: budget.entries,
            bytes: budget.bytes,
        };
        let some = 1 <= budget.entries;
        let permits = Permits {
            left,
            any: some,
            last: some,
        };
        main.recall();
        main.recall_apps();
        let port = self.service.port(main, app, permits);
        Ok(BusPort { port, bag })
    }

    /// Takes a finished port into the main part, which keeps its entries, and the longer of the
    /// histories that the two had seen; the shorter one begins it.
    pub fn join(&self, main: &mut BusMain, done: BusDone)
        requires main { main.old.lock ≡ self.now }
        requires done { done.lock ≡ self.now }
        ensures lock { main.new.lock ≡ main.old.lock }
        ensures seen { KeepsLongerOf main.old.seen done.seen main.new.seen }
        ensures apps { main.new.apps ≡ main.old.apps }
        ensures ended { main.new.ended ≡ main.old.ended ++ (done.app, done.mine) ∷ [] }
    {
        self.service.join(main, done);
    }

    /// Ends the service, whose ports have all been joined, and answers the core. Its history is one
    /// that the bus can have, extends what the main part has seen, has of each application just
    /// the entries of its finished port, in order, and has no others.
    pub fn close(self, main: BusMain) -> BusCore<'r>
        requires main { main.lock ≡ self }
        requires joined { All (Contains (map (λ e. e.0) main.ended)) main.apps }
        ensures limits { result.limits ≡ main.seen.limits }
        ensures budgets { result.log.budgets ≡ main.seen.log.budgets }
        ensures legal { IsLegalCore result }
        ensures alone { StandAlone result }
        ensures extends { Begins main.seen result }
        ensures ended { All (λ e. own_entries e.0 result.log.entries ≡ e.1) main.ended }
        ensures others { (app : ℕ) → ¬ (Contains main.apps app) →
            own_entries app result.log.entries ≡ [] }
    {
        let Bus { service } = self;
        service.close(main)
    }
}
