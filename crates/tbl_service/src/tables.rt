//! The service: a core of tables behind a lock, and its main part.
ghost use Rattle.std.specs.Prelude.{◌≡◌, ℕ, ◌≤◌, ◌*◌, ◌++◌, ◌∷◌, [], length, map, All, Contains, IfOk, IfErr};
ghost use Rattle.fsw_base.specs.Limits.{limits_of};
ghost use Rattle.journal_store.specs.Budgets.{AreBudgets};
ghost use Rattle.tbl_load.specs.Core.{IsLegalCore};
ghost use Rattle.tbl_service.specs.Ports.{Begins, KeepsLongerOf, own_entries};

use crate::kind::TblKind;
use crate::permits::Permits;
use crate::ports::{TblDone, TblPort};
use core_port::{Main, Service};
use fsw_base::{AppNo, Budget, Config};
use std::alloc::{AllocError, Global};
use std::marker::Model;
use tbl_load::{HeldTables, TblCore};
use tbl_words::Allowance;

/// Table Services that threads share. The threads' ports take turns at one core.
///
/// Contracts see which lock it is.
#[derive(Drop)]
pub struct Tables<'r> {
    // The core behind its lock.
    pub(crate) service: Service<TblKind, TblCore<'r>>,
}

impl<'r> Model for Tables<'r> {
    ghost use Rattle.atomic_table.specs.Seated.{TableId};

    ghost Value = { TableId };

    ghost view = { λ t. t.service };
}

/// The part of the service that makes ports and closes it. It stays with whoever opened the
/// service, and names no lifetime.
///
/// Contracts see which lock it is of, the core with the history that it has seen, the applications
/// whose ports were made, and of those joined their entries.
pub type TblMain = Main<TblKind>;

impl<'r> Tables<'r> {
    /// Table Services on which no call was made, as [`TblCore::new`] makes them, and their main
    /// part.
    ///
    /// # Errors
    /// If memory runs out.
    pub fn new(
        alloc: Global,
        cfg: &Config,
        budgets: &[Budget],
        region: &'r mut [u8],
        work: &'r mut [u8],
    ) -> Result<(Tables<'r>, TblMain), AllocError>
        requires budgets { AreBudgets budgets.now }
        requires region { cfg.now.tablepool ≤ length region.old }
        requires work { 4 * cfg.now.tablemax ≤ length work.old }
        ensures { IfOk result
            (λ opened. opened.1 ≡
            record {
              lock = opened.0;
              seen = record {
                limits = limits_of cfg.now;
                log = record { budgets = budgets.now; entries = [] };
                notes = [];
              };
              apps = [];
              ended = [];
            }) }
    {
        let core = TblCore::new(alloc, cfg, budgets, region, work)?;
        let (service, main) = Service::new(alloc, core, budgets, cfg.handles)?;
        Ok((Tables { service }, main))
    }

    /// The port of an application that has none yet. It has seen what the main part has, has made
    /// no call, and holds nothing.
    ///
    /// # Errors
    /// If memory runs out: the application has no port then, and may still get one.
    pub fn port(
        &self,
        alloc: Global,
        main: &mut TblMain,
        app: AppNo,
    ) -> Result<TblPort<'r>, AllocError>
        requires main { main.old.lock ≡ self.now }
        requires known { app ≤ length main.old.seen.log.budgets }
        requires new { ¬ (Contains main.old.apps app) }
        ensures port { IfOk result
            (λ port. port ≡
            record {
              lock = self.now;
              app = app;
              seen = main.old.seen;
              mine = [];
              bag = record { views = []; room = main.old.seen.limits.handles };
            }) }
        ensures apps { IfOk result
            (λ _. main.new ≡ record main.old { apps = main.old.apps ++ app ∷ [] }) }
        ensures refused { IfErr result (λ _. main.new ≡ main.old) }
    {
        let bag = HeldTables::new(alloc, main.view_room())?;
        let budget = main.budget(app);
        let left = Allowance {
            entries: budget.entries,
            bytes: budget.bytes,
        };
        let permits = Permits {
            left,
            may_end: 1 <= budget.entries,
        };
        main.recall();
        main.recall_apps();
        let port = self.service.port(main, app, permits);
        Ok(TblPort { port, bag })
    }

    /// Takes a finished port into the main part, which keeps its entries, and the longer of the
    /// histories that the two had seen; the shorter one begins it.
    pub fn join(&self, main: &mut TblMain, done: TblDone)
        requires main { main.old.lock ≡ self.now }
        requires done { done.lock ≡ self.now }
        ensures lock { main.new.lock ≡ main.old.lock }
        ensures seen { KeepsLongerOf main.old.seen done.seen main.new.seen }
        ensures apps { main.new.apps ≡ main.old.apps }
        ensures ended { main.new.ended ≡ main.old.ended ++ (done.app, done.mine) ∷ [] }
    {
        self.service.join(main, done);
    }

    /// Ends the service, whose ports have all been joined, and answers the core. Its history is one
    /// that the tables can have, extends what the main part has seen, has of each application just
    /// the entries of its finished port, in order, and has no others.
    pub fn close(self, main: TblMain) -> TblCore<'r>
        requires main { main.lock ≡ self }
        requires joined { All (Contains (map (λ e. e.0) main.ended)) main.apps }
        ensures limits { result.limits ≡ main.seen.limits }
        ensures budgets { result.log.budgets ≡ main.seen.log.budgets }
        ensures legal { IsLegalCore result }
        ensures extends { Begins main.seen result }
        ensures ended { All (λ e. own_entries e.0 result.log.entries ≡ e.1) main.ended }
        ensures others { (app : ℕ) → ¬ (Contains main.apps app) →
            own_entries app result.log.entries ≡ [] }
    {
        let Tables { service } = self;
        service.close(main)
    }
}
