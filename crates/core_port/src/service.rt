//! The service: a core behind a lock, and its main part.
ghost use Rattle.std.specs.Prelude.{◌≡◌, ℕ, ◌≤◌, ◌++◌, ◌∷◌, [], length, map, All, Contains, IfOk};
ghost use Rattle.core_port.specs.Histories.{own_entries};
ghost use Rattle.core_port.specs.Ports.{Begins, KeepsLongerOf};
ghost use Rattle.core_port.specs.Words.{budget_of};

use crate::boxed::BoxedCore;
use crate::history::{NotedCall, Opening};
use crate::kind::Kind;
use crate::port::Port;
use crate::served::ServedCore;
use fsw_base::{AppNo, Budget};
use std::alloc::{AllocError, Global};
use std::marker::Model;
use turn_lock::{MOST_SEATS, Seat, TurnLock};

/// A core that threads share. The threads' ports take turns at it.
///
/// Contracts see which lock it is.
#[derive(Drop)]
pub struct Service<K: Kind, C: ServedCore<K> + Drop> {
    // The lock, from which a seat can be split off for each application that there may be.
    pub(crate) lock: TurnLock<BoxedCore<K, C>>,
}

impl<K: Kind, C: ServedCore<K> + Drop> Model for Service<K, C> {
    ghost use Rattle.std.specs.Prelude.{◌≡◌};
    ghost use Rattle.atomic_table.specs.Seated.{TableId};

    ghost Value = { TableId };

    ghost view = { λ s. s.lock.name };

    ghost invariant = { λ s. s.lock.seats ≡ 16 };
}

/// The part of the service that makes ports and closes it. It stays with whoever opened the
/// service, and names no lifetime.
///
/// Contracts see which lock it is of, the core with the history that it has seen, the applications
/// whose ports were made, and of those joined their entries.
#[derive(Drop)]
pub struct Main<K: Kind> {
    // The lock's main seat.
    pub(crate) seat: Seat<Opening, NotedCall<K::Call, K::Answer>>,
    // The budgets of the applications 1, 2, 3 and so on.
    budgets: Vec<Budget>,
    // How many views an application's bag has room for.
    view_room: u32,
}

impl<K: Kind> Model for Main<K> {
    ghost use Rattle.core_port.specs.Ports.{MainView};
    ghost use Rattle.core_port.specs.Inside.{main_in, IsMainPart};

    ghost Value = { MainView K.Seen K.Entry };

    ghost view = { λ m. main_in K.words m.seat };

    ghost invariant = { λ m. IsMainPart K.words m.seat m.budgets.items m.view_room };
}

impl<K: Kind> Main<K> {
    /// The entries seen are of applications, which are numbered from 1. Does nothing.
    pub fn recall(&self)
        ensures { All (λ e. 1 ≤ K.words.caller e) (K.words.entries self.now.seen) }
    {
        K::laws();
        let _ = &self.seat;
    }

    /// What the main part has seen has no entries but those of applications whose ports were made.
    /// Does nothing.
    pub fn recall_apps(&self)
        ensures { (app : ℕ) → ¬ (Contains self.now.apps app) →
            own_entries K.words app (K.words.entries self.now.seen) ≡ [] }
    {
        K::laws();
        let _ = &self.seat;
    }

    /// The budget of an application, which are numbered from 1.
    pub fn budget(&self, app: AppNo) -> Budget
        requires { app ≤ length (K.words.fixed self.now.seen).budgets }
        ensures first { 1 ≤ app }
        ensures budget { result ≡ budget_of (K.words.fixed self.now.seen).budgets app }
    {
        K::laws();
        self.budgets[(app.get() - 1) as usize]
    }

    /// How many views an application's bag has room for.
    pub fn view_room(&self) -> u32
        ensures { result ≡ K.words.view_room (K.words.fixed self.now.seen).limits }
    {
        K::laws();
        self.view_room
    }
}

impl<K: Kind, C: ServedCore<K> + Drop> Service<K, C> {
    /// A service of this core, which has these budgets and limits and on which no call was made,
    /// and its main part.
    ///
    /// # Errors
    /// If memory runs out.
    pub fn new(
        alloc: Global,
        core: C,
        budgets: &[Budget],
        view_room: u32,
    ) -> Result<(Service<K, C>, Main<K>), AllocError>
        requires empty { K.words.entries (C.seen core) ≡ [] }
        requires budgets { (K.words.fixed (C.seen core)).budgets ≡ budgets.now }
        requires views { K.words.view_room (K.words.fixed (C.seen core)).limits ≡ view_room }
        ensures { IfOk result
            (λ opened. opened.1 ≡
            record { lock = opened.0; seen = C.seen core; apps = []; ended = [] }) }
    {
        K::laws();
        let given = budgets.to_vec(alloc)?;
        let boxed = BoxedCore::new(alloc, core)?;
        boxed.recall();
        let (lock, seat) = TurnLock::new(alloc, boxed, MOST_SEATS)?;
        Ok((
            Service { lock },
            Main {
                seat,
                budgets: given,
                view_room,
            },
        ))
    }

    /// The port of an application that has none yet, of which this is told. It has seen what the
    /// main part has, and has made no call.
    pub fn port(&self, main: &mut Main<K>, app: AppNo, permits: K::Permits) -> Port<K>
        requires main { main.old.lock ≡ self.now }
        requires known { app ≤ length (K.words.fixed main.old.seen).budgets }
        requires new { ¬ (Contains main.old.apps app) }
        requires tells { K.words.tells main.old.seen app permits }
        ensures port { result ≡
            record { lock = self.now; app = app; seen = main.old.seen; mine = [] } }
        ensures apps { main.new ≡ record main.old { apps = main.old.apps ++ app ∷ [] } }
    {
        K::laws();
        let _ = app.get();
        let seat = self.lock.split(&mut main.seat, app);
        Port { seat, app, permits }
    }

    /// Takes the port of an application that ended into the main part, which keeps its entries, and
    /// the longer of the histories that the two had seen; the shorter one begins it.
    pub fn join(&self, main: &mut Main<K>, port: Port<K>)
        requires main { main.old.lock ≡ self.now }
        requires port { port.lock ≡ self.now }
        ensures lock { main.new.lock ≡ main.old.lock }
        ensures seen { KeepsLongerOf K.words main.old.seen port.seen main.new.seen }
        ensures apps { main.new.apps ≡ main.old.apps }
        ensures ended { main.new.ended ≡ main.old.ended ++ (port.app, port.mine) ∷ [] }
    {
        K::laws();
        let Port {
            seat,
            app: _,
            permits: _,
        } = port;
        self.lock.join(&mut main.seat, seat);
    }

    /// Ends the service, whose ports have all been joined, and answers the core. Its history
    /// extends what the main part has seen, has of each application just the entries of its port,
    /// in order, and has no others.
    pub fn close(self, main: Main<K>) -> C
        requires main { main.lock ≡ self }
        requires joined { All (Contains (map (λ e. e.0) main.ended)) main.apps }
        ensures opening { K.words.fixed (C.seen result) ≡ K.words.fixed main.seen }
        ensures sound { K.words.sound (C.seen result) }
        ensures extends { Begins K.words main.seen (C.seen result) }
        ensures ended { All
            (λ e. own_entries K.words e.0 (K.words.entries (C.seen result)) ≡ e.1) main.ended }
        ensures others { (app : ℕ) → ¬ (Contains main.apps app) →
            own_entries K.words app (K.words.entries (C.seen result)) ≡ [] }
    {
        K::laws();
        let Service { lock } = self;
        let Main {
            seat,
            budgets: _,
            view_room: _,
        } = main;
        let boxed = lock.close(seat);
        boxed.recall();
        boxed.into_core()
    }
}
