//! Applications that were started: each runs on a thread of its own, or in the caller's place if
//! no thread could be started.
//!
//! The parts of these types are private. So outside of this file no thread is waited for, and
//! nothing runs in the caller's place, before as many threads were asked for as the run has
//! applications, by the run that the thread's own promise names; and what a thread returned can't
//! stand in the place of what the caller ran.
ghost use Rattle.std.specs.Prelude.{◌≡◌, ℕ, ◌+◌, ◌<◌, ◌≤◌, IfOk, IfErr};
ghost use Rattle.thread_run.specs.Kept.{BeginsAs, Comes};

use std::marker::Model;
use std::thread::{Promise, PromisedHandle, Scope, SpawnError, Threads};

/// A promise of one application of a run.
pub trait OfRun {
    /// How many applications the run has.
    ghost run_apps: { Self → ℕ };

    /// How many applications the run has.
    fn apps(&self) -> u32
        ensures { result ≡ Self.run_apps self.now };
}

/// How many threads were asked for at least: a copy of it stays true.
#[derive(Clone, Copy)]
pub struct Starts {
    // Private, so that only `start_one` counts here.
    asked: u32,
}

impl Model for Starts {
    ghost Value = { ℕ };

    ghost view = { λ starts. starts.asked };

    ghost inverse = { λ n. record { asked = n } };
}

/// The start of an application: its thread, or what was handed back since none could be started.
#[derive(Drop)]
pub struct Start<D: Drop, P: Promise<D>, F> {
    // Private, so that only this file waits for the thread, or runs what was handed back.
    start: Result<PromisedHandle<D, P>, SpawnError<F>>,
    // How many applications its run has.
    apps: u32,
}

/// An application that was begun, once all were started.
#[derive(Drop)]
pub struct Begun<D: Drop, P: Promise<D>> {
    // Private, so that only this file makes one.
    place: Place<D, P>,
    // How many applications its run has.
    apps: u32,
}

// Where an application runs.
#[derive(Drop)]
enum Place<D: Drop, P: Promise<D>> {
    // On a thread.
    OnThread(PromisedHandle<D, P>),
    // In the caller's place, if it is through.
    Here(D),
}

impl Starts {
    /// None was asked for yet.
    pub fn none() -> Starts
        ensures { result ≡ 0 }
    {
        Starts { asked: 0 }
    }
}

/// Asks for a thread of the scope for an application's run. It has no runtime, so it waits for no
/// thread.
pub fn start_one<
    's,
    E,
    D: Send + Drop + 's,
    P: Promise<D> + OfRun + Drop,
    F: FnOnce() -> D + Send + 's,
>(starts: &mut Starts, scope: &Scope<'s, E>, promise: P, run: F) -> Start<D, P, F>
    requires left { starts.old < P.run_apps promise }
    requires runs { F.pre run }
    requires keeps { (done : D) → F.post run done → P.kept_by promise done }
    ensures counted { starts.new ≡ starts.old + 1 }
    ensures apps { result.apps ≡ P.run_apps promise }
    ensures thread { IfOk result.start (λ handle. handle.promise ≡ promise) }
    ensures handed_back { IfErr result.start (λ refused. refused.value ≡ run) }
{
    let apps = promise.apps();
    starts.asked += 1;
    Start {
        start: scope.spawn_with(promise, run),
        apps,
    }
}

impl<D: Drop, P: Promise<D>, F: FnOnce() -> D> Start<D, P, F> {
    /// The application as it was begun, once all were started: if no thread could be started, it
    /// is run here.
    pub fn begin(self, _starts: &Starts) -> Begun<D, P>
        requires all { self.apps ≤ _starts.now }
        requires runs { IfErr self.start (λ refused. F.pre refused.value) }
        ensures place { BeginsAs F.post self.start result.place }
        ensures apps { result.apps ≡ self.apps }
    {
        let Start { start, apps } = self;
        let place = match start {
            Ok(handle) => Place::OnThread(handle),
            Err(refused) => Place::Here((refused.value)()),
        };
        Begun { place, apps }
    }
}

impl<D: Drop, P: Promise<D>> Begun<D, P> {
    /// Waits for the application's end, once all were started.
    pub fn end<R: Threads>(self, rt: &R, _starts: &Starts) -> D
        requires all { self.apps ≤ _starts.now }
        ensures { Comes P.kept_by self.place result }
    {
        match self.place {
            Place::OnThread(handle) => handle.join(rt),
            Place::Here(done) => done,
        }
    }
}
