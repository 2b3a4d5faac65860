//! Starts all applications, each on a thread of its own, and waits for their ends.
ghost use Rattle.std.specs.Prelude.{◌≡◌, ◌+◌, ◌≤◌, [], length, IfOk, vec_len, vec_capacity};
ghost use Rattle.thread_run.specs.Kept.{HaveRoomFor, IsBegun};
ghost use Rattle.thread_run.specs.Whole.{whole};
ghost use Rattle.thread_run.specs.Works.{IsDone, MayWork, Numbered};

use crate::lists::{note_begun, note_done, take_last, take_last_begun};
use crate::starts::{Begun, Starts, start_one};
use crate::works::{Done, Ends, Job, RunParts, Work, run_one};
use fsw_base::Gate;
use std::alloc::{AllocError, Global};
use std::sync::Wait;
use std::thread;
use std::thread::{Scope, Threads};

/// The lists of the applications that were begun, and of those that are through, each with room for
/// all of a run: they are made before the first thread is started.
#[derive(Drop)]
pub struct Lists<'e, 'r> {
    /// Those that were begun.
    pub begun: Vec<Begun<Done, Ends<'e, 'r>>>,
    /// What is left of those that are through.
    pub dones: Vec<Done>,
}

impl<'e, 'r> Lists<'e, 'r> {
    /// Lists of so many applications, with none yet.
    ///
    /// # Errors
    /// If memory runs out.
    pub fn new(alloc: Global, apps: usize) -> Result<Lists<'e, 'r>, AllocError>
        ensures { IfOk result (λ lists. HaveRoomFor apps lists) }
    {
        Ok(Lists {
            begun: Vec::with_capacity(alloc, apps)?,
            dones: Vec::with_capacity(alloc, apps)?,
        })
    }
}

/// Runs all applications to their ends, and answers what is left of each, in order of number. It
/// has no allocator: all that it fills was made before.
pub(crate) fn run_all<'e, 'r, R: Threads + Wait + Sync, G: Gate>(
    rt: &'e R,
    gate: &'e G,
    shared: RunParts<'e, 'r>,
    works: Vec<Work<'e, 'r>>,
    lists: Lists<'e, 'r>,
) -> Vec<Done>
    requires works { Numbered (MayWork (whole shared) shared.bus.now shared.tables.now) 1
        works.items }
    requires apps { length works.items ≡ length (whole shared).apps }
    requires room { HaveRoomFor (length works.items) lists }
    ensures done { Numbered (IsDone (whole shared.entry) shared.entry.bus.now
        shared.entry.tables.now) 1 result.items }
    ensures all { length result.items ≡ length works.entry.items }
{
    let jobs = Jobs {
        rt,
        gate,
        shared,
        works,
        lists,
    };
    thread::scope(
        thread::scope_env(),
        rt,
        move |scope| -> Vec<Done>
            requires works { Numbered (MayWork (whole jobs.shared) jobs.shared.bus.now
                jobs.shared.tables.now) 1 jobs.works.items }
            requires apps { length jobs.works.items ≡ length (whole jobs.shared).apps }
            requires room { HaveRoomFor (length jobs.works.items) jobs.lists }
            ensures done { Numbered (IsDone (whole jobs.entry.shared) jobs.entry.shared.bus.now
                jobs.entry.shared.tables.now) 1 result.items }
            ensures all { length result.items ≡ length jobs.entry.works.items }
        { run_in(scope, jobs) },
    )
}

// The runs of all applications, as the scope of their threads is given them: in one value, which
// the scope's closure moves whole.
#[derive(Drop)]
struct Jobs<'e, 'r, R: Threads + Wait + Sync, G: Gate> {
    // By what they wait, and what starts their threads.
    rt: &'e R,
    // What is called round their lines.
    gate: &'e G,
    // What they share.
    shared: RunParts<'e, 'r>,
    // What each takes along, in order of number.
    works: Vec<Work<'e, 'r>>,
    // Those that were begun and that are through.
    lists: Lists<'e, 'r>,
}

// The same, in a scope of threads.
fn run_in<'s, 'x, 'e: 's, 'r: 's, R: Threads + Wait + Sync, G: Gate>(
    scope: &'s Scope<'s, &'x ()>,
    jobs: Jobs<'e, 'r, R, G>,
) -> Vec<Done>
    requires works { Numbered (MayWork (whole jobs.shared) jobs.shared.bus.now
        jobs.shared.tables.now) 1 jobs.works.items }
    requires apps { length jobs.works.items ≡ length (whole jobs.shared).apps }
    requires room { HaveRoomFor (length jobs.works.items) jobs.lists }
    ensures done { Numbered (IsDone (whole jobs.entry.shared) jobs.entry.shared.bus.now
        jobs.entry.shared.tables.now) 1 result.items }
    ensures all { length result.items ≡ length jobs.entry.works.items }
{
    let Jobs {
        rt,
        gate,
        shared,
        mut works,
        lists,
    } = jobs;
    let Lists {
        mut begun,
        mut dones,
    } = lists;
    let mut starts = Starts::none();
    begin_all(scope, rt, gate, shared, &mut works, &mut starts, &mut begun);
    end_all(rt, shared, &mut begun, &mut dones, &starts);
    dones
}

/// Starts the applications that are left, each on a thread of the scope, that of the greatest
/// number first; and once all are started, runs here those whose thread couldn't be started, in
/// order of number.
pub fn begin_all<'s, 'x, 'e: 's, 'r: 's, R: Threads + Wait + Sync, G: Gate>(
    scope: &'s Scope<'s, &'x ()>,
    rt: &'e R,
    gate: &'e G,
    shared: RunParts<'e, 'r>,
    works: &mut Vec<Work<'e, 'r>>,
    starts: &mut Starts,
    begun: &mut Vec<Begun<Done, Ends<'e, 'r>>>,
)
    requires works { Numbered (MayWork (whole shared) shared.bus.now shared.tables.now) 1
        works.old.items }
    requires left { starts.old + length works.old.items ≡ length (whole shared).apps }
    requires empty { begun.old.items ≡ [] }
    requires room { vec_len works.old ≤ vec_capacity begun.old }
    ensures begun { Numbered (IsBegun (whole shared.entry) shared.entry.bus.now
        shared.entry.tables.now) 1 begun.new.items }
    ensures all { length begun.new.items ≡ length works.old.items }
    ensures asked { starts.new ≡ length (whole shared.entry).apps }
    ensures room { vec_capacity begun.new ≡ vec_capacity begun.old }
{
    let Some(one) = take_last(works, shared) else {
        return;
    };
    let app = one.runner.app();
    let ends = Ends { shared, app };
    let job = Job { shared, work: one };
    let start = start_one(
        starts,
        scope,
        ends,
        move || -> Done
            requires { MayWork (whole job.shared) job.shared.bus.now job.shared.tables.now
                job.work.runner.running.app job.work }
        { run_one(rt, gate, job) },
    );
    begin_all(scope, rt, gate, shared, works, starts, begun);
    let one = start.begin(starts);
    note_begun(begun, shared, app, one);
}

/// Waits for the ends of those that are left, in order of number.
pub fn end_all<'e, 'r, R: Threads>(
    rt: &R,
    shared: RunParts<'_, 'r>,
    begun: &mut Vec<Begun<Done, Ends<'e, 'r>>>,
    dones: &mut Vec<Done>,
    starts: &Starts,
)
    requires begun { Numbered (IsBegun (whole shared) shared.bus.now shared.tables.now) 1
        begun.old.items }
    requires asked { length (whole shared).apps ≤ starts.now }
    requires empty { dones.old.items ≡ [] }
    requires room { length begun.old.items ≤ vec_capacity dones.old }
    ensures dones { Numbered (IsDone (whole shared.entry) shared.entry.bus.now
        shared.entry.tables.now) 1 dones.new.items }
    ensures all { length dones.new.items ≡ length begun.old.items }
    ensures room { vec_capacity dones.new ≡ vec_capacity dones.old }
{
    let Some(one) = take_last_begun(begun, shared) else {
        return;
    };
    end_all(rt, shared, begun, dones, starts);
    let done = one.end(rt, starts);
    note_done(dones, shared, done);
}
