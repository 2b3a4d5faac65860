//! Lists with an element for each application, taken from the end and put there.
//!
//! Each function has what the run shares among its parameters so that its clauses can name it.
ghost use Rattle.std.specs.Prelude.{◌≡◌, ◌+◌, ◌<◌, ◌++◌, ◌∷◌, [], length, IfSome, IfNone, vec_capacity};
ghost use Rattle.thread_run.specs.Kept.{IsBegun};
ghost use Rattle.thread_run.specs.Whole.{whole};
ghost use Rattle.thread_run.specs.Works.{IsDone, MayWork, Numbered};

use crate::starts::Begun;
use crate::works::{Done, Ends, RunParts, Work};
use fsw_base::AppNo;

/// Takes the application of the greatest number; None if none is left.
pub(crate) fn take_last<'s, 'r>(
    works: &mut Vec<Work<'s, 'r>>,
    _shared: RunParts<'_, 'r>,
) -> Option<Work<'s, 'r>>
    requires works { Numbered (MayWork (whole _shared) _shared.bus.now _shared.tables.now) 1
        works.old.items }
    ensures some { IfSome result
        (λ work. length works.old.items ≡ length works.new.items + 1) }
    ensures number { IfSome result
        (λ work. work.runner.running.app ≡ 1 + length works.new.items) }
    ensures may { IfSome result
        (λ work. MayWork (whole _shared.entry) _shared.entry.bus.now _shared.entry.tables.now
        work.runner.running.app work) }
    ensures others { IfSome result
        (λ work. Numbered (MayWork (whole _shared.entry) _shared.entry.bus.now
        _shared.entry.tables.now) 1 works.new.items) }
    ensures none { IfNone result (length works.old.items ≡ 0) }
    ensures left { IfNone result (works.new.items ≡ []) }
    ensures room { vec_capacity works.new ≡ vec_capacity works.old }
{
    works.pop()
}

/// Puts an application that was begun behind those of smaller numbers.
pub(crate) fn note_begun<'e, 'r>(
    begun: &mut Vec<Begun<Done, Ends<'e, 'r>>>,
    _shared: RunParts<'_, 'r>,
    _app: AppNo,
    one: Begun<Done, Ends<'e, 'r>>,
)
    requires room { length begun.old.items < vec_capacity begun.old }
    requires begun { Numbered (IsBegun (whole _shared) _shared.bus.now _shared.tables.now) 1
        begun.old.items }
    requires number { _app ≡ 1 + length begun.old.items }
    requires one { IsBegun (whole _shared) _shared.bus.now _shared.tables.now _app one }
    ensures begun { Numbered (IsBegun (whole _shared.entry) _shared.entry.bus.now
        _shared.entry.tables.now) 1 begun.new.items }
    ensures count { length begun.new.items ≡ length begun.old.items + 1 }
    ensures room { vec_capacity begun.new ≡ vec_capacity begun.old }
{
    begun.push_reserved(one);
}

/// Takes the application of the greatest number that was begun; None if none is left.
pub(crate) fn take_last_begun<'e, 'r>(
    begun: &mut Vec<Begun<Done, Ends<'e, 'r>>>,
    _shared: RunParts<'_, 'r>,
) -> Option<Begun<Done, Ends<'e, 'r>>>
    requires begun { Numbered (IsBegun (whole _shared) _shared.bus.now _shared.tables.now) 1
        begun.old.items }
    ensures some { IfSome result
        (λ one. length begun.old.items ≡ length begun.new.items + 1) }
    ensures is { IfSome result
        (λ one. IsBegun (whole _shared.entry) _shared.entry.bus.now _shared.entry.tables.now
        (1 + length begun.new.items) one) }
    ensures others { IfSome result
        (λ one. Numbered (IsBegun (whole _shared.entry) _shared.entry.bus.now
        _shared.entry.tables.now) 1 begun.new.items) }
    ensures none { IfNone result (length begun.old.items ≡ 0) }
{
    begun.pop()
}

/// Puts an application that is through behind those of smaller numbers.
pub(crate) fn note_done(dones: &mut Vec<Done>, _shared: RunParts<'_, '_>, done: Done)
    requires room { length dones.old.items < vec_capacity dones.old }
    requires dones { Numbered (IsDone (whole _shared) _shared.bus.now _shared.tables.now) 1
        dones.old.items }
    requires one { IsDone (whole _shared) _shared.bus.now _shared.tables.now
        (1 + length dones.old.items) done }
    ensures dones { Numbered (IsDone (whole _shared.entry) _shared.entry.bus.now
        _shared.entry.tables.now) 1 dones.new.items }
    ensures count { length dones.new.items ≡ length dones.old.items + 1 }
    ensures room { vec_capacity dones.new ≡ vec_capacity dones.old }
{
    dones.push_reserved(done);
}

/// Takes the application of the greatest number that is through; None if none is left.
pub(crate) fn take_last_done(dones: &mut Vec<Done>, _shared: RunParts<'_, '_>) -> Option<Done>
    requires dones { Numbered (IsDone (whole _shared) _shared.bus.now _shared.tables.now) 1
        dones.old.items }
    ensures items { IfSome result
        (λ done. dones.old.items ≡ dones.new.items ++ done ∷ []) }
    ensures is { IfSome result
        (λ done. IsDone (whole _shared.entry) _shared.entry.bus.now _shared.entry.tables.now
        (1 + length dones.new.items) done) }
    ensures others { IfSome result
        (λ done. Numbered (IsDone (whole _shared.entry) _shared.entry.bus.now
        _shared.entry.tables.now) 1 dones.new.items) }
    ensures none { IfNone result (dones.old.items ≡ []) }
{
    dones.pop()
}
