//! What holds of every bag.
ghost use Rattle.std.specs.Prelude.{◌≡◌, ◌≢◌, ◌≤◌, ℕ, []};
ghost use Rattle.fsw_base.specs.Limits.{Limits};
ghost use Rattle.tbl_words.specs.declared.calls.TblAnswer.{TblAnswer};
ghost use Rattle.tbl_words.specs.declared.history.Call.{Call};
ghost use Rattle.table_blocks.specs.Held.{HeldViews};
ghost use Rattle.tbl_load.specs.Bags.{HasBag, KeepsOtherBags, CalledByOthers, bytes_seen, held_bytes};
ghost use Rattle.tbl_load.specs.Core.{Core, Does, state_of};

/// A new bag, with room for a view of each handle, is the bag of any application of tables on which
/// no call was made. An application's bag shows the bytes of what each of its handles holds, and
/// nothing of any other handle; and it stays its bag whatever others call, by one entry or by many:
/// a call of another is one of others, and so is one that follows such calls. Does nothing.
pub fn bags_stay()
    ensures opens { (core : Core) (app : ℕ) (bag : HeldViews) → core.log.entries ≡ [] →
        bag.views ≡ [] → core.limits.handles ≤ bag.room → HasBag core app bag }
    ensures shown { (core : Core) (app number : ℕ) (bag : HeldViews) → HasBag core app bag →
        bytes_seen bag number ≡ held_bytes (state_of core) app number }
    ensures other_bags { (old new : Core) (app : ℕ) (call : Call) (answer : TblAnswer) →
        Does old new app call answer → KeepsOtherBags old new app }
    ensures behind { (old new : Core) (app : ℕ) (bag : HeldViews) →
        CalledByOthers old new app → HasBag old app bag → HasBag new app bag }
    ensures called { (old new : Core) (app other : ℕ) (call : Call) (answer : TblAnswer) →
        Does old new app call answer → app ≢ other → CalledByOthers old new other }
    ensures further { (old mid new : Core) (app : ℕ) →
        CalledByOthers old mid app → CalledByOthers mid new app → CalledByOthers old new app }
{}
