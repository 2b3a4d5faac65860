//! What holds of every bag and of every history.
ghost use Rattle.std.specs.Prelude.{◌≡◌, ◌≢◌, ◌≤◌, ℕ, List, []};
ghost use Rattle.fsw_base.specs.Limits.{Limits};
ghost use Rattle.lend_block.specs.Loan.{LentBytes};
ghost use Rattle.buf_desc.specs.Held.{Holding, with_bytes_at};
ghost use Rattle.bus_words.specs.declared.calls.BusAnswer.{BusAnswer};
ghost use Rattle.bus_words.specs.declared.history.Call.{Call};
ghost use Rattle.bus_words.specs.declared.history.Entry.{Entry};
ghost use Rattle.bus_words.specs.Machine.{state_after};
ghost use Rattle.sb_calls.specs.Bags.{HasBag, KeepsOtherBags, CalledByOthers, last_message};
ghost use Rattle.sb_calls.specs.Core.{Core, Does, drops_for, state_of};
ghost use Rattle.sb_calls.specs.Views.{bytes_seen};

/// A new bag, with room for a view of each pipe, is the bag of any application of a bus on which no
/// call was made. An application's bag shows the bytes of the last message of each of its pipes,
/// and nothing of any other pipe; and it stays its bag whatever others call, by one entry or by
/// many, and whatever the application writes over the bytes of its buffers. A call of another is
/// one of others, and so is one that follows such calls. Does nothing.
pub fn bags_stay()
    ensures opens { (core : Core) (app : ℕ) (bag : Holding LentBytes) → core.log.entries ≡ [] →
        1 ≤ app → bag.views ≡ [] → bag.buffers ≡ [] → core.limits.pipes ≤ bag.view_room →
        HasBag core app bag }
    ensures shown { (core : Core) (app pipe : ℕ) (bag : Holding LentBytes) → HasBag core app bag →
        bytes_seen bag pipe ≡ last_message (state_of core) app pipe }
    ensures other_bags { (old new : Core) (app : ℕ) (call : Call) (answer : BusAnswer) →
        Does old new app call answer → KeepsOtherBags old new app }
    ensures behind { (old new : Core) (app : ℕ) (bag : Holding LentBytes) →
        CalledByOthers old new app → HasBag old app bag → HasBag new app bag }
    ensures called { (old new : Core) (app other : ℕ) (call : Call) (answer : BusAnswer) →
        Does old new app call answer → app ≢ other → CalledByOthers old new other }
    ensures further { (old mid new : Core) (app : ℕ) →
        CalledByOthers old mid app → CalledByOthers mid new app → CalledByOthers old new app }
    ensures written { (core : Core) (app number : ℕ) (bag : Holding LentBytes) (w : List ℕ) →
        HasBag core app bag → HasBag core app (with_bytes_at bag number w) }
{
    bus_messages::recall_written();
}

/// A bus of version 1 drops no message of a full pipe: no pipe of it has option bit 0x02, whatever
/// the history. Does nothing.
pub fn version_1_drops_nothing()
    ensures { (limits : Limits) (apps : ℕ) (history : List Entry) (app id : ℕ) →
        limits.version ≡ 1 → drops_for (state_after limits apps history) app id ≡ 0 }
{}
