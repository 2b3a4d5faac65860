//! What holds of every history of the bus.
ghost use Rattle.std.specs.Prelude.{◌≡◌, ◌≢◌, ℕ, ◌≤◌, All, List, [], ◌∷◌, ◌++◌, length, sum_by, true, false, IsTrue};
ghost use Rattle.fsw_base.specs.Limits.{Limits};
ghost use Rattle.fsw_base.specs.declared.config.Budget.{Budget};
ghost use Rattle.housekeeping.specs.Peaks.{greater};
ghost use Rattle.journal_store.specs.Budgets.{allowance_of};
ghost use Rattle.bus_words.specs.declared.history.Call.{Call};
ghost use Rattle.bus_words.specs.declared.history.Call.TheVariants.{Transmit, Housekeeping};
ghost use Rattle.bus_words.specs.declared.history.Entry.{Entry};
ghost use Rattle.bus_words.specs.Bus.{ArePools, State, opening, standing_of, has_ended, owns, unsent_of};
ghost use Rattle.bus_words.specs.Held.{AreUnsent, IsAccounted, HoldsNothing, held, block_of, account_of, bytes_in_use, in_use};
ghost use Rattle.bus_words.specs.Log.{Log, left_of};
ghost use Rattle.bus_words.specs.Machine.{reads_after, cause, step, state_after, may_call, makes_entry, brings, desk_after, statistics_after, IsLegal};
ghost use Rattle.bus_words.specs.Sends.{packet_in};
ghost use Rattle.bus_words.specs.Acts.{AreAlike, Whole, act, reads_in, whole_after, whole_of};
ghost use Rattle.bus_words.specs.Runs.{callers, stepped, Follows, own_entries, standing_behind};
ghost use Rattle.bus_words.specs.Alone.{Received, Gives, unmade, solo_receipts, cut, gets_from, receipts};

/// A legal history is a run: its calls, made in order from where the bus opens, give the same
/// answers and the same bus again. And it goes on by any call that its application may make, with
/// the bytes that it is about, and that makes an entry, answered by the machine's step.
pub fn histories_are_runs()
    ensures runs { (limits : Limits) (apps : ℕ) (history : List Entry) → IsLegal limits apps history
        →
        stepped limits [] (opening limits apps) (callers history) ≡
        (history, state_after limits apps history) }
    ensures goes_on { (limits : Limits) (apps : ℕ) (history : List Entry) (e : Entry) →
        IsLegal limits apps history →
        IsTrue (may_call (standing_of (state_after limits apps history) e.app) e.call) →
        e.answer ≡ (step limits history (state_after limits apps history) e.app e.call).0 →
        IsTrue (makes_entry e.call e.answer) →
        IsTrue (brings (state_after limits apps history).unsent e.app e.call) →
        Follows limits apps history e }
{}

/// What the bus asks of an application before a call, that its standing allows the call and that
/// its budget has room for the entry, follows from the application's own entries and its budget.
/// Entries of others behind a legal history change neither how it stands nor what it may still add.
/// What it may still add is its budget less its own entries alone; and it stands as the last of its
/// own entries leaves it. Does nothing.
pub fn own_entries_decide()
    ensures standing { (limits : Limits) (apps app : ℕ) (history more : List Entry) →
        IsLegal limits apps (history ++ more) → All (λ (e : Entry). e.app ≢ app) more →
        standing_of (state_after limits apps (history ++ more)) app ≡
        standing_of (state_after limits apps history) app }
    ensures left { (limits : Limits) (apps app : ℕ) (budgets : List Budget)
        (history more : List Entry) →
        IsLegal limits apps (history ++ more) → 1 ≤ app → All (λ (e : Entry). e.app ≢ app) more →
        allowance_of (left_of (record { budgets = budgets; entries = history ++ more })) app ≡
        allowance_of (left_of (record { budgets = budgets; entries = history })) app }
    ensures own { (limits : Limits) (apps app : ℕ) (log : Log) →
        IsLegal limits apps log.entries → 1 ≤ app → app ≤ length log.budgets →
        allowance_of (left_of (record log { entries = own_entries app log.entries })) app ≡
        allowance_of (left_of log) app }
    ensures last { (limits : Limits) (apps app : ℕ) (history : List Entry) →
        IsLegal limits apps history → 1 ≤ app → app ≤ apps →
        standing_of (state_after limits apps history) app ≡
        standing_behind (own_entries app history) }
{}

/// Each pipe stands alone: what its owner receives is what a pipe gives that knows nothing of the
/// rest of the bus but the accepted sends. A message that an entry gives is the pipe's last, and
/// the newest that the pipe alone gives. And if two histories are the same to a pipe, under
/// whatever limits, it gives the same messages in both: no other pipe's depth, subscription limits
/// or overflow matter to it.
pub fn pipes_stand_alone()
    ensures receipts { (limits : Limits) (apps p : ℕ) (history : List Entry) →
        IsLegal limits apps history →
        receipts limits apps p history ≡ solo_receipts unmade (cut limits apps p history) }
    ensures last { (limits : Limits) (apps p : ℕ) (history : List Entry) (e : Entry) →
        IsLegal limits apps (history ++ e ∷ []) →
        gets_from p e ≡ true → (message : Received) × Gives limits apps p history e message }
    ensures apart { (limits others : Limits) (apps many p : ℕ) (history another : List Entry) →
        IsLegal limits apps history → IsLegal others many another →
        cut limits apps p history ≡ cut others many p another →
        receipts limits apps p history ≡ receipts others many p another }
{}

/// No history need be kept: the bus with its next counts is enough by itself. Folding a legal
/// history gives this state; what a call sees there and why it is refused is what the history says;
/// and it answers, and leaves, what it answers and leaves after the history.
pub fn states_are_enough()
    ensures folds { (limits : Limits) (apps : ℕ) (history : List Entry) →
        IsLegal limits apps history →
        whole_after limits apps history ≡
        whole_of limits history (state_after limits apps history) }
    ensures reads { (limits : Limits) (apps : ℕ) (history : List Entry) →
        IsLegal limits apps history →
        AreAlike (reads_in (whole_after limits apps history)) (reads_after limits history)
        (state_after limits apps history) }
    ensures causes { (limits : Limits) (apps : ℕ) (history : List Entry) (app : ℕ) (call : Call) →
        IsLegal limits apps history →
        cause limits (whole_after limits apps history).bus app call
        ≡ cause limits (state_after limits apps history) app call }
    ensures acts { (limits : Limits) (apps : ℕ) (history : List Entry) (app : ℕ) (call : Call) →
        IsLegal limits apps history →
        act limits (whole_after limits apps history) app call
        ≡ (
          (step limits history (state_after limits apps history) app call).0,
          whole_of limits
              (history ++
              record {
                app = app;
                call = call;
                answer = (step limits history (state_after limits apps history) app call).0;
              } ∷ [])
              ((step limits history (state_after limits apps history) app call).1),
        ) }
{}

/// The memory pools of the bus have the sizes and the bytes that the limits say, whatever was
/// called; in each the grants that are out are as many of each block size as its account says, and
/// no pool gave more grants than there are entries. Does nothing.
pub fn pools_are_counted()
    ensures { (limits : Limits) (apps : ℕ) (history : List Entry) →
        ArePools limits (length history) (state_after limits apps history).pools }
{}

/// The buffers that applications were given and haven't sent: there is a list for each application,
/// no two buffers have one number, and each has a number that was given and that no pipe names, and
/// a size that a message may have, 7 bytes up to the limit. Does nothing.
pub fn buffers_are_apart()
    ensures { (limits : Limits) (apps : ℕ) (history : List Entry) →
        AreUnsent limits apps (state_after limits apps history) }
{}

/// The account of the bus's own pool adds up after every history: no more blocks of a size are out
/// than were made, the pool's bytes pay for those that were made, and a block was drawn for each
/// send number that was given. Does nothing.
pub fn draws_are_counted()
    ensures { (limits : Limits) (apps : ℕ) (history : List Entry) →
        IsAccounted limits (length history) (state_after limits apps history) }
{}

/// What is in use of the pool's bytes are the blocks for the numbers that are held, one for each.
/// Does nothing.
pub fn bytes_are_of_sends()
    ensures { (limits : Limits) (s : State) → bytes_in_use (account_of limits s) ≡
        sum_by (block_of limits.sizes s.pipes s.unsent) (held s.pipes s.unsent s.numbers_given) }
{}

/// An application (they are numbered from 1) that has ended owns no live pipe and has no unsent
/// buffer. So if all have ended nothing is left: no pipe is live, no number is held, and every
/// block of the bus's pool has come back. Does nothing.
pub fn ends_leave_nothing()
    ensures owners { (limits : Limits) (apps app pipe : ℕ) (history : List Entry) →
        IsLegal limits apps history →
        has_ended (standing_of (state_after limits apps history) app) ≡ true →
        owns (state_after limits apps history).pipes app pipe ≡ false }
    ensures buffers { (limits : Limits) (apps app : ℕ) (history : List Entry) →
        IsLegal limits apps history → 1 ≤ app →
        has_ended (standing_of (state_after limits apps history) app) ≡ true →
        unsent_of (state_after limits apps history).unsent app ≡ [] }
    ensures nothing { (limits : Limits) (apps : ℕ) (history : List Entry) →
        IsLegal limits apps history →
        ((app : ℕ) → 1 ≤ app → app ≤ apps →
        has_ended (standing_of (state_after limits apps history) app) ≡ true) →
        HoldsNothing limits (state_after limits apps history) }
{}

/// The event desk of the bus is the one that its history tells: the events that its applications
/// sent and those that the bus told of their calls, in the order of the entries and of a send's
/// destinations, at a desk if nobody was registered before. Does nothing.
pub fn events_are_told()
    ensures { (limits : Limits) (apps : ℕ) (history : List Entry) → IsLegal limits apps history →
        (state_after limits apps history).events ≡ desk_after limits apps history }
{}

/// The statistics of the bus are those that its history tells: each counter shows how often the
/// entries raised it, and each peak is the greatest number that was in use after an entry. Nothing
/// in use is above its peak. Does nothing.
pub fn statistics_are_counted()
    ensures statistics { (limits : Limits) (apps : ℕ) (history : List Entry) →
        IsLegal limits apps history →
        (state_after limits apps history).statistics ≡ statistics_after limits apps history }
    ensures peaks { (limits : Limits) (apps : ℕ) (history : List Entry) →
        greater (state_after limits apps history).statistics.peak
        (in_use limits (state_after limits apps history))
        ≡ (state_after limits apps history).statistics.peak }
{}

/// A housekeeping call is a send of its packet that counts on: it is answered and leaves what such
/// a send is answered and leaves. Does nothing.
pub fn housekeeping_is_a_send()
    ensures { (limits : Limits) (w : Whole) (app : ℕ) →
        act limits w app Housekeeping ≡ act limits w app (Transmit (packet_in limits w.bus) true) }
{}
