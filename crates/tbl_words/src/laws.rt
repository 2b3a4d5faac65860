//! What holds of every history of the tables, whoever kept it.
ghost use Rattle.std.specs.Prelude.{◌≡◌, ◌≤◌, ℕ, true, false, List, [], ◌∷◌, ◌++◌, length, IsTrue};
ghost use Rattle.fsw_base.specs.Limits.{Limits};
ghost use Rattle.tbl_words.specs.declared.history.Call.{Call};
ghost use Rattle.tbl_words.specs.declared.history.Entry.{Entry};
ghost use Rattle.tbl_words.specs.Tables.{State, opening, has_ended, owns};
ghost use Rattle.tbl_words.specs.Machine.{step, state_after, may_call, IsLegal};
ghost use Rattle.tbl_words.specs.Runs.{callers, run_from, Follows};
ghost use Rattle.tbl_words.specs.Leaves.{LeavesAddUp, HoldsNothing};
ghost use Rattle.tbl_words.specs.Uses.{PeaksGoOn, PeaksAreGreatest};
ghost use Rattle.tbl_words.specs.Accounts.{RegistrationsDraw, LeavingReturns};
ghost use Rattle.tbl_words.specs.Bounds.{HandlesGoByEntries, VersionsGoByEntries};
ghost use Rattle.tbl_words.specs.Ties.{HandlesHaveTables, TablesHaveHandles, OwnersRegister, HandlesRise, HandlesWereMade, NumbersAreNew, CountsNeverFall};
ghost use Rattle.tbl_words.specs.Holds.{HoldsStay, AddressesHold};
ghost use Rattle.tbl_words.specs.Examples.{answers_to, by_one, double_buffered_calls, double_buffered_answers, single_buffered_calls, single_buffered_answers, shared_calls, shared_answers};

/// A legal history is a run: its calls, made in order from where Table Services open, give the same
/// answers and the same tables again. And it goes on by any call of an application that hasn't
/// ended, answered by the machine's step.
pub fn histories_are_runs()
    ensures runs { (limits : Limits) (apps : ℕ) (history : List Entry) → IsLegal limits apps history
        →
        run_from limits [] (opening limits apps) (callers history) ≡
        (history, state_after limits apps history) }
    ensures goes_on { (limits : Limits) (apps : ℕ) (history : List Entry) (e : Entry) →
        IsLegal limits apps history →
        IsTrue (may_call (state_after limits apps history) e.app) →
        e.answer ≡ (step limits (state_after limits apps history) e.app e.call).0 →
        Follows limits apps history e }
{}

/// Worked examples: what the machine answers to calls on a double-buffered table, on a
/// single-buffered one, and on one that two applications share.
pub fn worked_examples()
    ensures double { answers_to 1 (by_one double_buffered_calls) ≡ double_buffered_answers }
    ensures single { answers_to 1 (by_one single_buffered_calls) ≡ single_buffered_answers }
    ensures shared { answers_to 2 shared_calls ≡ shared_answers }
{}

/// What is held never changes: a handle holds what it held, copied when its address was given,
/// until its own application asks for its address again, releases it or gives the handle back.
/// And an address gives the table's present version.
pub fn held_tables_stay()
    ensures stay { HoldsStay }
    ensures present { AddressesHold }
{}

/// Handles that leave one after another leave the same behind as handles that leave at once: so an
/// application's end can give its handles back in any order.
pub fn leaves_add_up()
    ensures { LeavesAddUp }
{}

/// An application that has ended owns no handle; and once all have ended, nothing is left of the
/// tables, and none of their pool's bytes is in use.
pub fn ends_leave_nothing()
    ensures owners { (limits : Limits) (apps app number : ℕ) (history : List Entry) →
        IsLegal limits apps history → has_ended (state_after limits apps history) app ≡ true →
        owns (state_after limits apps history).handles app number ≡ false }
    ensures nothing { (limits : Limits) (apps : ℕ) (history : List Entry) →
        IsLegal limits apps history →
        ((app : ℕ) → 1 ≤ app → app ≤ apps →
        has_ended (state_after limits apps history) app ≡ true) →
        HoldsNothing limits (state_after limits apps history) }
{}

/// There are as many applications after a call as before it: one that ends keeps its place. Does
/// nothing.
pub fn applications_stay()
    ensures { (limits : Limits) (s : State) (app : ℕ) (call : Call) →
        length ((step limits s app call).1).ended ≡ length s.ended }
{}

/// The peaks of what is in use: with one entry more, the greater of the peak before and of what is
/// in use now; and nothing that was in use after any beginning of the history is greater.
pub fn peaks_are_greatest()
    ensures go_on { PeaksGoOn }
    ensures greatest { PeaksAreGreatest }
{}

/// What tables that come and leave do to the account of their pool: a new table draws its blocks,
/// of the smallest size that is large enough, and a table that leaves gives them back.
pub fn blocks_go_by_tables()
    ensures draws { RegistrationsDraw }
    ensures returns { LeavingReturns }
{}

/// Numbers are few: no more handles were made than the history has entries, and no table has had
/// more versions.
pub fn numbers_go_by_entries()
    ensures handles { HandlesGoByEntries }
    ensures versions { VersionsGoByEntries }
{}

/// What ties handles to tables: the table of a live handle is there, each table has a handle, and a
/// table is registered if and only if its owner's handle is live.
pub fn handles_have_tables()
    ensures there { HandlesHaveTables }
    ensures kept { TablesHaveHandles }
    ensures owners { OwnersRegister }
{}

/// Handles are numbered 1, 2, 3 and so on, and no number is given twice: the live ones stand in
/// order of number, none of their numbers is above the count of the handles that were made, a new
/// handle's is one more than that count and is counted, and the count never falls.
pub fn handles_are_numbered()
    ensures rise { HandlesRise }
    ensures made { HandlesWereMade }
    ensures new { NumbersAreNew }
    ensures counted { CountsNeverFall }
{}
