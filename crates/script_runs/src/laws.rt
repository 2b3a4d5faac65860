//! What holds of every history of a script, whatever runs it.
ghost use Rattle.std.specs.Prelude.{◌≡◌, ℕ, List, [], ◌∷◌, ◌++◌, length, IsTrue};
ghost use Rattle.fsw_base.specs.Limits.{Limits};
ghost use Rattle.bus_words.specs.declared.history.Call.{Call};
ghost use Rattle.bus_words.specs.declared.history.Entry.{Entry};
ghost use Rattle.bus_words.specs.Bus.{standing_of};
ghost use Rattle.bus_words.specs.Held.{HoldsNothing};
ghost use Rattle.bus_words.specs.Machine.{state_after, step, may_call, IsLegal};
ghost use Rattle.bus_words.specs.Receipts.{receipt_in};
ghost use Rattle.tbl_words.specs.declared.history.Call.{Call as TableCall};
ghost use Rattle.tbl_words.specs.declared.history.Entry.{Entry as TableEntry};
ghost use Rattle.tbl_words.specs.Leaves.{HoldsNothing as HoldsNoTables};
ghost use Rattle.tbl_words.specs.Machine.{state_after as tables_after, step as table_step, IsLegal as AreLegalTables};
ghost use Rattle.app_script.specs.Script.{ScriptText};
ghost use Rattle.script_runs.specs.Histories.{Histories};
ghost use Rattle.script_runs.specs.Merges.{Merges};
ghost use Rattle.script_runs.specs.Rotation.{before_all, enough, rotation, rotations};
ghost use Rattle.script_runs.specs.Runs.{IsRunOf, Guarantees};
ghost use Rattle.script_runs.specs.Told.{held_in};

/// What an application tells of a pipe's last message changes by its own calls alone: an entry of
/// another application, whatever its call, leaves it as it is, and so does a call that another may
/// make.
pub fn last_messages_stay()
    ensures stays { (limits : Limits) (apps app pipe : ℕ) (history : List Entry) (e : Entry) →
        IsLegal limits apps (history ++ e ∷ []) →
        ¬ (e.app ≡ app) →
        receipt_in (state_after limits apps (history ++ e ∷ [])) app pipe ≡
        receipt_in (state_after limits apps history) app pipe }
    ensures step { (limits : Limits) (apps app pipe : ℕ) (history : List Entry) (who : ℕ)
        (call : Call) → IsLegal limits apps history →
        IsTrue (may_call (standing_of (state_after limits apps history) who) call) → ¬ (who ≡ app) →
        receipt_in ((step limits history (state_after limits apps history) who call).1) app pipe ≡
        receipt_in (state_after limits apps history) app pipe }
{}

/// What an application tells of what a handle holds changes by its own calls alone: an entry of
/// another application, whatever its call, leaves it as it is, and so does any call of another.
pub fn held_receipts_stay()
    ensures stays { (limits : Limits) (apps app handle : ℕ) (history : List TableEntry)
        (e : TableEntry) → AreLegalTables limits apps (history ++ e ∷ []) → ¬ (e.app ≡ app) →
        held_in (tables_after limits apps (history ++ e ∷ [])) app handle ≡
        held_in (tables_after limits apps history) app handle }
    ensures step { (limits : Limits) (apps app handle : ℕ) (history : List TableEntry) (who : ℕ)
        (call : TableCall) → AreLegalTables limits apps history → ¬ (who ≡ app) →
        held_in ((table_step limits (tables_after limits apps history) who call).1) app handle ≡
        held_in (tables_after limits apps history) app handle }
{}

/// A rotation ends: after enough turns of all no application is left. Its histories are ones that
/// the bus and the tables can have, and have each application's calls, each once and in the order
/// of its lines, with its end behind them; so at its end nothing is held, no byte of the bus's pool
/// is in use, and no table is left.
pub fn rotations_merge()
    ensures ends { (script : ScriptText) →
        (rotations (enough script) script.limits (before_all script)).1 ≡ [] }
    ensures legal { (script : ScriptText) →
        IsLegal script.limits (length script.apps) (rotation script).bus }
    ensures legal_tables { (script : ScriptText) →
        AreLegalTables script.limits (length script.apps) (rotation script).tables }
    ensures merges { (script : ScriptText) → Merges script (rotation script) }
    ensures nothing { (script : ScriptText) →
        HoldsNothing script.limits
        (state_after script.limits (length script.apps) (rotation script).bus) }
    ensures no_tables { (script : ScriptText) →
        HoldsNoTables script.limits
        (tables_after script.limits (length script.apps) (rotation script).tables) }
{}

/// What holds of histories that a run of a script may have left, whatever ran it: each pipe gave
/// what it gives alone, each send number that was given was new, at no time were more blocks of the
/// bus's pool out than were made or more of its bytes in use than it has, and behind them nothing
/// is held or left at either service.
pub fn runs_guarantee()
    ensures { (script : ScriptText) (histories : Histories) → IsRunOf script histories →
        Guarantees script histories }
{}

/// Strict rotation is such a run.
pub fn rotations_are_runs()
    ensures { (script : ScriptText) → IsRunOf script (rotation script) }
{}
