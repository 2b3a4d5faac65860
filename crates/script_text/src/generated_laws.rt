//! What holds of every generated script.
ghost use Rattle.std.specs.Prelude.{◌≡◌, ℕ, ◌≤◌, Ok};
ghost use Rattle.app_script.specs.Grammar.{grammar};
ghost use Rattle.app_script.specs.ScriptRanges.{IsScript, all_calls};
ghost use Rattle.script_text.specs.Generated.{generated};
ghost use Rattle.script_text.specs.ScriptSpelling.{spelled_script};

/// A generated script is one that a text can be: its names, numbers and call lines are in their
/// ranges. It has at most 3012 call lines.
pub fn generated_scripts_are_in_range()
    ensures scripts { (number : ℕ) → IsScript (generated number) }
    ensures calls { (number : ℕ) → all_calls (generated number).apps ≤ 3012 }
{}

/// The spelling of a generated script is no longer than a text may be, and the language reads it as
/// that script.
pub fn generated_scripts_read_back()
    ensures { (number : ℕ) → grammar (spelled_script (generated number)) ≡ Ok (generated number) }
{}
