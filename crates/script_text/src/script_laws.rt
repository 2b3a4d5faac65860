//! The spelling of a script reads back.
ghost use Rattle.std.specs.Prelude.{◌≡◌, ◌≤◌, length, Ok};
ghost use Rattle.app_script.specs.Grammar.{grammar};
ghost use Rattle.app_script.specs.Script.{ScriptText};
ghost use Rattle.app_script.specs.ScriptRanges.{IsScript};
ghost use Rattle.script_text.specs.ScriptSpelling.{spelled_script};

/// The spelling of every script that a text can be is read as that script, if a text may be so
/// long.
pub fn printed_scripts_read_back()
    ensures { (script : ScriptText) → IsScript script → length (spelled_script script) ≤ 1048576 →
        grammar (spelled_script script) ≡ Ok script }
{}
