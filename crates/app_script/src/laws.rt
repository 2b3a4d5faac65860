//! What holds of every script, whatever reads it.
ghost use Rattle.std.specs.Prelude.{◌≡◌, ℕ, List, Ok};
ghost use Rattle.app_script.specs.Grammar.{grammar};
ghost use Rattle.app_script.specs.Language.{IsText};
ghost use Rattle.app_script.specs.Ranges.{IsInRange};
ghost use Rattle.app_script.specs.Script.{ScriptText};
ghost use Rattle.app_script.specs.ScriptRanges.{IsScript};

/// The language of scripts in a reader's words: a text is read as a script if and only if it is one
/// of plain lines that tell, without the skipped ones, perhaps the version, then the configuration,
/// each setting once, and then one to sixteen applications, each with its call lines, not too many
/// of them.
pub fn texts_are_scripts()
    ensures read { (text : List ℕ) (script : ScriptText) → grammar text ≡ Ok script →
        IsText text script }
    ensures accepted { (text : List ℕ) (script : ScriptText) → IsText text script →
        grammar text ≡ Ok script }
{}

/// What a text is read as is in the ranges of `IsScript`; and all such scripts are within the
/// bounds of a run: their names, their messages, their lines and their charges.
pub fn read_scripts_are_in_range()
    ensures scripts { (bytes : List ℕ) (script : ScriptText) → grammar bytes ≡ Ok script →
        IsScript script }
    ensures runs { (script : ScriptText) → IsScript script → IsInRange script }
{}
