//! The spelling of a line reads back.
ghost use Rattle.std.specs.Prelude.{◌≡◌, true};
ghost use Rattle.script_lines.specs.declared.line.Line.{Line};
ghost use Rattle.script_text.specs.Spelling.{line_text};
ghost use Rattle.script_lines.specs.Ranges.{is_readable};
ghost use Rattle.script_text.specs.ReadsBack.{IsReadAs};

/// The spelling of every line that a script can have is a line of a script, and is read as that
/// line.
pub fn printed_lines_read_back()
    ensures { (line : Line) → is_readable line ≡ true → IsReadAs (line_text line) line }
{}
