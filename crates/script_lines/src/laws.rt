//! What is read of a script is in its range.
ghost use Rattle.std.specs.Prelude.{◌≡◌, ℕ, List, true, Ok};
ghost use Rattle.std.specs.List.{list_all};
ghost use Rattle.script_words.specs.Counts.{Word};
ghost use Rattle.script_words.specs.Text.{is_text};
ghost use Rattle.script_lines.specs.declared.call_lines.CallWord.{CallWord};
ghost use Rattle.script_lines.specs.declared.line.Line.{Line};
ghost use Rattle.script_lines.specs.CallLines.{call_line_of};
ghost use Rattle.script_lines.specs.FileLines.{tfile_of};
ghost use Rattle.script_lines.specs.Ranges.{is_readable};

/// Each number, register, name and text of a call line is in its range: what is read as one, behind
/// a first word and of a text's bytes, is a line that a script can have.
pub fn read_lines_are_readable()
    ensures { (first : CallWord) (rest : List ℕ) (line : Line) → list_all is_text rest ≡ true →
        call_line_of first rest ≡ Ok line → is_readable line ≡ true }
{}

/// Both call lines that the line of a table file is read as are lines that a script can have.
pub fn read_files_are_readable()
    ensures share { (words : List Word) (calls : Line × Line) → tfile_of words ≡ Ok calls →
        is_readable calls.0 ≡ true }
    ensures stage { (words : List Word) (calls : Line × Line) → tfile_of words ≡ Ok calls →
        is_readable calls.1 ≡ true }
{}
