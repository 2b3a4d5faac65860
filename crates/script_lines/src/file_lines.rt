//! The line of a table file, which is read as the two call lines that load a table image.
ghost use Rattle.std.specs.Prelude.{◌≡◌, ◌≤◌, length};
ghost use Rattle.script_words.specs.Readings.{Gives};
ghost use Rattle.script_words.specs.Text.{words_of};
ghost use Rattle.script_lines.specs.FileLines.{spelled_image, file_calls, tfile_of};

use crate::bus_lines::hex_word;
use crate::line::Line;
use fsw_base::{FaultKind, MAX_TABLE_BYTES};
use script_words::counts::two;
use script_words::numbers::table;
use script_words::text::is_same;
use script_words::{ByteText, Content, LineFail};
use std::alloc::Global;
use tbl_file::{Image, read_image};

// The two call lines of an image, if a script can spell its name and its offset.
#[tactic(auto, unfolding(crate::specs::FileLines::spelled_image))]
fn spelled_image(alloc: Global, handle: u32, image: &Image<'_>) -> Result<(Line, Line), LineFail>
    ensures { Gives (λ calls. calls) result
        (spelled_image handle image.now.name.now image.now.offset image.now.bytes.now) }
{
    if is_same(image.name, b"-") || image.offset > MAX_TABLE_BYTES {
        return Err(LineFail::Fault(FaultKind::BadImage));
    }
    let name = ByteText::new(alloc, image.name)?;
    let content = Content::Hex(ByteText::new(alloc, image.bytes)?);
    let share = Line::TableShare { handle, name };
    let stage = Line::Stage {
        handle,
        offset: image.offset,
        content,
    };
    Ok((share, stage))
}

// The two call lines of a file, if it is a table image.
#[tactic(auto, unfolding(crate::specs::FileLines::file_calls))]
fn file_calls(alloc: Global, handle: u32, file: &[u8]) -> Result<(Line, Line), LineFail>
    requires { length file.now ≤ 256 }
    ensures { Gives (λ calls. calls) result (file_calls handle file.now) }
{
    match read_image(file) {
        Ok(image) => spelled_image(alloc, handle, &image),
        Err(_) => Err(LineFail::Fault(FaultKind::BadImage)),
    }
}

/// The two call lines of a table file, from the words behind `tfile`: `tshare` with the name of the
/// image that the file is, and `tstage` with its offset and its bytes.
///
/// # Errors
/// The line's first fault: `WrongCount` before `BadWord` before `BadImage`, which is that the file
/// is no table image, that its name is a hyphen alone, or that its offset is past 65536. `Memory`
/// if there is none for the file, the name or the bytes.
#[tactic(auto, using(crate::proofs::FileReadings::hex_short), unfolding(crate::specs::FileLines::tfile_of))]
pub fn table_file(alloc: Global, rest: &[u8]) -> Result<(Line, Line), LineFail>
    ensures { Gives (λ calls. calls) result (tfile_of (words_of rest.now)) }
{
    let (register, word) = two(rest)?;
    let handle = table(register)?;
    hex_word(word)?;
    let file = ByteText::from_hex(alloc, word)?;
    file_calls(alloc, handle, file.as_slice())
}
