//! Reading a source to its end, as far as an input of the word may reach.
ghost use Rattle.std.specs.Prelude.{◌≡◌, ℕ, [], ◌+◌, ◌^◌, ◌<◌, ◌≤◌, true, false, length, vec_len, vec_capacity};
ghost use Rattle.fsw_base.specs.Guards.{is_failed_read};
ghost use Rattle.fsw_base.specs.Outside.{Rose};
ghost use Rattle.host_serve.specs.Input.{input_of, ReadsAll, HasCause, Adds, is_fault};

use fsw_base::{ReadAnswer, Source, SourceGuard};

// The bytes that one read asks for; the last read may ask for fewer.
const PIECE: usize = 4096;

/// What reading a source to its end tells.
#[derive(Drop)]
pub enum Reading {
    /// The whole input, at most as many bytes as are taken.
    Whole(Vec<u8>),
    /// More bytes came.
    TooLarge,
    /// The source failed.
    Fault,
}

/// Reads a source to its end, at most one byte more than are taken, and no further after a failure.
/// What is read is put into the list, which is empty and has room for all of it. At most
/// 2,147,483,647 bytes may be asked for. No read through this guard may have failed before.
pub fn read_all<S: Source>(
    mut kept: Vec<u8>,
    most: usize,
    source: &mut SourceGuard<'_, S>,
) -> Reading
    requires none_failed { source.old.failed ≡ false }
    requires empty { kept.items ≡ [] }
    requires few { most < 2 ^ 31 }
    requires room { vec_capacity kept ≡ most + 1 }
    ensures bytes { ReadsAll result most source.old.left source.new.left }
    ensures failed { source.new.failed ≡ is_fault result }
    ensures cause { HasCause result source.old.faults source.new.faults }
    ensures same_source { source.new.source ≡ source.old.source }
{
    let mut piece = [0; PIECE];
    while kept.len() <= most {
        let next = PIECE.min(most + 1 - kept.len());
        match read_piece(source, &mut piece[..next], &mut kept) {
            ReadAnswer::Got(_) => {}
            ReadAnswer::End => return Reading::Whole(kept),
            ReadAnswer::Failed => return Reading::Fault,
        }
    }
    Reading::TooLarge
}

// One read, its bytes put behind those kept.
fn read_piece<S: Source>(
    source: &mut SourceGuard<'_, S>,
    piece: &mut [u8],
    kept: &mut Vec<u8>,
) -> ReadAnswer
    requires none_failed { source.old.failed ≡ false }
    requires some { 0 < length piece.old }
    requires room { vec_len kept.old + length piece.old ≤ vec_capacity kept.old }
    ensures input { input_of kept.new.items source.new.left ≡
        input_of kept.old.items source.old.left }
    ensures adds { Adds result (length piece.old) kept.old.items kept.new.items source.new.left }
    ensures capacity { vec_capacity kept.old ≤ vec_capacity kept.new }
    ensures failed { source.new.failed ≡ is_failed_read result }
    ensures never_falls { source.old.faults ≤ source.new.faults }
    ensures cause { source.new.failed ≡ true → Rose source.old.faults source.new.faults }
    ensures same_source { source.new.source ≡ source.old.source }
{
    let answer = source.read(piece);
    if let ReadAnswer::Got(count) = answer {
        fsw_base::extend_reserved(kept, &piece[..count]);
    }
    answer
}
