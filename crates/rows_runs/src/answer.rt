//! What a case is answered.

use crate::case::Case;
use fsw_base::{MemSink, MemSource, OpenGate};
use host_serve::{NoAudit, serve};
use std::alloc::Global;
use std::io;
use std::io::Write;
use std::sync::Wait;
use std::thread::Threads;

// How many bytes are read or written at a time, how long a text may be, and up to which length it
// is printed.
const PIECE: usize = 4096;

const LONGEST: usize = 4_194_304;

const MOST_SHOWN: usize = 4096;

/// Runs a case: its name, its status, and the text that it writes. Nothing, if it has no name.
///
/// # Errors
/// `OutOfMemory` if there is none for a text.
pub fn answer_of<R: Threads + Wait + Sync>(
    rt: &R,
    alloc: Global,
    case: &Case<'_>,
) -> io::Result<Vec<u8>> {
    let mut answer = Vec::new(alloc);
    if case.name.is_empty() {
        return Ok(answer);
    }
    let mut source = MemSource::new(case.input.as_slice(), PIECE, &[]);
    let mut sink = MemSink::new(alloc, LONGEST, PIECE, &[])?;
    let status = serve(
        rt,
        alloc,
        &case.words,
        &mut source,
        &mut sink,
        &OpenGate,
        &mut NoAudit,
    );
    answer.extend_from_slice(b"== ")?;
    answer.extend_from_slice(case.name)?;
    write!(answer, "\n-> {}", status.exit_status())?;
    add_text(&mut answer, sink.written())?;
    Ok(answer)
}

// Adds a text behind a status: its lines, or its size and its sum if it is long.
fn add_text(answer: &mut Vec<u8>, text: &[u8]) -> io::Result<()> {
    if MOST_SHOWN < text.len() {
        return writeln!(answer, ", {} bytes, sum {}", text.len(), sum_of(text));
    }
    answer.push(b'\n')?;
    let mut is_open = false;
    for &byte in text {
        if !is_open {
            answer.push(b'|')?;
        }
        is_open = byte != b'\n';
        add_byte(answer, byte)?;
    }
    if is_open {
        answer.extend_from_slice(b"\\\n")?;
    }
    Ok(())
}

// Adds a byte; one that can't be printed, and a backslash, is spelled.
fn add_byte(answer: &mut Vec<u8>, byte: u8) -> io::Result<()> {
    match byte {
        b'\n' | b' '..=b'[' | b']'..=b'~' => Ok(answer.push(byte)?),
        _ => write!(answer, "\\x{byte:02x}"),
    }
}

// A number that a text of these bytes has, in their order.
fn sum_of(text: &[u8]) -> u32 {
    let mut sum: u32 = 0;
    for byte in text {
        sum = sum.wrapping_mul(31).wrapping_add(*byte as u32);
    }
    sum
}
