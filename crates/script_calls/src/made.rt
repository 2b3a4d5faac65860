//! The bytes that a line makes: the message of a `send` line, and the content of a load.
ghost use Rattle.std.specs.Prelude.{◌≡◌, length, IfOk};
ghost use Rattle.ccsds_msg.specs.Message.{header_bytes};
ghost use Rattle.script_runs.specs.Messages.{content_bytes, filled, sent_message};
ghost use Rattle.script_calls.specs.Made.{content_made, made_bytes};
ghost use Rattle.script_calls.specs.Rows.{written_in};

use crate::buffers::Buffers;
use crate::registers::Registers;
use script_lines::Line;
use script_words::Content;
use std::alloc::{AllocError, Global};

/// The bytes that the call of the bus of a line brings and the line doesn't spell: the message of a
/// `send` line, and the buffer of an `xmit` line as it was written; none for other lines.
///
/// # Errors
/// `AllocError` if memory runs out.
#[tactic(auto, unfolding(crate::specs::Made::made_bytes))]
pub fn made_bytes(
    alloc: Global,
    registers: &Registers,
    buffers: &Buffers,
    line: &Line,
) -> Result<Vec<u8>, AllocError>
    ensures { IfOk result (λ made. made.items ≡
        made_bytes registers.now (written_in buffers.now) line.now) }
{
    match line {
        Line::Send { id, size, fill, .. } => message(alloc, *id, *size as usize, *fill),
        Line::TransmitBuffer { buf, .. } => {
            Vec::from_slice(alloc, buffers.bytes(registers.buffer(*buf)))
        }
        _ => Ok(Vec::new(alloc)),
    }
}

/// The content of a load; none for other lines.
///
/// # Errors
/// `AllocError` if memory runs out.
#[tactic(auto, unfolding(crate::specs::Made::content_made))]
pub fn content_made(alloc: Global, line: &Line) -> Result<Vec<u8>, AllocError>
    ensures { IfOk result (λ made. made.items ≡ content_made line.now) }
{
    match line {
        Line::Stage { content, .. } => content_bytes(alloc, content),
        Line::Load { content, .. } => content_bytes(alloc, content),
        _ => Ok(Vec::new(alloc)),
    }
}

// The bytes of a content: those that it spells, or so many that are made.
fn content_bytes(alloc: Global, content: &Content) -> Result<Vec<u8>, AllocError>
    ensures { IfOk result (λ bytes. bytes.items ≡ content_bytes content.now) }
{
    match content {
        Content::Hex(bytes) => Vec::from_slice(alloc, bytes.as_slice()),
        Content::Fill { len, byte } => payload(alloc, *byte, *len as usize),
    }
}

/// A message of so many bytes: a header with sequence count 0, then bytes that count up from
/// `fill`.
pub(crate) fn message(alloc: Global, id: u16, size: usize, fill: u8) -> Result<Vec<u8>, AllocError>
    ensures { IfOk result (λ message. message.items ≡ sent_message id size fill) }
{
    let mut message = Vec::from_slice(alloc, &header(id, size))?;
    let behind = payload(alloc, fill, size.saturating_sub(6))?;
    message.extend_from_slice(&behind)?;
    Ok(message)
}

// The header of a message of so many bytes, with sequence flags 3 and sequence count 0.
#[tactic(auto, unfolding(ccsds_msg::specs::Message::header_bytes))]
fn header(id: u16, size: usize) -> [u8; 6]
    ensures { result ≡ header_bytes id 0 size }
{
    let rest = size.saturating_sub(7);
    [
        (id / 256) as u8,
        (id % 256) as u8,
        192,
        0,
        (rest / 256 % 256) as u8,
        (rest % 256) as u8,
    ]
}

// So many bytes that count up from `fill`, modulo 256.
fn payload(alloc: Global, fill: u8, len: usize) -> Result<Vec<u8>, AllocError>
    ensures { IfOk result (λ bytes. bytes.items ≡ filled fill len) }
{
    let mut bytes = Vec::new(alloc);
    bytes.resize(len, 0)?;
    count_up(&mut bytes, fill);
    Ok(bytes)
}

// Writes bytes that count up from `fill`, modulo 256.
fn count_up(payload: &mut [u8], fill: u8)
    ensures { payload.new ≡ filled fill (length payload.old) }
{
    for i in 0..payload.len() {
        payload[i] = ((fill as usize + i % 256) % 256) as u8;
    }
}
