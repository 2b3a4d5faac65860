//! What an application wrote into its unsent buffers.
ghost use Rattle.std.specs.Prelude.{◌≡◌, ◌==◌, ℕ, Bool, List, not, [], length, filter, replicate, Some, None, IfOk};
ghost use Rattle.std.specs.Result.{OnOk};
ghost use Rattle.bus_words.specs.Entries.{call_of as call_in};
ghost use Rattle.script_runs.specs.Messages.{sent_message};
ghost use Rattle.script_runs.specs.Written.{bytes_in, put_in, with_buffer, with_bytes, written_after, written_by};
ghost use Rattle.script_calls.specs.Rows.{row_changed, rows_changed, written_in};

use crate::made::message;
use crate::registers::Registers;
use bus_words::{BusAnswer, BusCall, Call};
use script_lines::Line;
use std::alloc::{AllocError, Global};
use std::marker::Model;

// A buffer: its number, and its bytes as they were written.
#[derive(Drop)]
struct Buffer {
    number: u32,
    text: Vec<u8>,
}

impl Model for Buffer {
    ghost use Rattle.script_calls.specs.Rows.{Row};

    ghost Value = { Row };

    ghost view = { λ b. record { number = b.number; text = b.text.items } };
}

/// What an application wrote into its unsent buffers.
pub struct Buffers {
    rows: Vec<Buffer>,
}

impl Drop for Buffers {
    fn drop(self) {
        let Buffers { rows: _rows } = self;
    }
}

impl Model for Buffers {
    ghost use Rattle.std.specs.Prelude.{List};
    ghost use Rattle.script_calls.specs.Rows.{Row};

    ghost Value = { List Row };

    ghost view = { λ b. b.rows.items };
}

impl Buffer {
    // The whole buffer is a message of this id, if it has the number.
    fn form_if(&mut self, alloc: Global, number: u32, id: u16, fill: u8) -> Result<(), AllocError>
        ensures { OnOk result
            (self.new ≡
            row_changed number (λ old. sent_message id (length old) fill) self.old) }
    {
        if self.number == number {
            self.text = message(alloc, id, self.text.len(), fill)?;
        }
        Ok(())
    }

    // The buffer has these bytes from an offset on, if it has the number and they fit.
    fn put_if(&mut self, number: u32, offset: u32, bytes: &[u8])
        ensures { self.new ≡
            row_changed number (λ old. put_in old offset bytes.now) self.old }
    {
        if self.number == number {
            put_in(&mut self.text, offset, bytes);
        }
    }
}

impl Buffers {
    /// There is no buffer.
    pub fn new(alloc: Global) -> Buffers
        ensures { result ≡ [] }
    {
        Buffers {
            rows: Vec::new(alloc),
        }
    }

    /// The bytes of the buffer of a number; none if there is none.
    pub fn bytes(&self, number: u32) -> &[u8]
        ensures { result.now ≡ bytes_in (written_in self.now) number }
    {
        bytes_in(&self.rows, number)
    }

    /// Writes what a line writes that no service sees; nothing for all but `form` and `put`.
    ///
    /// # Errors
    /// `AllocError` if memory runs out.
    #[tactic(auto, unfolding(script_runs::specs::Written::written_by))]
    pub fn write(
        &mut self,
        alloc: Global,
        registers: &Registers,
        line: &Line,
    ) -> Result<(), AllocError>
        ensures { OnOk result
            (written_in self.new ≡
            written_by (written_in self.old) registers.now.buffers line.now) }
    {
        match line {
            Line::Form { buf, id, fill } => {
                form(alloc, &mut self.rows, registers.buffer(*buf), *id, *fill)
            }
            Line::Put { buf, offset, bytes } => {
                let number = registers.buffer(*buf);
                put(&mut self.rows, number, *offset, bytes.as_slice());
                Ok(())
            }
            _ => Ok(()),
        }
    }

    /// Leaves the buffers that an answer leaves: a new one is zeros, and one that was sent or given
    /// back is gone, as all are at the end.
    ///
    /// # Errors
    /// `AllocError` if memory runs out.
    pub fn settle(
        &mut self,
        alloc: Global,
        call: &BusCall<'_>,
        answer: &BusAnswer,
    ) -> Result<(), AllocError>
        ensures { OnOk result
            (written_in self.new ≡
            written_after (written_in self.old) (call_in call.now) answer.now) }
    {
        match call {
            BusCall::Allocate { size } => match answer {
                BusAnswer::Number(number) => add(alloc, &mut self.rows, *number, *size),
                _ => Ok(()),
            },
            BusCall::TransmitBuffer { buf, .. } => {
                self.after_send(*buf, answer);
                Ok(())
            }
            BusCall::Release { buf } => {
                self.after_release(*buf, answer);
                Ok(())
            }
            BusCall::End => {
                self.after_end(answer);
                Ok(())
            }
            _ => Ok(()),
        }
    }

    // Leaves what the answer to a buffer's sending leaves.
    fn after_send(&mut self, buf: u32, answer: &BusAnswer)
        ensures { (bytes : List ℕ) → (inc : Bool) →
            written_in self.new ≡
            written_after (written_in self.old) (Call.TransmitBuffer buf bytes inc) answer.now }
    {
        match answer {
            BusAnswer::Sent { .. } => remove(&mut self.rows, buf),
            _ => {}
        }
    }

    // Leaves what the answer to a buffer's return leaves.
    fn after_release(&mut self, buf: u32, answer: &BusAnswer)
        ensures { written_in self.new ≡
            written_after (written_in self.old) (Call.Release buf) answer.now }
    {
        match answer {
            BusAnswer::Done => remove(&mut self.rows, buf),
            _ => {}
        }
    }

    // Leaves what the answer to the application's end leaves.
    fn after_end(&mut self, answer: &BusAnswer)
        ensures { written_in self.new ≡
            written_after (written_in self.old) Call.End answer.now }
    {
        match answer {
            BusAnswer::Done => self.rows.clear(),
            _ => {}
        }
    }
}

// The bytes of the buffer of a number; none if there is none.
fn bytes_in(rows: &[Buffer], number: u32) -> &[u8]
    ensures { result.now ≡ bytes_in (written_in rows.now) number }
{
    for row in rows {
        if row.number == number {
            return &row.text;
        }
    }
    &[]
}

// The buffer of a number is a message of this id.
fn form(
    alloc: Global,
    rows: &mut [Buffer],
    number: u32,
    id: u16,
    fill: u8,
) -> Result<(), AllocError>
    ensures { OnOk result
        (written_in rows.new ≡
        with_bytes (written_in rows.old) number (λ old. sent_message id (length old) fill)) }
{
    form_rows(alloc, rows, number, id, fill)?;
    Ok(())
}

// The rows, with that of a number a message of this id.
fn form_rows(
    alloc: Global,
    rows: &mut [Buffer],
    number: u32,
    id: u16,
    fill: u8,
) -> Result<(), AllocError>
    ensures { OnOk result
        (rows.new ≡
        rows_changed number (λ old. sent_message id (length old) fill) rows.old) }
{
    for row in rows {
        row.form_if(alloc, number, id, fill)?;
    }
    Ok(())
}

// The buffer of a number has these bytes from an offset on, if they fit.
fn put(rows: &mut [Buffer], number: u32, offset: u32, bytes: &[u8])
    ensures { written_in rows.new ≡
        with_bytes (written_in rows.old) number (λ old. put_in old offset bytes.now) }
{
    put_rows(rows, number, offset, bytes);
}

// The rows, with these bytes in that of a number.
fn put_rows(rows: &mut [Buffer], number: u32, offset: u32, bytes: &[u8])
    ensures { rows.new ≡ rows_changed number (λ old. put_in old offset bytes.now) rows.old }
{
    for row in rows {
        row.put_if(number, offset, bytes);
    }
}

// One buffer more, of zeros.
fn add(alloc: Global, rows: &mut Vec<Buffer>, number: u32, size: u32) -> Result<(), AllocError>
    ensures { OnOk result
        (written_in rows.new.items ≡
        with_buffer (written_in rows.old.items) number (Some (replicate size 0))) }
{
    let text = zeros(alloc, size)?;
    retain_others(rows, number);
    rows.push(Buffer { number, text })?;
    Ok(())
}

// So many zeros.
fn zeros(alloc: Global, size: u32) -> Result<Vec<u8>, AllocError>
    ensures { IfOk result (λ text. text.items ≡ replicate size 0) }
{
    let mut text = Vec::new(alloc);
    text.resize(size as usize, 0)?;
    Ok(text)
}

// The buffer of a number leaves.
fn remove(rows: &mut Vec<Buffer>, number: u32)
    ensures { written_in rows.new.items ≡ with_buffer (written_in rows.old.items) number None }
{
    retain_others(rows, number);
}

// The rows but that of a number.
fn retain_others(rows: &mut Vec<Buffer>, number: u32)
    ensures { rows.new.items ≡ filter (λ row. not (row.number == number)) rows.old.items }
{
    rows.retain(|row| row.number != number);
}

// Writes the bytes from an offset on, if they fit.
fn put_in(target: &mut Vec<u8>, offset: u32, bytes: &[u8])
    ensures { target.new.items ≡ put_in target.old.items offset bytes.now }
{
    let start = offset as usize;
    if start <= target.len() && bytes.len() <= target.len() - start {
        target[start..start + bytes.len()].copy_from_slice(bytes);
    }
}
