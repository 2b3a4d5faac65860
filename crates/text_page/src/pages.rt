//! A page of text between its writer and the sink, so that a sink is asked for few, long writes.
ghost use Rattle.std.specs.Prelude.{◌≡◌, ℕ, ◌+◌, ◌-◌, ◌<◌, ◌≤◌, ◌==◌, min, true, false, List, [], ◌++◌, length, take, OnOk, OnErr};
ghost use Rattle.fsw_base.specs.Outside.{IsCountOf};
ghost use Rattle.text_page.specs.Pieces.{Puts};
ghost use Rattle.text_page.specs.declared.pages.TheConstants.{PAGE_BYTES};

use crate::writes::write_text;
use arrayvec::ArrayVec;
use fsw_base::{Sink, SinkGuard, WriteFault};
use std::marker::Model;

/// How many bytes wait for one write.
pub const PAGE_BYTES: usize = 4096;

/// Text that waits to be written.
pub struct Page {
    // Put, and not yet written.
    text: ArrayVec<u8, PAGE_BYTES>,
}

impl Drop for Page {
    fn drop(self) {
        let Page { text: _text } = self;
    }
}

impl Model for Page {
    ghost Value = { List ℕ };

    ghost view = { λ p. p.text.items };
}

impl Page {
    /// An empty page.
    pub fn new() -> Page
        ensures { result ≡ [] }
    {
        Page {
            text: ArrayVec::new(),
        }
    }

    /// How many more bytes have room.
    pub(crate) fn room(&self) -> usize
        ensures { result + length self.now ≡ PAGE_BYTES }
    {
        self.text.remaining_capacity()
    }

    /// Takes a text that has room.
    pub(crate) fn append(&mut self, text: &[u8])
        requires { length self.old + length text.now ≤ PAGE_BYTES }
        ensures { self.new ≡ self.old ++ text.now }
    {
        let _ = self.text.try_extend_from_slice(text);
    }

    // Takes as much of the text as has room, and answers how many bytes that is.
    fn append_front(&mut self, text: &[u8]) -> usize
        requires { length self.old < PAGE_BYTES }
        ensures count { 0 < length text.now → IsCountOf result (length text.now) }
        ensures text { self.new ≡ self.old ++ take result text.now }
    {
        let count = text.len().min(self.room());
        self.append(&text[..count]);
        count
    }
}

/// Puts a piece of text on the page. A full page is written out first. After a failed write nothing
/// is written any more, and what is put is lost.
#[inline(always)]
#[tactic(auto, using(crate::proofs::PieceTexts::waits_behind))]
pub fn put<K: Sink>(sink: &mut SinkGuard<'_, K>, page: &mut Page, text: &[u8])
    ensures { Puts sink.old sink.new page.old page.new text.now }
{
    if text.len() <= page.room() {
        page.append(text);
    } else {
        put_over(sink, page, text);
    }
}

/// Writes what still waits; an error if this write failed or one before.
///
/// # Errors
/// `WriteFault` if and only if this write failed or one before.
pub fn finish<K: Sink>(sink: &mut SinkGuard<'_, K>, page: &mut Page) -> Result<(), WriteFault>
    ensures puts { Puts sink.old sink.new page.old page.new [] }
    ensures ok { OnOk result (page.new ≡ []) }
    ensures none_failed { OnOk result (sink.new.failed ≡ false) }
    ensures failed { OnErr result (sink.new.failed ≡ true) }
{
    write_out(sink, page);
    if sink.has_failed() {
        return Err(WriteFault);
    }
    Ok(())
}

// Puts a text that goes over the end of the page, so that few callers of `put` have the loop.
#[cold]
#[inline(never)]
fn put_over<K: Sink>(sink: &mut SinkGuard<'_, K>, page: &mut Page, text: &[u8])
    ensures { Puts sink.old sink.new page.old page.new text.now }
{
    let mut taken = 0;
    while taken < text.len() {
        taken += put_front(sink, page, &text[taken..]);
    }
}

// Puts a front of the text, at least one byte of it, and answers how many bytes that is.
fn put_front<K: Sink>(sink: &mut SinkGuard<'_, K>, page: &mut Page, text: &[u8]) -> usize
    requires { 0 < length text.now }
    ensures puts { Puts sink.old sink.new page.old page.new (take result text.now) }
    ensures count { IsCountOf result (length text.now) }
{
    make_room(sink, page);
    page.append_front(text)
}

// Writes the page out if it is full.
fn make_room<K: Sink>(sink: &mut SinkGuard<'_, K>, page: &mut Page)
    ensures puts { Puts sink.old sink.new page.old page.new [] }
    ensures room { length page.new < PAGE_BYTES }
{
    if page.text.is_full() {
        write_out(sink, page);
    }
}

// Writes out what waits on the page, which is empty then.
fn write_out<K: Sink>(sink: &mut SinkGuard<'_, K>, page: &mut Page)
    ensures puts { Puts sink.old sink.new page.old page.new [] }
    ensures empty { page.new ≡ [] }
{
    if !sink.has_failed() {
        let _ = write_text(sink, page.text.as_slice());
    }
    page.text.clear();
}
