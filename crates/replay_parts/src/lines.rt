//! The line of an entry, in memory.
ghost use Rattle.std.specs.Prelude.{◌≡◌, ℕ, List, []};
ghost use Rattle.std.specs.Result.{OnOk};
ghost use Rattle.text_page.specs.Pieces.{Puts};

use crate::kept::KeptText;
use bus_words::BusEntry;
use fsw_base::{Sink, SinkGuard};
use run_report::{put_bus_entry, put_table_entry};
use std::alloc::{AllocError, Global};
use std::marker::Model;
use tbl_words::TblEntry;
use text_page::{Page, finish};

/// An entry of a history, which has a line in a report.
pub trait HasLine {
    ghost line: { ℕ → Self → List ℕ };

    /// Puts its line, under this number.
    fn put<K: Sink>(&self, sink: &mut SinkGuard<'_, K>, page: &mut Page, number: u32)
        ensures { Puts sink.old sink.new page.old page.new (line number self.now) };
}

impl<'e> HasLine for BusEntry<'e> {
    ghost use Rattle.bus_words.specs.Entries.{entry_of};
    ghost use Rattle.run_report.specs.BusText.{entry_text};

    ghost line = { λ number entry. entry_text number (entry_of entry) };

    fn put<K: Sink>(&self, sink: &mut SinkGuard<'_, K>, page: &mut Page, number: u32) {
        put_bus_entry(sink, page, number, self);
    }
}

impl<'e> HasLine for TblEntry<'e> {
    ghost use Rattle.tbl_words.specs.Entries.{entry_of};
    ghost use Rattle.run_report.specs.TableText.{table_entry_text};

    ghost line = { λ number entry. table_entry_text number (entry_of entry) };

    fn put<K: Sink>(&self, sink: &mut SinkGuard<'_, K>, page: &mut Page, number: u32) {
        put_table_entry(sink, page, number, self);
    }
}

/// The line of the latest entry.
#[derive(Drop)]
pub struct EntryLine {
    // The line.
    text: KeptText,
    // Where each line is put together. It is empty between two lines.
    page: Page,
}

impl Model for EntryLine {
    ghost use Rattle.std.specs.Prelude.{◌≡◌, ℕ, List, []};

    ghost Value = { List ℕ };

    ghost view = { λ l. l.text.text };

    ghost invariant = { λ l. l.page ≡ [] };
}

impl EntryLine {
    /// No line yet.
    pub fn new(alloc: Global) -> EntryLine
        ensures { result ≡ [] }
    {
        EntryLine {
            text: KeptText::new(alloc),
            page: Page::new(),
        }
    }

    /// The line.
    pub fn as_slice(&self) -> &[u8]
        ensures { result.now ≡ self.now }
    {
        self.text.as_slice()
    }

    /// Keeps the line of an entry under this number, and nothing else.
    ///
    /// # Errors
    /// `AllocError` if memory runs out. The contract doesn't describe the line then.
    pub fn keep<E: HasLine>(&mut self, number: u32, entry: &E) -> Result<(), AllocError>
        ensures { OnOk result (self.new ≡ E.line number entry.now) }
    {
        keep_line(&mut self.text, &mut self.page, number, entry)
    }
}

// Keeps the line of an entry under this number, and nothing else.
fn keep_line<E: HasLine>(
    line: &mut KeptText,
    page: &mut Page,
    number: u32,
    entry: &E,
) -> Result<(), AllocError>
    requires { page.old ≡ [] }
    ensures line { OnOk result (line.new.text ≡ E.line number entry.now) }
    ensures empty { page.new ≡ [] }
{
    line.clear();
    let mut guard = SinkGuard::new(line);
    entry.put(&mut guard, page, number);
    let written = finish(&mut guard, page);
    let _line = guard.into_inner();
    match written {
        Ok(()) => Ok(()),
        Err(_) => {
            *page = Page::new();
            Err(AllocError)
        }
    }
}
