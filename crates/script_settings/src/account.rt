//! What an application's call lines take.
ghost use Rattle.std.specs.Prelude.{◌≡◌, ◌+◌, ◌<◌, ◌^◌, ◌≤◌, length, slice_index, slice_set};
ghost use Rattle.script_words.specs.Content.{content_len};
ghost use Rattle.script_settings.specs.Accounts.{waits_of, buffers_of, sizes_after};

use fsw_base::Budget;
use script_lines::{Content, Line, REGISTERS};

/// What the call lines of one application take, counted line by line in their order.
#[derive(Drop)]
pub struct Account {
    /// How many call lines were counted.
    pub calls: u32,
    /// How many of them can wait for a message: each may make a second entry.
    pub waits: u32,
    /// The sum of their charges, in bytes.
    pub bytes: u32,
    /// How many buffers they take: one an `alloc` line.
    pub buffers: u32,
    /// For each register of buffers, `b0` to `b63`, the size in bytes that its latest `alloc` asked
    /// for; 0 before its first.
    pub sizes: [u32; REGISTERS],
}

// How many bytes a content has.
fn content_len(content: &Content) -> usize
    ensures { result ≡ content_len content.now }
{
    match content {
        Content::Hex(bytes) => bytes.as_slice().len(),
        Content::Fill { len, .. } => *len as usize,
    }
}

// How many answers a line can wait for.
#[tactic(auto, unfolding(crate::specs::Accounts::waits_of))]
fn waits(line: &Line) -> u32
    ensures waits { result ≡ waits_of line.now }
    ensures few { result ≤ 1 }
{
    match line {
        Line::Pend { .. } => 1,
        _ => 0,
    }
}

// How many buffers a line takes.
#[tactic(auto, unfolding(crate::specs::Accounts::buffers_of))]
fn buffers(line: &Line) -> u32
    ensures buffers { result ≡ buffers_of line.now }
    ensures few { result ≤ 1 }
{
    match line {
        Line::Allocate { .. } => 1,
        _ => 0,
    }
}

// Notes the size that an alloc asks for.
#[tactic(auto, unfolding(crate::specs::Accounts::sizes_after))]
fn note_size(sizes: &mut [u32; REGISTERS], line: &Line)
    ensures { sizes.new ≡ sizes_after sizes.old line.now }
{
    match line {
        Line::Allocate { buf, size } => set_size(sizes, *buf, *size),
        _ => {}
    }
}

// Writes a register's size, if there is that register.
fn set_size(sizes: &mut [u32; REGISTERS], buf: u32, size: u32)
    ensures { sizes.new ≡ slice_set sizes.old buf size }
{
    if buf < REGISTERS as u32 {
        sizes[buf as usize] = size;
    }
}

impl Account {
    ghost use Rattle.script_settings.specs.Accounts.{no_calls, charge_of, with_line, budget_in};

    /// The account before the first call line: all of it is 0.
    pub fn new() -> Account
        ensures { result ≡ no_calls }
    {
        Account {
            calls: 0,
            waits: 0,
            bytes: 0,
            buffers: 0,
            sizes: [0; REGISTERS],
        }
    }

    // The size that the latest alloc of a register asked for.
    fn size_of(&self, buf: u32) -> u32
        ensures { result ≡ slice_index self.now.sizes buf }
    {
        if buf < REGISTERS as u32 {
            self.sizes[buf as usize]
        } else {
            0
        }
    }

    /// The charge of the line that comes next, in bytes: the length of the name, message, text or
    /// content that it brings; for `xmit` the size that the latest `alloc` of its register asked
    /// for; 0 for all other lines.
    #[tactic(auto, unfolding(crate::specs::Accounts::charge_of))]
    pub fn charge(&self, line: &Line) -> usize
        ensures { result ≡ charge_of self.now line.now }
    {
        match line {
            Line::Create { name, .. } => name.as_slice().len(),
            Line::Find { name, .. } => name.as_slice().len(),
            Line::Send { size, .. } => *size as usize,
            Line::SendRaw { bytes, .. } => bytes.as_slice().len(),
            Line::TransmitBuffer { buf, .. } => self.size_of(*buf) as usize,
            Line::SendEvent { text, .. } => text.as_slice().len(),
            Line::TableRegister { name, .. } => name.as_slice().len(),
            Line::TableShare { name, .. } => name.as_slice().len(),
            Line::Stage { content, .. } => content_len(content),
            Line::Load { content, .. } => content_len(content),
            _ => 0,
        }
    }

    /// What an application with these lines may add to a run: an entry for each line, one more for
    /// each that can wait, and one for its end; the bytes of its charges; its buffers.
    pub fn budget(&self) -> Budget
        requires { self.now.calls + self.now.waits + 1 < 2 ^ 32 }
        ensures { result ≡ budget_in self.now }
    {
        Budget {
            entries: self.calls + self.waits + 1,
            bytes: self.bytes,
            buffers: self.buffers,
        }
    }

    /// Counts one call line more, with its charge in bytes, which is what [`Account::charge`]
    /// answers for it before it is counted.
    pub fn count(&mut self, line: &Line, charge: u32)
        requires charge { charge ≡ charge_of self.old line.now }
        requires calls { self.old.calls < 2 ^ 31 }
        requires waits { self.old.waits < 2 ^ 31 }
        requires buffers { self.old.buffers < 2 ^ 31 }
        requires bytes { self.old.bytes + charge < 2 ^ 32 }
        ensures { self.new ≡ with_line self.old line.now }
    {
        self.calls += 1;
        self.waits += waits(line);
        self.bytes += charge;
        self.buffers += buffers(line);
        note_size(&mut self.sizes, line);
    }
}
