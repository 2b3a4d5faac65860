//! The desk: which block is if, and when it goes back to the pool.
ghost use Rattle.std.specs.Prelude.{◌≡◌, ℕ, ◌+◌, ◌-◌, ◌<◌, ◌≤◌, ◌↔◌, true, false, length, slice_set, take, replicate, nat_lt, if◌then◌else◌, vec_capacity, IfSome, IsTrue, IsOk, IfOk, IfErr, OnErr};
ghost use Rattle.std.specs.Option.{option_map_or};
ghost use Rattle.ccsds_msg.specs.Message.{with_count};
ghost use Rattle.es_pool.specs.Pool.{fits, is_out, size_at, DrawsFor};
ghost use Rattle.buf_desc.specs.Slots.{slot_at, sealed_at, is_free, is_sealed, is_live, free_size, number_in, asked_in};
ghost use Rattle.buf_desc.specs.declared.slot.Slot.TheVariants.{Free, Sealed};
ghost use Rattle.buf_desc.specs.Block.{Sealed as SealedBlock};
ghost use Rattle.buf_desc.specs.Desk.{Buffers, Takes, IsOf, uncut, placed, sealed, freed, resealed, after_drop, after_use, after_settle};

use crate::block::{Block, with_its_count};
use crate::sent::SentBlock;
use crate::slot::{
    Slot, Space, asked_at, count_use, count_uses, discount_use, let_use_go, lift_free, number_at,
    place_sealed, put_free, put_sealed, reopen, return_view, take_free, uses_at, view_of,
};
use es_pool::Pool;
use fsw_base::{BlockSizes, EsStatus};
use lend_block::View;
use ruled_out::surely_some;
use std::alloc::{AllocError, Global};
use std::marker::Model;
use step_count::{Ledger, Steps};

/// The descriptors of a bus's message buffers. A descriptor is the number of a block of the pool.
///
/// Contracts see the pool's account, and what became of each block by its number: it is free, an
/// application's that has it unsent, for a send and a size asked for, or sealed, and then its
/// send, sizes, bytes, uses, loan and views that are out. Live is what is unsent or sealed. Each
/// call takes a bounded number of counted steps, however many blocks are out.
pub struct Desk<'r> {
    // Which blocks are out.
    pool: Pool,
    // What became of each block that was cut.
    slots: Vec<Slot<'r>>,
    // The part of the region that was never cut.
    rest: Space<'r>,
}

impl Drop for Desk<'_> {
    fn drop(self) {
        let Desk {
            pool: _pool,
            slots: _slots,
            rest: _rest,
        } = self;
    }
}

impl<'r> Model for Desk<'r> {
    ghost use Rattle.std.specs.Prelude.{vec_capacity};
    ghost use Rattle.buf_desc.specs.Desk.{Buffers};
    ghost use Rattle.buf_desc.specs.Inside.{IsKept};

    ghost Value = { Buffers };

    ghost view = { λ d. record { pool = d.pool; slots = d.slots.items } };

    ghost invariant = { λ d. IsKept d.pool d.slots.items d.rest (vec_capacity d.slots) };
}

// Takes the memory of a block that was drawn: that of its free slot, or of a block cut anew, from
// the rest.
fn memory_of<'r>(
    pool: &Pool,
    slots: &mut Vec<Slot<'r>>,
    rest: &mut Space<'r>,
    desc: u32,
) -> &'r mut [u8]
    requires cut { desc < length pool.now.blocks }
    requires next { desc ≤ length slots.old.items }
    requires free { desc < length slots.old.items → is_free (slot_at slots.old.items desc) ≡ true }
    requires whole { desc < length slots.old.items →
        free_size (slot_at slots.old.items desc) ≡ size_at pool.now desc }
    requires left { desc ≡ length slots.old.items → size_at pool.now desc ≤ rest.old }
    ensures size { length result.now ≡ size_at pool.now desc }
    ensures lifted { slots.new.items ≡
        (if nat_lt desc (length slots.old.items) then slice_set slots.old.items desc (Free 0)
        else slots.old.items) }
    ensures left { rest.new ≡
        (if nat_lt desc (length slots.old.items) then rest.old
        else rest.old - size_at pool.now desc) }
    ensures capacity { vec_capacity slots.new ≡ vec_capacity slots.old }
{
    if (desc as usize) < slots.len() {
        return lift_free(slots, desc);
    }
    let whole = pool.size_of(desc);
    rest.cut(whole as usize)
}

// Writes a message into a block's memory, with the sequence count if there is one, and seals it.
fn sealed_copy<'r>(
    space: &'r mut [u8],
    desc: u32,
    number: u64,
    bytes: &[u8],
    count: Option<u16>,
) -> SentBlock<'r>
    requires header { 6 ≤ length bytes.now }
    requires most { length bytes.now < 4294967296 }
    requires count { IfSome count (λ n. n < 16384) }
    requires within { length bytes.now ≤ length space.old }
    ensures { result ≡
        record {
          number = number;
          asked = length bytes.now;
          size = length space.old;
          bytes = option_map_or (with_count bytes.now) count bytes.now;
          uses = 0;
          loan = result.loan;
          views = 0;
        } }
{
    let len = bytes.len() as u32;
    let copy = Block::new(desc, number, space, len).with_copy_of(bytes);
    let message = with_its_count(copy, count);
    SentBlock::seal(number, len, message.into_space(), len as usize)
}

impl<'r> Desk<'r> {
    /// A desk over a pool of `pool` bytes with these block sizes, whose blocks are cut from the
    /// region. By the code, no later call takes memory.
    ///
    /// # Errors
    ///
    /// `AllocError` if memory runs out.
    pub fn new(
        alloc: Global,
        pool: u32,
        sizes: BlockSizes,
        region: &'r mut [u8],
    ) -> Result<Desk<'r>, AllocError>
        requires { pool ≤ length region.old }
        ensures { IfOk result (λ desk. desk ≡ uncut pool sizes) }
    {
        let pool = Pool::new(alloc, pool, sizes)?;
        let slots = Vec::with_capacity(alloc, pool.most_blocks() as usize)?;
        Ok(Desk {
            pool,
            slots,
            rest: Space::new(region),
        })
    }

    /// Takes a block for `size` bytes, all zeros, for the send of this number. At most 8 steps.
    ///
    /// # Errors
    ///
    /// `ErrMemBlockSize` if and only if the pool has no block for it; then nothing changes.
    pub fn take<L: Ledger>(
        &mut self,
        size: u32,
        number: u64,
        steps: &mut Steps<L>,
    ) -> Result<Block<'r>, EsStatus>
        ensures given { IsOk result ↔ IsTrue (fits self.old.pool size 1) }
        ensures only_error { IfErr result (λ e. e ≡ EsStatus.ErrMemBlockSize) }
        ensures taken { IfOk result (λ block. Takes self.old self.new size number block) }
        ensures own { IfOk result (λ block. IsOf self.new block) }
        ensures zeros { IfOk result (λ block. block.bytes ≡ replicate size 0) }
        ensures unchanged { OnErr result (self.new ≡ self.old) }
        ensures cost { steps.new ≤ steps.old + 8 }
    {
        match self.draw(size, number, steps) {
            Ok(block) => Ok(block.with_zeros()),
            Err(status) => Err(status),
        }
    }

    /// Takes a block with these bytes, for the send of this number: each is written once, with no
    /// zeros before it. At most 8 steps.
    ///
    /// # Errors
    ///
    /// `ErrMemBlockSize` if and only if the pool has no block for as many bytes; then nothing
    /// changes.
    pub fn take_copy<L: Ledger>(
        &mut self,
        bytes: &[u8],
        number: u64,
        steps: &mut Steps<L>,
    ) -> Result<Block<'r>, EsStatus>
        requires { length bytes.now < 4294967296 }
        ensures given { IsOk result ↔ IsTrue (fits self.old.pool (length bytes.now) 1) }
        ensures only_error { IfErr result (λ e. e ≡ EsStatus.ErrMemBlockSize) }
        ensures taken { IfOk result
            (λ block. Takes self.old self.new (length bytes.now) number block) }
        ensures own { IfOk result (λ block. IsOf self.new block) }
        ensures copied { IfOk result (λ block. block.bytes ≡ bytes.now) }
        ensures unchanged { OnErr result (self.new ≡ self.old) }
        ensures cost { steps.new ≤ steps.old + 8 }
    {
        match self.draw(bytes.len() as u32, number, steps) {
            Ok(block) => Ok(block.with_copy_of(bytes)),
            Err(status) => Err(status),
        }
    }

    /// Takes a block, writes a message into it, with the sequence count if there is one, and
    /// seals it for the send of this number. Answers its descriptor, which has no use yet. By the
    /// code, each byte and the block's slot are written once. At most 8 steps.
    #[inline(always)]
    pub fn put_copy<L: Ledger>(
        &mut self,
        bytes: &[u8],
        count: Option<u16>,
        number: u64,
        steps: &mut Steps<L>,
    ) -> u32
        requires header { 6 ≤ length bytes.now }
        requires most { length bytes.now < 4294967296 }
        requires count { IfSome count (λ n. n < 16384) }
        requires room { fits self.old.pool (length bytes.now) 1 ≡ true }
        ensures next { result ≤ length self.old.slots }
        ensures fresh { is_live (slot_at self.old.slots result) ≡ false }
        ensures drawn { DrawsFor self.old.pool self.new.pool (length bytes.now) result }
        ensures sealed { self.new.slots ≡
            placed self.old.slots result
            (Sealed (record {
              number = number;
              asked = length bytes.now;
              size = size_at self.new.pool result;
              bytes = option_map_or (with_count bytes.now) count bytes.now;
              uses = 0;
              loan = (sealed_at self.new.slots result).loan;
              views = 0;
            })) }
        ensures cost { steps.new ≤ steps.old + 8 }
    {
        let desc = surely_some(self.pool.try_draw(bytes.len() as u32, steps));
        self.pool.recall_whole();
        let space = memory_of(&self.pool, &mut self.slots, &mut self.rest, desc);
        let sent = sealed_copy(space, desc, number, bytes, count);
        place_sealed(&mut self.slots, desc, sent);
        desc
    }

    /// Seals a block of this desk, of which the first `len` bytes are the message. Answers its
    /// descriptor, which has no use yet.
    pub fn seal(&mut self, block: Block<'r>, len: u32) -> u32
        requires own { IsOf self.old block }
        requires within { len ≤ length block.bytes }
        ensures desc { result ≡ block.entry.desc }
        ensures after { self.new ≡
            sealed self.old block.entry len (sealed_at self.new.slots block.entry.desc).loan }
        ensures sealed { is_sealed (slot_at self.new.slots block.entry.desc) ≡ true }
        ensures bytes { (sealed_at self.new.slots block.entry.desc).bytes ≡
            take len block.entry.bytes }
        ensures no_use { (sealed_at self.new.slots block.entry.desc).uses ≡ 0 }
    {
        let desc = block.desc();
        let number = block.number();
        let asked = block.len();
        let sent = SentBlock::seal(number, asked, block.into_space(), len as usize);
        put_sealed(&mut self.slots, desc, sent);
        desc
    }

    /// Gives an unsent block of this desk back to the pool. At most 8 steps.
    pub fn give_up<L: Ledger>(&mut self, block: Block<'r>, steps: &mut Steps<L>)
        requires own { IsOf self.old block }
        ensures after { self.new ≡ freed self.old block.entry.desc }
        ensures cost { steps.new ≤ steps.old + 8 }
    {
        let desc = block.desc();
        put_free(&mut self.slots, desc, block.into_space());
        self.pool.take_back(desc, steps);
    }

    /// Counts one use more of a sealed block.
    pub fn add_use(&mut self, desc: u32)
        requires sealed { is_sealed (slot_at self.old.slots desc) ≡ true }
        requires room { (sealed_at self.old.slots desc).uses < 4294967295 }
        ensures { self.new ≡
            resealed self.old desc
            (record
            (sealed_at self.old.slots desc) { uses = (sealed_at self.old.slots desc).uses + 1 }) }
    {
        count_use(&mut self.slots, desc);
    }

    /// Counts so many uses more of a sealed block.
    pub fn add_uses(&mut self, desc: u32, count: u32)
        requires sealed { is_sealed (slot_at self.old.slots desc) ≡ true }
        requires room { (sealed_at self.old.slots desc).uses + count ≤ 4294967295 }
        ensures { self.new ≡
            resealed self.old desc
            (record
            (sealed_at self.old.slots desc) {
              uses = (sealed_at self.old.slots desc).uses +
                  count;
            }) }
    {
        count_uses(&mut self.slots, desc, count);
    }

    /// The blocks that are out of the pool are the live ones, and each that is sealed has the
    /// pool's size for it. This does nothing, and is there for what it ensures.
    pub fn recall_live(&self)
        ensures live { (desc : ℕ) →
            is_live (slot_at self.now.slots desc) ≡ is_out self.now.pool desc }
        ensures whole { (desc : ℕ) → is_sealed (slot_at self.now.slots desc) ≡ true →
            (sealed_at self.now.slots desc).size ≡ size_at self.now.pool desc }
    {
        let _ = &self.slots;
    }

    /// Counts one use less of a sealed block. If it was the last one, and so no view is out, the
    /// block goes back to the pool. At most 8 steps.
    pub fn drop_use<L: Ledger>(&mut self, desc: u32, steps: &mut Steps<L>)
        requires sealed { is_sealed (slot_at self.old.slots desc) ≡ true }
        requires some { 1 ≤ (sealed_at self.old.slots desc).uses }
        requires all_back { (sealed_at self.old.slots desc).uses ≡ 1 →
            (sealed_at self.old.slots desc).views ≡ 0 }
        ensures after { self.new ≡ after_drop self.old desc }
        ensures cost { steps.new ≤ steps.old + 8 }
    {
        if uses_at(&self.slots, desc) > 1 {
            discount_use(&mut self.slots, desc);
            return;
        }
        reopen(&mut self.slots, desc);
        self.pool.take_back(desc, steps);
    }

    /// Takes back the view that a use of a sealed block had, and counts that use no more. If it
    /// was the last one, and so no other view is out, the block goes back to the pool. At most 8
    /// steps.
    pub fn let_use_go<L: Ledger>(&mut self, desc: u32, view: View<'r>, steps: &mut Steps<L>)
        requires sealed { is_sealed (slot_at self.old.slots desc) ≡ true }
        requires of_this_loan { view.loan ≡ (sealed_at self.old.slots desc).loan }
        requires some { 1 ≤ (sealed_at self.old.slots desc).uses }
        requires all_back { (sealed_at self.old.slots desc).uses ≡ 1 →
            (sealed_at self.old.slots desc).views ≤ 1 }
        ensures after { self.new ≡ after_use self.old desc }
        ensures cost { steps.new ≤ steps.old + 8 }
    {
        if let_use_go(&mut self.slots, desc, view) {
            reopen(&mut self.slots, desc);
            self.pool.take_back(desc, steps);
        }
    }

    /// Gives a sealed block without uses, of which no view is out, back to the pool. No effect
    /// if it has uses. At most 8 steps.
    pub fn settle<L: Ledger>(&mut self, desc: u32, steps: &mut Steps<L>)
        requires sealed { is_sealed (slot_at self.old.slots desc) ≡ true }
        requires all_back { (sealed_at self.old.slots desc).uses ≡ 0 →
            (sealed_at self.old.slots desc).views ≡ 0 }
        ensures after { self.new ≡ after_settle self.old desc }
        ensures cost { steps.new ≤ steps.old + 8 }
    {
        if uses_at(&self.slots, desc) > 0 {
            return;
        }
        reopen(&mut self.slots, desc);
        self.pool.take_back(desc, steps);
    }

    /// Counts so many uses of a sealed block that has none, and of which no view is out. If
    /// there are none to count, it goes back to the pool. At most 8 steps.
    pub fn settle_at<L: Ledger>(&mut self, desc: u32, uses: u32, steps: &mut Steps<L>)
        requires sealed { is_sealed (slot_at self.old.slots desc) ≡ true }
        requires no_use { (sealed_at self.old.slots desc).uses ≡ 0 }
        requires no_view { (sealed_at self.old.slots desc).views ≡ 0 }
        ensures after { self.new ≡
            after_settle
            (resealed self.old desc (record (sealed_at self.old.slots desc) { uses = uses }))
            desc }
        ensures cost { steps.new ≤ steps.old + 8 }
    {
        if uses > 0 {
            count_uses(&mut self.slots, desc, uses);
            return;
        }
        reopen(&mut self.slots, desc);
        self.pool.take_back(desc, steps);
    }

    /// How many uses a sealed block has.
    pub fn uses(&self, desc: u32) -> u32
        requires { is_sealed (slot_at self.now.slots desc) ≡ true }
        ensures { result ≡ (sealed_at self.now.slots desc).uses }
    {
        uses_at(&self.slots, desc)
    }

    /// The number of the send of a live block.
    pub fn number(&self, desc: u32) -> u64
        requires { is_live (slot_at self.now.slots desc) ≡ true }
        ensures { result ≡ number_in (slot_at self.now.slots desc) }
    {
        number_at(&self.slots, desc)
    }

    /// How many bytes of a live block were asked for, when it was taken.
    pub fn size_asked(&self, desc: u32) -> u32
        requires { is_live (slot_at self.now.slots desc) ≡ true }
        ensures { result ≡ asked_in (slot_at self.now.slots desc) }
    {
        asked_at(&self.slots, desc)
    }

    /// Gives a view of a sealed block.
    pub fn view(&mut self, desc: u32) -> View<'r>
        requires sealed { is_sealed (slot_at self.old.slots desc) ≡ true }
        requires room { (sealed_at self.old.slots desc).views < 4294967295 }
        ensures view { result ≡
            record {
              loan = (sealed_at self.old.slots desc).loan;
              bytes = (sealed_at self.old.slots desc).bytes;
            } }
        ensures after { self.new ≡
            resealed self.old desc
            (record
            (sealed_at self.old.slots desc) { views = (sealed_at self.old.slots desc).views + 1 }) }
    {
        view_of(&mut self.slots, desc)
    }

    /// Takes back a view of a sealed block's loan. Since it is one of those that are out, their
    /// number was not 0.
    pub fn give_back(&mut self, desc: u32, view: View<'r>)
        requires sealed { is_sealed (slot_at self.old.slots desc) ≡ true }
        requires of_this_loan { view.loan ≡ (sealed_at self.old.slots desc).loan }
        ensures some { 1 ≤ (sealed_at self.old.slots desc).views }
        ensures after { self.new ≡
            resealed self.old desc
            (record
            (sealed_at self.old.slots desc) { views = (sealed_at self.old.slots desc).views - 1 }) }
    {
        return_view(&mut self.slots, desc, view);
    }

    /// The account of the pool.
    pub fn pool(&self) -> &Pool
        ensures { result.now ≡ self.now.pool }
    {
        &self.pool
    }

    // Takes a block for `size` bytes, as they were left.
    fn draw<L: Ledger>(
        &mut self,
        size: u32,
        number: u64,
        steps: &mut Steps<L>,
    ) -> Result<Block<'r>, EsStatus>
        ensures given { IsOk result ↔ IsTrue (fits self.old.pool size 1) }
        ensures only_error { IfErr result (λ e. e ≡ EsStatus.ErrMemBlockSize) }
        ensures taken { IfOk result (λ block. Takes self.old self.new size number block) }
        ensures own { IfOk result (λ block. IsOf self.new block) }
        ensures unchanged { OnErr result (self.new ≡ self.old) }
        ensures cost { steps.new ≤ steps.old + 8 }
    {
        match self.pool.try_draw(size, steps) {
            Some(desc) => {
                self.pool.recall_whole();
                if (desc as usize) < self.slots.len() {
                    let space = take_free(&mut self.slots, desc, number, size);
                    return Ok(Block::new(desc, number, space, size));
                }
                let whole = self.pool.size_of(desc);
                self.slots.push_reserved(Slot::Unsent {
                    number,
                    asked: size,
                });
                let space = self.rest.cut(whole as usize);
                Ok(Block::new(desc, number, space, size))
            }
            None => Err(EsStatus::ErrMemBlockSize),
        }
    }
}
