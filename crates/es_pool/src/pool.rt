//! The pool.
ghost use Rattle.std.specs.Prelude.{◌≡◌, ℕ, ◌+◌, ◌<◌, ◌≤◌, ◌↔◌, [], ◌∷◌, ◌++◌, true, false, length, slice_index, slice_index_or, slice_set, Some, None, IsTrue, IsSome, IfSome, IsOk, IfOk, IfErr, OnOk, OnErr};
ghost use Rattle.fsw_base.specs.PoolAccounts.{counted, overhead};
ghost use Rattle.fsw_base.specs.Blocks.{class_of};
ghost use Rattle.es_pool.specs.Places.{offset_at};
ghost use Rattle.es_pool.specs.Pool.{PoolState, IsWhole, fits, fits_class, DrawsFor, Draws, made_in, free_in, in_use_by, out_among, rest_of, is_out, is_free, class_at, size_at, most_cut, given_back};

use crate::blocks::{BlockNo, ClassStats, CutBlock, OVERHEAD, zeros};
use bucket_list::Lists;
use fsw_base::{BlockSizes, EsStatus, MAX_BLOCK_SIZE, PoolStats};
use ruled_out::ruled_out;
use std::alloc::{AllocError, Global};
use std::marker::Model;
use step_count::{Ledger, Steps};

// What a block of the largest size that there may be costs.
const MOST_COST: u32 = MAX_BLOCK_SIZE + OVERHEAD;

/// A memory pool, by account: it says which block serves a request, and holds no bytes itself.
///
/// Contracts see its bytes, its block sizes, the blocks cut so far in order of their numbers, each
/// with its class and whether it is out, and the counts of blocks drawn and of puts refused. A
/// class is a block size, by its place.
pub struct Pool {
    // The block sizes.
    sizes: BlockSizes,
    // The most bytes that the pool can be set to, for which there is room.
    most: u32,
    // The pool's bytes.
    bytes: u32,
    // The bytes never cut.
    rest: u32,
    // The sizes of the blocks that are out, added up.
    in_use: u32,
    // How many blocks are out.
    out: u32,
    // How many blocks were drawn; it stops at the largest number.
    requests: u32,
    // How many puts were refused; it stops at the largest number.
    errors: u32,
    // The class of the block drawn last, which is looked at first; the first class before a draw.
    recent: u32,
    // The blocks cut, by number. There is room for all that can be cut.
    blocks: Vec<CutBlock>,
    // If each block begins, in bytes from the pool's first on, by the block's number. There is
    // room for all that can be cut.
    offsets: Vec<u32>,
    // How many blocks of each class were cut.
    made: Vec<u32>,
    // The free blocks of each class.
    free: Lists,
}

impl Drop for Pool {
    fn drop(self) {
        let Pool {
            sizes: _sizes,
            most: _most,
            bytes: _bytes,
            rest: _rest,
            in_use: _in_use,
            out: _out,
            requests: _requests,
            errors: _errors,
            recent: _recent,
            blocks: _blocks,
            offsets: _offsets,
            made: _made,
            free: _free,
        } = self;
    }
}

impl Model for Pool {
    ghost use Rattle.es_pool.specs.Pool.{PoolState};

    ghost Value = { PoolState };

    ghost use Rattle.es_pool.specs.Inside.{state_of, AreKept};

    ghost view = { state_of };

    ghost invariant = { AreKept };
}

impl Pool {
    /// A pool of `bytes` bytes with these block sizes, of which nothing is cut. By the code, all
    /// its memory is taken here.
    ///
    /// # Errors
    /// `AllocError` if memory runs out.
    pub fn new(alloc: Global, bytes: u32, sizes: BlockSizes) -> Result<Pool, AllocError>
        ensures { IfOk result
            (λ pool. pool ≡
            record {
              bytes = bytes;
              most = bytes;
              sizes = sizes;
              blocks = [];
              requests = 0;
              errors = 0;
            }) }
    {
        let classes = sizes.count();
        let room = bytes / (sizes.at(0) + OVERHEAD);
        let blocks = Vec::with_capacity(alloc, room as usize)?;
        let offsets = Vec::with_capacity(alloc, room as usize)?;
        let made = zeros(alloc, classes)?;
        let free = Lists::new(alloc, room, classes)?;
        Ok(Pool {
            sizes,
            most: bytes,
            bytes,
            rest: bytes,
            in_use: 0,
            out: 0,
            requests: 0,
            errors: 0,
            recent: 0,
            blocks,
            offsets,
            made,
            free,
        })
    }

    /// Sets the bytes of a pool of which nothing was cut, to at most what it was made with.
    pub fn set_bytes(&mut self, bytes: u32)
        requires uncut { self.old.blocks ≡ [] }
        requires within { bytes ≤ self.old.most }
        ensures { self.new ≡ record self.old { bytes = bytes } }
    {
        self.bytes = bytes;
        self.rest = bytes;
    }

    /// Whether `count` blocks for `size` bytes can be drawn, one after another.
    pub fn fits(&self, size: u32, count: u32) -> bool
        ensures { result ≡ fits self.now size count }
    {
        if count == 1 && self.fits_surely(size) {
            return true;
        }
        match self.class_for(size) {
            Some(class) => self.fits_class(class, count),
            None => false,
        }
    }

    /// Draws a block for `size` bytes: of the smallest block size that is large enough, a free one
    /// if there is one, otherwise one cut from the rest. A larger free block is never taken in
    /// its place. At most 8 steps.
    ///
    /// # Errors
    /// `ErrMemBlockSize` if and only if no block size is large enough, or no block is free and the
    /// rest is too small.
    pub fn get<L: Ledger>(&mut self, size: u32, steps: &mut Steps<L>) -> Result<BlockNo, EsStatus>
        ensures given { IsOk result ↔ IsTrue (fits self.old size 1) }
        ensures only_error { IfErr result (λ e. e ≡ EsStatus.ErrMemBlockSize) }
        ensures drawn { IfOk result (DrawsFor self.old self.new size) }
        ensures was_not_out { IfOk result (λ block. is_out self.old block ≡ false) }
        ensures is_out { IfOk result (λ block. is_out self.new block ≡ true) }
        ensures rest_sufficed { IfOk result
            (λ block. length self.old.blocks ≤ block →
            size_at self.new block + overhead ≤ rest_of self.old) }
        ensures unchanged { OnErr result (self.new ≡ self.old) }
        ensures cost { steps.new ≤ steps.old + 8 }
    {
        match self.try_draw(size, steps) {
            Some(block) => Ok(block),
            None => Err(EsStatus::ErrMemBlockSize),
        }
    }

    /// Draws a block as [`Pool::get`] does. None if and only if that one refuses, and then nothing
    /// changes. At most 8 steps.
    pub fn try_draw<L: Ledger>(&mut self, size: u32, steps: &mut Steps<L>) -> Option<BlockNo>
        ensures given { IsSome result ↔ IsTrue (fits self.old size 1) }
        ensures drawn { IfSome result (DrawsFor self.old self.new size) }
        ensures was_not_out { IfSome result (λ block. is_out self.old block ≡ false) }
        ensures is_out { IfSome result (λ block. is_out self.new block ≡ true) }
        ensures rest_sufficed { IfSome result
            (λ block. length self.old.blocks ≤ block →
            size_at self.new block + overhead ≤ rest_of self.old) }
        ensures unchanged { result ≡ None → self.new ≡ self.old }
        ensures cost { steps.new ≤ steps.old + 8 }
    {
        match self.class_for(size) {
            Some(class) => {
                if !self.fits_class(class, 1) {
                    return None;
                }
                if self.free.len(class) > 0 {
                    Some(self.reuse(class, steps))
                } else {
                    Some(self.cut(class))
                }
            }
            None => None,
        }
    }

    /// Gives a block back: it is then free in its own size. At most 8 steps. A refused put is
    /// counted.
    ///
    /// # Errors
    /// `BufferNotInPool` if and only if the block was never cut, `PoolBlockInvalid` if and only if
    /// it is free now.
    pub fn put<L: Ledger>(&mut self, block: BlockNo, steps: &mut Steps<L>) -> Result<(), EsStatus>
        ensures ok { IsOk result ↔ IsTrue (is_out self.old block) }
        ensures not_in_pool { (result ≡ Err EsStatus.BufferNotInPool) ↔
            (length self.old.blocks ≤ block) }
        ensures invalid { (result ≡ Err EsStatus.PoolBlockInvalid) ↔
            IsTrue (is_free self.old block) }
        ensures given_back { OnOk result (self.new ≡ given_back self.old block) }
        ensures refused { OnErr result
            (self.new ≡ record self.old { errors = counted self.old.errors }) }
        ensures cost { steps.new ≤ steps.old + 8 }
    {
        if self.blocks.len() <= block as usize {
            self.count_error();
            return Err(EsStatus::BufferNotInPool);
        }
        if !self.blocks[block as usize].out {
            self.count_error();
            return Err(EsStatus::PoolBlockInvalid);
        }
        self.take_back(block, steps);
        Ok(())
    }

    /// Counts one refused put: for a caller that itself refuses one which the pool wouldn't.
    pub fn count_error(&mut self)
        ensures { self.new ≡ record self.old { errors = counted self.old.errors } }
    {
        self.errors = self.errors.saturating_add(1);
    }

    /// The pool's figures: its bytes, the blocks drawn, the puts refused and the bytes never cut.
    pub fn stats(&self) -> PoolStats
        ensures { result ≡
            record {
              size = self.now.bytes;
              requests = self.now.requests;
              errors = self.now.errors;
              free = rest_of self.now;
            } }
    {
        PoolStats {
            size: self.bytes,
            requests: self.requests,
            errors: self.errors,
            free: self.rest,
        }
    }

    /// How many block sizes the pool has, 1 to 17.
    pub fn classes(&self) -> u32
        ensures { result ≡ length self.now.sizes }
    {
        self.sizes.count()
    }

    /// The figures of a block size, by its place.
    pub fn class(&self, i: u32) -> ClassStats
        requires { i < length self.now.sizes }
        ensures { result ≡
            record {
              size = slice_index self.now.sizes i;
              made = made_in self.now.blocks i;
              free = free_in self.now.blocks i;
            } }
    {
        ClassStats {
            size: self.sizes.at(i),
            made: self.made[i as usize],
            free: self.free.len(i),
        }
    }

    /// The class of a block; None if and only if it was never cut.
    pub fn class_of(&self, block: BlockNo) -> Option<u32>
        ensures cut { IsSome result ↔ (block < length self.now.blocks) }
        ensures class { IfSome result (λ class. class ≡ class_at self.now block) }
    {
        self.blocks
            .get(block as usize)
            .map(|cut| u32::from(cut.class))
    }

    /// The sizes of the blocks that are out, added up, in bytes.
    pub fn bytes_in_use(&self) -> u32
        ensures { result ≡ in_use_by self.now.sizes self.now.blocks }
    {
        self.in_use
    }

    /// How many blocks are out. By the code, takes a constant time.
    pub fn blocks_in_use(&self) -> u32
        ensures { result ≡ out_among self.now.blocks }
    {
        self.out
    }

    /// The size of a block that was cut, in bytes.
    pub fn size_of(&self, block: BlockNo) -> u32
        requires { block < length self.now.blocks }
        ensures { result ≡ size_at self.now block }
    {
        self.sizes.at(u32::from(self.blocks[block as usize].class))
    }

    /// Where a block that was cut begins, in bytes from the pool's first byte on. It stays there as
    /// long as the pool lives, and no other block has a byte in common with it
    /// ([`blocks_lie_apart`](crate::blocks_lie_apart)). By the code, it is looked up.
    pub fn offset_of(&self, block: BlockNo) -> u32
        requires { block < length self.now.blocks }
        ensures offset { result ≡ offset_at self.now block }
        ensures behind { overhead ≤ result }
        ensures within { result + size_at self.now block ≤ self.now.bytes }
    {
        self.offsets[block as usize]
    }

    /// How many blocks can ever be cut.
    pub fn most_blocks(&self) -> u32
        ensures { result ≡ most_cut self.now }
    {
        self.most / (self.sizes.at(0) + OVERHEAD)
    }

    /// What was cut is paid for by the pool's bytes, each block has one of the sizes, and no more
    /// blocks were cut than ever can be. Does nothing.
    pub fn recall_whole(&self)
        ensures { IsWhole self.now }
    {
        let _ = &self.blocks;
    }

    // The class for so many bytes. The class drawn last is tried first: messages of one size have
    // it. Otherwise it is searched for.
    fn class_for(&self, size: u32) -> Option<u32>
        ensures class { result ≡ class_of size self.now.sizes }
        ensures within { IfSome result (λ class. class < length self.now.sizes) }
    {
        let recent = self.recent;
        if self.is_class_for(recent, size) {
            return Some(recent);
        }
        self.sizes.class_of(size)
    }

    // Whether blocks of this class are those for so many bytes: they are large enough, and those of
    // the class before aren't.
    fn is_class_for(&self, class: u32, size: u32) -> bool
        requires { class < length self.now.sizes }
        ensures { IsTrue result → class_of size self.now.sizes ≡ Some class }
    {
        if size > self.sizes.at(class) {
            return false;
        }
        class == 0 || size > self.sizes.at(class - 1)
    }

    // Whether some size is large enough, and the rest holds a block of the largest that there may
    // be. Then a block fits, and neither its class nor the free blocks are looked for.
    fn fits_surely(&self, size: u32) -> bool
        ensures { IsTrue result → IsTrue (fits self.now size 1) }
    {
        if self.rest < MOST_COST {
            return false;
        }
        if size <= self.sizes.at(self.recent) {
            return true;
        }
        let last = self.sizes.count() - 1;
        size <= self.sizes.at(last)
    }

    // Whether `count` blocks of a class can be drawn.
    fn fits_class(&self, class: u32, count: u32) -> bool
        requires { class < length self.now.sizes }
        ensures { result ≡ fits_class self.now class count }
    {
        let free = self.free.len(class);
        if count <= free {
            return true;
        }
        let cost = self.sizes.at(class) + OVERHEAD;
        u64::from(cost) * u64::from(count - free) <= u64::from(self.rest)
    }

    // Draws a free block of a class.
    fn reuse<L: Ledger>(&mut self, class: u32, steps: &mut Steps<L>) -> BlockNo
        requires class { class < length self.old.sizes }
        requires some { 0 < free_in self.old.blocks class }
        ensures drawn { Draws self.old self.new class result }
        ensures was_not_out { is_out self.old result ≡ false }
        ensures was_cut { result < length self.old.blocks }
        ensures cost { steps.new ≤ steps.old + 4 }
    {
        match self.free.pop(class, steps) {
            Some(block) => {
                self.blocks[block as usize].out = true;
                self.in_use += self.sizes.at(class);
                self.out += 1;
                self.requests = self.requests.saturating_add(1);
                self.recent = class;
                block
            }
            None => ruled_out!(),
        }
    }

    // Cuts a block of a class from the rest.
    fn cut(&mut self, class: u32) -> BlockNo
        requires class { class < length self.old.sizes }
        requires none { free_in self.old.blocks class ≡ 0 }
        requires fits { IsTrue (fits_class self.old class 1) }
        ensures drawn { Draws self.old self.new class result }
        ensures was_not_out { is_out self.old result ≡ false }
        ensures rest_sufficed { size_at self.new result + overhead ≤ rest_of self.old }
    {
        let size = self.sizes.at(class);
        let block = self.free.add_node();
        self.blocks.push_reserved(CutBlock {
            class: class as u8,
            out: true,
        });
        let offset = self.bytes - self.rest + OVERHEAD;
        self.offsets.push_reserved(offset);
        self.made[class as usize] += 1;
        self.rest -= size + OVERHEAD;
        self.in_use += size;
        self.out += 1;
        self.requests = self.requests.saturating_add(1);
        self.recent = class;
        block
    }

    /// Puts a block that is out to the free ones of its class: [`Pool::put`] without its tests. At
    /// most 4 steps.
    pub fn take_back<L: Ledger>(&mut self, block: BlockNo, steps: &mut Steps<L>)
        requires { IsTrue (is_out self.old block) }
        ensures given_back { self.new ≡ given_back self.old block }
        ensures cost { steps.new ≤ steps.old + 4 }
    {
        let class = u32::from(self.blocks[block as usize].class);
        self.blocks[block as usize].out = false;
        self.in_use -= self.sizes.at(class);
        self.out -= 1;
        self.free.push(class, block, steps);
    }
}
