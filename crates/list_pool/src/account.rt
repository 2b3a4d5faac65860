//! The account of a memory pool.
ghost use Rattle.std.specs.Prelude.{◌≡◌, ◌+◌, ◌-◌, ◌*◌, ◌<◌, ◌≤◌, ◌^◌, nat_le, length, replicate, slice_index, IsTrue, IfOk, IfSome};
ghost use Rattle.fsw_base.specs.Blocks.{are_block_sizes, class_of};
ghost use Rattle.fsw_base.specs.PoolAccounts.{cost_of, overhead, has_room, has_room_for, after_draws, after_return};

use crate::numbers::zeros;
use fsw_base::BlockSizes;
use std::alloc::{AllocError, Global};
use std::marker::Model;

/// What cutting a block costs beyond its size, in bytes.
pub(crate) const OVERHEAD: u32 = 16;

/// A memory pool by numbers alone: of each block size how many blocks were made, which is the
/// greatest number that were ever out at once, and how many are out.
#[derive(Drop)]
pub struct ListAccount {
    // The pool's bytes.
    bytes: u32,
    // Its block sizes.
    sizes: BlockSizes,
    // How many blocks of each size were made.
    made: Vec<u32>,
    // How many blocks of each size are out.
    out: Vec<u32>,
    // How many blocks were drawn; it stops at the largest number.
    requests: u32,
    // How many returns were refused; it stops at the largest number.
    errors: u32,
}

impl Model for ListAccount {
    ghost use Rattle.fsw_base.specs.PoolAccounts.{Account};

    ghost Value = { Account };

    ghost use Rattle.list_pool.specs.Inside.{account_of, HasAllNumbers};

    ghost view = { account_of };

    ghost invariant = { HasAllNumbers };
}

impl ListAccount {
    /// The account of a pool of so many bytes with these block sizes, of which nothing was made.
    ///
    /// # Errors
    /// `AllocError` if memory runs out.
    pub fn new(alloc: Global, bytes: u32, sizes: &BlockSizes) -> Result<ListAccount, AllocError>
        ensures { IfOk result (λ account. account ≡
            record {
              bytes = bytes;
              sizes = sizes.now;
              made = replicate (length sizes.now) 0;
              out = replicate (length sizes.now) 0;
              requests = 0;
              errors = 0;
            }) }
    {
        let classes = sizes.count();
        let made = zeros(alloc, classes)?;
        let out = zeros(alloc, classes)?;
        Ok(ListAccount {
            bytes,
            sizes: sizes.again(),
            made,
            out,
            requests: 0,
            errors: 0,
        })
    }

    /// The account with these numbers, for those who keep them in another way: of each block size
    /// how many blocks were made and how many are out, how many were drawn, and how many returns
    /// were refused.
    pub fn read(
        bytes: u32,
        sizes: BlockSizes,
        made: Vec<u32>,
        out: Vec<u32>,
        requests: u32,
        errors: u32,
    ) -> ListAccount
        requires made { length made.items ≡ length sizes }
        requires out { length out.items ≡ length sizes }
        ensures { result ≡
            record {
              bytes = bytes;
              sizes = sizes;
              made = made.items;
              out = out.items;
              requests = requests;
              errors = errors;
            } }
    {
        let _ = sizes.count();
        ListAccount {
            bytes,
            sizes,
            made,
            out,
            requests,
            errors,
        }
    }

    /// The place of the smallest block size that holds `size` bytes; None if and only if none does.
    pub fn class_of(&self, size: u32) -> Option<u32>
        ensures class { result ≡ class_of size self.now.sizes }
        ensures within { IfSome result (λ class. class < length self.now.sizes) }
    {
        self.sizes.class_of(size)
    }

    /// Whether so many more blocks of a size, which is told by its place, can be out at once.
    pub fn has_room_for(&self, class: u32, count: u32) -> bool
        requires { class < length self.now.sizes }
        ensures { result ≡ has_room_for self.now class count }
    {
        let wanted = u64::from(self.out[class as usize]) + u64::from(count);
        has_room_in(self.bytes, &self.sizes, &self.made, class, wanted)
    }

    /// Whether there is a block for `size` bytes: some block size is large enough, and one more
    /// block of the smallest such size can be out.
    pub fn has_room(&self, size: u32) -> bool
        ensures { result ≡ has_room self.now size }
    {
        match self.class_of(size) {
            Some(class) => self.has_room_for(class, 1),
            None => false,
        }
    }

    /// So many more blocks of a size are out.
    pub fn draw(&mut self, class: u32, count: u32)
        requires class { class < length self.old.sizes }
        requires room { IsTrue (has_room_for self.old class count) }
        ensures { self.new ≡ after_draws self.old class count }
    {
        let place = class as usize;
        let out = self.out[place] + count;
        let made = self.made[place].max(out);
        self.out[place] = out;
        self.made[place] = made;
        self.requests = self.requests.saturating_add(count);
    }

    /// One block of the size at a place fewer is out; nothing changes if there is no such place.
    pub fn give_back(&mut self, class: u32)
        ensures { self.new ≡ after_return self.old class }
    {
        let place = class as usize;
        if place < self.out.len() {
            let out = self.out[place].saturating_sub(1);
            self.out[place] = out;
        }
    }

    /// The pool's bytes.
    pub fn bytes(&self) -> u32
        ensures { result ≡ self.now.bytes }
    {
        self.bytes
    }

    /// The bytes of which no block was made.
    pub fn free(&self) -> u32
        ensures { result ≡ self.now.bytes - cost_of self.now.made self.now.sizes }
    {
        free_of(self.bytes, &self.sizes, &self.made)
    }

    /// How many blocks were drawn.
    pub fn requests(&self) -> u32
        ensures { result ≡ self.now.requests }
    {
        self.requests
    }

    /// How many returns were refused.
    pub fn errors(&self) -> u32
        ensures { result ≡ self.now.errors }
    {
        self.errors
    }

    /// The block sizes, in bytes.
    pub fn sizes(&self) -> &BlockSizes
        ensures { result.now ≡ self.now.sizes }
    {
        &self.sizes
    }

    /// How many blocks of the size at a place were made.
    pub fn made_at(&self, class: u32) -> u32
        requires { class < length self.now.sizes }
        ensures { result ≡ slice_index self.now.made class }
    {
        self.made[class as usize]
    }

    /// How many blocks of the size at a place are out.
    pub fn out_at(&self, class: u32) -> u32
        requires { class < length self.now.sizes }
        ensures { result ≡ slice_index self.now.out class }
    {
        self.out[class as usize]
    }
}

/// Whether in a pool of `bytes` bytes with these block sizes, of which so many blocks of each size
/// were made, `wanted` blocks of the size at a place can be out at once.
pub fn has_room_in(bytes: u32, sizes: &BlockSizes, made: &Vec<u32>, class: u32, wanted: u64) -> bool
    requires all { length made.now.items ≡ length sizes.now }
    requires class { class < length sizes.now }
    requires few { wanted ≤ 2 ^ 33 }
    ensures { result ≡
        nat_le
        (cost_of made.now.items sizes.now +
        (slice_index sizes.now class + overhead) *
        (wanted - slice_index made.now.items class))
        bytes }
{
    let taken = cost_of(made, sizes);
    let more = wanted.saturating_sub(u64::from(made[class as usize]));
    let cost = u64::from(sizes.at(class) + OVERHEAD) * more;
    taken + cost <= u64::from(bytes)
}

/// The bytes that are left of so many, if so many blocks of each size were made.
pub(crate) fn free_of(bytes: u32, sizes: &BlockSizes, made: &Vec<u32>) -> u32
    requires { length made.now.items ≡ length sizes.now }
    ensures { result ≡ bytes - cost_of made.now.items sizes.now }
{
    u64::from(bytes).saturating_sub(cost_of(made, sizes)) as u32
}

// What the blocks made took: for each its size and the overhead. At most 17 sizes have 32 bits of
// blocks of at most 80000 bytes each.
fn cost_of(made: &Vec<u32>, sizes: &BlockSizes) -> u64
    requires { length made.now.items ≡ length sizes.now }
    ensures value { result ≡ cost_of made.now.items sizes.now }
    ensures few { result ≤ 17 * (2 ^ 32 * 80016) }
    ensures fit { IsTrue (are_block_sizes sizes.now) }
{
    let mut cost = 0;
    for class in 0..sizes.count() {
        cost += block_cost(made[class as usize], sizes.at(class));
    }
    cost
}

// What so many blocks of a size took.
fn block_cost(count: u32, size: u32) -> u64
    requires { size ≤ 80000 }
    ensures value { result ≡ count * (size + overhead) }
    ensures few { result ≤ 2 ^ 32 * 80016 }
{
    u64::from(count) * u64::from(size + OVERHEAD)
}
