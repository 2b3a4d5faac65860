//! A plain, slow pool: the account alone, as one would write it on paper. The pool is measured
//! against it.
ghost use Rattle.std.specs.Prelude.{◌≡◌, ℕ, ◌+◌, ◌<◌, ◌≤◌, ◌^◌, ◌-◌, ◌↔◌, Some, length, slice_index, replicate, IsTrue, IsOk, IfOk, IfErr, OnErr};
ghost use Rattle.fsw_base.specs.Blocks.{class_of};
ghost use Rattle.fsw_base.specs.PoolAccounts.{Account, cost_of, has_room, has_room_for, after_draw, after_return, after_refusal};

use crate::blocks::{OVERHEAD, zeros};
use fsw_base::{BlockSizes, EsStatus, PoolStats};
use std::alloc::{AllocError, Global};
use std::marker::Model;

/// A pool that keeps two numbers for each block size: how many blocks are out, and the greatest
/// number that ever were. It adds up what was made at each request, so it is slow; it has no block
/// numbers and no free lists.
pub struct PlainPool {
    // The pool's bytes.
    bytes: u32,
    // The block sizes.
    sizes: BlockSizes,
    // Of each class, the greatest number of blocks that were ever out at once.
    made: Vec<u32>,
    // Of each class, how many blocks are out.
    out: Vec<u32>,
    // How many blocks were drawn; it stops at the largest number.
    requests: u32,
    // How many puts were refused; it stops at the largest number.
    errors: u32,
}

impl Drop for PlainPool {
    fn drop(self) {
        let PlainPool {
            bytes: _bytes,
            sizes: _sizes,
            made: _made,
            out: _out,
            requests: _requests,
            errors: _errors,
        } = self;
    }
}

impl Model for PlainPool {
    ghost use Rattle.fsw_base.specs.PoolAccounts.{Account};

    ghost Value = { Account };

    ghost use Rattle.es_pool.specs.Inside.{account_of, AreBalanced};

    ghost view = { account_of };

    ghost invariant = { AreBalanced };
}

impl PlainPool {
    /// A pool of `bytes` bytes with these block sizes, of which nothing was made.
    ///
    /// # Errors
    /// `AllocError` if memory runs out.
    pub fn new(alloc: Global, bytes: u32, sizes: BlockSizes) -> Result<PlainPool, AllocError>
        ensures { IfOk result
            (λ pool. pool ≡
            record {
              bytes = bytes;
              sizes = sizes;
              made = replicate (length sizes) 0;
              out = replicate (length sizes) 0;
              requests = 0;
              errors = 0;
            }) }
    {
        let classes = sizes.count();
        let made = zeros(alloc, classes)?;
        let out = zeros(alloc, classes)?;
        Ok(PlainPool {
            bytes,
            sizes,
            made,
            out,
            requests: 0,
            errors: 0,
        })
    }

    /// Draws a block for `size` bytes, and answers its class.
    ///
    /// # Errors
    /// `ErrMemBlockSize` if and only if no block size is large enough, or there is no room for one
    /// more block.
    pub fn get(&mut self, size: u32) -> Result<u32, EsStatus>
        ensures given { IsOk result ↔ IsTrue (has_room self.old size) }
        ensures only_error { IfErr result (λ e. e ≡ EsStatus.ErrMemBlockSize) }
        ensures class { IfOk result (λ class. class_of size self.old.sizes ≡ Some class) }
        ensures drawn { IfOk result (λ class. self.new ≡ after_draw self.old class) }
        ensures unchanged { OnErr result (self.new ≡ self.old) }
    {
        match self.sizes.class_of(size) {
            Some(class) => {
                if !self.has_room_for(class) {
                    return Err(EsStatus::ErrMemBlockSize);
                }
                self.draw(class);
                Ok(class)
            }
            None => Err(EsStatus::ErrMemBlockSize),
        }
    }

    /// Gives back a block of a class.
    pub fn put(&mut self, class: u32)
        requires class { class < length self.old.sizes }
        requires out { 0 < slice_index self.old.out class }
        ensures { self.new ≡ after_return self.old class }
    {
        self.out[class as usize] -= 1;
    }

    /// Counts one refused put.
    pub fn count_error(&mut self)
        ensures { self.new ≡ after_refusal self.old }
    {
        self.errors = self.errors.saturating_add(1);
    }

    /// The pool's figures, added up anew.
    pub fn stats(&self) -> PoolStats
        ensures { result ≡
            record {
              size = self.now.bytes;
              requests = self.now.requests;
              errors = self.now.errors;
              free = self.now.bytes - cost_of self.now.made self.now.sizes;
            } }
    {
        PoolStats {
            size: self.bytes,
            requests: self.requests,
            errors: self.errors,
            free: self.bytes - cost_of(&self.made, &self.sizes),
        }
    }

    // Whether one more block of a class fits.
    fn has_room_for(&self, class: u32) -> bool
        requires { class < length self.now.sizes }
        ensures { result ≡ has_room_for self.now class 1 }
    {
        let bytes = u64::from(self.bytes);
        let missing = (self.out[class as usize] + 1).saturating_sub(self.made[class as usize]);
        let cost = u64::from(self.sizes.at(class) + OVERHEAD) * u64::from(missing);
        u64::from(cost_of(&self.made, &self.sizes)) + cost <= bytes
    }

    // Takes one more block of a class out.
    fn draw(&mut self, class: u32)
        requires class { class < length self.old.sizes }
        requires room { IsTrue (has_room_for self.old class 1) }
        ensures { self.new ≡ after_draw self.old class }
    {
        let place = class as usize;
        self.out[place] += 1;
        self.made[place] = self.made[place].max(self.out[place]);
        self.requests = self.requests.saturating_add(1);
    }
}

// What the blocks made took.
fn cost_of(made: &Vec<u32>, sizes: &BlockSizes) -> u32
    requires all { length made.now.items ≡ length sizes.now }
    requires fits { cost_of made.now.items sizes.now < 2 ^ 32 }
    ensures { result ≡ cost_of made.now.items sizes.now }
{
    let mut cost = 0;
    for class in 0..sizes.count() {
        cost += made[class as usize] * (sizes.at(class) + OVERHEAD);
    }
    cost
}
