//! One pool that hands out grants.
ghost use Rattle.std.specs.Prelude.{◌≡◌, ◌&&◌, nat_le, ◌+◌, ◌<◌, if◌then◌else◌, length, slice_index, IfOk, Some};
ghost use Rattle.std.specs.Result.{OnOk};
ghost use Rattle.fsw_base.specs.PoolAccounts.{has_room_for, after_draw};
ghost use Rattle.fsw_base.specs.Grants.{new_pool, get_answer, after_get, after_get_if, put_answer, after_put, after_end, figures_of, pool_account, is_among, without, of_others, out_of, blocks_out};

use crate::account::{ListAccount, free_of, has_room_in};
use crate::numbers::{narrow, zeros};
use fsw_base::{AppNo, BlockSizes, EsStatus, PoolStats};
use std::alloc::{AllocError, Global};
use std::marker::Model;

// A grant that is out.
#[derive(Clone, Copy)]
struct ListGrant {
    // Its number.
    number: u32,
    // The application that it was given to.
    app: AppNo,
    // Its block size, by place.
    class: u32,
}

impl Model for ListGrant {
    ghost use Rattle.fsw_base.specs.Grants.{Grant};

    ghost Value = { Grant };

    ghost view = { λ g. record { number = g.number; app = g.app; class = g.class } };

    ghost inverse = { λ g. record { number = g.number; app = g.app; class = g.class } };
}

/// A pool that an application created: its bytes and block sizes, its counts, and the grants that
/// are out, in order of number.
#[derive(Drop)]
pub struct GrantPool {
    // Its bytes.
    bytes: u32,
    // Its block sizes.
    sizes: BlockSizes,
    // How many blocks of each size were made.
    made: Vec<u32>,
    // How many blocks were drawn; it stops at the largest number.
    requests: u32,
    // How many returns were refused; it stops at the largest number.
    errors: u32,
    // How many grants it gave, which is the newest one's number.
    given: u32,
    // The grants that are out.
    out: Vec<ListGrant>,
}

impl Model for GrantPool {
    ghost use Rattle.fsw_base.specs.Grants.{PoolGrants};

    ghost Value = { PoolGrants };

    ghost use Rattle.list_pool.specs.Inside.{pool_of, HasMadeOfAll};

    ghost view = { pool_of };

    ghost invariant = { HasMadeOfAll };
}

impl GrantPool {
    /// A pool of so many bytes with these block sizes, that gave no grant.
    pub(crate) fn new(
        alloc: Global,
        bytes: u32,
        sizes: &BlockSizes,
    ) -> Result<GrantPool, AllocError>
        ensures { IfOk result (λ pool. pool ≡ new_pool sizes.now bytes) }
    {
        let made = zeros(alloc, sizes.count())?;
        Ok(GrantPool {
            bytes,
            sizes: sizes.again(),
            made,
            requests: 0,
            errors: 0,
            given: 0,
            out: Vec::new(alloc),
        })
    }

    /// Gives an application a grant of a block for `size` bytes.
    pub(crate) fn get(&mut self, app: AppNo, size: u32) -> Result<Result<u32, EsStatus>, AllocError>
        ensures answer { IfOk result (λ answer. answer ≡ get_answer self.old size) }
        ensures after { OnOk result (self.new ≡ after_get self.old app size) }
    {
        match self.sizes.class_of(size) {
            Some(class) => self.get_of(app, class),
            None => Ok(Err(EsStatus::ErrMemBlockSize)),
        }
    }

    // Gives an application a grant of a block of a size, which is told by its place.
    fn get_of(&mut self, app: AppNo, class: u32) -> Result<Result<u32, EsStatus>, AllocError>
        requires class { class < length self.old.sizes }
        ensures answer { IfOk result
            (λ answer. answer ≡
            (if has_room_for (pool_account self.old) class 1 then Ok (self.old.given + 1)
            else Err EsStatus.ErrMemBlockSize)) }
        ensures after { OnOk result (self.new ≡ after_get_if self.old app (Some class)) }
    {
        let wanted = self.one_more(class)?;
        if !self.has_room(class, wanted) {
            return Ok(Err(EsStatus::ErrMemBlockSize));
        }
        let number = self.given.checked_add(1).ok_or(AllocError)?;
        self.draw(class, wanted);
        self.out.push(ListGrant { number, app, class })?;
        self.given = number;
        Ok(Ok(number))
    }

    // One block of a size more than are out.
    #[tactic(auto, using(fsw_base::proofs::GrantAccounts::counts_at))]
    fn one_more(&self, class: u32) -> Result<u32, AllocError>
        requires { class < length self.now.sizes }
        ensures { IfOk result
            (λ wanted. wanted ≡ slice_index (pool_account self.now).out class + 1) }
    {
        let out = narrow(out_of(&self.out, class))?;
        out.checked_add(1).ok_or(AllocError)
    }

    // Whether one block of a size more than are out can be out at once.
    fn has_room(&self, class: u32, wanted: u32) -> bool
        requires class { class < length self.now.sizes }
        requires wanted { wanted ≡ slice_index (pool_account self.now).out class + 1 }
        ensures { result ≡ has_room_for (pool_account self.now) class 1 }
    {
        has_room_in(
            self.bytes,
            &self.sizes,
            &self.made,
            class,
            u64::from(wanted),
        )
    }

    // A block of a size is drawn, of which so many are out then.
    fn draw(&mut self, class: u32, wanted: u32)
        requires class { class < length self.old.sizes }
        requires wanted { wanted ≡ slice_index (pool_account self.old).out class + 1 }
        ensures { self.new ≡
            record self.old {
              made = (after_draw (pool_account self.old) class).made;
              requests = (after_draw (pool_account self.old) class).requests;
            } }
    {
        let place = class as usize;
        let made = self.made[place].max(wanted);
        self.made[place] = made;
        self.requests = self.requests.saturating_add(1);
    }

    /// Takes a grant back, whoever has it. A refused return is counted.
    pub(crate) fn put(&mut self, grant: u32) -> Result<(), EsStatus>
        ensures answer { result ≡ put_answer self.old grant }
        ensures after { self.new ≡ after_put self.old grant }
    {
        let is_known = was_given(self.given, grant);
        let was_out = self.take_back(grant);
        if !is_known {
            Err(EsStatus::BufferNotInPool)
        } else if !was_out {
            Err(EsStatus::PoolBlockInvalid)
        } else {
            Ok(())
        }
    }

    // Takes a grant back that is out, or counts a refused return; whether it was out.
    fn take_back(&mut self, grant: u32) -> bool
        ensures was_out { result ≡ is_among self.old.out grant }
        ensures after { self.new ≡ after_put self.old grant }
    {
        if is_out(&self.out, grant) {
            remove(&mut self.out, grant);
            true
        } else {
            self.errors = self.errors.saturating_add(1);
            false
        }
    }

    /// Takes back all grants of an application.
    pub(crate) fn end(&mut self, app: AppNo)
        ensures { self.new ≡ after_end app self.old }
    {
        leave_others(&mut self.out, app);
    }

    /// Its figures.
    pub(crate) fn figures(&self) -> PoolStats
        ensures { result ≡ figures_of self.now }
    {
        PoolStats {
            size: self.bytes,
            requests: self.requests,
            errors: self.errors,
            free: free_of(self.bytes, &self.sizes, &self.made),
        }
    }

    /// Its account: as many blocks of each size are out as grants that are out have one.
    ///
    /// # Errors
    /// `AllocError` if memory runs out, or if 4294967296 grants or more are out.
    #[tactic(auto, using(crate::proofs::Counts::counts_long))]
    pub fn account(&self, alloc: Global) -> Result<ListAccount, AllocError>
        ensures { IfOk result (λ account. account ≡ pool_account self.now) }
    {
        let made = Vec::from_slice(alloc, &self.made)?;
        let out = blocks_out(alloc, &self.sizes, &self.out)?;
        Ok(ListAccount::read(
            self.bytes,
            self.sizes.again(),
            made,
            out,
            self.requests,
            self.errors,
        ))
    }
}

// Whether a grant of this number was given, if so many were.
fn was_given(given: u32, number: u32) -> bool
    ensures { result ≡ (nat_le 1 number && nat_le number given) }
{
    1 <= number && number <= given
}

// Whether one of these grants has this number.
fn is_out(out: &[ListGrant], number: u32) -> bool
    ensures { result ≡ is_among out.now number }
{
    out.iter().any(|grant| grant.number == number)
}

// How many of these grants are of a block size, which is told by its place.
fn out_of(out: &[ListGrant], class: u32) -> u64
    ensures { result ≡ out_of class out.now }
{
    out.iter().filter(|grant| grant.class == class).count() as u64
}

// How many of these grants are of each block size.
fn blocks_out(alloc: Global, sizes: &BlockSizes, out: &[ListGrant]) -> Result<Vec<u32>, AllocError>
    ensures { IfOk result (λ counts. counts.items ≡ blocks_out sizes.now out.now) }
{
    let mut counts = Vec::new(alloc);
    for class in 0..sizes.count() {
        let count = narrow(out_of(out, class))?;
        counts.push(count)?;
    }
    Ok(counts)
}

// The grants but that of this number.
fn remove(out: &mut Vec<ListGrant>, number: u32)
    ensures { out.new.items ≡ without number out.old.items }
{
    out.retain(|grant| grant.number != number);
}

// The grants of the other applications.
fn leave_others(out: &mut Vec<ListGrant>, app: AppNo)
    ensures { out.new.items ≡ of_others app out.old.items }
{
    out.retain(|grant| grant.app != app);
}
