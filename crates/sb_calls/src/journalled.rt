//! The core: what it keeps, how it opens, and what it tells.
ghost use Rattle.std.specs.Prelude.{◌≡◌, ◌<◌, ◌≤◌, [], length, sum_by, All, AllPairs, Some, slice_get, IfOk};
ghost use Rattle.fsw_base.specs.Limits.{limits_of};
ghost use Rattle.journal_store.specs.Budgets.{AreBudgets, allowance_of};
ghost use Rattle.es_pool.specs.Account.{IsAccountOf};
ghost use Rattle.es_pool.specs.Pool.{in_use_by};
ghost use Rattle.bus_words.specs.Held.{account_of, items_of, held, block_of};
ghost use Rattle.bus_words.specs.Log.{left_of};
ghost use Rattle.sb_calls.specs.Core.{IsLegalCore, IsNoted, StandAlone, apps_of, state_of};
ghost use Rattle.bus_messages.specs.Blocks.{IsGiven, AreOfOneSend, AreBlocks, IsBlockPool};
ghost use Rattle.sb_calls.specs.Bags.{AreOneLoan, loans_of, descs_of};

use crate::noted::NotedJournal;
use buf_desc::Desk;
use bus_core::PlainBus;
use bus_words::BusJournal;
use es_pool::Pool;
use fsw_base::{AppNo, Budget, Config};
use lend_block::Note;
use std::alloc::{AllocError, Global};
use std::marker::Model;

/// The software bus of up to 16 applications, with its journal. By the code, all its memory is
/// taken when it is made.
pub struct BusCore<'r> {
    // The bus after the journal's entries.
    pub(crate) core: PlainBus<'r>,
    // Every call with its answer, in order, and what it gave: the loan of a view, or a buffer's
    // descriptor.
    pub(crate) noted: NotedJournal,
}

impl Drop for BusCore<'_> {
    fn drop(self) {
        let BusCore {
            core: _core,
            noted: _noted,
        } = self;
    }
}

impl<'r> Model for BusCore<'r> {
    ghost use Rattle.sb_calls.specs.Core.{Core};

    ghost Value = { Core };

    ghost use Rattle.sb_calls.specs.Inside.{core_of, Stands};

    ghost view = { core_of };

    ghost invariant = { Stands };
}

impl<'r> BusCore<'r> {
    /// A bus on which no call was made, for the applications 1, 2, 3 and so on that have these
    /// budgets: 1 to 16 of them, whose entries, bytes and buffers each add up to less than 2^32.
    /// The blocks of its pool are cut from the region, which has at least the pool's bytes.
    ///
    /// # Errors
    /// If memory runs out.
    pub fn new(
        alloc: Global,
        cfg: &Config,
        budgets: &[Budget],
        region: &'r mut [u8],
    ) -> Result<BusCore<'r>, AllocError>
        requires budgets { AreBudgets budgets.now }
        requires region { cfg.now.pool ≤ length region.old }
        ensures { IfOk result
            (λ core. core ≡
            record {
              limits = limits_of cfg.now;
              log = record { budgets = budgets.now; entries = [] };
              notes = [];
            }) }
    {
        // The core is made last: every way out behind it lets it go, which is proved each time.
        Ok(BusCore {
            noted: NotedJournal::new(alloc, budgets)?,
            core: PlainBus::new(alloc, cfg, budgets.len(), region)?,
        })
    }

    /// The version of its configuration: 1 or 2, which has one option bit of pipes more.
    pub fn version(&self) -> u32
        ensures { result ≡ self.now.limits.version }
    {
        self.core.version()
    }

    /// How many applications it serves, 1 to 16.
    pub fn apps(&self) -> u32
        ensures { result ≡ apps_of self.now }
    {
        self.noted.journal().apps()
    }

    /// How many entries the application may still add to the journal.
    pub fn entries_left(&self, app: AppNo) -> u32
        requires { app ≤ apps_of self.now }
        ensures { result ≡ (allowance_of (left_of self.now.log) app).entries }
    {
        self.noted.journal().left(app).entries
    }

    /// How many bytes of names, messages and buffers the application may still add to the journal.
    pub fn bytes_left(&self, app: AppNo) -> u32
        requires { app ≤ apps_of self.now }
        ensures { result ≡ (allowance_of (left_of self.now.log) app).bytes }
    {
        self.noted.journal().left(app).bytes
    }

    /// Every call with its answer, in order. What each pipe gave its owner is what that pipe alone
    /// gives: no other pipe's depth, limits or overflow matter to it. Pipes whose last messages are
    /// of one send were given views of one loan.
    pub fn journal(&self) -> &BusJournal
        ensures journal { result.now ≡ self.now.log }
        ensures legal { IsLegalCore self.now }
        ensures alone { StandAlone self.now }
        ensures noted { IsNoted self.now }
        ensures loans { AreOneLoan self.now }
    {
        // Does nothing; the proof learns of it that there is one block for a send.
        self.core.recall_loans();
        self.noted.journal()
    }

    /// What was noted beside the journal's entry of this number, from 0: if its call gave a
    /// message, the loan of the view that was given; if it gave a buffer, the descriptor of the
    /// block; else nothing.
    pub fn note(&self, i: u32) -> Note
        requires { i < length self.now.log.entries }
        ensures { Some result ≡ slice_get self.now.notes i }
    {
        self.noted.note(i)
    }

    /// The pool that the blocks of `desk` are drawn from. As many blocks of each size are out as
    /// numbers are held whose block has that size: by a pipe that names the send, or by an unsent
    /// buffer. Its bytes in use are those of these blocks.
    pub fn pool(&self) -> &Pool
        ensures blocks { IsBlockPool result.now (state_of self.now).pipes (loans_of self.now)
            (state_of self.now).unsent (descs_of self.now) }
        ensures account { IsAccountOf result.now
            (account_of self.now.limits (state_of self.now)) }
        ensures in_use { in_use_by result.now.sizes result.now.blocks ≡
            sum_by (block_of self.now.limits.sizes (state_of self.now).pipes
            (state_of self.now).unsent)
            (held (state_of self.now).pipes (state_of self.now).unsent
            (state_of self.now).numbers_given) }
    {
        self.core.pool()
    }

    /// The blocks of messages and buffers: one for each number that is held, and no others. Each is
    /// lent by the loan that was noted if its message was given, or has the descriptor that was
    /// noted if the buffer was.
    pub fn desk(&self) -> &Desk<'r>
        ensures blocks { AreBlocks result.now (state_of self.now).pipes (loans_of self.now)
            (state_of self.now).unsent (descs_of self.now) }
        ensures account { IsAccountOf result.now.pool
            (account_of self.now.limits (state_of self.now)) }
    {
        self.core.desk()
    }

    /// Each message on the pipes, waiting or received last, has one of the send numbers that were
    /// given; and two of one number are copies of one send. Does nothing.
    pub fn recall_sends(&self)
        ensures given { All (λ item. IsGiven (state_of self.now).numbers_given item.number)
            (items_of (state_of self.now).pipes) }
        ensures alike { AllPairs AreOfOneSend (items_of (state_of self.now).pipes) }
    {
        self.core.recall_sends();
    }
}
