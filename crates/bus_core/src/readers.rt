//! What the core tells of its pool, and of the blocks and loans of messages.
ghost use Rattle.std.specs.Prelude.{◌≡◌, ℕ, Some, All, AllPairs, length, sum_by};
ghost use Rattle.std.specs.Option.{option_map};
ghost use Rattle.es_pool.specs.Account.{IsAccountOf};
ghost use Rattle.es_pool.specs.Pool.{in_use_by};
ghost use Rattle.bus_words.specs.Bus.{Item, pipe_at};
ghost use Rattle.bus_words.specs.Held.{account_of, items_of, held, block_of};
ghost use Rattle.bus_messages.specs.Blocks.{IsGiven, AreOfOneSend, AreBlocks, IsBlockPool};
ghost use Rattle.bus_words.specs.Pipes.{last_on};
ghost use Rattle.bus_messages.specs.Words.{loan_of};

use crate::plain::PlainBus;
use buf_desc::Desk;
use es_pool::Pool;

impl<'r> PlainBus<'r> {
    /// The version of its configuration: 1 or 2, which has one option bit of pipes more.
    pub fn version(&self) -> u32
        ensures { result ≡ self.now.limits.version }
    {
        self.config.version
    }

    /// How many messages wait on the live pipe of this number, of any application; None if no such
    /// pipe is live. It is no call of the bus, and nothing is counted.
    pub fn waiting_count(&self, pipe: u32) -> Option<u32>
        ensures { result ≡
            option_map (λ it. length it.queue) (pipe_at self.now.whole.bus.pipes pipe) }
    {
        self.store.waiting_count(pipe)
    }

    /// The blocks of messages and of unsent buffers: one for each number that is held, and no
    /// others.
    pub fn desk(&self) -> &Desk<'r>
        ensures blocks { AreBlocks result.now self.now.whole.bus.pipes self.now.loans
            self.now.whole.bus.unsent self.now.descs }
        ensures account { IsAccountOf result.now.pool
            (account_of self.now.limits self.now.whole.bus) }
    {
        // Does nothing; the proof learns of it which blocks are out.
        self.store.recall_held();
        self.store.desk()
    }

    /// The pool that the blocks of `desk` are drawn from: its bytes in use are those of the blocks
    /// for the numbers that are held, one for each.
    pub fn pool(&self) -> &Pool
        ensures blocks { IsBlockPool result.now self.now.whole.bus.pipes self.now.loans
            self.now.whole.bus.unsent self.now.descs }
        ensures account { IsAccountOf result.now
            (account_of self.now.limits self.now.whole.bus) }
        ensures in_use { in_use_by result.now.sizes result.now.blocks ≡
            sum_by
            (block_of self.now.limits.sizes self.now.whole.bus.pipes self.now.whole.bus.unsent)
            (held self.now.whole.bus.pipes self.now.whole.bus.unsent
            self.now.whole.bus.numbers_given) }
    {
        // Does nothing; the proof learns of it which blocks are out.
        self.store.recall_held();
        self.store.pool()
    }

    /// The last messages of two pipes have one loan if they are of one send: there is one block
    /// for it, which both lend. Does nothing.
    pub fn recall_loans(&self)
        ensures { (pipe other : ℕ) (item its : Item) →
            last_on self.now.whole.bus.pipes pipe ≡ Some item →
            last_on self.now.whole.bus.pipes other ≡ Some its → item.number ≡ its.number →
            loan_of self.now.loans pipe ≡ loan_of self.now.loans other }
    {
        self.store.recall_loans();
    }

    /// Each message on the pipes, waiting or received last, has one of the send numbers that were
    /// given; and two of one number are copies of one send. Does nothing.
    pub fn recall_sends(&self)
        ensures given { All (λ item. IsGiven self.now.whole.bus.numbers_given item.number)
            (items_of self.now.whole.bus.pipes) }
        ensures alike { AllPairs AreOfOneSend (items_of self.now.whole.bus.pipes) }
    {
        self.store.recall_sends();
    }
}
