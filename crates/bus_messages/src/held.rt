//! Which numbers are held, and which blocks that takes.
ghost use Rattle.std.specs.Prelude.{◌≡◌, ℕ, true, List, Some, All, AllPairs, length, sum_by};
ghost use Rattle.bus_words.specs.Bus.{Item, Pipe, Buffer, owns};
ghost use Rattle.bus_words.specs.Held.{items_of, held, block_of, bytes_in_use};
ghost use Rattle.es_pool.specs.Account.{IsAccountOf};
ghost use Rattle.es_pool.specs.Pool.{in_use_by};
ghost use Rattle.lend_block.specs.Loan.{LentBytes};
ghost use Rattle.buf_desc.specs.Desk.{Buffers};
ghost use Rattle.buf_desc.specs.Held.{Holding, view_at};
ghost use Rattle.bus_messages.specs.Bag.{HoldsViews};
ghost use Rattle.bus_messages.specs.Store.{LastLoan, BufferDesc};
ghost use Rattle.bus_messages.specs.Blocks.{IsGiven, AreOfOneSend, AreBlocks, IsBlockPool};
ghost use Rattle.bus_words.specs.Pipes.{last_on};
ghost use Rattle.bus_messages.specs.Words.{loan_of, with_held};

use crate::store::BusStore;
use buf_desc::Desk;
use es_pool::Pool;

/// Two applications whose pipes received one send last have the same view of it in their bags: the
/// same bytes by the same loan. Does nothing.
pub fn receivers_share_views()
    ensures { (buffers : Buffers) (pipes : List Pipe) (loans : List LastLoan)
        (unsent : List (List Buffer)) (descs : List BufferDesc) (most app other pipe its : ℕ)
        (bag another : Holding LentBytes) (item same : Item) →
        AreBlocks buffers pipes loans unsent descs → HoldsViews pipes loans most app bag →
        HoldsViews pipes loans most other another → owns pipes app pipe ≡ true →
        owns pipes other its ≡ true → last_on pipes pipe ≡ Some item →
        last_on pipes its ≡ Some same → item.number ≡ same.number →
        view_at bag pipe ≡ view_at another its }
{}

impl<'r> BusStore<'r> {
    /// As many blocks of each size are out as numbers are held whose block has that size: each
    /// number that is held, of a send or of an unsent buffer, has one block, and there are no
    /// others. Does nothing.
    pub fn recall_held(&self)
        ensures { self.now.account ≡
            with_held self.now.account self.now.pipes self.now.unsent self.now.numbers_given }
    {
        self.desk.recall_live();
    }

    /// How many numbers are held, of sends and of unsent buffers: as many blocks are out, one for
    /// each. By the code, takes a constant time.
    pub fn sends_held(&self) -> u32
        ensures { result ≡
            length (held self.now.pipes self.now.unsent self.now.numbers_given) }
    {
        // Does nothing; the proof learns of it, here and below, which blocks are out.
        self.desk.recall_live();
        self.desk.pool().blocks_in_use()
    }

    /// The sizes of the blocks that are out, added up, in bytes. By the code, takes a constant
    /// time.
    pub fn bytes_in_use(&self) -> u32
        ensures { result ≡ bytes_in_use self.now.account }
    {
        self.desk.recall_live();
        self.desk.pool().bytes_in_use()
    }

    /// The last messages of two pipes have one loan if they are of one send: there is one block
    /// for it, which both lend. Does nothing.
    pub fn recall_loans(&self)
        ensures { (pipe other : ℕ) (item its : Item) → last_on self.now.pipes pipe ≡ Some item →
            last_on self.now.pipes other ≡ Some its → item.number ≡ its.number →
            loan_of self.now.loans pipe ≡ loan_of self.now.loans other }
    {
        let _ = &self.desk;
    }

    /// Each message on the pipes, waiting or received last, has one of the send numbers that were
    /// given; and two of one number are copies of one send. Does nothing.
    pub fn recall_sends(&self)
        ensures given { All (λ item. IsGiven self.now.numbers_given item.number)
            (items_of self.now.pipes) }
        ensures alike { AllPairs AreOfOneSend (items_of self.now.pipes) }
    {
        let _ = &self.desk;
    }

    /// The blocks of messages and of unsent buffers: one for each number that is held, and no
    /// others.
    pub fn desk(&self) -> &Desk<'r>
        ensures blocks { AreBlocks result.now self.now.pipes self.now.loans self.now.unsent
            self.now.descs }
        ensures account { IsAccountOf result.now.pool self.now.account }
    {
        // Does nothing; the proof learns of it that each sealed block has the pool's size for it.
        self.desk.recall_live();
        &self.desk
    }

    /// The pool that the blocks of `desk` are drawn from: its bytes in use are those of the blocks
    /// for the numbers that are held, one for each.
    pub fn pool(&self) -> &Pool
        ensures blocks { IsBlockPool result.now self.now.pipes self.now.loans self.now.unsent
            self.now.descs }
        ensures account { IsAccountOf result.now self.now.account }
        ensures in_use { in_use_by result.now.sizes result.now.blocks ≡
            sum_by (block_of self.now.account.sizes self.now.pipes self.now.unsent)
            (held self.now.pipes self.now.unsent self.now.numbers_given) }
    {
        // Does nothing; the proof learns of it which blocks are out.
        self.desk.recall_live();
        self.desk.pool()
    }
}
