//! Pipes: what is asked of one, its creation, its option bits and its deletion.
ghost use Rattle.std.specs.Prelude.{◌≡◌, ℕ, ◌==◌, ◌+◌, ◌<◌, ◌≤◌, ◌^◌, ◌++◌, ◌∷◌, [], None, if◌then◌else◌, find, length, ◌≢◌, ◌*◌, true, not, filter};
ghost use Rattle.std.specs.Option.{option_map};
ghost use Rattle.bus_words.specs.Bus.{owns, pipe_at, pipe_named, with_pipe, with_bits};
ghost use Rattle.buf_desc.specs.Held.{Holding};
ghost use Rattle.lend_block.specs.Loan.{LentBytes};
ghost use Rattle.bus_messages.specs.Bag.{HoldsViews};
ghost use Rattle.bus_words.specs.Pipes.{IsRising, oldest_on, last_on, without_pipe};
ghost use Rattle.bus_messages.specs.Words.{loan_of, waiting_on, with_held};

use crate::store::BusStore;
use buf_desc::Held;
use bus_words::PipeText;
use fsw_base::AppNo;
use step_count::{Ledger, Steps};

impl<'r> BusStore<'r> {
    /// How many pipes are live, at most 256. By the code, takes a constant time.
    pub fn pipes_len(&self) -> usize
        ensures len { result ≡ length self.now.pipes }
        ensures few { result ≤ 256 }
    {
        self.tables.pipes_len()
    }

    /// How many pipes were created, which is the newest one's number.
    pub fn pipes_created(&self) -> u32
        ensures { result ≡ self.now.pipes_created }
    {
        self.tables.pipes_created()
    }

    /// Whether a pipe of this number is live and the application's.
    pub fn owns(&self, app: AppNo, number: u32) -> bool
        ensures { result ≡ owns self.now.pipes app number }
    {
        self.tables.owns(app, number)
    }

    /// The option bits of the live pipe of this number.
    pub fn bits(&self, number: u32) -> Option<u8>
        ensures { result ≡ option_map (λ pipe. pipe.bits) (pipe_at self.now.pipes number) }
    {
        self.tables.bits(number)
    }

    /// The name of the live pipe of this number.
    pub fn name(&self, number: u32) -> Option<PipeText>
        ensures { result ≡ option_map (λ pipe. pipe.name) (pipe_at self.now.pipes number) }
    {
        self.tables.name(number)
    }

    /// The number of the live pipe of this name.
    pub fn find(&self, name: &[u8]) -> Option<u32>
        ensures { result ≡ option_map (λ pipe. pipe.number) (pipe_named self.now.pipes name.now) }
    {
        self.tables.find(name)
    }

    /// How many messages wait on the live pipe of this number. None if no such pipe is live.
    pub fn waiting_count(&self, number: u32) -> Option<u32>
        ensures { result ≡ option_map (λ pipe. length pipe.queue) (pipe_at self.now.pipes number) }
    {
        self.tables.waiting_count(number)
    }

    /// The send number of the message that waits longest on the live pipe of this number.
    pub fn oldest(&self, number: u32) -> Option<u64>
        ensures { result ≡ option_map (λ item. item.number) (oldest_on self.now.pipes number) }
    {
        let item = self.tables.oldest(number)?;
        Some(item.number)
    }

    /// The send number of the message that was received last from the application's live pipe of
    /// this number.
    pub fn last(&self, app: AppNo, number: u32) -> Option<u64>
        ensures { result ≡
            (if owns self.now.pipes app number
            then option_map (λ item. item.number) (last_on self.now.pipes number)
            else None) }
    {
        let item = self.tables.last(app, number)?;
        Some(item.number)
    }

    /// The number of the live pipe that was created first of the application's.
    pub fn first_of(&self, app: AppNo) -> Option<u32>
        ensures { result ≡
            option_map (λ pipe. pipe.number) (find (λ pipe. pipe.owner == app) self.now.pipes) }
    {
        self.tables.first_of(app)
    }

    /// The live pipes stand in order of number. Does nothing.
    pub fn recall_order(&self)
        ensures { IsRising 0 self.now.pipes }
    {
        self.tables.recall_order();
    }

    /// Creates a pipe that holds up to `depth` messages, and answers its number: one more than were
    /// created.
    pub fn create_pipe(&mut self, name: &PipeText, owner: AppNo, depth: u32) -> u32
        requires room { length self.old.pipes < self.old.room.pipes }
        requires number { self.old.pipes_created + 1 < 2 ^ 32 }
        requires some { 1 ≤ depth }
        requires depth { depth ≤ self.old.room.depth }
        ensures number { result ≡ self.old.pipes_created + 1 }
        ensures after { self.new ≡ record self.old {
          pipes = self.old.pipes ++
              record {
                number = self.old.pipes_created + 1;
                name = name.now;
                owner = owner;
                depth = depth;
                bits = 0;
                queue = [];
                last = None;
              } ∷ [];
          pipes_created = self.old.pipes_created + 1;
          loans = self.old.loans ++ record { pipe = self.old.pipes_created + 1; loan = 0 } ∷ [];
        } }
        ensures bags { (app : ℕ) (bag : Holding LentBytes) →
            HoldsViews self.old.pipes self.old.loans self.old.room.pipes app bag →
            HoldsViews self.new.pipes self.new.loans self.new.room.pipes app bag }
    {
        let number = self.tables.create_pipe(name, owner, depth);
        // Does nothing; the proof learns of it that no other pipe has the number.
        self.tables.recall_order();
        number
    }

    /// Sets the option bits of the live pipe of this number.
    pub fn set_bits(&mut self, number: u32, bits: u8)
        ensures after { self.new ≡
            record self.old { pipes = with_pipe (with_bits bits) number self.old.pipes } }
        ensures bags { (app : ℕ) (bag : Holding LentBytes) →
            HoldsViews self.old.pipes self.old.loans self.old.room.pipes app bag →
            HoldsViews self.new.pipes self.new.loans self.new.room.pipes app bag }
    {
        self.tables.set_bits(number, bits);
    }

    // Ends the live pipe of this number, on which there are no messages, with its subscriptions.
    fn remove<L: Ledger>(&mut self, pipe: u32, steps: &mut Steps<L>)
        requires waits { oldest_on self.old.pipes pipe ≡ None }
        requires last { last_on self.old.pipes pipe ≡ None }
        ensures after { self.new ≡ record self.old {
          pipes = without_pipe pipe self.old.pipes;
          subscriptions = filter (λ sub. not (sub.pipe == pipe)) self.old.subscriptions;
          loans = filter (λ one. not (one.pipe == pipe)) self.old.loans;
        } }
        ensures bags { (app : ℕ) (bag : Holding LentBytes) →
            HoldsViews self.old.pipes self.old.loans self.old.room.pipes app bag →
            HoldsViews self.new.pipes self.new.loans self.new.room.pipes app bag }
    {
        // Does nothing; the proof learns of it that no other pipe has this number.
        self.tables.recall_order();
        self.tables.delete_pipe(pipe, steps);
    }

    /// Deletes the application's pipe, with its subscriptions. Its messages are let go, those that
    /// wait and the one received last, whose view is taken out of the application's bag: each block
    /// that no other pipe has a use for goes back to the pool, and nothing else of the account
    /// changes. By the code, takes at most 8 steps for each message that waits, 8 more, and those
    /// for the subscriptions that end.
    pub fn delete_pipe<L: Ledger>(
        &mut self,
        app: AppNo,
        pipe: u32,
        held: &mut Held<'r>,
        steps: &mut Steps<L>,
    )
        requires own { owns self.old.pipes app pipe ≡ true }
        requires bag { HoldsViews self.old.pipes self.old.loans self.old.room.pipes app held.old }
        ensures after { self.new ≡ record self.old {
          pipes = without_pipe pipe self.old.pipes;
          subscriptions = filter (λ sub. not (sub.pipe == pipe)) self.old.subscriptions;
          account = with_held self.old.account self.new.pipes self.old.unsent
              self.old.numbers_given;
          loans = self.new.loans;
        } }
        ensures loans { (other : ℕ) → pipe ≢ other →
            loan_of self.new.loans other ≡ loan_of self.old.loans other }
        ensures bag { HoldsViews self.new.pipes self.new.loans self.new.room.pipes app held.new }
        ensures other_bags { (other : ℕ) (bag : Holding LentBytes) → other ≢ app →
            HoldsViews self.old.pipes self.old.loans self.old.room.pipes other bag →
            HoldsViews self.new.pipes self.new.loans self.new.room.pipes other bag }
        ensures buffers { held.new ≡ record held.old { views = held.new.views } }
    {
        empty_pipe(self, app, pipe, held, steps);
        self.remove(pipe, steps);
        // Does nothing; the proof learns of it which blocks are out.
        self.recall_held();
    }
}

// Receives from the application's pipe until nothing is left there: each of its messages is let go.
fn empty_pipe<'r, L: Ledger>(
    store: &mut BusStore<'r>,
    app: AppNo,
    pipe: u32,
    held: &mut Held<'r>,
    steps: &mut Steps<L>,
)
    requires own { owns store.old.pipes app pipe ≡ true }
    requires bag { HoldsViews store.old.pipes store.old.loans store.old.room.pipes app held.old }
    ensures waits { oldest_on store.new.pipes pipe ≡ None }
    ensures last { last_on store.new.pipes pipe ≡ None }
    ensures others { without_pipe pipe store.new.pipes ≡ without_pipe pipe store.old.pipes }
    ensures same { store.new ≡ record store.old {
      pipes = store.new.pipes;
      account = store.new.account;
      loans = store.new.loans;
    } }
    ensures account { store.new.account ≡
        record store.old.account { out = store.new.account.out } }
    ensures loans { (other : ℕ) → pipe ≢ other →
        loan_of store.new.loans other ≡ loan_of store.old.loans other }
    ensures bag { HoldsViews store.new.pipes store.new.loans store.new.room.pipes app held.new }
    ensures other_bags { (other : ℕ) (bag : Holding LentBytes) → other ≢ app →
        HoldsViews store.old.pipes store.old.loans store.old.room.pipes other bag →
        HoldsViews store.new.pipes store.new.loans store.new.room.pipes other bag }
    ensures buffers { held.new ≡ record held.old { views = held.new.views } }
    ensures cost { steps.new ≤ steps.old + 8 * waiting_on store.old.pipes pipe + 8 }
{
    while let Some(_) = store.receive(app, pipe, held, steps) {}
}
