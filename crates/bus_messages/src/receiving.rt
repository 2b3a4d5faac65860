//! Receives.
ghost use Rattle.std.specs.Prelude.{◌≡◌, ◌≢◌, ℕ, ◌+◌, ◌≤◌, true, length, None, is_some, IfSome};
ghost use Rattle.std.specs.Option.{option_map};
ghost use Rattle.bus_words.specs.Bus.{owns, with_pipe, after_receive};
ghost use Rattle.buf_desc.specs.Held.{Holding};
ghost use Rattle.lend_block.specs.Loan.{LentBytes};
ghost use Rattle.bus_messages.specs.Bag.{HoldsViews};
ghost use Rattle.bus_words.specs.Held.{held as numbers_held, bytes_in_use};
ghost use Rattle.bus_words.specs.Pipes.{oldest_on, last_on};
ghost use Rattle.bus_messages.specs.Words.{loan_of, with_held};

use crate::blocks::{show, show_next};
use crate::store::BusStore;
use buf_desc::Held;
use fsw_base::AppNo;
use step_count::{Ledger, Steps};

impl<'r> BusStore<'r> {
    /// Lets the last message of the application's pipe go, and takes the one that waits longest, if
    /// any, in its place: answers its number, and puts a view of it into the application's bag. The
    /// view of the message that is let go is taken out, and if that was its last use, its block
    /// goes back to the pool. At most 8 steps.
    pub fn receive<L: Ledger>(
        &mut self,
        app: AppNo,
        pipe: u32,
        held: &mut Held<'r>,
        steps: &mut Steps<L>,
    ) -> Option<u64>
        requires own { owns self.old.pipes app pipe ≡ true }
        requires bag { HoldsViews self.old.pipes self.old.loans self.old.room.pipes app held.old }
        ensures number { result ≡
            option_map (λ item. item.number) (oldest_on self.old.pipes pipe) }
        ensures after { self.new ≡ record self.old {
          pipes = with_pipe after_receive pipe self.old.pipes;
          account = with_held self.old.account self.new.pipes self.old.unsent
              self.old.numbers_given;
          loans = self.new.loans;
        } }
        ensures loans { (other : ℕ) → pipe ≢ other →
            loan_of self.new.loans other ≡ loan_of self.old.loans other }
        ensures bag { HoldsViews self.new.pipes self.new.loans self.new.room.pipes app held.new }
        ensures other_bags { (other : ℕ) (bag : Holding LentBytes) → other ≢ app →
            HoldsViews self.old.pipes self.old.loans self.old.room.pipes other bag →
            HoldsViews self.new.pipes self.new.loans self.new.room.pipes other bag }
        ensures buffers { held.new ≡ record held.old { views = held.new.views } }
        ensures held { length (numbers_held self.new.pipes self.new.unsent self.new.numbers_given) ≤
            length (numbers_held self.old.pipes self.old.unsent self.old.numbers_given) }
        ensures less { bytes_in_use self.new.account ≤ bytes_in_use self.old.account }
        ensures cost { steps.new ≤ steps.old + 8 }
    {
        // Do nothing; the proof learns of them that the pipes stand in order, and, here and below,
        // which blocks are out.
        self.tables.recall_order();
        self.desk.recall_live();
        let items = self.tables.take(pipe);
        let number = show_next(&mut self.desk, held, pipe, items.before, items.after, steps);
        self.desk.recall_live();
        number
    }

    /// Does the same if the pipe is the application's; None if and only if it has no such pipe,
    /// and then nothing changes. The pipe is looked up once. At most 8 steps.
    pub fn receive_if_owned<L: Ledger>(
        &mut self,
        app: AppNo,
        pipe: u32,
        held: &mut Held<'r>,
        steps: &mut Steps<L>,
    ) -> Option<Option<u64>>
        requires bag { HoldsViews self.old.pipes self.old.loans self.old.room.pipes app held.old }
        ensures owned { is_some result ≡ owns self.old.pipes app pipe }
        ensures same { result ≡ None → self.new ≡ self.old }
        ensures bag_same { result ≡ None → held.new ≡ held.old }
        ensures number { IfSome result
            (λ number. number ≡
            option_map (λ item. item.number) (oldest_on self.old.pipes pipe)) }
        ensures after { IfSome result (λ number. self.new ≡ record self.old {
          pipes = with_pipe after_receive pipe self.old.pipes;
          account = with_held self.old.account self.new.pipes self.old.unsent
              self.old.numbers_given;
          loans = self.new.loans;
        }) }
        ensures loans { IfSome result
            (λ number. (other : ℕ) → pipe ≢ other →
            loan_of self.new.loans other ≡ loan_of self.old.loans other) }
        ensures bag { IfSome result
            (λ number. HoldsViews self.new.pipes self.new.loans self.new.room.pipes app held.new) }
        ensures other_bags { IfSome result
            (λ number. (other : ℕ) (bag : Holding LentBytes) → other ≢ app →
            HoldsViews self.old.pipes self.old.loans self.old.room.pipes other bag →
            HoldsViews self.new.pipes self.new.loans self.new.room.pipes other bag) }
        ensures buffers { held.new ≡ record held.old { views = held.new.views } }
        ensures held { IfSome result
            (λ number. length
            (numbers_held self.new.pipes self.new.unsent self.new.numbers_given) ≤
            length (numbers_held self.old.pipes self.old.unsent self.old.numbers_given)) }
        ensures less { IfSome result
            (λ number. bytes_in_use self.new.account ≤ bytes_in_use self.old.account) }
        ensures cost { steps.new ≤ steps.old + 8 }
    {
        // Do nothing, as above.
        self.tables.recall_order();
        self.desk.recall_live();
        let items = self.tables.take_if_owned(app, pipe)?;
        let number = show_next(&mut self.desk, held, pipe, items.before, items.after, steps);
        self.desk.recall_live();
        Some(number)
    }

    /// Takes the message that waits longest on the application's pipe, which has no last message,
    /// if any: answers its number, and puts a view of it into the application's bag.
    pub fn receive_first(&mut self, app: AppNo, pipe: u32, held: &mut Held<'r>) -> Option<u64>
        requires own { owns self.old.pipes app pipe ≡ true }
        requires none { last_on self.old.pipes pipe ≡ None }
        requires bag { HoldsViews self.old.pipes self.old.loans self.old.room.pipes app held.old }
        ensures number { result ≡
            option_map (λ item. item.number) (oldest_on self.old.pipes pipe) }
        ensures after { self.new ≡ record self.old {
          pipes = with_pipe after_receive pipe self.old.pipes;
          account = with_held self.old.account self.new.pipes self.old.unsent
              self.old.numbers_given;
          loans = self.new.loans;
        } }
        ensures loans { (other : ℕ) → pipe ≢ other →
            loan_of self.new.loans other ≡ loan_of self.old.loans other }
        ensures bag { HoldsViews self.new.pipes self.new.loans self.new.room.pipes app held.new }
        ensures other_bags { (other : ℕ) (bag : Holding LentBytes) → other ≢ app →
            HoldsViews self.old.pipes self.old.loans self.old.room.pipes other bag →
            HoldsViews self.new.pipes self.new.loans self.new.room.pipes other bag }
        ensures buffers { held.new ≡ record held.old { views = held.new.views } }
    {
        // Do nothing, as above.
        self.tables.recall_order();
        self.desk.recall_live();
        let oldest = self.tables.take(pipe).after;
        let number = show(&mut self.desk, held, pipe, oldest);
        self.desk.recall_live();
        number
    }
}
