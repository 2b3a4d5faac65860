//! Pipes that end with their owner.
ghost use Rattle.std.specs.Prelude.{◌≡◌, ◌≢◌, ℕ, ◌==◌, false, not, filter};
ghost use Rattle.bus_words.specs.Bus.{owns};
ghost use Rattle.lend_block.specs.Loan.{LentBytes};
ghost use Rattle.buf_desc.specs.Held.{Holding};
ghost use Rattle.bus_messages.specs.Bag.{HoldsViews};
ghost use Rattle.bus_messages.specs.Words.{loan_of};

use buf_desc::Held;
use bus_messages::BusStore;
use fsw_base::AppNo;
use step_count::{Ledger, Steps};

/// Ends the application's pipes, with their subscriptions and messages, whose views are taken out
/// of its bag.
pub(crate) fn end_pipes<'r, L: Ledger>(
    store: &mut BusStore<'r>,
    app: AppNo,
    held: &mut Held<'r>,
    steps: &mut Steps<L>,
)
    requires bag { HoldsViews store.old.pipes store.old.loans store.old.room.pipes app held.old }
    ensures after { store.new ≡ record store.old {
      pipes = filter (λ pipe. not (pipe.owner == app)) store.old.pipes;
      subscriptions = filter (λ sub. not (owns store.old.pipes app sub.pipe))
          store.old.subscriptions;
      account = store.new.account;
      loans = store.new.loans;
    } }
    ensures account { store.new.account ≡
        record store.old.account { out = store.new.account.out } }
    ensures loans { (pipe : ℕ) → owns store.old.pipes app pipe ≡ false →
        loan_of store.new.loans pipe ≡ loan_of store.old.loans pipe }
    ensures bag { HoldsViews store.new.pipes store.new.loans store.new.room.pipes app held.new }
    ensures other_bags { (other : ℕ) (bag : Holding LentBytes) → other ≢ app →
        HoldsViews store.old.pipes store.old.loans store.old.room.pipes other bag →
        HoldsViews store.new.pipes store.new.loans store.new.room.pipes other bag }
    ensures buffers { held.new ≡ record held.old { views = held.new.views } }
{
    while let Some(pipe) = store.first_of(app) {
        // Does nothing; the proof learns of it that no other pipe has this number.
        store.recall_order();
        store.delete_pipe(app, pipe, held, steps);
    }
}
