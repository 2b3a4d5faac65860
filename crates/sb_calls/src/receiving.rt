//! Receives, and receives that wait. Nothing blocks here: an application that would wait is told
//! so, and looks again in its next turn.
ghost use Rattle.std.specs.Prelude.{◌≡◌, ◌≢◌, ℕ, ◌+◌, ◌≤◌, true, false, Ok, OnErr};
ghost use Rattle.bus_words.specs.declared.history.Call.TheVariants.{Look};
ghost use Rattle.bus_words.specs.declared.calls.BusAnswer.TheVariants.{Pending};
ghost use Rattle.bus_words.specs.Bus.{standing_of, waited_on, owns};
ghost use Rattle.sb_calls.specs.Answers.{pended};
ghost use Rattle.bus_words.specs.Machine.{pended_answer};
ghost use Rattle.bus_core.specs.News.{has_news, is_waiting};
ghost use Rattle.sb_calls.specs.Bags.{HasBag, KeepsOtherBags};
ghost use Rattle.sb_calls.specs.Core.{MayCall, Does, Looks, GotAlone, state_of};
ghost use Rattle.bus_core.specs.Answers.{got};

use crate::answers::{of_got, of_pended};
use crate::journalled::BusCore;
use crate::noted::note_of;
use crate::results::Pended;
use crate::short::{look, pend, receive};
use buf_desc::Held;
use bus_words::{BusCall, BusEntry, Call};
use fsw_base::{AppNo, SbStatus};
use step_count::{Ledger, Steps};

impl<'r> BusCore<'r> {
    /// Takes the oldest message that waits on the caller's pipe, and answers its number: its view
    /// is put into the caller's bag, and its loan is noted. The last message received from the pipe
    /// is let go, also if none waits: its view is taken out of the bag, and if no other pipe
    /// names it, its block goes back to the pool. At most 32 steps.
    ///
    /// # Errors
    /// `BadArgument` for a pipe that isn't live or isn't the caller's; `NoMessage` if none
    /// waits. The first that applies.
    pub fn receive<L: Ledger>(
        &mut self,
        app: AppNo,
        pipe: u32,
        held: &mut Held<'r>,
        steps: &mut Steps<L>,
    ) -> Result<u32, SbStatus>
        requires may { MayCall self.old app (Call.Receive pipe) }
        requires bag { HasBag self.old app held.old }
        ensures does { Does self.old self.new app (Call.Receive pipe) (got result) }
        ensures bag { HasBag self.new app held.new }
        ensures other_bags { KeepsOtherBags self.old self.new app }
        ensures buffers { held.new ≡ record held.old { views = held.new.views } }
        ensures bag_refused { owns (state_of self.old).pipes app pipe ≡ false →
            held.new ≡ held.old }
        ensures alone { (number : ℕ) → result ≡ Ok number →
            GotAlone self.old app pipe (Call.Receive pipe) number held.new }
        ensures cost { steps.new ≤ steps.old + 32 }
    {
        let result = receive(&mut self.core, app, pipe, held, steps);
        let answer = of_got(&result);
        let note = note_of(&answer, held, pipe);
        let entry = BusEntry {
            app,
            call: BusCall::Receive { pipe },
            answer,
        };
        self.noted.push(&entry, note);
        result
    }

    /// Takes the oldest message that waits on the caller's pipe, and answers its number: its view
    /// is put into the caller's bag, and its loan is noted. If none waits, it is a time-out if
    /// every other application has ended or waits on an empty pipe; otherwise the caller waits on
    /// the pipe from then on, and looks again by [`BusCore::look`]. The last message received from
    /// the pipe is let go in each case: its view is taken out of the bag, and if no other pipe
    /// names it, its block goes back to the pool. At most 32 steps.
    ///
    /// # Errors
    /// `BadArgument` for a pipe that isn't live or isn't the caller's.
    pub fn pend<L: Ledger>(
        &mut self,
        app: AppNo,
        pipe: u32,
        held: &mut Held<'r>,
        steps: &mut Steps<L>,
    ) -> Result<Pended, SbStatus>
        requires may { MayCall self.old app (Call.Pend pipe) }
        requires bag { HasBag self.old app held.old }
        ensures does { Does self.old self.new app (Call.Pend pipe) (pended result) }
        ensures bag { HasBag self.new app held.new }
        ensures other_bags { KeepsOtherBags self.old self.new app }
        ensures buffers { held.new ≡ record held.old { views = held.new.views } }
        ensures bag_refused { OnErr result (held.new ≡ held.old) }
        ensures alone { (number : ℕ) → result ≡ Ok (Pended.Got number) →
            GotAlone self.old app pipe (Call.Pend pipe) number held.new }
        ensures cost { steps.new ≤ steps.old + 32 }
    {
        let result = pend(&mut self.core, app, pipe, held, steps);
        let answer = of_pended(&result);
        let note = note_of(&answer, held, pipe);
        let entry = BusEntry {
            app,
            call: BusCall::Pend { pipe },
            answer,
        };
        self.noted.push(&entry, note);
        result
    }

    /// Whether an application that waits would be answered if it looked now: a message is on its
    /// pipe, or it is a time-out. If this is false, each look would be in vain.
    pub fn has_news(&self) -> bool
        ensures told { result ≡ has_news (state_of self.now) }
        ensures none { result ≡ false → (app : ℕ)
            → is_waiting (standing_of (state_of self.now) app) ≡ true
            → pended_answer (state_of self.now) app
            (waited_on (standing_of (state_of self.now) app)) ≡ Pending }
        ensures some { result ≡ true → (app : ℕ)
            × (is_waiting (standing_of (state_of self.now) app) ≡ true)
            × (pended_answer (state_of self.now) app
            (waited_on (standing_of (state_of self.now) app)) ≢ Pending) }
    {
        self.core.has_news()
    }

    /// Looks again for a message on the pipe that the caller waits on. The view of a message is put
    /// into the caller's bag, and its loan is noted. With a message or a time-out the caller makes
    /// calls again. If it still waits, nothing changes and no entry is made.
    pub fn look(&mut self, app: AppNo, held: &mut Held<'r>) -> Pended
        requires may { MayCall self.old app
            (Look (waited_on (standing_of (state_of self.old) app))) }
        requires bag { HasBag self.old app held.old }
        ensures looks { Looks self.old self.new app
            (waited_on (standing_of (state_of self.old) app)) result }
        ensures bag_still { result ≡ Pended.Pending → held.new ≡ held.old }
        ensures bag { HasBag self.new app held.new }
        ensures other_bags { KeepsOtherBags self.old self.new app }
        ensures buffers { held.new ≡ record held.old { views = held.new.views } }
        ensures alone { (number : ℕ) → result ≡ Pended.Got number →
            GotAlone self.old app (waited_on (standing_of (state_of self.old) app))
            (Look (waited_on (standing_of (state_of self.old) app))) number held.new }
    {
        let pipe = self.core.pipe_waited_on(app);
        let result = look(&mut self.core, app, pipe, held);
        if result.is_pending() {
            return result;
        }
        let answer = result.told();
        let note = note_of(&answer, held, pipe);
        let entry = BusEntry {
            app,
            call: BusCall::Look { pipe },
            answer,
        };
        self.noted.push(&entry, note);
        result
    }
}
