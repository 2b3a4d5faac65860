//! The calls of pipes: creation, deletion, option bits, number and name.
ghost use Rattle.std.specs.Prelude.{◌≡◌, ℕ, false, OnErr, IsTrue};
ghost use Rattle.bus_words.specs.declared.history.Call.TheVariants.{Delete, SetOpts, GetOpts, Find, PipeName, Create};
ghost use Rattle.bus_words.specs.Bus.{owns};
ghost use Rattle.bus_core.specs.Core.{MayAct, Acts, with_tick, has_pipe_number};
ghost use Rattle.bus_core.specs.Answers.{done, numbered, named};
ghost use Rattle.bus_core.specs.Bags.{HasBag, KeepsBags, KeepsOtherBags, KeepsAllLoans, KeepsAllDescs, KeepsLoans};

use crate::plain::PlainBus;
use crate::uses::see;
use buf_desc::Held;
use bus_words::PipeText;
use fsw_base::{AppNo, SbStatus};
use housekeeping::CounterName;
use step_count::{Ledger, Steps};

impl<'r> PlainBus<'r> {
    /// Creates a pipe that holds up to `depth` messages, and answers its number. Pipes are numbered
    /// 1, 2, 3 and so on, and no number is used again. The caller asks first whether
    /// one is left ([`PlainBus::has_pipe_number`]).
    ///
    /// # Errors
    /// `BadArgument` for a depth of 0 or past the configuration's, and for a name that hasn't 1 to
    /// 19 bytes; `MaxPipesMet` if as many pipes are live as the configuration allows;
    /// `PipeCrErr` if a live pipe has the name. The first that applies; it is counted.
    pub fn create_pipe(&mut self, app: AppNo, depth: u32, name: &[u8]) -> Result<u32, SbStatus>
        requires may { MayAct self.old app (Create depth name.now) }
        requires number { IsTrue (has_pipe_number self.old.whole.bus) }
        ensures does { Acts self.old self.new app (Create depth name.now) (numbered result) }
        ensures bags { KeepsBags self.old self.new }
        ensures loans { KeepsAllLoans self.old self.new }
        ensures descs { KeepsAllDescs self.old self.new }
    {
        if let Some(status) = self.create_cause(depth, name) {
            self.refuse(CounterName::Create);
            return Err(status);
        }
        let text = PipeText::try_new(name).unwrap();
        let number = self.store.create_pipe(&text, app, depth);
        see(&mut self.records, &self.store);
        Ok(number)
    }

    /// Ends the caller's pipe: it leaves with its subscriptions and messages. The view of its last
    /// message is taken out of the caller's bag, and each block that no other pipe has a message in
    /// goes back to the pool. No other pipe gets its number.
    ///
    /// # Errors
    /// `BadArgument` for a pipe that isn't live or isn't the caller's; it is counted.
    pub fn delete_pipe<L: Ledger>(
        &mut self,
        app: AppNo,
        pipe: u32,
        held: &mut Held<'r>,
        steps: &mut Steps<L>,
    ) -> Result<(), SbStatus>
        requires may { MayAct self.old app (Delete pipe) }
        requires bag { HasBag self.old app held.old }
        ensures does { Acts self.old self.new app (Delete pipe) (done result) }
        ensures unowned { owns self.old.whole.bus.pipes app pipe ≡ false →
            self.new ≡ with_tick self.old CounterName.Create }
        ensures bag_refused { OnErr result (held.new ≡ held.old) }
        ensures loans { KeepsLoans self.old self.new pipe }
        ensures descs { KeepsAllDescs self.old self.new }
        ensures bag { HasBag self.new app held.new }
        ensures other_bags { KeepsOtherBags self.old self.new app }
        ensures buffers { held.new ≡ record held.old { views = held.new.views } }
    {
        self.delete_pipe_lending(app, pipe, held, steps)
    }

    /// Sets the option bits of the caller's pipe. With 0x01 the messages that the caller itself
    /// sends are not for it. With 0x02, which version 2 has, it drops its oldest message for a new
    /// one when it is full.
    ///
    /// # Errors
    /// `BadArgument` for a pipe that isn't live or isn't the caller's, and for a bit that the
    /// version doesn't have; it is counted.
    pub fn set_opts(&mut self, app: AppNo, pipe: u32, bits: u8) -> Result<(), SbStatus>
        requires may { MayAct self.old app (SetOpts pipe bits) }
        ensures does { Acts self.old self.new app (SetOpts pipe bits) (done result) }
        ensures bags { KeepsBags self.old self.new }
        ensures loans { KeepsAllLoans self.old self.new }
        ensures descs { KeepsAllDescs self.old self.new }
    {
        if let Some(status) = self.set_opts_cause(app, pipe, bits) {
            self.refuse(CounterName::Opts);
            return Err(status);
        }
        self.store.set_bits(pipe, bits);
        see(&mut self.records, &self.store);
        Ok(())
    }

    /// Answers the option bits of any pipe, added up: 0x01 if the messages that its owner sends are
    /// not for it, 0x02 if it drops its oldest message when it is full.
    ///
    /// # Errors
    /// `BadArgument` for a pipe that isn't live; it is counted.
    pub fn get_opts(&mut self, pipe: u32) -> Result<u8, SbStatus>
        ensures does { (app : ℕ) → Acts self.old self.new app (GetOpts pipe) (numbered result) }
        ensures bags { KeepsBags self.old self.new }
        ensures loans { KeepsAllLoans self.old self.new }
        ensures descs { KeepsAllDescs self.old self.new }
    {
        let Some(bits) = self.store.bits(pipe) else {
            self.refuse(CounterName::Opts);
            return Err(SbStatus::BadArgument);
        };
        Ok(bits)
    }

    /// Answers the number of the live pipe of this name, whoever's it is.
    ///
    /// # Errors
    /// `BadArgument` if no live pipe has the name; it is counted.
    pub fn find_pipe(&mut self, name: &[u8]) -> Result<u32, SbStatus>
        ensures does { (app : ℕ) → Acts self.old self.new app (Find name.now) (numbered result) }
        ensures bags { KeepsBags self.old self.new }
        ensures loans { KeepsAllLoans self.old self.new }
        ensures descs { KeepsAllDescs self.old self.new }
    {
        let Some(number) = self.store.find(name) else {
            self.refuse(CounterName::Find);
            return Err(SbStatus::BadArgument);
        };
        Ok(number)
    }

    /// Answers the name of a pipe, 1 to 19 bytes, whoever's it is.
    ///
    /// # Errors
    /// `BadArgument` for a pipe that isn't live; it is counted.
    pub fn pipe_name(&mut self, pipe: u32) -> Result<PipeText, SbStatus>
        ensures does { (app : ℕ) → Acts self.old self.new app (PipeName pipe) (named result) }
        ensures bags { KeepsBags self.old self.new }
        ensures loans { KeepsAllLoans self.old self.new }
        ensures descs { KeepsAllDescs self.old self.new }
    {
        let Some(name) = self.store.name(pipe) else {
            self.refuse(CounterName::Find);
            return Err(SbStatus::BadArgument);
        };
        Ok(name)
    }
}
