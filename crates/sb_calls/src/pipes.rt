//! The calls of pipes: creation, deletion, option bits, number and name. Each is the core's call
//! and one entry of the journal.
ghost use Rattle.std.specs.Prelude.{◌≡◌, OnErr};
ghost use Rattle.sb_calls.specs.Bags.{HasBag, KeepsBags, KeepsOtherBags};
ghost use Rattle.sb_calls.specs.Core.{MayCall, Does};
ghost use Rattle.bus_core.specs.Answers.{done, numbered, named};

use crate::answers::{of_bits, of_done, of_named, of_number};
use crate::journalled::BusCore;
use buf_desc::Held;
use bus_words::{BusCall, BusEntry, Call, PipeText};
use fsw_base::{AppNo, SbStatus};
use lend_block::Note;
use step_count::{Ledger, Steps};

impl<'r> BusCore<'r> {
    /// Creates a pipe that holds up to `depth` messages, and answers its number. Pipes are numbered
    /// 1, 2, 3 and so on, and no number is used again.
    ///
    /// # Errors
    /// `BadArgument` for a depth of 0 or past the configuration's, and for a name that hasn't 1 to
    /// 19 bytes; `MaxPipesMet` if as many pipes are live as the configuration allows;
    /// `PipeCrErr` if a live pipe has the name. The first that applies.
    pub fn create_pipe(&mut self, app: AppNo, depth: u32, name: &[u8]) -> Result<u32, SbStatus>
        requires may { MayCall self.old app (Call.Create depth name.now) }
        ensures does { Does self.old self.new app (Call.Create depth name.now) (numbered result) }
        ensures bags { KeepsBags self.old self.new }
    {
        let result = self.core.create_pipe(app, depth, name);
        let entry = BusEntry {
            app,
            call: BusCall::Create { depth, name },
            answer: of_number(&result),
        };
        self.noted.push(&entry, Note::Nothing);
        result
    }

    /// Ends the caller's pipe: it leaves with its subscriptions and messages. The view of its last
    /// message is taken out of the caller's bag, and each block that no other pipe has a message in
    /// goes back to the pool. No other pipe gets its number.
    ///
    /// # Errors
    /// `BadArgument` for a pipe that isn't live or isn't the caller's.
    pub fn delete_pipe<L: Ledger>(
        &mut self,
        app: AppNo,
        pipe: u32,
        held: &mut Held<'r>,
        steps: &mut Steps<L>,
    ) -> Result<(), SbStatus>
        requires may { MayCall self.old app (Call.Delete pipe) }
        requires bag { HasBag self.old app held.old }
        ensures does { Does self.old self.new app (Call.Delete pipe) (done result) }
        ensures bag { HasBag self.new app held.new }
        ensures other_bags { KeepsOtherBags self.old self.new app }
        ensures buffers { held.new ≡ record held.old { views = held.new.views } }
        ensures bag_refused { OnErr result (held.new ≡ held.old) }
    {
        let result = self.core.delete_pipe(app, pipe, held, steps);
        let entry = BusEntry {
            app,
            call: BusCall::Delete { pipe },
            answer: of_done(&result),
        };
        self.noted.push(&entry, Note::Nothing);
        result
    }

    /// Sets the option bits of the caller's pipe. With 0x01 the messages that the caller itself
    /// sends are not for it. With 0x02, which version 2 has, it drops its oldest message for a new
    /// one when it is full.
    ///
    /// # Errors
    /// `BadArgument` for a pipe that isn't live or isn't the caller's, and for a bit that the
    /// version doesn't have.
    pub fn set_opts(&mut self, app: AppNo, pipe: u32, bits: u8) -> Result<(), SbStatus>
        requires may { MayCall self.old app (Call.SetOpts pipe bits) }
        ensures does { Does self.old self.new app (Call.SetOpts pipe bits) (done result) }
        ensures bags { KeepsBags self.old self.new }
    {
        let result = self.core.set_opts(app, pipe, bits);
        let entry = BusEntry {
            app,
            call: BusCall::SetOpts { pipe, bits },
            answer: of_done(&result),
        };
        self.noted.push(&entry, Note::Nothing);
        result
    }

    /// Answers the option bits of any pipe, added up: 0x01 if the messages that its owner sends are
    /// not for it, 0x02 if it drops its oldest message when it is full.
    ///
    /// # Errors
    /// `BadArgument` for a pipe that isn't live.
    pub fn get_opts(&mut self, app: AppNo, pipe: u32) -> Result<u8, SbStatus>
        requires may { MayCall self.old app (Call.GetOpts pipe) }
        ensures does { Does self.old self.new app (Call.GetOpts pipe) (numbered result) }
        ensures bags { KeepsBags self.old self.new }
    {
        let result = self.core.get_opts(pipe);
        let entry = BusEntry {
            app,
            call: BusCall::GetOpts { pipe },
            answer: of_bits(&result),
        };
        self.noted.push(&entry, Note::Nothing);
        result
    }

    /// Answers the number of the live pipe of this name, whoever's it is.
    ///
    /// # Errors
    /// `BadArgument` if no live pipe has the name.
    pub fn find_pipe(&mut self, app: AppNo, name: &[u8]) -> Result<u32, SbStatus>
        requires may { MayCall self.old app (Call.Find name.now) }
        ensures does { Does self.old self.new app (Call.Find name.now) (numbered result) }
        ensures bags { KeepsBags self.old self.new }
    {
        let result = self.core.find_pipe(name);
        let entry = BusEntry {
            app,
            call: BusCall::Find { name },
            answer: of_number(&result),
        };
        self.noted.push(&entry, Note::Nothing);
        result
    }

    /// Answers the name of a pipe, 1 to 19 bytes, whoever's it is.
    ///
    /// # Errors
    /// `BadArgument` for a pipe that isn't live.
    pub fn pipe_name(&mut self, app: AppNo, pipe: u32) -> Result<PipeText, SbStatus>
        requires may { MayCall self.old app (Call.PipeName pipe) }
        ensures does { Does self.old self.new app (Call.PipeName pipe) (named result) }
        ensures bags { KeepsBags self.old self.new }
    {
        let result = self.core.pipe_name(pipe);
        let entry = BusEntry {
            app,
            call: BusCall::PipeName { pipe },
            answer: of_named(&result),
        };
        self.noted.push(&entry, Note::Nothing);
        result
    }
}
