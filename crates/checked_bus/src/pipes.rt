//! The calls of pipes.
ghost use Rattle.std.specs.Prelude.{◌≡◌, ◌<◌, ℕ, None, nat_lt, length, IfOk, OnErr};
ghost use Rattle.std.specs.Option.{option_map};
ghost use Rattle.std.specs.Result.{result_err};
ghost use Rattle.bus_words.specs.declared.history.Call.TheVariants.{Create, Delete, SetOpts, GetOpts, Find, PipeName};
ghost use Rattle.bus_words.specs.Bus.{pipe_at};
ghost use Rattle.bus_words.specs.Machine.{refused_if};
ghost use Rattle.bus_core.specs.Core.{Acts};
ghost use Rattle.bus_core.specs.Answers.{numbered, done, named};
ghost use Rattle.bus_core.specs.Bags.{KeepsLoans};
ghost use Rattle.checked_bus.specs.Asked.{unasked};
ghost use Rattle.checked_bus.specs.Box.{KeepsOtherBags, KeepsOwnBuffers};

use crate::boxed::SbBox;
use crate::refusal::Refusal;
use bus_words::{BusCall, PipeText};
use fsw_base::{MAX_NAME_BYTES, SbStatus};
use step_count::{Blank, Ledger, Steps};

impl<'r> SbBox<'r> {
    /// Creates a pipe, as [`PlainBus::create_pipe`].
    ///
    /// # Errors
    /// Those of [`PlainBus::create_pipe`]; a [`Refusal`] if the bus wasn't asked.
    pub fn create_pipe(
        &mut self,
        app: u32,
        depth: u32,
        name: &[u8],
    ) -> Result<Result<u32, SbStatus>, Refusal>
        ensures unasked { result_err result ≡ unasked self.old.core app (Create depth name.now) }
        ensures nothing { OnErr result (self.new ≡ self.old) }
        ensures does { IfOk result
            (λ answer. Acts self.old.core self.new.core app (Create depth name.now)
            (numbered answer)) }
        ensures bags { self.new.bags ≡ self.old.bags }
    {
        let caller = self.caller_for(app, &BusCall::Create { depth, name })?;
        Ok(self.core.create_pipe(caller, depth, name))
    }

    /// Ends a pipe, as [`PlainBus::delete_pipe`]. The message that its owner received last on it is
    /// let go.
    ///
    /// # Errors
    /// Those of [`PlainBus::delete_pipe`]; a [`Refusal`] if the bus wasn't asked.
    pub fn delete_pipe<L: Ledger>(
        &mut self,
        app: u32,
        pipe: u32,
        blank: Blank,
    ) -> Result<Result<(), SbStatus>, Refusal>
        requires name { blank.name ≡ L.name }
        requires parts { blank.parts ≡ L.parts }
        requires some_part { 0 < blank.parts }
        ensures unasked { result_err result ≡ unasked self.old.core app (Delete pipe) }
        ensures nothing { OnErr result (self.new ≡ self.old) }
        ensures does { IfOk result
            (λ answer. Acts self.old.core self.new.core app (Delete pipe) (done answer)) }
        ensures others { IfOk result (λ answer. KeepsOtherBags self.old self.new app) }
        ensures buffers { IfOk result (λ answer. KeepsOwnBuffers self.old self.new app) }
        ensures loans { IfOk result (λ answer. KeepsLoans self.old.core self.new.core pipe) }
    {
        let caller = self.caller_for(app, &BusCall::Delete { pipe })?;
        let mut steps = Steps::<L>::new(blank);
        let bag = &mut self.bags[(caller.get() - 1) as usize];
        Ok(bag.delete_pipe(&mut self.core, caller, pipe, &mut steps))
    }

    /// Sets the option bits of a pipe, as [`PlainBus::set_opts`].
    ///
    /// # Errors
    /// Those of [`PlainBus::set_opts`]; a [`Refusal`] if the bus wasn't asked.
    pub fn set_opts(
        &mut self,
        app: u32,
        pipe: u32,
        bits: u8,
    ) -> Result<Result<(), SbStatus>, Refusal>
        ensures unasked { result_err result ≡ unasked self.old.core app (SetOpts pipe bits) }
        ensures nothing { OnErr result (self.new ≡ self.old) }
        ensures does { IfOk result
            (λ answer. Acts self.old.core self.new.core app (SetOpts pipe bits) (done answer)) }
        ensures bags { self.new.bags ≡ self.old.bags }
    {
        let caller = self.caller_for(app, &BusCall::SetOpts { pipe, bits })?;
        Ok(self.core.set_opts(caller, pipe, bits))
    }

    /// Answers the option bits of any pipe, as [`PlainBus::get_opts`].
    ///
    /// # Errors
    /// Those of [`PlainBus::get_opts`].
    pub fn get_opts(&mut self, pipe: u32) -> Result<u8, SbStatus>
        ensures does { (app : ℕ) →
            Acts self.old.core self.new.core app (GetOpts pipe) (numbered result) }
        ensures bags { self.new.bags ≡ self.old.bags }
    {
        self.core.get_opts(pipe)
    }

    /// Answers the number of the live pipe of this name, as [`PlainBus::find_pipe`].
    ///
    /// # Errors
    /// Those of [`PlainBus::find_pipe`]; `TooLong` for a name of more than 64 bytes.
    pub fn find_pipe(&mut self, name: &[u8]) -> Result<Result<u32, SbStatus>, Refusal>
        ensures unasked { result_err result ≡
            refused_if (nat_lt 64 (length name.now)) Refusal.TooLong None }
        ensures nothing { OnErr result (self.new ≡ self.old) }
        ensures does { IfOk result (λ answer. (app : ℕ) →
            Acts self.old.core self.new.core app (Find name.now) (numbered answer)) }
        ensures bags { self.new.bags ≡ self.old.bags }
    {
        if name.len() > MAX_NAME_BYTES {
            return Err(Refusal::TooLong);
        }
        Ok(self.core.find_pipe(name))
    }

    /// How many messages wait on any live pipe, as [`PlainBus::waiting_count`]; None if no pipe of
    /// this number is live. It is no call of the bus.
    pub fn waiting_count(&self, pipe: u32) -> Option<u32>
        ensures { result ≡
            option_map (λ it. length it.queue) (pipe_at self.now.core.whole.bus.pipes pipe) }
    {
        self.core.waiting_count(pipe)
    }

    /// Answers the name of any pipe, as [`PlainBus::pipe_name`].
    ///
    /// # Errors
    /// Those of [`PlainBus::pipe_name`].
    pub fn pipe_name(&mut self, pipe: u32) -> Result<PipeText, SbStatus>
        ensures does { (app : ℕ) →
            Acts self.old.core self.new.core app (PipeName pipe) (named result) }
        ensures bags { self.new.bags ≡ self.old.bags }
    {
        self.core.pipe_name(pipe)
    }
}
