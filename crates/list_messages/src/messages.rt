//! The pipes and the unsent buffers, with the send numbers that they name.
ghost use Rattle.std.specs.Prelude.{◌≡◌, ◌+◌, ◌-◌, ◌≤◌, nat_lt, length, map, IsTrue, IfOk, true, if◌then◌else◌};
ghost use Rattle.std.specs.Result.{OnOk};
ghost use Rattle.fsw_base.specs.PoolAccounts.{has_room};
ghost use Rattle.bus_words.specs.Bus.{with_pipe, without_pipe, with_bits, after_receive, has_unsent, unsent_size, unsent_of, with_unsent, without_unsent, without_all_unsent, reached, any_send, missed};
ghost use Rattle.bus_words.specs.Held.{held, bytes_in_use};
ghost use Rattle.list_pipes.specs.Leaving.{numbers_at, numbers_of, last_at};
ghost use Rattle.list_messages.specs.Messages.{IsKept, no_messages, account_in, with_new_pipe, with_buffer, with_sent, with_passed, without_all_of, sending_of, passing_of};
ghost use Rattle.list_messages.specs.Sends.{names_of, with_names, without_name, without_names};
ghost use Rattle.list_messages.specs.Tied.{numbers_left};

use crate::buffers::{
    OwnBuffers, add, has_place, has_unsent, leave, leave_all, no_buffers, unsent_size,
};
use crate::delivery::{Delivery, deliver};
use crate::numbers::one_more;
use crate::sends::ListSends;
use bus_words::PipeText;
use fsw_base::{AppNo, BlockSizes};
use list_pipes::{
    ListPipe, ListSending, ListSubscription, leave_others, leave_pipe, push_numbers_at,
    push_numbers_of, set_bits_of, take_from,
};
use list_pool::ListAccount;
use std::alloc::{AllocError, Global};
use std::marker::Model;

/// The live pipes, the unsent buffers, and the account of the bus's pool.
///
/// Contracts see them, and of each send number how often it is named. That pipes and buffers name
/// it so often (`IsKept`) is a condition of each call, and holds after each that isn't ended by an
/// `AllocError`.
pub struct ListMessages {
    // The live pipes.
    pipes: Vec<ListPipe>,
    // How many were created.
    created: u32,
    // The unsent buffers of each application, from 1.
    unsent: Vec<OwnBuffers>,
    // How many send numbers were given.
    given: u32,
    // How often each is named, and the pool's account.
    sends: ListSends,
}

impl Drop for ListMessages {
    fn drop(self) {
        let ListMessages {
            pipes: _pipes,
            created: _created,
            unsent: _unsent,
            given: _given,
            sends: _sends,
        } = self;
    }
}

impl Model for ListMessages {
    ghost use Rattle.list_messages.specs.Messages.{Named};

    ghost Value = { Named };

    ghost use Rattle.list_messages.specs.Inside.{named_in};

    ghost view = { named_in };
}

impl ListMessages {
    /// No pipe and no buffer of so many applications, with a pool of so many bytes.
    ///
    /// # Errors
    /// `AllocError` if memory runs out.
    pub fn new(
        alloc: Global,
        pool: u32,
        sizes: &BlockSizes,
        apps: u32,
    ) -> Result<ListMessages, AllocError>
        ensures part { IfOk result
            (λ messages. messages.part ≡ no_messages pool sizes.now apps) }
        ensures kept { IfOk result (λ messages. IsKept messages) }
    {
        let sends = ListSends::new(alloc, pool, sizes)?;
        let unsent = no_buffers(alloc, apps)?;
        Ok(ListMessages {
            pipes: Vec::new(alloc),
            created: 0,
            unsent,
            given: 0,
            sends,
        })
    }

    /// The live pipes.
    pub fn pipes(&self) -> &[ListPipe]
        ensures { result.now ≡ self.now.part.pipes }
    {
        self.pipes.as_slice()
    }

    /// How many pipes are live.
    pub fn pipe_count(&self) -> u32
        requires { IsKept self.now }
        ensures { result ≡ length self.now.part.pipes }
    {
        // There are no more than were created, whose number has 32 bits.
        let _created = self.created;
        self.pipes.len() as u32
    }

    /// A new pipe stands last; its number.
    ///
    /// # Errors
    /// `AllocError` if memory runs out, or if 4294967295 pipes were created. The pipes are
    /// unspecified then.
    pub fn create(
        &mut self,
        alloc: Global,
        app: AppNo,
        depth: u32,
        name: PipeText,
    ) -> Result<u32, AllocError>
        requires { IsKept self.old }
        ensures number { IfOk result (λ number. number ≡ self.old.part.pipes_created + 1) }
        ensures after { OnOk result
            (self.new.part ≡ with_new_pipe self.old.part app depth name) }
        ensures kept { OnOk result (IsKept self.new) }
    {
        let number = one_more(self.created)?;
        self.pipes
            .push(ListPipe::new(alloc, number, name, app, depth))?;
        self.created = number;
        Ok(number)
    }

    /// The pipe of this number leaves.
    ///
    /// # Errors
    /// `AllocError` if memory runs out. The pipes are unspecified then.
    pub fn delete(&mut self, alloc: Global, pipe: u32) -> Result<(), AllocError>
        requires { IsKept self.old }
        ensures after { OnOk result
            (self.new.part ≡
            record self.old.part { pipes = without_pipe pipe self.old.part.pipes }) }
        ensures kept { OnOk result (IsKept self.new) }
    {
        let gone = numbers_at(alloc, &self.pipes, pipe)?;
        leave_pipe(&mut self.pipes, pipe);
        self.sends.drop_names(&gone);
        Ok(())
    }

    /// The pipe of this number has these option bits.
    pub fn set_bits(&mut self, pipe: u32, bits: u8)
        requires { IsKept self.old }
        ensures after { self.new.part ≡
            record self.old.part {
              pipes = with_pipe (with_bits bits) pipe self.old.part.pipes;
            } }
        ensures kept { IsKept self.new }
    {
        set_bits_of(&mut self.pipes, pipe, bits);
    }

    /// A receive on the pipe of this number.
    ///
    /// # Errors
    /// `AllocError` if memory runs out. The pipes are unspecified then.
    pub fn receive(&mut self, alloc: Global, pipe: u32) -> Result<(), AllocError>
        requires { IsKept self.old }
        ensures after { OnOk result
            (self.new.part ≡
            record self.old.part {
              pipes = with_pipe after_receive pipe self.old.part.pipes;
            }) }
        ensures kept { OnOk result (IsKept self.new) }
    {
        let gone = taken_from(alloc, &mut self.pipes, pipe)?;
        self.sends.drop_names(&gone);
        Ok(())
    }

    /// Whether the pool has a block for so many bytes.
    pub fn has_room(&self, size: u32) -> bool
        requires { IsKept self.now }
        ensures { result ≡ has_room (account_in self.now.part) size }
    {
        self.sends.has_room(size)
    }

    /// Whether an application has an unsent buffer of this number.
    pub fn has_unsent(&self, app: AppNo, number: u32) -> bool
        ensures { result ≡ has_unsent self.now.part.unsent app number }
    {
        has_unsent(&self.unsent, app, number)
    }

    /// The size of an application's unsent buffer; 0 if it has none of this number.
    pub fn unsent_size(&self, app: AppNo, number: u32) -> u32
        ensures { result ≡ unsent_size self.now.part.unsent app number }
    {
        unsent_size(&self.unsent, app, number)
    }

    /// Gives an application a buffer, with a block for it; its number.
    ///
    /// # Errors
    /// `AllocError` if memory runs out, or if 4294967295 send numbers were given. The buffers
    /// are unspecified then.
    pub fn allocate(&mut self, app: AppNo, size: u32) -> Result<u32, AllocError>
        requires kept { IsKept self.old }
        requires room { IsTrue (has_room (account_in self.old.part) size) }
        ensures number { IfOk result (λ number. number ≡ self.old.part.numbers_given + 1) }
        ensures after { OnOk result (self.new.part ≡ with_buffer self.old.part app size) }
        ensures kept { OnOk result (IsKept self.new) }
    {
        let number = self.sends.next()?;
        self.sends.draw(size)?;
        self.given = number;
        place(&mut self.unsent, &mut self.sends, app, number, size)?;
        Ok(number)
    }

    /// An application's buffer leaves.
    ///
    /// # Errors
    /// `AllocError` if memory runs out. The buffers are unspecified then.
    pub fn release(&mut self, alloc: Global, app: AppNo, number: u32) -> Result<(), AllocError>
        requires { IsKept self.old }
        ensures after { OnOk result
            (self.new.part ≡
            record self.old.part { unsent = without_unsent self.old.part.unsent app number }) }
        ensures kept { OnOk result (IsKept self.new) }
    {
        let gone = left(alloc, &mut self.unsent, app, number)?;
        self.sends.drop_names(&gone);
        Ok(())
    }

    /// A message is sent to these subscriptions, under the next number and in a block of its own
    /// for so many bytes.
    ///
    /// # Errors
    /// `AllocError` if memory runs out, or if a number of 32 bits is spent. The pipes are
    /// unspecified then.
    pub fn send(
        &mut self,
        alloc: Global,
        sender: AppNo,
        size: u32,
        message: Vec<u8>,
        subs: &[ListSubscription],
    ) -> Result<Delivery, AllocError>
        requires kept { IsKept self.old }
        requires room { IsTrue (has_room (account_in self.old.part) size) }
        ensures after { OnOk result
            (self.new.part ≡
            with_sent self.old.part (sending_of self.old.part sender size message.items) subs.now) }
        ensures number { IfOk result
            (λ done. done.number ≡ self.old.part.numbers_given + 1) }
        ensures reached { IfOk result
            (λ done. done.reached ≡
            reached (sending_of self.old.part sender size message.items) subs.now
            self.old.part.pipes) }
        ensures misses { IfOk result
            (λ done. done.misses.items ≡
            missed (any_send sender) subs.now self.old.part.pipes) }
        ensures kept { OnOk result (IsKept self.new) }
    {
        let number = self.sends.next()?;
        let sending = ListSending::new(alloc, sender, number, size, message)?;
        self.sends.draw(size)?;
        let done = deliver(alloc, &mut self.pipes, &sending, subs)?;
        settle(&mut self.sends, number, &done)?;
        self.sends.drop_name(number);
        self.given = number;
        Ok(done)
    }

    /// An application's buffer leaves, and this message is sent to these subscriptions in
    /// its block and under its number.
    ///
    /// # Errors
    /// `AllocError` if memory runs out, or if a count is spent. The pipes are
    /// unspecified then.
    pub fn send_buffer(
        &mut self,
        alloc: Global,
        sender: AppNo,
        number: u32,
        message: Vec<u8>,
        subs: &[ListSubscription],
    ) -> Result<Delivery, AllocError>
        requires kept { IsKept self.old }
        requires own { has_unsent self.old.part.unsent sender number ≡ true }
        ensures after { OnOk result
            (self.new.part ≡
            with_passed self.old.part (passing_of self.old.part sender number message.items)
            subs.now) }
        ensures number { IfOk result (λ done. done.number ≡ number) }
        ensures reached { IfOk result
            (λ done. done.reached ≡
            reached (passing_of self.old.part sender number message.items) subs.now
            self.old.part.pipes) }
        ensures misses { IfOk result
            (λ done. done.misses.items ≡
            missed (any_send sender) subs.now self.old.part.pipes) }
        ensures kept { OnOk result (IsKept self.new) }
    {
        let size = unsent_size(&self.unsent, sender, number);
        let sending = ListSending::new(alloc, sender, number, size, message)?;
        let done = deliver(alloc, &mut self.pipes, &sending, subs)?;
        settle(&mut self.sends, number, &done)?;
        let gone = left(alloc, &mut self.unsent, sender, number)?;
        self.sends.drop_names(&gone);
        Ok(done)
    }

    /// An application's pipes and buffers leave.
    ///
    /// # Errors
    /// `AllocError` if memory runs out. The pipes are unspecified then.
    pub fn end(&mut self, alloc: Global, app: AppNo) -> Result<(), AllocError>
        requires { IsKept self.old }
        ensures after { OnOk result (self.new.part ≡ without_all_of self.old.part app) }
        ensures kept { OnOk result (IsKept self.new) }
    {
        let own = numbers_of(alloc, &self.pipes, app)?;
        leave_others(&mut self.pipes, app);
        self.sends.drop_names(&own);
        let unsent = all_left(alloc, &mut self.unsent, app)?;
        self.sends.drop_names(&unsent);
        Ok(())
    }

    /// How many send numbers are held.
    pub fn held_count(&self) -> u32
        requires { IsKept self.now }
        ensures { result ≡
            length
            (held self.now.part.pipes self.now.part.unsent self.now.part.numbers_given) }
    {
        self.sends.used_count()
    }

    /// The sizes of the blocks that are out, added up.
    pub fn bytes_in_use(&self) -> u32
        requires { IsKept self.now }
        ensures { result ≡ bytes_in_use (account_in self.now.part) }
    {
        self.sends.bytes_in_use()
    }

    /// The account of the bus's pool.
    pub fn account(&self) -> &ListAccount
        requires { IsKept self.now }
        ensures { result.now ≡ account_in self.now.part }
    {
        self.sends.account()
    }
}

// An application has one buffer more. Of one that has no place nobody names the number.
fn place(
    unsent: &mut Vec<OwnBuffers>,
    sends: &mut ListSends,
    app: AppNo,
    number: u32,
    size: u32,
) -> Result<(), AllocError>
    ensures unsent { OnOk result
        (unsent.new.items ≡
        with_unsent unsent.old.items app (record { number = number; size = size })) }
    ensures sends { OnOk result
        (sends.new ≡
        record sends.old {
          uses = (if nat_lt (app - 1) (length unsent.old.items) then sends.old.uses
              else without_name sends.old.uses number);
        }) }
{
    if has_place(unsent, app) {
        add(unsent, app, number, size)
    } else {
        sends.drop_name(number);
        add(unsent, app, number, size)
    }
}

// The numbers of all messages of the pipe of a number.
fn numbers_at(alloc: Global, pipes: &[ListPipe], number: u32) -> Result<Vec<u32>, AllocError>
    ensures { IfOk result (λ gone. gone.items ≡ numbers_at number pipes.now) }
{
    let mut gone = Vec::new(alloc);
    push_numbers_at(pipes, number, &mut gone)?;
    Ok(gone)
}

// The numbers of all messages of an application's pipes.
fn numbers_of(alloc: Global, pipes: &[ListPipe], app: AppNo) -> Result<Vec<u32>, AllocError>
    ensures { IfOk result (λ gone. gone.items ≡ numbers_of app pipes.now) }
{
    let mut gone = Vec::new(alloc);
    push_numbers_of(pipes, app, &mut gone)?;
    Ok(gone)
}

// A receive on the pipe of a number: the number of the message that leaves.
fn taken_from(alloc: Global, pipes: &mut Vec<ListPipe>, number: u32) -> Result<Vec<u32>, AllocError>
    ensures pipes { OnOk result
        (pipes.new.items ≡ with_pipe after_receive number pipes.old.items) }
    ensures gone { IfOk result (λ gone. gone.items ≡ last_at number pipes.old.items) }
{
    let mut gone = Vec::new(alloc);
    take_from(pipes, number, &mut gone)?;
    Ok(gone)
}

// An application's buffers of a number leave: the number, for each of them.
fn left(
    alloc: Global,
    unsent: &mut Vec<OwnBuffers>,
    app: AppNo,
    number: u32,
) -> Result<Vec<u32>, AllocError>
    ensures after { OnOk result
        (unsent.new.items ≡ without_unsent unsent.old.items app number) }
    ensures gone { IfOk result
        (λ gone. gone.items ≡ numbers_left number (unsent_of unsent.old.items app)) }
{
    let mut gone = Vec::new(alloc);
    leave(unsent, app, number, &mut gone)?;
    Ok(gone)
}

// All buffers of an application leave: their numbers.
fn all_left(alloc: Global, unsent: &mut Vec<OwnBuffers>, app: AppNo) -> Result<Vec<u32>, AllocError>
    ensures after { OnOk result (unsent.new.items ≡ without_all_unsent unsent.old.items app) }
    ensures gone { IfOk result
        (λ gone. gone.items ≡
        map (λ buffer. buffer.number) (unsent_of unsent.old.items app)) }
{
    let mut gone = Vec::new(alloc);
    leave_all(unsent, app, &mut gone)?;
    Ok(gone)
}

// The names of what was sent come, and those of what left for it go.
fn settle(sends: &mut ListSends, number: u32, done: &Delivery) -> Result<(), AllocError>
    requires { 1 ≤ names_of sends.old.uses number }
    ensures { OnOk result
        (sends.new ≡
        record sends.old {
          uses = without_names (with_names sends.old.uses number done.now.joined)
              done.now.gone.items;
        }) }
{
    sends.name(number, done.joined)?;
    sends.drop_names(&done.gone);
    Ok(())
}
