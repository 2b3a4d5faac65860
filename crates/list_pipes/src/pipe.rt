//! A pipe.
ghost use Rattle.std.specs.Prelude.{◌≡◌, ◌==◌, ◌≤◌, ◌&&◌, ◌++◌, [], if◌then◌else◌, length, drop, map, count_by, MatchOption, None, Some, IfOk};
ghost use Rattle.std.specs.Option.{option_copied};
ghost use Rattle.std.specs.Result.{OnOk};
ghost use Rattle.std.specs.Str.{bytes_eq};
ghost use Rattle.bus_words.specs.Bus.{offered, verdict, waiting_of};
ghost use Rattle.bus_words.specs.Pipes.{oldest, new_pipe, with_bits, after_receive, ignores_sender, drops_oldest, dropped_at, queue_after, is_queued};
ghost use Rattle.list_pipes.specs.Leaving.{number_in, numbers_on, dropped_on, joined_on};

use crate::items::{ListItem, ListSending};
use crate::subscriptions::ListSubscription;
use bus_words::{PipeText, Verdict};
use fsw_base::AppNo;
use std::alloc::{AllocError, Global};
use std::marker::Model;

/// A live pipe.
pub struct ListPipe {
    // Its number.
    number: u32,
    // Its name.
    name: PipeText,
    // The application that created it.
    owner: AppNo,
    // How many messages may wait.
    depth: u32,
    // The option bits.
    bits: u8,
    // What waits, the oldest first.
    queue: Vec<ListItem>,
    // What was received last.
    last: Option<ListItem>,
}

impl Drop for ListPipe {
    fn drop(self) {
        let ListPipe {
            number: _number,
            name: _name,
            owner: _owner,
            depth: _depth,
            bits: _bits,
            queue: _queue,
            last: _last,
        } = self;
    }
}

impl Model for ListPipe {
    ghost use Rattle.bus_words.specs.Bus.{Pipe};

    ghost Value = { Pipe };

    ghost view = { λ p. record {
      number = p.number;
      name = p.name;
      owner = p.owner;
      depth = p.depth;
      bits = p.bits;
      queue = p.queue.items;
      last = p.last;
    } };
}

impl ListPipe {
    /// A pipe on which nothing waits.
    pub fn new(alloc: Global, number: u32, name: PipeText, owner: AppNo, depth: u32) -> ListPipe
        ensures { result ≡ new_pipe number name owner depth }
    {
        ListPipe {
            number,
            name,
            owner,
            depth,
            bits: 0,
            queue: Vec::new(alloc),
            last: None,
        }
    }

    /// Its number.
    pub fn number(&self) -> u32
        ensures { result ≡ self.now.number }
    {
        self.number
    }

    /// Its name.
    pub fn name(&self) -> &PipeText
        ensures { result.now ≡ self.now.name }
    {
        &self.name
    }

    /// Its option bits.
    pub fn bits(&self) -> u8
        ensures { result ≡ self.now.bits }
    {
        self.bits
    }

    /// What was received last.
    pub fn last(&self) -> Option<&ListItem>
        ensures { option_copied result ≡ self.now.last }
    {
        self.last.as_ref()
    }

    /// Whether nothing waits.
    pub fn is_empty(&self) -> bool
        ensures { result ≡ (length self.now.queue == 0) }
    {
        self.queue.is_empty()
    }

    /// Whether it has this number.
    pub(crate) fn has_number(&self, number: u32) -> bool
        ensures { result ≡ (self.now.number == number) }
    {
        self.number == number
    }

    /// Whether it has this name.
    pub(crate) fn has_name(&self, name: &[u8]) -> bool
        ensures { result ≡ bytes_eq self.now.name name.now }
    {
        self.name.as_slice() == name
    }

    /// Whether it is this application's.
    pub(crate) fn is_of(&self, app: AppNo) -> bool
        ensures { result ≡ (self.now.owner == app) }
    {
        self.owner == app
    }

    /// Whether it has this number and is this application's.
    pub(crate) fn is_owned(&self, app: AppNo, number: u32) -> bool
        ensures { result ≡ (self.now.number == number && self.now.owner == app) }
    {
        self.number == number && self.owner == app
    }

    /// The oldest message that waits.
    pub(crate) fn oldest(&self) -> Option<&ListItem>
        ensures { MatchOption result (oldest self.now.queue ≡ None)
            (λ item. oldest self.now.queue ≡ Some item.now) }
    {
        oldest(&self.queue)
    }

    // Whether it ignores what an application sends.
    fn ignores_sender(&self, sender: AppNo) -> bool
        ensures { result ≡ ignores_sender self.now sender }
    {
        self.bits % 2 == 1 && self.owner == sender
    }

    // Whether it drops its oldest message for a newer one when it is full.
    fn drops_oldest(&self) -> bool
        ensures { result ≡ drops_oldest self.now }
    {
        self.bits / 2 % 2 == 1
    }

    // How many messages of a subscription wait.
    fn waiting_of(&self, subscription: u32) -> usize
        ensures { result ≡ waiting_of self.now subscription }
    {
        count_of(&self.queue, subscription)
    }

    /// The verdict on a message of this sender for a subscription.
    pub fn verdict(&self, sub: &ListSubscription, sender: AppNo) -> Verdict
        ensures { result ≡ verdict self.now sub.now sender }
    {
        if self.ignores_sender(sender) {
            Verdict::Skip
        } else if sub.limit() as usize <= self.waiting_of(sub.number()) {
            Verdict::OverLimit
        } else if self.queue.len() < self.depth as usize {
            Verdict::In
        } else if self.drops_oldest() {
            Verdict::Oldest
        } else {
            Verdict::Full
        }
    }

    // A subscription of its own is offered what is sent: the verdict. The number of a message that
    // leaves for it goes last in `gone`.
    fn offer(
        &mut self,
        sending: &ListSending,
        sub: &ListSubscription,
        gone: &mut Vec<u32>,
    ) -> Result<Verdict, AllocError>
        ensures pipe { OnOk result (self.new ≡ offered sending.now sub.now self.old) }
        ensures verdict { IfOk result
            (λ found. found ≡ verdict self.old sub.now sending.now.sender) }
        ensures gone { OnOk result
            (gone.new.items ≡ gone.old.items ++ dropped_on sending.now sub.now self.old) }
    {
        let verdict = self.verdict(sub, sending.sender());
        let item = sending.item_for(sub)?;
        queue_by(&mut self.queue, verdict, item, gone)?;
        Ok(verdict)
    }

    /// A subscription is offered what is sent, if it is of this pipe: 1 if the pipe queues it, or
    /// 0. The number of a message that leaves for it goes last in `gone`.
    pub(crate) fn offer_if(
        &mut self,
        sending: &ListSending,
        sub: &ListSubscription,
        gone: &mut Vec<u32>,
    ) -> Result<usize, AllocError>
        ensures pipe { OnOk result
            (self.new ≡
            (if self.old.number == sub.now.pipe then offered sending.now sub.now self.old
            else self.old)) }
        ensures gone { OnOk result
            (gone.new.items ≡
            gone.old.items ++
            (if self.old.number == sub.now.pipe then dropped_on sending.now sub.now self.old
            else [])) }
        ensures joined { IfOk result
            (λ joined. joined ≡
            (if self.old.number == sub.now.pipe then joined_on sending.now sub.now self.old
            else 0)) }
        ensures few { IfOk result (λ joined. joined ≤ 1) }
    {
        if self.has_number(sub.pipe()) {
            let verdict = self.offer(sending, sub, gone)?;
            Ok(queued_by(verdict))
        } else {
            Ok(0)
        }
    }

    /// A receive, if it is the pipe of this number. The number of the message received last before
    /// goes last in `gone`.
    pub(crate) fn take_if(&mut self, number: u32, gone: &mut Vec<u32>) -> Result<(), AllocError>
        ensures pipe { OnOk result
            (self.new ≡
            (if self.old.number == number then after_receive self.old else self.old)) }
        ensures gone { OnOk result
            (gone.new.items ≡
            gone.old.items ++
            (if self.old.number == number then number_in self.old.last else [])) }
    {
        if self.has_number(number) {
            self.take(gone)
        } else {
            Ok(())
        }
    }

    // A receive. The number of the message received last before goes last in `gone`.
    fn take(&mut self, gone: &mut Vec<u32>) -> Result<(), AllocError>
        ensures pipe { OnOk result (self.new ≡ after_receive self.old) }
        ensures gone { OnOk result
            (gone.new.items ≡ gone.old.items ++ number_in self.old.last) }
    {
        push_number(gone, &self.last)?;
        self.last = take_oldest(&mut self.queue);
        Ok(())
    }

    /// The numbers of all its messages go last in `gone`, if it is the pipe of this number.
    pub(crate) fn push_numbers_at(&self, number: u32, gone: &mut Vec<u32>) -> Result<(), AllocError>
        ensures { OnOk result
            (gone.new.items ≡
            gone.old.items ++ (if self.now.number == number then numbers_on self.now else [])) }
    {
        if self.has_number(number) {
            self.push_numbers(gone)
        } else {
            Ok(())
        }
    }

    /// The numbers of all its messages go last in `gone`, if it is this application's.
    pub(crate) fn push_numbers_of(&self, app: AppNo, gone: &mut Vec<u32>) -> Result<(), AllocError>
        ensures { OnOk result
            (gone.new.items ≡
            gone.old.items ++ (if self.now.owner == app then numbers_on self.now else [])) }
    {
        if self.is_of(app) {
            self.push_numbers(gone)
        } else {
            Ok(())
        }
    }

    // The numbers of all its messages go last in `gone`.
    fn push_numbers(&self, gone: &mut Vec<u32>) -> Result<(), AllocError>
        ensures { OnOk result (gone.new.items ≡ gone.old.items ++ numbers_on self.now) }
    {
        push_all(gone, &self.queue)?;
        push_number(gone, &self.last)
    }

    /// Its option bits are these, if it is the pipe of this number.
    pub(crate) fn set_bits_if(&mut self, number: u32, bits: u8)
        ensures { self.new ≡
            (if self.old.number == number then with_bits bits self.old else self.old) }
    {
        if self.number == number {
            self.bits = bits;
        }
    }
}

// How many of these items a subscription queued.
fn count_of(items: &[ListItem], subscription: u32) -> usize
    ensures { result ≡ count_by (λ item. item.subscription == subscription) items.now }
{
    items.iter().filter(|item| item.is_of(subscription)).count()
}

// The oldest of these items.
#[tactic(auto, using(crate::proofs::Places::first_oldest))]
fn oldest(items: &[ListItem]) -> Option<&ListItem>
    ensures { MatchOption result (oldest items.now ≡ None)
        (λ item. oldest items.now ≡ Some item.now) }
{
    items.first()
}

// The oldest of these items leaves.
#[tactic(auto, using(crate::proofs::Places::none_oldest, crate::proofs::Places::some_oldest))]
fn take_oldest(queue: &mut Vec<ListItem>) -> Option<ListItem>
    ensures item { result ≡ oldest queue.old.items }
    ensures others { queue.new.items ≡ drop 1 queue.old.items }
{
    if queue.is_empty() {
        None
    } else {
        Some(queue.remove(0))
    }
}

// Queues an item by a verdict. The number of the message that leaves for it goes last in `gone`.
fn queue_by(
    queue: &mut Vec<ListItem>,
    verdict: Verdict,
    item: ListItem,
    gone: &mut Vec<u32>,
) -> Result<(), AllocError>
    ensures queue { OnOk result
        (queue.new.items ≡ queue_after verdict item queue.old.items) }
    ensures gone { OnOk result
        (gone.new.items ≡ gone.old.items ++ number_in (dropped_at verdict queue.old.items)) }
{
    match verdict {
        Verdict::In => Ok(queue.push(item)?),
        Verdict::Oldest => {
            let dropped = take_oldest(queue);
            push_number(gone, &dropped)?;
            Ok(queue.push(item)?)
        }
        Verdict::Skip => Ok(()),
        Verdict::OverLimit => Ok(()),
        Verdict::Full => Ok(()),
    }
}

// How many messages a pipe queues by this verdict.
fn queued_by(verdict: Verdict) -> usize
    ensures count { result ≡ (if is_queued verdict then 1 else 0) }
    ensures few { result ≤ 1 }
{
    match verdict {
        Verdict::In => 1,
        Verdict::Oldest => 1,
        Verdict::Skip => 0,
        Verdict::OverLimit => 0,
        Verdict::Full => 0,
    }
}

// The numbers of these items go last.
fn push_all(numbers: &mut Vec<u32>, items: &[ListItem]) -> Result<(), AllocError>
    ensures { OnOk result
        (numbers.new.items ≡ numbers.old.items ++ map (λ item. item.number) items.now) }
{
    for item in items {
        numbers.push(item.number())?;
    }
    Ok(())
}

// The number of an item, if there is one, goes last.
fn push_number(numbers: &mut Vec<u32>, item: &Option<ListItem>) -> Result<(), AllocError>
    ensures { OnOk result (numbers.new.items ≡ numbers.old.items ++ number_in item.now) }
{
    match item {
        Some(item) => Ok(numbers.push(item.number())?),
        None => Ok(()),
    }
}
