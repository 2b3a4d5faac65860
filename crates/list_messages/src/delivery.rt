//! What is sent goes to the subscriptions of its id.
ghost use Rattle.std.specs.Prelude.{◌≡◌, ◌+◌, ◌∷◌, ◌++◌, [], if◌then◌else◌, IfOk};
ghost use Rattle.std.specs.Option.{option_map_or, option_and_then};
ghost use Rattle.std.specs.Result.{OnOk};
ghost use Rattle.bus_words.specs.Bus.{Pipe, deliver, reached, missed, offered, offer_of, verdict};
ghost use Rattle.bus_words.specs.Pipes.{pipe_at, with_pipe, counted_by, misses_by, cause_of, is_queued};
ghost use Rattle.list_pipes.specs.Leaving.{dropped_from, joined_to};
ghost use Rattle.list_messages.specs.Tied.{dropped_by, joined_by};

use bus_words::{Miss, MissCause, Verdict};
use list_pipes::{ListPipe, ListSending, ListSubscription, offer_to, pipe_at};
use std::alloc::{AllocError, Global};

/// What a send did.
#[derive(Drop)]
pub struct Delivery {
    /// The number of the message.
    pub number: u32,
    /// How many pipes it reached.
    pub reached: u32,
    /// The pipes that missed it, or their oldest message for it, in order.
    pub misses: Vec<Miss>,
    // How many pipes queue it.
    pub(crate) joined: usize,
    // The numbers of the messages that left for it.
    pub(crate) gone: Vec<u32>,
}

impl Delivery {
    // Nothing was done yet of the send of this number.
    fn new(alloc: Global, number: u32) -> Delivery
        ensures number { result.number ≡ number }
        ensures reached { result.reached ≡ 0 }
        ensures misses { result.misses.items ≡ [] }
        ensures joined { result.joined ≡ 0 }
        ensures gone { result.gone.items ≡ [] }
    {
        Delivery {
            number,
            reached: 0,
            misses: Vec::new(alloc),
            joined: 0,
            gone: Vec::new(alloc),
        }
    }

    // A subscription is offered what is sent.
    fn offer(
        &mut self,
        pipes: &mut Vec<ListPipe>,
        sending: &ListSending,
        sub: &ListSubscription,
    ) -> Result<(), AllocError>
        ensures pipes { OnOk result
            (pipes.new.items ≡
            with_pipe (offered sending.now sub.now) sub.now.pipe pipes.old.items) }
        ensures number { OnOk result (self.new.number ≡ self.old.number) }
        ensures reached { OnOk result
            (self.new.reached ≡
            self.old.reached +
            counted_by is_queued (offer_of sending.now) sub.now pipes.old.items) }
        ensures misses { OnOk result
            (self.new.misses.items ≡
            self.old.misses.items ++ misses_by (offer_of sending.now) sub.now pipes.old.items) }
        ensures gone { OnOk result
            (self.new.gone.items ≡
            self.old.gone.items ++ dropped_from sending.now sub.now pipes.old.items) }
        ensures joined { OnOk result
            (self.new.joined ≡
            self.old.joined + joined_to sending.now sub.now pipes.old.items) }
    {
        let reached = reached_at(pipes, sending, sub);
        let cause = missed_at(pipes, sending, sub);
        push_miss(&mut self.misses, sub.pipe(), cause)?;
        let queued = offer_to(pipes, sending, sub, &mut self.gone)?;
        self.reached = self.reached.checked_add(reached).ok_or(AllocError)?;
        self.joined = self.joined.checked_add(queued).ok_or(AllocError)?;
        Ok(())
    }
}

// 1 if the pipe of a subscription queues what is sent, or 0.
fn reached_at(pipes: &[ListPipe], sending: &ListSending, sub: &ListSubscription) -> u32
    ensures { result ≡ counted_by is_queued (offer_of sending.now) sub.now pipes.now }
{
    match pipe_at(pipes, sub.pipe()) {
        Some(pipe) => reached_by(pipe.verdict(sub, sending.sender())),
        None => 0,
    }
}

// 1 if a pipe queues a message at this verdict, or 0.
fn reached_by(verdict: Verdict) -> u32
    ensures { result ≡ (if is_queued verdict then 1 else 0) }
{
    match verdict {
        Verdict::In | Verdict::Oldest => 1,
        Verdict::Skip | Verdict::OverLimit | Verdict::Full => 0,
    }
}

// Why a message is missed at the pipe of a subscription that is offered what is sent, if one is.
fn missed_at(pipes: &[ListPipe], sending: &ListSending, sub: &ListSubscription) -> Option<MissCause>
    ensures { result ≡
        option_and_then (λ (pipe : Pipe). cause_of (verdict pipe sub.now sending.now.sender))
        (pipe_at pipes.now sub.now.pipe) }
{
    match pipe_at(pipes, sub.pipe()) {
        Some(pipe) => cause_of(pipe.verdict(sub, sending.sender())),
        None => None,
    }
}

// Why a message is missed at this verdict, if one is.
fn cause_of(verdict: Verdict) -> Option<MissCause>
    ensures { result ≡ cause_of verdict }
{
    match verdict {
        Verdict::OverLimit => Some(MissCause::OverLimit),
        Verdict::Full => Some(MissCause::Full),
        Verdict::Oldest => Some(MissCause::Oldest),
        Verdict::Skip | Verdict::In => None,
    }
}

// A pipe goes last, if a message is missed there.
fn push_miss(misses: &mut Vec<Miss>, pipe: u32, cause: Option<MissCause>) -> Result<(), AllocError>
    ensures { OnOk result
        (misses.new.items ≡
        misses.old.items ++
        option_map_or (λ why. record { pipe = pipe; cause = why } ∷ []) cause []) }
{
    match cause {
        Some(cause) => Ok(misses.push(Miss { pipe, cause })?),
        None => Ok(()),
    }
}

/// What is sent goes to these subscriptions, in order.
pub(crate) fn deliver(
    alloc: Global,
    pipes: &mut Vec<ListPipe>,
    sending: &ListSending,
    subs: &[ListSubscription],
) -> Result<Delivery, AllocError>
    ensures pipes { OnOk result
        (pipes.new.items ≡ deliver sending.now subs.now pipes.old.items) }
    ensures number { IfOk result (λ done. done.number ≡ sending.now.number) }
    ensures reached { IfOk result
        (λ done. done.reached ≡ reached sending.now subs.now pipes.old.items) }
    ensures misses { IfOk result
        (λ done. done.misses.items ≡ missed sending.now subs.now pipes.old.items) }
    ensures gone { IfOk result
        (λ done. done.gone.items ≡ dropped_by sending.now subs.now pipes.old.items) }
    ensures joined { IfOk result
        (λ done. done.joined ≡ joined_by sending.now subs.now pipes.old.items) }
{
    let mut done = Delivery::new(alloc, sending.number());
    for sub in subs {
        done.offer(pipes, sending, sub)?;
    }
    Ok(done)
}
