//! Lists of pipes.
ghost use Rattle.std.specs.Prelude.{◌≡◌, ◌==◌, ◌++◌, not, filter, MatchOption, None, Some, IfOk};
ghost use Rattle.std.specs.Option.{option_copied, option_map, option_map_or};
ghost use Rattle.std.specs.Result.{OnOk};
ghost use Rattle.bus_words.specs.Bus.{is_empty, offered};
ghost use Rattle.bus_words.specs.Machine.{oldest_number};
ghost use Rattle.bus_words.specs.Pipes.{pipe_at, pipe_named, is_live, owns, is_named, with_pipe, without_pipe, with_bits, after_receive};
ghost use Rattle.list_pipes.specs.Leaving.{numbers_at, numbers_of, last_at, dropped_from, joined_to};

use crate::items::{ListItem, ListSending};
use crate::pipe::ListPipe;
use crate::subscriptions::ListSubscription;
use fsw_base::AppNo;
use std::alloc::AllocError;

/// The pipe of a number.
pub fn pipe_at(pipes: &[ListPipe], number: u32) -> Option<&ListPipe>
    ensures { MatchOption result (pipe_at pipes.now number ≡ None)
        (λ pipe. pipe_at pipes.now number ≡ Some pipe.now) }
{
    for pipe in pipes {
        if pipe.has_number(number) {
            return Some(pipe);
        }
    }
    None
}

/// The number of the pipe of a name.
pub fn number_named(pipes: &[ListPipe], name: &[u8]) -> Option<u32>
    ensures { result ≡ option_map (λ pipe. pipe.number) (pipe_named pipes.now name.now) }
{
    for pipe in pipes {
        if pipe.has_name(name) {
            return Some(pipe.number());
        }
    }
    None
}

/// Whether a pipe of this number is among them.
pub fn is_live(pipes: &[ListPipe], number: u32) -> bool
    ensures { result ≡ is_live pipes.now number }
{
    pipes.iter().any(|pipe| pipe.has_number(number))
}

/// Whether a pipe of this number is among them and this application's.
pub fn owns(pipes: &[ListPipe], app: AppNo, number: u32) -> bool
    ensures { result ≡ owns pipes.now app number }
{
    pipes.iter().any(|pipe| pipe.is_owned(app, number))
}

/// Whether a pipe of this name is among them.
pub fn is_named(pipes: &[ListPipe], name: &[u8]) -> bool
    ensures { result ≡ is_named pipes.now name.now }
{
    pipes.iter().any(|pipe| pipe.has_name(name))
}

/// Whether a message waits on the pipe of this number.
pub fn has_message(pipes: &[ListPipe], number: u32) -> bool
    ensures { result ≡ not (is_empty pipes.now number) }
{
    match pipe_at(pipes, number) {
        Some(pipe) => !pipe.is_empty(),
        None => false,
    }
}

/// The number of the oldest message that waits on the pipe of this number; 0 if none does.
pub fn oldest_number(pipes: &[ListPipe], number: u32) -> u32
    ensures { result ≡ oldest_number pipes.now number }
{
    match pipe_at(pipes, number) {
        Some(pipe) => number_of(pipe.oldest()),
        None => 0,
    }
}

// The number of a message; 0 if there is none.
fn number_of(item: Option<&ListItem>) -> u32
    ensures { result ≡ option_map_or (λ i. i.number) (option_copied item.entry) 0 }
{
    match item {
        Some(item) => item.number(),
        None => 0,
    }
}

/// The pipe of this number has these option bits.
pub fn set_bits_of(pipes: &mut Vec<ListPipe>, number: u32, bits: u8)
    ensures { pipes.new.items ≡ with_pipe (with_bits bits) number pipes.old.items }
{
    for place in 0..pipes.len() {
        pipes[place].set_bits_if(number, bits);
    }
}

/// A receive on the pipe of this number. The number of the message received last before goes last
/// in `gone`.
///
/// # Errors
/// `AllocError` if memory runs out. The pipes are unspecified then.
pub fn take_from(
    pipes: &mut Vec<ListPipe>,
    number: u32,
    gone: &mut Vec<u32>,
) -> Result<(), AllocError>
    ensures pipes { OnOk result
        (pipes.new.items ≡ with_pipe after_receive number pipes.old.items) }
    ensures gone { OnOk result
        (gone.new.items ≡ gone.old.items ++ last_at number pipes.old.items) }
{
    for place in 0..pipes.len() {
        pipes[place].take_if(number, gone)?;
    }
    Ok(())
}

/// A subscription's pipe is offered what is sent: how many pipes queue it, at most one if pipes
/// have different numbers. The number of a message that leaves for it goes last in `gone`.
///
/// # Errors
/// `AllocError` if memory runs out. The pipes are unspecified then.
pub fn offer_to(
    pipes: &mut Vec<ListPipe>,
    sending: &ListSending,
    sub: &ListSubscription,
    gone: &mut Vec<u32>,
) -> Result<usize, AllocError>
    ensures pipes { OnOk result
        (pipes.new.items ≡
        with_pipe (offered sending.now sub.now) sub.now.pipe pipes.old.items) }
    ensures gone { OnOk result
        (gone.new.items ≡ gone.old.items ++ dropped_from sending.now sub.now pipes.old.items) }
    ensures joined { IfOk result
        (λ joined. joined ≡ joined_to sending.now sub.now pipes.old.items) }
{
    let mut joined = 0;
    for place in 0..pipes.len() {
        joined += pipes[place].offer_if(sending, sub, gone)?;
    }
    Ok(joined)
}

/// The numbers of all messages of the pipe of this number go last in `gone`.
///
/// # Errors
/// `AllocError` if memory runs out.
pub fn push_numbers_at(
    pipes: &[ListPipe],
    number: u32,
    gone: &mut Vec<u32>,
) -> Result<(), AllocError>
    ensures { OnOk result
        (gone.new.items ≡ gone.old.items ++ numbers_at number pipes.now) }
{
    for pipe in pipes {
        pipe.push_numbers_at(number, gone)?;
    }
    Ok(())
}

/// The numbers of all messages of an application's pipes go last in `gone`.
///
/// # Errors
/// `AllocError` if memory runs out.
pub fn push_numbers_of(
    pipes: &[ListPipe],
    app: AppNo,
    gone: &mut Vec<u32>,
) -> Result<(), AllocError>
    ensures { OnOk result (gone.new.items ≡ gone.old.items ++ numbers_of app pipes.now) }
{
    for pipe in pipes {
        pipe.push_numbers_of(app, gone)?;
    }
    Ok(())
}

/// The pipes but the one of this number.
pub fn leave_pipe(pipes: &mut Vec<ListPipe>, number: u32)
    ensures { pipes.new.items ≡ without_pipe number pipes.old.items }
{
    pipes.retain(|pipe| !pipe.has_number(number));
}

/// The pipes of the other applications.
pub fn leave_others(pipes: &mut Vec<ListPipe>, app: AppNo)
    ensures { pipes.new.items ≡ filter (λ pipe. not (pipe.owner == app)) pipes.old.items }
{
    pipes.retain(|pipe| !pipe.is_of(app));
}
