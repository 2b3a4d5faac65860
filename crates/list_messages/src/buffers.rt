//! Unsent buffers.
ghost use Rattle.std.specs.Prelude.{◌≡◌, ◌-◌, ◌==◌, nat_lt, not, [], ◌∷◌, ◌++◌, length, map, filter, find, replicate, if◌then◌else◌, IfOk};
ghost use Rattle.std.specs.Result.{OnOk};
ghost use Rattle.bus_words.specs.Bus.{unsent_at, has_unsent, unsent_size, unsent_of, with_unsent, without_unsent, without_all_unsent};
ghost use Rattle.list_messages.specs.Tied.{numbers_left};

use fsw_base::AppNo;
use std::alloc::{AllocError, Global};
use std::marker::Model;

// An unsent buffer.
#[derive(Clone, Copy)]
struct ListBuffer {
    // The number that it will be sent under.
    number: u32,
    // How many bytes were asked for.
    size: u32,
}

impl Model for ListBuffer {
    ghost use Rattle.bus_words.specs.Bus.{Buffer};

    ghost Value = { Buffer };

    ghost view = { λ b. record { number = b.number; size = b.size } };

    ghost inverse = { λ b. record { number = b.number; size = b.size } };
}

/// The buffers that an application hasn't sent.
#[derive(Drop)]
pub(crate) struct OwnBuffers {
    // The newest first.
    buffers: Vec<ListBuffer>,
}

impl Model for OwnBuffers {
    ghost use Rattle.std.specs.Prelude.{List};
    ghost use Rattle.bus_words.specs.Bus.{Buffer};

    ghost Value = { List Buffer };

    ghost view = { λ b. b.buffers.items };
}

impl OwnBuffers {
    // None.
    fn new(alloc: Global) -> OwnBuffers
        ensures { result ≡ [] }
    {
        OwnBuffers {
            buffers: Vec::new(alloc),
        }
    }

    // The one of this number.
    fn find(&self, number: u32) -> Option<ListBuffer>
        ensures { result ≡ find (λ buffer. buffer.number == number) self.now }
    {
        find(&self.buffers, number)
    }

    // One more, which goes first.
    fn add(&mut self, number: u32, size: u32) -> Result<(), AllocError>
        ensures { OnOk result
            (self.new ≡ record { number = number; size = size } ∷ self.old) }
    {
        self.buffers.insert(0, ListBuffer { number, size })?;
        Ok(())
    }

    // Those of this number leave, and their numbers go last in `gone`.
    fn leave(&mut self, number: u32, gone: &mut Vec<u32>) -> Result<(), AllocError>
        ensures after { OnOk result
            (self.new ≡ filter (λ buffer. not (buffer.number == number)) self.old) }
        ensures gone { OnOk result
            (gone.new.items ≡ gone.old.items ++ numbers_left number self.old) }
    {
        push_left(gone, &self.buffers, number)?;
        leave_others(&mut self.buffers, number);
        Ok(())
    }

    // All leave, and their numbers go last in `gone`.
    fn leave_all(&mut self, gone: &mut Vec<u32>) -> Result<(), AllocError>
        ensures after { OnOk result (self.new ≡ []) }
        ensures gone { OnOk result
            (gone.new.items ≡ gone.old.items ++ map (λ buffer. buffer.number) self.old) }
    {
        push_all(gone, &self.buffers)?;
        self.buffers.clear();
        Ok(())
    }
}

// The buffer of a number.
fn find(buffers: &[ListBuffer], number: u32) -> Option<ListBuffer>
    ensures { result ≡ find (λ buffer. buffer.number == number) buffers.now }
{
    for buffer in buffers {
        if buffer.number == number {
            return Some(*buffer);
        }
    }
    None
}

// The buffers of other numbers.
fn leave_others(buffers: &mut Vec<ListBuffer>, number: u32)
    ensures { buffers.new.items ≡
        filter (λ buffer. not (buffer.number == number)) buffers.old.items }
{
    buffers.retain(|buffer| buffer.number != number);
}

// The number goes last, as often as one of these buffers has it.
fn push_left(numbers: &mut Vec<u32>, buffers: &[ListBuffer], number: u32) -> Result<(), AllocError>
    ensures { OnOk result
        (numbers.new.items ≡ numbers.old.items ++ numbers_left number buffers.now) }
{
    for buffer in buffers {
        push_if(numbers, *buffer, number)?;
    }
    Ok(())
}

// The number of a buffer goes last, if it is this one.
fn push_if(numbers: &mut Vec<u32>, buffer: ListBuffer, number: u32) -> Result<(), AllocError>
    ensures { OnOk result
        (numbers.new.items ≡
        numbers.old.items ++
        (if buffer.number == number then buffer.number ∷ [] else [])) }
{
    if buffer.number == number {
        Ok(numbers.push(buffer.number)?)
    } else {
        Ok(())
    }
}

// The numbers of all these buffers go last.
fn push_all(numbers: &mut Vec<u32>, buffers: &[ListBuffer]) -> Result<(), AllocError>
    ensures { OnOk result
        (numbers.new.items ≡
        numbers.old.items ++ map (λ buffer. buffer.number) buffers.now) }
{
    for buffer in buffers {
        numbers.push(buffer.number)?;
    }
    Ok(())
}

/// No buffer, of so many applications.
pub(crate) fn no_buffers(alloc: Global, apps: u32) -> Result<Vec<OwnBuffers>, AllocError>
    ensures { IfOk result (λ unsent. unsent.items ≡ replicate apps []) }
{
    let mut unsent = Vec::new(alloc);
    for _ in 0..apps {
        unsent.push(OwnBuffers::new(alloc))?;
    }
    Ok(unsent)
}

// An application's buffer of a number.
fn buffer_of(unsent: &[OwnBuffers], app: AppNo, number: u32) -> Option<ListBuffer>
    ensures { result ≡ unsent_at unsent.now app number }
{
    match unsent.get(app.get() as usize - 1) {
        Some(buffers) => buffers.find(number),
        None => None,
    }
}

/// Whether an application has an unsent buffer of this number.
pub(crate) fn has_unsent(unsent: &[OwnBuffers], app: AppNo, number: u32) -> bool
    ensures { result ≡ has_unsent unsent.now app number }
{
    buffer_of(unsent, app, number).is_some()
}

/// The size of an application's unsent buffer; 0 if it has none of this number.
pub(crate) fn unsent_size(unsent: &[OwnBuffers], app: AppNo, number: u32) -> u32
    ensures { result ≡ unsent_size unsent.now app number }
{
    match buffer_of(unsent, app, number) {
        Some(buffer) => buffer.size,
        None => 0,
    }
}

/// Whether an application has a list of its own.
pub(crate) fn has_place(unsent: &Vec<OwnBuffers>, app: AppNo) -> bool
    ensures { result ≡ nat_lt (app - 1) (length unsent.now.items) }
{
    (app.get() as usize - 1) < unsent.len()
}

/// An application has one buffer more.
pub(crate) fn add(
    unsent: &mut Vec<OwnBuffers>,
    app: AppNo,
    number: u32,
    size: u32,
) -> Result<(), AllocError>
    ensures { OnOk result
        (unsent.new.items ≡
        with_unsent unsent.old.items app (record { number = number; size = size })) }
{
    let place = app.get() as usize - 1;
    if place < unsent.len() {
        unsent[place].add(number, size)?;
    }
    Ok(())
}

/// An application's buffers of a number leave, and their numbers go last in `gone`.
pub(crate) fn leave(
    unsent: &mut Vec<OwnBuffers>,
    app: AppNo,
    number: u32,
    gone: &mut Vec<u32>,
) -> Result<(), AllocError>
    ensures after { OnOk result
        (unsent.new.items ≡ without_unsent unsent.old.items app number) }
    ensures gone { OnOk result
        (gone.new.items ≡ gone.old.items ++ numbers_left number (unsent_of unsent.old.items app)) }
{
    let place = app.get() as usize - 1;
    if place < unsent.len() {
        unsent[place].leave(number, gone)?;
    }
    Ok(())
}

/// All buffers of an application leave, and their numbers go last in `gone`.
pub(crate) fn leave_all(
    unsent: &mut Vec<OwnBuffers>,
    app: AppNo,
    gone: &mut Vec<u32>,
) -> Result<(), AllocError>
    ensures after { OnOk result
        (unsent.new.items ≡ without_all_unsent unsent.old.items app) }
    ensures gone { OnOk result
        (gone.new.items ≡
        gone.old.items ++ map (λ buffer. buffer.number) (unsent_of unsent.old.items app)) }
{
    let place = app.get() as usize - 1;
    if place < unsent.len() {
        unsent[place].leave_all(gone)?;
    }
    Ok(())
}
