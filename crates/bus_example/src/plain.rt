//! The bus without a journal: for as long as a program lives, from one thread.
ghost use Rattle.std.specs.Prelude.{◌≡◌, ◌<◌, []};
ghost use Rattle.bus_words.specs.Acts.{opening_whole};
ghost use Rattle.bus_core.specs.Bags.{HasBag, KeepsBags};

use crate::message::{ID, message};
use buf_desc::Held;
use bus_core::PlainBus;
use bus_words::BusCall;
use fsw_base::{AppNo, Config, Scope};
use std::alloc::{AllocError, Global};
use std::marker::Brand;
use step_count::{Blank, Ledger, Steps};

/// Has application 2 send a message to application 1. Answers how many bytes it received, None
/// if a call was refused.
///
/// # Errors
/// If memory runs out.
pub fn run(alloc: Global) -> Result<Option<usize>, AllocError> {
    let cfg = Config::usual();
    let mut region = vec![in alloc; 0; cfg.pool as usize]?;
    let mut bus = PlainBus::new(alloc, &cfg, 2, &mut region)?;
    play::<Brand>(alloc, &mut bus, Blank::new(1))
}

// Has the one application listen, the other send, and the first receive.
fn play<'r, L: Ledger>(
    alloc: Global,
    bus: &mut PlainBus<'r>,
    blank: Blank,
) -> Result<Option<usize>, AllocError>
    requires name { blank.name ≡ L.name }
    requires parts { blank.parts ≡ L.parts }
    requires some_part { 0 < blank.parts }
    requires opened { bus.old ≡
        record {
          limits = bus.old.limits;
          whole = opening_whole bus.old.limits 2;
          loans = [];
          descs = [];
        } }
{
    let mut steps = Steps::<L>::new(blank);
    let receiver = AppNo::try_new(1).unwrap();
    let mut bag = bus.new_bag(alloc, receiver, 0)?;
    let Some(pipe) = listen(bus, receiver, &mut steps) else {
        return Ok(None);
    };
    send(bus, AppNo::try_new(2).unwrap(), &message(), &mut steps);
    Ok(receive(bus, receiver, pipe, &mut bag, &mut steps))
}

// Makes a pipe that is subscribed to the messages. Answers its number.
fn listen<L: Ledger>(bus: &mut PlainBus<'_>, app: AppNo, steps: &mut Steps<L>) -> Option<u32>
    ensures { KeepsBags bus.old bus.new }
{
    let (depth, name) = (4, b"TLM");
    if !bus.may_make(app, &BusCall::Create { depth, name }) || !bus.has_pipe_number() {
        return None;
    }
    let pipe = bus.create_pipe(app, depth, name).ok()?;
    let call = BusCall::Subscribe {
        id: ID,
        pipe,
        limit: 4,
        scope: Scope::Global,
    };
    if !bus.may_make(app, &call) || !bus.has_subscription_number() {
        return None;
    }
    let done = bus
        .subscribe(app, ID, pipe, 4, Scope::Global, steps)
        .is_ok();
    done.then_some(pipe)
}

// Sends a message.
fn send<L: Ledger>(bus: &mut PlainBus<'_>, app: AppNo, bytes: &[u8], steps: &mut Steps<L>)
    ensures { KeepsBags bus.old bus.new }
{
    if bus.may_make(app, &BusCall::Transmit { bytes, inc: true }) {
        let _ = bus.transmit(app, bytes, true, steps);
    }
}

// Receives a message, and reads it by its view in the bag. Answers how many bytes it has.
fn receive<'r, L: Ledger>(
    bus: &mut PlainBus<'r>,
    app: AppNo,
    pipe: u32,
    bag: &mut Held<'r>,
    steps: &mut Steps<L>,
) -> Option<usize>
    requires { HasBag bus.old app bag.old }
{
    if !bus.may_make(app, &BusCall::Receive { pipe }) {
        return None;
    }
    bus.receive(app, pipe, bag, steps).ok()?;
    Some(bag.view_of(pipe)?.bytes().len())
}
