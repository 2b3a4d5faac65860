//! The bus on threads: each application has a port, and makes its calls from a thread of its own.
//! Two of them read one message at once, since whoever reads takes no lock.
ghost use Rattle.std.specs.Prelude.{◌≡◌};

use crate::message::{ID, message};
use bus_service::{Bus, BusPort};
use bus_words::BusCall;
use fsw_base::{AppNo, Budget, Config, Scope};
use std::alloc::{AllocError, Global};
use std::sync::Wait;
use std::sync::atomic::AtomicU64;
use std::sync::atomic::Ordering::SeqCst;
use std::thread::{Threads, join, yield_now};

// What each application may add to the journal: calls with their answers, and bytes of names and
// messages.
static BUDGETS: [Budget; 2] = [Budget {
    entries: 8,
    bytes: 100,
    buffers: 0,
}; 2];

// How often an application that reads looks for the other at most.
const LOOKS: u32 = 10_000_000;

// An application: the bus and its port. It is one value, so that a closure takes all at one
// lifetime.
#[derive(Drop)]
struct App<'e, 'r> {
    // The bus.
    bus: &'e Bus<'r>,
    // How many applications have the message's bytes at hand.
    reading: &'e AtomicU64,
    // The application's port.
    port: BusPort<'r>,
}

/// Has application 2 send a message to application 1 and itself, each on a thread, and both read it
/// at once. Answers how many bytes each read, None if a call was refused.
///
/// # Errors
/// If memory runs out.
pub fn run<R: Threads + Wait + Sync>(
    rt: &R,
    alloc: Global,
) -> Result<Option<(usize, usize)>, AllocError> {
    let cfg = Config::usual();
    let mut region = vec![in alloc; 0; cfg.pool as usize]?;
    let reading = AtomicU64::new(0);
    let (bus, mut main) = Bus::new(alloc, &cfg, &BUDGETS, &mut region)?;
    let port = bus.port(alloc, &mut main, AppNo::try_new(1).unwrap())?;
    let one = App {
        bus: &bus,
        reading: &reading,
        port,
    };
    let port = bus.port(alloc, &mut main, AppNo::try_new(2).unwrap())?;
    let two = App {
        bus: &bus,
        reading: &reading,
        port,
    };
    Ok(play(rt, one, two))
}

// Has both applications listen; then the one waits for a message, and the other sends it and
// receives it too.
fn play<R: Threads + Wait + Sync>(
    rt: &R,
    mut one: App<'_, '_>,
    mut two: App<'_, '_>,
) -> Option<(usize, usize)>
    requires one { one.port.lock ≡ one.bus.now }
    requires two { two.port.lock ≡ two.bus.now }
{
    let first = listen(rt, one.bus, &mut one.port, b"ONE")?;
    let second = listen(rt, two.bus, &mut two.port, b"TWO")?;
    let (left, right) = join(
        rt,
        move || -> Option<usize>
            requires { one.port.lock ≡ one.bus.now }
        { receive(rt, one, first) },
        move || -> Option<usize>
            requires { two.port.lock ≡ two.bus.now }
        { send_and_receive(rt, two, second) },
    );
    Some((left?, right?))
}

// Makes a pipe that is subscribed to the messages. Answers its number.
fn listen<'r, R: Wait>(rt: &R, bus: &Bus<'r>, port: &mut BusPort<'r>, name: &[u8]) -> Option<u32>
    requires { port.old.lock ≡ bus.now }
    ensures { port.new.lock ≡ port.old.lock }
{
    let pipe = create(rt, bus, port, name)?;
    subscribe(rt, bus, port, pipe).then_some(pipe)
}

// Makes a pipe. Answers its number.
fn create<'r, R: Wait>(rt: &R, bus: &Bus<'r>, port: &mut BusPort<'r>, name: &[u8]) -> Option<u32>
    requires { port.old.lock ≡ bus.now }
    ensures { port.new.lock ≡ port.old.lock }
{
    let depth = 4;
    if !port.may_make(&BusCall::Create { depth, name }) {
        return None;
    }
    port.create_pipe(bus, rt, depth, name).ok()
}

// Subscribes a pipe to the messages. Answers whether it was accepted.
fn subscribe<'r, R: Wait>(rt: &R, bus: &Bus<'r>, port: &mut BusPort<'r>, pipe: u32) -> bool
    requires { port.old.lock ≡ bus.now }
    ensures { port.new.lock ≡ port.old.lock }
{
    let call = BusCall::Subscribe {
        id: ID,
        pipe,
        limit: 4,
        scope: Scope::Global,
    };
    port.may_make(&call) && port.subscribe(bus, rt, ID, pipe, 4, Scope::Global).is_ok()
}

// Sends the message, and receives it.
fn send_and_receive<R: Wait>(rt: &R, app: App<'_, '_>, pipe: u32) -> Option<usize>
    requires { app.port.lock ≡ app.bus.now }
{
    let App {
        bus,
        reading,
        mut port,
    } = app;
    send(rt, bus, &mut port, &message());
    receive(rt, App { bus, reading, port }, pipe)
}

// Sends a message. Answers whether it was accepted.
fn send<'r, R: Wait>(rt: &R, bus: &Bus<'r>, port: &mut BusPort<'r>, bytes: &[u8]) -> bool
    requires { port.old.lock ≡ bus.now }
    ensures { port.new.lock ≡ port.old.lock }
{
    port.may_make(&BusCall::Transmit { bytes, inc: true })
        && port.transmit(bus, rt, bytes, true).is_ok()
}

// Waits for a message, reads it without the lock, and ends, so that no other application waits in
// vain. Answers how many bytes it has.
fn receive<R: Wait>(rt: &R, app: App<'_, '_>, pipe: u32) -> Option<usize>
    requires { app.port.lock ≡ app.bus.now }
{
    let App {
        bus,
        reading,
        mut port,
    } = app;
    if port.may_make(&BusCall::Pend { pipe }) && port.pend(bus, rt, pipe).is_ok() {
        look(rt, bus, &mut port);
    }
    let received = match port.last(pipe) {
        Some(bytes) => read_at_once(bytes, reading),
        None => None,
    };
    if port.may_make(&BusCall::End) {
        port.end(bus, rt);
    }
    received
}

// Has a message's bytes at hand until the other application has them too. Answers how many bytes
// there are, None if the other doesn't come.
fn read_at_once(bytes: &[u8], reading: &AtomicU64) -> Option<usize> {
    reading.fetch_add(1, SeqCst);
    for _ in 0..LOOKS {
        if reading.load(SeqCst) == 2 {
            return Some(bytes.len());
        }
        yield_now();
    }
    None
}

// Looks again as long as the application waits. In between it sleeps until a waiting
// application has news.
fn look<'r, R: Wait>(rt: &R, bus: &Bus<'r>, port: &mut BusPort<'r>)
    requires { port.old.lock ≡ bus.now }
    ensures { port.new.lock ≡ port.old.lock }
{
    for _ in rt.forever() {
        if !port.may_look() {
            return;
        }
        port.look(bus, rt);
    }
}
