//! The calls of the plain bus whose answers have the number of a send or a grant, with that in 32
//! bits: budgets are below 2^32, so no journal gives more.
ghost use Rattle.std.specs.Prelude.{◌≡◌, ℕ, ◌+◌, ◌*◌, ◌^◌, ◌<◌, ◌≤◌, false, length, replicate, Ok, IfOk, OnErr};
ghost use Rattle.ccsds_msg.specs.Message.{message_id};
ghost use Rattle.housekeeping.specs.Packet.{housekeeping_id};
ghost use Rattle.buf_desc.specs.Held.{bytes_at};
ghost use Rattle.fsw_base.specs.Grants.{pool_in};
ghost use Rattle.bus_words.specs.declared.history.Call.TheVariants.{Transmit, Receive, Pend, Look, Allocate, TransmitBuffer, PoolGet, Housekeeping};
ghost use Rattle.bus_words.specs.Bus.{owns, route};
ghost use Rattle.bus_core.specs.Core.{MayAct, Acts, with_tick, drops_for};
ghost use Rattle.bus_core.specs.Answers.{numbered, got, pool_told};
ghost use Rattle.bus_core.specs.Bags.{HasBag, KeepsBags, KeepsBuffers, KeepsAllLoans, KeepsLoans, KeepsAllDescs, KeepsDescs};
ghost use Rattle.sb_calls.specs.Answers.{sent, waited, pended};

use crate::results::{Pended, Sent};
use buf_desc::Held;
use bus_core::PlainBus;
use fsw_base::{AppNo, EsStatus, SbStatus};
use housekeeping::CounterName;
use step_count::{Ledger, Steps};

// What a send was answered, with its number in 32 bits.
fn short_sent(sent: bus_core::Sent) -> Sent
    requires { sent.number < 2 ^ 32 }
    ensures { result ≡ record { number = sent.number; reached = sent.reached } }
{
    Sent {
        number: sent.number as u32,
        reached: sent.reached,
    }
}

/// [`PlainBus::transmit`], with the message's number in 32 bits.
pub(crate) fn transmit<L: Ledger>(
    core: &mut PlainBus<'_>,
    app: AppNo,
    bytes: &[u8],
    inc: bool,
    steps: &mut Steps<L>,
) -> Result<Sent, SbStatus>
    requires may { MayAct core.old app (Transmit bytes.now inc) }
    requires few { core.old.whole.bus.numbers_given + 1 < 2 ^ 32 }
    ensures does { Acts core.old core.new app (Transmit bytes.now inc) (sent result) }
    ensures cost { steps.new
        ≤ steps.old + 32 + 4 * length
        (route core.old.whole.bus.subscriptions (message_id bytes.now)) +
        8 * drops_for core.old.whole.bus app (message_id bytes.now) }
    ensures bags { KeepsBags core.old core.new }
    ensures loans { KeepsAllLoans core.old core.new }
    ensures descs { KeepsAllDescs core.old core.new }
{
    match core.transmit(app, bytes, inc, steps) {
        Ok(sent) => Ok(short_sent(sent)),
        Err(status) => Err(status),
    }
}

/// [`PlainBus::send_housekeeping`], with the message's number in 32 bits.
pub(crate) fn send_housekeeping<L: Ledger>(
    core: &mut PlainBus<'_>,
    app: AppNo,
    steps: &mut Steps<L>,
) -> Result<Sent, SbStatus>
    requires may { MayAct core.old app Housekeeping }
    requires few { core.old.whole.bus.numbers_given + 1 < 2 ^ 32 }
    ensures does { Acts core.old core.new app Housekeeping (sent result) }
    ensures cost { steps.new
        ≤ steps.old + 32 + 4 * length
        (route core.old.whole.bus.subscriptions housekeeping_id) +
        8 * drops_for core.old.whole.bus app housekeeping_id }
    ensures bags { KeepsBags core.old core.new }
    ensures loans { KeepsAllLoans core.old core.new }
    ensures descs { KeepsAllDescs core.old core.new }
{
    match core.send_housekeeping(app, steps) {
        Ok(sent) => Ok(short_sent(sent)),
        Err(status) => Err(status),
    }
}

/// [`PlainBus::allocate`], with the number of the buffer in 32 bits.
pub(crate) fn allocate<'r, L: Ledger>(
    core: &mut PlainBus<'r>,
    app: AppNo,
    size: u32,
    held: &mut Held<'r>,
    steps: &mut Steps<L>,
) -> Result<u32, SbStatus>
    requires may { MayAct core.old app (Allocate size) }
    requires few { core.old.whole.bus.numbers_given + 1 < 2 ^ 32 }
    requires bag { HasBag core.old app held.old }
    requires room { length held.old.buffers < held.old.buffer_room }
    ensures does { Acts core.old core.new app (Allocate size) (numbered result) }
    ensures refused { OnErr result (core.new ≡ with_tick core.old CounterName.Send) }
    ensures bag_refused { OnErr result (held.new ≡ held.old) }
    ensures zeros { IfOk result (λ number. bytes_at held.new number ≡ replicate size 0) }
    ensures buffers { IfOk result (KeepsBuffers held.old held.new) }
    ensures descs { IfOk result (KeepsDescs core.old core.new) }
    ensures loans { KeepsAllLoans core.old core.new }
    ensures bag { HasBag core.new app held.new }
    ensures views { held.new ≡ record held.old { buffers = held.new.buffers } }
    ensures count { length held.new.buffers ≤ length held.old.buffers + 1 }
    ensures cost { steps.new ≤ steps.old + 32 }
{
    match core.allocate(app, size, held, steps) {
        Ok(number) => Ok(number as u32),
        Err(status) => Err(status),
    }
}

/// [`PlainBus::transmit_buffer`], with the message's number in 32 bits.
pub(crate) fn transmit_buffer<'r, L: Ledger>(
    core: &mut PlainBus<'r>,
    app: AppNo,
    buf: u32,
    inc: bool,
    held: &mut Held<'r>,
    steps: &mut Steps<L>,
) -> Result<Sent, SbStatus>
    requires may { MayAct core.old app (TransmitBuffer buf (bytes_at held.old buf) inc) }
    requires bag { HasBag core.old app held.old }
    ensures does { Acts core.old core.new app (TransmitBuffer buf (bytes_at held.old buf) inc)
        (sent result) }
    ensures refused { OnErr result (core.new ≡ with_tick core.old CounterName.Send) }
    ensures bag_refused { OnErr result (held.new ≡ held.old) }
    ensures buffers { KeepsBuffers held.old held.new buf }
    ensures descs { KeepsDescs core.old core.new buf }
    ensures loans { KeepsAllLoans core.old core.new }
    ensures bag { HasBag core.new app held.new }
    ensures views { held.new ≡ record held.old { buffers = held.new.buffers } }
    ensures count { length held.new.buffers ≤ length held.old.buffers }
    ensures cost { steps.new
        ≤ steps.old + 32 + 4 * length
        (route core.old.whole.bus.subscriptions (message_id (bytes_at held.old buf))) +
        8 * drops_for core.old.whole.bus app (message_id (bytes_at held.old buf)) }
{
    match core.transmit_buffer(app, buf as u64, inc, held, steps) {
        Ok(sent) => Ok(short_sent(sent)),
        Err(status) => Err(status),
    }
}

/// [`PlainBus::receive`], with the message's number in 32 bits.
pub(crate) fn receive<'r, L: Ledger>(
    core: &mut PlainBus<'r>,
    app: AppNo,
    pipe: u32,
    held: &mut Held<'r>,
    steps: &mut Steps<L>,
) -> Result<u32, SbStatus>
    requires may { MayAct core.old app (Receive pipe) }
    requires few { core.old.whole.bus.numbers_given + 1 < 2 ^ 32 }
    requires bag { HasBag core.old app held.old }
    ensures does { Acts core.old core.new app (Receive pipe) (got result) }
    ensures unowned { owns core.old.whole.bus.pipes app pipe ≡ false →
        core.new ≡ with_tick core.old CounterName.Recv }
    ensures bag_refused { owns core.old.whole.bus.pipes app pipe ≡ false → held.new ≡ held.old }
    ensures loans { KeepsLoans core.old core.new pipe }
    ensures descs { KeepsAllDescs core.old core.new }
    ensures bag { HasBag core.new app held.new }
    ensures buffers { held.new ≡ record held.old { views = held.new.views } }
    ensures cost { steps.new ≤ steps.old + 32 }
{
    match core.receive(app, pipe, held, steps) {
        Ok(number) => Ok(number as u32),
        Err(status) => Err(status),
    }
}

/// [`PlainBus::pend`], with the message's number in 32 bits.
pub(crate) fn pend<'r, L: Ledger>(
    core: &mut PlainBus<'r>,
    app: AppNo,
    pipe: u32,
    held: &mut Held<'r>,
    steps: &mut Steps<L>,
) -> Result<Pended, SbStatus>
    requires may { MayAct core.old app (Pend pipe) }
    requires few { core.old.whole.bus.numbers_given + 1 < 2 ^ 32 }
    requires bag { HasBag core.old app held.old }
    ensures does { Acts core.old core.new app (Pend pipe) (pended result) }
    ensures unowned { owns core.old.whole.bus.pipes app pipe ≡ false →
        core.new ≡ with_tick core.old CounterName.Recv }
    ensures bag_refused { OnErr result (held.new ≡ held.old) }
    ensures loans { KeepsLoans core.old core.new pipe }
    ensures descs { KeepsAllDescs core.old core.new }
    ensures bag { HasBag core.new app held.new }
    ensures buffers { held.new ≡ record held.old { views = held.new.views } }
    ensures cost { steps.new ≤ steps.old + 32 }
{
    match core.pend(app, pipe, held, steps) {
        Ok(bus_core::Pended::Got(number)) => Ok(Pended::Got(number as u32)),
        Ok(bus_core::Pended::TimeOut) => Ok(Pended::TimeOut),
        Ok(bus_core::Pended::Pending) => Ok(Pended::Pending),
        Err(status) => Err(status),
    }
}

/// [`PlainBus::look`], with the message's number in 32 bits.
pub(crate) fn look<'r>(
    core: &mut PlainBus<'r>,
    app: AppNo,
    pipe: u32,
    held: &mut Held<'r>,
) -> Pended
    requires may { MayAct core.old app (Look pipe) }
    requires few { core.old.whole.bus.numbers_given + 1 < 2 ^ 32 }
    requires bag { HasBag core.old app held.old }
    ensures does { Acts core.old core.new app (Look pipe) (waited result) }
    ensures still { result ≡ Pended.Pending → core.new ≡ core.old }
    ensures bag_still { result ≡ Pended.Pending → held.new ≡ held.old }
    ensures loans { KeepsLoans core.old core.new pipe }
    ensures descs { KeepsAllDescs core.old core.new }
    ensures bag { HasBag core.new app held.new }
    ensures buffers { held.new ≡ record held.old { views = held.new.views } }
{
    match core.look(app, pipe, held) {
        bus_core::Pended::Got(number) => Pended::Got(number as u32),
        bus_core::Pended::TimeOut => Pended::TimeOut,
        bus_core::Pended::Pending => Pended::Pending,
    }
}

/// [`PlainBus::pool_get`], with the number of the grant in 32 bits.
pub(crate) fn pool_get<L: Ledger>(
    core: &mut PlainBus<'_>,
    app: AppNo,
    pool: u32,
    size: u32,
    steps: &mut Steps<L>,
) -> Result<u32, EsStatus>
    requires may { MayAct core.old app (PoolGet pool size) }
    requires few { (pool_in core.old.whole.bus.pools pool).given + 1 < 2 ^ 32 }
    ensures does { Acts core.old core.new app (PoolGet pool size) (pool_told result) }
    ensures cost { steps.new ≤ steps.old + 8 }
    ensures bags { KeepsBags core.old core.new }
    ensures loans { KeepsAllLoans core.old core.new }
    ensures descs { KeepsAllDescs core.old core.new }
{
    match core.pool_get(app, pool, size, steps) {
        Ok(grant) => Ok(grant as u32),
        Err(status) => Err(status),
    }
}
