//! The calls of one application by its two ports.
ghost use Rattle.std.specs.Prelude.{◌≡◌};
ghost use Rattle.port_calls.specs.Ports.{caller_of};

use crate::locks::Locks;
use crate::table_calls::make;
use crate::writing::{form_in, put_bytes_in};
use app_calls::Calls;
use bus_service::{Bus, BusPort};
use bus_words::PipeText;
use fsw_base::{BusStats, EsStatus, EventKind, EvsStatus, FilterList, PoolStats, SbStatus, Scope};
use sb_calls::{Pended, Sent};
use std::marker::{Model, PhantomData};
use std::sync::Wait;
use tbl_service::{Tables, TblPort};
use tbl_words::{TblAnswer, TblCall};

/// The calls of one application by its ports of the software bus and of Table Services, whose locks
/// are `L`'s.
///
/// Contracts see who calls: the application with its bags, and both services as the ports have seen
/// them; others call the services too.
#[derive(Drop)]
pub struct PortCalls<'c, 'r, R: Wait, L: Locks> {
    // Its port of the bus.
    port: BusPort<'r>,
    // The bus.
    bus: &'c Bus<'r>,
    // Its port of the tables.
    tables_port: TblPort<'r>,
    // The tables.
    tables: &'c Tables<'r>,
    // By what it waits.
    rt: &'c R,
    // Which locks the services have.
    locks: PhantomData<L>,
}

impl<'c, 'r, R: Wait, L: Locks> Model for PortCalls<'c, 'r, R, L> {
    ghost use Rattle.app_calls.specs.Callers.{Caller};
    ghost use Rattle.port_calls.specs.Inside.{AreOfOne};
    ghost use Rattle.port_calls.specs.Ports.{caller_of};

    ghost Value = { Caller };

    ghost view = { λ c. caller_of c.port c.tables_port };

    ghost invariant = { λ c. AreOfOne L.bus L.tables c.port c.bus.now c.tables_port c.tables.now };
}

impl<'c, 'r, R: Wait, L: Locks> PortCalls<'c, 'r, R, L> {
    /// The calls of the application whose two ports these are.
    pub fn new(
        port: BusPort<'r>,
        bus: &'c Bus<'r>,
        tables_port: TblPort<'r>,
        tables: &'c Tables<'r>,
        rt: &'c R,
    ) -> PortCalls<'c, 'r, R, L>
        requires bus { bus.now ≡ L.bus }
        requires tables { tables.now ≡ L.tables }
        requires port { port.lock ≡ bus.now }
        requires tables_port { tables_port.lock ≡ tables.now }
        requires app { tables_port.app ≡ port.app }
        ensures { result ≡ caller_of port.entry tables_port.entry }
    {
        PortCalls {
            port,
            bus,
            tables_port,
            tables,
            rt,
            locks: PhantomData,
        }
    }

    /// Gives both ports back, as the calls left them.
    pub fn into_ports(self) -> (BusPort<'r>, TblPort<'r>)
        ensures app { (result.0.app ≡ self.entry.app) × (result.1.app ≡ self.entry.app) }
        ensures locks { (result.0.lock ≡ L.bus) × (result.1.lock ≡ L.tables) }
        ensures bus { (result.0.seen ≡ self.entry.core) × (result.0.bag ≡ self.entry.bag) }
        ensures tables { (result.1.seen ≡ self.entry.tables) × (result.1.bag ≡ self.entry.held) }
    {
        let PortCalls {
            port,
            bus: _,
            tables_port,
            tables: _,
            rt: _,
            locks: _,
        } = self;
        (port, tables_port)
    }
}

impl<R: Wait, L: Locks> Calls for PortCalls<'_, '_, R, L> {
    ghost caller = { λ c. c };

    fn create_pipe(&mut self, depth: u32, name: &[u8]) -> Result<u32, SbStatus> {
        self.port.create_pipe(self.bus, self.rt, depth, name)
    }

    fn delete_pipe(&mut self, pipe: u32) -> Result<(), SbStatus> {
        self.port.delete_pipe(self.bus, self.rt, pipe)
    }

    fn set_opts(&mut self, pipe: u32, bits: u8) -> Result<(), SbStatus> {
        self.port.set_opts(self.bus, self.rt, pipe, bits)
    }

    fn get_opts(&mut self, pipe: u32) -> Result<u8, SbStatus> {
        self.port.get_opts(self.bus, self.rt, pipe)
    }

    fn find_pipe(&mut self, name: &[u8]) -> Result<u32, SbStatus> {
        self.port.find_pipe(self.bus, self.rt, name)
    }

    fn pipe_name(&mut self, pipe: u32) -> Result<PipeText, SbStatus> {
        self.port.pipe_name(self.bus, self.rt, pipe)
    }

    fn subscribe(&mut self, id: u16, pipe: u32, limit: u32, scope: Scope) -> Result<(), SbStatus> {
        self.port
            .subscribe(self.bus, self.rt, id, pipe, limit, scope)
    }

    fn unsubscribe(&mut self, id: u16, pipe: u32) -> Result<(), SbStatus> {
        self.port.unsubscribe(self.bus, self.rt, id, pipe)
    }

    fn transmit(&mut self, bytes: &[u8], inc: bool) -> Result<Sent, SbStatus> {
        self.port.transmit(self.bus, self.rt, bytes, inc)
    }

    fn receive(&mut self, pipe: u32) -> Result<u32, SbStatus> {
        self.port.receive(self.bus, self.rt, pipe)
    }

    fn pend(&mut self, pipe: u32) -> Result<Pended, SbStatus> {
        self.port.pend(self.bus, self.rt, pipe)
    }

    fn look(&mut self) -> Pended {
        self.port.look(self.bus, self.rt)
    }

    fn allocate(&mut self, size: u32) -> Result<u32, SbStatus> {
        self.port.allocate(self.bus, self.rt, size)
    }

    fn transmit_buffer(&mut self, buf: u32, inc: bool) -> Result<Sent, SbStatus> {
        self.port.transmit_buffer(self.bus, self.rt, buf, inc)
    }

    fn release(&mut self, buf: u32) -> Result<(), SbStatus> {
        self.port.release(self.bus, self.rt, buf)
    }

    fn pool_create(&mut self, bytes: u32) -> Result<u32, EsStatus> {
        self.port.pool_create(self.bus, self.rt, bytes)
    }

    fn pool_get(&mut self, pool: u32, size: u32) -> Result<u32, EsStatus> {
        self.port.pool_get(self.bus, self.rt, pool, size)
    }

    fn pool_put(&mut self, pool: u32, grant: u32) -> Result<(), EsStatus> {
        self.port.pool_put(self.bus, self.rt, pool, grant)
    }

    fn pool_stats(&mut self, pool: u32) -> Result<PoolStats, EsStatus> {
        self.port.pool_stats(self.bus, self.rt, pool)
    }

    fn evs_register(&mut self, filters: &FilterList) {
        self.port.evs_register(self.bus, self.rt, filters);
    }

    fn send_event(&mut self, id: u16, kind: EventKind, text: &[u8]) -> Result<(), EvsStatus> {
        self.port.send_event(self.bus, self.rt, id, kind, text)
    }

    fn reset_filter(&mut self, id: u16) -> Result<(), EvsStatus> {
        self.port.reset_filter(self.bus, self.rt, id)
    }

    fn set_log_mode(&mut self, mode: u8) {
        self.port.set_log_mode(self.bus, self.rt, mode);
    }

    fn clear_log(&mut self) {
        self.port.clear_log(self.bus, self.rt);
    }

    fn send_housekeeping(&mut self) -> Result<Sent, SbStatus> {
        self.port.send_housekeeping(self.bus, self.rt)
    }

    fn bus_stats(&mut self) -> BusStats {
        self.port.bus_stats(self.bus, self.rt)
    }

    fn bus_end(&mut self) {
        self.port.end(self.bus, self.rt);
    }

    fn last(&self, pipe: u32) -> Option<&[u8]> {
        self.port.last(pipe)
    }

    fn form_buffer(&mut self, buf: u32, id: u16, fill: u8) {
        form_in(&mut self.port, buf, id, fill);
    }

    fn put_bytes(&mut self, buf: u32, offset: u32, bytes: &[u8]) {
        put_bytes_in(&mut self.port, buf, offset, bytes);
    }

    fn table_call(&mut self, call: TblCall<'_>) -> TblAnswer {
        make(&mut self.tables_port, self.tables, self.rt, call)
    }

    fn table_end(&mut self) {
        self.tables_port.end(self.tables, self.rt);
    }

    fn held(&self, handle: u32) -> Option<&[u8]> {
        self.tables_port.held(handle)
    }
}
