//! The calls of one application straight on the two cores.
ghost use Rattle.std.specs.Prelude.{◌≡◌, true};

use crate::buffers::{form_in, put_bytes_in};
use crate::calls::Calls;
use crate::table_calls::make;
use buf_desc::Held;
use bus_words::PipeText;
use fsw_base::{
    AppNo, BusStats, EsStatus, EventKind, EvsStatus, FilterList, PoolStats, SbStatus, Scope,
};
use sb_calls::{BusCore, Pended, Sent};
use step_count::{Ledger, Steps};
use tbl_load::{HeldTables, TblCore};
use tbl_words::{TblAnswer, TblCall};

/// The calls of one application straight on the core of the bus and on that of the tables.
#[derive(Drop)]
pub struct CoreCalls<'c, 'r, L: Ledger> {
    /// The core of the bus.
    pub core: &'c mut BusCore<'r>,
    /// The core of the tables.
    pub tables: &'c mut TblCore<'r>,
    /// Who calls.
    pub app: AppNo,
    /// The caller's bag of messages and buffers.
    pub held: &'c mut Held<'r>,
    /// The caller's bag of tables.
    pub held_tables: &'c mut HeldTables<'r>,
    /// The steps that its calls take; told to nobody here.
    pub steps: &'c mut Steps<L>,
}

impl<'c, 'r, L: Ledger> CoreCalls<'c, 'r, L> {
    /// The calls of this application, with these bags. Their steps are added to `steps`.
    pub fn new(
        core: &'c mut BusCore<'r>,
        tables: &'c mut TblCore<'r>,
        app: AppNo,
        held: &'c mut Held<'r>,
        held_tables: &'c mut HeldTables<'r>,
        steps: &'c mut Steps<L>,
    ) -> CoreCalls<'c, 'r, L>
        ensures app { result.app ≡ app }
        ensures core { result.core ≡ core.entry }
        ensures tables { result.tables ≡ tables.entry }
        ensures held { result.held ≡ held.entry }
        ensures held_tables { result.held_tables ≡ held_tables.entry }
    {
        CoreCalls {
            core,
            tables,
            app,
            held,
            held_tables,
            steps,
        }
    }
}

impl<L: Ledger> Calls for CoreCalls<'_, '_, L> {
    ghost caller = { λ s.
        record {
          app = s.app;
          core = s.core.now;
          bag = s.held.now;
          tables = s.tables.now;
          held = s.held_tables.now;
          names = record {
            bus = s.core.ghost_name;
            bag = s.held.ghost_name;
            tables = s.tables.ghost_name;
            held = s.held_tables.ghost_name;
          };
          alone = true;
        } };

    fn create_pipe(&mut self, depth: u32, name: &[u8]) -> Result<u32, SbStatus> {
        self.core.create_pipe(self.app, depth, name)
    }

    fn delete_pipe(&mut self, pipe: u32) -> Result<(), SbStatus> {
        self.core.delete_pipe(self.app, pipe, self.held, self.steps)
    }

    fn set_opts(&mut self, pipe: u32, bits: u8) -> Result<(), SbStatus> {
        self.core.set_opts(self.app, pipe, bits)
    }

    fn get_opts(&mut self, pipe: u32) -> Result<u8, SbStatus> {
        self.core.get_opts(self.app, pipe)
    }

    fn find_pipe(&mut self, name: &[u8]) -> Result<u32, SbStatus> {
        self.core.find_pipe(self.app, name)
    }

    fn pipe_name(&mut self, pipe: u32) -> Result<PipeText, SbStatus> {
        self.core.pipe_name(self.app, pipe)
    }

    fn subscribe(&mut self, id: u16, pipe: u32, limit: u32, scope: Scope) -> Result<(), SbStatus> {
        self.core
            .subscribe(self.app, id, pipe, limit, scope, self.steps)
    }

    fn unsubscribe(&mut self, id: u16, pipe: u32) -> Result<(), SbStatus> {
        self.core.unsubscribe(self.app, id, pipe, self.steps)
    }

    fn transmit(&mut self, bytes: &[u8], inc: bool) -> Result<Sent, SbStatus> {
        self.core.transmit(self.app, bytes, inc, self.steps)
    }

    fn receive(&mut self, pipe: u32) -> Result<u32, SbStatus> {
        self.core.receive(self.app, pipe, self.held, self.steps)
    }

    fn pend(&mut self, pipe: u32) -> Result<Pended, SbStatus> {
        self.core.pend(self.app, pipe, self.held, self.steps)
    }

    fn look(&mut self) -> Pended {
        self.core.look(self.app, self.held)
    }

    fn allocate(&mut self, size: u32) -> Result<u32, SbStatus> {
        self.core.allocate(self.app, size, self.held, self.steps)
    }

    fn transmit_buffer(&mut self, buf: u32, inc: bool) -> Result<Sent, SbStatus> {
        self.core
            .transmit_buffer(self.app, buf, inc, self.held, self.steps)
    }

    fn release(&mut self, buf: u32) -> Result<(), SbStatus> {
        self.core.release(self.app, buf, self.held, self.steps)
    }

    fn pool_create(&mut self, bytes: u32) -> Result<u32, EsStatus> {
        self.core.pool_create(self.app, bytes)
    }

    fn pool_get(&mut self, pool: u32, size: u32) -> Result<u32, EsStatus> {
        self.core.pool_get(self.app, pool, size, self.steps)
    }

    fn pool_put(&mut self, pool: u32, grant: u32) -> Result<(), EsStatus> {
        self.core.pool_put(self.app, pool, grant, self.steps)
    }

    fn pool_stats(&mut self, pool: u32) -> Result<PoolStats, EsStatus> {
        self.core.pool_stats(self.app, pool)
    }

    fn evs_register(&mut self, filters: &FilterList) {
        self.core.evs_register(self.app, filters)
    }

    fn send_event(&mut self, id: u16, kind: EventKind, text: &[u8]) -> Result<(), EvsStatus> {
        self.core.send_event(self.app, id, kind, text)
    }

    fn reset_filter(&mut self, id: u16) -> Result<(), EvsStatus> {
        self.core.reset_filter(self.app, id)
    }

    fn set_log_mode(&mut self, mode: u8) {
        self.core.set_log_mode(self.app, mode)
    }

    fn clear_log(&mut self) {
        self.core.clear_log(self.app)
    }

    fn send_housekeeping(&mut self) -> Result<Sent, SbStatus> {
        self.core.send_housekeeping(self.app, self.steps)
    }

    fn bus_stats(&mut self) -> BusStats {
        self.core.bus_stats(self.app)
    }

    fn bus_end(&mut self) {
        self.core.end(self.app, self.held, self.steps)
    }

    fn last(&self, pipe: u32) -> Option<&[u8]> {
        match self.held.view_of(pipe) {
            Some(view) => Some(view.bytes()),
            None => None,
        }
    }

    fn form_buffer(&mut self, buf: u32, id: u16, fill: u8) {
        form_in(self.held, buf, id, fill);
    }

    fn put_bytes(&mut self, buf: u32, offset: u32, bytes: &[u8]) {
        put_bytes_in(self.held, buf, offset, bytes);
    }

    fn table_call(&mut self, call: TblCall<'_>) -> TblAnswer {
        make(self.tables, self.app, self.held_tables, self.steps, call)
    }

    fn table_end(&mut self) {
        self.tables.end(self.app, self.held_tables, self.steps)
    }

    fn held(&self, handle: u32) -> Option<&[u8]> {
        match self.held_tables.view_of(handle) {
            Some(view) => Some(view.bytes()),
            None => None,
        }
    }
}
