//! What a report shows of the bus and of the tables.

use app_pools::AppPools;
use bus_words::BusJournal;
use es_pool::Pool;
use evs_events::EventDesk;
use housekeeping::{Counters, InUse};
use tbl_words::{TblJournal, TblUse};

/// What is read off a bus for a report.
#[derive(Drop)]
pub struct BusReadings<'a> {
    /// The bus's version, 1 or 2.
    pub version: u32,
    /// Every call with its answer, in order.
    pub journal: &'a BusJournal,
    /// The event desk: the event log, and the counts of events.
    pub events: &'a EventDesk,
    /// The counters, and the peaks of what was in use.
    pub counters: &'a Counters,
    /// What is in use now.
    pub in_use: InUse,
    /// The pool that the blocks of messages and buffers are drawn from.
    pub pool: &'a Pool,
    /// The memory pools that applications created.
    pub pools: &'a AppPools,
}

/// What is read off the tables for a report.
#[derive(Drop)]
pub struct TableReadings<'a> {
    /// Every call with its answer, in order.
    pub journal: &'a TblJournal,
    /// What is in use now.
    pub in_use: TblUse,
    /// The greatest numbers that were in use so far.
    pub peak: TblUse,
    /// The pool that the blocks of tables are drawn from.
    pub pool: &'a Pool,
}
