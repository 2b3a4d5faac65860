//! The lines on memory pools: the bus's own, those that applications created, and the tables'.
ghost use Rattle.std.specs.Prelude.{◌≡◌, ◌<◌, ℕ, length, map};
ghost use Rattle.std.specs.List.{flat_map, range_with_len};
ghost use Rattle.fsw_base.specs.Grants.{pool_account};
ghost use Rattle.text_page.specs.Pieces.{Puts};
ghost use Rattle.fsw_base.specs.PoolAccounts.{Account};
ghost use Rattle.run_report.specs.CounterText.{account_read, class_in, figures_in, pool_head, class_head, pool_text, class_text, account_text, accounts_text};

use crate::counters::put_field;
use app_pools::AppPools;
use es_pool::{ClassStats, Pool};
use fsw_base::{PoolStats, Sink, SinkGuard};
use text_page::{Page, put, put_number};

/// A memory pool whose account a report shows, however it is kept.
pub trait HasAccount {
    /// Its account.
    ghost account: { Self → Account };

    /// Its bytes and those that were never cut into blocks, the blocks drawn and the returns
    /// refused.
    fn figures(&self) -> PoolStats
        ensures { result ≡ figures_in (account self.now) };

    /// How many block sizes it has.
    fn classes(&self) -> u32
        ensures { result ≡ length (account self.now).sizes };

    /// A block size, by its place: how many blocks were cut, and how many of them are free.
    fn class(&self, class: u32) -> ClassStats
        requires { class < length (account self.now).sizes }
        ensures { result ≡ class_in (account self.now) class };
}

impl HasAccount for Pool {
    ghost account = { account_read };

    fn figures(&self) -> PoolStats {
        self.recall_whole();
        self.stats()
    }

    fn classes(&self) -> u32 {
        Pool::classes(self)
    }

    fn class(&self, class: u32) -> ClassStats {
        Pool::class(self, class)
    }
}

/// Which pool a line is about.
#[derive(Clone, Copy, Debug)]
pub enum PoolName {
    /// The bus's own.
    Bus,
    /// The applications' pool of this number, from 1.
    Applications(u32),
    /// The tables'.
    Tables,
}

/// Puts the lines of the pools that applications created, number 1 first.
pub fn put_app_pools<K: Sink>(sink: &mut SinkGuard<'_, K>, page: &mut Page, pools: &AppPools)
    ensures { Puts sink.old sink.new page.old page.new
        (accounts_text (map pool_account pools.now.pools)) }
{
    for i in 0..pools.app_pools() {
        put_account(
            sink,
            page,
            PoolName::Applications(i + 1),
            pools.app_pool(i + 1),
        );
    }
}

/// Puts the lines of a pool: its own, and one for each block size of which blocks were cut.
pub fn put_account<K: Sink, P: HasAccount>(
    sink: &mut SinkGuard<'_, K>,
    page: &mut Page,
    name: PoolName,
    pool: &P,
)
    ensures { Puts sink.old sink.new page.old page.new (account_text name (P.account pool.now)) }
{
    put_pool(sink, page, name, pool);
    put_classes(sink, page, name, pool);
}

// Puts the line of a pool itself.
fn put_pool<K: Sink, P: HasAccount>(
    sink: &mut SinkGuard<'_, K>,
    page: &mut Page,
    name: PoolName,
    pool: &P,
)
    ensures { Puts sink.old sink.new page.old page.new (pool_text name (P.account pool.now)) }
{
    let figures = pool.figures();
    put_pool_head(sink, page, name);
    put_field(sink, page, b"size", figures.size);
    put_field(sink, page, b"free", figures.free);
    put_field(sink, page, b"requests", figures.requests);
    put_field(sink, page, b"errors", figures.errors);
    put(sink, page, b"\n");
}

// Puts the lines of a pool's block sizes, the smallest first.
fn put_classes<K: Sink, P: HasAccount>(
    sink: &mut SinkGuard<'_, K>,
    page: &mut Page,
    name: PoolName,
    pool: &P,
)
    ensures { Puts sink.old sink.new page.old page.new
        (flat_map (class_text name (P.account pool.now))
        (range_with_len 0 (length (P.account pool.now).sizes))) }
{
    for class in 0..pool.classes() {
        put_class(sink, page, name, pool, class);
    }
}

// Puts the line of a block size, by its place; nothing if no block of it was cut.
fn put_class<K: Sink, P: HasAccount>(
    sink: &mut SinkGuard<'_, K>,
    page: &mut Page,
    name: PoolName,
    pool: &P,
    class: u32,
)
    requires { class < length (P.account pool.now).sizes }
    ensures { Puts sink.old sink.new page.old page.new
        (class_text name (P.account pool.now) class) }
{
    let figures = pool.class(class);
    if figures.made != 0 {
        put_class_head(sink, page, name);
        put(sink, page, b" ");
        put_number(sink, page, figures.size);
        put_field(sink, page, b"made", figures.made);
        put_field(sink, page, b"free", figures.free);
        put(sink, page, b"\n");
    }
}

// Puts how the line of a pool begins.
fn put_pool_head<K: Sink>(sink: &mut SinkGuard<'_, K>, page: &mut Page, name: PoolName)
    ensures { Puts sink.old sink.new page.old page.new (pool_head name) }
{
    match name {
        PoolName::Bus => put(sink, page, b"pool"),
        PoolName::Applications(number) => {
            put(sink, page, b"apool ");
            put_number(sink, page, number);
        }
        PoolName::Tables => put(sink, page, b"tpool"),
    }
}

// Puts how the line of a block size begins.
fn put_class_head<K: Sink>(sink: &mut SinkGuard<'_, K>, page: &mut Page, name: PoolName)
    ensures { Puts sink.old sink.new page.old page.new (class_head name) }
{
    match name {
        PoolName::Bus => put(sink, page, b"class"),
        PoolName::Applications(number) => {
            put(sink, page, b"aclass ");
            put_number(sink, page, number);
        }
        PoolName::Tables => put(sink, page, b"tclass"),
    }
}
