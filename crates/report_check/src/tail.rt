//! The end of a report, behind its lines on the tables.
ghost use Rattle.std.specs.Prelude.{◌≡◌, ◌≤◌, false, true, length, map, IfOk, OnErr, OnOk};
ghost use Rattle.fsw_base.specs.Grants.{pool_account};
ghost use Rattle.list_bus.specs.Played.{IsPlayed};
ghost use Rattle.text_page.specs.Pieces.{Grew, Puts};
ghost use Rattle.run_report.specs.Report.{ending_text, figures_shown};
ghost use Rattle.report_check.specs.Tails.{figures_of, table_figures_kept, tail_kept};

use crate::accounts::{ShownAccount, accounts_of, put_accounts};
use crate::merged::put_receipts;
use bus_replay::BusReplay;
use fsw_base::{Sink, SinkGuard, WriteFault};
use list_bus::ListBus;
use list_pool::ListAccount;
use replay_parts::KeptText;
use run_report::{PoolName, put_account, put_counts, put_desk, put_log, put_table_uses, put_uses};
use std::alloc::{AllocError, Global};
use table_replay::TableReplay;
use tbl_words::TblUse;
use text_page::{Page, finish, put};

/// What is shown of the tables.
#[derive(Drop)]
pub(crate) struct TablesShown {
    /// What is in use now.
    pub(crate) in_use: TblUse,
    /// The greatest numbers that were in use.
    pub(crate) peak: TblUse,
    /// The account of their pool.
    pub(crate) pool: ListAccount,
}

/// The end of the report of a run of so many applications that was played again: its lines from
/// `receipts` on.
///
/// # Errors
/// `AllocError` if memory runs out, or if a number of 32 bits is spent.
pub(crate) fn tail_of(
    alloc: Global,
    apps: u32,
    bus: &BusReplay<'_>,
    tables: &TableReplay<'_>,
) -> Result<KeptText, AllocError>
    requires few { apps ≤ 16 }
    requires bus { apps ≤ length bus.now.places }
    requires tables { apps ≤ length tables.now.places }
    requires played { IsPlayed bus.now.played }
    ensures { IfOk result (λ tail. tail.text ≡ tail_kept apps bus.now tables.now) }
{
    let accounts = accounts_of(alloc, bus.bus().pools())?;
    let shown = tables_shown(alloc, tables)?;
    let mut text = KeptText::new(alloc);
    let mut guard = SinkGuard::new(&mut text);
    let written = write_tail(&mut guard, apps, bus, accounts.as_slice(), tables, &shown);
    let _text = guard.into_inner();
    match written {
        Ok(()) => Ok(text),
        Err(_) => Err(AllocError),
    }
}

// What is shown of the tables.
fn tables_shown(alloc: Global, tables: &TableReplay<'_>) -> Result<TablesShown, AllocError>
    ensures { IfOk result (λ shown. figures_of shown ≡ table_figures_kept tables.now) }
{
    let in_use = tables.tables().in_use()?;
    let pool = tables.tables().account(alloc)?;
    Ok(TablesShown {
        in_use,
        peak: tables.peak(),
        pool,
    })
}

// Writes the end of a report. No write through this guard may have failed before.
fn write_tail<K: Sink>(
    sink: &mut SinkGuard<'_, K>,
    apps: u32,
    bus: &BusReplay<'_>,
    accounts: &[ListAccount],
    tables: &TableReplay<'_>,
    shown: &TablesShown,
) -> Result<(), WriteFault>
    requires none_failed { sink.old.failed ≡ false }
    requires few { apps ≤ 16 }
    requires bus { apps ≤ length bus.now.places }
    requires tables { apps ≤ length tables.now.places }
    requires played { IsPlayed bus.now.played }
    requires accounts { accounts.now ≡ map pool_account bus.now.played.whole.bus.pools.pools }
    requires shown { figures_of shown.now ≡ table_figures_kept tables.now }
    ensures ok { OnOk result (Grew sink.old.written sink.new.written
        (tail_kept apps bus.now tables.now)) }
    ensures none_failed { OnOk result (sink.new.failed ≡ false) }
    ensures failed { OnErr result (sink.new.failed ≡ true) }
    ensures same_sink { sink.new.sink ≡ sink.old.sink }
{
    let mut page = Page::new();
    put(sink, &mut page, b"receipts\n");
    put_receipts(sink, &mut page, apps, bus, tables);
    put(sink, &mut page, b"events\n");
    put_log(sink, &mut page, bus.bus().desk());
    put_ending(sink, &mut page, bus.bus(), accounts, shown);
    finish(sink, &mut page)
}

// Puts the lines on the counters, and the last line.
fn put_ending<K: Sink>(
    sink: &mut SinkGuard<'_, K>,
    page: &mut Page,
    bus: &ListBus,
    accounts: &[ListAccount],
    tables: &TablesShown,
)
    requires played { IsPlayed bus.now }
    requires accounts { accounts.now ≡ map pool_account bus.now.whole.bus.pools.pools }
    ensures { Puts sink.old sink.new page.old page.new
        (ending_text (figures_shown bus.now.limits bus.now.whole.bus) (figures_of tables.now)) }
{
    let _ = bus.pools().count();
    put(sink, page, b"counters\n");
    put_counts(sink, page, bus.version(), bus.counters());
    put_uses(sink, page, bus.in_use(), bus.counters().peak());
    put_account(sink, page, PoolName::Bus, &ShownAccount::new(bus.account()));
    put_accounts(sink, page, accounts);
    put_desk(sink, page, bus.desk());
    put_table_uses(sink, page, tables.in_use, tables.peak);
    put_account(
        sink,
        page,
        PoolName::Tables,
        &ShownAccount::new(&tables.pool),
    );
    put(sink, page, b"end\n");
}
