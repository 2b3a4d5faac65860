//! Who is shown both services of each run.
ghost use Rattle.std.specs.Prelude.{◌≡◌, true, List, Option, None};
ghost use Rattle.script_runs.specs.Histories.{Histories};
ghost use Rattle.host_report.specs.Audit.{IsShown};
ghost use Rattle.app_run.specs.Runners.{histories_of};

use fsw_base::{Sink, SinkGuard};
use sb_calls::BusCore;
use std::marker::Model;
use tbl_load::TblCore;

/// Who is shown the bus and the tables of each run, once, before its report is written.
pub trait Audit {
    /// The histories of the runs that it was shown, if it tells them.
    ghost shown: { Self → Option (List Histories) };

    /// Is shown a bus and its tables; `serve` shows those of a whole run. Both histories are put
    /// behind those shown before, or nothing is told from then on.
    fn closed(&mut self, bus: &BusCore<'_>, tables: &TblCore<'_>)
        ensures { IsShown (shown self.old) (shown self.new) (histories_of bus.now tables.now) };
}

/// An audit that tells nothing.
#[derive(Debug, Drop)]
pub struct NoAudit;

impl Audit for NoAudit {
    ghost shown = { λ _. None };

    fn closed(&mut self, _bus: &BusCore<'_>, _tables: &TblCore<'_>) {}
}

/// An audit that is shown a run only while nothing was written.
///
/// Who has only the guard can't reach the audit in another way.
#[derive(Drop)]
pub struct AuditGuard<'a, A: Audit> {
    audit: &'a mut A,
}

impl<'a, A: Audit> Model for AuditGuard<'a, A> {
    ghost use Rattle.host_report.specs.Audit.{GuardedAudit};

    ghost Value = { GuardedAudit };

    ghost view = { λ g. record { audit = g.audit.ghost_name; shown = A.shown g.audit.now } };
}

impl<'a, A: Audit> AuditGuard<'a, A> {
    /// A guard through which nothing was shown yet.
    pub fn new(audit: &'a mut A) -> AuditGuard<'a, A>
        ensures { result ≡ record { audit = audit.entry.ghost_name; shown = A.shown audit.old } }
    {
        AuditGuard { audit }
    }

    /// Shows the audit a bus and its tables. Nothing may have been written through the sink's
    /// guard.
    pub fn closed<K: Sink>(
        &mut self,
        bus: &BusCore<'_>,
        tables: &TblCore<'_>,
        _sink: &SinkGuard<'_, K>,
    )
        requires { _sink.now.untouched ≡ true }
        ensures shown { IsShown self.old.shown self.new.shown (histories_of bus.now tables.now) }
        ensures same_audit { self.new.audit ≡ self.old.audit }
    {
        self.audit.closed(bus, tables);
    }

    /// Gives the audit back.
    pub fn into_inner(self) -> &'a mut A
        ensures same_audit { result.ghost_name ≡ self.entry.audit }
        ensures shown { A.shown result.now ≡ self.entry.shown }
    {
        self.audit
    }
}
