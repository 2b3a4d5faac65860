//! Reports that no interleaving changes, and the journals that an audit is shown.

use crate::scripts::{MISSION, MISSION_REPORT, REPORT, SCRIPT, words_of};
use fsw_base::{Budget, MemSink, MemSource, OpenGate};
use host_serve::{HostStatus, MemAudit, serve};
use std::alloc::{AllocError, Global};
use std::process::Abort;
use std::sync::Wait;
use std::test::Fail;
use std::thread::Threads;

// Runs a script of one application by this word, which prints its report, and shows the audit one
// pair of journals, with so many entries at the bus and at the tables. The audit has room for those
// of `MISSION`.
fn show_once<R: Threads + Wait + Sync + Abort>(
    rt: &R,
    alloc: Global,
    word: &str,
    script: &[u8],
    report: &[u8],
    entries: (u32, u32),
) -> Result<(), AllocError> {
    let budgets = [Budget {
        entries: 13,
        bytes: 38,
        buffers: 0,
    }];
    let mut source = MemSource::new(script, 1000, &[]);
    let mut sink = MemSink::new(alloc, 10_000, 1000, &[])?;
    let mut audit = MemAudit::new(alloc, &budgets, 1)?;
    let status = serve(
        rt,
        alloc,
        &words_of(&[word]),
        &mut source,
        &mut sink,
        &OpenGate,
        &mut audit,
    );
    assert_eq!(rt; status, HostStatus::Done);
    assert_eq!(rt; sink.written(), report);
    assert!(rt; audit.tells());
    assert_eq!(rt; audit.pairs(), 1);
    assert_eq!(rt; audit.bus(0).len(), entries.0);
    assert_eq!(rt; audit.tables(0).len(), entries.1);
    Ok(())
}

#[test]
fn one_application_has_the_same_report_on_a_thread(rt: HostRuntime) -> Result<(), Fail> {
    for word in ["run", "lockstep"] {
        show_once(&rt, rt.alloc(), word, SCRIPT, REPORT, (5, 1))?;
        show_once(&rt, rt.alloc(), word, MISSION, MISSION_REPORT, (8, 5))?;
    }
    Ok(())
}
