//! A source and a sink that fail at each of their first calls in turn.

use crate::scripts::{MISSION, MISSION_REPORT, REPORT, SCRIPT, words_of};
use fsw_base::{MemSink, MemSource, OpenGate};
use host_serve::{HostStatus, NoAudit, serve};
use std::alloc::{AllocError, Global};
use std::process::Abort;
use std::sync::Wait;
use std::test::Fail;
use std::thread::Threads;

/// How many calls of a source or a sink are made to fail, one in each run.
const CALLS: u32 = 60;

// A script that is run by this word, and its report.
#[derive(Clone, Copy)]
struct Trial {
    word: &'static str,
    script: &'static [u8],
    report: &'static [u8],
}

// How a trial ends, and what it writes, if the source and the sink move at most a piece at a
// time and fail at these calls.
fn run_failing<'a, R: Threads + Wait + Sync>(
    rt: &R,
    alloc: Global,
    trial: Trial,
    piece: usize,
    reads: &[u32],
    writes: &'a [u32],
) -> Result<(HostStatus, MemSink<'a>), AllocError> {
    let mut source = MemSource::new(trial.script, piece.max(1), reads);
    let mut sink = MemSink::new(alloc, 10_000, piece.max(1), writes)?;
    let status = serve(
        rt,
        alloc,
        &words_of(&[trial.word]),
        &mut source,
        &mut sink,
        &OpenGate,
        &mut NoAudit,
    );
    Ok((status, sink))
}

// If the failing read is reached, nothing is written; one call more than the pieces need tells the
// end.
fn fail_read<R: Threads + Wait + Sync + Abort>(
    rt: &R,
    alloc: Global,
    trial: Trial,
    piece: usize,
    call: u32,
) -> Result<(), AllocError> {
    let (status, sink) = run_failing(rt, alloc, trial, piece, &[call], &[])?;
    let pieces = trial.script.len().div_ceil(piece.max(1));
    if call as usize <= pieces.saturating_add(1) {
        assert_eq!(rt; status, HostStatus::ReadFault);
        assert!(rt; sink.written().is_empty());
    } else {
        assert_eq!(rt; status, HostStatus::Done);
        assert_eq!(rt; sink.written(), trial.report);
    }
    Ok(())
}

// If the failing write is reached, just the pieces before it are written, and else all.
fn fail_write<R: Threads + Wait + Sync + Abort>(
    rt: &R,
    alloc: Global,
    trial: Trial,
    piece: usize,
    call: u32,
) -> Result<(), AllocError> {
    let fails = [call];
    let (status, sink) = run_failing(rt, alloc, trial, piece, &[], &fails)?;
    let before = (call as usize).saturating_sub(1).saturating_mul(piece);
    if before < trial.report.len() {
        assert_eq!(rt; status, HostStatus::WriteFault);
    } else {
        assert_eq!(rt; status, HostStatus::Done);
    }
    assert_eq!(rt; sink.written().len(), before.min(trial.report.len()));
    assert!(rt; trial.report.starts_with(sink.written()));
    Ok(())
}

// Has each of the trial's first reads and writes fail in turn, in each of these pieces.
fn fail_each_call<R: Threads + Wait + Sync + Abort>(
    rt: &R,
    alloc: Global,
    trial: Trial,
    pieces: [usize; 6],
) -> Result<(), AllocError> {
    for piece in pieces {
        for call in 1..=CALLS {
            fail_read(rt, alloc, trial, piece, call)?;
            fail_write(rt, alloc, trial, piece, call)?;
        }
    }
    Ok(())
}

#[test]
fn failures_in_turn_leave_nothing_or_a_front(rt: HostRuntime) -> Result<(), Fail> {
    let trials = [
        Trial {
            word: "run",
            script: MISSION,
            report: MISSION_REPORT,
        },
        Trial {
            word: "run",
            script: SCRIPT,
            report: REPORT,
        },
        Trial {
            word: "lockstep",
            script: SCRIPT,
            report: REPORT,
        },
    ];
    for trial in &trials {
        fail_each_call(&rt, rt.alloc(), *trial, [1, 4, 7, 10, 16, 1000])?;
    }
    Ok(())
}
