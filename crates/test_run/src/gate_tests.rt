//! Applications on threads, at a gate that one thread alone can't pass.

use crate::scripts::{count_in, words_of};
use fsw_base::{Gate, MemSink, MemSource};
use host_serve::{HostStatus, NoAudit, serve};
use std::alloc::{AllocError, Global};
use std::process::Abort;
use std::sync::Wait;
use std::sync::atomic::{AtomicBool, AtomicU64, Ordering};
use std::test::Fail;
use std::thread;
use std::thread::Threads;

/// One application sends what the other waits for.
const TWO: &[u8] = b"app A\nsend 0x0801 8 16\napp B\ncreate p0 4 B\nsub 0x0801 p0\npend p0\n";

/// The same, beside one that sends a packet which nobody subscribes to.
const THREE: &[u8] = b"app A\nsend 0x0801 8 16\napp B\ncreate p0 4 B\nsub 0x0801 p0\npend p0\n\
    app C\nhk\n";

/// One application sends what fifteen wait for.
const SIXTEEN: &[u8] = b"app A\nsend 0x0801 8 16\n\
    app B\ncreate p0 4 B\nsub 0x0801 p0\npend p0\n\
    app C\ncreate p0 4 C\nsub 0x0801 p0\npend p0\n\
    app D\ncreate p0 4 D\nsub 0x0801 p0\npend p0\n\
    app E\ncreate p0 4 E\nsub 0x0801 p0\npend p0\n\
    app F\ncreate p0 4 F\nsub 0x0801 p0\npend p0\n\
    app G\ncreate p0 4 G\nsub 0x0801 p0\npend p0\n\
    app H\ncreate p0 4 H\nsub 0x0801 p0\npend p0\n\
    app I\ncreate p0 4 I\nsub 0x0801 p0\npend p0\n\
    app J\ncreate p0 4 J\nsub 0x0801 p0\npend p0\n\
    app K\ncreate p0 4 K\nsub 0x0801 p0\npend p0\n\
    app L\ncreate p0 4 L\nsub 0x0801 p0\npend p0\n\
    app M\ncreate p0 4 M\nsub 0x0801 p0\npend p0\n\
    app N\ncreate p0 4 N\nsub 0x0801 p0\npend p0\n\
    app O\ncreate p0 4 O\nsub 0x0801 p0\npend p0\n\
    app P\ncreate p0 4 P\nsub 0x0801 p0\npend p0\n";

/// Two applications that wait, each on a pipe that nobody sends to.
const PENDING_PAIR: &[u8] = b"app A\ncreate p0 1 A\npend p0\napp B\ncreate p0 1 B\npend p0\n";

/// All receipts of the first two, in every interleaving that the gate lets pass.
const RECEIPT: &[u8] = b"\nreceipts\n\
    a2 msg p1 n1 id=0x0801 seq=1 size=8 sum=236 head=0801c00100011011\nevents\n";

/// How each receipt ends.
const MESSAGE: &[u8] = b" n1 id=0x0801 seq=1 size=8 sum=236 head=0801c00100011011\n";

/// How often a thread looks whether it may go on before the test fails.
const MOST_TURNS: u32 = 100_000_000;

// Holds the call of application 1 until the second call of each application behind it that waits is
// answered, and the first call of each of these until application 1 has come to its call.
#[derive(Drop)]
struct AllAtOnce {
    // How many applications wait, from 2 on.
    waiting: u32,
    // Whether application 1 has come to its call.
    came: AtomicBool,
    // Of how many the second call is answered.
    answered: AtomicU64,
    // Whether a thread looked too often.
    late: AtomicBool,
}

impl AllAtOnce {
    fn new(waiting: u32) -> AllAtOnce {
        AllAtOnce {
            waiting,
            came: AtomicBool::new(false),
            answered: AtomicU64::new(0),
            late: AtomicBool::new(false),
        }
    }

    // Whether this application waits for the message of application 1.
    fn waits(&self, app: u32) -> bool {
        2 <= app && app - 2 < self.waiting
    }

    // Waits until application 1 has come to its call.
    fn wait_for_the_first(&self) {
        for _ in 0..MOST_TURNS {
            if self.came.load(Ordering::SeqCst) {
                return;
            }
            thread::yield_now();
        }
        self.late.store(true, Ordering::SeqCst);
    }

    // Waits until all others are answered.
    fn wait_for_the_others(&self) {
        for _ in 0..MOST_TURNS {
            if self.answered.load(Ordering::SeqCst) >= self.waiting as u64 {
                return;
            }
            thread::yield_now();
        }
        self.late.store(true, Ordering::SeqCst);
    }
}

impl Gate for AllAtOnce {
    fn before(&self, app: u32, call: u32) {
        if app == 1 && call == 1 {
            self.came.store(true, Ordering::SeqCst);
            self.wait_for_the_others();
        } else if self.waits(app) && call == 1 {
            self.wait_for_the_first();
        }
    }

    fn after(&self, app: u32, call: u32) {
        if self.waits(app) && call == 2 {
            self.answered.fetch_add(1, Ordering::SeqCst);
        }
    }
}

// Runs a script at the gate that so many applications wait behind: the report has each of these
// texts once, and so many receipts.
fn pass<R: Threads + Wait + Sync + Abort>(
    rt: &R,
    alloc: Global,
    script: &[u8],
    waiting: u32,
    texts: &[&[u8]],
) -> Result<(), AllocError> {
    let mut source = MemSource::new(script, 16, &[]);
    let mut sink = MemSink::new(alloc, 16_384, 4096, &[])?;
    let gate = AllAtOnce::new(waiting);
    let status = serve(
        rt,
        alloc,
        &words_of(&["run"]),
        &mut source,
        &mut sink,
        &gate,
        &mut NoAudit,
    );
    assert_eq!(rt; status, HostStatus::Done);
    assert_eq!(rt; gate.late.load(Ordering::SeqCst), false);
    for text in texts {
        assert_eq!(rt; count_in(sink.written(), text), 1);
    }
    assert_eq!(rt; count_in(sink.written(), MESSAGE), waiting as usize);
    Ok(())
}

#[test]
fn two_threads_pass_a_gate_that_one_alone_cant(rt: HostRuntime) -> Result<(), Fail> {
    // The pipes are numbered in the order in which they were made.
    let fifteen: [&[u8]; 15] = [
        b"\na2 msg p",
        b"\na3 msg p",
        b"\na4 msg p",
        b"\na5 msg p",
        b"\na6 msg p",
        b"\na7 msg p",
        b"\na8 msg p",
        b"\na9 msg p",
        b"\na10 msg p",
        b"\na11 msg p",
        b"\na12 msg p",
        b"\na13 msg p",
        b"\na14 msg p",
        b"\na15 msg p",
        b"\na16 msg p",
    ];
    pass(&rt, rt.alloc(), TWO, 1, &[RECEIPT])?;
    pass(&rt, rt.alloc(), THREE, 1, &[RECEIPT])?;
    pass(&rt, rt.alloc(), SIXTEEN, 15, &fifteen)?;
    Ok(())
}

// Counts the gate's calls round each of the first two lines of two applications: one adds 1, 1000
// and so on, and any other more than all of these.
#[derive(Drop)]
struct CallCounts {
    before: AtomicU64,
    after: AtomicU64,
}

// What one call of the gate adds.
fn weight_of(app: u32, call: u32) -> u64 {
    match (app, call) {
        (1, 1) => 1,
        (1, 2) => 1000,
        (2, 1) => 1_000_000,
        (2, 2) => 1_000_000_000,
        _ => 1_000_000_000_000,
    }
}

impl Gate for CallCounts {
    fn before(&self, app: u32, call: u32) {
        self.before
            .fetch_add(weight_of(app, call), Ordering::SeqCst);
    }

    fn after(&self, app: u32, call: u32) {
        self.after.fetch_add(weight_of(app, call), Ordering::SeqCst);
    }
}

// Each line is begun once and answered once, though one of the two waits first and looks again.
#[test]
fn a_line_that_waits_is_answered_once_at_the_gate(rt: HostRuntime) -> Result<(), Fail> {
    let mut source = MemSource::new(PENDING_PAIR, 1000, &[]);
    let mut sink = MemSink::new(rt.alloc(), 10_000, 1000, &[])?;
    let gate = CallCounts {
        before: AtomicU64::new(0),
        after: AtomicU64::new(0),
    };
    let words = words_of(&["run"]);
    let status = serve(
        &rt,
        rt.alloc(),
        &words,
        &mut source,
        &mut sink,
        &gate,
        &mut NoAudit,
    );
    assert_eq!(rt; status, HostStatus::Done);
    assert_eq!(rt; count_in(sink.written(), b" -> PENDING\n"), 1);
    assert_eq!(rt; gate.before.load(Ordering::SeqCst), 1_001_001_001);
    assert_eq!(rt; gate.after.load(Ordering::SeqCst), 1_001_001_001);
    Ok(())
}
