//! Two buses and a bridge: a message that goes over, at a gate that holds both sides to one order,
//! and a plan without routes.

use crate::scripts::{count_in, words_of};
use fsw_base::{Budget, Gate, MemSink, MemSource};
use host_serve::{HostStatus, MemAudit, serve};
use std::alloc::{AllocError, Global};
use std::process::Abort;
use std::sync::Wait;
use std::sync::atomic::{AtomicBool, Ordering};
use std::test::Fail;
use std::thread;
use std::thread::Threads;

/// One application on either side; the message of one waits for the other.
const FORWARDS: &[u8] = b"route 0x0801 4\n---\napp A\nsend 0x0801 8 16\n---\n\
    app B\ncreate p0 4 B\nsub 0x0801 p0\npend p0\n";

/// Two sides and no route.
const WITHOUT_ROUTES: &[u8] = b"---\napp A\nsend 0x0801 8 16\n---\napp B\nhk\n";

/// How the reports of both begin.
const FRONT: &[u8] = b"side 1\nfsw 1\nbus\n1 a2 create 256 BRIDGE -> CFE_SUCCESS 1\n";

/// How often a thread looks whether it may go on before the test fails.
const MOST_TURNS: u32 = 100_000_000;

// Holds the first call of application 1 until the second call of application 17 is answered, if it
// is closed.
#[derive(Drop)]
struct SecondFirst {
    // Whether that call is answered, or nothing is held.
    answered: AtomicBool,
    // Whether a thread looked too often.
    late: AtomicBool,
}

impl SecondFirst {
    fn new(is_closed: bool) -> SecondFirst {
        SecondFirst {
            answered: AtomicBool::new(!is_closed),
            late: AtomicBool::new(false),
        }
    }
}

impl Gate for SecondFirst {
    fn before(&self, app: u32, call: u32) {
        if app != 1 || call != 1 {
            return;
        }
        for _ in 0..MOST_TURNS {
            if self.answered.load(Ordering::SeqCst) {
                return;
            }
            thread::yield_now();
        }
        self.late.store(true, Ordering::SeqCst);
    }

    fn after(&self, app: u32, call: u32) {
        if app == 17 && call == 2 {
            self.answered.store(true, Ordering::SeqCst);
        }
    }
}

// Runs a plan at the gate: the reports have each of these texts so often, and the audit was shown
// both sides.
fn bridge<R: Threads + Wait + Sync + Abort>(
    rt: &R,
    alloc: Global,
    plan: &[u8],
    is_closed: bool,
    texts: &[(&[u8], usize)],
) -> Result<(), AllocError> {
    let budget = Budget {
        entries: 8,
        bytes: 100,
        buffers: 0,
    };
    let mut source = MemSource::new(plan, 16, &[]);
    let mut sink = MemSink::new(alloc, 4096, 1000, &[])?;
    let mut audit = MemAudit::new(alloc, &[budget, budget], 2)?;
    let gate = SecondFirst::new(is_closed);
    let status = serve(
        rt,
        alloc,
        &words_of(&["bridge"]),
        &mut source,
        &mut sink,
        &gate,
        &mut audit,
    );
    assert_eq!(rt; status, HostStatus::Done);
    assert_eq!(rt; gate.late.load(Ordering::SeqCst), false);
    assert!(rt; sink.written().starts_with(FRONT));
    for (text, count) in texts {
        assert_eq!(rt; count_in(sink.written(), text), *count);
    }
    assert!(rt; audit.tells());
    assert_eq!(rt; audit.pairs(), 2);
    Ok(())
}

#[test]
fn messages_of_routes_go_over_the_bridge(rt: HostRuntime) -> Result<(), Fail> {
    // What the reports have in every interleaving that the gate lets pass, and how often.
    let forwarded: [(&[u8], usize); 4] = [
        (b" a1 send 8 235 inc -> CFE_SUCCESS 1 1\n", 1),
        (b" a2 send 8 236 keep -> CFE_SUCCESS 1 1\n", 1),
        (b" send ", 2),
        (
            b"\nreceipts\n\
            a1 msg p1 n1 id=0x0801 seq=1 size=8 sum=236 head=0801c00100011011\nevents\n",
            1,
        ),
    ];
    let kept: [(&[u8], usize); 4] = [
        (b" a1 send 8 235 inc -> CFE_SUCCESS 0 0\n", 1),
        (b" send ", 1),
        (b" a2 send ", 0),
        (b"\nbus nosub=1 send=0 ", 2),
    ];
    bridge(&rt, rt.alloc(), FORWARDS, true, &forwarded)?;
    bridge(&rt, rt.alloc(), WITHOUT_ROUTES, false, &kept)?;
    Ok(())
}
