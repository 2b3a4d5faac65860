//! Two programs as a user of the bus writes them: one over the bus without a journal, and one over
//! ports on threads. In each, an application listens and another sends, and what was received is
//! printed. Each call is made if a test says that the application may make it.
#![tactic(auto)]

mod message;
mod plain;
mod threads;

use std::io;

fn main(rt: HostRuntime) -> io::Result<()> {
    let received = plain::run(rt.alloc())?.unwrap_or(0);
    println!(rt; "plain: {received} bytes were received")?;
    let (one, two) = threads::run(&rt, rt.alloc())?.unwrap_or((0, 0));
    println!(rt; "threads: {one} and {two} bytes were read at once")
}
