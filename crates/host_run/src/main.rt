//! The program: `serve_alone` and `serve` of `host_serve`, on the words of the command line,
//! standard input and standard output.
#![tactic(auto)]

use fsw_base::{OpenGate, StdSink, StdSource};
use host_serve::NO_MEMORY;
pub use host_serve::{Audit, HostStatus, MemAudit, NoAudit, Words, serve, serve_alone};
use std::process::ExitCode;
use std::{env, io};

// The status if a word of the command line can't be had, for another cause than memory.
const NO_WORDS: u8 = 9;

fn main(rt: HostRuntime) -> ExitCode {
    match words_of(&rt) {
        Ok(words) => {
            let mut source = StdSource::new(rt.stdin());
            let mut sink = StdSink::new(rt.stdout());
            // Only words that need threads are given the runtime.
            let status = if words.need_threads() {
                serve(
                    &rt,
                    rt.alloc(),
                    &words,
                    &mut source,
                    &mut sink,
                    &OpenGate,
                    &mut NoAudit,
                )
            } else {
                serve_alone(rt.alloc(), &words, &mut source, &mut sink, &mut NoAudit)
            };
            ExitCode::from(status.exit_status())
        }
        Err(error) if error.kind() == io::ErrorKind::OutOfMemory => { ExitCode::from(NO_MEMORY) }
        Err(_) => ExitCode::from(NO_WORDS),
    }
}

// The words of the command line after the program's name.
fn words_of(rt: &HostRuntime) -> io::Result<Words> {
    let mut words = Words::new();
    for word in env::args(rt)?.skip(1) {
        words.add(word.as_str());
    }
    Ok(words)
}
