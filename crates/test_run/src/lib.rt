//! Tests of `serve`, over the public calls of `host_serve`.
//!
//! They show what no clause says: that two threads run at once, that a sleeper is woken, that
//! memory is found, and how a run ends if the source or the sink fails at one of its calls.
#![tactic(auto)]

#[cfg(test)]
mod bridge_tests;
#[cfg(test)]
mod failure_tests;
#[cfg(test)]
mod gate_tests;
#[cfg(test)]
mod report_tests;
#[cfg(test)]
mod scripts;
