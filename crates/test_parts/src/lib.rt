//! Tests of single crates, over their public calls: each shows once what no clause says. Standard
//! input and output answer, packets come from outside, threads sleep and wake, views are read on
//! other threads, a pool is right over a long run, a type has its size. A few tests show beside its
//! clause what no word of the program tells: what a bridge may add, how a script's lines are
//! printed, and that a journal gives back a call.
//!
//! They are apart, so that a change of them proves nothing anew of what they test, and each crate
//! is proved without them. What the program prints is shown by `rows_runs`, and what needs its
//! `serve` by `test_run`.
#![tactic(auto)]

#[cfg(test)]
mod bridge_plan_tests;
#[cfg(test)]
mod callers;
#[cfg(test)]
mod ccsds_msg_tests;
#[cfg(test)]
mod es_pool_tests;
#[cfg(test)]
mod fsw_base_tests;
#[cfg(test)]
mod housekeeping_tests;
#[cfg(test)]
mod lend_block_tests;
#[cfg(test)]
mod script_lines_tests;
#[cfg(test)]
mod script_text_tests;
#[cfg(test)]
mod tbl_words_tests;
#[cfg(test)]
mod turn_lock_tests;
