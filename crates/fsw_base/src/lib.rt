//! What every layer of the flight software core shares: limits, statuses by their printed names,
//! small value types, and the traits through which the core meets the outside.
//!
//! Each type keeps its range. A source or a sink reports a failure only if its count of faults
//! rose. Behind a guard neither is called again after a failure.
//!
//! ```text
//! /// An application, and the size of the block that a message of 100 bytes lies in.
//! fn block_of_third() -> Option<(AppNo, u32)> {
//!     let app = AppNo::try_new(3)?;               // applications are numbered 1 to 16
//!     let config = Config::usual();               // the usual limits of a mission
//!     let class = config.sizes.class_of(100)?;    // 6: the seventh size is large enough
//!     Some((app, config.sizes.at(class)))         // 128 bytes
//! }
//! ```
//!
//! # Proved
//!
//! - Each type keeps its range (`AppNo`, `BlockSizes`, `CountStarts`, `FilterList`, `Config`).
//!   `try_new`, which all but `Config` have, gives none if and only if the values are outside.
//! - Sources and sinks report a failure only if their count of faults rose, or is at its last
//!   value, 2^64 - 1 (`Source`, `Sink`). Those in memory do what `specs/Memory.antt` and
//!   `specs/Clean.antt` say: which bytes, which calls fail. `SourceGuard` and `SinkGuard` pass
//!   calls on, with the condition that none has failed before.
//! - Each printed name is its definition's. `extend_reserved` adds bytes to a list that has room;
//!   the list stays in place with its capacity. `sum_of` is the sum of at most 16,000,000 bytes.
//! - Memory pools of applications, as definitions (`specs/Grants.antt`): the blocks out are counted
//!   from the grants that are out, and a call moves a pool's account as accounts move
//!   (`recall_blocks_counted`). Grants stand in order of number (`recall_grants_numbered`).
//!
//! Trusted: what standard input holds and standard output receives.
//!
//! Tested: [`MemSink`] can be opened; a guard returns what it guards; standard input can be read
//! and standard output written.
#![tactic(auto)]

mod application;
mod blocks;
mod clean;
mod config;
mod events;
mod grants;
mod guards;
mod memory;
mod outside;
mod reserved;
mod script_faults;
mod sizes;
mod standard;
mod starts;
mod statuses;
mod sums;

pub use application::{AppNo, MAX_APPS};
pub use blocks::{BlockSizes, MAX_BLOCK_SIZE, MAX_BLOCK_SIZES};
pub use clean::{CleanSink, CleanSource};
pub use config::{Budget, BusStats, Config, PoolStats, Scope};
pub use events::{EventKind, FilterList, MAX_FILTERS};
pub use grants::{recall_blocks_counted, recall_grants_numbered};
pub use guards::{SinkGuard, SourceGuard};
pub use memory::{MemSink, MemSource};
pub use outside::{Gate, OpenGate, ReadAnswer, Sink, Source, WriteAnswer};
pub use reserved::extend_reserved;
pub use script_faults::{FaultKind, ScriptFault, WriteFault};
pub use sizes::{
    MAX_MESSAGE_BYTES, MAX_NAME_BYTES, MAX_SCRIPT_BYTES, MAX_TABLE_BYTES, MAX_TEXT_BYTES,
};
pub use standard::{StdSink, StdSource};
pub use starts::{CountStarts, MAX_COUNT, MAX_ID, MAX_STARTS};
pub use statuses::{EsStatus, EvsStatus, SbStatus};
pub use sums::sum_of;
