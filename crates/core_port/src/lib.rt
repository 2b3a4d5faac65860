//! One port for every core with a history: a core behind a turn lock, and a port for each
//! application. A port's call waits for the application's turn, makes the core's call, and passes
//! the turn on.
//!
//! A service says what its core is (`Kind`, `ServedCore`) and which calls it has (`PortCall`,
//! `PortLook`). Of the core a port knows these words and their laws alone (`specs/Words.antt`).
//!
//! # Proved
//!
//! For each call of a port the history that it has seen then is the one before, entries of others,
//! and its own (`Answers`, `AnswersLook`). `join` keeps the longer of two histories, and so does
//! `meet` while no port was joined, which leaves the port. `close` answers the core, whose history
//! has of each application just the entries of its port, and no others.
//!
//! Not claimed: progress, fairness, order in time between ports that never met.
#![tactic(auto)]

mod boxed;
mod history;
mod kind;
mod meeting;
mod port;
mod served;
mod service;
mod turns;

pub use history::{NotedCall, Opening};
pub use kind::Kind;
pub use port::Port;
pub use served::{PortCall, PortLook, ServedCore};
pub use service::{Main, Service};
