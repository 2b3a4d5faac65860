//! The calls of one application by its ports, from a thread of its own: [`PortCalls`] is the trait
//! `Calls` over a port of the bus and one of the tables.
//!
//! Each call does what `Calls` says. The service that it meets is the one that the port has seen,
//! with entries of other applications alone behind it.
//!
//! ```text
//! /// A pipe is made at the application's turn at the bus, an address requested at its turn at the
//! /// tables.
//! fn calls_by_ports<'r, R: Wait, L: Locks>(
//!     port: BusPort<'r>,
//!     bus: &Bus<'r>,
//!     tables_port: TblPort<'r>,
//!     tables: &Tables<'r>,
//!     rt: &R,
//! ) {
//!     let mut calls = PortCalls::<_, L>::new(port, bus, tables_port, tables, rt);
//!     let pipe = calls.create_pipe(4, b"TLM");                         // Ok(1)
//!     let hold = calls.table_call(TblCall::GetAddress { handle: 1 });  // ErrInvalidHandle
//!     let (port, tables_port) = calls.into_ports();                    // as the calls left them
//! }
//! ```
//!
//! Proved, for calls that aren't alone: the service that a call meets is the one that the port has
//! seen, with entries of others alone behind it (`Meets`, `MeetsTables`); the call gets that
//! service's answer, its entry is the last that the port has seen, the application's bag is its
//! own, and the other service and its bag are unchanged (`Answers`, `AnswersLook`, `TablesAnswer`).
//! `form_buffer` and `put_bytes` write into the port's unsent buffers and change nothing else
//! (`Writes`). `into_ports` returns both ports: of the same application and services (`Locks`),
//! with what the calls have seen and the bags that they left.
//!
//! By reading: bags are read and written without the locks. Tested by `test_run`. Not claimed: how
//! long a call waits for its turn, or a look for news.
#![tactic(auto)]

mod locks;
mod port_calls;
mod table_calls;
mod writing;

pub use locks::Locks;
pub use port_calls::PortCalls;
