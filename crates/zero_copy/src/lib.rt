//! The buffers that each application holds: one list of descriptors per application, linked by
//! index in both directions.
//!
//! The Software Bus keeps in them which buffers an application has allocated and not sent yet (cFE
//! Software Bus, zero copy). A descriptor is in one list at most, letting go of one and taking the
//! first need no search, and a call takes at most 8 steps, however many buffers and applications
//! there are. By the code, no call but `new` takes memory.
//!
//! ```
//! /// Two buffers are held, the older one is let go of, and the newer one comes first, in at most
//! /// 28 steps.
//! fn newer<L: Ledger>(held: &mut HeldLists, app: AppNo, steps: &mut Steps<L>) -> Option<u32>
//!     requires app { app ≡ 1 }
//!     requires lists { held.old ≡ record { descs = 2; lists = [] ∷ [] } }
//!     ensures first { result ≡ Some 1 }
//!     ensures cost { steps.new ≤ steps.old + 28 }
//! {
//!     held.hold(app, 0, steps);
//!     held.hold(app, 1, steps);
//!     held.let_go(app, 0, steps);
//!     held.take_first(app, steps)
//! }
//! ```
//!
//! Proved: each application's held descriptors are a list. `hold` adds one, `let_go` takes out that
//! one, `take_first` the first. No descriptor is held twice, and each that is held is below their
//! number (`recall_apart`). Tested: a small run.
#![tactic(auto)]

mod held;

pub use held::HeldLists;
