//! The subscriptions of a software bus: which message id goes to which pipe, and how many of its
//! messages may wait there at once.
//!
//! Contracts see the live subscriptions as a list, in order of their numbers, which are never given
//! again; each call answers and changes just what that list says. By its code, none but `new` takes
//! memory, and none but `any_of_pipe` looks at another subscription than the one named.
//!
//! ```
//! /// A subscription that lets one message wait admits a first one, and is over its limit once
//! /// that one waits.
//! fn second_admission(subs: &mut Subs) -> Admission
//!     requires { subs.old ≡ record { room = 1; made = 0; live = [] } }
//!     ensures { result ≡ Admission.OverLimit }
//! {
//!     let sub = subs.add(0x0801, 7, 0, 1, Scope::Global);
//!     subs.queued(sub);
//!     subs.admit(sub)
//! }
//! ```
//!
//! Proved: a list in order of number. `add` puts one at the end with a number never given before,
//! `remove` takes out that one; `queued` and `unqueued` move its count of waiting messages by one,
//! or change nothing if it has ended; `add_waiting` counts one more of a live one. `admit` answers
//! OverLimit if and only if a live one's count has reached its limit, and `admission` says the same
//! of what `at` answers. `at` is exact. `any_of_pipe` answers a live one of the pipe, if there is
//! any, and leaves open which. Numbers rise along the list (`recall_order`). By reading: how many
//! slots a call looks at.
//!
//! Tested: it can be opened; a limit of one message.
#![tactic(auto)]

mod place;
mod subs;
mod words;

pub use subs::Subs;
pub use words::{Admission, SubNo, SubRow};
