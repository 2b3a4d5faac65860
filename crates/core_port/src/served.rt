//! A core that can be served to ports, and its calls.
ghost use Rattle.std.specs.Prelude.{◌≡◌, ℕ, ◌≤◌, Bool, true, false, length};

use crate::kind::Kind;
use fsw_base::AppNo;
use step_count::{Ledger, Steps};

/// A core of this kind. Its calls take the caller's bag along.
pub trait ServedCore<K: Kind> {
    /// What an application holds of the core.
    type Bag;

    ghost seen: { Self → K.Seen };

    ghost has_bag: { K.Seen → ℕ → Self.Bag → Type 0 };

    ghost finds_room: { Self.Bag → K.Call → Type 0 };

    /// What is always true of it. Does nothing.
    fn recall(&self)
        ensures { K.words.sound (seen self.now) };

    /// What an application may still add, and which calls it may make.
    fn permits(&self, app: AppNo) -> K::Permits
        requires { app ≤ length (K.words.fixed (seen self.now)).budgets }
        ensures { K.words.tells (seen self.now) app result };

    /// Whether an application that waits would be answered if it looked now.
    fn has_news(&self) -> bool
        ensures { result ≡ K.words.news (seen self.now) };

    ghost still_has: { (s t : K.Seen) → (app : ℕ) → (bag : Self.Bag) → K.words.others s t app →
        has_bag s app bag → has_bag t app bag };
}

/// One of the core's calls with its parameters. Whichever it is, a port makes it in one way, so
/// that one proof is enough. A call may be about bytes of the caller's bag.
pub trait PortCall<K: Kind, C: ServedCore<K>> {
    /// What it is answered.
    type Told;

    ghost call: { Self → C.Bag → K.Call };

    ghost answer: { Self.Told → K.Answer };

    ghost leaves: { Self → C.Bag → C.Bag → Self.Told → Type 0 };

    /// Makes it at the core.
    fn make<L: Ledger>(
        self,
        core: &mut C,
        app: AppNo,
        bag: &mut C::Bag,
        steps: &mut Steps<L>,
    ) -> Self::Told
        requires may { K.words.may (C.seen core.old) app (call self bag.old) }
        requires bag { C.has_bag (C.seen core.old) app bag.old }
        requires room { C.finds_room bag.old (call self bag.old) }
        ensures does { K.words.does (C.seen core.old) (C.seen core.new) app (call self bag.old)
            (answer result) }
        ensures bag { C.has_bag (C.seen core.new) app bag.new }
        ensures left { leaves self bag.old bag.new result };
}

/// A look of an application that waits. In vain it changes nothing, and makes no entry.
pub trait PortLook<K: Kind, C: ServedCore<K>> {
    /// What it is answered.
    type Told;

    ghost call: { K.Seen → ℕ → K.Call };

    ghost answer: { Self.Told → K.Answer };

    ghost vain: { Self.Told → Bool };

    ghost looks: { K.Seen → K.Seen → ℕ → Self.Told → Type 0 };

    ghost leaves: { C.Bag → C.Bag → Self.Told → Type 0 };

    /// Whether it was in vain.
    fn is_vain(told: &Self::Told) -> bool
        ensures { result ≡ vain told.now };

    /// Looks at the core.
    fn look(core: &mut C, app: AppNo, bag: &mut C::Bag) -> Self::Told
        requires may { K.words.may (C.seen core.old) app (call (C.seen core.old) app) }
        requires bag { C.has_bag (C.seen core.old) app bag.old }
        ensures looks { looks (C.seen core.old) (C.seen core.new) app result }
        ensures bag { C.has_bag (C.seen core.new) app bag.new }
        ensures left { leaves bag.old bag.new result };

    /// A look in vain leaves the core. One that found something is a call, and others' entries
    /// leave which call it is. Does nothing.
    fn look_laws()
        ensures in_vain { (s t : K.Seen) → (app : ℕ) → (told : Self.Told) → looks s t app told →
            vain told ≡ true → t ≡ s }
        ensures found { (s t : K.Seen) → (app : ℕ) → (told : Self.Told) → looks s t app told →
            vain told ≡ false → K.words.does s t app (call s app) (answer told) }
        ensures same_call { (s t : K.Seen) → (app : ℕ) → 1 ≤ app → K.words.others s t app →
            call t app ≡ call s app };
}
