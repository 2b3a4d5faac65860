//! What the bus is to a port: a core with a history.
ghost use Rattle.std.specs.Prelude.{◌↔◌, IsTrue};
ghost use Rattle.bus_words.specs.declared.history.Call.TheVariants.{Figures, End};
ghost use Rattle.sb_calls.specs.Core.{MayCall};

use crate::permits::Permits;
use buf_desc::Held;
use bus_words::{Allowance, BusAnswer, BusCall, Call, Entry};
use core_port::{Kind, Opening, PortLook, ServedCore};
use fsw_base::AppNo;
use lend_block::Note;
use sb_calls::{BusCore, Pended};
use std::collections::LinkedList;
use std::marker::Model;

/// The bus, as a history tells of it. No value of it is made.
pub struct SeenBus {
    /// What never changes.
    pub opening: Opening,
    /// Each call with its answer.
    pub entries: LinkedList<Entry>,
    /// A note beside each.
    pub notes: LinkedList<Note>,
}

impl Model for SeenBus {
    ghost use Rattle.sb_calls.specs.Core.{Core};

    ghost Value = { Core };

    ghost view = { λ s. record {
      limits = s.opening.limits;
      log = record { budgets = s.opening.budgets; entries = s.entries };
      notes = s.notes;
    } };
}

/// The kind of core that the bus is. No value of it is made.
pub struct BusKind;

impl Kind for BusKind {
    ghost use Rattle.bus_service.specs.Words.{bus};

    type Seen = SeenBus;

    type Entry = Entry;

    type Call = Call;

    type Answer = BusAnswer;

    type Permits = Permits;

    ghost words = { bus };

    fn laws() {}
}

impl<'r> ServedCore<BusKind> for BusCore<'r> {
    ghost use Rattle.sb_calls.specs.Bags.{HasBag};
    ghost use Rattle.sb_calls.proofs.OthersBags.{others_behind};
    ghost use Rattle.bus_service.specs.Ports.{FindsRoom};

    type Bag = Held<'r>;

    ghost seen = { λ core. core };

    ghost has_bag = { HasBag };

    ghost finds_room = { FindsRoom };

    fn recall(&self) {
        self.journal();
    }

    fn permits(&self, app: AppNo) -> Permits {
        let left = Allowance {
            entries: self.entries_left(app),
            bytes: self.bytes_left(app),
        };
        let any = self.may_make(app, &BusCall::Figures);
        let last = may_end(self, app, any);
        Permits { left, any, last }
    }

    fn has_news(&self) -> bool {
        BusCore::has_news(self)
    }

    ghost still_has = { others_behind };
}

/// [`BusPort::look`](crate::BusPort::look).
pub(crate) struct LookAgain;

impl<'r> PortLook<BusKind, BusCore<'r>> for LookAgain {
    ghost use Rattle.std.specs.Prelude.{◌≡◌, ℕ, ◌≤◌, true, false};
    ghost use Rattle.bus_words.specs.Bus.{standing_of, waited_on};
    ghost use Rattle.bus_words.specs.declared.history.Call.TheVariants.{Look};
    ghost use Rattle.sb_calls.specs.Answers.{waited, is_pending};
    ghost use Rattle.sb_calls.specs.Bags.{CalledByOthers};
    ghost use Rattle.sb_calls.specs.Core.{Core, Does, Looks, state_of};
    ghost use Rattle.sb_calls.specs.declared.results.Pended.TheVariants.{Pending};

    type Told = Pended;

    ghost call = { λ core app. Look (waited_on (standing_of (state_of core) app)) };

    ghost answer = { waited };

    ghost vain = { is_pending };

    ghost looks = { λ old new app told.
        Looks old new app (waited_on (standing_of (state_of old) app)) told };

    ghost leaves = { λ old new told.
        (told ≡ Pending → new ≡ old) × (new ≡ record old { views = new.views }) };

    fn is_vain(told: &Pended) -> bool
        ensures { result ≡ is_pending told.now }
    {
        told.is_pending()
    }

    fn look(core: &mut BusCore<'r>, app: AppNo, bag: &mut Held<'r>) -> Pended {
        core.look(app, bag)
    }

    fn look_laws()
        ensures in_vain { (s t : Core) → (app : ℕ) → (told : Pended) →
            Looks s t app (waited_on (standing_of (state_of s) app)) told →
            is_pending told ≡ true → t ≡ s }
        ensures found { (s t : Core) → (app : ℕ) → (told : Pended) →
            Looks s t app (waited_on (standing_of (state_of s) app)) told →
            is_pending told ≡ false →
            Does s t app (Look (waited_on (standing_of (state_of s) app))) (waited told) }
        ensures same_call { (s t : Core) → (app : ℕ) → 1 ≤ app → CalledByOthers s t app →
            Look (waited_on (standing_of (state_of t) app)) ≡
            Look (waited_on (standing_of (state_of s) app)) }
    {}
}

// Whether an application may make its last call, if this tells whether it may make any other: who
// may, may also end, and isn't asked for twice.
fn may_end(core: &BusCore<'_>, app: AppNo, any: bool) -> bool
    requires { IsTrue any → MayCall core.now app Figures }
    ensures { IsTrue result ↔ MayCall core.now app End }
{
    if any {
        return true;
    }
    core.may_make(app, &BusCall::End)
}
