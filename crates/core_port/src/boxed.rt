//! What the lock guards: the core in a box, so that a turn moves a pointer.
ghost use Rattle.std.specs.Prelude.{◌≡◌, ◌<◌, ◌≤◌, ◌&&◌, true, false, length, IfOk};
ghost use Rattle.std.specs.Prelude.{if◌then◌else◌};

use crate::history::{NotedCall, Opening};
use crate::kind::Kind;
use crate::served::{PortCall, PortLook, ServedCore};
use fsw_base::AppNo;
use std::alloc::{AllocError, Global};
use std::marker::{Model, PhantomData};
use step_count::{Blank, Ledger, Steps};
use turn_lock::Historied;

/// The core in a box, and whether somebody sleeps until it has news.
#[derive(Drop)]
pub(crate) struct BoxedCore<K: Kind, C: ServedCore<K> + Drop> {
    // The core.
    core: Box<C>,
    // An application that looked in vain sleeps, or is about to, and no call has woken it.
    asleep: bool,
    // Its kind.
    kind: PhantomData<K>,
}

impl<K: Kind, C: ServedCore<K> + Drop> Model for BoxedCore<K, C> {
    ghost use Rattle.std.specs.Prelude.{box_value};
    ghost use Rattle.core_port.specs.Inside.{BoxedView};

    ghost Value = { BoxedView K.Seen };

    ghost view = { λ g. record { core = C.seen (box_value g.core); asleep = g.asleep } };
}

impl<K: Kind, C: ServedCore<K> + Drop> Historied for BoxedCore<K, C> {
    ghost use Rattle.core_port.specs.Histories.{history_of};

    type Fixed = Opening;

    type Event = NotedCall<K::Call, K::Answer>;

    ghost fixed = { λ boxed. K.words.fixed boxed.core };

    ghost history = { λ boxed. history_of K.words boxed.core };

    ghost awaited = { λ boxed. boxed.asleep };

    ghost news = { λ boxed. K.words.news boxed.core };
}

impl<K: Kind, C: ServedCore<K> + Drop> BoxedCore<K, C> {
    /// This core in a box.
    ///
    /// # Errors
    /// If memory runs out.
    pub(crate) fn new(alloc: Global, core: C) -> Result<BoxedCore<K, C>, AllocError>
        ensures { IfOk result (λ g. g ≡ record { core = C.seen core; asleep = false }) }
    {
        let core = Box::new(alloc, core)?;
        Ok(BoxedCore {
            core,
            asleep: false,
            kind: PhantomData,
        })
    }

    /// The core.
    pub(crate) fn into_core(self) -> C
        ensures { C.seen result ≡ self.core }
    {
        let BoxedCore {
            core,
            asleep: _,
            kind: _,
        } = self;
        Box::into_inner(core)
    }

    /// What is always true of the core. Does nothing.
    pub(crate) fn recall(&self)
        ensures { K.words.sound self.now.core }
    {
        self.core.recall();
    }

    /// What an application may still add, and which calls it may make.
    pub(crate) fn permits(&self, app: AppNo) -> K::Permits
        requires { app ≤ length (K.words.fixed self.now.core).budgets }
        ensures { K.words.tells self.now.core app result }
    {
        self.core.permits(app)
    }

    /// Makes a call at the core. Its steps are counted for nobody.
    pub(crate) fn make<V: PortCall<K, C>, L: Ledger>(
        &mut self,
        call: V,
        app: AppNo,
        bag: &mut C::Bag,
        blank: Blank,
    ) -> V::Told
        requires name { blank.name ≡ L.name }
        requires parts { blank.parts ≡ L.parts }
        requires some_part { 0 < blank.parts }
        requires may { K.words.may self.old.core app (V.call call bag.old) }
        requires bag { C.has_bag self.old.core app bag.old }
        requires room { C.finds_room bag.old (V.call call bag.old) }
        ensures does { K.words.does self.old.core self.new.core app (V.call call bag.old)
            (V.answer result) }
        ensures bag { C.has_bag self.new.core app bag.new }
        ensures left { V.leaves call bag.old bag.new result }
        ensures asleep { self.new.asleep ≡ self.old.asleep }
    {
        let mut steps = Steps::<L>::new(blank);
        call.make(&mut self.core, app, bag, &mut steps)
    }

    /// Looks at the core.
    pub(crate) fn look<V: PortLook<K, C>>(&mut self, app: AppNo, bag: &mut C::Bag) -> V::Told
        requires may { K.words.may self.old.core app (V.call self.old.core app) }
        requires bag { C.has_bag self.old.core app bag.old }
        ensures looks { V.looks self.old.core self.new.core app result }
        ensures bag { C.has_bag self.new.core app bag.new }
        ensures left { V.leaves bag.old bag.new result }
        ensures asleep { self.new.asleep ≡ self.old.asleep }
    {
        V::look(&mut self.core, app, bag)
    }

    /// Notes that somebody is about to sleep until there is news.
    pub(crate) fn note_sleeper(&mut self)
        ensures { self.new ≡ record self.old { asleep = true } }
    {
        self.asleep = true;
    }

    /// Whether the sleepers are to be woken: there are some, and a waiting application would be
    /// answered if it looked now. All are woken then, so none is noted any more.
    pub(crate) fn take_sleepers(&mut self) -> bool
        ensures woken { result ≡ self.old.asleep && K.words.news self.old.core }
        ensures asleep { self.new.asleep ≡ (if result then false else self.old.asleep) }
        ensures core { self.new.core ≡ self.old.core }
    {
        if !self.asleep || !self.core.has_news() {
            return false;
        }
        self.asleep = false;
        true
    }
}
