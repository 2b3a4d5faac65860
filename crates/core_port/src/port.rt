//! One application's part of a service.
ghost use Rattle.std.specs.Prelude.{◌≡◌, ◌≤◌, length, All};
ghost use Rattle.core_port.specs.Histories.{own_entries};
ghost use Rattle.core_port.specs.Ports.{Answers, AnswersLook, look_entries};

use crate::history::{NotedCall, Opening};
use crate::kind::Kind;
use crate::served::{PortCall, PortLook, ServedCore};
use crate::service::Service;
use crate::turns::{begin, begin_awake, finish, pause};
use fsw_base::AppNo;
use std::marker::{Brand, Model};
use std::sync::Wait;
use step_count::Blank;
use turn_lock::Seat;

/// One application's calls, from a thread of its own. Each call waits for the application's turn at
/// the core. What the application holds is passed along; the port itself names no lifetime.
///
/// Contracts see which lock it is of, its application, the core with the history that it has seen,
/// and the entries that it made.
#[derive(Drop)]
pub struct Port<K: Kind> {
    // The seat with which it takes turns.
    pub(crate) seat: Seat<Opening, NotedCall<K::Call, K::Answer>>,
    // Its application.
    pub(crate) app: AppNo,
    // What its application may still add, and which calls it may make.
    pub(crate) permits: K::Permits,
}

impl<K: Kind> Model for Port<K> {
    ghost use Rattle.core_port.specs.Ports.{PortView};
    ghost use Rattle.core_port.specs.Inside.{port_in, IsPort};

    ghost Value = { PortView K.Seen K.Entry };

    ghost view = { λ p. port_in K.words p.seat p.app };

    ghost invariant = { λ p. IsPort K.words p.seat p.app p.permits };
}

impl<K: Kind> Port<K> {
    /// Its application.
    pub fn app(&self) -> AppNo
        ensures { result ≡ self.now.app }
    {
        self.app
    }

    /// What its application may still add, and which calls it may make, told without the lock.
    pub fn permits(&self) -> &K::Permits
        ensures { K.words.tells self.now.seen self.now.app result.now }
    {
        &self.permits
    }

    /// The application has a budget, the entries seen are of applications, and the port's own are
    /// all that the history seen has of the application. Does nothing.
    pub fn recall(&self)
        ensures first { 1 ≤ self.now.app }
        ensures known { self.now.app ≤ length (K.words.fixed self.now.seen).budgets }
        ensures called { All (λ e. 1 ≤ K.words.caller e) (K.words.entries self.now.seen) }
        ensures mine { own_entries K.words self.now.app (K.words.entries self.now.seen) ≡
            self.now.mine }
    {
        K::laws();
        let _ = &self.app;
    }

    /// Makes one call of the core at the application's turn, which it waits for.
    pub fn visit<C: ServedCore<K> + Drop, V: PortCall<K, C>, R: Wait>(
        &mut self,
        service: &Service<K, C>,
        rt: &R,
        bag: &mut C::Bag,
        call: V,
    ) -> V::Told
        requires service { self.old.lock ≡ service.now }
        requires may { K.words.may self.old.seen self.old.app (V.call call bag.old) }
        requires bag { C.has_bag self.old.seen self.old.app bag.old }
        requires room { C.finds_room bag.old (V.call call bag.old) }
        ensures answers { Answers K.words self.old self.new (V.call call bag.old)
            (V.answer result) }
        ensures bag { C.has_bag self.new.seen self.old.app bag.new }
        ensures left { V.leaves call bag.old bag.new result }
    {
        K::laws();
        // While an application waits, its only call but looks is its end.
        let mut turn = begin_awake(service, rt, &mut self.seat);
        let told = turn
            .value_mut()
            .make::<V, Brand>(call, self.app, bag, Blank::new(1));
        self.permits = turn.value().permits(self.app);
        finish(service, &mut self.seat, turn);
        told
    }

    /// Looks again, at the application's turn. If its last look was in vain, it first sleeps until
    /// a waiting application has news. It may wake earlier; nothing is claimed of how long it
    /// sleeps.
    pub fn look<C: ServedCore<K> + Drop, V: PortLook<K, C>, R: Wait>(
        &mut self,
        service: &Service<K, C>,
        rt: &R,
        bag: &mut C::Bag,
    ) -> V::Told
        requires service { self.old.lock ≡ service.now }
        requires may { K.words.may self.old.seen self.old.app
            (V.call self.old.seen self.old.app) }
        requires bag { C.has_bag self.old.seen self.old.app bag.old }
        ensures answers { AnswersLook K.words self.old self.new
            (λ s t. V.looks s t self.old.app result)
            (look_entries K.words self.old.app (V.call self.old.seen self.old.app)
            (V.answer result) (V.vain result)) }
        ensures bag { C.has_bag self.new.seen self.old.app bag.new }
        ensures left { V.leaves bag.old bag.new result }
    {
        K::laws();
        V::look_laws();
        service.lock.sleep(rt, &mut self.seat);
        let mut turn = begin(service, rt, &mut self.seat);
        let told = turn.value_mut().look::<V>(self.app, bag);
        if V::is_vain(&told) {
            self.permits = turn.value().permits(self.app);
            pause(service, &mut self.seat, turn);
            return told;
        }
        self.permits = turn.value().permits(self.app);
        finish(service, &mut self.seat, turn);
        told
    }
}
