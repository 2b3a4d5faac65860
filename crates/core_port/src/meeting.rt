//! What the main part learns of a port while no port was joined.
ghost use Rattle.std.specs.Prelude.{◌≡◌, []};
ghost use mathlib.Core.List.{IsPrefix};
ghost use Rattle.core_port.specs.Histories.{own_entries};
ghost use Rattle.core_port.specs.Ports.{KeepsLongerOf};

use crate::kind::Kind;
use crate::port::Port;
use crate::served::ServedCore;
use crate::service::{Main, Service};
use std::sync::Wait;

impl<K: Kind, C: ServedCore<K> + Drop> Service<K, C> {
    /// Has the main part see what a port has seen, while no port was joined. It keeps the longer of
    /// the two histories, which has of the port's application none but the port's own entries. The
    /// port stays as it was. If its last look was in vain, it first sleeps until a waiting
    /// application has news, as [`Port::look`] does.
    pub fn meet<R: Wait>(&self, rt: &R, main: &mut Main<K>, port: &mut Port<K>)
        requires main { main.old.lock ≡ self.now }
        requires none { main.old.ended ≡ [] }
        requires port { port.old.lock ≡ self.now }
        requires opening { K.words.fixed port.old.seen ≡ K.words.fixed main.old.seen }
        ensures main { main.new ≡ record main.old { seen = main.new.seen } }
        ensures seen { KeepsLongerOf K.words main.old.seen port.old.seen main.new.seen }
        ensures own { IsPrefix
            (own_entries K.words port.old.app (K.words.entries main.new.seen)) port.old.mine }
        ensures port { port.new ≡ port.old }
    {
        K::laws();
        self.lock.sleep(rt, &mut port.seat);
        self.lock.meet(&mut main.seat, &mut port.seat);
    }
}
