//! The unsent buffers of a port.
ghost use Rattle.std.specs.Prelude.{◌≡◌, ℕ, true, List, IfSome, IsSome, refl};
ghost use Rattle.std.specs.Borrow.{sem, Lends, LendsIf, Array, u8 as byte};
ghost use Rattle.std.specs.Option.{is_some};
ghost use Rattle.lend_block.specs.Loan.{LentBytes};
ghost use Rattle.buf_desc.specs.Held.{Holding, buffer_at, bytes_at, with_bytes_at};
ghost use Rattle.bus_words.specs.Bus.{has_unsent};
ghost use Rattle.sb_calls.specs.Core.{state_of};
ghost use Rattle.bus_service.specs.Lending.{with_buffer};

use crate::ports::{BusPort, PortOf};
use buf_desc::Memory;
use lend_block::View;
use sb_calls::bags_stay;

/// The views in a port's bag.
///
/// There is one kind, `View<'r>`. It is a trait so that a port can be generic in it, which a proof
/// about a `&mut` that comes out of the port asks for.
pub trait MessageView {
    /// A bag with such views, as contracts of a port see it.
    ghost held: { Holding Self → Holding LentBytes };
    /// It has the bag's buffers.
    ghost same_buffers: { (bag : Holding Self) → (held bag).buffers ≡ bag.buffers };
    /// Bytes that are written into a buffer of the bag are written there.
    ghost written: { (bag : Holding Self) → (number : ℕ) → (w : List ℕ) →
        held (with_bytes_at bag number w) ≡ with_bytes_at (held bag) number w };
}

impl<'r> MessageView for View<'r> {
    ghost held = { λ bag. bag };

    ghost same_buffers = { λ bag. refl };

    ghost written = { λ bag number w. refl };
}

/// What writes into an unsent buffer.
pub trait Writer {
    ghost fits: { Self → List ℕ → Type 0 };

    ghost left: { Self → List ℕ → List ℕ };

    /// Writes into a buffer's bytes, which it says to fit.
    fn write(self, bytes: &mut [u8])
        requires { fits self bytes.old }
        ensures { bytes.new ≡ left self bytes.old };
}

impl<'r> BusPort<'r> {
    /// Whether the application has an unsent buffer of this number. Takes neither the lock nor the
    /// runtime.
    pub fn holds_buffer(&self, buf: u32) -> bool
        ensures there { result ≡
            has_unsent (state_of self.now.seen).unsent self.now.app buf }
        ensures seen { result ≡ is_some (buffer_at self.now.bag buf) }
    {
        self.bag.buffer(buf as u64).is_some()
    }

    /// Has the bytes of an unsent buffer of the application's written. Takes neither the lock nor
    /// the runtime, and makes no entry.
    pub fn write_buffer<W: Writer>(&mut self, buf: u32, writer: W)
        requires there { is_some (buffer_at self.old.bag buf) ≡ true }
        requires fits { W.fits writer (bytes_at self.old.bag buf) }
        ensures { self.new ≡
            with_buffer self.old buf (W.left writer (bytes_at self.old.bag buf)) }
    {
        bags_stay();
        writer.write(self.bag.bytes_of_mut(buf as u64));
    }
}

impl<S: Memory + Drop, V: MessageView + Drop> PortOf<S, V> {
    ghost use Rattle.bus_service.specs.contracts.ports.PortOf.{the_row};

    // Whether the application has an unsent buffer of this number. It takes `&mut` so that
    // `buffer`, whose proof is by hand, lends the port again in the simplest way.
    fn finds_buffer(&mut self, buf: u32) -> bool
        ensures there { result ≡
            has_unsent (state_of self.old.seen).unsent self.old.app buf }
        ensures seen { result ≡ is_some (buffer_at self.old.bag buf) }
        ensures same { self.new ≡ self.old }
    {
        self.bag.buffer(buf as u64).is_some()
    }

    /// The bytes of an unsent buffer of the application's, for writing. Takes neither the lock nor
    /// the runtime, and makes no entry. [`BusPort::holds_buffer`] tells whether the buffer is
    /// there.
    pub fn bytes_of_mut(&mut self, buf: u32) -> &mut [u8]
        requires { IsSome (buffer_at self.old.bag buf) }
        ensures* writes_back { sem 𝓛
            (Lends (the_row S.row V.row S.Memory V.MessageView) (Array byte 0) self.entry result
            (with_buffer self.entry.now buf)) }
        ensures value { result.now ≡ bytes_at self.old.bag buf }
    {
        bags_stay();
        let bag = &mut self.bag;
        bag.bytes_of_mut(buf as u64)
    }

    /// The bytes of an unsent buffer of the application's, for writing; None if and only if it has
    /// no such buffer. Takes neither the lock nor the runtime, and makes no entry.
    pub fn buffer(&mut self, buf: u32) -> Option<&mut [u8]>
        ensures* writes_back { sem 𝓛
            (LendsIf (the_row S.row V.row S.Memory V.MessageView) (Array byte 0) self.entry result
            (with_buffer self.entry.now buf) self.entry.now) }
        ensures there { is_some result ≡
            has_unsent (state_of self.old.seen).unsent self.old.app buf }
        ensures seen { is_some result ≡ is_some (buffer_at self.old.bag buf) }
        ensures value { IfSome result (λ bytes. bytes.now ≡ bytes_at self.old.bag buf) }
    {
        if self.finds_buffer(buf) {
            return Some(self.bytes_of_mut(buf));
        }
        None
    }
}
