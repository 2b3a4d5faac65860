//! What a change of one block leaves of a desk and of a bag. These functions do nothing, and are
//! there for what they ensure.
ghost use Rattle.std.specs.Prelude.{◌≡◌, ◌≢◌, ℕ, ◌==◌, if◌then◌else◌, true, List, length, slice_set};
ghost use Rattle.std.specs.Option.{option_map};
ghost use Rattle.lend_block.specs.Loan.{LentBytes};
ghost use Rattle.es_pool.specs.Pool.{PoolState, is_out, size_at, given_back};
ghost use Rattle.buf_desc.specs.Block.{Unsent as UnsentBlock};
ghost use Rattle.buf_desc.specs.Slots.{slot_at, is_live, number_in, HaveOwnNumbers};
ghost use Rattle.buf_desc.specs.Fronts.{overwritten, with_bytes};
ghost use Rattle.buf_desc.specs.Held.{Holding, buffer_at, with_bytes_at};
ghost use Rattle.buf_desc.specs.Desk.{Buffers, Takes, IsOf, after_drop};
ghost use Rattle.buf_desc.specs.declared.slot.Slot.{Slot};
ghost use Rattle.buf_desc.specs.declared.slot.Slot.TheVariants.{Unsent};

/// A draw changes the block drawn and no other: that one is an application's for its send, and
/// each that was live is what it was, in the pool too. If the send is new, no two live blocks
/// have the same send afterwards.
pub fn recall_draw()
    ensures slots { (old new : Buffers) (size number : ℕ) (block : UnsentBlock) →
        Takes old new size number block → IsOf new block → (other : ℕ) →
        slot_at new.slots other ≡
        (if block.desc == other then Unsent number size else slot_at old.slots other) }
    ensures sizes { (old new : Buffers) (size number : ℕ) (block : UnsentBlock) →
        Takes old new size number block → (other : ℕ) → is_out old.pool other ≡ true →
        size_at new.pool other ≡ size_at old.pool other }
    ensures numbers { (old new : Buffers) (size number : ℕ) (block : UnsentBlock) →
        Takes old new size number block → IsOf new block → HaveOwnNumbers old.slots →
        ((other : ℕ) → is_live (slot_at old.slots other) ≡ true →
        number_in (slot_at old.slots other) ≢ number) →
        HaveOwnNumbers new.slots }
{}

/// If the slot of a live block is set, as every call on one does, the slots of the others stay;
/// a block that goes back leaves the size of each. If the block keeps its send, or is free, no
/// two live blocks get the same send.
pub fn recall_change()
    ensures slots { (slots : List Slot) (desc : ℕ) (slot : Slot) →
        is_live (slot_at slots desc) ≡ true → (other : ℕ) →
        slot_at (slice_set slots desc slot) other ≡
        (if desc == other then slot else slot_at slots other) }
    ensures sizes { (pool : PoolState) (desc other : ℕ) →
        size_at (given_back pool desc) other ≡ size_at pool other }
    ensures numbers { (slots : List Slot) (desc : ℕ) (slot : Slot) →
        is_live (slot_at slots desc) ≡ true →
        (is_live slot ≡ true → number_in slot ≡ number_in (slot_at slots desc)) →
        HaveOwnNumbers slots → HaveOwnNumbers (slice_set slots desc slot) }
{}

/// Bytes that are written over those of a block in a bag change that block alone, and leave as many
/// of them open.
pub fn recall_written()
    ensures seen { (bag : Holding LentBytes) (number : ℕ) (w : List ℕ) (other : ℕ) →
        buffer_at (with_bytes_at bag number w) other ≡
        (if number == other then option_map (λ block. with_bytes block w) (buffer_at bag other)
        else buffer_at bag other) }
    ensures long { (bytes w : List ℕ) → length (overwritten bytes w) ≡ length bytes }
{}
