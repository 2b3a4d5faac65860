//! Whose a block of the pool is.
ghost use Rattle.std.specs.Prelude.{◌≡◌, ◌<◌, true, length, slice_set, vec_capacity};
ghost use Rattle.table_blocks.specs.Memory.{slot_at, is_free, free_bytes};
ghost use Rattle.table_blocks.specs.declared.slot.Slot.TheVariants.{Free, Taken};

use crate::space::Space;
use std::mem;

/// Whose a block is that was cut.
#[derive(Drop)]
pub enum Slot<'r> {
    /// The pool has it.
    Free(Space<'r>),
    /// The table of this key has it.
    Taken(u32),
}

/// Takes the memory of a free block, which is then this table's.
pub fn take_free<'r>(slots: &mut Vec<Slot<'r>>, block: u32, key: u32) -> Space<'r>
    requires within { block < length slots.old.items }
    requires free { is_free (slot_at slots.old.items block) ≡ true }
    ensures space { result ≡ free_bytes (slot_at slots.old.items block) }
    ensures after { slots.new.items ≡ slice_set slots.old.items block (Taken key) }
    ensures capacity { vec_capacity slots.new ≡ vec_capacity slots.old }
{
    match mem::replace(&mut slots[block as usize], Slot::Taken(key)) {
        Slot::Free(space) => space,
        Slot::Taken(_) => unreachable!(),
    }
}

/// Puts the memory of a block that is free again into its slot.
pub fn put_free<'r>(slots: &mut Vec<Slot<'r>>, block: u32, space: Space<'r>)
    requires { block < length slots.old.items }
    ensures after { slots.new.items ≡ slice_set slots.old.items block (Free space.entry) }
    ensures capacity { vec_capacity slots.new ≡ vec_capacity slots.old }
{
    slots[block as usize] = Slot::Free(space);
}
