//! What becomes of the block of one message, or of one buffer.
ghost use Rattle.std.specs.Prelude.{◌≡◌, ℕ, replicate, ◌+◌, ◌-◌, ◌*◌, ◌<◌, ◌≤◌, true, Some, None, length, if◌then◌else◌, ◌==◌, is_some, IfSome};
ghost use Rattle.std.specs.Option.{option_map, option_map_or};
ghost use Rattle.ccsds_msg.specs.Message.{message_id, message_size, with_count};
ghost use Rattle.bus_words.specs.Machine.{front_of};
ghost use Rattle.es_pool.specs.Pool.{fits};
ghost use Rattle.buf_desc.specs.Desk.{Takes, IsOf, resealed, after_settle};
ghost use Rattle.buf_desc.specs.Held.{view_at};
ghost use Rattle.buf_desc.specs.Slots.{slot_at, sealed_at, is_sealed, HaveOwnNumbers};
ghost use Rattle.bus_messages.specs.Inside.{Adds, Seals, OutAreLive, AreLoose, all_dropped, let_go, shown, view_in};

use buf_desc::{Block, Desk, Held, with_its_count};
use bus_routes::ItemRow;
use ccsds_msg::size_of;
use lend_block::View;
use step_count::{Ledger, Steps};

/// Draws a block for the message, writes it once, with the count if there is one, and seals it.
/// Answers its descriptor, which has no use yet. At most 8 steps.
#[inline(always)]
pub(crate) fn put_message<L: Ledger>(
    desk: &mut Desk<'_>,
    bytes: &[u8],
    count: Option<u16>,
    number: u64,
    steps: &mut Steps<L>,
) -> u32
    requires header { 6 ≤ length bytes.now }
    requires most { length bytes.now < 4294967296 }
    requires count { IfSome count (λ n. n < 16384) }
    requires room { fits desk.old.pool (length bytes.now) 1 ≡ true }
    ensures added { Adds desk.old desk.new number
        (option_map_or (with_count bytes.now) count bytes.now) result }
    ensures live { OutAreLive desk.new }
    ensures cost { steps.new ≤ steps.old + 8 }
{
    let desc = desk.put_copy(bytes, count, number, steps);
    // Does nothing; the proof learns of it, here and below, which blocks are out.
    desk.recall_live();
    desc
}

/// Draws a block of zeros for a buffer of this size and number. At most 8 steps.
pub(crate) fn drawn_empty<'r, L: Ledger>(
    desk: &mut Desk<'r>,
    size: u32,
    number: u64,
    steps: &mut Steps<L>,
) -> Block<'r>
    requires room { fits desk.old.pool size 1 ≡ true }
    ensures taken { Takes desk.old desk.new size number result }
    ensures own { IsOf desk.new result }
    ensures zeros { result.bytes ≡ replicate size 0 }
    ensures cost { steps.new ≤ steps.old + 8 }
{
    desk.take(size, number, steps).unwrap()
}

/// Seals an unsent block at the message that its bytes begin with, which gets the count if there
/// is one. Answers its descriptor, which has no use yet.
pub(crate) fn seal_front<'r>(desk: &mut Desk<'r>, block: Block<'r>, count: Option<u16>) -> u32
    requires own { IsOf desk.old block }
    requires header { 7 ≤ length block.bytes }
    requires within { message_size block.bytes ≤ length block.bytes }
    requires count { IfSome count (λ n. n < 16384) }
    ensures desc { result ≡ block.entry.desc }
    ensures seals { Seals desk.old desk.new block.entry.number (length block.entry.bytes)
        (option_map_or (with_count (front_of block.entry.bytes)) count
        (front_of block.entry.bytes)) block.entry.desc }
    ensures pool { desk.new.pool ≡ desk.old.pool }
    ensures numbers { HaveOwnNumbers desk.old.slots → HaveOwnNumbers desk.new.slots }
    ensures live { OutAreLive desk.new }
{
    let size = size_of(block.bytes());
    let message = with_its_count(block, count);
    let desc = desk.seal(message, size);
    desk.recall_live();
    desc
}

/// Counts a use of the block for each pipe that took the message. If none did, the block goes
/// back. At most 8 steps.
pub(crate) fn settle_message<L: Ledger>(
    desk: &mut Desk<'_>,
    desc: u32,
    reached: u32,
    steps: &mut Steps<L>,
)
    requires sealed { is_sealed (slot_at desk.old.slots desc) ≡ true }
    requires no_use { (sealed_at desk.old.slots desc).uses ≡ 0 }
    requires no_view { (sealed_at desk.old.slots desc).views ≡ 0 }
    ensures after { desk.new ≡
        after_settle
        (resealed desk.old desc (record (sealed_at desk.old.slots desc) { uses = reached })) desc }
    ensures live { OutAreLive desk.new }
    ensures cost { steps.new ≤ steps.old + 8 }
{
    desk.settle_at(desc, reached, steps);
    desk.recall_live();
}

/// Lets messages go that pipes dropped: drops a use of the block of each. At most 8 steps for each.
pub(crate) fn drop_uses<L: Ledger>(desk: &mut Desk<'_>, items: &[ItemRow], steps: &mut Steps<L>)
    requires loose { AreLoose desk.old items.now }
    ensures dropped { desk.new ≡ all_dropped desk.old items.now }
    ensures live { OutAreLive desk.new }
    ensures cost { steps.new ≤ steps.old + 8 * length items.now }
{
    for oldest in items {
        desk.drop_use(oldest.desc, steps);
    }
    desk.recall_live();
}

// Gives the view of an item's message back, and drops that use of its block. At most 8 steps.
fn hand_back<'r, L: Ledger>(
    desk: &mut Desk<'r>,
    item: ItemRow,
    view: View<'r>,
    steps: &mut Steps<L>,
)
    requires sealed { is_sealed (slot_at desk.old.slots item.desc) ≡ true }
    requires of_this_loan { view.loan ≡ (sealed_at desk.old.slots item.desc).loan }
    requires used { 1 ≤ (sealed_at desk.old.slots item.desc).uses }
    requires viewed { (sealed_at desk.old.slots item.desc).uses ≡ 1 →
        (sealed_at desk.old.slots item.desc).views ≤ 1 }
    ensures desk { desk.new ≡ let_go desk.old (Some item) }
    ensures cost { steps.new ≤ steps.old + 8 }
{
    desk.let_use_go(item.desc, view, steps);
}

// Takes the view of a pipe's last message out of the bag, and hands it back. At most 8 steps.
fn put_back<'r, L: Ledger>(
    desk: &mut Desk<'r>,
    held: &mut Held<'r>,
    pipe: u32,
    last: ItemRow,
    steps: &mut Steps<L>,
)
    requires seen { view_at held.old pipe ≡ Some (view_in desk.old.slots last) }
    requires sealed { is_sealed (slot_at desk.old.slots last.desc) ≡ true }
    requires used { 1 ≤ (sealed_at desk.old.slots last.desc).uses }
    requires viewed { (sealed_at desk.old.slots last.desc).views ≤
        (sealed_at desk.old.slots last.desc).uses }
    ensures desk { desk.new ≡ let_go desk.old (Some last) }
    ensures gone { (other : ℕ) →
        view_at held.new other ≡ (if pipe == other then None else view_at held.old other) }
    ensures fewer { length held.new.views + 1 ≡ length held.old.views }
    ensures same { held.new ≡ record held.old { views = held.new.views } }
    ensures cost { steps.new ≤ steps.old + 8 }
{
    let view = held.take_view(pipe).unwrap();
    hand_back(desk, last, view, steps);
}

/// Puts a view of the item's message into the bag, for a pipe that has none there, and answers the
/// item's number; None if there is no item.
pub(crate) fn show<'r>(
    desk: &mut Desk<'r>,
    held: &mut Held<'r>,
    pipe: u32,
    item: Option<ItemRow>,
) -> Option<u64>
    requires none { view_at held.old pipe ≡ None }
    requires room { length held.old.views < held.old.view_room }
    requires sealed { IfSome item (λ i. is_sealed (slot_at desk.old.slots i.desc) ≡ true) }
    requires few { IfSome item
        (λ i. (sealed_at desk.old.slots i.desc).views < 4294967295) }
    ensures number { result ≡ option_map (λ i. i.number) item }
    ensures desk { desk.new ≡ shown desk.old item }
    ensures seen { (other : ℕ) →
        view_at held.new other ≡
        (if pipe == other then option_map (view_in desk.old.slots) item
        else view_at held.old other) }
    ensures more { length held.new.views ≡ length held.old.views + (if is_some item then 1 else 0) }
    ensures same { held.new ≡ record held.old { views = held.new.views } }
{
    match item {
        Some(item) => {
            let view = desk.view(item.desc);
            held.put_view(pipe, view);
            Some(item.number)
        }
        None => None,
    }
}

// Puts a view of the next item's message in the place of that of a pipe's last one, and hands that
// one back. At most 8 steps. Inlined as its caller is.
#[inline(always)]
fn exchange<'r, L: Ledger>(
    desk: &mut Desk<'r>,
    held: &mut Held<'r>,
    pipe: u32,
    last: ItemRow,
    next: ItemRow,
    steps: &mut Steps<L>,
)
    requires seen { view_at held.old pipe ≡ Some (view_in desk.old.slots last) }
    requires sealed { is_sealed (slot_at desk.old.slots last.desc) ≡ true }
    requires used { 1 ≤ (sealed_at desk.old.slots last.desc).uses }
    requires viewed { (sealed_at desk.old.slots last.desc).views ≤
        (sealed_at desk.old.slots last.desc).uses }
    requires lent { 1 ≤ (sealed_at desk.old.slots last.desc).views }
    requires next_sealed { is_sealed (slot_at (let_go desk.old (Some last)).slots next.desc) ≡
        true }
    requires few { (sealed_at desk.old.slots next.desc).views < 4294967295 }
    ensures desk { desk.new ≡ shown (let_go desk.old (Some last)) (Some next) }
    ensures seen { (other : ℕ) →
        view_at held.new other ≡
        (if pipe == other then Some (view_in (let_go desk.old (Some last)).slots next)
        else view_at held.old other) }
    ensures as_many { length held.new.views ≡ length held.old.views }
    ensures same { held.new ≡ record held.old { views = held.new.views } }
    ensures cost { steps.new ≤ steps.old + 8 }
{
    let view = desk.view(next.desc);
    let old = held.exchange_view(pipe, view);
    hand_back(desk, last, old, steps);
}

/// Lets a pipe's last message go, if any, and shows the next one, if any, in its place; answers
/// the next one's number. At most 8 steps. Inlined, the items aren't made in memory.
#[inline(always)]
pub(crate) fn show_next<'r, L: Ledger>(
    desk: &mut Desk<'r>,
    held: &mut Held<'r>,
    pipe: u32,
    last: Option<ItemRow>,
    next: Option<ItemRow>,
    steps: &mut Steps<L>,
) -> Option<u64>
    requires seen { view_at held.old pipe ≡ option_map (view_in desk.old.slots) last }
    requires room { length held.old.views < held.old.view_room + (if is_some last then 1 else 0) }
    requires sealed { IfSome last (λ item. is_sealed (slot_at desk.old.slots item.desc) ≡ true) }
    requires used { IfSome last (λ item. 1 ≤ (sealed_at desk.old.slots item.desc).uses) }
    requires viewed { IfSome last
        (λ item. (sealed_at desk.old.slots item.desc).views ≤
        (sealed_at desk.old.slots item.desc).uses) }
    requires lent { IfSome last (λ item. 1 ≤ (sealed_at desk.old.slots item.desc).views) }
    requires next_sealed { IfSome next
        (λ item. is_sealed (slot_at (let_go desk.old last).slots item.desc) ≡ true) }
    requires few { IfSome next
        (λ item. (sealed_at desk.old.slots item.desc).views < 4294967295) }
    ensures number { result ≡ option_map (λ item. item.number) next }
    ensures desk { desk.new ≡ shown (let_go desk.old last) next }
    ensures seen { (other : ℕ) →
        view_at held.new other ≡
        (if pipe == other then option_map (view_in (let_go desk.old last).slots) next
        else view_at held.old other) }
    ensures counted { length held.new.views + (if is_some last then 1 else 0) ≡
        length held.old.views + (if is_some next then 1 else 0) }
    ensures same { held.new ≡ record held.old { views = held.new.views } }
    ensures cost { steps.new ≤ steps.old + 8 }
{
    match (last, next) {
        (Some(last), Some(next)) => {
            exchange(desk, held, pipe, last, next, steps);
            Some(next.number)
        }
        (Some(last), None) => {
            put_back(desk, held, pipe, last, steps);
            None
        }
        (None, next) => show(desk, held, pipe, next),
    }
}
