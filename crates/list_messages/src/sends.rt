//! Send numbers, and the account of the pool that blocks for them are drawn from.
ghost use Rattle.std.specs.Prelude.{◌≡◌, ◌==◌, ◌≤◌, ◌<◌, ◌^◌, [], ◌∷◌, length, count_by, slice_set, IsTrue, IfOk};
ghost use Rattle.std.specs.Result.{OnOk, OnErr};
ghost use Rattle.fsw_base.specs.Blocks.{class_of};
ghost use Rattle.fsw_base.specs.PoolAccounts.{has_room, after_request};
ghost use Rattle.bus_words.specs.Held.{bytes_in_use};
ghost use Rattle.list_messages.specs.Sends.{no_sends, no_use, use_at, names_of, is_used, account_by, with_send, with_names, without_name, without_names, returned_if};

use crate::blocks::bytes_in_use;
use crate::numbers::one_more;
use fsw_base::BlockSizes;
use list_pool::ListAccount;
use std::alloc::{AllocError, Global};
use std::marker::Model;

// A send number.
#[derive(Clone, Copy)]
struct SendUse {
    // The size first asked for under it.
    asked: u32,
    // How often pipes and unsent buffers name it.
    named: u64,
}

impl Model for SendUse {
    ghost use Rattle.list_messages.specs.Sends.{Use};

    ghost Value = { Use };

    ghost view = { λ u. record { asked = u.asked; named = u.named } };

    ghost inverse = { λ u. record { asked = u.asked; named = u.named } };
}

impl SendUse {
    // Whether it has one name.
    fn has_one_name(&self) -> bool
        ensures { result ≡ (self.now.named == 1) }
    {
        self.named == 1
    }

    // The size first asked for.
    fn asked_size(&self) -> u32
        ensures { result ≡ self.now.asked }
    {
        self.asked
    }
}

/// The send numbers that were given, and the pool's account.
#[derive(Drop)]
pub(crate) struct ListSends {
    // By number; place 0 is no send's.
    uses: Vec<SendUse>,
    // How many are named.
    used: u32,
    // The pool's account.
    account: ListAccount,
}

impl Model for ListSends {
    ghost use Rattle.list_messages.specs.Sends.{Sends};

    ghost Value = { Sends };

    ghost use Rattle.list_messages.specs.Inside.{sends_in, AreCounted};

    ghost view = { sends_in };

    ghost invariant = { AreCounted };
}

impl ListSends {
    /// No number was given, of a pool of so many bytes.
    pub(crate) fn new(
        alloc: Global,
        bytes: u32,
        sizes: &BlockSizes,
    ) -> Result<ListSends, AllocError>
        ensures { IfOk result (λ sends. sends ≡ no_sends bytes sizes.now) }
    {
        let account = ListAccount::new(alloc, bytes, sizes)?;
        let uses = no_uses(alloc)?;
        Ok(ListSends {
            uses,
            used: 0,
            account,
        })
    }

    /// The number that is given next.
    pub(crate) fn next(&self) -> Result<u32, AllocError>
        ensures number { IfOk result (λ number. number ≡ length self.now.uses) }
        ensures few { OnOk result (length self.now.uses < 2 ^ 32) }
    {
        if self.uses.len() > u32::MAX as usize {
            return Err(AllocError);
        }
        Ok(self.uses.len() as u32)
    }

    /// Whether the pool has a block for so many bytes.
    pub(crate) fn has_room(&self, size: u32) -> bool
        ensures { result ≡ has_room (account_by self.now) size }
    {
        self.account.has_room(size)
    }

    /// Gives the next number, which is named once, with a block for so many bytes.
    pub(crate) fn draw(&mut self, size: u32) -> Result<(), AllocError>
        requires { IsTrue (has_room (account_by self.old) size) }
        ensures { OnOk result (self.new ≡ with_send self.old size) }
    {
        let used = one_more(self.used)?;
        let _ = self.next()?;
        self.uses.push(SendUse {
            asked: size,
            named: 1,
        })?;
        draw_block(&mut self.account, size);
        self.used = used;
        Ok(())
    }

    /// A number that is named is named so many times more.
    pub(crate) fn name(&mut self, number: u32, count: usize) -> Result<(), AllocError>
        requires { 1 ≤ names_of self.old.uses number }
        ensures { OnOk result
            (self.new ≡
            record self.old { uses = with_names self.old.uses number count }) }
    {
        add_names(&mut self.uses, number, count)?;
        Ok(())
    }

    /// A number is named once less. With its last name its block goes back.
    pub(crate) fn drop_name(&mut self, number: u32)
        ensures { self.new ≡
            record self.old { uses = without_name self.old.uses number } }
    {
        let before = use_at(&self.uses, number);
        drop_name(&mut self.uses, number);
        if !before.has_one_name() {
            return;
        }
        self.used -= 1;
        give_back(&mut self.account, before.asked_size());
    }

    /// Each of these numbers is named once less.
    pub(crate) fn drop_names(&mut self, numbers: &[u32])
        ensures { self.new ≡
            record self.old { uses = without_names self.old.uses numbers.now } }
    {
        for number in numbers {
            self.drop_name(*number);
        }
    }

    /// How many numbers are named.
    pub(crate) fn used_count(&self) -> u32
        ensures { result ≡ count_by is_used self.now.uses }
    {
        self.used
    }

    /// The sizes of the blocks that are out, added up.
    pub(crate) fn bytes_in_use(&self) -> u32
        ensures { result ≡ bytes_in_use (account_by self.now) }
    {
        bytes_in_use(&self.account)
    }

    /// The pool's account.
    pub(crate) fn account(&self) -> &ListAccount
        ensures { result.now ≡ account_by self.now }
    {
        &self.account
    }
}

// The uses of no number.
fn no_uses(alloc: Global) -> Result<Vec<SendUse>, AllocError>
    ensures { IfOk result (λ uses. uses.items ≡ no_use ∷ []) }
{
    let mut uses = Vec::new(alloc);
    uses.push(SendUse { asked: 0, named: 0 })?;
    Ok(uses)
}

// The use of a number.
fn use_at(uses: &[SendUse], number: u32) -> SendUse
    ensures { result ≡ use_at uses.now number }
{
    match uses.get(number as usize) {
        Some(found) => *found,
        None => SendUse { asked: 0, named: 0 },
    }
}

// A number is named so many times more.
fn add_names(uses: &mut Vec<SendUse>, number: u32, count: usize) -> Result<(), AllocError>
    ensures after { OnOk result (uses.new.items ≡ with_names uses.old.items number count) }
    ensures same { OnErr result (uses.new.items ≡ uses.old.items) }
{
    let before = use_at(uses, number);
    let named = before.named.checked_add(count as u64).ok_or(AllocError)?;
    set_use(
        uses,
        number,
        SendUse {
            asked: before.asked,
            named,
        },
    );
    Ok(())
}

// A number is named once less.
fn drop_name(uses: &mut Vec<SendUse>, number: u32)
    ensures { uses.new.items ≡ without_name uses.old.items number }
{
    let before = use_at(uses, number);
    set_use(
        uses,
        number,
        SendUse {
            asked: before.asked,
            named: before.named.saturating_sub(1),
        },
    );
}

// A number's use is this one; nothing changes if the number wasn't given.
fn set_use(uses: &mut Vec<SendUse>, number: u32, new: SendUse)
    ensures { uses.new.items ≡ slice_set uses.old.items number new }
{
    let place = number as usize;
    if place < uses.len() {
        uses[place] = new;
    }
}

// A block for so many bytes is drawn.
#[tactic(auto, using(crate::proofs::Account::drawn_is))]
fn draw_block(account: &mut ListAccount, size: u32)
    requires { IsTrue (has_room account.old size) }
    ensures { account.new ≡ after_request account.old size }
{
    if let Some(class) = account.class_of(size) {
        account.draw(class, 1);
    }
}

// The block for so many bytes goes back, if there is a size for it.
fn give_back(account: &mut ListAccount, size: u32)
    ensures { account.new ≡ returned_if account.old (class_of size account.old.sizes) }
{
    if let Some(class) = account.class_of(size) {
        account.give_back(class);
    }
}
