//! What an application holds of tables.
ghost use Rattle.std.specs.Prelude.{◌≡◌, ◌==◌, ◌+◌, ◌<◌, ℕ, if◌then◌else◌, Some, None, [], length, IfOk};
ghost use Rattle.std.specs.Option.{option_map};
ghost use Rattle.lend_block.specs.Loan.{LentBytes};
ghost use Rattle.table_blocks.specs.Held.{HeldViews, held_at, without};

use buf_desc::Held;
use lend_block::View;
use std::alloc::{AllocError, Global};
use std::marker::Model;

/// The views of tables that one application holds, by the handle that each is held for.
///
/// Contracts see a finite map from handles to views, and for how many there is room. A look-up
/// reads about log n of the n views.
pub struct HeldTables<'r> {
    // The views, in a bag that has no room for anything else.
    bag: Held<'r>,
}

impl Drop for HeldTables<'_> {
    fn drop(self) {
        let HeldTables { bag: _bag } = self;
    }
}

impl<'r> Model for HeldTables<'r> {
    ghost use Rattle.table_blocks.specs.Held.{HeldViews};

    ghost Value = { HeldViews };

    ghost view = { λ h. record { views = h.bag.views; room = h.bag.view_room } };
}

impl<'r> HeldTables<'r> {
    /// No view, with room for one of each of so many handles. By the code, no later call takes
    /// memory.
    ///
    /// # Errors
    ///
    /// `AllocError` if memory runs out.
    pub fn new(alloc: Global, handles: u32) -> Result<HeldTables<'r>, AllocError>
        ensures { IfOk result (λ held. held ≡ record { views = []; room = handles }) }
    {
        Ok(HeldTables {
            bag: Held::new(alloc, handles, 0)?,
        })
    }

    /// The view that is held for a handle.
    pub fn view_of(&self, handle: u32) -> Option<&View<'r>>
        ensures { option_map (λ v. v.now) result ≡ held_at self.now handle }
    {
        self.bag.view_of(handle)
    }

    /// Keeps a view for a handle that has none here.
    pub fn put(&mut self, handle: u32, view: View<'r>)
        requires room { length self.old.views < self.old.room }
        requires new { held_at self.old handle ≡ None }
        ensures seen { (other : ℕ) →
            held_at self.new other ≡
            (if handle == other then Some view.entry else held_at self.old other) }
        ensures one_more { length self.new.views ≡ length self.old.views + 1 }
        ensures same_room { self.new.room ≡ self.old.room }
    {
        self.bag.put_view(handle, view);
    }

    /// Takes the view of a handle out.
    pub fn take(&mut self, handle: u32) -> Option<View<'r>>
        ensures found { result ≡ held_at self.old handle }
        ensures seen { (other : ℕ) →
            held_at self.new other ≡
            (if handle == other then None else held_at self.old other) }
        ensures after { self.new ≡ without self.old handle }
    {
        self.bag.take_view(handle)
    }
}
