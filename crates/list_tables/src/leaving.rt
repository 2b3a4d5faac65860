//! Handles that leave, and tables with them.
ghost use Rattle.std.specs.Prelude.{◌≡◌, ◌==◌, ◌-◌, true, slice_set};
ghost use Rattle.tbl_words.specs.Machine.{without_handles, after_end};

use crate::handles::{leave_others, remove};
use crate::machine::ListTables;
use crate::tables::leave;
use fsw_base::AppNo;

impl ListTables {
    /// A handle is given back.
    pub(crate) fn unregister(&mut self, handle: u32)
        ensures { self.new ≡
            record self.old {
              state = without_handles (λ h. h.number == handle) self.old.state;
            } }
    {
        remove(&mut self.handles, handle);
        leave(&mut self.tables, &self.handles);
    }

    /// All handles of the application leave, and it has ended.
    pub(crate) fn end(&mut self, app: AppNo)
        ensures { self.new ≡ record self.old { state = after_end self.old.state app } }
    {
        leave_others(&mut self.handles, app);
        leave(&mut self.tables, &self.handles);
        end_in(&mut self.ended, app);
    }
}

// The application has ended.
fn end_in(ended: &mut Vec<bool>, app: AppNo)
    ensures { ended.new.items ≡ slice_set ended.old.items (app - 1) true }
{
    let place = app.get() as usize - 1;
    if place < ended.len() {
        ended[place] = true;
    }
}
