//! The bags with which applications begin.
ghost use Rattle.std.specs.Prelude.{◌≡◌, [], IfOk};
ghost use Rattle.bus_words.specs.Acts.{opening_whole};
ghost use Rattle.bus_core.specs.Core.{apps_in};
ghost use Rattle.bus_core.specs.Bags.{HasBag};

use crate::plain::PlainBus;
use buf_desc::Held;
use fsw_base::AppNo;
use std::alloc::{AllocError, Global};

impl<'r> PlainBus<'r> {
    /// An empty bag for an application of a bus on which no call was made, with room for a view of
    /// each pipe's last message and for so many unsent buffers.
    ///
    /// # Errors
    /// If memory runs out.
    pub fn new_bag(&self, alloc: Global, app: AppNo, buffers: u32) -> Result<Held<'r>, AllocError>
        requires unused { self.now ≡
            record {
              limits = self.now.limits;
              whole = opening_whole self.now.limits (apps_in self.now);
              loans = [];
              descs = [];
            } }
        ensures bag { IfOk result (λ bag. HasBag self.now app bag) }
        ensures buffers { IfOk result (λ bag. bag.buffers ≡ []) }
        ensures room { IfOk result (λ bag. bag.buffer_room ≡ buffers) }
    {
        // Does nothing; the proof learns of it that applications are numbered from 1.
        let _ = app.get();
        Held::new(alloc, self.config.pipes, buffers)
    }
}
