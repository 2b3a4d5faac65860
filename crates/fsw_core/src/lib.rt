//! The bus and the tables of the same applications, with all their memory, as one value: what a
//! program in C holds.
//!
//! ```text
//! /// An application ends, and then once more.
//! fn two_ends(alloc: Global) -> Option<Refusal> {
//!     let mut core = Core::new(alloc, &Config::usual(), 2, 0).ok()?;  // of two applications
//!     core.bus.create_pipe(1, 4, b"TLM").ok()?.ok()?;                 // 1: its number
//!     core.end::<Brand, Brand>(1, Blank::new(1), Blank::new(1)).ok()?;
//!     core.end::<Brand, Brand>(1, Blank::new(1), Blank::new(1)).err() // Some(Refusal::NotActive)
//! }
//! ```
//!
//! # Proved
//!
//! - A new core has had no call.
//! - An end is a step of the bus, and before it one of the tables, if the application hasn't ended
//!   there; or it is refused as the bus's box refuses it, and nothing changes. Its bags are empty
//!   then, and those of all others stay.
#![tactic(auto)]

ghost use Rattle.std.specs.Prelude.{◌≡◌, ◌≤◌, ◌<◌, [], None, IsSome, IfOk, OnErr, box_value};
ghost use Rattle.std.specs.Result.{result_err};
ghost use Rattle.fsw_base.specs.Limits.{limits_of};
ghost use Rattle.bus_words.specs.declared.calls.BusAnswer.TheVariants.{Done};
ghost use Rattle.bus_words.specs.declared.history.Call.TheVariants.{End};
ghost use Rattle.tbl_words.specs.declared.calls.TblAnswer.TheVariants.{Done as TableDone};
ghost use Rattle.tbl_words.specs.declared.history.Call.TheVariants.{End as TableEnd};
ghost use Rattle.bus_core.specs.Core.{Acts};
ghost use Rattle.table_core.specs.Core.{Acts as TableActs};
ghost use Rattle.checked_bus.specs.Asked.{unasked_end};
ghost use Rattle.checked_bus.specs.Box.{KeepsOtherBags, bag_of, opened, empty_bags};
ghost use Rattle.checked_tables.specs.Asked.{unasked as unasked_tables};
ghost use Rattle.checked_tables.specs.Box.{KeepsOtherBags as KeepsOtherTables, bag_of as table_bag_of, opened as opened_tables, empty_bags as empty_table_bags};

mod memory;

use checked_bus::{Refusal, SbBox};
use checked_tables::TblBox;
use fsw_base::Config;
pub use memory::MemoryRefusal;
use std::alloc::Global;
use step_count::{Blank, Ledger};

/// The bus and the tables of the same applications.
pub struct Core {
    /// The bus.
    pub bus: SbBox<'static>,
    /// The tables.
    pub tables: TblBox<'static>,
}

impl Drop for Core {
    fn drop(self) {
        let Core {
            bus: _bus,
            tables: _tables,
        } = self;
    }
}

impl Core {
    /// A core of so many applications, on which no call was made. Each application may hold so many
    /// unsent buffers.
    ///
    /// # Errors
    /// A [`MemoryRefusal`] if memory runs out.
    pub fn new(alloc: Global, cfg: &Config, apps: u32, buffers: u32) -> Result<Core, MemoryRefusal>
        requires apps { apps ≤ 16 }
        ensures bus { IfOk result
            (λ core. core.bus.core ≡ opened (limits_of cfg.now) apps) }
        ensures tables { IfOk result
            (λ core. core.tables.core ≡ opened_tables (limits_of cfg.now) apps) }
        ensures bags { IfOk result
            (λ core. core.bus.bags ≡ empty_bags apps cfg.now.pipes buffers) }
        ensures table_bags { IfOk result
            (λ core. core.tables.bags ≡ empty_table_bags apps cfg.now.handles) }
    {
        let messages = memory::zeros(alloc, cfg.pool as usize)?;
        let values = memory::zeros(alloc, cfg.tablepool as usize)?;
        let work = memory::zeros(alloc, 4 * cfg.tablemax as usize)?;
        let bus = memory::bus(alloc, cfg, apps, buffers, messages.leak())?;
        let tables = memory::tables(alloc, cfg, apps, values.leak(), work.leak())?;
        Ok(Core { bus, tables })
    }

    /// The same in a box.
    ///
    /// # Errors
    /// A [`MemoryRefusal`] if memory runs out.
    pub fn new_boxed(
        alloc: Global,
        cfg: &Config,
        apps: u32,
        buffers: u32,
    ) -> Result<Box<Core>, MemoryRefusal>
        requires apps { apps ≤ 16 }
        ensures bus { IfOk result
            (λ core. (box_value core).bus.core ≡ opened (limits_of cfg.now) apps) }
        ensures tables { IfOk result
            (λ core. (box_value core).tables.core ≡ opened_tables (limits_of cfg.now) apps) }
        ensures bags { IfOk result
            (λ core. (box_value core).bus.bags ≡ empty_bags apps cfg.now.pipes buffers) }
        ensures table_bags { IfOk result
            (λ core. (box_value core).tables.bags ≡ empty_table_bags apps cfg.now.handles) }
    {
        let core = Core::new(alloc, cfg, apps, buffers)?;
        memory::box_of(alloc, core)
    }

    /// Drops the core. The memory of messages and tables stays taken.
    pub fn let_go(core: Box<Core>) {
        drop(core);
    }

    /// The application's last call: its table handles go back, then it leaves the bus. It has no
    /// buffer out.
    ///
    /// # Errors
    /// A [`Refusal`] if neither was asked.
    pub fn end<L: Ledger, M: Ledger>(
        &mut self,
        app: u32,
        blank: Blank,
        other: Blank,
    ) -> Result<(), Refusal>
        requires name { blank.name ≡ L.name }
        requires parts { blank.parts ≡ L.parts }
        requires some_part { 0 < blank.parts }
        requires other_name { other.name ≡ M.name }
        requires other_parts { other.parts ≡ M.parts }
        requires other_part { 0 < other.parts }
        ensures unasked { result_err result ≡ unasked_end self.old.bus app }
        ensures nothing { OnErr result (self.new ≡ self.old) }
        ensures tables { IfOk result
            (λ answer. unasked_tables self.old.tables.core app TableEnd ≡ None →
            TableActs self.old.tables.core self.new.tables.core app TableEnd TableDone) }
        ensures ended { IfOk result
            (λ answer. IsSome (unasked_tables self.old.tables.core app TableEnd) →
            self.new.tables ≡ self.old.tables) }
        ensures bus { IfOk result
            (λ answer. Acts self.old.bus.core self.new.bus.core app End Done) }
        ensures others { IfOk result (λ answer. KeepsOtherBags self.old.bus self.new.bus app) }
        ensures empty { IfOk result
            (λ answer. bag_of self.new.bus app ≡
            record (bag_of self.old.bus app) { views = []; buffers = [] }) }
        ensures table_others { IfOk result
            (λ answer. unasked_tables self.old.tables.core app TableEnd ≡ None →
            KeepsOtherTables self.old.tables self.new.tables app) }
        ensures table_empty { IfOk result
            (λ answer. unasked_tables self.old.tables.core app TableEnd ≡ None →
            table_bag_of self.new.tables app ≡
            record (table_bag_of self.old.tables app) { views = [] }) }
    {
        self.bus.may_end(app)?;
        let _ = self.tables.end::<L>(app, blank);
        self.bus.end::<M>(app, other)
    }
}
