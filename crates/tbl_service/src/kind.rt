//! What the tables are to a port: a core with a history.

use crate::permits::Permits;
use core_port::{Kind, Opening, ServedCore};
use fsw_base::AppNo;
use lend_block::Note;
use std::collections::LinkedList;
use std::marker::Model;
use tbl_load::{HeldTables, TblCore};
use tbl_words::{Allowance, Call, Entry, TblAnswer, TblCall};

/// The tables, as a history tells of them. No value of it is made.
pub struct SeenTables {
    /// What never changes.
    pub opening: Opening,
    /// Each call with its answer.
    pub entries: LinkedList<Entry>,
    /// A note beside each.
    pub notes: LinkedList<Note>,
}

impl Model for SeenTables {
    ghost use Rattle.tbl_load.specs.Core.{Core};

    ghost Value = { Core };

    ghost view = { λ s. record {
      limits = s.opening.limits;
      log = record { budgets = s.opening.budgets; entries = s.entries };
      notes = s.notes;
    } };
}

/// The kind of core that the tables are. No value of it is made.
pub struct TblKind;

impl Kind for TblKind {
    ghost use Rattle.tbl_service.specs.Words.{tables};

    type Seen = SeenTables;

    type Entry = Entry;

    type Call = Call;

    type Answer = TblAnswer;

    type Permits = Permits;

    ghost words = { tables };

    fn laws() {}
}

impl<'r> ServedCore<TblKind> for TblCore<'r> {
    ghost use Rattle.tbl_load.specs.Bags.{HasBag};
    ghost use Rattle.tbl_load.proofs.OthersBags.{others_behind};

    type Bag = HeldTables<'r>;

    ghost seen = { λ core. core };

    ghost has_bag = { HasBag };

    ghost finds_room = { λ bag call. Unit {0} };

    fn recall(&self) {
        self.journal();
    }

    fn permits(&self, app: AppNo) -> Permits {
        let left = Allowance {
            entries: self.entries_left(app),
            bytes: self.bytes_left(app),
        };
        Permits {
            left,
            may_end: self.may_make(app, &TblCall::End),
        }
    }

    fn has_news(&self) -> bool {
        false
    }

    ghost still_has = { others_behind };
}
