//! All lines of a report on the tables.
ghost use Rattle.std.specs.Prelude.{IfOk};
ghost use Rattle.table_replay.specs.Replayed.{AreReplayed, AreFirstWrong};

use crate::replay::{TableReplay, TableStep};
use app_script::Script;
use replay_parts::ComparedText;
use std::alloc::{AllocError, Global};

/// What the lines of a report on the tables are.
#[derive(Drop)]
pub enum TablesReplayed<'s> {
    /// Those of a history of which nothing is missing. The tables are as it leaves them.
    Whole(TableReplay<'s>),
    /// No run's. The number, from 1, is that of the first line with which no run begins.
    Wrong(u32),
}

/// Judges the lines on the tables with which a text begins, and goes past them.
///
/// # Errors
/// `AllocError` if memory runs out, or if a number of 32 bits is spent.
pub fn replay_tables<'s>(
    alloc: Global,
    script: &'s Script,
    text: &mut ComparedText<'_>,
) -> Result<TablesReplayed<'s>, AllocError>
    ensures judged { IfOk result (λ replayed. AreReplayed script.now text.old text.new replayed) }
    ensures first { IfOk result (λ replayed. AreFirstWrong script.now text.old replayed) }
{
    script.recall_ranges();
    let mut replay = TableReplay::new(alloc, script)?;
    loop {
        match replay.step(alloc, text)? {
            TableStep::Entered => {}
            TableStep::Whole => return Ok(TablesReplayed::Whole(replay)),
            TableStep::Wrong(line) => return Ok(TablesReplayed::Wrong(line)),
        }
    }
}
