//! All lines of a report on the bus.
ghost use Rattle.std.specs.Prelude.{IfOk};
ghost use Rattle.bus_replay.specs.Replayed.{AreReplayed, AreFirstWrong};

use crate::replay::{BusReplay, BusStep};
use app_script::Script;
use replay_parts::ComparedText;
use std::alloc::{AllocError, Global};

/// What the lines of a report on the bus are.
#[derive(Drop)]
pub enum BusReplayed<'s> {
    /// Those of a history of which nothing is missing. The bus is as it leaves it.
    Whole(BusReplay<'s>),
    /// No run's. The number, from 1, is that of the first line with which no run begins.
    Wrong(u32),
}

/// Judges the lines on the bus with which a text begins, and goes past them.
///
/// # Errors
/// `AllocError` if memory runs out, or if a number of 32 bits is spent.
pub fn replay_bus<'s>(
    alloc: Global,
    script: &'s Script,
    text: &mut ComparedText<'_>,
) -> Result<BusReplayed<'s>, AllocError>
    ensures judged { IfOk result (λ replayed. AreReplayed script.now text.old text.new replayed) }
    ensures first { IfOk result (λ replayed. AreFirstWrong script.now text.old replayed) }
{
    script.recall_ranges();
    let mut replay = BusReplay::new(alloc, script)?;
    loop {
        match replay.step(alloc, text)? {
            BusStep::Entered => {}
            BusStep::Whole => return Ok(BusReplayed::Whole(replay)),
            BusStep::Wrong(line) => return Ok(BusReplayed::Wrong(line)),
        }
    }
}
