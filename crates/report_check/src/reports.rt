//! The check of a whole report.
ghost use Rattle.std.specs.Prelude.{◌≡◌, ℕ, List, IfOk};
ghost use Rattle.run_check.specs.Checks.{IsAnswer};
ghost use Rattle.run_check.specs.Openings.{head};
ghost use Rattle.bus_replay.specs.Replays.{IsUnderWay};
ghost use Rattle.report_check.specs.Verdicts.{IsPastBus, IsTailJudged};

use crate::tail::tail_of;
use app_script::Script;
use bus_replay::{BusReplay, BusReplayed, replay_bus};
use replay_parts::ComparedText;
use run_check::Judgement;
use std::alloc::{AllocError, Global};
use table_replay::{TablesReplayed, replay_tables};

/// Whether a text is the report of a run of a script; if not, the number of the first line up to
/// which no run's report begins so.
///
/// Each line is judged by the entries before it, and by the script.
///
/// # Errors
/// `AllocError` if memory runs out, or if a number of 32 bits is spent, which no report of
/// fewer than 2^32 bytes leads to.
pub fn check(alloc: Global, script: &Script, report: &[u8]) -> Result<Judgement, AllocError>
    ensures { IfOk result (λ verdict. IsAnswer script.now report.now verdict) }
{
    script.recall_ranges();
    let mut text = ComparedText::new(report);
    let head = head_of(script);
    if !text.take(head) {
        return Ok(Judgement::No(text.wrong_line(head)?));
    }
    match replay_bus(alloc, script, &mut text)? {
        BusReplayed::Whole(bus) => check_tables(alloc, script, &bus, &mut text),
        BusReplayed::Wrong(line) => Ok(Judgement::No(line)),
    }
}

// The first two lines of a report.
fn head_of(script: &Script) -> &'static [u8]
    ensures { result.now ≡ head script.now }
{
    script.recall_ranges();
    if script.config().version == 2 {
        b"fsw 2\nbus\n"
    } else {
        b"fsw 1\nbus\n"
    }
}

// Judges what is behind the lines on the bus, of which none is missing.
fn check_tables(
    alloc: Global,
    script: &Script,
    bus: &BusReplay<'_>,
    text: &mut ComparedText<'_>,
) -> Result<Judgement, AllocError>
    requires replayed { IsUnderWay bus.now }
    requires same { bus.now.script ≡ script.now }
    ensures { IfOk result (λ verdict. (bytes : List ℕ) →
        IsPastBus script.now bytes text.old bus.now → IsAnswer script.now bytes verdict) }
{
    script.recall_ranges();
    if !text.take(b"tables\n") {
        return Ok(Judgement::No(text.wrong_line(b"tables\n")?));
    }
    match replay_tables(alloc, script, text)? {
        TablesReplayed::Whole(tables) => {
            let tail = tail_of(alloc, script.apps(), bus, &tables)?;
            check_tail(text, tail.as_slice())
        }
        TablesReplayed::Wrong(line) => Ok(Judgement::No(line)),
    }
}

// Judges what is behind the lines of all entries, of which none is missing: this has to be there,
// and nothing else.
fn check_tail(text: &mut ComparedText<'_>, tail: &[u8]) -> Result<Judgement, AllocError>
    ensures { IfOk result (λ verdict. IsTailJudged text.old tail.now verdict) }
{
    if !text.take(tail) {
        return Ok(Judgement::No(text.wrong_line(tail)?));
    }
    if !text.is_at_end() {
        return Ok(Judgement::No(text.wrong_line(&[])?));
    }
    Ok(Judgement::Yes)
}
