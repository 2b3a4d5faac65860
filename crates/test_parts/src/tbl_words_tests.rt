//! A journal of tables gives back each kind of call.
ghost use Rattle.std.specs.Prelude.{◌≡◌, ◌<◌, ◌≤◌, ◌↔◌, IsTrue, length};
ghost use Rattle.tbl_words.specs.Entries.{call_of, call_bytes};
ghost use Rattle.journal_store.specs.Budgets.{HasRoom};
ghost use Rattle.tbl_words.specs.Log.{left_of};

use fsw_base::{AppNo, Budget};
use std::alloc::{AllocError, Global};
use std::test::Fail;
use tbl_rules::{Rule, RuleList};
use tbl_words::{Allowance, TblAnswer, TblCall, TblEntry, TblJournal, TblState, TblStatus, Told};

#[test]
fn journal_gives_back_each_kind_of_call(rt: HostRuntime) -> Result<(), Fail> {
    let budget = Budget {
        entries: 12,
        bytes: 18,
        buffers: 0,
    };
    let mut journal = TblJournal::new(rt.alloc(), &[budget, budget])?;
    let app = AppNo::try_new(2).expect(&rt, "an application's number");
    let rule = Rule {
        offset: 0,
        low: 1,
        high: 9,
    };
    let rows = [
        (
            TblCall::Register {
                name: b"HK.Lim",
                size: 4,
                option: 1,
                rules: RuleList::try_new(&[rule]).expect(&rt, "one rule"),
            },
            TblAnswer::Number(1),
        ),
        (TblCall::Share { name: b"HK.Lim" }, TblAnswer::Number(2)),
        (
            TblCall::Stage {
                handle: 1,
                offset: 0,
                bytes: &[1, 2, 3, 4],
            },
            TblAnswer::Done,
        ),
        (TblCall::Validate { handle: 1 }, TblAnswer::Done),
        (TblCall::Update { handle: 1 }, TblAnswer::Done),
        (
            TblCall::Abort { handle: 1 },
            TblAnswer::Refused(TblStatus::NoLoad),
        ),
        (
            TblCall::Load {
                handle: 1,
                offset: 2,
                bytes: &[5, 6],
            },
            TblAnswer::Done,
        ),
        (
            TblCall::GetAddress { handle: 2 },
            TblAnswer::Address {
                told: Told::Updated,
                version: 2,
            },
        ),
        (
            TblCall::Status { handle: 2 },
            TblAnswer::State(TblState {
                version: 2,
                loaded: true,
                staged: 0,
                holds: 1,
            }),
        ),
        (TblCall::ReleaseAddress { handle: 2 }, TblAnswer::Done),
        (TblCall::Unregister { handle: 2 }, TblAnswer::Done),
        (TblCall::End, TblAnswer::Done),
    ];
    for (call, answer) in rows {
        let entry = TblEntry { app, call, answer };
        assert!(rt; keeps(rt.alloc(), &mut journal, &entry)?, "at {entry:?}");
    }
    assert_eq!(rt; journal.len(), 12);
    Ok(())
}

// Whether the journal takes the entry and gives it back.
fn keeps(
    alloc: Global,
    journal: &mut TblJournal,
    entry: &TblEntry<'_>,
) -> Result<bool, AllocError> {
    if !has_room(journal, entry) {
        return Ok(false);
    }
    let place = journal.len();
    journal.push(entry);
    let kept = format!(in alloc; "{:?}", journal.get(place))?;
    let given = format!(in alloc; "{entry:?}")?;
    Ok(kept == given)
}

// Whether the entry may be pushed.
fn has_room(journal: &TblJournal, entry: &TblEntry<'_>) -> bool
    ensures { IsTrue result →
        HasRoom (left_of journal.now) entry.now.app (call_bytes (call_of entry.now.call)) }
{
    if journal.apps() < entry.app.get() {
        return false;
    }
    let Allowance { entries, bytes } = journal.left(entry.app);
    1 <= entries && entry.call.byte_count() <= bytes as usize
}
