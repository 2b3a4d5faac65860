//! What holds of the memory pools of every history of the bus.
ghost use Rattle.std.specs.Prelude.{◌≡◌, ℕ, ◌≤◌, List};
ghost use Rattle.fsw_base.specs.Limits.{Limits};
ghost use Rattle.bus_words.specs.declared.history.Entry.{Entry};
ghost use Rattle.bus_words.specs.Machine.{IsLegal};
ghost use Rattle.bus_words.specs.Readings.{account_after, gets_grant, is_refused_return, count_of};

/// A memory pool's counts are those of the history: its requests are the entries that got a grant
/// of it, its errors the returns that it refused. Each stops at 4294967295. Pools are numbered from
/// 1. Does nothing.
pub fn pool_counts_are_read()
    ensures requests { (limits : Limits) (apps pool : ℕ) (history : List Entry) →
        IsLegal limits apps history → 1 ≤ pool →
        (account_after limits apps history pool).requests ≡ count_of (gets_grant pool) history }
    ensures errors { (limits : Limits) (apps pool : ℕ) (history : List Entry) →
        IsLegal limits apps history → 1 ≤ pool →
        (account_after limits apps history pool).errors ≡
        count_of (is_refused_return pool) history }
{}
