//! What holds of every pool and of every account, whoever kept it.
ghost use Rattle.std.specs.Prelude.{◌≡◌, ◌≢◌, ℕ, ◌+◌, ◌%◌, ◌<◌, ◌≤◌, true, false, length};
ghost use Rattle.fsw_base.specs.PoolAccounts.{Account, has_room_for, after_draw, after_draws, overhead};
ghost use Rattle.es_pool.specs.Places.{offset_at, has_byte};
ghost use Rattle.es_pool.specs.Pool.{PoolState, IsWhole, DrawsFor, fits, given_back, size_at};

/// A draw takes one from what fits: after it so many blocks of its size fit if and only if one more
/// fitted before. So if there was room for two blocks, a second one is given once the first was.
/// The same holds of an account; and a draw of some blocks and one more at once is a draw of one
/// behind them.
pub fn draws_take_room_one_by_one()
    ensures pool { (old new : PoolState) (size number count : ℕ) → DrawsFor old new size number →
        fits new size count ≡ fits old size (count + 1) }
    ensures account { (account : Account) (class count : ℕ) → class < length account.made →
        class < length account.out → length account.made ≡ length account.sizes →
        has_room_for (after_draw account class) class count ≡
        has_room_for account class (count + 1) }
    ensures together { (account : Account) (class count : ℕ) → class < length account.made →
        class < length account.out →
        after_draws account class (count + 1) ≡ after_draw (after_draws account class count) class }
{}

/// Where the blocks of a pool lie: within the pool's bytes, at multiples of 8, and no two have a
/// byte in common; the overhead before each is no block's either. A block stays where it is when
/// blocks are drawn and given back. Does nothing.
pub fn blocks_lie_apart()
    ensures within { (pool : PoolState) (number : ℕ) → IsWhole pool →
        number < length pool.blocks →
        offset_at pool number + size_at pool number ≤ pool.bytes }
    ensures aligned { (pool : PoolState) (number : ℕ) → IsWhole pool →
        offset_at pool number % 8 ≡ 0 }
    ensures apart { (pool : PoolState) (number later : ℕ) → number < later →
        later < length pool.blocks →
        offset_at pool number + size_at pool number + overhead ≤ offset_at pool later }
    ensures no_common_byte { (pool : PoolState) (number other place : ℕ) → number ≢ other →
        number < length pool.blocks → other < length pool.blocks →
        has_byte pool number place ≡ true → has_byte pool other place ≡ false }
    ensures stays_drawn { (old new : PoolState) (size number block : ℕ) →
        DrawsFor old new size number → block < length old.blocks →
        offset_at new block ≡ offset_at old block }
    ensures stays_back { (pool : PoolState) (number block : ℕ) →
        offset_at (given_back pool number) block ≡ offset_at pool block }
{}
