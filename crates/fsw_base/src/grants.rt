//! What the calls of a pool keep, and how its account moves with them.
ghost use Rattle.std.specs.Prelude.{◌≡◌, ℕ, true, false, List};
ghost use Rattle.fsw_base.specs.PoolAccounts.{after_draw, after_return, after_refusal};
ghost use Rattle.fsw_base.specs.Grants.{PoolGrants, IsNumbered, new_pool, is_among, class_under, pool_account, with_grant, after_get, after_put, after_end};

/// A pool's account, whose blocks out are counted from the grants that are out, moves as accounts
/// do: a grant draws a block of its size, its return gives this block back, and a refused return is
/// counted. Does nothing.
pub fn recall_blocks_counted()
    ensures draws { (pool : PoolGrants) (app class : ℕ) →
        pool_account (with_grant pool app class) ≡ after_draw (pool_account pool) class }
    ensures returns { (pool : PoolGrants) (number : ℕ) → IsNumbered pool →
        is_among pool.out number ≡ true → pool_account (after_put pool number) ≡
        after_return (pool_account pool) (class_under pool.out number) }
    ensures refusals { (pool : PoolGrants) (number : ℕ) → is_among pool.out number ≡ false →
        pool_account (after_put pool number) ≡ after_refusal (pool_account pool) }
{}

/// In every pool the grants that are out stand in order of number, each was given, and each is of a
/// block size that there is: a pool begins so, and each call keeps it. Does nothing.
pub fn recall_grants_numbered()
    ensures creations { (sizes : List ℕ) (bytes : ℕ) → IsNumbered (new_pool sizes bytes) }
    ensures requests { (pool : PoolGrants) (app size : ℕ) → IsNumbered pool →
        IsNumbered (after_get pool app size) }
    ensures returns { (pool : PoolGrants) (number : ℕ) → IsNumbered pool →
        IsNumbered (after_put pool number) }
    ensures ends { (app : ℕ) (pool : PoolGrants) → IsNumbered pool →
        IsNumbered (after_end app pool) }
{}
