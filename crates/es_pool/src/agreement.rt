//! The pool and the plain pool give the same answers, whatever the calls.
ghost use Rattle.std.specs.Prelude.{◌≡◌, ◌+◌, ◌*◌, ◌≤◌, [], true, length, IfOk};
ghost use Rattle.es_pool.specs.Account.{IsAccountOf};
ghost use Rattle.es_pool.specs.Runs.{Leaves, LeadTo, after_call};

use crate::blocks::BlockNo;
use crate::calls::PoolCall;
use crate::plain::PlainPool;
use crate::pool::Pool;
use fsw_base::BlockSizes;
use std::alloc::{AllocError, Global};
use step_count::{Ledger, Steps};

/// A pool and a plain pool of `bytes` bytes with these block sizes, of which nothing is cut.
///
/// # Errors
/// `AllocError` if memory runs out.
pub fn pool_and_plain(
    alloc: Global,
    bytes: u32,
    sizes: &BlockSizes,
) -> Result<(Pool, PlainPool), AllocError>
    ensures account { IfOk result (λ both. IsAccountOf both.0 both.1) }
    ensures uncut { IfOk result
        (λ both. both.0 ≡
        record {
          bytes = bytes;
          most = bytes;
          sizes = sizes.now;
          blocks = [];
          requests = 0;
          errors = 0;
        }) }
{
    let pool = Pool::new(alloc, bytes, sizes.again())?;
    let plain = PlainPool::new(alloc, bytes, sizes.again())?;
    Ok((pool, plain))
}

/// Makes the calls on both pools, in order, and answers whether the two gave the same answer and
/// then showed the same figures at each of them. They always do, if a return that the pool
/// refuses is counted in both: whatever the calls, the pool is led as its own contract says, the
/// plain pool's account moves by its own calls, a return with the class that its block has, and it
/// stays the account of the pool. At most 8 steps a call.
pub fn agree<L: Ledger>(
    pool: &mut Pool,
    plain: &mut PlainPool,
    calls: &[PoolCall],
    steps: &mut Steps<L>,
) -> bool
    requires { IsAccountOf pool.old plain.old }
    ensures alike { result ≡ true }
    ensures run { LeadTo pool.old plain.old calls.now pool.new plain.new }
    ensures account { IsAccountOf pool.new plain.new }
    ensures cost { steps.new ≤ steps.old + 8 * length calls.now }
{
    for call in calls {
        if !is_alike(pool, plain, *call, steps) {
            return false;
        }
    }
    true
}

// Makes one call on both.
fn is_alike<L: Ledger>(
    pool: &mut Pool,
    plain: &mut PlainPool,
    call: PoolCall,
    steps: &mut Steps<L>,
) -> bool
    requires { IsAccountOf pool.old plain.old }
    ensures alike { result ≡ true }
    ensures run { Leaves pool.old call pool.new }
    ensures moved { plain.new ≡ after_call pool.old plain.old call }
    ensures account { IsAccountOf pool.new plain.new }
    ensures cost { steps.new ≤ steps.old + 8 }
{
    let same_answer = match call {
        PoolCall::Get(size) => gets_alike(pool, plain, size, steps),
        PoolCall::Put(block) => puts_alike(pool, plain, block, steps),
    };
    same_answer && shows_alike(pool, plain)
}

// Draws from both.
fn gets_alike<L: Ledger>(
    pool: &mut Pool,
    plain: &mut PlainPool,
    size: u32,
    steps: &mut Steps<L>,
) -> bool
    requires { IsAccountOf pool.old plain.old }
    ensures alike { result ≡ true }
    ensures run { Leaves pool.old (PoolCall.Get size) pool.new }
    ensures moved { plain.new ≡ after_call pool.old plain.old (PoolCall.Get size) }
    ensures account { IsAccountOf pool.new plain.new }
    ensures cost { steps.new ≤ steps.old + 8 }
{
    match pool.get(size, steps) {
        Ok(_) => match plain.get(size) {
            Ok(_) => true,
            Err(_) => false,
        },
        Err(refusal) => match plain.get(size) {
            Ok(_) => false,
            Err(plain_refusal) => refusal == plain_refusal,
        },
    }
}

// Gives a block back to both. The plain pool knows its class alone.
fn puts_alike<L: Ledger>(
    pool: &mut Pool,
    plain: &mut PlainPool,
    block: BlockNo,
    steps: &mut Steps<L>,
) -> bool
    requires { IsAccountOf pool.old plain.old }
    ensures alike { result ≡ true }
    ensures run { Leaves pool.old (PoolCall.Put block) pool.new }
    ensures moved { plain.new ≡ after_call pool.old plain.old (PoolCall.Put block) }
    ensures account { IsAccountOf pool.new plain.new }
    ensures cost { steps.new ≤ steps.old + 8 }
{
    let class = pool.class_of(block);
    match pool.put(block, steps) {
        Ok(()) => match class {
            Some(class) => {
                plain.put(class);
                true
            }
            None => false,
        },
        Err(_) => {
            plain.count_error();
            true
        }
    }
}

// Whether both show the same figures.
fn shows_alike(pool: &Pool, plain: &PlainPool) -> bool
    requires { IsAccountOf pool.now plain.now }
    ensures { result ≡ true }
{
    pool.stats() == plain.stats()
}
