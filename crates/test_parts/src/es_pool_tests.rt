//! A long run of a pool beside its account on paper.
ghost use Rattle.std.specs.Prelude.{◌≡◌, ◌<◌};
ghost use Rattle.es_pool.specs.Account.{IsAccountOf};

use es_pool::{PlainPool, Pool, PoolCall, agree, pool_and_plain};
use fsw_base::BlockSizes;
use std::marker::Brand;
use std::test::Fail;
use step_count::{Blank, Ledger, Steps};

/// Whether both pools answer the calls alike.
fn long_run<L: Ledger>(
    pool: &mut Pool,
    plain: &mut PlainPool,
    calls: &[PoolCall],
    blank: Blank,
) -> bool
    requires name { blank.name ≡ L.name }
    requires parts { blank.parts ≡ L.parts }
    requires some_part { 0 < blank.parts }
    requires account { IsAccountOf pool.old plain.old }
{
    let mut steps = Steps::<L>::new(blank);
    agree(pool, plain, calls, &mut steps)
}

#[test]
fn a_long_run_agrees_with_the_plain_pool(rt: HostRuntime) -> Result<(), Fail> {
    let sizes = BlockSizes::usual();
    let mut calls = Vec::new(rt.alloc());
    for turn in 0..50_000u32 {
        calls.push(PoolCall::Get(sizes.at(turn % 17)))?;
        calls.push(PoolCall::Put(turn * 7 % 2000))?;
    }
    let (mut pool, mut plain) = pool_and_plain(rt.alloc(), 8_000_000, &sizes)?;
    assert_eq!(rt; calls.len(), 100_000);
    let alike = long_run::<Brand>(&mut pool, &mut plain, &calls, Blank::new(1));
    assert!(rt; alike);
    assert!(rt; pool.stats().requests > 20_000);
    Ok(())
}
