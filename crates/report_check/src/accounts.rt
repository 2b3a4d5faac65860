//! The lines on memory pools that are kept as numbers alone.
ghost use Rattle.std.specs.Prelude.{◌≡◌, ◌<◌, ◌^◌, length, map, IfOk};
ghost use Rattle.fsw_base.specs.Grants.{pool_account};
ghost use Rattle.text_page.specs.Pieces.{Puts};
ghost use Rattle.run_report.specs.CounterText.{accounts_text};

use es_pool::ClassStats;
use fsw_base::{PoolStats, Sink, SinkGuard};
use list_pool::{GrantPools, ListAccount};
use run_report::{HasAccount, PoolName, put_account};
use std::alloc::{AllocError, Global};
use std::marker::Model;
use text_page::Page;

/// An account, as a report shows it.
#[derive(Drop)]
pub(crate) struct ShownAccount<'a> {
    // The account.
    account: &'a ListAccount,
}

impl<'a> Model for ShownAccount<'a> {
    ghost use Rattle.fsw_base.specs.PoolAccounts.{Account};

    ghost Value = { Account };

    ghost view = { λ s. s.account.now };
}

impl<'a> ShownAccount<'a> {
    /// This one.
    pub(crate) fn new(account: &'a ListAccount) -> ShownAccount<'a>
        ensures { result ≡ account.now }
    {
        ShownAccount { account }
    }
}

impl<'a> HasAccount for ShownAccount<'a> {
    ghost account = { λ account. account };

    fn figures(&self) -> PoolStats {
        PoolStats {
            size: self.account.bytes(),
            requests: self.account.requests(),
            errors: self.account.errors(),
            free: self.account.free(),
        }
    }

    fn classes(&self) -> u32 {
        self.account.sizes().count()
    }

    fn class(&self, class: u32) -> ClassStats {
        let made = self.account.made_at(class);
        ClassStats {
            size: self.account.sizes().at(class),
            made,
            free: made.saturating_sub(self.account.out_at(class)),
        }
    }
}

/// The accounts of the pools that applications created, number 1 first.
///
/// # Errors
/// `AllocError` if memory runs out, or if a number of 32 bits is spent.
pub(crate) fn accounts_of(alloc: Global, pools: &GrantPools) -> Result<Vec<ListAccount>, AllocError>
    ensures { IfOk result (λ accounts. accounts.items ≡ map pool_account pools.now.pools) }
{
    let mut accounts = Vec::new(alloc);
    for i in 0..pools.count() {
        let account = pools.pool(i + 1).account(alloc)?;
        accounts.push(account)?;
    }
    Ok(accounts)
}

/// Puts the lines of the pools with these accounts, which are numbered from 1.
pub(crate) fn put_accounts<K: Sink>(
    sink: &mut SinkGuard<'_, K>,
    page: &mut Page,
    accounts: &[ListAccount],
)
    requires { length accounts.now < 2 ^ 32 }
    ensures { Puts sink.old sink.new page.old page.new (accounts_text accounts.now) }
{
    let count = accounts.len() as u32;
    for i in 0..count {
        let shown = ShownAccount::new(&accounts[i as usize]);
        put_account(sink, page, PoolName::Applications(i + 1), &shown);
    }
}
