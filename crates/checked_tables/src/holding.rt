//! Addresses.
ghost use Rattle.std.specs.Prelude.{◌≡◌, true, false, None, IfOk, OnErr};
ghost use Rattle.std.specs.Option.{option_map};
ghost use Rattle.std.specs.Result.{result_err};
ghost use Rattle.tbl_words.specs.declared.history.Call.TheVariants.{GetAddress, ReleaseAddress};
ghost use Rattle.table_core.specs.Core.{Acts};
ghost use Rattle.table_core.specs.Answers.{plain_addressed, done};
ghost use Rattle.checked_tables.specs.Asked.{is_application, unasked};
ghost use Rattle.checked_tables.specs.Box.{KeepsOtherBags, KeepsOtherViews, bag_of, held_value};

use crate::boxed::TblBox;
use crate::refusal::Refusal;
use table_core::PlainAddress;
use tbl_words::TblStatus;

impl<'r> TblBox<'r> {
    /// Has a handle hold the present version, as [`PlainTables::get_address`]; [`TblBox::held`]
    /// shows it.
    ///
    /// # Errors
    /// Those of [`PlainTables::get_address`]; a [`Refusal`] if the tables weren't asked.
    pub fn get_address(
        &mut self,
        app: u32,
        handle: u32,
    ) -> Result<Result<PlainAddress, TblStatus>, Refusal>
        ensures unasked { result_err result ≡ unasked self.old.core app (GetAddress handle) }
        ensures nothing { OnErr result (self.new ≡ self.old) }
        ensures does { IfOk result
            (λ answer. Acts self.old.core self.new.core app (GetAddress handle)
            (plain_addressed answer)) }
        ensures others { IfOk result (λ answer. KeepsOtherBags self.old self.new app) }
        ensures own { IfOk result (λ answer.
            KeepsOtherViews (bag_of self.old app) (bag_of self.new app) handle) }
        ensures bag_refused { IfOk result
            (λ answer. OnErr answer (bag_of self.new app ≡ bag_of self.old app)) }
    {
        let caller = self.asks(app, true)?;
        let bag = &mut self.bags[(caller.get() - 1) as usize];
        Ok(self.core.get_address(caller, handle, bag))
    }

    /// Lets go of what a handle holds, as [`PlainTables::release_address`].
    ///
    /// # Errors
    /// Those of [`PlainTables::release_address`]; a [`Refusal`] if the tables weren't asked.
    pub fn release_address(
        &mut self,
        app: u32,
        handle: u32,
    ) -> Result<Result<(), TblStatus>, Refusal>
        ensures unasked { result_err result ≡ unasked self.old.core app (ReleaseAddress handle) }
        ensures nothing { OnErr result (self.new ≡ self.old) }
        ensures does { IfOk result
            (λ answer. Acts self.old.core self.new.core app (ReleaseAddress handle) (done answer)) }
        ensures others { IfOk result (λ answer. KeepsOtherBags self.old self.new app) }
        ensures own { IfOk result (λ answer.
            KeepsOtherViews (bag_of self.old app) (bag_of self.new app) handle) }
        ensures bag_refused { IfOk result
            (λ answer. OnErr answer (bag_of self.new app ≡ bag_of self.old app)) }
    {
        let caller = self.asks(app, true)?;
        let bag = &mut self.bags[(caller.get() - 1) as usize];
        Ok(self.core.release_address(caller, handle, bag))
    }

    /// What a handle of the application's holds. Its bytes stay where they lie until the
    /// application asks for the address again, releases it, gives the handle back, or ends. None
    /// if the handle holds nothing, isn't live or is another application's, and if the tables
    /// serve no such application.
    pub fn held(&self, app: u32, handle: u32) -> Option<&[u8]>
        ensures known { is_application self.now.core app ≡ true →
            option_map (λ bytes. bytes.now) result ≡ held_value self.now.core app handle }
        ensures unknown { is_application self.now.core app ≡ false → result ≡ None }
    {
        let Ok(caller) = self.caller(app) else {
            return None;
        };
        let bag = &self.bags[(caller.get() - 1) as usize];
        match bag.view_of(handle) {
            Some(view) => Some(view.bytes()),
            None => None,
        }
    }
}
