//! Why a call is refused.
ghost use Rattle.std.specs.Prelude.{◌≡◌, None, IfOk};
ghost use Rattle.tbl_words.specs.Entries.{call_of};
ghost use Rattle.tbl_words.specs.Machine.{cause, table_cause, stage_cause, validate_cause, update_cause, abort_cause, load_cause};

use crate::access::Access;
use crate::loads::{abort_cause, validate_cause};
use crate::machine::ListTables;
use crate::values::with_range;
use fsw_base::AppNo;
use std::alloc::{AllocError, Global};
use tbl_words::{TblCall, TblStatus};

impl ListTables {
    /// Why a call is refused, if it is.
    pub(crate) fn cause(
        &self,
        alloc: Global,
        app: AppNo,
        call: &TblCall<'_>,
    ) -> Result<Option<TblStatus>, AllocError>
        ensures { IfOk result
            (λ why. why ≡ cause self.now.limits self.now.state app (call_of call.now)) }
    {
        match call {
            TblCall::Register {
                name,
                size,
                option,
                rules,
            } => Ok(self.register_cause(app, name, *size, *option, rules)),
            TblCall::Share { name } => Ok(self.share_cause(name)),
            TblCall::Unregister { handle } => Ok(self.access_cause(app, *handle)),
            TblCall::Stage {
                handle,
                offset,
                bytes,
            } => Ok(self.stage_refusal(app, *handle, *offset, bytes)),
            TblCall::Validate { handle } => Ok(self.validate_refusal(app, *handle)),
            TblCall::Update { handle } => Ok(self.update_refusal(app, *handle)),
            TblCall::Abort { handle } => Ok(self.abort_refusal(app, *handle)),
            TblCall::Load {
                handle,
                offset,
                bytes,
            } => self.load_refusal(alloc, app, *handle, *offset, bytes),
            TblCall::GetAddress { handle } => Ok(self.address_refusal(app, *handle)),
            TblCall::ReleaseAddress { handle } => Ok(self.access_cause(app, *handle)),
            TblCall::Status { handle } => Ok(self.access_cause(app, *handle)),
            TblCall::End => Ok(None),
        }
    }

    // Why a stage is refused, if it is.
    fn stage_refusal(&self, app: AppNo, handle: u32, offset: u32, bytes: &[u8]) -> Option<TblStatus>
        ensures { result ≡
            table_cause self.now.state app handle
            (stage_cause self.now.state offset bytes.now None) }
    {
        match self.access(app, handle) {
            Access::Refused(why) => Some(why),
            Access::Reached(table) => self.stage_cause(table, offset, bytes),
            Access::Nowhere => None,
        }
    }

    // Why a validation is refused, if it is.
    fn validate_refusal(&self, app: AppNo, handle: u32) -> Option<TblStatus>
        ensures { result ≡ table_cause self.now.state app handle validate_cause }
    {
        match self.access(app, handle) {
            Access::Refused(why) => Some(why),
            Access::Reached(table) => validate_cause(table),
            Access::Nowhere => None,
        }
    }

    // Why an update is refused, if it is.
    fn update_refusal(&self, app: AppNo, handle: u32) -> Option<TblStatus>
        ensures { result ≡
            table_cause self.now.state app handle (update_cause self.now.state) }
    {
        match self.access(app, handle) {
            Access::Refused(why) => Some(why),
            Access::Reached(table) => self.update_cause(table),
            Access::Nowhere => None,
        }
    }

    // Why an abort is refused, if it is.
    fn abort_refusal(&self, app: AppNo, handle: u32) -> Option<TblStatus>
        ensures { result ≡ table_cause self.now.state app handle abort_cause }
    {
        match self.access(app, handle) {
            Access::Refused(why) => Some(why),
            Access::Reached(table) => abort_cause(table),
            Access::Nowhere => None,
        }
    }

    // Why a load is refused, if it is.
    fn load_refusal(
        &self,
        alloc: Global,
        app: AppNo,
        handle: u32,
        offset: u32,
        bytes: &[u8],
    ) -> Result<Option<TblStatus>, AllocError>
        ensures { IfOk result
            (λ why. why ≡
            table_cause self.now.state app handle
            (load_cause self.now.state offset bytes.now)) }
    {
        match self.access(app, handle) {
            Access::Refused(why) => Ok(Some(why)),
            Access::Reached(table) => {
                let value = with_range(alloc, &table.value, offset, bytes)?;
                Ok(self.load_cause(table, offset, bytes, &value))
            }
            Access::Nowhere => Ok(None),
        }
    }

    // Why an address is refused, if it is.
    fn address_refusal(&self, app: AppNo, handle: u32) -> Option<TblStatus>
        ensures { result ≡ table_cause self.now.state app handle (λ t. None) }
    {
        match self.access(app, handle) {
            Access::Refused(why) => Some(why),
            Access::Reached(_) => None,
            Access::Nowhere => None,
        }
    }
}
