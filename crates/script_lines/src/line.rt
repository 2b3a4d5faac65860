//! The call lines of a script, one variant a form.
ghost use Rattle.std.specs.Prelude.{◌≡◌, IfOk};

use fsw_base::{EventKind, FilterList, Scope};
use script_words::{ByteText, Content};
use std::alloc::{AllocError, Global};
use std::marker::Model;
use tbl_rules::RuleList;

/// The rules that a line gives a table, with a place of their own in memory, so that a line is
/// small.
#[derive(Drop)]
pub struct BoxedRules {
    rules: Box<RuleList>,
}

impl Model for BoxedRules {
    ghost use Rattle.std.specs.Prelude.{List};
    ghost use Rattle.tbl_rules.specs.declared.rules.Rule.{Rule};

    ghost Value = { List Rule };

    ghost view = { λ boxed. boxed.rules.value };
}

impl BoxedRules {
    /// These rules.
    ///
    /// # Errors
    /// `AllocError` if there is no memory for them.
    pub fn new(alloc: Global, rules: RuleList) -> Result<BoxedRules, AllocError>
        ensures { IfOk result (λ boxed. boxed ≡ rules) }
    {
        let rules = Box::new(alloc, rules)?;
        Ok(BoxedRules { rules })
    }

    /// The rules.
    pub fn list(&self) -> &RuleList
        ensures { result.now ≡ self.now }
    {
        &self.rules
    }
}

/// One call line. `pipe`, `buf`, `pool`, `grant` and `handle` are numbers of registers.
///
/// It takes at most 64 bytes, beside those of its texts, contents and rules.
#[derive(Drop)]
pub enum Line {
    /// `create pN DEPTH NAME`: makes a pipe (`CFE_SB_CreatePipe`).
    Create {
        /// The register that takes the pipe's number.
        pipe: u32,
        /// How many messages the pipe holds.
        depth: u32,
        /// The pipe's name, at most 64 bytes.
        name: ByteText,
    },
    /// `delete pN`: deletes a pipe (`CFE_SB_DeletePipe`).
    Delete {
        /// The pipe.
        pipe: u32,
    },
    /// `opts pN BITS`: sets a pipe's options (`CFE_SB_SetPipeOpts`).
    SetOpts {
        /// The pipe.
        pipe: u32,
        /// The option bits.
        bits: u8,
    },
    /// `getopts pN`: tells a pipe's options (`CFE_SB_GetPipeOpts`).
    GetOpts {
        /// The pipe.
        pipe: u32,
    },
    /// `find pN NAME`: finds a pipe by its name (`CFE_SB_GetPipeIdByName`).
    Find {
        /// The register that takes the pipe's number.
        pipe: u32,
        /// The name, at most 64 bytes.
        name: ByteText,
    },
    /// `pname pN`: tells a pipe's name (`CFE_SB_GetPipeName`).
    PipeName {
        /// The pipe.
        pipe: u32,
    },
    /// `sub ID pN [LIMIT [global or local]]`: subscribes a pipe to a message id
    /// (`CFE_SB_SubscribeEx`, `CFE_SB_SubscribeLocal`).
    Subscribe {
        /// The message id.
        id: u16,
        /// The pipe.
        pipe: u32,
        /// How many messages of this id may wait in the pipe; 4 if it was left out.
        limit: u32,
        /// How far the subscription reaches; global if it was left out.
        scope: Scope,
    },
    /// `unsub ID pN`: ends a subscription (`CFE_SB_Unsubscribe`).
    Unsubscribe {
        /// The message id.
        id: u16,
        /// The pipe.
        pipe: u32,
    },
    /// `send ID SIZE FILL [inc or keep]`: sends a message that is made for it
    /// (`CFE_SB_TransmitMsg`).
    Send {
        /// The message id.
        id: u16,
        /// The message's bytes, 7 to 65542.
        size: u32,
        /// The first byte behind the header; each one after it is one more, modulo 256.
        fill: u8,
        /// Whether the sequence count goes on.
        inc: bool,
    },
    /// `sendraw HEX [inc or keep]`: sends these bytes (`CFE_SB_TransmitMsg`).
    SendRaw {
        /// The bytes, 1 to 256.
        bytes: ByteText,
        /// Whether the sequence count goes on.
        inc: bool,
    },
    /// `recv pN`: takes the next message, without waiting (`CFE_SB_ReceiveBuffer`, poll).
    Receive {
        /// The pipe.
        pipe: u32,
    },
    /// `pend pN`: takes the next message, and waits for it (`CFE_SB_ReceiveBuffer`, pend).
    Pend {
        /// The pipe.
        pipe: u32,
    },
    /// `alloc bN SIZE`: takes a buffer for a message (`CFE_SB_AllocateMessageBuffer`).
    Allocate {
        /// The register that takes the buffer's number.
        buf: u32,
        /// The buffer's bytes, at most 65542.
        size: u32,
    },
    /// `xmit bN [inc or keep]`: sends a buffer without a copy (`CFE_SB_TransmitBuffer`).
    TransmitBuffer {
        /// The buffer.
        buf: u32,
        /// Whether the sequence count goes on.
        inc: bool,
    },
    /// `release bN`: gives an unsent buffer back (`CFE_SB_ReleaseMessageBuffer`).
    Release {
        /// The buffer.
        buf: u32,
    },
    /// `pool qN BYTES`: makes a memory pool (`CFE_ES_PoolCreate`).
    PoolCreate {
        /// The register that takes the pool's number.
        pool: u32,
        /// The pool's bytes.
        bytes: u32,
    },
    /// `pget mN qN SIZE`: takes a block out of a memory pool (`CFE_ES_GetPoolBuf`).
    PoolGet {
        /// The register that takes the grant's number.
        grant: u32,
        /// The pool.
        pool: u32,
        /// The bytes asked for.
        size: u32,
    },
    /// `pput qN mN`: gives a block back (`CFE_ES_PutPoolBuf`).
    PoolPut {
        /// The pool.
        pool: u32,
        /// The grant.
        grant: u32,
    },
    /// `pstats qN`: tells a pool's figures (`CFE_ES_GetMemPoolStats`).
    PoolFigures {
        /// The pool.
        pool: u32,
    },
    /// `evreg [ID:MASK, up to 8 words]`: registers for events with these filters
    /// (`CFE_EVS_Register`).
    Register {
        /// The filters, each event id once.
        filters: FilterList,
    },
    /// `event ID TYPE [TEXT]`: sends an event (`CFE_EVS_SendEvent`).
    SendEvent {
        /// The event id.
        id: u16,
        /// What the event tells of.
        kind: EventKind,
        /// The text, at most 200 bytes.
        text: ByteText,
    },
    /// `evreset ID`: sets a filter's count to 0 (`CFE_EVS_ResetFilter`).
    ResetFilter {
        /// The event id.
        id: u16,
    },
    /// `logmode MODE`: sets what a full event log does.
    LogMode {
        /// 0 overwrites the oldest line, 1 discards the new one.
        mode: u8,
    },
    /// `logclear`: empties the event log.
    ClearLog,
    /// `hk`: sends the housekeeping packet.
    Housekeeping,
    /// `stats`: tells the bus's figures.
    Figures,
    /// `treg tN NAME SIZE OPT [O:LO:HI, up to 8 words]`: registers a table (`CFE_TBL_Register`).
    TableRegister {
        /// The register that takes the handle's number.
        handle: u32,
        /// The table's name, at most 64 bytes.
        name: ByteText,
        /// The table's bytes, at most 1000000.
        size: u32,
        /// The options, at most 7.
        option: u32,
        /// What its validation asks.
        rules: BoxedRules,
    },
    /// `tshare tN NAME`: takes a handle of a registered table (`CFE_TBL_Share`).
    TableShare {
        /// The register that takes the handle's number.
        handle: u32,
        /// The table's name, at most 64 bytes.
        name: ByteText,
    },
    /// `tunreg tN`: gives a handle back (`CFE_TBL_Unregister`).
    TableUnregister {
        /// The handle.
        handle: u32,
    },
    /// `tstage tN OFFSET CONTENT`: stages a load.
    Stage {
        /// The handle.
        handle: u32,
        /// The place in the table, at most 65536.
        offset: u32,
        /// The bytes.
        content: Content,
    },
    /// `tval tN`: validates what is staged (`CFE_TBL_Validate`).
    Validate {
        /// The handle.
        handle: u32,
    },
    /// `tupd tN`: makes what is staged the table's value (`CFE_TBL_Update`).
    Update {
        /// The handle.
        handle: u32,
    },
    /// `tabort tN`: drops what is staged.
    Abort {
        /// The handle.
        handle: u32,
    },
    /// `tload tN OFFSET CONTENT`: loads at once (`CFE_TBL_Load`).
    Load {
        /// The handle.
        handle: u32,
        /// The place in the table, at most 65536.
        offset: u32,
        /// The bytes.
        content: Content,
    },
    /// `tget tN`: takes the table's address (`CFE_TBL_GetAddress`).
    GetAddress {
        /// The handle.
        handle: u32,
    },
    /// `trel tN`: gives the address back (`CFE_TBL_ReleaseAddress`).
    ReleaseAddress {
        /// The handle.
        handle: u32,
    },
    /// `tstat tN`: tells how a table stands (`CFE_TBL_GetStatus`).
    Status {
        /// The handle.
        handle: u32,
    },
    /// `form bN ID FILL`: writes a message over a held buffer. No service sees it.
    Form {
        /// The buffer.
        buf: u32,
        /// The message id.
        id: u16,
        /// The first byte behind the header; each one after it is one more, modulo 256.
        fill: u8,
    },
    /// `put bN OFFSET HEX`: writes bytes into a held buffer. No service sees it.
    Put {
        /// The buffer.
        buf: u32,
        /// The place of the first byte, at most 65541.
        offset: u32,
        /// The bytes, 1 to 256.
        bytes: ByteText,
    },
    /// `show pN`: notes the pipe's last message. No service sees it.
    ShowPipe {
        /// The pipe.
        pipe: u32,
    },
    /// `show tN`: notes the held table. No service sees it.
    ShowTable {
        /// The handle.
        handle: u32,
    },
}
