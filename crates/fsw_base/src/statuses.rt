//! Why a call was refused, by service, with the names that reports print.
ghost use Rattle.std.specs.Prelude.{◌≡◌};
ghost use Rattle.fsw_base.specs.Statuses.{sb_name, es_name, evs_name};

/// Why a Software Bus call was refused.
#[derive(Clone, Copy, Debug, PartialEq, Eq)]
pub enum SbStatus {
    /// An argument is out of its range, or names what isn't there or isn't the caller's.
    BadArgument,
    /// As many pipes are live as the configuration allows.
    MaxPipesMet,
    /// A live pipe has the name already.
    PipeCrErr,
    /// As many message ids have a route as the configuration allows.
    MaxMsgsMet,
    /// The message id has as many subscriptions as the configuration allows.
    MaxDestsMet,
    /// The message is larger than the configuration allows.
    MsgTooBig,
    /// The memory pool can't give a buffer of this size.
    BufAlocErr,
    /// No message waits on the pipe.
    NoMessage,
    /// The buffer isn't an unsent one of the caller.
    BufferInvalid,
}

impl SbStatus {
    /// The name that reports print.
    pub fn name(self) -> &'static str
        ensures { result.now ≡ sb_name self }
    {
        match self {
            SbStatus::BadArgument => "CFE_SB_BAD_ARGUMENT",
            SbStatus::MaxPipesMet => "CFE_SB_MAX_PIPES_MET",
            SbStatus::PipeCrErr => "CFE_SB_PIPE_CR_ERR",
            SbStatus::MaxMsgsMet => "CFE_SB_MAX_MSGS_MET",
            SbStatus::MaxDestsMet => "CFE_SB_MAX_DESTS_MET",
            SbStatus::MsgTooBig => "CFE_SB_MSG_TOO_BIG",
            SbStatus::BufAlocErr => "CFE_SB_BUF_ALOC_ERR",
            SbStatus::NoMessage => "CFE_SB_NO_MESSAGE",
            SbStatus::BufferInvalid => "CFE_SB_BUFFER_INVALID",
        }
    }
}

/// Why a memory pool call of Executive Services was refused.
#[derive(Clone, Copy, Debug, PartialEq, Eq)]
pub enum EsStatus {
    /// No block of the pool is large enough, or there is no room for one.
    ErrMemBlockSize,
    /// The pool never gave this block.
    BufferNotInPool,
    /// The block was given back before.
    PoolBlockInvalid,
    /// There is no such pool.
    NoPool,
}

impl EsStatus {
    /// The name that reports print.
    pub fn name(self) -> &'static str
        ensures { result.now ≡ es_name self }
    {
        match self {
            EsStatus::ErrMemBlockSize => "CFE_ES_ERR_MEM_BLOCK_SIZE",
            EsStatus::BufferNotInPool => "CFE_ES_BUFFER_NOT_IN_POOL",
            EsStatus::PoolBlockInvalid => "CFE_ES_POOL_BLOCK_INVALID",
            EsStatus::NoPool => "NO_SUCH_POOL",
        }
    }
}

/// Why an Event Services call was refused.
#[derive(Clone, Copy, Debug, PartialEq, Eq)]
pub enum EvsStatus {
    /// The application hasn't registered for events.
    AppNotRegistered,
    /// The application has no filter for this event id.
    EvtNotRegistered,
}

impl EvsStatus {
    /// The name that reports print.
    pub fn name(self) -> &'static str
        ensures { result.now ≡ evs_name self }
    {
        match self {
            EvsStatus::AppNotRegistered => "CFE_EVS_APP_NOT_REGISTERED",
            EvsStatus::EvtNotRegistered => "CFE_EVS_EVT_NOT_REGISTERED",
        }
    }
}
