//! The calls of the software bus, their answers, and both together as an entry of the journal.
ghost use Rattle.std.specs.Prelude.{◌≡◌, ℕ, List};
ghost use Rattle.bus_words.specs.Entries.{call_of, call_text, with_text, call_bytes};

use crate::pipe_text::PipeText;
use fsw_base::{
    AppNo, BusStats, EsStatus, EventKind, EvsStatus, FilterList, PoolStats, SbStatus, Scope,
};

/// A call of the software bus by one application, with its bytes borrowed (cFE Software Bus).
#[derive(Debug, Drop)]
pub enum BusCall<'a> {
    /// Makes a pipe that holds up to `depth` messages.
    Create {
        /// How many messages it holds at most.
        depth: u32,
        /// Its name.
        name: &'a [u8],
    },
    /// Ends a pipe.
    Delete {
        /// The pipe's number.
        pipe: u32,
    },
    /// Sets a pipe's option bits.
    SetOpts {
        /// The pipe's number.
        pipe: u32,
        /// The option bits: 0x01 and, in version 2, 0x02, added up; others are refused.
        bits: u8,
    },
    /// Asks for a pipe's option bits.
    GetOpts {
        /// The pipe's number.
        pipe: u32,
    },
    /// Asks for the number of the pipe of this name.
    Find {
        /// The name looked for.
        name: &'a [u8],
    },
    /// Asks for a pipe's name.
    PipeName {
        /// The pipe's number.
        pipe: u32,
    },
    /// Has messages of this id queued on the pipe, up to `limit` of them at once.
    Subscribe {
        /// The message id.
        id: u16,
        /// The pipe's number.
        pipe: u32,
        /// How many messages of the subscription may wait at once.
        limit: u32,
        /// Global or local; kept, with no other effect.
        scope: Scope,
    },
    /// Has no more messages of this id queued on the pipe.
    Unsubscribe {
        /// The message id.
        id: u16,
        /// The pipe's number.
        pipe: u32,
    },
    /// Sends a message; `inc` gives it the id's next sequence count.
    Transmit {
        /// The packet, with its header.
        bytes: &'a [u8],
        /// Whether it gets the id's next sequence count.
        inc: bool,
    },
    /// Takes the pipe's oldest message.
    Receive {
        /// The pipe's number.
        pipe: u32,
    },
    /// Takes the pipe's oldest message, or waits for one.
    Pend {
        /// The pipe's number.
        pipe: u32,
    },
    /// Looks again, while the application waits on the pipe.
    Look {
        /// The pipe's number.
        pipe: u32,
    },
    /// Asks for a buffer to write a message into.
    Allocate {
        /// How many bytes it is to have.
        size: u32,
    },
    /// Sends the message that a buffer begins with; the buffer isn't the application's any more.
    TransmitBuffer {
        /// The buffer's number.
        buf: u32,
        /// All bytes of the buffer; none if the application has no such buffer.
        bytes: &'a [u8],
        /// Whether the message gets its id's next sequence count.
        inc: bool,
    },
    /// Gives a buffer back unsent.
    Release {
        /// The buffer's number.
        buf: u32,
    },
    /// Creates a memory pool of applications.
    PoolCreate {
        /// Its bytes.
        bytes: u32,
    },
    /// Asks for a grant of a pool's block.
    PoolGet {
        /// The pool's number.
        pool: u32,
        /// How many bytes the block must have at least.
        size: u32,
    },
    /// Gives a grant back, whichever application it was given to.
    PoolPut {
        /// The pool's number.
        pool: u32,
        /// The grant's number.
        grant: u32,
    },
    /// Asks for a pool's figures.
    PoolFigures {
        /// The pool's number.
        pool: u32,
    },
    /// Registers the application with the event services, with these filters in place of any
    /// that it had (`CFE_EVS_Register`).
    Register {
        /// The filters: up to 8 event ids, each with its mask.
        filters: FilterList,
    },
    /// Sends an event.
    SendEvent {
        /// The event's id.
        id: u16,
        /// What it tells of.
        kind: EventKind,
        /// Its text.
        text: &'a [u8],
    },
    /// Has the application's filter for an event id count from 0 again.
    ResetFilter {
        /// The event's id.
        id: u16,
    },
    /// Sets what a full event log drops.
    LogMode {
        /// 0: the oldest event; 1: the new one.
        mode: u8,
    },
    /// Empties the event log.
    ClearLog,
    /// Sends the housekeeping packet.
    Housekeeping,
    /// Asks for the figures of the bus.
    Figures,
    /// The application's last call.
    End,
}

impl<'a> BusCall<'a> {
    /// The bytes that the call brings: its name, message, buffer or event's text; none if it
    /// has none of these.
    pub fn text(&self) -> &'a [u8]
        ensures { result.now ≡ call_text (call_of self.now) }
    {
        match self {
            BusCall::Create { name, .. } | BusCall::Find { name } => name,
            BusCall::Transmit { bytes, .. } | BusCall::TransmitBuffer { bytes, .. } => bytes,
            BusCall::SendEvent { text, .. } => text,
            _ => &[],
        }
    }

    /// The same call with these bytes in place of its own; itself, if it brings none. Inlined,
    /// it makes the call where that goes.
    #[inline(always)]
    pub(crate) fn with_text<'b>(&self, text: &'b [u8]) -> BusCall<'b>
        ensures call { call_of result ≡ with_text text.entry.now (call_of self.now) }
        ensures other { (other : List ℕ) →
            with_text other (call_of result) ≡ with_text other (call_of self.now) }
        ensures own { with_text (call_text (call_of self.now)) (call_of result) ≡
            call_of self.now }
    {
        match self {
            BusCall::Create { depth, .. } => BusCall::Create {
                depth: *depth,
                name: text,
            },
            BusCall::Delete { pipe } => BusCall::Delete { pipe: *pipe },
            BusCall::SetOpts { pipe, bits } => BusCall::SetOpts {
                pipe: *pipe,
                bits: *bits,
            },
            BusCall::GetOpts { pipe } => BusCall::GetOpts { pipe: *pipe },
            BusCall::Find { .. } => BusCall::Find { name: text },
            BusCall::PipeName { pipe } => BusCall::PipeName { pipe: *pipe },
            BusCall::Subscribe {
                id,
                pipe,
                limit,
                scope,
            } => BusCall::Subscribe {
                id: *id,
                pipe: *pipe,
                limit: *limit,
                scope: *scope,
            },
            BusCall::Unsubscribe { id, pipe } => BusCall::Unsubscribe {
                id: *id,
                pipe: *pipe,
            },
            BusCall::Transmit { inc, .. } => BusCall::Transmit {
                inc: *inc,
                bytes: text,
            },
            BusCall::Receive { pipe } => BusCall::Receive { pipe: *pipe },
            BusCall::Pend { pipe } => BusCall::Pend { pipe: *pipe },
            BusCall::Look { pipe } => BusCall::Look { pipe: *pipe },
            BusCall::Allocate { size } => BusCall::Allocate { size: *size },
            BusCall::TransmitBuffer { buf, inc, .. } => BusCall::TransmitBuffer {
                buf: *buf,
                inc: *inc,
                bytes: text,
            },
            BusCall::Release { buf } => BusCall::Release { buf: *buf },
            BusCall::PoolCreate { bytes } => BusCall::PoolCreate { bytes: *bytes },
            BusCall::PoolGet { pool, size } => BusCall::PoolGet {
                pool: *pool,
                size: *size,
            },
            BusCall::PoolPut { pool, grant } => BusCall::PoolPut {
                pool: *pool,
                grant: *grant,
            },
            BusCall::PoolFigures { pool } => BusCall::PoolFigures { pool: *pool },
            BusCall::Register { filters } => BusCall::Register {
                filters: filters.again(),
            },
            BusCall::SendEvent { id, kind, .. } => BusCall::SendEvent {
                id: *id,
                kind: *kind,
                text,
            },
            BusCall::ResetFilter { id } => BusCall::ResetFilter { id: *id },
            BusCall::LogMode { mode } => BusCall::LogMode { mode: *mode },
            BusCall::ClearLog => BusCall::ClearLog,
            BusCall::Housekeeping => BusCall::Housekeeping,
            BusCall::Figures => BusCall::Figures,
            BusCall::End => BusCall::End,
        }
    }

    /// How many bytes the call brings.
    pub fn byte_count(&self) -> usize
        ensures { result ≡ call_bytes (call_of self.now) }
    {
        self.text().len()
    }
}

/// What a call of the software bus was answered.
#[derive(Debug, Drop)]
pub enum BusAnswer {
    /// Done, with nothing to tell.
    Done,
    /// The number of the pipe that was made or found, of the buffer, of the pool that was created,
    /// or of the grant; or the option bits asked for.
    Number(u32),
    /// The name asked for.
    Name(PipeText),
    /// The number of the message sent and of the pipes that it reached; both 0 if nobody
    /// subscribes.
    Sent {
        /// The number of the message, from 1; 0 if nobody subscribes.
        number: u32,
        /// How many pipes it reached.
        reached: u32,
    },
    /// The number of the message received.
    Got(u32),
    /// No message is there, and every other application has ended or waits on an empty pipe.
    TimeOut,
    /// No message is there yet; the application waits.
    Pending,
    /// The pool's figures.
    Pool(PoolStats),
    /// The figures of the bus.
    Bus(BusStats),
    /// Refused by the bus.
    Sb(SbStatus),
    /// Refused by the memory pools.
    Es(EsStatus),
    /// Refused by the event services.
    Evs(EvsStatus),
}

impl BusAnswer {
    /// The same answer once more.
    pub fn again(&self) -> BusAnswer
        ensures { result ≡ self.now }
    {
        match self {
            BusAnswer::Done => BusAnswer::Done,
            BusAnswer::Number(number) => BusAnswer::Number(*number),
            BusAnswer::Name(name) => BusAnswer::Name(name.again()),
            BusAnswer::Sent { number, reached } => BusAnswer::Sent {
                number: *number,
                reached: *reached,
            },
            BusAnswer::Got(number) => BusAnswer::Got(*number),
            BusAnswer::TimeOut => BusAnswer::TimeOut,
            BusAnswer::Pending => BusAnswer::Pending,
            BusAnswer::Pool(figures) => BusAnswer::Pool(*figures),
            BusAnswer::Bus(figures) => BusAnswer::Bus(*figures),
            BusAnswer::Sb(status) => BusAnswer::Sb(*status),
            BusAnswer::Es(status) => BusAnswer::Es(*status),
            BusAnswer::Evs(status) => BusAnswer::Evs(*status),
        }
    }
}

/// One call with its answer.
#[derive(Debug, Drop)]
pub struct BusEntry<'a> {
    /// Who called.
    pub app: AppNo,
    /// The call.
    pub call: BusCall<'a>,
    /// What it was answered.
    pub answer: BusAnswer,
}

/// One call with its answer, which lies in a journal.
#[derive(Debug, Drop)]
pub struct LentEntry<'a> {
    /// Who called.
    pub app: AppNo,
    /// The call.
    pub call: BusCall<'a>,
    /// What it was answered.
    pub answer: &'a BusAnswer,
}
