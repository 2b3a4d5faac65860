//! The calls of one application.
ghost use Rattle.std.specs.Prelude.{◌≡◌, length};
ghost use Rattle.std.specs.Option.{option_map};
ghost use Rattle.buf_desc.specs.Held.{bytes_at};
ghost use Rattle.bus_core.specs.Answers.{numbered, done, named, got, pool_told, grant_back, figures_told, event_told};
ghost use Rattle.sb_calls.specs.Answers.{sent, pended};
ghost use Rattle.sb_calls.specs.Views.{bytes_seen};
ghost use Rattle.script_runs.specs.Messages.{sent_message};
ghost use Rattle.script_runs.specs.Written.{with_bytes, put_in};
ghost use Rattle.tbl_load.specs.Bags.{bytes_seen as held_bytes_seen};
ghost use Rattle.tbl_words.specs.Entries.{call_of};
ghost use Rattle.app_calls.specs.Callers.{Caller, MayCallBus, MayWrite, Answers, AnswersLook, Writes, written_in, pipe_waited_on};
ghost use Rattle.app_calls.specs.TableCallers.{MayCallTables, HasEndedAtTables, TablesAnswer};

use bus_words::{BusAnswer, Call, PipeText};
use fsw_base::{BusStats, EsStatus, EventKind, EvsStatus, FilterList, PoolStats, SbStatus, Scope};
use sb_calls::{Pended, Sent};
use tbl_words::{Call as TableCall, TblAnswer, TblCall};

/// The calls of the software bus and of Table Services that one application makes.
///
/// Each call has the condition, the answer and the refusals of its core's call of the same name
/// (`bus_end` and `table_end` those of `end`), with the application's bag there, on the service as
/// it is then: as the calls before left it or, if they aren't alone with it, with what other
/// applications did meanwhile. A call of one service leaves the other as it was. By the code, no
/// call takes memory.
pub trait Calls {
    /// The application with its bags, both services as its calls saw them last, and whether they
    /// are alone with them.
    ghost caller: { Self → Caller };

    /// Makes a pipe that holds up to `depth` messages, and answers its number.
    ///
    /// # Errors
    /// As `BusCore::create_pipe`.
    fn create_pipe(&mut self, depth: u32, name: &[u8]) -> Result<u32, SbStatus>
        requires { MayCallBus (caller self.old) (Call.Create depth name.now) }
        ensures { Answers (caller self.old) (caller self.new) (Call.Create depth name.now)
            (numbered result) };

    /// Ends a pipe.
    ///
    /// # Errors
    /// As `BusCore::delete_pipe`.
    fn delete_pipe(&mut self, pipe: u32) -> Result<(), SbStatus>
        requires { MayCallBus (caller self.old) (Call.Delete pipe) }
        ensures { Answers (caller self.old) (caller self.new) (Call.Delete pipe) (done result) };

    /// Sets a pipe's option bits.
    ///
    /// # Errors
    /// As `BusCore::set_opts`.
    fn set_opts(&mut self, pipe: u32, bits: u8) -> Result<(), SbStatus>
        requires { MayCallBus (caller self.old) (Call.SetOpts pipe bits) }
        ensures { Answers (caller self.old) (caller self.new) (Call.SetOpts pipe bits)
            (done result) };

    /// Answers a pipe's option bits.
    ///
    /// # Errors
    /// As `BusCore::get_opts`.
    fn get_opts(&mut self, pipe: u32) -> Result<u8, SbStatus>
        requires { MayCallBus (caller self.old) (Call.GetOpts pipe) }
        ensures { Answers (caller self.old) (caller self.new) (Call.GetOpts pipe)
            (numbered result) };

    /// Answers the number of the pipe of this name.
    ///
    /// # Errors
    /// As `BusCore::find_pipe`.
    fn find_pipe(&mut self, name: &[u8]) -> Result<u32, SbStatus>
        requires { MayCallBus (caller self.old) (Call.Find name.now) }
        ensures { Answers (caller self.old) (caller self.new) (Call.Find name.now)
            (numbered result) };

    /// Answers a pipe's name.
    ///
    /// # Errors
    /// As `BusCore::pipe_name`.
    fn pipe_name(&mut self, pipe: u32) -> Result<PipeText, SbStatus>
        requires { MayCallBus (caller self.old) (Call.PipeName pipe) }
        ensures { Answers (caller self.old) (caller self.new) (Call.PipeName pipe) (named result) };

    /// Has messages of this id queued on the pipe, up to `limit` of them at once.
    ///
    /// # Errors
    /// As `BusCore::subscribe`.
    fn subscribe(&mut self, id: u16, pipe: u32, limit: u32, scope: Scope) -> Result<(), SbStatus>
        requires { MayCallBus (caller self.old) (Call.Subscribe id pipe limit scope) }
        ensures { Answers (caller self.old) (caller self.new) (Call.Subscribe id pipe limit scope)
            (done result) };

    /// Has no more messages of this id queued on the pipe.
    ///
    /// # Errors
    /// As `BusCore::unsubscribe`.
    fn unsubscribe(&mut self, id: u16, pipe: u32) -> Result<(), SbStatus>
        requires { MayCallBus (caller self.old) (Call.Unsubscribe id pipe) }
        ensures { Answers (caller self.old) (caller self.new) (Call.Unsubscribe id pipe)
            (done result) };

    /// Sends a message; `inc` gives it the id's next sequence count.
    ///
    /// # Errors
    /// As `BusCore::transmit`.
    fn transmit(&mut self, bytes: &[u8], inc: bool) -> Result<Sent, SbStatus>
        requires { MayCallBus (caller self.old) (Call.Transmit bytes.now inc) }
        ensures { Answers (caller self.old) (caller self.new) (Call.Transmit bytes.now inc)
            (sent result) };

    /// Takes the pipe's oldest message, and answers its number.
    ///
    /// # Errors
    /// As `BusCore::receive`.
    fn receive(&mut self, pipe: u32) -> Result<u32, SbStatus>
        requires { MayCallBus (caller self.old) (Call.Receive pipe) }
        ensures { Answers (caller self.old) (caller self.new) (Call.Receive pipe) (got result) };

    /// Takes the pipe's oldest message, or waits for one.
    ///
    /// # Errors
    /// As `BusCore::pend`.
    fn pend(&mut self, pipe: u32) -> Result<Pended, SbStatus>
        requires { MayCallBus (caller self.old) (Call.Pend pipe) }
        ensures { Answers (caller self.old) (caller self.new) (Call.Pend pipe) (pended result) };

    /// Looks again for a message on the pipe that the application waits on.
    fn look(&mut self) -> Pended
        requires { MayCallBus (caller self.old) (Call.Look (pipe_waited_on (caller self.old))) }
        ensures { AnswersLook (caller self.old) (caller self.new) (pipe_waited_on (caller self.old))
            result };

    /// Asks for a buffer of so many bytes, all zero, and answers its number. There must be room for
    /// it in the bag.
    ///
    /// # Errors
    /// As `BusCore::allocate`.
    fn allocate(&mut self, size: u32) -> Result<u32, SbStatus>
        requires { MayCallBus (caller self.old) (Call.Allocate size) }
        ensures { Answers (caller self.old) (caller self.new) (Call.Allocate size)
            (numbered result) };

    /// Sends the message that a buffer of the application's begins with, as its bag has the bytes,
    /// without a copy; `inc` gives it the id's next sequence count. Once it is sent the buffer
    /// isn't the application's any more.
    ///
    /// # Errors
    /// As `BusCore::transmit_buffer`.
    fn transmit_buffer(&mut self, buf: u32, inc: bool) -> Result<Sent, SbStatus>
        requires { MayCallBus (caller self.old)
            (Call.TransmitBuffer buf (bytes_at (caller self.old).bag buf) inc) }
        ensures { Answers (caller self.old) (caller self.new)
            (Call.TransmitBuffer buf (bytes_at (caller self.old).bag buf) inc) (sent result) };

    /// Gives a buffer of the application's back unsent.
    ///
    /// # Errors
    /// As `BusCore::release`.
    fn release(&mut self, buf: u32) -> Result<(), SbStatus>
        requires { MayCallBus (caller self.old) (Call.Release buf) }
        ensures { Answers (caller self.old) (caller self.new) (Call.Release buf) (done result) };

    /// Makes a memory pool of so many bytes, and answers its number.
    ///
    /// # Errors
    /// As `BusCore::pool_create`.
    fn pool_create(&mut self, bytes: u32) -> Result<u32, EsStatus>
        requires { MayCallBus (caller self.old) (Call.PoolCreate bytes) }
        ensures { Answers (caller self.old) (caller self.new) (Call.PoolCreate bytes)
            (pool_told result) };

    /// Takes a block of at least `size` bytes, and answers the number of its grant.
    ///
    /// # Errors
    /// As `BusCore::pool_get`.
    fn pool_get(&mut self, pool: u32, size: u32) -> Result<u32, EsStatus>
        requires { MayCallBus (caller self.old) (Call.PoolGet pool size) }
        ensures { Answers (caller self.old) (caller self.new) (Call.PoolGet pool size)
            (pool_told result) };

    /// Gives a grant's block back, whichever application it was given to.
    ///
    /// # Errors
    /// As `BusCore::pool_put`.
    fn pool_put(&mut self, pool: u32, grant: u32) -> Result<(), EsStatus>
        requires { MayCallBus (caller self.old) (Call.PoolPut pool grant) }
        ensures { Answers (caller self.old) (caller self.new) (Call.PoolPut pool grant)
            (grant_back result) };

    /// Answers a pool's figures.
    ///
    /// # Errors
    /// As `BusCore::pool_stats`.
    fn pool_stats(&mut self, pool: u32) -> Result<PoolStats, EsStatus>
        requires { MayCallBus (caller self.old) (Call.PoolFigures pool) }
        ensures { Answers (caller self.old) (caller self.new) (Call.PoolFigures pool)
            (figures_told result) };

    /// Registers the application with the event services, with these filters.
    fn evs_register(&mut self, filters: &FilterList)
        requires { MayCallBus (caller self.old) (Call.Register filters.now) }
        ensures { Answers (caller self.old) (caller self.new) (Call.Register filters.now)
            BusAnswer.Done };

    /// Sends an event with a text of at most 200 bytes.
    ///
    /// # Errors
    /// As `BusCore::send_event`.
    fn send_event(&mut self, id: u16, kind: EventKind, text: &[u8]) -> Result<(), EvsStatus>
        requires { MayCallBus (caller self.old) (Call.SendEvent id kind text.now) }
        ensures { Answers (caller self.old) (caller self.new) (Call.SendEvent id kind text.now)
            (event_told result) };

    /// Has the application's filter for an event id count from 0 again.
    ///
    /// # Errors
    /// As `BusCore::reset_filter`.
    fn reset_filter(&mut self, id: u16) -> Result<(), EvsStatus>
        requires { MayCallBus (caller self.old) (Call.ResetFilter id) }
        ensures { Answers (caller self.old) (caller self.new) (Call.ResetFilter id)
            (event_told result) };

    /// Sets what a full event log drops: with 0 its oldest event, with 1 the new one.
    fn set_log_mode(&mut self, mode: u8)
        requires { MayCallBus (caller self.old) (Call.LogMode mode) }
        ensures { Answers (caller self.old) (caller self.new) (Call.LogMode mode) BusAnswer.Done };

    /// Empties the event log.
    fn clear_log(&mut self)
        requires { MayCallBus (caller self.old) Call.ClearLog }
        ensures { Answers (caller self.old) (caller self.new) Call.ClearLog BusAnswer.Done };

    /// Sends the housekeeping packet as a message of the application's.
    ///
    /// # Errors
    /// As `BusCore::send_housekeeping`.
    fn send_housekeeping(&mut self) -> Result<Sent, SbStatus>
        requires { MayCallBus (caller self.old) Call.Housekeeping }
        ensures { Answers (caller self.old) (caller self.new) Call.Housekeeping (sent result) };

    /// Answers the figures of the bus.
    fn bus_stats(&mut self) -> BusStats
        requires { MayCallBus (caller self.old) Call.Figures }
        ensures { Answers (caller self.old) (caller self.new) Call.Figures (BusAnswer.Bus result) };

    /// The application's last call, behind its end at the tables: its pipes leave with their
    /// subscriptions and messages, and its unsent buffers; its grants come back to their pools.
    fn bus_end(&mut self)
        requires may { MayCallBus (caller self.old) Call.End }
        requires tables { HasEndedAtTables (caller self.old) }
        ensures { Answers (caller self.old) (caller self.new) Call.End BusAnswer.Done };

    /// The message that the application received last from its live pipe of this number, as its
    /// bag shows it; None if and only if the bag has no view of that pipe. It is no call of the
    /// bus.
    fn last(&self, pipe: u32) -> Option<&[u8]>
        ensures { option_map (λ bytes. bytes.now) result ≡ bytes_seen (caller self.now).bag pipe };

    /// Makes the whole of a buffer that the application hasn't sent a message of this id, with
    /// sequence count 0 and a payload that counts up from `fill`; nothing if the application has
    /// no such buffer. It is no call of the bus.
    fn form_buffer(&mut self, buf: u32, id: u16, fill: u8)
        requires { MayWrite (caller self.old) }
        ensures { Writes (caller self.old) (caller self.new)
            (with_bytes (written_in (caller self.old).bag) buf
            (λ old. sent_message id (length old) fill)) };

    /// Writes bytes into a buffer that the application hasn't sent, from an offset on; nothing
    /// if they don't fit, or the application has no such buffer. It is no call of the bus.
    fn put_bytes(&mut self, buf: u32, offset: u32, bytes: &[u8])
        requires { MayWrite (caller self.old) }
        ensures { Writes (caller self.old) (caller self.new)
            (with_bytes (written_in (caller self.old).bag) buf
            (λ old. put_in old offset bytes.now)) };

    /// Makes a call of the tables, and tells what it was answered: each call has the condition and
    /// the refusals of `TblCore`'s of the same name (`Abort` those of `abort_load`).
    fn table_call(&mut self, call: TblCall<'_>) -> TblAnswer
        requires { MayCallTables (caller self.old) (call_of call) }
        ensures { TablesAnswer (caller self.old) (caller self.new) (call_of call.entry) result };

    /// The application's last call of the tables: all its handles are given back, each with what it
    /// holds.
    fn table_end(&mut self)
        requires { MayCallTables (caller self.old) TableCall.End }
        ensures { TablesAnswer (caller self.old) (caller self.new) TableCall.End TblAnswer.Done };

    /// The bytes that a handle of the application's holds, as its bag shows them; None exactly
    /// if the bag has no view of that handle. It is no call of the tables.
    fn held(&self, handle: u32) -> Option<&[u8]>
        ensures { option_map (λ bytes. bytes.now) result ≡
            held_bytes_seen (caller self.now).held handle };
}
