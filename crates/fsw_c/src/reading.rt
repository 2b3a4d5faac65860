//! What C may read of the tables.
ghost use Rattle.std.specs.Prelude.{◌≡◌, ◌≢◌};
ghost use Rattle.tbl_words.specs.declared.history.Call.TheVariants.{Abort, Status};
ghost use Rattle.tbl_words.specs.declared.calls.TblAnswer.TheVariants.{State};
ghost use Rattle.table_core.specs.Answers.{state_of};
ghost use Rattle.fsw_c.specs.TableAnswers.{TableCall, AnswersTables};
ghost use Rattle.fsw_c.specs.TableReads.{read_code, use_code, state_in, ShowsStaged, ShowsUse};

use crate::codes::{CLOSED, SUCCESS};
use crate::handle::FswCore;
use crate::seen::FswBytes;
use crate::table_codes::code_of_table_call;
use std::alloc::Global;
use table_core::PlainState;

/// What of the tables is in use.
#[repr(C)]
#[derive(Clone, Copy)]
pub struct FswTableUse {
    /// Tables that have a handle.
    pub tables: u32,
    /// Live handles.
    pub handles: u32,
    /// The bytes of the tables' blocks.
    pub bytes: u32,
}

/// The figures of a table.
#[repr(C)]
#[derive(Clone, Copy)]
pub struct FswTableStatus {
    /// How often it was updated.
    pub version: u64,
    /// 0 if nothing is staged, 1 if something is, 2 if it was validated.
    pub staged: u32,
    /// How many handles, of whichever applications, hold a version of it.
    pub holds: u32,
    /// Whether it was ever updated.
    pub loaded: bool,
}

impl FswTableStatus {
    // These figures.
    fn of(state: PlainState) -> FswTableStatus
        ensures { state_in result ≡ state_of state }
    {
        FswTableStatus {
            version: state.version,
            staged: state.staged,
            holds: state.holds,
            loaded: state.loaded,
        }
    }
}

/// Gives the figures of a handle's table.
#[unsafe(no_mangle)]
pub extern "C" fn fsw_raw_table_status(
    alloc: Global,
    core: &mut FswCore,
    app: u32,
    handle: u32,
    figures: &mut FswTableStatus,
) -> u32
    ensures call { TableCall core.old.held.value core.new.held.value app (Status handle) result }
    ensures same { core.new.held.value ≡ core.old.held.value }
    ensures kept { result ≢ 0 → figures.new ≡ figures.old }
    ensures figures { result ≡ 0 →
        AnswersTables core.old.held.value core.new.held.value app (Status handle)
        (State (state_in figures.new)) }
{
    let Some(it) = core.take(alloc) else {
        return CLOSED;
    };
    let answer = it.tables.status(app, handle);
    *core = FswCore::open(it);
    if let Ok(Ok(state)) = answer {
        *figures = FswTableStatus::of(state);
    }
    code_of_table_call(&answer)
}

/// Gives the place of the staged value of a handle's table, which is read before the next call.
#[unsafe(no_mangle)]
pub extern "C" fn fsw_raw_table_staged(
    alloc: Global,
    core: &mut FswCore,
    app: u32,
    handle: u32,
    bytes: &mut FswBytes,
) -> u32
    ensures same { core.new.held.value ≡ core.old.held.value }
    ensures status { result ≡ read_code core.old.held.value app (Abort handle) }
    ensures kept { result ≢ 0 → bytes.new ≡ bytes.old }
    ensures shown { result ≡ 0 → ShowsStaged core.old.held.value handle bytes.new }
{
    let Some(it) = core.take(alloc) else {
        return CLOSED;
    };
    let answer = it.tables.staged_bytes(app, handle);
    let status = code_of_table_call(&answer);
    if let Ok(Ok(value)) = answer {
        *bytes = FswBytes::of(value);
    }
    *core = FswCore::open(it);
    status
}

/// Gives what of the tables is in use.
#[unsafe(no_mangle)]
pub extern "C" fn fsw_raw_table_use(alloc: Global, core: &mut FswCore, now: &mut FswTableUse) -> u32
    ensures same { core.new.held.value ≡ core.old.held.value }
    ensures status { result ≡ use_code core.old.held.value }
    ensures kept { result ≢ 0 → now.new ≡ now.old }
    ensures shown { result ≡ 0 → ShowsUse core.old.held.value now.new }
{
    let Some(it) = core.take(alloc) else {
        return CLOSED;
    };
    let shown = it.tables.core().in_use();
    *now = FswTableUse {
        tables: shown.tables,
        handles: shown.handles,
        bytes: shown.bytes,
    };
    *core = FswCore::open(it);
    SUCCESS
}
