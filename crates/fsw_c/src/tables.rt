//! Loads of tables, and handles that are given back.
ghost use Rattle.std.specs.Prelude.{◌≡◌, ◌≢◌};
ghost use Rattle.tbl_words.specs.declared.history.Call.TheVariants.{Share, Unregister, Stage, Validate, Update, Abort, Load, ReleaseAddress};
ghost use Rattle.tbl_words.specs.declared.calls.TblAnswer.TheVariants.{Number};
ghost use Rattle.fsw_c.specs.TableAnswers.{TableCall, AnswersTables};

use crate::codes::CLOSED;
use crate::handle::FswCore;
use crate::table_codes::code_of_table_call;
use std::alloc::Global;
use std::marker::Brand;
use step_count::Blank;

/// Gives the caller a handle of a registered table.
#[unsafe(no_mangle)]
pub extern "C" fn fsw_raw_table_share(
    alloc: Global,
    core: &mut FswCore,
    app: u32,
    name: &[u8],
    handle: &mut u32,
) -> u32
    ensures call { TableCall core.old.held.value core.new.held.value app (Share name.now) result }
    ensures kept { result ≢ 0 → handle.new ≡ handle.old }
    ensures number { result ≡ 0 →
        AnswersTables core.old.held.value core.new.held.value app (Share name.now)
        (Number handle.new) }
{
    let Some(mut it) = core.take(alloc) else {
        return CLOSED;
    };
    let answer = it.tables.share(app, name);
    *core = FswCore::open(it);
    if let Ok(Ok(number)) = answer {
        *handle = number;
    }
    code_of_table_call(&answer)
}

/// Gives a handle back.
#[unsafe(no_mangle)]
pub extern "C" fn fsw_raw_table_unregister(
    alloc: Global,
    core: &mut FswCore,
    app: u32,
    handle: u32,
) -> u32
    ensures call { TableCall core.old.held.value core.new.held.value app
        (Unregister handle) result }
{
    let Some(mut it) = core.take(alloc) else {
        return CLOSED;
    };
    let answer = it.tables.unregister::<Brand>(app, handle, Blank::new(1));
    *core = FswCore::open(it);
    code_of_table_call(&answer)
}

/// Stages a value.
#[unsafe(no_mangle)]
pub extern "C" fn fsw_raw_table_stage(
    alloc: Global,
    core: &mut FswCore,
    app: u32,
    handle: u32,
    offset: u32,
    bytes: &[u8],
) -> u32
    ensures call { TableCall core.old.held.value core.new.held.value app
        (Stage handle offset bytes.now) result }
{
    let Some(mut it) = core.take(alloc) else {
        return CLOSED;
    };
    let answer = it.tables.stage(app, handle, offset, bytes);
    *core = FswCore::open(it);
    code_of_table_call(&answer)
}

/// Validates the staged value.
#[unsafe(no_mangle)]
pub extern "C" fn fsw_raw_table_validate(
    alloc: Global,
    core: &mut FswCore,
    app: u32,
    handle: u32,
) -> u32
    ensures call { TableCall core.old.held.value core.new.held.value app (Validate handle) result }
{
    let Some(mut it) = core.take(alloc) else {
        return CLOSED;
    };
    let answer = it.tables.validate(app, handle);
    *core = FswCore::open(it);
    code_of_table_call(&answer)
}

/// Makes the staged value the table's.
#[unsafe(no_mangle)]
pub extern "C" fn fsw_raw_table_update(
    alloc: Global,
    core: &mut FswCore,
    app: u32,
    handle: u32,
) -> u32
    ensures call { TableCall core.old.held.value core.new.held.value app (Update handle) result }
{
    let Some(mut it) = core.take(alloc) else {
        return CLOSED;
    };
    let answer = it.tables.update(app, handle);
    *core = FswCore::open(it);
    code_of_table_call(&answer)
}

/// Drops the staged value.
#[unsafe(no_mangle)]
pub extern "C" fn fsw_raw_table_abort(
    alloc: Global,
    core: &mut FswCore,
    app: u32,
    handle: u32,
) -> u32
    ensures call { TableCall core.old.held.value core.new.held.value app (Abort handle) result }
{
    let Some(mut it) = core.take(alloc) else {
        return CLOSED;
    };
    let answer = it.tables.abort_load(app, handle);
    *core = FswCore::open(it);
    code_of_table_call(&answer)
}

/// Stages, validates and updates in one.
#[unsafe(no_mangle)]
pub extern "C" fn fsw_raw_table_load(
    alloc: Global,
    core: &mut FswCore,
    app: u32,
    handle: u32,
    offset: u32,
    bytes: &[u8],
) -> u32
    ensures call { TableCall core.old.held.value core.new.held.value app
        (Load handle offset bytes.now) result }
{
    let Some(mut it) = core.take(alloc) else {
        return CLOSED;
    };
    let answer = it.tables.load(app, handle, offset, bytes);
    *core = FswCore::open(it);
    code_of_table_call(&answer)
}

/// Releases what the handle holds.
#[unsafe(no_mangle)]
pub extern "C" fn fsw_raw_table_release_address(
    alloc: Global,
    core: &mut FswCore,
    app: u32,
    handle: u32,
) -> u32
    ensures call { TableCall core.old.held.value core.new.held.value app
        (ReleaseAddress handle) result }
{
    let Some(mut it) = core.take(alloc) else {
        return CLOSED;
    };
    let answer = it.tables.release_address(app, handle);
    *core = FswCore::open(it);
    code_of_table_call(&answer)
}
