//! Addresses of tables.
ghost use Rattle.std.specs.Prelude.{◌≡◌, true, false};
ghost use Rattle.tbl_words.specs.declared.history.Call.TheVariants.{GetAddress};
ghost use Rattle.tbl_words.specs.declared.calls.TblAnswer.TheVariants.{Address};
ghost use Rattle.fsw_c.specs.Shown.{shown_length};
ghost use Rattle.fsw_c.specs.TableShown.{ShowsHeld, held_shown};
ghost use Rattle.fsw_c.specs.TableAnswers.{TableCall, AnswersTables};
ghost use Rattle.fsw_c.specs.TableCodes.{gives_address, told_in};

use crate::codes::CLOSED;
use crate::handle::FswCore;
use crate::seen::FswBytes;
use crate::table_codes::code_of_address;
use checked_tables::TblBox;
use std::alloc::Global;

/// A table's bytes, as a handle holds them.
#[repr(C)]
#[derive(Clone, Copy)]
pub struct FswAddress {
    /// The first byte.
    pub at: *const u8,
    /// The table's size.
    pub len: usize,
    /// How often the table was updated.
    pub version: u64,
}

impl FswAddress {
    // What the application's handle holds, which is this version.
    fn of(tables: &TblBox<'static>, app: u32, handle: u32, version: u64) -> FswAddress
        ensures length { result.len ≡ shown_length (held_shown tables.now app handle) }
        ensures version { result.version ≡ version }
    {
        let FswBytes { at, len } = FswBytes::of_any(tables.held(app, handle));
        FswAddress { at, len, version }
    }
}

/// Gives the handle the present version.
#[unsafe(no_mangle)]
#[tactic(auto, using(crate::proofs::Numbers::refused_address, crate::proofs::Numbers::unasked_address, crate::proofs::Numbers::told_back))]
pub extern "C" fn fsw_raw_table_get_address(
    alloc: Global,
    core: &mut FswCore,
    app: u32,
    handle: u32,
    address: &mut FswAddress,
) -> u32
    ensures call { TableCall core.old.held.value core.new.held.value app
        (GetAddress handle) result }
    ensures kept { gives_address result ≡ false → address.new ≡ address.old }
    ensures version { gives_address result ≡ true →
        AnswersTables core.old.held.value core.new.held.value app (GetAddress handle)
        (Address (told_in result) address.new.version) }
    ensures shown { gives_address result ≡ true →
        ShowsHeld core.new.held.value app handle address.new }
{
    let Some(mut it) = core.take(alloc) else {
        return CLOSED;
    };
    let answer = it.tables.get_address(app, handle);
    if let Ok(Ok(given)) = answer {
        *address = FswAddress::of(&it.tables, app, handle, given.version);
    }
    *core = FswCore::open(it);
    code_of_address(&answer)
}
