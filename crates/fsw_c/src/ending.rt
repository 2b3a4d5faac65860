//! The last call of an application.
ghost use Rattle.fsw_c.specs.EndAnswers.{EndCall};

use crate::bus_codes::code_of_plain;
use crate::codes::CLOSED;
use crate::handle::FswCore;
use std::alloc::Global;
use std::marker::Brand;
use step_count::Blank;

/// The caller's last call, of both services.
#[unsafe(no_mangle)]
pub extern "C" fn fsw_raw_end(alloc: Global, core: &mut FswCore, app: u32) -> u32
    ensures call { EndCall core.old.held.value core.new.held.value app result }
{
    let Some(mut it) = core.take(alloc) else {
        return CLOSED;
    };
    let answer = it.end::<Brand, Brand>(app, Blank::new(1), Blank::new(1));
    *core = FswCore::open(it);
    code_of_plain(&answer)
}
