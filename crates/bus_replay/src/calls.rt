//! What a call of the bus must be for an entry.
ghost use Rattle.std.specs.Prelude.{◌≡◌, IsTrue};
ghost use Rattle.std.specs.Result.{OnOk};
ghost use Rattle.bus_words.specs.Entries.{call_of};
ghost use Rattle.bus_words.specs.Machine.{brings, makes_entry};
ghost use Rattle.list_bus.specs.Played.{is_playable};

use bus_words::{BusAnswer, BusCall};
use fsw_base::AppNo;
use list_bus::ListBus;
use std::alloc::AllocError;

/// Whether a call brings the bytes that it is about: the transmission of a buffer as many as the
/// buffer has.
pub(crate) fn brings(bus: &ListBus, app: AppNo, call: &BusCall<'_>) -> bool
    ensures { result ≡ brings bus.now.whole.bus.unsent app (call_of call.now) }
{
    match call {
        BusCall::TransmitBuffer { buf, bytes, .. } => {
            bytes.len() == bus.unsent_size(app, *buf) as usize
        }
        _ => true,
    }
}

/// Whether a call so answered makes an entry: a look that found nothing makes none.
pub(crate) fn makes_entry(call: &BusCall<'_>, answer: &BusAnswer) -> bool
    ensures { result ≡ makes_entry (call_of call.now) answer.now }
{
    !matches!((call, answer), (BusCall::Look { .. }, BusAnswer::Pending))
}

/// Whether the machine of lists plays the call; it plays each call that a script makes.
///
/// # Errors
/// `AllocError` if a message has 2^32 bytes or more, or a mode is none.
pub(crate) fn check_playable(call: &BusCall<'_>) -> Result<(), AllocError>
    ensures { OnOk result (IsTrue (is_playable (call_of call.now))) }
{
    let playable = match call {
        BusCall::Transmit { bytes, .. } => u32::try_from(bytes.len()).is_ok(),
        BusCall::TransmitBuffer { bytes, .. } => u32::try_from(bytes.len()).is_ok(),
        BusCall::LogMode { mode } => *mode <= 1,
        _ => true,
    };
    if playable { Ok(()) } else { Err(AllocError) }
}
