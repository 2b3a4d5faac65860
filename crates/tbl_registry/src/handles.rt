//! Live handles in order of number.
ghost use Rattle.std.specs.Prelude.{◌≡◌, ◌≢◌, All, IfSome, None, option_map};
ghost use Rattle.tbl_registry.specs.Listing.{handle_at, is_live, has_handle, first_owned};
ghost use Rattle.tbl_registry.specs.Inside.{AreRising, HasNumber};

use crate::rows::Handle;
use fsw_base::AppNo;

/// Where the handle of a number stands, by halves.
pub(crate) fn place_of(handles: &[Handle], number: u32) -> Option<usize>
    requires { AreRising handles.now }
    ensures some { IfSome result (λ i. HasNumber handles.now number i) }
    ensures none { result ≡ None → All (λ h. h.number ≢ number) handles.now }
{
    match handles.binary_search_by_key(&number, |handle| handle.number) {
        Ok(place) => Some(place),
        Err(_) => None,
    }
}

/// The handle of a number.
pub(crate) fn find(handles: &[Handle], number: u32) -> Option<Handle>
    requires { AreRising handles.now }
    ensures { result ≡ handle_at handles.now number }
{
    match place_of(handles, number) {
        Some(place) => Some(handles[place]),
        None => None,
    }
}

/// Whether a handle of this number is among them.
pub(crate) fn is_among(handles: &[Handle], number: u32) -> bool
    requires { AreRising handles.now }
    ensures { result ≡ is_live handles.now number }
{
    place_of(handles, number).is_some()
}

/// Whether a handle of the table of this number is among them.
pub(crate) fn any_of(handles: &[Handle], table: u32) -> bool
    ensures { result ≡ has_handle handles.now table }
{
    handles.iter().any(|handle| handle.table == table)
}

/// The number of the first handle of the application.
pub(crate) fn first_of(handles: &[Handle], app: AppNo) -> Option<u32>
    ensures { result ≡ option_map (λ h. h.number) (first_owned handles.now app) }
{
    for handle in handles {
        if handle.app == app {
            return Some(handle.number);
        }
    }
    None
}
