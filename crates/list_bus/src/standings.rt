//! What applications are doing.
ghost use Rattle.std.specs.Prelude.{◌≡◌, ◌-◌, ◌<◌, length, map, replicate, slice_set, slice_index_or, IfOk};
ghost use Rattle.std.specs.List.{list_all};
ghost use Rattle.bus_words.specs.Bus.{Active, Ended, has_ended, is_idle};
ghost use Rattle.list_bus.specs.Standings.{standing_in};

use fsw_base::AppNo;
use list_pipes::{ListPipe, has_message};
use std::alloc::{AllocError, Global};

/// What an application is doing.
#[derive(Clone, Copy, Debug, PartialEq, Eq)]
pub enum ListStanding {
    /// It makes calls.
    Active,
    /// It waits for a message on this pipe.
    Waiting(u32),
    /// It has ended.
    Ended,
}

/// So many active applications.
pub(crate) fn all_active(alloc: Global, apps: u32) -> Result<Vec<ListStanding>, AllocError>
    ensures { IfOk result
        (λ standings. map standing_in standings.items ≡ replicate apps Active) }
{
    let mut standings = Vec::new(alloc);
    for _ in 0..apps {
        standings.push(ListStanding::Active)?;
    }
    Ok(standings)
}

/// What an application is doing; one that isn't there has ended.
pub(crate) fn standing_of(standings: &[ListStanding], app: AppNo) -> ListStanding
    ensures { standing_in result ≡
        slice_index_or (map standing_in standings.now) (app - 1) Ended }
{
    match standings.get(app.get() as usize - 1) {
        Some(standing) => *standing,
        None => ListStanding::Ended,
    }
}

/// An application does this from now on.
pub(crate) fn set_standing(standings: &mut Vec<ListStanding>, app: AppNo, standing: ListStanding)
    ensures { map standing_in standings.new.items ≡
        slice_set (map standing_in standings.old.items) (app - 1) (standing_in standing) }
{
    let place = app.get() as usize - 1;
    if place < standings.len() {
        standings[place] = standing;
    }
}

/// Whether every application has ended.
pub(crate) fn have_all_ended(standings: &[ListStanding]) -> bool
    ensures { result ≡
        list_all (λ standing. has_ended (standing_in standing)) standings.now }
{
    standings.iter().all(|standing| has_ended(*standing))
}

// Whether an application that stands so has ended.
fn has_ended(standing: ListStanding) -> bool
    ensures { result ≡ has_ended (standing_in standing) }
{
    match standing {
        ListStanding::Active | ListStanding::Waiting(_) => false,
        ListStanding::Ended => true,
    }
}

// Whether an application that stands so makes no further send by itself.
fn is_idle(pipes: &[ListPipe], standing: ListStanding) -> bool
    ensures { result ≡ is_idle pipes.now (standing_in standing) }
{
    match standing {
        ListStanding::Active => false,
        ListStanding::Waiting(pipe) => !has_message(pipes, pipe),
        ListStanding::Ended => true,
    }
}

/// Whether every application but this one has ended or waits on an empty pipe.
pub(crate) fn are_others_idle(pipes: &[ListPipe], standings: &[ListStanding], app: AppNo) -> bool
    ensures { result ≡
        list_all (is_idle pipes.now)
        (slice_set (map standing_in standings.now) (app - 1) Ended) }
{
    let own = app.get() as usize - 1;
    for place in 0..standings.len() {
        if !is_idle(pipes, standing_but(standings, place, own)) {
            return false;
        }
    }
    true
}

// What the application at a place is doing, if the one at `own` has ended.
fn standing_but(standings: &[ListStanding], place: usize, own: usize) -> ListStanding
    requires { place < length standings.now }
    ensures { standing_in result ≡
        slice_index_or (slice_set (map standing_in standings.now) own Ended) place Ended }
{
    if place == own {
        ListStanding::Ended
    } else {
        standings[place]
    }
}
