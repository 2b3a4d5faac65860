//! Routes, and the lines that name them.
ghost use Rattle.std.specs.Prelude.{◌≡◌, ◌==◌, ◌≤◌, IfOk, IsTrue};
ghost use Rattle.std.specs.List.{list_all, list_any};
ghost use Rattle.script_words.specs.Readings.{Reads};
ghost use Rattle.script_words.specs.Text.{is_text, words_of};
ghost use Rattle.bridge_plan.specs.Routes.{IsRoute, route_of, after_route, after_route_words, after_route_line, Adds};

use arrayvec::ArrayVec;
use fsw_base::{FaultKind, MAX_ID};
use script_words::counts::two;
use script_words::numbers::{number, within};
use script_words::text::{first_word, is_same, is_text};

/// How many routes a bridge may have.
pub const MAX_ROUTES: usize = 16;

// How many bytes a line may have.
const MAX_LINE: usize = 1024;

// The largest limit.
const MAX_LIMIT: u32 = 65535;

/// A route: which messages go over the bridge, and how many of them may wait for it at once.
#[derive(Clone, Copy, Debug, Default)]
pub struct Route {
    /// The message id, 1 to 0x1FFF.
    pub id: u16,
    /// How many messages of the id may wait in the bridge's pipe, 0 to 65535.
    pub limit: u32,
}

// route ID LIMIT, from the line behind its first word
#[tactic(auto, unfolding(crate::specs::Routes::route_of))]
fn read_route(rest: &[u8]) -> Result<Route, FaultKind>
    ensures line { Reads (λ route. route) result (route_of (words_of rest.now)) }
    ensures range { IfOk result (λ route. IsRoute route) }
{
    let (id, limit) = two(rest)?;
    let id = number(id)?;
    let limit = number(limit)?;
    let id = within(1, MAX_ID as u32, id)?;
    let limit = within(0, MAX_LIMIT, limit)?;
    Ok(Route {
        id: id as u16,
        limit,
    })
}

// Whether a message id has a route already.
fn has_route(routes: &[Route], id: u16) -> bool
    ensures { result ≡ list_any (λ other. other.id == id) routes.now }
{
    routes.iter().any(|other| other.id == id)
}

// One route more.
#[tactic(auto, unfolding(crate::specs::Routes::after_route))]
fn add_route(routes: &mut ArrayVec<Route, MAX_ROUTES>, route: Route) -> Result<(), FaultKind>
    ensures { Adds result routes.new.items (after_route routes.old.items route) }
{
    if routes.len() >= MAX_ROUTES {
        return Err(FaultKind::OutOfRange);
    }
    if has_route(routes.as_slice(), route.id) {
        return Err(FaultKind::Repeated);
    }
    routes.push(route);
    Ok(())
}

// A line's words: a route, unless the line has none or begins with a hash sign.
#[tactic(auto, unfolding(crate::specs::Routes::after_route_words))]
fn route_words(routes: &mut ArrayVec<Route, MAX_ROUTES>, line: &[u8]) -> Result<(), FaultKind>
    ensures { Adds result routes.new.items
        (after_route_words routes.old.items (words_of line.now)) }
{
    match first_word(line) {
        None => Ok(()),
        Some((first, rest)) => {
            if first.starts_with(b"#") {
                return Ok(());
            }
            if !is_same(first, b"route") {
                return Err(FaultKind::UnknownWord);
            }
            let route = read_route(rest)?;
            add_route(routes, route)
        }
    }
}

/// Reads the next line among the routes; `plain` says that its bytes are known to be text.
///
/// # Errors
/// The line's first fault: `LineTooLong`, `BadByte`, `UnknownWord` unless its first word is
/// `route`, `WrongCount`, `BadWord` or `OutOfRange` of its words; `OutOfRange` if there are
/// [`MAX_ROUTES`] already; else `Repeated` if its id has a route already.
#[tactic(auto, unfolding(crate::specs::Routes::after_route_line))]
pub(crate) fn route_line(
    routes: &mut ArrayVec<Route, MAX_ROUTES>,
    line: &[u8],
    plain: bool,
) -> Result<(), FaultKind>
    requires { IsTrue plain → IsTrue (list_all is_text line.now) }
    ensures { Adds result routes.new.items (after_route_line routes.old.items line.now) }
{
    if line.len() > MAX_LINE {
        return Err(FaultKind::LineTooLong);
    }
    if !(plain || is_text(line)) {
        return Err(FaultKind::BadByte);
    }
    route_words(routes, line)
}
