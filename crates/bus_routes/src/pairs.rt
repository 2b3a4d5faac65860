//! What ties an id to a pipe.
ghost use Rattle.std.specs.Prelude.{◌≡◌, ◌+◌, ◌*◌, ◌≤◌, length};
ghost use Rattle.bus_routes.specs.Inside.{AreRouted, first_of, of_id};

use routing::Routes;
use step_count::{Ledger, Steps};
use subscriptions::{SubNo, Subs};

/// The first live subscription of an id to a pipe; None if and only if there is none. It goes along
/// the id's destinations up to there.
pub(crate) fn first_of<L: Ledger>(
    subs: &Subs,
    routes: &Routes,
    id: u16,
    pipe: u32,
    steps: &mut Steps<L>,
) -> Option<SubNo>
    requires { AreRouted subs.now routes.now }
    ensures first { result ≡ first_of subs.now id pipe }
    ensures cost { steps.new ≤ steps.old + 2 * length (of_id id subs.now) + 2 }
{
    // Does nothing; the proof learns of it that no two subscriptions have one number.
    subs.recall_order();
    let Some(route) = routes.route_of(id) else {
        return None;
    };
    let mut at = routes.first(route, steps);
    for _ in 0..routes.dests_of(route) {
        let Some((node, sub)) = at else {
            return None;
        };
        if subs.at(sub).pipe == pipe {
            return Some(sub);
        }
        at = routes.next(node, steps);
    }
    None
}
