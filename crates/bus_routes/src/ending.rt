//! Subscriptions that end.
ghost use Rattle.std.specs.Prelude.{◌≡◌, ◌==◌, ◌+◌, ◌≤◌, not, length, filter, map, IsSome};
ghost use Rattle.std.specs.Option.{ForSome};
ghost use Rattle.subscriptions.specs.Subs.{live_at, without};
ghost use Rattle.bus_routes.specs.Inside.{AreRouted, of_id, ways_of};

use routing::Routes;
use step_count::{Ledger, Steps};
use subscriptions::{SubNo, Subs};

/// Ends a live subscription: it leaves the route of its id.
pub(crate) fn end_subscription<L: Ledger>(
    subs: &mut Subs,
    routes: &mut Routes,
    sub: SubNo,
    steps: &mut Steps<L>,
)
    requires live { IsSome (live_at subs.old sub) }
    requires routed { AreRouted subs.old routes.old }
    ensures after { subs.new ≡ without subs.old sub }
    ensures routed { AreRouted subs.new routes.new }
    ensures same { routes.new ≡ record routes.old { routes = routes.new.routes } }
    ensures ways { ways_of routes.new ≡ ways_of routes.old }
    ensures cost { ForSome (live_at subs.old sub)
        (λ s. steps.new ≤ steps.old + length (of_id s.id subs.old) + 8) }
{
    // Does nothing; the proof learns of it that no two subscriptions have one number.
    subs.recall_order();
    let id = subs.at(sub).id;
    if let Some(route) = routes.route_of(id) {
        routes.remove_dest(route, sub, steps);
    }
    subs.remove(sub);
}

/// Ends the pipe's subscriptions.
pub(crate) fn end_of_pipe<L: Ledger>(
    subs: &mut Subs,
    routes: &mut Routes,
    pipe: u32,
    steps: &mut Steps<L>,
)
    requires { AreRouted subs.old routes.old }
    ensures after { subs.new ≡
        record subs.old { live = filter (λ s. not (s.pipe == pipe)) subs.old.live } }
    ensures routed { AreRouted subs.new routes.new }
    ensures same { routes.new ≡ record routes.old { routes = routes.new.routes } }
    ensures ways { ways_of routes.new ≡ ways_of routes.old }
{
    while let Some(sub) = subs.any_of_pipe(pipe) {
        // As above: the one that ends is the only one of its number.
        subs.recall_order();
        end_subscription(subs, routes, sub, steps);
    }
}
