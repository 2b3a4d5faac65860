//! Small parts of the tables' calls.
ghost use Rattle.std.specs.Prelude.{◌≡◌, ◌<◌, ◌≤◌, ◌++◌, ◌∷◌, [], length, None, Some, IfSome};
ghost use Rattle.std.specs.Option.{option_map, ForSome};
ghost use Rattle.subscriptions.specs.Subs.{live_at};
ghost use Rattle.routing.specs.Routing.{Routing, route_of, fresh_route};
ghost use Rattle.bus_routes.specs.Inside.{item_in, fewer_by};

use crate::tables::ItemRow;
use pipe_queue::Item;
use routing::Routes;
use subscriptions::Subs;

/// An item as the tables' user sees it.
pub(crate) fn item_row(item: Option<Item>) -> Option<ItemRow>
    ensures { result ≡ option_map item_in item }
{
    let item = item?;
    Some(ItemRow {
        number: item.number,
        desc: item.desc,
        subscription: item.sub.number,
    })
}

/// One message fewer of the item's subscription waits; no effect if there is no item.
pub(crate) fn count_down(subs: &mut Subs, item: Option<Item>)
    requires { IfSome item (λ i. ForSome (live_at subs.old i.sub) (λ s. 1 ≤ s.waiting)) }
    ensures { subs.new ≡ fewer_by item subs.old }
{
    if let Some(item) = item {
        subs.unqueued(item.sub);
    }
}

/// The number of the id's route, which is made if the id has none.
pub(crate) fn route_for(routes: &mut Routes, id: u16) -> u32
    requires first { 1 ≤ id }
    requires last { id ≤ 0x1FFF }
    requires room { route_of routes.old.routes id ≡ None →
        length routes.old.routes < routes.old.msgids }
    ensures old { (route : _) → route_of routes.old.routes id ≡ Some route → (result ≡ route) ×
        (routes.new ≡ routes.old) }
    ensures new { route_of routes.old.routes id ≡ None → (result ≡ length routes.old.routes) ×
        (routes.new ≡ record routes.old { routes = routes.old.routes ++ fresh_route id ∷ [] }) }
{
    if let Some(route) = routes.route_of(id) {
        return route;
    }
    let route = routes.len();
    let _ = routes.add_route(id);
    route
}
