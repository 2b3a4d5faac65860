//! What a bridge is to do: its routes, and the scripts of both sides.
ghost use Rattle.std.specs.Prelude.{◌≡◌, ◌+◌, ◌<◌, ◌≤◌, ◌⊎◌, length, slice_get, Some};

use crate::budgets::sends_of;
use crate::routes::{MAX_ROUTES, Route};
use app_script::Script;
use arrayvec::ArrayVec;
use fsw_base::{AppNo, Budget};
use std::marker::Model;

// How many bytes the name of the bridge's pipe has: `BRIDGE`.
const PIPE_NAME_BYTES: u32 = 6;

/// What a bridge is to do: up to [`MAX_ROUTES`] routes, each of another message id, and the scripts
/// of both sides, of at most 15 applications each, so that the bridge is one more.
pub struct BridgePlan {
    // The routes, in their order.
    routes: ArrayVec<Route, MAX_ROUTES>,
    // The script of side 1, from which messages go.
    one: Script,
    // The script of side 2, to which they go.
    two: Script,
}

impl Drop for BridgePlan {
    fn drop(self) {
        let BridgePlan {
            routes: _routes,
            one: _one,
            two: _two,
        } = self;
    }
}

impl Model for BridgePlan {
    ghost use Rattle.bridge_plan.specs.Plan.{PlanText};
    ghost use Rattle.bridge_plan.specs.Inside.{plan_inside, KeepsPlan};

    ghost Value = { PlanText };

    ghost view = { plan_inside };

    ghost invariant = { KeepsPlan };
}

// The application behind so many others.
fn app_behind(apps: u32) -> AppNo
    requires { apps ≤ 15 }
    ensures { result ≡ apps + 1 }
{
    AppNo::try_new(apps + 1).unwrap()
}

impl BridgePlan {
    ghost use Rattle.bridge_plan.specs.Plan.{IsPlan, script_of, bridge_of};
    ghost use Rattle.bridge_plan.specs.Sends.{budget_on_one_of, budget_on_two_of};

    /// The plan of these routes and scripts.
    pub(crate) fn new(routes: ArrayVec<Route, MAX_ROUTES>, one: Script, two: Script) -> BridgePlan
        requires { IsPlan (record { routes = routes.items; one = one; two = two }) }
        ensures { result ≡ record { routes = routes.items; one = one; two = two } }
    {
        BridgePlan { routes, one, two }
    }

    /// Tells what is true of every plan, and does nothing at run time: its routes are few, in their
    /// ranges and each of another id, and its scripts are in theirs and leave room for the bridge.
    pub fn recall_ranges(&self)
        ensures { IsPlan self.now }
    {
        let _ = &self.routes;
    }

    /// How many routes there are, at most [`MAX_ROUTES`].
    pub fn routes(&self) -> u32
        ensures count { result ≡ length self.now.routes }
        ensures few { result ≤ 16 }
    {
        self.routes.len() as u32
    }

    /// The route at a place, in the plan's order; places count from 0. It is a message id, 1 to
    /// 0x1FFF, and how many messages of that id may wait in the bridge's pipe, 0 to 65535.
    pub fn route(&self, i: u32) -> (u16, u32)
        requires { i < length self.now.routes }
        ensures { slice_get self.now.routes i ≡ Some (record { id = result.0; limit = result.1 }) }
    {
        let route = self.routes.as_slice()[i as usize];
        (route.id, route.limit)
    }

    /// The script of a side, 1 or 2.
    pub fn script(&self, side: u32) -> &Script
        requires { (side ≡ 1) ⊎ (side ≡ 2) }
        ensures { result.now ≡ script_of self.now side }
    {
        if side == 1 { &self.one } else { &self.two }
    }

    /// The bridge's number on a side, 1 or 2: it comes after the script's last application.
    pub fn bridge(&self, side: u32) -> AppNo
        requires { (side ≡ 1) ⊎ (side ≡ 2) }
        ensures { result ≡ bridge_of (script_of self.now side) }
    {
        self.recall_ranges();
        app_behind(self.script(side).apps())
    }

    /// What the bridge may add on side 1: its pipe, a subscription a route, a wait and a look for
    /// each message and for the time-out, and its end; and the name of its pipe.
    pub fn budget_on_one(&self) -> Budget
        ensures budget { result ≡ budget_on_one_of self.now }
        ensures entries { result.entries ≤ 40020 }
    {
        let sends = sends_of(&self.one);
        Budget {
            entries: 2 * sends.lines + self.routes() + 4,
            bytes: PIPE_NAME_BYTES,
            buffers: 0,
        }
    }

    /// What the bridge may add on side 2: a send for each message, with the message's bytes, and
    /// its end.
    pub fn budget_on_two(&self) -> Budget
        ensures budget { result ≡ budget_on_two_of self.now }
        ensures entries { result.entries ≤ 20001 }
        ensures bytes { result.bytes ≤ 18057216 }
    {
        let sends = sends_of(&self.one);
        Budget {
            entries: sends.lines + 1,
            bytes: sends.bytes,
            buffers: 0,
        }
    }
}
