//! The tables: what they keep, and how they open.
ghost use Rattle.std.specs.Prelude.{◌≡◌, map, find, None, IfOk, IfSome, is_some, IsTrue};
ghost use Rattle.std.specs.List.{list_any};
ghost use Rattle.std.specs.Str.{bytes_eq};
ghost use Rattle.fsw_base.specs.Limits.{limits_of};
ghost use Rattle.bus_words.specs.Pipes.{owns, oldest_on, last_on, with_pipe, after_receive};
ghost use Rattle.bus_routes.specs.Rows.{has_way, way_of};
ghost use Rattle.bus_routes.specs.Tables.{opened};

use crate::making::{count_down, item_row};
use fsw_base::{AppNo, Config};
use pipe_table::PipeTable;
use routing::Routes;
use std::alloc::{AllocError, Global};
use std::marker::Model;
use subscriptions::Subs;

/// A message that waits on a pipe or was received last.
#[derive(Clone, Copy, Debug, PartialEq, Eq)]
pub struct ItemRow {
    /// The number of its send.
    pub number: u64,
    /// The descriptor of its buffer.
    pub desc: u32,
    /// The number of the subscription that queued it.
    pub subscription: u32,
}

/// The message that is a pipe's last one, before a receive and after it.
#[derive(Clone, Copy, Debug, PartialEq, Eq)]
pub struct LastItems {
    /// The one that is let go.
    pub before: Option<ItemRow>,
    /// The one received, which waited longest.
    pub after: Option<ItemRow>,
}

/// The pipes, subscriptions and routes of a bus. Contracts see each as a list, and the room that
/// was taken for them.
pub struct BusTables {
    // The pipes, with what waits on them.
    pub(crate) pipes: PipeTable,
    // The subscriptions, each with the count of its messages that wait.
    pub(crate) subs: Subs,
    // The routes: for each id that has one, its subscriptions and its sequence count.
    pub(crate) routes: Routes,
}

impl Drop for BusTables {
    fn drop(self) {
        let BusTables {
            pipes: _pipes,
            subs: _subs,
            routes: _routes,
        } = self;
    }
}

impl Model for BusTables {
    ghost use Rattle.bus_routes.specs.Tables.{Tables};

    ghost Value = { Tables };

    ghost use Rattle.bus_routes.specs.Inside.{tables_in, AreTied};

    ghost view = { λ t. tables_in t.pipes t.subs t.routes };

    ghost invariant = { λ t. AreTied t.pipes t.subs t.routes };
}

impl BusTables {
    /// No pipe, subscription or route, with the room that the limits ask for. By the code, no later
    /// call takes memory.
    ///
    /// # Errors
    /// If memory runs out.
    pub fn new(alloc: Global, config: &Config) -> Result<BusTables, AllocError>
        ensures { IfOk result (λ tables. tables ≡ opened (limits_of config.now)) }
    {
        Ok(BusTables {
            pipes: PipeTable::new(alloc, config.pipes, config.depth)?,
            subs: Subs::new(alloc, config.msgids * config.dests)?,
            routes: Routes::new(alloc, config.msgids, config.dests, config.starts.again())?,
        })
    }

    /// The place of the id's route; None if and only if the id has none. By the code, takes a
    /// constant time.
    pub fn route_of(&self, id: u16) -> Option<u32>
        ensures place { result ≡ way_of self.now.routes id }
        ensures some { is_some result ≡ has_way self.now.routes id }
    {
        self.routes.route_of(id)
    }

    /// Does the same if the live pipe of this number is the application's; None if and only if
    /// it has no such pipe, and then nothing changes. By the code, the number is looked up once.
    pub fn take_if_owned(&mut self, app: AppNo, number: u32) -> Option<LastItems>
        ensures owned { is_some result ≡ owns self.old.pipes app number }
        ensures before { IfSome result (λ items. items.before ≡ last_on self.old.pipes number) }
        ensures oldest { IfSome result (λ items. items.after ≡ oldest_on self.old.pipes number) }
        ensures rows { IfSome result (λ items. self.new ≡
            record self.old { pipes = with_pipe after_receive number self.old.pipes }) }
        ensures same { result ≡ None → self.new ≡ self.old }
    {
        let (before, oldest) = self.pipes.take_if_owned(app, number)?;
        count_down(&mut self.subs, oldest);
        Some(LastItems {
            before: item_row(before),
            after: item_row(oldest),
        })
    }
}
