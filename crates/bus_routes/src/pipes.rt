//! Pipes.
ghost use Rattle.std.specs.Prelude.{◌≡◌, ◌==◌, ◌+◌, ◌<◌, ◌≤◌, ◌^◌, ◌++◌, ◌∷◌, [], not, length, filter, None};
ghost use Rattle.std.specs.Option.{option_map};
ghost use Rattle.bus_words.specs.Pipes.{pipe_at, owns, oldest_on, last_on, with_pipe, with_bits, new_pipe, IsRising, without_pipe, pipe_named, first_owned};
ghost use Rattle.bus_routes.specs.Rows.{last_row_item};

use crate::ending::end_of_pipe;
use crate::making::item_row;
use crate::pairs::first_of;
use crate::tables::{BusTables, ItemRow};
use bus_words::PipeText;
use fsw_base::AppNo;
use step_count::{Ledger, Steps};

impl BusTables {
    /// How many pipes are live.
    pub fn pipes_len(&self) -> usize
        ensures { result ≡ length self.now.pipes }
    {
        self.pipes.len()
    }

    /// How many pipes were created, which is the newest one's number.
    pub fn pipes_created(&self) -> u32
        ensures { result ≡ self.now.pipes_created }
    {
        self.pipes.pipes_created()
    }

    /// Whether a pipe of this number is live and the application's. By the code, the number is
    /// looked up by halves among the live ones.
    pub fn owns(&self, app: AppNo, number: u32) -> bool
        ensures { result ≡ owns self.now.pipes app number }
    {
        self.pipes.owns(app, number)
    }

    /// The option bits of the live pipe of this number.
    pub fn bits(&self, number: u32) -> Option<u8>
        ensures { result ≡ option_map (λ row. row.bits) (pipe_at self.now.pipes number) }
    {
        self.pipes.bits(number)
    }

    /// The name of the live pipe of this number.
    pub fn name(&self, number: u32) -> Option<PipeText>
        ensures { result ≡ option_map (λ row. row.name) (pipe_at self.now.pipes number) }
    {
        self.pipes.name(number)
    }

    /// The number of the live pipe of this name. By the code, goes along the live pipes up to it.
    pub fn find(&self, name: &[u8]) -> Option<u32>
        ensures { result ≡
            option_map (λ row. row.number) (pipe_named self.now.pipes name.now) }
    {
        self.pipes.find(name)
    }

    /// The number of the live pipe that was created first of the application's. By the code, goes
    /// along the live pipes up to it.
    pub fn first_of(&self, app: AppNo) -> Option<u32>
        ensures { result ≡
            option_map (λ row. row.number) (first_owned self.now.pipes app) }
    {
        self.pipes.first_of(app)
    }

    /// How many messages wait on the live pipe of this number. None if no such pipe is live.
    pub fn waiting_count(&self, number: u32) -> Option<u32>
        ensures { result ≡ option_map (λ row. length row.queue) (pipe_at self.now.pipes number) }
    {
        self.pipes.waiting_count(number)
    }

    /// What waits longest on the live pipe of this number.
    pub fn oldest(&self, number: u32) -> Option<ItemRow>
        ensures { result ≡ oldest_on self.now.pipes number }
    {
        item_row(self.pipes.oldest(number))
    }

    /// What was received last on the application's live pipe of this number.
    pub fn last(&self, app: AppNo, number: u32) -> Option<ItemRow>
        ensures { result ≡ last_row_item self.now.pipes app number }
    {
        if !self.pipes.owns(app, number) {
            return None;
        }
        item_row(self.pipes.last(number))
    }

    /// The live pipes stand in order of number. Does nothing.
    pub fn recall_order(&self)
        ensures { IsRising 0 self.now.pipes }
    {
        self.pipes.recall_order();
    }

    /// Creates a pipe that holds up to `depth` messages, and answers its number: one more than were
    /// created.
    pub fn create_pipe(&mut self, name: &PipeText, owner: AppNo, depth: u32) -> u32
        requires room { length self.old.pipes < self.old.room.pipes }
        requires number { self.old.pipes_created + 1 < 2 ^ 32 }
        requires some { 1 ≤ depth }
        requires depth { depth ≤ self.old.room.depth }
        ensures number { result ≡ self.old.pipes_created + 1 }
        ensures after { self.new ≡ record self.old {
          pipes = self.old.pipes ++ new_pipe (self.old.pipes_created + 1) name.now owner depth ∷ [];
          pipes_created = self.old.pipes_created + 1;
        } }
    {
        self.pipes.create(name, owner, depth).number
    }

    /// Sets the option bits of the live pipe of this number.
    pub fn set_bits(&mut self, number: u32, bits: u8)
        ensures { self.new ≡
            record self.old { pipes = with_pipe (with_bits bits) number self.old.pipes } }
    {
        self.pipes.set_bits(number, bits);
    }

    /// Ends the live pipe of this number, from which every message was taken out, with its
    /// subscriptions; no effect if none is live. By the code, looks at as many subscriptions as
    /// ever were live at once, for each that ends and once more.
    pub fn delete_pipe<L: Ledger>(&mut self, number: u32, steps: &mut Steps<L>)
        requires waits { oldest_on self.old.pipes number ≡ None }
        requires last { last_on self.old.pipes number ≡ None }
        ensures { self.new ≡ record self.old {
          pipes = without_pipe number self.old.pipes;
          subscriptions = filter (λ sub. not (sub.pipe == number)) self.old.subscriptions;
        } }
    {
        end_of_pipe(&mut self.subs, &mut self.routes, number, steps);
        self.pipes.remove(number);
    }
}
