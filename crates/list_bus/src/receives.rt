//! Receives.
ghost use Rattle.std.specs.Prelude.{◌≡◌, ◌-◌, ◌&&◌, not, map, slice_set, if◌then◌else◌, IfOk};
ghost use Rattle.bus_words.specs.declared.calls.BusAnswer.TheVariants.{Sb, Got};
ghost use Rattle.bus_words.specs.declared.history.Call.TheVariants.{Receive, Pend, Look};
ghost use Rattle.bus_words.specs.Bus.{Waiting, is_empty, others_idle};
ghost use Rattle.bus_words.specs.Machine.{oldest_number, pended_answer};
ghost use Rattle.list_bus.specs.Decided.{Decides};
ghost use Rattle.list_bus.specs.Played.{IsPlayed};
ghost use Rattle.list_bus.specs.Standings.{standing_in};

use crate::bus::ListBus;
use crate::standings::{ListStanding, are_others_idle, set_standing};
use bus_words::BusAnswer;
use fsw_base::{AppNo, SbStatus};
use list_pipes::{ListPipe, has_message, oldest_number};
use std::alloc::{AllocError, Global};

impl ListBus {
    /// Takes the oldest message of the pipe.
    pub(crate) fn receive(
        &mut self,
        alloc: Global,
        app: AppNo,
        pipe: u32,
    ) -> Result<BusAnswer, AllocError>
        requires { IsPlayed self.old }
        ensures { IfOk result (λ answer. Decides self.old self.new app (Receive pipe) answer) }
    {
        if let Some(why) = self.unowned_cause(app, pipe) {
            return Ok(BusAnswer::Sb(why));
        }
        let answer = receive_answer(self.messages.pipes(), pipe);
        self.messages.receive(alloc, pipe)?;
        Ok(answer)
    }

    // Whether every application but this one has ended or waits on an empty pipe.
    fn are_others_idle(&self, app: AppNo) -> bool
        ensures { result ≡ others_idle self.now.whole.bus app }
    {
        are_others_idle(self.messages.pipes(), &self.standings, app)
    }

    // Whether no message is on the pipe, and another application may still send one.
    fn must_wait(&self, app: AppNo, pipe: u32) -> bool
        ensures { result ≡
            (is_empty self.now.whole.bus.pipes pipe && not (others_idle self.now.whole.bus app)) }
    {
        !has_message(self.messages.pipes(), pipe) && !self.are_others_idle(app)
    }

    // What a receive answers that may wait.
    fn pended_answer(&self, app: AppNo, pipe: u32) -> BusAnswer
        ensures { result ≡ pended_answer self.now.whole.bus app pipe }
    {
        if has_message(self.messages.pipes(), pipe) {
            BusAnswer::Got(oldest_number(self.messages.pipes(), pipe))
        } else if self.are_others_idle(app) {
            BusAnswer::TimeOut
        } else {
            BusAnswer::Pending
        }
    }

    /// Takes the oldest message of the pipe, or has the application wait.
    pub(crate) fn pend(
        &mut self,
        alloc: Global,
        app: AppNo,
        pipe: u32,
    ) -> Result<BusAnswer, AllocError>
        requires { IsPlayed self.old }
        ensures { IfOk result (λ answer. Decides self.old self.new app (Pend pipe) answer) }
    {
        if let Some(why) = self.unowned_cause(app, pipe) {
            return Ok(BusAnswer::Sb(why));
        }
        let waits = self.must_wait(app, pipe);
        let answer = self.pended_answer(app, pipe);
        self.messages.receive(alloc, pipe)?;
        wait_if(&mut self.standings, waits, app, pipe);
        Ok(answer)
    }

    /// Looks again, while the application waits on the pipe.
    pub(crate) fn look(
        &mut self,
        alloc: Global,
        app: AppNo,
        pipe: u32,
    ) -> Result<BusAnswer, AllocError>
        requires { IsPlayed self.old }
        ensures { IfOk result (λ answer. Decides self.old self.new app (Look pipe) answer) }
    {
        let answer = self.pended_answer(app, pipe);
        if self.must_wait(app, pipe) {
            return Ok(answer);
        }
        self.messages.receive(alloc, pipe)?;
        set_standing(&mut self.standings, app, ListStanding::Active);
        Ok(answer)
    }
}

// What a receive on an application's own pipe answers.
fn receive_answer(pipes: &[ListPipe], pipe: u32) -> BusAnswer
    ensures { result ≡
        (if is_empty pipes.now pipe then Sb SbStatus.NoMessage
        else Got (oldest_number pipes.now pipe)) }
{
    if has_message(pipes, pipe) {
        BusAnswer::Got(oldest_number(pipes, pipe))
    } else {
        BusAnswer::Sb(SbStatus::NoMessage)
    }
}

// The application waits on the pipe, if the test is true.
fn wait_if(standings: &mut Vec<ListStanding>, test: bool, app: AppNo, pipe: u32)
    ensures { map standing_in standings.new.items ≡
        (if test then slice_set (map standing_in standings.old.items) (app - 1) (Waiting pipe)
        else map standing_in standings.old.items) }
{
    if test {
        set_standing(standings, app, ListStanding::Waiting(pipe));
    }
}
