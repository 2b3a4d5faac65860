//! Where an application is among its lines at the bus.
ghost use Rattle.std.specs.Prelude.{◌≡◌, ◌<◌, ◌++◌, true, drop, IfOk};
ghost use Rattle.std.specs.Option.{option_map, option_to_list};
ghost use Rattle.std.specs.Result.{OnOk};
ghost use Rattle.bus_words.specs.Entries.{call_of};
ghost use Rattle.list_bus.specs.Standings.{standing_in};
ghost use Rattle.run_check.specs.Places.{behind, first_place, looked, made_at, passed, past, settled};
ghost use Rattle.bus_replay.specs.Places.{call_at, content_at, is_before_unseen, line_call_at, place_of, settled_line, waits};

use crate::receipts::{got_receipt, shown_receipt};
use app_script::App;
use bus_words::{BusAnswer, BusCall, Receipt};
use fsw_base::AppNo;
use list_bus::{ListBus, ListStanding};
use replay_parts::MadeReceipt;
use script_calls::{Buffers, Registers, bus_call, is_bus_line, made_bytes};
use script_lines::Line;
use std::alloc::{AllocError, Global};
use std::marker::Model;

/// Where an application is among its lines at the bus: past those that it doesn't see.
#[derive(Drop)]
pub(crate) struct AppPlace {
    // The place of its next line.
    place: usize,
    // Its registers.
    registers: Registers,
    // What it wrote into its unsent buffers.
    buffers: Buffers,
    // The receipts of its lines so far.
    receipts: Vec<MadeReceipt>,
}

impl Model for AppPlace {
    ghost use Rattle.bus_replay.specs.Places.{Kept};

    ghost Value = { Kept };

    ghost view = { λ p.
        record {
          place = p.place;
          registers = p.registers;
          rows = p.buffers;
          receipts = p.receipts.items;
        } };
}

impl AppPlace {
    /// Before the first line.
    pub(crate) fn new(alloc: Global) -> AppPlace
        ensures { place_of result ≡ first_place }
    {
        AppPlace {
            place: 0,
            registers: Registers::new(),
            buffers: Buffers::new(alloc),
            receipts: Vec::new(alloc),
        }
    }

    /// The receipts of its lines so far.
    pub(crate) fn receipts(&self) -> &[MadeReceipt]
        ensures { result.now ≡ self.now.receipts }
    {
        self.receipts.as_slice()
    }

    /// The bytes that its next line's call brings, and the line doesn't spell.
    pub(crate) fn content(&self, alloc: Global, app: &App) -> Result<Vec<u8>, AllocError>
        ensures { IfOk result (λ made. made.items ≡ content_at app.now.lines (place_of self.now)) }
    {
        if self.place < app.lines() {
            made_bytes(alloc, &self.registers, &self.buffers, app.line(self.place))
        } else {
            Ok(Vec::new(alloc))
        }
    }

    /// The call that comes next of one that stands so: a look while it waits; else that of its next
    /// line, or the end behind them all. `made` are the bytes that the line's call brings.
    pub(crate) fn next_call<'a>(
        &self,
        standing: ListStanding,
        app: &'a App,
        made: &'a [u8],
    ) -> Option<BusCall<'a>>
        requires { made.now ≡ content_at app.now.lines (place_of self.now) }
        ensures { option_map call_of result ≡
            call_at (standing_in standing) app.now.lines (place_of self.now) }
    {
        match standing {
            ListStanding::Active => self.line_call(app, made),
            ListStanding::Waiting(pipe) => Some(BusCall::Look { pipe }),
            ListStanding::Ended => None,
        }
    }

    // The call of its next line, or the end behind them all.
    fn line_call<'a>(&self, app: &'a App, made: &'a [u8]) -> Option<BusCall<'a>>
        requires { made.now ≡ content_at app.now.lines (place_of self.now) }
        ensures { option_map call_of result ≡ line_call_at app.now.lines (place_of self.now) }
    {
        if self.place < app.lines() {
            bus_call(&self.registers, &self.buffers, app.line(self.place), made)
        } else {
            Some(BusCall::End)
        }
    }

    /// Goes past the lines that the bus doesn't see.
    pub(crate) fn pass(
        &mut self,
        alloc: Global,
        who: AppNo,
        bus: &ListBus,
        app: &App,
    ) -> Result<(), AllocError>
        ensures { OnOk result
            (place_of self.new ≡
            passed who bus.now.whole.bus (drop self.old.place app.now.lines)
            (place_of self.old)) }
    {
        while self.is_before_unseen(app) {
            self.pass_line(alloc, who, bus, app.line(self.place))?;
        }
        Ok(())
    }

    // Whether its next line is one that the bus doesn't see.
    fn is_before_unseen(&self, app: &App) -> bool
        ensures unseen { result ≡ is_before_unseen app.now.lines (place_of self.now) }
        ensures few { result ≡ true → self.now.place < 20000 }
    {
        self.place < app.lines() && !is_bus_line(app.line(self.place))
    }

    // Goes past a line that the bus doesn't see.
    fn pass_line(
        &mut self,
        alloc: Global,
        who: AppNo,
        bus: &ListBus,
        line: &Line,
    ) -> Result<(), AllocError>
        requires { self.old.place < 20000 }
        ensures { OnOk result
            (place_of self.new ≡ past who bus.now.whole.bus line.now (place_of self.old)) }
    {
        let receipt = shown_receipt(bus, who, &self.registers, line)?;
        self.note(self.place, receipt)?;
        self.buffers.write(alloc, &self.registers, line)?;
        self.place += 1;
        Ok(())
    }

    /// Goes on behind its next call, which was so answered and left the bus so.
    pub(crate) fn settle(
        &mut self,
        alloc: Global,
        who: AppNo,
        bus: &ListBus,
        app: &App,
        call: &BusCall<'_>,
        answer: &BusAnswer,
    ) -> Result<(), AllocError>
        ensures { OnOk result
            (place_of self.new ≡
            settled who bus.now.whole.bus app.now.lines (call_of call.now) answer.now
            (place_of self.old)) }
    {
        match call {
            BusCall::End => Ok(()),
            BusCall::Look { .. } => {
                self.look(who, bus, call, answer)?;
                self.pass(alloc, who, bus, app)
            }
            _ => self.settle_line(alloc, who, bus, app, call, answer),
        }
    }

    // Goes on behind the look that settles the line before.
    fn look(
        &mut self,
        who: AppNo,
        bus: &ListBus,
        call: &BusCall<'_>,
        answer: &BusAnswer,
    ) -> Result<(), AllocError>
        ensures { OnOk result
            (place_of self.new ≡
            looked who bus.now.whole.bus (call_of call.now) answer.now (place_of self.old)) }
    {
        let receipt = got_receipt(bus, who, call, answer)?;
        self.note(self.place.saturating_sub(1), receipt)
    }

    // Goes on behind its next line, whose call was so answered.
    fn settle_line(
        &mut self,
        alloc: Global,
        who: AppNo,
        bus: &ListBus,
        app: &App,
        call: &BusCall<'_>,
        answer: &BusAnswer,
    ) -> Result<(), AllocError>
        ensures { OnOk result
            (place_of self.new ≡
            settled_line who bus.now.whole.bus app.now.lines (call_of call.now) answer.now
            (place_of self.old)) }
    {
        if self.place < app.lines() {
            self.go_behind(alloc, who, bus, app.line(self.place), call, answer)?;
            if !waits(call, answer) {
                self.pass(alloc, who, bus, app)?;
            }
        }
        Ok(())
    }

    // Goes behind a line whose call was so answered.
    fn go_behind(
        &mut self,
        alloc: Global,
        who: AppNo,
        bus: &ListBus,
        line: &Line,
        call: &BusCall<'_>,
        answer: &BusAnswer,
    ) -> Result<(), AllocError>
        requires { self.old.place < 20000 }
        ensures { OnOk result
            (place_of self.new ≡
            behind who bus.now.whole.bus line.now (call_of call.now) answer.now
            (place_of self.old)) }
    {
        let receipt = got_receipt(bus, who, call, answer)?;
        self.note(self.place, receipt)?;
        self.registers.note(line, answer);
        self.buffers.settle(alloc, call, answer)?;
        self.place += 1;
        Ok(())
    }

    // The line at a place made this receipt, if any.
    fn note(&mut self, place: usize, receipt: Option<Receipt>) -> Result<(), AllocError>
        ensures { OnOk result
            (self.new ≡
            record self.old {
              receipts = self.old.receipts ++ made_at place (option_to_list receipt);
            }) }
    {
        if let Some(receipt) = receipt {
            self.receipts.push(MadeReceipt { place, receipt })?;
        }
        Ok(())
    }
}

// Whether a call so answered leaves its application waiting.
fn waits(call: &BusCall<'_>, answer: &BusAnswer) -> bool
    ensures { result ≡ waits (call_of call.now) answer.now }
{
    matches!((call, answer), (BusCall::Pend { .. }, BusAnswer::Pending))
}
