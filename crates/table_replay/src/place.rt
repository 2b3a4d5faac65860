//! Where an application is among its lines at the tables.
ghost use Rattle.std.specs.Prelude.{◌≡◌, ◌<◌, ◌++◌, true, drop, IfOk};
ghost use Rattle.std.specs.Option.{option_map, option_to_list};
ghost use Rattle.std.specs.Result.{OnOk};
ghost use Rattle.tbl_words.specs.Entries.{call_of};
ghost use Rattle.run_check.specs.Places.{made_at};
ghost use Rattle.run_check.specs.TablePlaces.{behind_at_tables, first_table_place, passed_at_tables, past_at_tables, settled_at_tables};
ghost use Rattle.table_replay.specs.Places.{call_at, content_at, is_before_unseen};

use crate::receipts::{address_receipt, shown_receipt};
use app_script::App;
use bus_words::Receipt;
use fsw_base::AppNo;
use list_tables::ListTables;
use replay_parts::MadeReceipt;
use script_calls::{Handles, content_made, is_table_line, table_call};
use script_lines::Line;
use std::alloc::{AllocError, Global};
use std::marker::Model;
use tbl_words::{TblAnswer, TblCall};

/// Where an application is among its lines at the tables: past those that they don't see.
#[derive(Drop)]
pub(crate) struct AppPlace {
    // The place of its next line.
    place: usize,
    // Its registers of handles.
    handles: Handles,
    // The receipts of its lines so far.
    receipts: Vec<MadeReceipt>,
}

impl Model for AppPlace {
    ghost use Rattle.run_check.specs.TablePlaces.{TablePlace};

    ghost Value = { TablePlace };

    ghost view = { λ p.
        record { place = p.place; handles = p.handles; receipts = p.receipts.items } };
}

impl AppPlace {
    /// Before the first line.
    pub(crate) fn new(alloc: Global) -> AppPlace
        ensures { result ≡ first_table_place }
    {
        AppPlace {
            place: 0,
            handles: Handles::new(),
            receipts: Vec::new(alloc),
        }
    }

    /// The receipts of its lines so far.
    pub(crate) fn receipts(&self) -> &[MadeReceipt]
        ensures { result.now ≡ self.now.receipts }
    {
        self.receipts.as_slice()
    }

    /// The bytes that its next line loads; none if it loads none.
    pub(crate) fn content(&self, alloc: Global, app: &App) -> Result<Vec<u8>, AllocError>
        ensures { IfOk result (λ made. made.items ≡ content_at app.now.lines self.now) }
    {
        if self.place < app.lines() {
            content_made(alloc, app.line(self.place))
        } else {
            Ok(Vec::new(alloc))
        }
    }

    /// The call that comes next: that of its next line, or the end behind them all. `made` are the
    /// bytes that the line loads.
    pub(crate) fn next_call<'a>(&self, app: &'a App, made: &'a [u8]) -> Option<TblCall<'a>>
        requires { made.now ≡ content_at app.now.lines self.now }
        ensures { option_map call_of result ≡ call_at app.now.lines self.now }
    {
        if self.place < app.lines() {
            table_call(&self.handles, app.line(self.place), made)
        } else {
            Some(TblCall::End)
        }
    }

    /// Goes past the lines that the tables don't see.
    ///
    /// # Errors
    /// `AllocError` if memory runs out.
    pub(crate) fn pass(
        &mut self,
        who: AppNo,
        tables: &ListTables,
        app: &App,
    ) -> Result<(), AllocError>
        ensures { OnOk result
            (self.new ≡
            passed_at_tables who tables.now.state (drop self.old.place app.now.lines) self.old) }
    {
        while self.is_before_unseen(app) {
            self.pass_line(who, tables, app.line(self.place))?;
        }
        Ok(())
    }

    // Whether its next line is one that the tables don't see.
    fn is_before_unseen(&self, app: &App) -> bool
        ensures unseen { result ≡ is_before_unseen app.now.lines self.now }
        ensures few { result ≡ true → self.now.place < 20000 }
    {
        self.place < app.lines() && !is_table_line(app.line(self.place))
    }

    // Goes past a line that the tables don't see.
    fn pass_line(&mut self, who: AppNo, tables: &ListTables, line: &Line) -> Result<(), AllocError>
        requires { self.old.place < 20000 }
        ensures { OnOk result
            (self.new ≡ past_at_tables who tables.now.state line.now self.old) }
    {
        let receipt = shown_receipt(tables, who, &self.handles, line)?;
        self.note(receipt)?;
        self.place += 1;
        Ok(())
    }

    /// Goes on behind its next call, which was so answered and left the tables so.
    ///
    /// # Errors
    /// `AllocError` if memory runs out.
    pub(crate) fn settle(
        &mut self,
        who: AppNo,
        tables: &ListTables,
        app: &App,
        call: &TblCall<'_>,
        answer: &TblAnswer,
    ) -> Result<(), AllocError>
        ensures { OnOk result
            (self.new ≡
            settled_at_tables who tables.now.state app.now.lines (call_of call.now) answer.now
            self.old) }
    {
        if self.place < app.lines() {
            self.go_behind(who, tables, app.line(self.place), call, answer)?;
            self.pass(who, tables, app)?;
        }
        Ok(())
    }

    // Goes behind a line whose call was so answered.
    fn go_behind(
        &mut self,
        who: AppNo,
        tables: &ListTables,
        line: &Line,
        call: &TblCall<'_>,
        answer: &TblAnswer,
    ) -> Result<(), AllocError>
        requires { self.old.place < 20000 }
        ensures { OnOk result
            (self.new ≡
            behind_at_tables who tables.now.state line.now (call_of call.now) answer.now
            self.old) }
    {
        let receipt = address_receipt(tables, who, call, answer)?;
        self.note(receipt)?;
        self.handles.note(line, answer);
        self.place += 1;
        Ok(())
    }

    // Its next line made this receipt, if any.
    fn note(&mut self, receipt: Option<Receipt>) -> Result<(), AllocError>
        ensures { OnOk result
            (self.new ≡
            record self.old {
              receipts = self.old.receipts ++ made_at self.old.place (option_to_list receipt);
            }) }
    {
        if let Some(receipt) = receipt {
            let place = self.place;
            self.receipts.push(MadeReceipt { place, receipt })?;
        }
        Ok(())
    }
}
