//! One application of a script.
ghost use Rattle.std.specs.Prelude.{◌≡◌, ◌+◌, ◌<◌, ◌≤◌, ◌++◌, ◌∷◌, [], length, OnOk, OnErr, Some, slice_get};
ghost use Rattle.script_settings.specs.Accounts.{account_of};

use fsw_base::Budget;
use script_lines::{ByteText, Line};
use script_settings::Account;
use std::alloc::{AllocError, Global};
use std::marker::Model;

/// An application: its name, its call lines in order, and what they take.
pub struct App {
    // Its name.
    name: ByteText,
    // Its call lines, in order.
    lines: Vec<Line>,
    // What these lines take.
    account: Account,
}

impl Drop for App {
    fn drop(self) {
        let App {
            name: _name,
            lines: _lines,
            account: _account,
        } = self;
    }
}

impl Model for App {
    ghost use Rattle.app_script.specs.Script.{Application};

    ghost Value = { Application };

    ghost use Rattle.app_script.specs.Inside.{application_in, Fits};

    ghost view = { application_in };

    ghost invariant = { Fits };
}

// What call lines take.
fn account_of(lines: &[Line]) -> Account
    requires calls { length lines.now ≤ 20000 }
    requires bytes { (account_of lines.now).bytes ≤ 16777216 }
    ensures account { result ≡ account_of lines.now }
    ensures each { result.calls ≡ length lines.now }
    ensures waits { result.waits ≤ length lines.now }
    ensures buffers { result.buffers ≤ length lines.now }
{
    let mut account = Account::new();
    for line in lines {
        let charge = account.charge(line);
        account.count(line, charge as u32);
    }
    account
}

impl App {
    ghost use Rattle.script_settings.specs.Accounts.{charge_of, budget_of};

    /// An application without lines.
    #[tactic(auto, unfolding(script_settings::specs::Accounts::account_of))]
    pub(crate) fn new(alloc: Global, name: ByteText) -> App
        ensures { result ≡ record { name = name; lines = [] } }
    {
        App {
            name,
            lines: Vec::new(alloc),
            account: Account::new(),
        }
    }

    /// An application of this name and these call lines, in order: at most 20000, whose charges
    /// come to at most 16777216 bytes. By the code, it keeps the lines if they are, and takes no
    /// memory.
    pub fn of_lines(name: ByteText, lines: Vec<Line>) -> App
        requires calls { length lines.items ≤ 20000 }
        requires bytes { (account_of lines.items).bytes ≤ 16777216 }
        ensures { result ≡ record { name = name; lines = lines.items } }
    {
        let account = account_of(lines.as_slice());
        App {
            name,
            lines,
            account,
        }
    }

    /// Its name, 1 to 19 letters, digits or underscores.
    pub fn name(&self) -> &[u8]
        ensures { result.now ≡ self.now.name }
    {
        self.name.as_slice()
    }

    /// How many call lines it has.
    pub fn lines(&self) -> usize
        ensures count { result ≡ length self.now.lines }
        ensures few { result ≤ 20000 }
    {
        self.lines.len()
    }

    /// The call line at a place, in the script's order; places count from 0.
    pub fn line(&self, i: usize) -> &Line
        requires { i < length self.now.lines }
        ensures { slice_get self.now.lines i ≡ Some result.now }
    {
        &self.lines[i]
    }

    /// What its lines may add to a run.
    #[tactic(auto, unfolding(script_settings::specs::Accounts::budget_of))]
    pub(crate) fn budget(&self) -> Budget
        ensures { result ≡ budget_of self.now.lines }
    {
        self.account.budget()
    }

    /// The charge of a line that follows its lines, in bytes.
    pub(crate) fn charge(&self, line: &Line) -> usize
        ensures { result ≡ charge_of (account_of self.now.lines) line.now }
    {
        self.account.charge(line)
    }

    /// One line more.
    #[tactic(auto, using(crate::proofs::ScriptLemmas::account_of_push))]
    pub(crate) fn push(&mut self, line: Line, charge: u32) -> Result<(), AllocError>
        requires charge { charge ≡ charge_of (account_of self.old.lines) line }
        requires calls { length self.old.lines < 20000 }
        requires bytes { (account_of self.old.lines).bytes + charge ≤ 16777216 }
        ensures ok { OnOk result
            (self.new ≡ record self.old { lines = self.old.lines ++ line ∷ [] }) }
        ensures err { OnErr result (self.new ≡ self.old) }
    {
        self.lines.reserve(1)?;
        self.account.count(&line, charge);
        self.lines.push_reserved(line);
        Ok(())
    }
}
