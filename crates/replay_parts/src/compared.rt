//! A report that is compared, from its front, with what has to be there.
ghost use Rattle.std.specs.Prelude.{◌≡◌, ◌↔◌, ℕ, ◌+◌, ◌^◌, ◌<◌, ◌≤◌, [], ◌++◌, None, codes, decimal, IsTrue, IfSome, IsOk, IfOk};
ghost use Rattle.run_check.specs.Fronts.{wrong_line};
ghost use Rattle.run_check.specs.Judged.{Begins, entry_head};
ghost use Rattle.replay_parts.specs.Compared.{Takes};

use crate::slices::{alike_len, behind, line_ends};
use fsw_base::AppNo;
use itoa::Buffer;
use std::alloc::AllocError;
use std::marker::Model;

/// A report that is compared, from its front, with what has to be there.
#[derive(Drop)]
pub struct ComparedText<'a> {
    // What wasn't compared yet.
    rest: &'a [u8],
    // How many lines end in what was.
    lines: usize,
}

impl<'a> Model for ComparedText<'a> {
    ghost use Rattle.std.specs.Prelude.{◌+◌, ◌<◌, ◌^◌, length};
    ghost use Rattle.replay_parts.specs.Compared.{Compared};

    ghost Value = { Compared };

    ghost view = { λ t. record { rest = t.rest.now; lines = t.lines } };

    ghost invariant = { λ t. t.lines + length t.rest.now < 2 ^ 63 };
}

impl<'a> ComparedText<'a> {
    /// A report of which nothing was compared yet.
    pub fn new(report: &'a [u8]) -> ComparedText<'a>
        ensures { result ≡ record { rest = report.now; lines = 0 } }
    {
        ComparedText {
            rest: report,
            lines: 0,
        }
    }

    /// Whether nothing is left.
    pub fn is_at_end(&self) -> bool
        ensures { IsTrue result ↔ (self.now.rest ≡ []) }
    {
        self.rest.is_empty()
    }

    /// Goes past this text; false, and past nothing, if it isn't there.
    pub fn take(&mut self, text: &[u8]) -> bool
        ensures { Takes result self.old self.new text.now }
    {
        match behind(self.rest, text) {
            Some(rest) => {
                self.lines += line_ends(text);
                self.rest = rest;
                true
            }
            None => false,
        }
    }

    /// The application, of so many, with whose number the line of the entry of this number begins;
    /// None if the line begins with the number of none of them.
    pub fn caller(&self, number: u32, apps: u32) -> Option<AppNo>
        requires { apps ≤ 16 }
        ensures some { IfSome result
            (λ app. (app ≤ apps) × Begins self.now.rest (entry_head number app)) }
        ensures only { IfSome result (λ app. (other : ℕ) → other ≤ apps →
            Begins self.now.rest (entry_head number other) → other ≡ app) }
        ensures none { result ≡ None → (app : ℕ) → 1 ≤ app → app ≤ apps →
            ¬ Begins self.now.rest (entry_head number app) }
    {
        let text = behind(self.rest, Buffer::new().format(number).as_bytes())?;
        let text = behind(text, b" a")?;
        app_in(text, apps)
    }

    /// The number, from 1, of the line in which the report isn't this text from here on.
    ///
    /// # Errors
    /// `AllocError` if and only if the number doesn't have 32 bits.
    pub fn wrong_line(&self, text: &[u8]) -> Result<u32, AllocError>
        ensures line { IfOk result
            (λ line. line ≡ self.now.lines + wrong_line self.now.rest text.now) }
        ensures fits { IsOk result ↔
            (self.now.lines + wrong_line self.now.rest text.now < 2 ^ 32) }
    {
        let same = alike_len(self.rest, text);
        let line = self.lines + line_ends(&self.rest[..same]) + 1;
        match u32::try_from(line) {
            Ok(line) => Ok(line),
            Err(_) => Err(AllocError),
        }
    }
}

// The application, of so many, with whose number and a blank a text begins.
fn app_in(text: &[u8], apps: u32) -> Option<AppNo>
    requires { apps ≤ 16 }
    ensures some { IfSome result
        (λ app. (app ≤ apps) × Begins text.now (decimal app ++ codes " ")) }
    ensures none { result ≡ None → (app : ℕ) → 1 ≤ app → app ≤ apps →
        ¬ Begins text.now (decimal app ++ codes " ") }
{
    for number in 1..apps + 1 {
        if is_app(text, number) {
            return AppNo::try_new(number);
        }
    }
    None
}

// Whether a text begins with an application's number and a blank.
fn is_app(text: &[u8], number: u32) -> bool
    ensures { IsTrue result ↔ Begins text.now (decimal number ++ codes " ") }
{
    match behind(text, Buffer::new().format(number).as_bytes()) {
        Some(text) => behind(text, b" ").is_some(),
        None => false,
    }
}
