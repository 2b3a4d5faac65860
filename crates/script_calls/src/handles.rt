//! An application's registers of table handles.
ghost use Rattle.std.specs.Prelude.{◌≡◌, slice_index};
ghost use Rattle.script_runs.specs.TableTrace.{first_handles, handle_of, handles_after};

use crate::registers::{set, value_in};
use script_lines::{Line, REGISTERS};
use std::marker::Model;
use tbl_words::TblAnswer;

/// An application's registers of table handles, `t0` to `t63`, which hold the numbers that its
/// calls of the tables answered.
pub struct Handles {
    handles: [u32; REGISTERS],
}

impl Drop for Handles {
    fn drop(self) {
        let Handles { handles: _handles } = self;
    }
}

impl Model for Handles {
    ghost use Rattle.std.specs.Prelude.{ℕ, List};

    ghost Value = { List ℕ };

    ghost view = { λ h. h.handles };
}

impl Handles {
    /// Before the first line all are 0.
    pub fn new() -> Handles
        ensures { result ≡ first_handles }
    {
        Handles {
            handles: [0; REGISTERS],
        }
    }

    /// The number in a register; 0 if there is no such register.
    #[inline]
    pub fn at(&self, register: u32) -> u32
        ensures { result ≡ slice_index self.now register }
    {
        value_in(&self.handles, register)
    }

    /// Notes what a line's call was answered.
    #[inline]
    #[tactic(auto, unfolding(script_runs::specs::TableTrace::handles_after))]
    pub fn note(&mut self, line: &Line, answer: &TblAnswer)
        ensures { self.new ≡ handles_after self.old line.now answer.now }
    {
        match line {
            Line::TableRegister { handle, .. } => {
                set(&mut self.handles, *handle, handle_of(answer));
            }
            Line::TableShare { handle, .. } => set(&mut self.handles, *handle, handle_of(answer)),
            _ => {}
        }
    }
}

// The handle of a successful answer, 0 of a refusal.
#[inline]
fn handle_of(answer: &TblAnswer) -> u32
    ensures { result ≡ handle_of answer.now }
{
    match answer {
        TblAnswer::Number(number) => *number,
        TblAnswer::Duplicate(number) => *number,
        _ => 0,
    }
}
