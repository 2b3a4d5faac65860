//! Applications by number.
ghost use Rattle.std.specs.Prelude.{◌≡◌, ℕ, ◌≤◌, ◌↔◌, IsSome, IfSome};
ghost use Rattle.fsw_base.specs.declared.application.TheConstants.{MAX_APPS};

use std::marker::Model;

/// How many applications one run has at most.
pub const MAX_APPS: u32 = 16;

/// An application's number, 1 to [`MAX_APPS`].
#[derive(Clone, Copy, Debug, PartialEq, Eq)]
pub struct AppNo {
    number: u32,
}

impl Model for AppNo {
    ghost Value = { ℕ };

    ghost view = { λ a. a.number };

    ghost invariant = { λ a. (1 ≤ a.number) × (a.number ≤ MAX_APPS) };

    ghost inverse = { λ n. record { number = n } };
}

impl AppNo {
    /// The application of this number; None if and only if it isn't 1 to [`MAX_APPS`].
    pub fn try_new(number: u32) -> Option<AppNo>
        ensures valid { IsSome result ↔ ((1 ≤ number) × (number ≤ MAX_APPS)) }
        ensures value { IfSome result (λ app. app ≡ number) }
    {
        if 1 <= number && number <= MAX_APPS {
            Some(AppNo { number })
        } else {
            None
        }
    }

    /// The number, 1 to [`MAX_APPS`].
    pub fn get(self) -> u32
        ensures value { result ≡ self }
        ensures first { 1 ≤ result }
        ensures last { result ≤ MAX_APPS }
    {
        self.number
    }
}
