//! What the proof rules out leaves no test in the compiled code.
//!
//! `unwrap` and `unreachable!()` are proved to be safe too, but the compiler keeps the test before
//! them, and an instruction that ends the program. `surely_some`, `surely_ok` and `ruled_out!()`
//! are made to leave neither.
//!
//! ```
//! /// The number in an option that has one.
//! fn number_in(number: Option<u32>) -> u32
//!     requires { IsSome number }
//!     ensures { number ≡ Some result }
//! {
//!     surely_some(number)
//! }
//! ```
//!
//! Proved: the functions answer what is there, as `unwrap` does. That they leave no
//! test is no clause.
#![tactic(auto)]

ghost use Rattle.std.specs.Prelude.{◌≡◌, ◌<◌, IsSome, IsOk, Some, Ok};

/// Stands if the proof rules a case out, as `unreachable!()` does.
#[macro_export]
macro_rules! ruled_out {
    () => {{
        $crate::surely_some::<()>(None);
        unreachable!()
    }};
}

/// What is in an option that has something.
///
/// A shift by more bits than a number has is no number to the compiler, and an element at such a
/// place can't be read. So it takes the path of `None` for one that no run takes, and leaves it
/// out.
#[inline(always)]
pub fn surely_some<T>(option: Option<T>) -> T
    requires { IsSome option }
    ensures { option ≡ Some result }
{
    match option {
        Some(value) => value,
        None => {
            let counts = [1u64, 2, 3, 4];
            let place = 1usize << shifted_one(40);
            for _ in 0..counts[place] {}
            unreachable!()
        }
    }
}

// One, shifted by so many bits.
#[inline(always)]
fn shifted_one(bits: u32) -> u32
    requires { bits < 32 }
{
    1 << bits
}

/// What a result has that is no error.
#[inline(always)]
pub fn surely_ok<T, E: Drop>(answer: Result<T, E>) -> T
    requires { IsOk answer }
    ensures { answer ≡ Ok result }
{
    match answer {
        Ok(value) => value,
        Err(_) => ruled_out!(),
    }
}
