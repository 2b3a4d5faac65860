//! Numbers in decimal, whose digits go straight to the page if they have room.
ghost use Rattle.std.specs.Prelude.{◌≡◌, ◌+◌, ◌/◌, ◌%◌, ◌<◌, ◌≤◌, [], ◌∷◌, ◌++◌, length, decimal, IfSome};
ghost use Rattle.text_page.specs.Pieces.{Puts};
ghost use Rattle.text_page.specs.declared.pages.TheConstants.{PAGE_BYTES};

use crate::pages::{Page, put};
use fsw_base::{Sink, SinkGuard};
use itoa::{Buffer, Integer};

/// An unsigned number, which can be put on a page.
pub trait Number: Integer {
    /// The number, if it has 32 bits.
    fn small(self) -> Option<u32>
        ensures { IfSome result (λ n. decimal n ≡ Self.text self) };
}

impl Number for u8 {
    fn small(self) -> Option<u32> {
        Some(u32::from(self))
    }
}

impl Number for u16 {
    fn small(self) -> Option<u32> {
        Some(u32::from(self))
    }
}

impl Number for u32 {
    fn small(self) -> Option<u32> {
        Some(self)
    }
}

impl Number for usize {
    fn small(self) -> Option<u32> {
        u32::try_from(self).ok()
    }
}

impl Number for u128 {
    fn small(self) -> Option<u32> {
        u32::try_from(self).ok()
    }
}

// A number of 32 bits has so many digits at most.
const MOST_DIGITS: usize = 10;

/// Puts a number in decimal.
pub fn put_number<K: Sink, N: Number>(sink: &mut SinkGuard<'_, K>, page: &mut Page, number: N)
    ensures { Puts sink.old sink.new page.old page.new (N.text number) }
{
    match number.small() {
        Some(small) if page.room() >= MOST_DIGITS => append_number(page, small),
        _ => put(sink, page, Buffer::new().format(number).as_bytes()),
    }
}

// Takes the digits of a number.
fn append_number(page: &mut Page, number: u32)
    requires { length page.old + 10 ≤ PAGE_BYTES }
    ensures { page.new ≡ page.old ++ decimal number }
{
    if number < 10_000 {
        append_short(page, number);
    } else if number < 100_000_000 {
        append_short(page, number / 10_000);
        page.append(&four_digits(number % 10_000));
    } else {
        append_short(page, number / 100_000_000);
        page.append(&four_digits(number / 10_000 % 10_000));
        page.append(&four_digits(number % 10_000));
    }
}

// Takes the digits of a number that has at most four.
#[tactic(auto, using(crate::proofs::Digits::decimal_one, crate::proofs::Digits::decimal_two, crate::proofs::Digits::decimal_three, crate::proofs::Digits::decimal_four))]
fn append_short(page: &mut Page, number: u32)
    requires { (length page.old + 4 ≤ PAGE_BYTES) × (number < 10000) }
    ensures text { page.new ≡ page.old ++ decimal number }
{
    let [thousands, hundreds, tens, ones] = four_digits(number);
    if number < 10 {
        page.append(&[ones]);
    } else if number < 100 {
        page.append(&[tens, ones]);
    } else if number < 1000 {
        page.append(&[hundreds, tens, ones]);
    } else {
        page.append(&[thousands, hundreds, tens, ones]);
    }
}

// The last four digits of a number, with zeros in front.
fn four_digits(number: u32) -> [u8; 4]
    requires { number < 10000 }
    ensures { result ≡ (48 + number / 1000) ∷ (48 + number / 100 % 10) ∷ (48 + number / 10 % 10)
        ∷ (48 + number % 10) ∷ [] }
{
    let front = (number / 100) as u8;
    let back = (number % 100) as u8;
    [
        b'0' + front / 10,
        b'0' + front % 10,
        b'0' + back / 10,
        b'0' + back % 10,
    ]
}
