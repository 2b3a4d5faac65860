//! The sum of a message's bytes.
ghost use Rattle.std.specs.Prelude.{◌≡◌, sum};

// So many bytes at most add up to a number of 32 bits.
const PIECE: usize = 16_000_000;

/// The sum of all bytes; 128 bits hold that of any slice.
pub(crate) fn sum_of(bytes: &[u8]) -> u128
    ensures { result ≡ sum bytes.now }
{
    let mut total = 0;
    for piece in bytes.chunks(PIECE) {
        total += u128::from(fsw_base::sum_of(piece));
    }
    total
}
