//! The sum of bytes.
ghost use Rattle.std.specs.Prelude.{◌≡◌, ◌≤◌, ◌*◌, length, sum};

// How many bytes a piece has. Of pieces whose length it knows, the compiler has a vector's bytes
// added up by one instruction.
const PIECE: usize = 64;

/// The sum of at most 16,000,000 bytes, which 32 bits hold.
pub fn sum_of(bytes: &[u8]) -> u32
    requires { length bytes.now ≤ 16000000 }
    ensures sum { result ≡ sum bytes.now }
    ensures small { result ≤ length bytes.now * 255 }
{
    let (pieces, rest) = bytes.as_chunks::<PIECE>();
    let mut total = 0;
    for piece in pieces {
        total += u32::from(sum_of_piece(piece));
    }
    total + u32::from(sum_of_piece(rest))
}

// The sum of a piece, or of the bytes that are left, which 16 bits hold.
fn sum_of_piece(piece: &[u8]) -> u16
    requires { length piece.now ≤ 64 }
    ensures sum { result ≡ sum piece.now }
    ensures small { result ≤ length piece.now * 255 }
{
    let mut total = 0;
    for byte in piece {
        total += u16::from(*byte);
    }
    total
}
