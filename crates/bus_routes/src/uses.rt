//! How often the pipes name a send.
ghost use Rattle.std.specs.Prelude.{◌≡◌, ℕ, ◌+◌, ◌==◌, if◌then◌else◌, List};
ghost use Rattle.std.specs.Option.{option_map_or};
ghost use Rattle.bus_words.specs.Bus.{Subscription};
ghost use Rattle.bus_words.specs.Pipes.{pipe_at, with_pipe, after_receive, without_front, without_last, oldest_on, last_on, IsRising};
ghost use Rattle.bus_routes.specs.Rows.{Row, deliver_rows, reached_rows, dropped_rows};
ghost use Rattle.bus_routes.specs.declared.message.Message.{Message};
ghost use Rattle.bus_routes.specs.Uses.{item_use, uses_among, uses_of};

/// Counting the uses of a send. A delivery adds one to its own send for each pipe that it reached,
/// and each message that a pipe dropped for it loses one. If the next message of a pipe is taken,
/// the send of the one received last loses one. If the message that waits longest, or the one
/// received last, is taken out of a pipe, its own send loses one. No other send's count changes.
/// Does nothing.
pub fn recall_uses()
    ensures delivered { (number : ℕ) (message : Message) (subs : List Subscription)
        (rows : List Row) →
        IsRising 0 rows →
        uses_of number (deliver_rows message subs rows) + uses_among number
        (dropped_rows message subs rows) ≡
        uses_of number rows +
        (if message.number == number then reached_rows message subs rows else 0) }
    ensures taken { (number pipe : ℕ) (rows : List Row) → IsRising 0 rows →
        uses_of number (with_pipe after_receive pipe rows) + option_map_or
        (λ row. item_use number row.last) (pipe_at rows pipe) 0 ≡ uses_of number rows }
    ensures front { (number pipe : ℕ) (rows : List Row) → IsRising 0 rows →
        uses_of number (with_pipe without_front pipe rows)
        + item_use number (oldest_on rows pipe) ≡ uses_of number rows }
    ensures last { (number pipe : ℕ) (rows : List Row) → IsRising 0 rows →
        uses_of number (with_pipe without_last pipe rows)
        + item_use number (last_on rows pipe) ≡ uses_of number rows }
{}
