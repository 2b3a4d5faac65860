//! What holds of the send numbers of every history of the bus.
ghost use Rattle.bus_words.specs.Numbers.{NumbersAreNew, NumbersInOrder};

/// Send numbers are given as 1, 2, 3 and so on: to each accepted message that somebody subscribes
/// to, and to each buffer. So a number that is given is greater than all before it, and none is
/// given twice; a buffer that is transmitted keeps its own. Does nothing.
pub fn send_numbers_are_new()
    ensures in_order { NumbersInOrder }
    ensures new { NumbersAreNew }
{}
