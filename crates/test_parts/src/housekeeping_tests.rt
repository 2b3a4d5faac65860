//! A packet whose bytes an executable model of the bus gave.
use housekeeping::{CounterName, Counters, InUse, PACKET_BYTES};

// Takes what may be handed to another thread.
fn may_change_threads<T: Send>(_value: &T) {}

// Counts so many events.
fn tick_by(counters: &mut Counters, which: CounterName, times: u32) {
    for _ in 0..times {
        counters.tick(which);
    }
}

// The model's packet for the counts and numbers of the test below: header, ten counters, four
// numbers in use, two zeros.
const MODEL_PACKET: [u8; PACKET_BYTES] = [
    0x08, 0x03, 0xC0, 0x00, 0x00, 0x39, //
    0x00, 0x00, 0x00, 0x01, 0x00, 0x00, 0x01, 0x02, 0x00, 0x00, 0x00, 0x03, //
    0x00, 0x00, 0x00, 0x04, 0x00, 0x00, 0x00, 0x05, 0x00, 0x00, 0x00, 0x06, //
    0x00, 0x00, 0x00, 0x07, 0x00, 0x00, 0x00, 0x08, 0x00, 0x00, 0x00, 0x09, //
    0x00, 0x00, 0x00, 0x0A, //
    0x00, 0x00, 0x00, 0x07, 0x00, 0x00, 0x00, 0x03, 0x00, 0x00, 0x00, 0x06, //
    0x00, 0x00, 0x02, 0x10, //
    0x00, 0x00,
];

#[test]
fn the_packet_has_the_bytes_of_the_model(rt: HostRuntime) {
    let rows = [
        (CounterName::Nosub, 1),
        (CounterName::Send, 258),
        (CounterName::Recv, 3),
        (CounterName::Create, 4),
        (CounterName::Sub, 5),
        (CounterName::Opts, 6),
        (CounterName::Find, 7),
        (CounterName::Dup, 8),
        (CounterName::Limit, 9),
        (CounterName::Overflow, 10),
    ];
    let mut counters = Counters::new();
    for (which, times) in rows {
        tick_by(&mut counters, which, times);
        assert_eq!(rt; counters.at(which), times);
    }
    let now = InUse {
        msgids: 7,
        pipes: 3,
        subs: 6,
        buffers: 3,
        bytes: 528,
    };
    let mut packet = [0xFF; PACKET_BYTES];
    counters.packet(now, &mut packet);
    assert_eq!(rt; packet.as_slice(), MODEL_PACKET.as_slice());
    may_change_threads(&counters);
}
