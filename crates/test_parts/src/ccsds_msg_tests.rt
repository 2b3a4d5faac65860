//! Packets written out by hand from the layout in the standard.
ghost use Rattle.std.specs.Prelude.{◌≡◌, ◌<◌, ◌≤◌, length};
ghost use Rattle.ccsds_msg.specs.Message.{header_of};

use ccsds_msg::{
    Header, MsgFault, count_of, front, function_code, id_of, read_header, set_count,
    set_function_code, size_of, write_header,
};

#[test]
fn reads_packets_written_by_hand(rt: HostRuntime) {
    let telemetry = Header {
        id: 0x0801,
        flags: 3,
        count: 0,
        size: 8,
    };
    let command = Header {
        id: 0x1806,
        flags: 1,
        count: 0x0123,
        size: 8,
    };
    let seven = Header {
        id: 0x0801,
        flags: 3,
        count: 0,
        size: 7,
    };
    let too_long = MsgFault::Length { said: 9, given: 8 };
    let rows = [
        (
            [0x08, 0x01, 0xC0, 0x00, 0x00, 0x01, 0x11, 0x22],
            Ok(telemetry),
            Ok(telemetry),
        ),
        (
            [0x18, 0x06, 0x41, 0x23, 0x00, 0x01, 0x02, 0xFF],
            Ok(command),
            Ok(command),
        ),
        (
            [0x08, 0x01, 0xC0, 0x00, 0x00, 0x00, 0x11, 0x22],
            Err(MsgFault::Length { said: 7, given: 8 }),
            Ok(seven),
        ),
        (
            [0x08, 0x01, 0xC0, 0x00, 0x00, 0x02, 0x11, 0x22],
            Err(too_long),
            Err(too_long),
        ),
        (
            [0x00, 0x00, 0xC0, 0x00, 0x00, 0x01, 0x11, 0x22],
            Err(MsgFault::BadId(0)),
            Err(MsgFault::BadId(0)),
        ),
        (
            [0x20, 0x01, 0xC0, 0x00, 0x00, 0x01, 0x11, 0x22],
            Err(MsgFault::BadId(0x2001)),
            Err(MsgFault::BadId(0x2001)),
        ),
    ];
    for (bytes, whole, begun) in &rows {
        assert_eq!(rt; read_header(bytes), *whole, "at {bytes:?}");
        assert_eq!(rt; front(bytes), *begun, "at {bytes:?}");
    }
    assert_eq!(rt;
        read_header(&[0x08, 0x01, 0xC0, 0x00, 0x00, 0x00, 0x11]),
        Ok(seven)
    );
    assert_eq!(rt;
        read_header(&[0x08, 0x01, 0xC0, 0x00, 0x00, 0x00]),
        Err(MsgFault::Short)
    );
}

/// Makes a telemetry packet of the whole slice, with this sequence count.
fn stamp(packet: &mut [u8], count: u16)
    requires least { 7 ≤ length packet.old }
    requires most { length packet.old ≤ 65542 }
    requires count { count < 16384 }
    ensures { header_of packet.new
        ≡ record { id = 0x0801; flags = 3; count = count; size = length packet.old } }
{
    write_header(packet, 0x0801, 0);
    set_count(packet, count);
}

#[test]
fn writes_packets_written_by_hand(rt: HostRuntime) {
    let mut packet = [0xEE; 9];
    write_header(&mut packet, 0x1FFF, 0x0123);
    assert_eq!(rt;
        packet,
        [0x1F, 0xFF, 0xC1, 0x23, 0x00, 0x02, 0xEE, 0xEE, 0xEE]
    );
    set_count(&mut packet, 16383);
    assert_eq!(rt;
        packet,
        [0x1F, 0xFF, 0xFF, 0xFF, 0x00, 0x02, 0xEE, 0xEE, 0xEE]
    );
    assert_eq!(rt;
        (id_of(&packet), count_of(&packet), size_of(&packet)),
        (0x1FFF, 16383, 9)
    );
    assert!(rt; set_function_code(&mut packet, 0x05));
    assert_eq!(rt; packet[6], 0x85);
    assert_eq!(rt; function_code(&packet), Some(5));
    stamp(&mut packet, 1);
    assert_eq!(rt;
        packet,
        [0x08, 0x01, 0xC0, 0x01, 0x00, 0x02, 0x85, 0xEE, 0xEE]
    );
    assert_eq!(rt; function_code(&packet), None);
}
