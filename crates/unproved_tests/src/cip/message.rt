//! Encoding, odd lengths, and fields that no command prints.

ghost use Rattle.std.specs.Prelude.{◌≡◌};

use arrayvec::ArrayVec;
use cip_message::{
    CloseRequest, Full, Key, LargeParameters, LengthFault, OpenRequest, Parameters, Path,
    PathFault, ReplyFault, ReplyView, RequestView, Transport, read_key, read_path, write_path,
    write_reply,
};
use std::test::*;

const NARROW: Path = Path {
    class: 255,
    instance: 1,
    attribute: None,
    member: None,
};

const WIDE: Path = Path {
    class: 256,
    instance: 0x1_0000,
    attribute: None,
    member: None,
};

const EVERY_PART: Path = Path {
    class: 4,
    instance: 0x1_0000,
    attribute: Some(3),
    member: Some(256),
};

/// The path of the Connection Manager.
const MANAGER: [u8; 4] = [0x20, 2, 0x24, 1];

/// Paths with an odd number of bytes. A request cannot have one, since its path size is in words.
#[test]
fn odd_paths(rt: HostRuntime) {
    let rows: [(&[u8], PathFault); 3] = [
        (&[0x20], PathFault::Cut),
        (&[0x20, 1, 0x24, 1, 0x30, 1, 0x35], PathFault::Segment),
        (&[0x20, 1, 0x20], PathFault::Cut),
    ];
    for (text, fault) in rows {
        assert_eq!(rt; read_path(text), Err(fault));
    }
}

#[test]
fn paths_written(rt: HostRuntime) {
    let rows: [(Path, &[u8]); 3] = [
        (NARROW, &[0x20, 0xff, 0x24, 1]),
        (WIDE, &[0x21, 0, 0, 1, 0x26, 0, 0, 0, 1, 0]),
        (
            EVERY_PART,
            &[0x20, 4, 0x26, 0, 0, 0, 1, 0, 0x30, 3, 0x29, 0, 0, 1],
        ),
    ];
    for (path, text) in rows {
        let mut out: ArrayVec<u8, 16> = ArrayVec::new();
        assert_eq!(rt; write_path(&mut out, path), Ok(()));
        assert_eq!(rt; out.as_slice(), text);
    }
}

#[test]
fn path_without_room(rt: HostRuntime) {
    let mut out: ArrayVec<u8, 4> = ArrayVec::new();
    assert_eq!(rt; write_path(&mut out, NARROW), Ok(()));
    assert_eq!(rt; write_path(&mut out, NARROW), Err(Full));
    assert_eq!(rt; out.as_slice(), [0x20, 0xff, 0x24, 1].as_slice());
}

#[test]
fn request_written(rt: HostRuntime) {
    let path = [0x20, 1, 0x24, 2];
    let request = RequestView {
        service: 0x0e,
        path: &path,
        data: &[5, 6, 7],
    };
    let mut out: ArrayVec<u8, 9> = ArrayVec::new();
    assert_eq!(rt; request.write(&mut out), Ok(()));
    assert_eq!(rt;
        out.as_slice(),
        [0x0e, 2, 0x20, 1, 0x24, 2, 5, 6, 7].as_slice()
    );
}

#[test]
fn reply_written(rt: HostRuntime) {
    let mut out: ArrayVec<u8, 9> = ArrayVec::new();
    assert_eq!(rt;
        write_reply(&mut out, 0x54, 1, &[0x0109, 0x0203], &[7]),
        Ok(())
    );
    assert_eq!(rt; out.as_slice(), [0xd4, 0, 1, 2, 9, 1, 3, 2, 7].as_slice());
    assert_eq!(rt; write_reply(&mut out, 0x54, 1, &[], &[]), Err(Full));
}

/// `enip show` never prints this fault, since it takes a message with bit 7 clear for a request.
#[test]
fn no_reply(rt: HostRuntime) {
    assert!(rt; matches!(ReplyView::read(&[0x0e, 0, 0, 0]), Err(ReplyFault::NotReply)));
    assert_eq!(rt; ReplyFault::NotReply.number(), 2);
}

#[test]
fn numbers_of_lengths(rt: HostRuntime) {
    assert_eq!(rt; LengthFault::Short.number(), 1);
    assert_eq!(rt; LengthFault::Long.number(), 2);
}

#[test]
fn keys_written(rt: HostRuntime) {
    for (compatible, major) in [(true, 0xff), (false, 0x7f)] {
        let key = Key {
            vendor: 0x0102,
            device_type: 0x0304,
            product_code: 0x0506,
            major: 0x7f,
            compatible,
            minor: 8,
        };
        let mut out: ArrayVec<u8, 10> = ArrayVec::new();
        assert_eq!(rt; key.write(&mut out), Ok(()));
        assert_eq!(rt;
            out.as_slice(),
            [0x34, 4, 2, 1, 4, 3, 6, 5, major, 8].as_slice()
        );
        assert_eq!(rt; read_key(out.as_slice()), Some(key));
        assert_eq!(rt; key.write(&mut out), Err(Full));
        assert_eq!(rt; out.len(), 10);
    }
}

/// A key with an odd number of bytes. A request cannot have one.
#[test]
fn odd_key(rt: HostRuntime) {
    assert_eq!(rt; read_key(&[0x34, 4, 0, 0, 0, 0, 0, 0, 0]), None);
}

const OPEN: [u8; 40] = [
    0x0a, 0x0e, 1, 0, 0, 0, 0x44, 0x33, 0x22, 0x11, 3, 0, 0x42, 0, 0x78, 0x56, 0x34, 0x12, 2, 0, 0,
    0, 0x80, 0x84, 0x1e, 0, 0xf4, 0x43, 0x81, 0x84, 0x1e, 0, 0xf5, 0x43, 0xa3, 2, 0x20, 2, 0x24, 1,
];

/// O->T RPI 2,000,000 microseconds and size 4,002, T->O RPI 2,000,001 and size 4,001, both point to point.
const LARGE_OPEN: [u8; 44] =
    *b"\x0a\x0e\x01\x00\x00\x00\x44\x33\x22\x11\x03\x00\x42\x00\x78\x56\x34\x12\x02\0\0\0\
    \x80\x84\x1e\x00\xa2\x0f\x00\x42\x81\x84\x1e\x00\xa1\x0f\x00\xc2\xa3\x02\x20\x02\x24\x01";

const CLOSE: [u8; 16] = [
    0x0a, 0x0e, 1, 0, 0x42, 0, 0x78, 0x56, 0x34, 0x12, 2, 0, 0x20, 2, 0x24, 1,
];

/// The open request with those fields.
fn open_with<P>(o_to_t_parameters: P, t_to_o_parameters: P, path: &[u8]) -> OpenRequest<'_, P>
    ensures { result.path.now ≡ path.now }
{
    OpenRequest {
        priority_and_tick_time: 0x0a,
        timeout_ticks: 0x0e,
        o_to_t_id: 1,
        t_to_o_id: 0x1122_3344,
        connection_serial: 3,
        originator_vendor: 66,
        originator_serial: 0x1234_5678,
        timeout_multiplier: 2,
        o_to_t_rpi: 2_000_000,
        o_to_t_parameters,
        t_to_o_rpi: 2_000_001,
        t_to_o_parameters,
        transport: Transport { bits: 0xa3 },
        path,
    }
}

/// The fields of an open that the device ignores.
#[test]
fn open_read(rt: HostRuntime) -> Result<(), Fail> {
    let open = OpenRequest::read(&OPEN).ok().ok_or("no open request")?;
    assert_eq!(rt;
        (
            open.priority_and_tick_time,
            open.timeout_ticks,
            open.o_to_t_id
        ),
        (0x0a, 0x0e, 1)
    );
    Ok(())
}

#[test]
fn large_open_read(rt: HostRuntime) -> Result<(), Fail> {
    let open = OpenRequest::read_large(&LARGE_OPEN)
        .ok()
        .ok_or("no large open request")?;
    assert_eq!(rt;
        (
            open.priority_and_tick_time,
            open.timeout_ticks,
            open.o_to_t_id
        ),
        (0x0a, 0x0e, 1)
    );
    assert_eq!(rt;
        (open.o_to_t_parameters.bits, open.t_to_o_parameters.bits),
        (0x4200_0fa2, 0xc200_0fa1)
    );
    Ok(())
}

/// The fields of a close that the device ignores.
#[test]
fn close_read(rt: HostRuntime) -> Result<(), Fail> {
    let close = CloseRequest::read(&CLOSE).ok().ok_or("no close request")?;
    assert_eq!(rt;
        (close.priority_and_tick_time, close.timeout_ticks),
        (0x0a, 0x0e)
    );
    assert_eq!(rt; close.path, MANAGER.as_slice());
    Ok(())
}

#[test]
fn open_written(rt: HostRuntime) {
    let open = open_with(
        Parameters { bits: 0x43f4 },
        Parameters { bits: 0x43f5 },
        &MANAGER,
    );
    let mut out: ArrayVec<u8, 40> = ArrayVec::new();
    assert_eq!(rt; open.write(&mut out), Ok(()));
    assert_eq!(rt; out.as_slice(), OPEN.as_slice());
    assert_eq!(rt; open.write(&mut out), Err(Full));
    assert_eq!(rt; out.len(), 40);
}

#[test]
fn large_open_written(rt: HostRuntime) {
    let open = open_with(
        LargeParameters { bits: 0x4200_0fa2 },
        LargeParameters { bits: 0xc200_0fa1 },
        &MANAGER,
    );
    let mut out: ArrayVec<u8, 44> = ArrayVec::new();
    assert_eq!(rt; open.write_large(&mut out), Ok(()));
    assert_eq!(rt; out.as_slice(), LARGE_OPEN.as_slice());
    assert_eq!(rt; open.write_large(&mut out), Err(Full));
    assert_eq!(rt; out.len(), 44);
}

#[test]
fn close_written(rt: HostRuntime) {
    let close = CloseRequest {
        priority_and_tick_time: 0x0a,
        timeout_ticks: 0x0e,
        connection_serial: 1,
        originator_vendor: 66,
        originator_serial: 0x1234_5678,
        path: &MANAGER,
    };
    let mut out: ArrayVec<u8, 16> = ArrayVec::new();
    assert_eq!(rt; close.write(&mut out), Ok(()));
    assert_eq!(rt; out.as_slice(), CLOSE.as_slice());
}

/// Connection type and size, in bits 30 and 29, and in bits 15 to 0. The device does not show the size of other
/// types.
#[test]
fn large_parameters(rt: HostRuntime) {
    let rows = [
        (0x4200_0fa2, 2, 4_002),
        (0xdfff_0200, 2, 0x0200),
        (0x2000_ffff, 1, 0xffff),
        (0x6000_0000, 3, 0),
        (0x0000_4200, 0, 0x4200),
        (0x9e00_01ff, 0, 511),
    ];
    for (bits, connection_type, size) in rows {
        let parameters = LargeParameters { bits };
        assert_eq!(rt; parameters.connection_type(), connection_type, "{bits}");
        assert_eq!(rt; parameters.size(), size, "{bits}");
    }
}
