//! Routes that no command gives or prints: faults of segments, and the ends of the ranges.

use arrayvec::ArrayVec;
use cip_route::{
    Full, HopFault, HopView, LengthFault, Route, RouteFailure, RouteFault, UnconnectedSend,
    read_hop,
};

#[test]
fn hops_read(rt: HostRuntime) {
    let rows = [
        (b"\x01\x00".as_slice(), 1, b"\x00".as_slice()),
        (b"\x0e\xff", 14, b"\xff"),
        (b"\x0f\x0f\x00\x03", 15, b"\x03"),
        (b"\x0f\xff\xff\x00", 65_535, b"\x00"),
        (b"\x12\x0810.0.0.7", 2, b"10.0.0.7"),
        (b"\x12\x0910.0.0.17\x00", 2, b"10.0.0.17"),
        (b"\x1f\x08\x12\x0010.0.0.7", 18, b"10.0.0.7"),
        (b"\x1f\x03\x12\x00abc\x00", 18, b"abc"),
    ];
    for (bytes, port, link) in rows {
        let Ok((hop, rest)) = read_hop(bytes) else {
            panic!(rt; "a hop is not read");
        };
        assert_eq!(rt; hop.port, port);
        assert_eq!(rt; hop.link, link);
        assert!(rt; rest.is_empty());
        let mut out = ArrayVec::<u8, 16>::new();
        assert_eq!(rt; hop.write(&mut out), Ok(()));
        assert_eq!(rt; out.as_slice(), bytes);
    }
}

#[test]
fn hops_refused(rt: HostRuntime) {
    let rows = [
        (b"\x20\x01".as_slice(), HopFault::Kind),
        (b"\xff\x01", HopFault::Kind),
        (b"\x00\x01", HopFault::Port),
        (b"\x10\x02ab", HopFault::Port),
        (b"\x0f\x0e\x00\x01", HopFault::Port),
        (b"\x11\x00", HopFault::Size),
        (b"\x11\x01a\x00", HopFault::Size),
        (b"\x11\x03abc\x01", HopFault::Pad),
        (b"", HopFault::Cut),
        (b"\x01", HopFault::Cut),
        (b"\x0f\x0f", HopFault::Cut),
        (b"\x0f\x0f\x00", HopFault::Cut),
        (b"\x11", HopFault::Cut),
        (b"\x11\x02a", HopFault::Cut),
        (b"\x11\x03abc", HopFault::Cut),
    ];
    for (bytes, fault) in rows {
        match read_hop(bytes) {
            Ok(_) => panic!(rt; "a hop is read"),
            Err(why) => assert_eq!(rt; why, fault),
        }
    }
    let numbers = [
        HopFault::Kind,
        HopFault::Port,
        HopFault::Size,
        HopFault::Pad,
        HopFault::Cut,
    ];
    for (number, fault) in (1..).zip(numbers) {
        assert_eq!(rt; fault.number(), number);
    }
}

#[test]
fn routes_parsed(rt: HostRuntime) {
    let Ok(mut route) = Route::parse(b"1/0,18/10.0.0.17") else {
        panic!(rt; "a route is not parsed");
    };
    assert_eq!(rt;
        route.as_slice(),
        b"\x01\x00\x1f\x09\x12\x0010.0.0.17\x00".as_slice()
    );
    assert!(rt; !route.is_empty());
    assert!(rt; Route::new().is_empty());
    let hop = HopView {
        port: 3,
        link: &[7],
    };
    assert_eq!(rt; route.push(hop), Ok(()));
    for _ in 0..23 {
        assert_eq!(rt; route.push(hop), Ok(()));
    }
    assert_eq!(rt; route.as_slice().len(), 64);
    assert_eq!(rt; route.push(hop), Err(Full));
    assert!(rt; matches!(Route::parse(b"1/0,1"), Err(RouteFault::Form)));
    assert!(rt; matches!(Route::parse(b"0/0"), Err(RouteFault::Port)));
    assert!(rt; matches!(Route::parse(b"1/256"), Err(RouteFault::Link)));
}

#[test]
fn messages_sent(rt: HostRuntime) {
    let spelled =
        b"\x0a\x04\x07\x00\x10\x03\x20\x04\x24\x64\x01\x00\x02\x00\x01\x00\x02\x05".as_slice();
    let Ok(send) = UnconnectedSend::read(spelled) else {
        panic!(rt; "an Unconnected_Send is not read");
    };
    assert_eq!(rt; send.priority_and_tick_time, 0x0a);
    assert_eq!(rt; send.timeout_ticks, 4);
    assert_eq!(rt; send.message, b"\x10\x03\x20\x04\x24\x64\x01".as_slice());
    assert_eq!(rt; send.route, b"\x01\x00\x02\x05".as_slice());
    let mut out = ArrayVec::<u8, 18>::new();
    assert_eq!(rt; send.write(&mut out), Ok(()));
    assert_eq!(rt; out.as_slice(), spelled);
    let mut small = ArrayVec::<u8, 17>::new();
    assert_eq!(rt; send.write(&mut small), Err(Full));
    assert!(rt; small.is_empty());
    for size in 0..spelled.len() {
        assert!(rt;
            matches!(
                UnconnectedSend::read(&spelled[..size]),
                Err(LengthFault::Short)
            )
        );
    }
    let long = b"\x0a\x04\x02\x00\x0e\x00\x00\x00\xff".as_slice();
    assert!(rt; matches!(UnconnectedSend::read(long), Err(LengthFault::Long)));
}

#[test]
fn failures_of_routers(rt: HostRuntime) {
    let rows = [
        (0x0204, RouteFailure::TimedOut),
        (0x0311, RouteFailure::Port),
        (0x0312, RouteFailure::Link),
        (0x0315, RouteFailure::Segment),
    ];
    for (number, failure) in rows {
        assert_eq!(rt; RouteFailure::of(1, number), Some(failure));
        assert_eq!(rt; RouteFailure::of(2, number), None);
        assert_eq!(rt; failure.number(), number);
    }
    assert_eq!(rt; RouteFailure::of(1, 0x0310), None);
}
