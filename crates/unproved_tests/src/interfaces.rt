//! What Linux says of an interface, as text: texts of several kernels, and texts that are cut or of another form. The
//! numbers were computed by hand.

use std::process::Abort;
use std::test::*;
use system_interface::{Link, LinkTexts, Network};

/// `/proc/net/route` of a computer with two interfaces, one of which has a longer name: 10.0.1.0/24 over `eth0`, and a
/// default route over 10.0.1.1.
const ROUTES: &str =
    "Iface\tDestination\tGateway \tFlags\tRefCnt\tUse\tMetric\tMask\t\tMTU\tWindow\tIRTT\n\
eth0\t00000000\t0101000A\t0003\t0\t0\t100\t00000000\t0\t0\t0\n\
eth0.7\t0000000A\t00000000\t0001\t0\t0\t0\t00FFFFFF\t0\t0\t0\n\
eth0\t0001000A\t00000000\t0001\t0\t0\t100\t00FFFFFF\t0\t0\t0\n";

/// `/proc/net/fib_trie` of the same computer: 10.0.0.7 and 10.0.1.9 are its own.
const ADDRESSES: &str =
    "Main:\n  +-- 0.0.0.0/0 3 0 5\n     |-- 0.0.0.0\n        /0 universe UNICAST\n     +-- 10.0.0.0/23 2 0 2\n        |-- 10.0.0.7\n           /32 host LOCAL\n        |-- 10.0.1.0\n           /24 link UNICAST\n        |-- 10.0.1.9\n           /32 host LOCAL\n        |-- 10.0.1.255\n           /32 link BROADCAST\n";

/// The texts of a link at 1,000 Mbit/s.
const TEXTS: LinkTexts<'static> = LinkTexts {
    address: "02:a0:00:00:0b:09\n",
    flags: "0x1003\n",
    carrier: "1\n",
    speed: "1000\n",
    duplex: "full\n",
};

#[test]
fn address_of_an_interface(rt: HostRuntime) -> Result<(), Fail> {
    let Some(network) = Network::of("eth0", ROUTES, ADDRESSES) else {
        panic!(rt; "eth0 has no address");
    };
    assert!(rt; network.address == [10, 0, 1, 9]);
    assert!(rt; network.mask == [255, 255, 255, 0]);
    assert!(rt; network.gateway == [10, 0, 1, 1]);
    let Some(network) = Network::of("eth0.7", ROUTES, ADDRESSES) else {
        panic!(rt; "eth0.7 has no address");
    };
    assert!(rt; network.address == [10, 0, 0, 7] && network.gateway == [0; 4]);
    for name in ["eth", "eth0.", "eth1", "Iface", ""] {
        assert!(rt; Network::of(name, ROUTES, ADDRESSES).is_none(), "{name}");
    }
    Ok(())
}

#[test]
fn texts_that_are_cut(rt: HostRuntime) -> Result<(), Fail> {
    for end in 0..ROUTES.len() {
        if let Some(network) = Network::of("eth0", &ROUTES[..end], ADDRESSES) {
            assert!(rt; network.address == [10, 0, 1, 9], "{end}");
        }
    }
    for end in 0..ADDRESSES.len() {
        if let Some(network) = Network::of("eth0", ROUTES, &ADDRESSES[..end]) {
            assert!(rt; network.address == [10, 0, 1, 9], "{end}");
        }
    }
    Ok(())
}

#[test]
fn texts_of_another_form(rt: HostRuntime) -> Result<(), Fail> {
    for routes in [
        "",
        "eth0",
        "eth0 0 0 0 0 0 0 0",
        "eth0 0001000A 0 1 0 0 0",
        "eth0 0001000G 00000000 1 0 0 0 00FFFFFF",
        "eth0 100000000 00000000 1 0 0 0 00FFFFFF",
        "eth0 0001000A 00000000 1 0 0 0 -1",
    ] {
        assert!(rt;
            Network::of("eth0", routes, ADDRESSES).is_none(),
            "{routes}"
        );
    }
    for addresses in [
        "/32 host LOCAL",
        "|-- 10.0.1\n/32 host LOCAL",
        "|-- 10.0.1.256\n/32 host LOCAL",
        "|-- 10.0.1.9\n|-- x\n/32 host LOCAL",
        "|-- 10.0.1.9\n/31 host LOCAL",
        "|-- 10.0.2.9\n/32 host LOCAL",
    ] {
        assert!(rt;
            Network::of("eth0", ROUTES, addresses).is_none(),
            "{addresses}"
        );
    }
    Ok(())
}

#[test]
fn state_of_a_link(rt: HostRuntime) -> Result<(), Fail> {
    let link = Link::from_texts(TEXTS);
    assert!(rt; (link.speed, link.flags, link.state) == (1000, 15, 1));
    assert!(rt; link.physical_address == [2, 0xa0, 0, 0, 0x0b, 9]);
    let rows = [
        // an active link: 1; full duplex: 2; negotiated: 12, not negotiated: 16
        ("1", "1000", "half", (1000, 13)),
        ("1", "1000", "unknown", (1000, 13)),
        ("1", "-1", "unknown", (0, 17)),
        ("1", "", "full", (0, 19)),
        ("1", "4294967295", "full", (4_294_967_295, 15)),
        ("1", "4294967296", "full", (0, 19)),
        ("0", "1000", "full", (0, 0)),
        ("", "1000", "full", (0, 0)),
    ];
    for (carrier, speed, duplex, wanted) in rows {
        let link = Link::from_texts(LinkTexts {
            carrier,
            speed,
            duplex,
            ..TEXTS
        });
        assert!(rt;
            (link.speed, link.flags) == wanted,
            "{carrier} {speed} {duplex}"
        );
    }
    Ok(())
}

#[test]
fn flags_and_addresses_of_a_link(rt: HostRuntime) -> Result<(), Fail> {
    for (flags, state) in [
        ("0x1", 1),
        ("0x1002", 2),
        ("0x0", 2),
        ("1003", 0),
        ("", 0),
        ("0x", 0),
        ("0xg", 0),
    ] {
        assert!(rt;
            Link::from_texts(LinkTexts { flags, ..TEXTS }).state == state,
            "{flags}"
        );
    }
    for address in [
        "",
        "02:a0:00:00:0b",
        "02:a0:00:00:0b:09:01",
        "02:a0:00:00:0b:",
        "02:a0:00:00:0b:100",
        "02-a0-00-00-0b-09",
    ] {
        let link = Link::from_texts(LinkTexts { address, ..TEXTS });
        assert!(rt; link.physical_address == [0; 6], "{address}");
    }
    Ok(())
}
