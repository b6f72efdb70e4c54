//! The embedded request of Do_Once.

use super::node::{ADD_FIVE, ADD_ONE, FIVE, LIFE, TOO_LARGE, check, check_counter, node, once};
use cip_objects::{ReplyBuf, Router};
use std::test::Fail;

/// A reply that refuses is kept like any other.
#[test]
fn refused_inside(rt: HostRuntime) -> Result<(), Fail> {
    let mut node = node(rt.alloc())?;
    let add_101 = b"\x32\x02\x20\x64\x24\x01\x65\x00\x00\x00";
    let refused = b"\xcb\x00\x00\x00\x00\xb2\x00\x20\x00";
    check(&rt, &mut node, 504, &once(LIFE, 1, 1, add_101), refused);
    check(&rt, &mut node, 504, &once(LIFE, 1, 1, ADD_FIVE), refused);
    check_counter(&rt, &node, 0, 0);
    check(&rt, &mut node, 504, &once(LIFE, 1, 2, ADD_FIVE), FIVE);
    Ok(())
}

/// The Connection Manager and the ledger can't be reached by an embedded request, in any width of their class.
#[test]
fn barred_inside(rt: HostRuntime) -> Result<(), Fail> {
    let mut node = node(rt.alloc())?;
    let open = b"\x54\x02\x20\x06\x24\x01";
    let open_refused = b"\xcb\x00\x00\x00\x00\xd4\x00\x08\x00";
    check(&rt, &mut node, 504, &once(LIFE, 1, 1, open), open_refused);
    check(
        &rt,
        &mut node,
        504,
        &once(LIFE, 1, 1, ADD_FIVE),
        open_refused,
    );
    let close_wide = b"\x4e\x03\x21\x00\x06\x00\x24\x01";
    check(
        &rt,
        &mut node,
        504,
        &once(LIFE, 1, 2, close_wide),
        b"\xcb\x00\x00\x00\x00\xce\x00\x08\x00",
    );
    let other_instance = b"\x0e\x02\x20\x06\x24\x02";
    check(
        &rt,
        &mut node,
        504,
        &once(LIFE, 1, 3, other_instance),
        b"\xcb\x00\x00\x00\x00\x8e\x00\x08\x00",
    );
    let own = once(LIFE, 2, 1, ADD_FIVE);
    check(
        &rt,
        &mut node,
        504,
        &once(LIFE, 1, 4, &own),
        b"\xcb\x00\x00\x00\x00\xcb\x00\x08\x00",
    );
    let attribute = b"\x0e\x04\x21\x00\x65\x00\x24\x01\x30\x01";
    check(
        &rt,
        &mut node,
        504,
        &once(LIFE, 1, 5, attribute),
        b"\xcb\x00\x00\x00\x00\x8e\x00\x08\x00",
    );
    check_counter(&rt, &node, 0, 0);
    // class 0x66 is none of them, and is unknown to the objects
    check(
        &rt,
        &mut node,
        504,
        &once(LIFE, 1, 6, b"\x0e\x02\x20\x66\x24\x01"),
        b"\xcb\x00\x00\x00\x00\x8e\x00\x05\x00",
    );
    Ok(())
}

/// The longest reply that is kept has 480 bytes. A longer one is "reply data too large" inside.
#[test]
fn longest_reply(rt: HostRuntime) -> Result<(), Fail> {
    let mut node = node(rt.alloc())?;
    let mut reply = ReplyBuf::new();
    let get = b"\x0e\x03\x20\x04\x24\x64\x30\x03";
    node.execute(&once(LIFE, 1, 1, get), 485, &mut reply);
    assert_eq!(rt; reply.len(), 485);
    assert_eq!(rt;
        &reply.as_slice()[..9],
        b"\xcb\x00\x00\x00\x00\x8e\x00\x00\x00".as_slice()
    );
    check(&rt, &mut node, 484, &once(LIFE, 1, 1, get), TOO_LARGE);
    let get_longer = b"\x0e\x03\x20\x04\x24\x65\x30\x03";
    let refused = b"\xcb\x00\x00\x00\x00\x8e\x00\x11\x00";
    check(&rt, &mut node, 4000, &once(LIFE, 1, 2, get_longer), refused);
    Ok(())
}

/// A request whose path can't be read is the objects', also if it begins as one to the Connection Manager does.
#[test]
fn unreadable_inside(rt: HostRuntime) -> Result<(), Fail> {
    let mut node = node(rt.alloc())?;
    // the path size counts more bytes than there are
    let open = b"\x54\x04\x20\x06\x24\x01";
    let past_the_end = b"\xcb\x00\x00\x00\x00\xd4\x00\x26\x00";
    check(&rt, &mut node, 504, &once(LIFE, 1, 1, open), past_the_end);
    // a class without an instance
    let no_instance = b"\x4e\x01\x20\x06\x24\x01";
    let segment_error = b"\xcb\x00\x00\x00\x00\xce\x00\x04\x00";
    check(
        &rt,
        &mut node,
        504,
        &once(LIFE, 1, 2, no_instance),
        segment_error,
    );
    let unknown_class = b"\x4b\x03\x21\x00\x65\x01\x24\x01";
    let unknown = b"\xcb\x00\x00\x00\x00\xcb\x00\x05\x00";
    check(
        &rt,
        &mut node,
        504,
        &once(LIFE, 1, 3, unknown_class),
        unknown,
    );
    Ok(())
}

/// Each service of the ledger is refused inside, and leaves all slots as they are.
#[test]
fn ledger_inside(rt: HostRuntime) -> Result<(), Fail> {
    let mut node = node(rt.alloc())?;
    check(&rt, &mut node, 504, &once(LIFE, 2, 1, ADD_FIVE), FIVE);
    let forget = b"\x4d\x02\x20\x65\x24\x01\x02\x00\x00\x00\x00\x00\x00\x00\x01\x00\x00\x00";
    let forget_refused = b"\xcb\x00\x00\x00\x00\xcd\x00\x08\x00";
    check(
        &rt,
        &mut node,
        504,
        &once(LIFE, 1, 1, forget),
        forget_refused,
    );
    let last = b"\x4c\x02\x20\x65\x24\x01\x02\x00\x00\x00\x00\x00\x00\x00";
    let last_refused = b"\xcb\x00\x00\x00\x00\xcc\x00\x08\x00";
    check(&rt, &mut node, 504, &once(LIFE, 1, 2, last), last_refused);
    let class_attribute = b"\x0e\x03\x20\x65\x24\x00\x30\x01";
    let read_refused = b"\xcb\x00\x00\x00\x00\x8e\x00\x08\x00";
    check(
        &rt,
        &mut node,
        504,
        &once(LIFE, 1, 3, class_attribute),
        read_refused,
    );
    check(&rt, &mut node, 504, &once(LIFE, 2, 1, ADD_ONE), FIVE);
    check_counter(&rt, &node, 5, 1);
    Ok(())
}
