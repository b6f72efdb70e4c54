//! Which command an owner is handed next.

use enip_owner::{HandOver, HandedOver};
use std::test::Fail;

/// A command that is handed over for the first time.
fn first(ticket: u32) -> Option<HandedOver> {
    Some(HandedOver {
        ticket,
        again: false,
    })
}

/// A command that is handed over again.
fn again(ticket: u32) -> Option<HandedOver> {
    Some(HandedOver {
        ticket,
        again: true,
    })
}

/// An owner that leaves and returns gets what it did not finish again, and then what is new.
#[test]
fn owner_returns(rt: HostRuntime) -> Result<(), Fail> {
    let mut hand_over = HandOver::new(256);
    assert!(rt; hand_over.next(&[]) == None);
    assert!(rt; hand_over.next(&[1, 2]) == first(1));
    assert!(rt; hand_over.next(&[1, 2]) == first(2));
    assert!(rt; hand_over.next(&[1, 2]) == None);
    assert!(rt; hand_over.next(&[1, 2, 3, 4]) == first(3));
    // Ticket 2 is done.
    hand_over.begin_session();
    assert!(rt; hand_over.next(&[1, 3, 4]) == again(1));
    assert!(rt; hand_over.next(&[3, 4]) == again(3));
    assert!(rt; hand_over.next(&[3, 4]) == first(4));
    assert!(rt; hand_over.next(&[4, 5]) == first(5));
    assert!(rt; hand_over.next(&[4, 5]) == None);
    // The next owner leaves before it gets anything.
    hand_over.begin_session();
    hand_over.begin_session();
    assert!(rt; hand_over.next(&[4, 5, 6]) == again(4));
    assert!(rt; hand_over.next(&[5, 6]) == again(5));
    assert!(rt; hand_over.next(&[5, 6]) == first(6));
    Ok(())
}

/// After a restart the commands up to a ticket may have been handed over before.
#[test]
fn device_restarts(rt: HostRuntime) -> Result<(), Fail> {
    let mut hand_over = HandOver::restarted(3, 7);
    assert!(rt; hand_over.next(&[5, 7]) == again(5));
    assert!(rt; hand_over.next(&[5, 7, 8]) == again(7));
    assert!(rt; hand_over.next(&[5, 7, 8]) == first(8));
    let mut new = HandOver::restarted(1, 0);
    assert!(rt; new.next(&[1]) == first(1));
    let mut full = HandOver::restarted(1, 0xffff_ffff);
    assert!(rt; full.next(&[0xffff_ffff]) == again(0xffff_ffff));
    Ok(())
}

/// The owner has at most so many commands in hand, and gets the next one as soon as it has fewer.
#[test]
fn ahead(rt: HostRuntime) -> Result<(), Fail> {
    let mut one = HandOver::new(1);
    assert!(rt; one.next(&[1, 2, 3]) == first(1));
    assert!(rt; one.next(&[1, 2, 3]) == None);
    assert!(rt; one.next(&[2, 3]) == first(2));
    assert!(rt; one.next(&[2, 3]) == None);
    // Another session begins with the first command that waits.
    one.begin_session();
    assert!(rt; one.next(&[2, 3]) == again(2));
    assert!(rt; one.next(&[2, 3]) == None);
    assert!(rt; one.next(&[3]) == first(3));
    let mut two = HandOver::restarted(2, 5);
    assert!(rt; two.next(&[4, 5, 6, 7]) == again(4));
    assert!(rt; two.next(&[4, 5, 6, 7]) == again(5));
    assert!(rt; two.next(&[4, 5, 6, 7]) == None);
    // Commands are done out of order.
    assert!(rt; two.next(&[4, 6, 7]) == first(6));
    assert!(rt; two.next(&[4, 6, 7]) == None);
    assert!(rt; two.next(&[7]) == first(7));
    assert!(rt; two.next(&[7]) == None);
    let mut none = HandOver::new(0);
    assert!(rt; none.next(&[1]) == None);
    Ok(())
}
