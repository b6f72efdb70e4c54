//! What the device itself writes, and how it sees writes by clients.

use enip_adapter::{Adapter, DiscoveryBuffer};
use std::test::Fail;
use test_fixtures::adapter::{adapter_with_peer, demo_with_connection, feed};

/// A ListIdentity, which has no data.
const LIST_IDENTITY: &[u8] = b"\x63\0\0\0\0\0\0\0\0\0\0\0\x01\x02\x03\x04\x05\x06\x07\x08\0\0\0\0";

/// The offset of the status in the answer: 24 bytes of header, 6 before the item, 18 of version and socket address,
/// and 8 of vendor, device type, product code and revision.
const STATUS_AT: usize = 24 + 6 + 18 + 8;

/// Set_Attribute_Single of the data of assembly 100, with count 1 on connection 1.
const SET: &[u8] = b"\x70\0\x22\0\x01\0\0\0\0\0\0\0\x01\x02\x03\x04\x05\x06\x07\x08\0\0\0\0\
    \0\0\0\0\0\0\x02\0\xa1\0\x04\0\x01\0\0\0\xb1\0\x0e\0\
    \x01\0\x10\x03\x20\x04\x24\x64\x30\x03\x01\x02\x03\x04";

/// The offsets of the low bytes of its count and of its connection ID.
const COUNT_AT: usize = 44;

const ID_AT: usize = 36;

/// Whether the answer to ListIdentity has this status and this state.
fn shows(adapter: &Adapter, status: &[u8], state: u8) -> bool {
    let mut room = DiscoveryBuffer::new();
    match adapter.discover(LIST_IDENTITY, &mut room) {
        Some(answer) => {
            &answer[STATUS_AT..STATUS_AT + 2] == status && answer[answer.len() - 1] == state
        }
        None => false,
    }
}

#[test]
fn identity(rt: HostRuntime) -> Result<(), Fail> {
    let (mut adapter, _) = adapter_with_peer(rt.alloc())?;
    assert!(rt; shows(&adapter, &[0, 0], 3));
    adapter.set_device_status(0x0135);
    assert!(rt; shows(&adapter, &[0x35, 0x01], 3));
    adapter.set_device_state(5);
    assert!(rt; shows(&adapter, &[0x35, 0x01], 5));
    Ok(())
}

#[test]
fn changes_on_a_connection(rt: HostRuntime) -> Result<(), Fail> {
    let (mut adapter, peer) = demo_with_connection(rt.alloc())?;
    let _ = feed(&mut adapter, &peer, SET);
    assert_eq!(rt; adapter.changes(100), Some(1));
    // a repeat is answered and does not count as a write
    assert!(rt; feed(&mut adapter, &peer, SET).answer.is_some());
    assert_eq!(rt; adapter.changes(100), Some(1));
    // nor does a write by the device, or an item on a connection that does not exist
    assert!(rt; adapter.write_data(100, 0, &[7]));
    assert!(rt; !adapter.write_data(100, 4, &[7]));
    let mut frame = Vec::from_slice(rt.alloc(), SET)?;
    frame[COUNT_AT] = 2;
    frame[ID_AT] = 9;
    let _ = feed(&mut adapter, &peer, frame.as_slice());
    assert_eq!(rt; adapter.changes(100), Some(1));
    // an item with the next count is the next write
    frame[ID_AT] = 1;
    let _ = feed(&mut adapter, &peer, frame.as_slice());
    assert_eq!(rt; adapter.changes(100), Some(2));
    assert_eq!(rt; adapter.changes(101), None);
    Ok(())
}
