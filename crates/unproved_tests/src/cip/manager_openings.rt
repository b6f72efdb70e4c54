//! Openings, closes and items of small connections at a manager, for tests of its calls.

use arrayvec::ArrayVec;
use cip_manager::Manager;
use cip_message::Device;
use cip_objects::{Objects, ReplyBuf};
use std::process::Abort;

/// The device of the demo configuration.
pub const DEVICE: Device = Device {
    vendor: 0x1234,
    device_type: 43,
    product_code: 7,
    major: 2,
    minor: 5,
};

/// An item with count 1: Get_Attributes_All of Identity.
const ITEM: [u8; 8] = [0x01, 0x00, 0x01, 0x02, 0x20, 0x01, 0x24, 0x01];

/// The reply to a Forward_Open with this connection serial: T->O ID 0x11223344, vendor 0x42, originator serial
/// 0x12345678, multiplier 0, both RPIs 2,000,000 microseconds, both sizes 500.
pub fn open(manager: &mut Manager, now: u64, session: u32, serial: u16) -> ReplyBuf {
    let mut data =
        *b"\x0a\x0e\0\0\0\0\x44\x33\x22\x11\0\0\x42\0\x78\x56\x34\x12\0\0\0\0\x80\x84\x1e\0\xf4\x43\
        \x80\x84\x1e\0\xf4\x43\xa3\x02\x20\x02\x24\x01";
    data[10..12].copy_from_slice(&serial.to_le_bytes());
    let mut reply = ArrayVec::new();
    manager.open(now, session, &data, &mut reply);
    reply
}

/// The reply to a Forward_Close of that connection.
pub fn close(manager: &mut Manager, session: u32, serial: u16) -> ReplyBuf {
    let mut data = *b"\x0a\x0e\0\0\x42\0\x78\x56\x34\x12\x02\0\x20\x02\x24\x01";
    data[2..4].copy_from_slice(&serial.to_le_bytes());
    let mut reply = ArrayVec::new();
    manager.close(session, &data, &mut reply);
    reply
}

/// Asserts that the reply opens a connection with this O->T ID.
pub fn check_id(rt: &impl Abort, reply: &ReplyBuf, id: u32) {
    let [a, b, c, d] = id.to_le_bytes();
    assert!(rt;
        reply
            .as_slice()
            .starts_with(&[0xd4, 0x00, 0x00, 0x00, a, b, c, d])
    );
    assert!(rt; reply.len() == 30);
}

/// Whether an item of a session on the connection with this ID is answered.
pub fn is_answered(
    manager: &mut Manager,
    objects: &mut Objects,
    now: u64,
    session: u32,
    id: u32,
) -> bool {
    manager
        .connected(now, session, id, &ITEM, objects)
        .is_some()
}
