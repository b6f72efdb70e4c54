//! A device whose counter shows what its command ledger executed, and requests to it.

use arrayvec::ArrayVec;
use cip_bytes::append;
use cip_ledger::{Ledger, LedgerRouter};
use cip_objects::{AssemblyConfig, Config, CounterConfig, Objects, ReplyBuf, Router};
use cip_owner::OwnedObjects;
use std::alloc::Global;
use std::process::Abort;
use std::test::Fail;

/// The number of the device's life.
pub const LIFE: u64 = 7;

/// Service, path size and path of Do_Once: class 0x65, instance 1.
pub const DO_ONCE: &[u8] = b"\x4b\x02\x20\x65\x24\x01";

/// Add of 5 to the counter, and of 1.
pub const ADD_FIVE: &[u8] = b"\x32\x02\x20\x64\x24\x01\x05\x00\x00\x00";

pub const ADD_ONE: &[u8] = b"\x32\x02\x20\x64\x24\x01\x01\x00\x00\x00";

/// Do_Once of life 7, originator 0x0102030405060708, number 9: Add of 5.
pub const WHOLE: &[u8] = b"\x4b\x02\x20\x65\x24\x01\
    \x07\x00\x00\x00\x00\x00\x00\x00\
    \x08\x07\x06\x05\x04\x03\x02\x01\
    \x09\x00\x00\x00\
    \x32\x02\x20\x64\x24\x01\x05\x00\x00\x00";

/// The replies to Do_Once after which the counter is 5, 6 and 7: success, done, the reply to Add.
pub const FIVE: &[u8] = b"\xcb\x00\x00\x00\x00\xb2\x00\x00\x00\x05\x00\x00\x00";

pub const SIX: &[u8] = b"\xcb\x00\x00\x00\x00\xb2\x00\x00\x00\x06\x00\x00\x00";

pub const SEVEN: &[u8] = b"\xcb\x00\x00\x00\x00\xb2\x00\x00\x00\x07\x00\x00\x00";

/// The refusals of Do_Once.
pub const NO_SLOT: &[u8] = b"\xcb\x00\x02\x00";

pub const TOO_OLD: &[u8] = b"\xcb\x00\x0c\x00";

pub const OTHER_LIFE: &[u8] = b"\xcb\x00\x10\x00";

pub const TOO_LARGE: &[u8] = b"\xcb\x00\x11\x00";

pub const TOO_SHORT: &[u8] = b"\xcb\x00\x13\x00";

/// A request of up to 100 bytes.
pub type Text = ArrayVec<u8, 100>;

/// Do_Once with these data.
pub fn once(life: u64, originator: u64, number: u32, request: &[u8]) -> Text {
    let mut text = ArrayVec::new();
    append(&mut text, DO_ONCE);
    append(&mut text, &life.to_le_bytes());
    append(&mut text, &originator.to_le_bytes());
    append(&mut text, &number.to_le_bytes());
    append(&mut text, request);
    text
}

/// Service, path size and path, and the data.
pub fn with_data(head: &[u8], data: &[u8]) -> Text {
    let mut text = ArrayVec::new();
    append(&mut text, head);
    append(&mut text, data);
    text
}

/// Objects with a counter at 0 of limit 100, and two assemblies, one of 476 bytes and one of 477.
pub fn objects(alloc: Global) -> Result<Objects, Fail> {
    let mut assemblies = Vec::new(alloc);
    for (instance, size) in [(100u16, 476u16), (101, 477)] {
        let mut members = Vec::new(alloc);
        members.push(size)?;
        assemblies.push(AssemblyConfig {
            instance,
            settable: true,
            members,
            lists: false,
        })?;
    }
    let config = Config {
        vendor: 0x1234,
        device_type: 43,
        product_code: 7,
        major: 2,
        minor: 5,
        serial: 1,
        name: String::from_str(alloc, "Demo")?,
        status: 0,
        state: 3,
        counter: CounterConfig {
            enabled: true,
            value: 0,
            limit: 100,
        },
        assemblies,
        objects: Vec::new(alloc),
    };
    let objects = Objects::new(alloc, &config)
        .ok()
        .ok_or("the objects are made")?;
    Ok(objects)
}

/// A ledger of two slots before these objects.
pub fn node(alloc: Global) -> Result<LedgerRouter<OwnedObjects>, Fail> {
    node_of(alloc, 2, LIFE)
}

/// A ledger of so many slots, in this life, before these objects.
pub fn node_of(
    alloc: Global,
    originators: u16,
    life: u64,
) -> Result<LedgerRouter<OwnedObjects>, Fail> {
    Ok(LedgerRouter {
        ledger: Some(Ledger::new(alloc, originators, life)?),
        router: OwnedObjects::new(objects(alloc)?),
    })
}

/// The reply to Do_Once of an addition after which the counter has this value.
pub fn done(value: u8) -> [u8; 13] {
    [0xcb, 0, 0, 0, 0, 0xb2, 0, 0, 0, value, 0, 0, 0]
}

/// Asserts the reply to a request with a reply limit.
pub fn check(
    rt: &impl Abort,
    node: &mut LedgerRouter<OwnedObjects>,
    max_size: usize,
    request: &[u8],
    wanted: &[u8],
) {
    let mut reply = ReplyBuf::new();
    node.execute(request, max_size, &mut reply);
    assert_eq!(rt; reply.as_slice(), wanted);
}

/// Asserts the value of the counter, and how many additions were executed.
pub fn check_counter(rt: &impl Abort, node: &LedgerRouter<OwnedObjects>, value: u8, additions: u8) {
    let is = node.router.objects.attribute(0x64, 1, 1);
    assert_eq!(rt; is.map(|bytes| bytes.as_slice()[0]), Some(value));
    let counted = node.router.objects.attribute(0x64, 1, 3);
    assert_eq!(rt; counted.map(|bytes| bytes.as_slice()[0]), Some(additions));
}
