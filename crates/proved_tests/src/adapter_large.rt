//! A large connection: one of 4,002 bytes each way is opened and used without allocating memory.

use crate::adapter_memory::{answer, check_answer, check_answered, of_either};
use crate::same::check_same;
use cip_objects::{AssemblyConfig, Config, Objects};
use enip_adapter::{Adapter, Peer};
use std::alloc::Global;
use std::process::Abort;
use std::test::Fail;
use test_fixtures::adapter::{REGISTER, config};

/// A Large_Forward_Open in session 1 with connection serial 6 and both sizes 4,002, and the answer.
const OPEN: &[u8] = b"\x6f\0\x42\0\x01\0\0\0\0\0\0\0\x01\x02\x03\x04\x05\x06\x07\x08\0\0\0\0\
    \0\0\0\0\0\0\x02\0\0\0\0\0\xb2\0\x32\0\x5b\x02\x20\x06\x24\x01\x0a\x0e\0\0\0\0\
    \x44\x33\x22\x11\x06\0\x42\0\x78\x56\x34\x12\0\0\0\0\x80\x84\x1e\0\xa2\x0f\0\x42\x80\x84\x1e\0\
    \xa2\x0f\0\x42\xa3\x02\x20\x02\x24\x01";

const OPENED: &[u8] = b"\x6f\0\x2e\0\x01\0\0\0\0\0\0\0\x01\x02\x03\x04\x05\x06\x07\x08\0\0\0\0\
    \0\0\0\0\0\0\x02\0\0\0\0\0\xb2\0\x1e\0\xdb\0\0\0\x01\0\0\0\x44\x33\x22\x11\
    \x06\0\x42\0\x78\x56\x34\x12\x80\x84\x1e\0\x80\x84\x1e\0\0\0";
/// The same with a T->O size of 4,003, and the answer.
const TOO_LARGE: &[u8] = b"\x6f\0\x42\0\x01\0\0\0\0\0\0\0\x01\x02\x03\x04\x05\x06\x07\x08\0\0\0\0\
    \0\0\0\0\0\0\x02\0\0\0\0\0\xb2\0\x32\0\x5b\x02\x20\x06\x24\x01\x0a\x0e\0\0\0\0\
    \x44\x33\x22\x11\x06\0\x42\0\x78\x56\x34\x12\0\0\0\0\x80\x84\x1e\0\xa2\x0f\0\x42\x80\x84\x1e\0\
    \xa3\x0f\0\x42\xa3\x02\x20\x02\x24\x01";

const REFUSED: &[u8] = b"\x6f\0\x20\0\x01\0\0\0\0\0\0\0\x01\x02\x03\x04\x05\x06\x07\x08\0\0\0\0\
    \0\0\0\0\0\0\x02\0\0\0\0\0\xb2\0\x10\0\xdb\0\x01\x01\x09\x01\x06\0\x42\0\x78\x56\
    \x34\x12\0\0";
/// An open request without data, and the answer.
const EMPTY: &[u8] = b"\x6f\0\x16\0\x01\0\0\0\0\0\0\0\x01\x02\x03\x04\x05\x06\x07\x08\0\0\0\0\
    \0\0\0\0\0\0\x02\0\0\0\0\0\xb2\0\x06\0\x5b\x02\x20\x06\x24\x01";

const TOO_SHORT: &[u8] = b"\x6f\0\x14\0\x01\0\0\0\0\0\0\0\x01\x02\x03\x04\x05\x06\x07\x08\0\0\0\0\
    \0\0\0\0\0\0\x02\0\0\0\0\0\xb2\0\x04\0\xdb\0\x13\0";
/// A request for the data of assembly 101 on the connection, and the beginning of the answer.
const GET_CONNECTED: &[u8] =
    b"\x70\0\x1e\0\x01\0\0\0\0\0\0\0\x01\x02\x03\x04\x05\x06\x07\x08\0\0\0\0\
    \0\0\0\0\0\0\x02\0\xa1\0\x04\0\x01\0\0\0\xb1\0\x0a\0\x01\0\x0e\x03\x20\x04\x24\x65\
    \x30\x03";

const FRONT: &[u8] = b"\x70\0\x56\x0f\x01\0\0\0\0\0\0\0\x01\x02\x03\x04\x05\x06\x07\x08\0\0\0\0\
    \0\0\0\0\0\0\x02\0\xa1\0\x04\0\x44\x33\x22\x11\xb1\0\x42\x0f\x01\0\x8e\0\0\0";
/// The same without a connection.
const GET: &[u8] = b"\x6f\0\x18\0\x01\0\0\0\0\0\0\0\x01\x02\x03\x04\x05\x06\x07\x08\0\0\0\0\
    \0\0\0\0\0\0\x02\0\0\0\0\0\xb2\0\x08\0\x0e\x03\x20\x04\x24\x65\x30\x03";

const REPLY_TOO_LARGE: &[u8] =
    b"\x6f\0\x14\0\x01\0\0\0\0\0\0\0\x01\x02\x03\x04\x05\x06\x07\x08\0\0\0\0\
    \0\0\0\0\0\0\x02\0\0\0\0\0\xb2\0\x04\0\x8e\0\x11\0";
/// An open request on the connection.
const OPEN_CONNECTED: &[u8] =
    b"\x70\0\x1c\0\x01\0\0\0\0\0\0\0\x01\x02\x03\x04\x05\x06\x07\x08\0\0\0\0\
    \0\0\0\0\0\0\x02\0\xa1\0\x04\0\x01\0\0\0\xb1\0\x08\0\x02\0\x5b\x02\x20\x06\x24\x01";

const NOT_SUPPORTED: &[u8] =
    b"\x70\0\x1a\0\x01\0\0\0\0\0\0\0\x01\x02\x03\x04\x05\x06\x07\x08\0\0\0\0\
    \0\0\0\0\0\0\x02\0\xa1\0\x04\0\x44\x33\x22\x11\xb1\0\x06\0\x02\0\xdb\0\x08\0";

/// Adds assembly 101, which has 3,900 bytes.
fn add_assembly(alloc: Global, assemblies: &mut Vec<AssemblyConfig>) -> Result<(), Fail> {
    let members = Vec::from_slice(alloc, &[3_900])?;
    assemblies.push(AssemblyConfig {
        instance: 101,
        settable: false,
        members,
        lists: false,
    })?;
    Ok(())
}

/// The objects of a configuration, with that assembly added.
fn objects_of(alloc: Global, config: &mut Config) -> Result<Objects, Fail> {
    add_assembly(alloc, &mut config.assemblies)?;
    let Ok(objects) = Objects::new(alloc, config) else {
        return Err(Fail::from("the objects are not made"));
    };
    Ok(objects)
}

/// The objects of the demo configuration, with that assembly added.
fn objects(alloc: Global) -> Result<Objects, Fail> {
    let mut config = config(alloc)?;
    objects_of(alloc, &mut config)
}

/// Asserts that each frame gets its answer.
fn check<A: Abort>(rt: &A, adapter: &mut Adapter, peer: &Peer, rows: &[(&[u8], &[u8])]) {
    for (asked, answered) in rows {
        check_answer(rt, adapter, peer, asked, Some(*answered));
    }
}

/// Asserts that these are the whole data of assembly 101.
fn check_data<A: Abort>(rt: &A, data: &[u8]) {
    check_same(rt, data.starts_with(FRONT), true);
    assert_eq!(rt; data.len(), 24 + 20 + 2 + 4 + 3_900);
    check_same(rt, data[50..].iter().all(|byte| *byte == 0), true);
}

/// The frames before and after the data are read on the connection, with their answers.
const BEFORE: [(&[u8], &[u8]); 3] = [(TOO_LARGE, REFUSED), (EMPTY, TOO_SHORT), (OPEN, OPENED)];

const AFTER: [(&[u8], &[u8]); 2] = [(GET, REPLY_TOO_LARGE), (OPEN_CONNECTED, NOT_SUPPORTED)];

/// A session with a large connection.
fn check_session<A: Abort>(rt: &A, adapter: &mut Adapter) -> Result<(), Fail> {
    let peer = adapter.begin().ok().ok_or("a slot is free")?;
    check_answered(rt, adapter, &peer, REGISTER);
    check(rt, adapter, &peer, &BEFORE);
    check_data(rt, answer(adapter, &peer, GET_CONNECTED).unwrap_or(&[]));
    check(rt, adapter, &peer, &AFTER);
    check_same(rt, adapter.free(), (8, 15));
    Ok(())
}

/// `new` allocates all memory, so this passes whichever allocation after the objects is refused.
#[test]
fn large_connections_take_no_memory(rt: HostRuntime) -> Result<(), Fail> {
    let first = objects(rt.alloc())?;
    let again = objects(rt.alloc())?;
    let mut adapter = of_either(rt.alloc(), first, again)?;
    check_session(&rt, &mut adapter)
}
