//! The life of a command ledger: that of the configuration.

use configured_adapter::adapter_from;
use enip_adapter::Adapter;
use std::alloc::Global;
use std::test::Fail;
use test_fixtures::adapter::REGISTER;

/// A device with a ledger for three originators, in life 2.
const LEDGER: &[u8] =
    b"vendor = 0\ndevice_type = 0\nproduct_code = 0\nmajor = 1\nminor = 0\nserial = 0\nname = \"\"\n\
    [ledger]\noriginators = 3\nlife = 2\n";

/// Get_Attribute_Single of the ledger's life in session 1.
const GET_LIFE: &[u8] = b"\x6f\0\x18\0\x01\0\0\0\0\0\0\0\x01\x02\x03\x04\x05\x06\x07\x08\0\0\0\0\
    \0\0\0\0\0\0\x02\0\0\0\0\0\xb2\0\x08\0\x0e\x03\x20\x65\x24\x01\x30\x03";

/// What a new adapter answers to it, without the head of the reply: the eight bytes of the life.
fn life_in(alloc: Global, adapter: &mut Adapter) -> Result<Vec<u8>, Fail> {
    let Ok(peer) = adapter.begin() else {
        return Err(Fail::from("no peer begins"));
    };
    adapter.feed(0, &peer, REGISTER);
    let fed = adapter.feed(0, &peer, GET_LIFE);
    let Some(answer) = fed.answer else {
        return Err(Fail::from("there is no answer"));
    };
    Ok(Vec::from_slice(alloc, &answer[44..])?)
}

#[test]
fn life_of_the_configuration(rt: HostRuntime) -> Result<(), Fail> {
    let mut adapter = adapter_from(rt.alloc(), LEDGER)?;
    assert!(rt; adapter.ledger().is_some());
    assert_eq!(rt;
        life_in(rt.alloc(), &mut adapter)?.as_slice(),
        [2, 0, 0, 0, 0, 0, 0, 0].as_slice()
    );
    Ok(())
}
