//! An adapter with the demo configuration, frames for it, and calls of it.
//!
//! Each call is in a function of its own, so the proof of a list of calls carries no state from one to the next.

use cip_objects::{AssemblyConfig, Config, CounterConfig, Objects};
use enip_adapter::{Adapter, Fed, LONGEST_READ, Limits, Listen, Peer, ServeFault, Served, serve};
use enip_wire::{MemorySink, MemorySource, Sink, Source};
use std::alloc::Global;
use std::test::Fail;

/// A RegisterSession, and the answer to the first peer.
pub const REGISTER: &[u8] =
    b"\x65\0\x04\0\0\0\0\0\0\0\0\0\x01\x02\x03\x04\x05\x06\x07\x08\0\0\0\0\x01\0\0\0";

pub const REGISTERED: &[u8] =
    b"\x65\0\x04\0\x01\0\0\0\0\0\0\0\x01\x02\x03\x04\x05\x06\x07\x08\0\0\0\0\x01\0\0\0";

/// A Forward_Open in session 1: T->O ID 0x11223344, both RPIs 2,000,000 microseconds, multiplier 0. So the connection
/// times out 8,000,000 microseconds after the last item.
pub const OPEN: &[u8] = b"\x6f\0\x3e\0\x01\0\0\0\0\0\0\0\x01\x02\x03\x04\x05\x06\x07\x08\0\0\0\0\
    \0\0\0\0\0\0\x02\0\0\0\0\0\xb2\0\x2e\0\
    \x54\x02\x20\x06\x24\x01\x0a\x0e\0\0\0\0\x44\x33\x22\x11\x01\0\x42\0\x78\x56\x34\x12\0\0\0\0\
    \x80\x84\x1e\0\xf4\x43\x80\x84\x1e\0\xf4\x43\xa3\x02\x20\x02\x24\x01";

/// The counter's Add of 5 with count 1 on connection 1, and the answer.
pub const ADD: &[u8] = b"\x70\0\x20\0\x01\0\0\0\0\0\0\0\x01\x02\x03\x04\x05\x06\x07\x08\0\0\0\0\
    \0\0\0\0\0\0\x02\0\xa1\0\x04\0\x01\0\0\0\xb1\0\x0c\0\x01\0\x32\x02\x20\x64\x24\x01\x05\0\0\0";

pub const ADDED: &[u8] = b"\x70\0\x1e\0\x01\0\0\0\0\0\0\0\x01\x02\x03\x04\x05\x06\x07\x08\0\0\0\0\
    \0\0\0\0\0\0\x02\0\xa1\0\x04\0\x44\x33\x22\x11\xb1\0\x0a\0\x01\0\xb2\0\0\0\x05\0\0\0";

/// The header of a NOP whose length is 65,512, and the answer.
pub const LONG: &[u8] = b"\0\0\xe8\xff\0\0\0\0\0\0\0\0\x01\x02\x03\x04\x05\x06\x07\x08\0\0\0\0";

pub const REFUSED: &[u8] = b"\0\0\0\0\0\0\0\0\x65\0\0\0\x01\x02\x03\x04\x05\x06\x07\x08\0\0\0\0";

/// The address and the limits of the adapters.
pub const LISTEN: Listen = Listen {
    address: [127, 0, 0, 1],
    port: 44_818,
};

pub const LIMITS: Limits = Limits {
    peers: 9,
    connections: 16,
    first_handle: 1,
    first_id: 1,
};

/// Assembly 100 of the demo configuration.
fn assemblies(alloc: Global) -> Result<Vec<AssemblyConfig>, Fail> {
    let members = Vec::from_slice(alloc, &[1, 2, 1])?;
    let mut assemblies = Vec::new(alloc);
    assemblies.push(AssemblyConfig {
        instance: 100,
        settable: true,
        members,
        lists: false,
    })?;
    Ok(assemblies)
}

/// The demo configuration.
pub fn config(alloc: Global) -> Result<Config, Fail> {
    let assemblies = assemblies(alloc)?;
    let name = String::from_str(alloc, "Demo")?;
    Ok(Config {
        vendor: 0x1234,
        device_type: 43,
        product_code: 7,
        major: 2,
        minor: 5,
        serial: 16_909_060,
        name,
        status: 0,
        state: 3,
        counter: CounterConfig {
            enabled: true,
            value: 0,
            limit: 100,
        },
        assemblies,
        objects: Vec::new(alloc),
    })
}

/// The objects of the demo configuration.
pub fn demo(alloc: Global) -> Result<Objects, Fail> {
    Ok(
        Objects::new(alloc, &config(alloc)?)
            .ok()
            .ok_or("the objects are made")?,
    )
}

/// An adapter with the demo configuration. Its first session is 1.
pub fn new_adapter(alloc: Global) -> Result<Adapter, Fail> {
    Ok(Adapter::new(alloc, demo(alloc)?, LISTEN, LIMITS)?)
}

/// The same with its first peer.
pub fn adapter_with_peer(alloc: Global) -> Result<(Adapter, Peer), Fail> {
    let mut adapter = new_adapter(alloc)?;
    let peer = adapter.begin().ok().ok_or("a slot is free")?;
    Ok((adapter, peer))
}

/// Feeds a piece at time 0.
pub fn feed<'a>(adapter: &'a mut Adapter, peer: &Peer, piece: &[u8]) -> Fed<'a> {
    adapter.feed(0, peer, piece)
}

/// The same adapter and peer, with connection 1 opened at time 0.
pub fn demo_with_connection(alloc: Global) -> Result<(Adapter, Peer), Fail> {
    let (mut adapter, peer) = adapter_with_peer(alloc)?;
    let _ = feed(&mut adapter, &peer, REGISTER);
    let _ = feed(&mut adapter, &peer, OPEN);
    Ok((adapter, peer))
}

/// The lowest byte of the counter's value.
pub fn value(adapter: &Adapter) -> Result<u8, Fail> {
    let value = adapter
        .objects()
        .attribute(0x64, 1, 1)
        .ok_or("the counter has a value")?;
    Ok(*value.as_slice().first().ok_or("it has bytes")?)
}

/// Serves a peer once. Returns whether the result is `expected`, and all that was written so far is `written`.
pub fn serves(
    adapter: &mut Adapter,
    peer: &Peer,
    reader: &mut MemorySource<'_>,
    writer: &mut MemorySink<'_>,
    expected: Result<Served, ServeFault>,
    written: &[u8],
) -> bool {
    if reader.reads() == u64::MAX
        || reader.failures() == u64::MAX
        || writer.failures() == u64::MAX
    {
        return false;
    }
    // the previous contents of the buffer do not matter
    let mut buffer = [0xee; LONGEST_READ];
    serve(adapter, peer, reader, writer, &mut buffer) == expected && writer.written() == written
}

/// How many slots are free, for peers and for connections.
pub fn free(adapter: &Adapter) -> (u16, u16) {
    adapter.free()
}
