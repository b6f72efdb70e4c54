//! A bench with the demo configuration, and lists of events for it. (Volume 1, transport class 3.)

use cip_class3::Refused;
use cip_objects::{AssemblyConfig, Config, CounterConfig, Objects};
use enip_adapter::{Adapter, Limits, Listen};
use enip_bench::{Bench, Event, OwnWrite, Seen, Step};
use enip_client::{Client, Wants};
use std::alloc::{AllocError, Global};
use std::test::Fail;

/// Requests that add 5 and 7 to the counter, and their replies if its value was 0 and 5.
pub const ADD_5: &[u8] = b"\x32\x02\x20\x64\x24\x01\x05\0\0\0";

pub const ADD_7: &[u8] = b"\x32\x02\x20\x64\x24\x01\x07\0\0\0";

pub const REPLY_OF_5: &[u8] = b"\xb2\0\0\0\x05\0\0\0";

pub const REPLY_OF_12: &[u8] = b"\xb2\0\0\0\x0c\0\0\0";

/// A request that adds 1.
pub const ADD_1: &[u8] = b"\x32\x02\x20\x64\x24\x01\x01\0\0\0";

/// A request that clears the counter.
pub const CLEAR: &[u8] = b"\x33\x02\x20\x64\x24\x01";

pub const WANTS: Wants = Wants {
    originator_vendor: 66,
    originator_serial: 305_419_896,
    connection_serial: 1,
    t_to_o_id: 287_454_020,
    rpi: 2_000_000,
    timeout_multiplier: 0,
    o_to_t_size: 500,
    t_to_o_size: 500,
    first_count: 1,
};

pub const LISTEN: Listen = Listen {
    address: [127, 0, 0, 1],
    port: 44_818,
};

pub const LIMITS: Limits = Limits {
    peers: 9,
    connections: 16,
    first_handle: 1,
    first_id: 1,
};

/// The demo configuration, with this limit of the counter.
pub fn config(alloc: Global, limit: u32) -> Result<Config, Fail> {
    let mut assemblies = Vec::new(alloc);
    assemblies.push(AssemblyConfig {
        instance: 100,
        settable: true,
        members: Vec::from_slice(alloc, &[1, 2, 1])?,
        lists: false,
    })?;
    Ok(Config {
        vendor: 0x1234,
        device_type: 43,
        product_code: 7,
        major: 2,
        minor: 5,
        serial: 16_909_060,
        name: String::from_str(alloc, "Demo")?,
        status: 0,
        state: 3,
        counter: CounterConfig {
            enabled: true,
            value: 0,
            limit,
        },
        assemblies,
        objects: Vec::new(alloc),
    })
}

/// The objects of that configuration.
pub fn demo(alloc: Global, limit: u32) -> Result<Objects, Fail> {
    Ok(
        Objects::new(alloc, &config(alloc, limit)?)
            .ok()
            .ok_or("the objects are made")?,
    )
}

/// A bench with that configuration.
pub fn bench(alloc: Global, limit: u32) -> Result<Bench, Fail> {
    let adapter = Adapter::new(alloc, demo(alloc, limit)?, LISTEN, LIMITS)?;
    let Ok(client) = Client::new(alloc, &WANTS) else {
        return Err(Fail::from("the client is made"));
    };
    Ok(
        Bench::new(alloc, adapter, client)
            .ok()
            .ok_or("the ends open")?,
    )
}

/// What is seen. This and the next two functions have no contract, so the proof of a test carries no state on.
pub fn look(bench: &Bench) -> Seen<'_> {
    bench.seen()
}

/// Runs an event.
pub fn done<'a>(bench: &'a mut Bench, event: &Event) -> Result<Step<'a>, AllocError> {
    bench.step(event)
}

/// Runs these events in one call.
pub fn all_done(bench: &mut Bench, events: &[Event]) -> Result<(), (usize, AllocError)> {
    bench.run(events)
}

/// An attribute of the counter: 1 is its value, 3 its number of additions.
pub fn counter(bench: &Bench, attribute: u16) -> Result<u32, Fail> {
    let bytes = look(bench)
        .objects
        .attribute(0x64, 1, attribute)
        .ok_or("the counter has it")?;
    let bytes: [u8; 4] = bytes.as_slice().try_into().ok().ok_or("it has 4 bytes")?;
    Ok(u32::from_le_bytes(bytes))
}

/// An event with a borrowed request, or with borrowed data.
#[derive(Clone, Copy)]
pub enum Row {
    Submit(&'static [u8]),
    Resend,
    Reach(usize),
    Back(usize),
    Other(&'static [u8]),
    WriteData(u32, usize, &'static [u8]),
    WriteStatus(u16),
    WriteState(u8),
    Shut,
    GiveUp,
}

impl Row {
    pub fn event(self, alloc: Global) -> Result<Event, Fail> {
        Ok(match self {
            Row::Submit(request) => Event::Submit(Vec::from_slice(alloc, request)?),
            Row::Resend => Event::Resend,
            Row::Reach(position) => Event::Reach(position),
            Row::Back(position) => Event::Back(position),
            Row::Other(request) => Event::Other(Vec::from_slice(alloc, request)?),
            Row::WriteData(instance, offset, bytes) => {
                let bytes = Vec::from_slice(alloc, bytes)?;
                Event::Write(OwnWrite::Data(instance, offset, bytes))
            }
            Row::WriteStatus(status) => Event::Write(OwnWrite::Status(status)),
            Row::WriteState(state) => Event::Write(OwnWrite::State(state)),
            Row::Shut => Event::Shut,
            Row::GiveUp => Event::GiveUp,
        })
    }
}

/// Runs the events of these rows, and compares each step.
pub fn compare(alloc: Global, bench: &mut Bench, rows: &[(Row, Step<'_>)]) -> Result<(), Fail> {
    for (row, step) in rows {
        let event = row.event(alloc)?;
        if done(bench, &event)? != *step {
            return Err(Fail::from("another step is reported"));
        }
    }
    Ok(())
}

/// A request that arrives twice, and a second request. A late reply is ignored.
pub const EXACTLY_ONCE: [(Row, Step); 9] = [
    (Row::Submit(ADD_5), Step::Sent(0, 0)),
    (Row::Reach(0), Step::Reached(Some(0))),
    (Row::Reach(0), Step::Reached(Some(1))),
    (Row::Submit(ADD_7), Step::Refused(Refused::Busy)),
    (Row::Back(0), Step::Accepted(REPLY_OF_5)),
    (Row::Submit(ADD_7), Step::Sent(1, 1)),
    (Row::Back(1), Step::Ignored),
    (Row::Reach(1), Step::Reached(Some(2))),
    (Row::Back(2), Step::Accepted(REPLY_OF_12)),
];
