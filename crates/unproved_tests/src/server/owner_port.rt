//! Sessions of a device's owner (`owner_port`). The expected texts were written by hand from docs/PROGRAM.md.

use super::turns::joined;
use super::wires::{Call, ScriptedWire};
use crate::queue_fixtures::{request, unconnected};
use crate::texts::check_texts;
use cip_owner::NoOwner;
use configured_adapter::adapter_from;
use enip_config::Configuration;
use enip_server::{NO_IDLE_TIMEOUT, Peers, ReadOutcome, Wire};
use owner_port::{DeviceTable, HasAddress, LineFault, OUTPUT_LIMIT, OwnerPort, SessionEnd};
use std::alloc::Global;
use std::cell::Cell;
use std::net::{IpAddr, Ipv4Addr};
use std::str;
use std::test::Fail;
use test_fixtures::adapter::{REGISTER, REGISTERED};

/// A device with an assembly, an attribute and a queued service.
const DEVICE: &[u8] = b"vendor = 4660
device_type = 43
product_code = 7
major = 2
minor = 5
serial = 16909060
name = \"Demo\"

[counter]
enabled = false

[commands]
queue = 2

[[assembly]]
instance = 101
settable = true
members = [2]

[[object]]
class = 768
instance = 1
name = \"conveyor\"

[[object.attribute]]
number = 3
type = \"UINT\"
value = 1500
settable = true

[[object.attribute]]
number = 4
type = \"SHORT_STRING[4]\"
value = \"on\"

[[object.service]]
number = 50
size = 4
reply = 1
queued = true
";

/// The first line of this device.
const HELLO: &str =
    "{\"hello\":{\"vendor\":4660,\"product_code\":7,\"serial\":16909060,\"name\":\"Demo\",\
\"ahead\":1,\"objects\":[\
{\"class\":4,\"instance\":101,\"attributes\":[{\"attribute\":3,\"type\":\"BYTES[2]\",\"data\":\"0000\"}]},\
{\"class\":768,\"instance\":1,\"name\":\"conveyor\",\"attributes\":[\
{\"attribute\":3,\"type\":\"UINT\",\"data\":\"dc05\"},\
{\"attribute\":4,\"type\":\"SHORT_STRING[4]\",\"data\":\"026f6e\"}]}]}}\n";

/// Set_Attribute_Single of the assembly's data to dc 05.
const SET_DATA: &[u8] = b"\x10\x03\x20\x04\x24\x65\x30\x03\xdc\x05";

/// Set_Attribute_Single of attribute 3 of the object to e8 03, which is 1,000.
const SET_SPEED: &[u8] = b"\x10\x04\x21\0\0\x03\x24\x01\x30\x03\xe8\x03";

/// A wire whose peer has an address.
#[derive(Drop)]
struct PeerWire<W> {
    wire: W,
    address: IpAddr,
}

impl<W: Wire> Wire for PeerWire<W> {
    ghost left = { λ wire. W.left wire.wire };

    ghost written = { λ wire. W.written wire.wire };

    ghost known = { λ wire. W.known wire.wire };

    ghost counts = { λ wire. W.counts wire.wire };

    fn read(&mut self, into: &mut [u8]) -> ReadOutcome {
        self.wire.read(into)
    }

    fn write(&mut self, from: &[u8]) -> Option<usize> {
        self.wire.write(from)
    }

    fn shut(&mut self) {
        self.wire.shut();
    }
}

impl<W> HasAddress for PeerWire<W> {
    ghost address_of = { λ wire. wire.address };

    fn address(&self) -> IpAddr {
        self.address
    }
}

/// The wire of the peer at 10.0.0.5.
fn peer<'a>(calls: &'a [Call<'a>], made: &'a Cell<usize>) -> PeerWire<ScriptedWire<'a>> {
    PeerWire {
        wire: ScriptedWire::new(calls, made),
        address: peer_address(),
    }
}

fn peer_address() -> IpAddr {
    IpAddr::V4(Ipv4Addr::new(10, 0, 0, 5))
}

/// The peers of the device, and the port of its owner.
fn device<'a>(
    alloc: Global,
    token: Option<&[u8]>,
) -> Result<(Peers<PeerWire<ScriptedWire<'a>>>, OwnerPort), Fail> {
    let configuration = Configuration::from_bytes(alloc, DEVICE)
        .ok()
        .ok_or("the configuration is read")?;
    let adapter = adapter_from(alloc, DEVICE)
        .ok()
        .ok_or("the adapter is made")?;
    let table = DeviceTable::new(alloc, &configuration)?;
    let token = match token {
        Some(token) => Some(Vec::from_slice(alloc, token)?),
        None => None,
    };
    let port = OwnerPort::new(alloc, table, token, 1_000_000, &adapter)?;
    let peers = Peers::new(alloc, adapter, NO_IDLE_TIMEOUT)?;
    Ok((peers, port))
}

/// The port of a device that has started again.
fn later_port(alloc: Global, peers: &Peers<PeerWire<ScriptedWire<'_>>>) -> Result<OwnerPort, Fail> {
    let configuration = Configuration::from_bytes(alloc, DEVICE)
        .ok()
        .ok_or("the configuration is read")?;
    let table = DeviceTable::new(alloc, &configuration)?;
    Ok(OwnerPort::new(alloc, table, None, 1_000_000, peers.adapter())?)
}

/// Feeds lines, and returns what is pending after them.
fn fed(
    alloc: Global,
    port: &mut OwnerPort,
    peers: &mut Peers<PeerWire<ScriptedWire<'_>>>,
    lines: &[u8],
) -> Result<String, Fail> {
    let mut rest = lines;
    while !rest.is_empty() && port.can_feed() {
        rest = port.feed(rest, peers);
    }
    pending(alloc, port)
}

/// What is pending. It counts as written.
fn pending(alloc: Global, port: &mut OwnerPort) -> Result<String, Fail> {
    let text = str::from_utf8(port.pending())
        .ok()
        .ok_or("the lines are text")?;
    let text = String::from_str(alloc, text)?;
    port.written(text.len());
    Ok(text)
}

#[test]
fn texts_of_line_faults(rt: HostRuntime) -> Result<(), Fail> {
    let rows = [
        (LineFault::TooLong, "line too long"),
        (LineFault::Token, "token expected"),
        (LineFault::NoCommand(7), "no such command: ticket 7"),
        (LineFault::NoQuestion(3), "no such question: 3"),
        (LineFault::LongReply, "reply too long"),
        (LineFault::ReservedStatus, "status 17 is not allowed"),
        (LineFault::NoAttribute, "no such attribute"),
        (LineFault::Size, "data: not a value of this size"),
        (
            LineFault::UnknownType,
            "values: the type of this attribute is not known",
        ),
    ];
    check_texts(&rt, rt.alloc(), &rows)?;
    let ends = [
        (SessionEnd::Token, "wrong token"),
        (SessionEnd::Slow, "reads too slowly"),
        (SessionEnd::Memory, "out of memory"),
    ];
    check_texts(&rt, rt.alloc(), &ends)
}

/// Lines of an owner, and their answers.
const LINES: [(&[u8], &str); 14] = [
    (b"{\"state\":3}\n", "{\"ok\":1}\n"),
    (b"{\"status\":96}\n", "{\"ok\":2}\n"),
    (b"no\n", "{\"error\":3,\"text\":\"not JSON\"}\n"),
    (
        b"{\"read\":{\"class\":768,\"instance\":1,\"attribute\":3}}\n",
        "{\"value\":{\"class\":768,\"instance\":1,\"attribute\":3,\"data\":\"dc05\",\"values\":[1500]}}\n{\"ok\":4}\n",
    ),
    (
        b"{\"read\":{\"class\":768,\"instance\":1,\"attribute\":5}}\n",
        "{\"error\":5,\"text\":\"no such attribute\"}\n",
    ),
    (
        b"{\"write\":{\"class\":768,\"instance\":1,\"attribute\":3,\"values\":[1200]}}\n",
        "{\"ok\":6}\n",
    ),
    (
        b"{\"write\":{\"class\":768,\"instance\":1,\"attribute\":3,\"data\":\"05\"}}\n",
        "{\"error\":7,\"text\":\"data: not a value of this size\"}\n",
    ),
    (
        b"{\"write\":{\"class\":768,\"instance\":2,\"attribute\":3,\"data\":\"0500\"}}\n",
        "{\"error\":8,\"text\":\"no such attribute\"}\n",
    ),
    (
        b"{\"write\":{\"class\":4,\"instance\":101,\"attribute\":3,\"data\":\"0102\"}}\n",
        "{\"ok\":9}\n",
    ),
    (
        b"{\"write\":{\"class\":4,\"instance\":101,\"attribute\":3,\"values\":[1]}}\n",
        "{\"error\":10,\"text\":\"values: the type of this attribute is not known\"}\n",
    ),
    (
        b"{\"write\":{\"class\":768,\"instance\":1,\"attribute\":4,\"values\":[\"off\"]}}\n",
        "{\"ok\":11}\n",
    ),
    (
        b"{\"write\":{\"class\":768,\"instance\":1,\"attribute\":4,\"values\":[\"loose\"]}}\n",
        "{\"error\":12,\"text\":\"data: not a value of this size\"}\n",
    ),
    (
        b"{\"write\":{\"class\":768,\"instance\":1,\"attribute\":3,\"values\":[65536]}}\n",
        "{\"error\":13,\"text\":\"values: not a value of the attribute's type\"}\n",
    ),
    (
        b"{\"done\":{\"ticket\":7,\"status\":0}}\n",
        "{\"error\":14,\"text\":\"no such command: ticket 7\"}\n",
    ),
];

#[test]
fn lines_are_answered_in_order(rt: HostRuntime) -> Result<(), Fail> {
    let alloc = rt.alloc();
    let (mut peers, mut port) = device(alloc, None)?;
    assert!(rt; !port.has_session() && !port.can_feed());
    port.begin(peers.adapter());
    assert!(rt; port.has_session() && !port.awaits_token());
    assert!(rt; pending(alloc, &mut port)?.as_str() == HELLO);
    for (line, answer) in LINES {
        let answered = fed(alloc, &mut port, &mut peers, line)?;
        assert!(rt; answered.as_str() == answer, "{}", answered.as_str());
    }
    // the owner's own writes are not reported as sets
    port.see_frame(peer_address(), peers.adapter());
    port.hand_over(peers.adapter());
    assert!(rt; port.pending().is_empty());
    port.end();
    assert!(rt; !port.has_session());
    Ok(())
}

#[test]
fn two_lines_at_once_and_a_cut_one(rt: HostRuntime) -> Result<(), Fail> {
    let alloc = rt.alloc();
    let (mut peers, mut port) = device(alloc, None)?;
    port.begin(peers.adapter());
    let _ = pending(alloc, &mut port)?;
    let rest = port.feed(b"{\"state\":3}\n{\"sta", &mut peers);
    assert!(rt; rest == b"{\"sta".as_slice());
    assert!(rt; fed(alloc, &mut port, &mut peers, b"{\"sta")?.as_str() == "{\"ok\":1}\n");
    assert!(rt; fed(alloc, &mut port, &mut peers, b"te\":3}\n")?.as_str() == "{\"ok\":2}\n");
    // the next owner does not go on with the line of the last one
    let _ = fed(alloc, &mut port, &mut peers, b"{\"sta")?;
    port.end();
    port.begin(peers.adapter());
    let _ = pending(alloc, &mut port)?;
    assert!(rt; fed(alloc, &mut port, &mut peers, b"{\"state\":3}\n")?.as_str() == "{\"ok\":1}\n");
    Ok(())
}

#[test]
fn tokens(rt: HostRuntime) -> Result<(), Fail> {
    let alloc = rt.alloc();
    let (mut peers, mut port) = device(alloc, Some(b"3f9a01"))?;
    port.begin(peers.adapter());
    assert!(rt; port.awaits_token() && port.pending().is_empty());
    // nothing is reported before the token has come
    port.hand_over(peers.adapter());
    let first = fed(alloc, &mut port, &mut peers, b"3f9a01\n{\"state\":3}\n")?;
    assert!(rt; first.as_str().starts_with(HELLO) && first.as_str().ends_with("}\n{\"ok\":1}\n"));
    port.end();
    port.begin(peers.adapter());
    let refused = fed(alloc, &mut port, &mut peers, b"3f9a02\n{\"state\":3}\n")?;
    assert!(rt; refused.as_str() == "{\"error\":0,\"text\":\"token expected\"}\n");
    assert!(rt; port.is_over() && port.ending() == Some(SessionEnd::Token));
    Ok(())
}

/// The lines of two sets.
const SETS: &str =
    "{\"changed\":{\"class\":4,\"instance\":101,\"attribute\":3,\"data\":\"dc05\",\"by\":\"10.0.0.5\"}}\n\
{\"changed\":{\"class\":768,\"instance\":1,\"attribute\":3,\"data\":\"e803\",\"values\":[1000],\"by\":\"10.0.0.5\"}}\n";

/// The line of the first command.
const COMMAND: &str =
    "{\"command\":{\"ticket\":1,\"class\":768,\"instance\":1,\"service\":50,\"data\":\"05000000\",\
\"by\":\"10.0.0.5\",\"again\":false}}\n";

/// A peer sets the data, sets the speed, sends a command, and sets the speed again: each set is reported, in this order, and
/// then the command, once it is marked.
#[test]
fn what_a_peer_does_is_reported_in_order(rt: HostRuntime) -> Result<(), Fail> {
    let alloc = rt.alloc();
    let set_data = unconnected(alloc, SET_DATA)?;
    let set_speed = unconnected(alloc, SET_SPEED)?;
    let command = unconnected(alloc, &request(alloc, 50, 1, b"\x05\0\0\0")?)?;
    let set = unconnected(alloc, b"\x90\0\0\0")?;
    let ticket = unconnected(alloc, b"\xb2\0\0\0\x01\0\0\0")?;
    let read = joined(
        alloc,
        &[REGISTER, &set_data, &set_speed, &command, &set_speed],
    )?;
    let calls = [
        Call::GivesAll(read.as_slice()),
        Call::Takes(REGISTERED, 28),
        Call::Takes(&set, set.len()),
        Call::Takes(&set, set.len()),
        Call::Takes(&ticket, ticket.len()),
        Call::Takes(&set, set.len()),
    ];
    let made = Cell::new(0);
    let (mut peers, mut port) = device(alloc, None)?;
    port.begin(peers.adapter());
    let _ = pending(alloc, &mut port)?;
    assert_eq!(rt; peers.add(0, peer(&calls, &made)), Ok(0));
    assert!(rt; !port.has_unmarked(peers.adapter()));
    peers.round_watched(0, &mut NoOwner, &mut port);
    assert_eq!(rt; made.get(), calls.len());
    let reported = pending(alloc, &mut port)?;
    let text = reported.as_str();
    assert!(rt; text.starts_with(SETS));
    assert!(rt; text[SETS.len()..].starts_with("{\"changed\":"));
    assert!(rt; text.ends_with("\"data\":\"e803\",\"values\":[1000],\"by\":\"10.0.0.5\"}}\n"));
    // the command is not marked
    port.hand_over(peers.adapter());
    assert!(rt; port.pending().is_empty() && port.has_unmarked(peers.adapter()));
    port.mark(&mut peers);
    assert!(rt; port.pending().is_empty() && !port.has_unmarked(peers.adapter()));
    port.hand_over(peers.adapter());
    assert!(rt; pending(alloc, &mut port)?.as_str() == COMMAND);
    // nothing twice
    port.mark(&mut peers);
    port.hand_over(peers.adapter());
    assert!(rt; port.pending().is_empty());
    Ok(())
}

/// The session begins, and all that it is handed, without the first line.
fn handed(
    alloc: Global,
    port: &mut OwnerPort,
    peers: &mut Peers<PeerWire<ScriptedWire<'_>>>,
) -> Result<String, Fail> {
    port.begin(peers.adapter());
    let _ = pending(alloc, port)?;
    port.mark(peers);
    port.hand_over(peers.adapter());
    pending(alloc, port)
}

/// Lines about the command, and their answers.
const DONE: [(&[u8], &str); 4] = [
    (
        b"{\"done\":{\"ticket\":1,\"status\":0,\"data\":\"0506\"}}\n",
        "{\"error\":1,\"text\":\"reply too long\"}\n",
    ),
    (
        b"{\"done\":{\"ticket\":1,\"status\":17}}\n",
        "{\"error\":2,\"text\":\"status 17 is not allowed\"}\n",
    ),
    (
        b"{\"done\":{\"ticket\":1,\"status\":0,\"data\":\"05\"}}\n",
        "{\"ok\":3}\n",
    ),
    (
        b"{\"done\":{\"ticket\":1,\"status\":0,\"data\":\"05\"}}\n",
        "{\"error\":4,\"text\":\"no such command: ticket 1\"}\n",
    ),
];

/// A command waits while there is no owner. Each session is handed it until it is done.
#[test]
fn a_command_is_handed_over_until_it_is_done(rt: HostRuntime) -> Result<(), Fail> {
    let alloc = rt.alloc();
    let command = unconnected(alloc, &request(alloc, 50, 1, b"\x05\0\0\0")?)?;
    let ticket = unconnected(alloc, b"\xb2\0\0\0\x01\0\0\0")?;
    let read = joined(alloc, &[REGISTER, &command])?;
    let calls = [
        Call::GivesAll(read.as_slice()),
        Call::Takes(REGISTERED, 28),
        Call::Takes(&ticket, ticket.len()),
    ];
    let made = Cell::new(0);
    let (mut peers, mut port) = device(alloc, None)?;
    assert_eq!(rt; peers.add(0, peer(&calls, &made)), Ok(0));
    peers.round_watched(0, &mut NoOwner, &mut port);
    // without an owner nothing is marked
    port.mark(&mut peers);
    port.hand_over(peers.adapter());
    assert!(rt; port.pending().is_empty() && !port.has_unmarked(peers.adapter()));
    assert!(rt; handed(alloc, &mut port, &mut peers)?.as_str() == COMMAND);
    port.end();
    let again = handed(alloc, &mut port, &mut peers)?;
    assert!(rt;
        again
            .as_str()
            .ends_with("\"by\":\"10.0.0.5\",\"again\":true}}\n")
    );
    for (line, answer) in DONE {
        let answered = fed(alloc, &mut port, &mut peers, line)?;
        assert!(rt; answered.as_str() == answer, "{}", answered.as_str());
    }
    port.end();
    assert!(rt; handed(alloc, &mut port, &mut peers)?.is_empty());
    Ok(())
}

/// A command that no owner has seen before a restart is new after it. One that was marked comes again, even if the device
/// ended before its line left.
#[test]
fn a_mark_outlives_a_restart(rt: HostRuntime) -> Result<(), Fail> {
    let alloc = rt.alloc();
    let command = unconnected(alloc, &request(alloc, 50, 1, b"\x05\0\0\0")?)?;
    let ticket = unconnected(alloc, b"\xb2\0\0\0\x01\0\0\0")?;
    let read = joined(alloc, &[REGISTER, &command])?;
    let calls = [
        Call::GivesAll(read.as_slice()),
        Call::Takes(REGISTERED, 28),
        Call::Takes(&ticket, ticket.len()),
    ];
    let made = Cell::new(0);
    let (mut peers, mut port) = device(alloc, None)?;
    assert_eq!(rt; peers.add(0, peer(&calls, &made)), Ok(0));
    peers.round_watched(0, &mut NoOwner, &mut port);
    let mut unseen = later_port(alloc, &peers)?;
    assert!(rt;
        handed(alloc, &mut unseen, &mut peers)?
            .as_str()
            .ends_with("\"again\":false}}\n")
    );
    let mut marked = later_port(alloc, &peers)?;
    assert!(rt;
        handed(alloc, &mut marked, &mut peers)?
            .as_str()
            .ends_with("\"again\":true}}\n")
    );
    Ok(())
}

/// An owner that does not read is not fed any more, and loses nothing.
#[test]
fn answers_wait_until_they_fit(rt: HostRuntime) -> Result<(), Fail> {
    let alloc = rt.alloc();
    let (mut peers, mut port) = device(alloc, None)?;
    port.begin(peers.adapter());
    let line = b"{\"read\":{\"class\":4,\"instance\":101,\"attribute\":3}}\n";
    let mut lines = 0;
    for _ in 0..10_000 {
        if port.can_feed() {
            assert!(rt; port.feed(line, &mut peers).is_empty());
            lines += 1;
        }
    }
    assert!(rt; !port.can_feed() && !port.is_over());
    assert!(rt; port.pending().len() <= OUTPUT_LIMIT);
    assert!(rt; port.feed(line, &mut peers) == line.as_slice());
    let text = pending(alloc, &mut port)?;
    let last = format!(in alloc; "{{\"ok\":{lines}}}\n")?;
    assert!(rt; text.as_str().ends_with(last.as_str()));
    assert!(rt; port.can_feed());
    Ok(())
}
