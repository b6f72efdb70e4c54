//! The lines that `enip replay` prints: the outcome of an event, and the final state.

ghost use Rattle.std.specs.Prelude.{◌≡◌, Some};
ghost use Rattle.enip_replay.specs.Outcome.{counter_number};

use byteorder::{ByteOrder, LittleEndian};
use cip_bytes::protocol::COUNTER;
use cip_class3::Stage;
use cip_objects::Objects;
use enip_bench::{Event, OwnWrite, Step};
use enip_faults::Digits;
use std::fmt;

/// The line of an event, without the digits of a request or of a reply.
#[derive(Clone, Copy)]
struct Words<'a>(&'a Event);

impl fmt::Display for Words<'_> {
    ghost use Rattle.enip_bench.specs.Stored.{event_in};
    ghost use Rattle.enip_replay.specs.Outcome.{words};

    ghost output = { λ w. Some (words (event_in w.0.now)) };

    fn fmt<W: fmt::Write>(&self, f: &mut fmt::Formatter<W>) -> fmt::Result {
        match self.0 {
            Event::Submit(_) => f.write_str("submit"),
            Event::Resend => f.write_str("resend"),
            Event::Reach(position) => write!(f, "reach {position}"),
            Event::Back(position) => write!(f, "back {position}"),
            Event::Other(_) => f.write_str("other"),
            Event::Write(OwnWrite::Prepare(reply)) => write!(f, "owner {}", reply.status()),
            Event::Write(_) => f.write_str("write"),
            Event::Shut => f.write_str("shut"),
            Event::GiveUp => f.write_str("giveup"),
        }
    }
}

/// An event and its outcome.
#[derive(Clone, Copy)]
pub(crate) struct Outcome<'a, 'b> {
    pub(crate) event: &'a Event,
    pub(crate) step: Step<'b>,
}

impl fmt::Display for Outcome<'_, '_> {
    ghost use Rattle.enip_bench.specs.Stored.{event_in, event_result_in};
    ghost use Rattle.enip_replay.specs.Outcome.{outcome};

    ghost output = { λ o. Some (outcome (event_in o.event.now) (event_result_in o.step)) };

    fn fmt<W: fmt::Write>(&self, f: &mut fmt::Formatter<W>) -> fmt::Result {
        write!(f, "{}", Words(self.event))?;
        match self.step {
            Step::Sent(number, position) => write!(f, " {number} sent {position}"),
            Step::Refused(why) => write!(f, " refused {}", why.number()),
            Step::Resent(Some(position)) => write!(f, " {position}"),
            Step::Reached(Some(position)) => write!(f, " back {position}"),
            Step::Resent(None) | Step::Reached(None) => f.write_str(" none"),
            Step::Accepted(reply) => write!(f, " accepted {}", Digits(reply)),
            Step::Ignored => f.write_str(" ignored"),
            Step::Impossible => f.write_str(" impossible"),
            Step::Done => match self.event {
                Event::Other(_) => f.write_str(" done"),
                _ => Ok(()),
            },
        }
    }
}

/// The value and limit of the counter, and its number of additions.
#[derive(Clone, Copy)]
pub(crate) struct Counter {
    value: u32,
    limit: u32,
    additions: u32,
}

impl Counter {
    /// The counter of the objects.
    pub(crate) fn of(objects: &Objects) -> Counter
        ensures value { result.value ≡ counter_number objects.now 1 }
        ensures limit { result.limit ≡ counter_number objects.now 2 }
        ensures additions { result.additions ≡ counter_number objects.now 3 }
    {
        Counter {
            value: counter_number(objects, 1),
            limit: counter_number(objects, 2),
            additions: counter_number(objects, 3),
        }
    }
}

impl fmt::Display for Counter {
    ghost use Rattle.enip_replay.specs.Outcome.{counter_line};

    ghost output = { λ c. Some (counter_line c.value c.limit c.additions) };

    fn fmt<W: fmt::Write>(&self, f: &mut fmt::Formatter<W>) -> fmt::Result {
        let Counter {
            value,
            limit,
            additions,
        } = *self;
        write!(f, "counter {value} {limit} {additions}")
    }
}

/// An attribute of the counter, or 0 if there is none.
fn counter_number(objects: &Objects, attribute: u16) -> u32
    ensures { result ≡ counter_number objects.now attribute }
{
    match objects.attribute(COUNTER, 1, attribute) {
        Some(bytes) if bytes.len() >= 4 => LittleEndian::read_u32(bytes.as_slice()),
        _ => 0,
    }
}

/// The data of an assembly.
#[derive(Clone, Copy)]
pub(crate) struct AssemblyData<'a> {
    pub(crate) instance: u32,
    pub(crate) data: &'a [u8],
}

impl fmt::Display for AssemblyData<'_> {
    ghost use Rattle.enip_replay.specs.Outcome.{assembly_line};

    ghost output = { λ a. Some (assembly_line a.instance a.data.now) };

    fn fmt<W: fmt::Write>(&self, f: &mut fmt::Formatter<W>) -> fmt::Result {
        write!(f, "assembly {} {}", self.instance, Digits(self.data))
    }
}

/// The state of the client.
#[derive(Clone, Copy)]
pub(crate) struct FinalState(pub(crate) Stage);

impl fmt::Display for FinalState {
    ghost use Rattle.enip_replay.specs.Outcome.{final_line};

    ghost output = { λ s. Some (final_line s.0) };

    fn fmt<W: fmt::Write>(&self, f: &mut fmt::Formatter<W>) -> fmt::Result {
        f.write_str(match self.0 {
            Stage::Idle => "client idle",
            Stage::Waiting => "client waiting",
            Stage::GivenUp => "client given up",
        })
    }
}
