//! The originator's end of a class 3 connection.
//! Text: docs/PROTOCOL.md, "A class 3 connection: counts, repeats and giving up".

ghost use Rattle.std.specs.Prelude.{◌≡◌, ℕ, ◌≤◌, ◌+◌, Some, None, IfOk, IfErr, IfSome, OnOk, length};
ghost use Rattle.std.specs.Option.{option_map};
ghost use Rattle.std.specs.Borrow.{sem};
ghost use Rattle.std.specs.Io.BufRead.{Rests};
ghost use Rattle.cip_message.specs.Reply.{reply_service};
ghost use Rattle.cip_class3.specs.Item.{item};
ghost use Rattle.cip_class3.specs.OriginatorRule.{answers};

use crate::item::write_item;
use byteorder::{ByteOrder, LittleEndian};
use cip_bytes::protocol::{
    LARGEST_CONNECTION_SIZE, SEQUENCE_COUNT_SIZE, SMALLEST_O_TO_T_SIZE, SMALLEST_REPLY,
    SMALLEST_REQUEST, SMALLEST_T_TO_O_SIZE,
};
use cip_message::reply_service;
use std::alloc::{AllocError, Global};
use std::boxed::BoxedSlice;
use std::marker::Model;
use thiserror::Error;

/// Why a request was refused. Nothing changed, and no sequence count was used.
#[derive(Clone, Copy, Debug, PartialEq, Eq, Error)]
pub enum Refused {
    /// Another request is waiting for its reply.
    #[error("another request is waiting for its reply")]
    Busy = 1,
    /// The request with its sequence count is longer than the O->T size.
    #[error("the request is longer than the connection's size")]
    TooLong = 2,
    /// The request has fewer than 2 bytes, or its service has bit 7 set, which marks a reply.
    #[error("not a request: 2 bytes or more, and a service below 0x80")]
    NoRequest = 3,
    /// Not used any more: an originator continues after it gave up a request.
    #[error("a request was given up")]
    GivenUp = 4,
    /// 65,535 requests were submitted since the last accepted reply, or since the opening.
    #[error("65,535 requests were submitted since the last accepted reply")]
    TooManyAbandoned = 5,
}

impl Refused {
    ghost use Rattle.cip_class3.specs.OriginatorRule.{refused_number};

    /// The number of the refusal, as printed.
    pub fn number(self) -> u8
        ensures { result ≡ refused_number self }
    {
        self as u8
    }
}

/// The state of an originator.
#[derive(Clone, Copy, Debug, PartialEq, Eq)]
pub enum Stage {
    /// A request can be submitted.
    Idle,
    /// A request is waiting for its reply.
    Waiting,
    /// The last request was given up. Another can be submitted.
    GivenUp,
}

/// The most requests that may be submitted since the last accepted reply: one less than there are sequence counts.
/// So a request that is held, delivered or awaited never has the count of another one.
const MOST_UNACCEPTED: u16 = 65_535;

/// The result of receiving an item.
#[derive(Clone, Copy, Debug, PartialEq, Eq)]
pub enum Came<'a> {
    /// The reply to the waiting request.
    Accepted(&'a [u8]),
    /// Anything else. Nothing changed.
    Ignored,
}

/// The state of an originator, with the count and the length of the waiting item in the block.
#[derive(Clone, Copy)]
enum Progress {
    Idle,
    Waiting { sequence_count: u16, length: usize },
    GivenUp,
}

/// The originator's end of a class 3 connection. At most one request waits for its reply.
///
/// ```
/// let mut originator = Originator::new(alloc, 1, 500, 500)?;
/// let item = originator.submit(&[0x0e, 0x03, 0x20, 0x64, 0x24, 0x01, 0x30, 0x01])?;
/// assert_eq!(rt; &item[..2], [0x01, 0x00].as_slice()); // the sequence count
/// assert_eq!(rt; originator.stage(), Stage::Waiting);
/// ```
#[derive(Drop)]
pub struct Originator {
    o_to_t_size: u16,
    t_to_o_size: u16,
    /// The sequence count of the next request.
    next: u16,
    /// How many requests were submitted since the last accepted reply.
    unaccepted: u16,
    progress: Progress,
    /// A block of the O->T size. The waiting item is at its front.
    block: BoxedSlice<u8>,
}

impl Model for Originator {
    ghost use Rattle.cip_class3.specs.OriginatorRule.{OriginatorState};

    ghost Value = { OriginatorState };

    ghost use Rattle.cip_class3.specs.Originator.{originator_state, IsOriginator};

    ghost view = { originator_state };

    ghost invariant = { IsOriginator };
}

impl Originator {
    ghost use Rattle.cip_class3.specs.OriginatorRule.{originator_at_opening, submit_refusal, with_next_request};
    ghost use Rattle.cip_class3.specs.OriginatorRule.{waiting_item, after_item, accepted_reply, is_waiting};
    ghost use Rattle.cip_class3.specs.OriginatorRule.{after_give_up, stage_of, is_reply};
    ghost use Rattle.cip_class3.specs.ReceivedReply.{reply_in};
    ghost use Rattle.cip_class3.specs.contracts.originator.Originator.{the_row};

    /// The originator's end of a connection that was just opened. Its first request has the sequence count `first`.
    ///
    /// The sizes are in bytes and include the two bytes of an item's sequence count. No later call allocates.
    ///
    /// # Errors
    ///
    /// `AllocError` if memory is refused.
    pub fn new(
        alloc: Global,
        first: u16,
        o_to_t_size: u16,
        t_to_o_size: u16,
    ) -> Result<Originator, AllocError>
        requires o_to_t_from { SMALLEST_O_TO_T_SIZE ≤ o_to_t_size }
        requires o_to_t_to { o_to_t_size ≤ LARGEST_CONNECTION_SIZE }
        requires t_to_o_from { SMALLEST_T_TO_O_SIZE ≤ t_to_o_size }
        requires t_to_o_to { t_to_o_size ≤ LARGEST_CONNECTION_SIZE }
        ensures { IfOk result (λ originator. originator ≡ originator_at_opening first o_to_t_size t_to_o_size) }
    {
        Ok(Originator {
            o_to_t_size,
            t_to_o_size,
            next: first,
            unaccepted: 0,
            progress: Progress::Idle,
            block: vec![in alloc; 0; o_to_t_size as usize]?.into_boxed_slice(),
        })
    }

    /// Accepts a request with the next sequence count, and lends the item to send.
    ///
    /// # Errors
    ///
    /// The first of these: `TooManyAbandoned`, `Busy`, `NoRequest`, `TooLong`. Then nothing changes, and no count
    /// is used.
    pub fn submit(&mut self, request: &[u8]) -> Result<&[u8], Refused>
        ensures refused { IfErr result (λ why. submit_refusal self.old request.now ≡ Some why) }
        ensures allowed { OnOk result (submit_refusal self.old request.now ≡ None) }
        ensures lent { IfOk result (λ lent. lent.now ≡ item self.old.next request.now) }
        ensures fits { IfOk result (λ lent. length lent.now ≤ self.old.o_to_t_size) }
        ensures within { IfOk result (λ lent. length lent.now ≤ LARGEST_CONNECTION_SIZE) }
        ensures* after { sem 𝓛 (Rests the_row self.entry (λ new.
            IfErr result (λ _. new ≡ self.old) × IfOk result (λ _. new ≡ with_next_request self.old request.now))) }
    {
        if let Some(why) = self.submit_refusal(request) {
            return Err(why);
        }
        let sequence_count = self.next;
        let length = SEQUENCE_COUNT_SIZE + request.len();
        write_item(self.block.as_mut_slice(), sequence_count, request);
        self.progress = Progress::Waiting {
            sequence_count,
            length,
        };
        // After 65,535 the sequence count starts again at 0.
        self.next = sequence_count.wrapping_add(1);
        self.unaccepted += 1;
        Ok(&self.block.as_slice()[..length])
    }

    /// Lends the item of the waiting request again.
    pub fn resend(&self) -> Option<&[u8]>
        ensures lent { option_map (λ lent. lent.now) result ≡ waiting_item self.now.phase }
        ensures fits { IfSome result (λ lent. length lent.now ≤ self.now.o_to_t_size) }
        ensures within { IfSome result (λ lent. length lent.now ≤ LARGEST_CONNECTION_SIZE) }
    {
        match self.progress {
            Progress::Waiting { length, .. } => Some(&self.block.as_slice()[..length]),
            _ => None,
        }
    }

    /// Accepts the reply to the waiting request, and lends it from the item.
    pub fn receive<'a>(&mut self, item: &'a [u8]) -> Came<'a>
        ensures reply { reply_in result ≡ accepted_reply self.old item.now }
        ensures state { self.new ≡ after_item self.old item.now }
    {
        if !self.is_reply(item) {
            return Came::Ignored;
        }
        self.progress = Progress::Idle;
        self.unaccepted = 0;
        Came::Accepted(&item[SEQUENCE_COUNT_SIZE..])
    }

    /// Gives up the waiting request: its reply is never accepted. Returns false if no request is waiting.
    ///
    /// The request may be executed once or not at all, now or later. Another request can be submitted.
    pub fn give_up(&mut self) -> bool
        ensures waited { result ≡ is_waiting self.old.phase }
        ensures state { self.new ≡ after_give_up self.old }
    {
        let waits = matches!(self.progress, Progress::Waiting { .. });
        if waits {
            self.progress = Progress::GivenUp;
        }
        waits
    }

    /// The state of the originator.
    pub fn stage(&self) -> Stage
        ensures { result ≡ stage_of self.now.phase }
    {
        match self.progress {
            Progress::Idle => Stage::Idle,
            Progress::Waiting { .. } => Stage::Waiting,
            Progress::GivenUp => Stage::GivenUp,
        }
    }

    /// Why the request is refused now, in the order of the checks.
    fn submit_refusal(&self, request: &[u8]) -> Option<Refused>
        ensures { result ≡ submit_refusal self.now request.now }
    {
        // The next sequence count could be that of a request that is still held or delivered.
        if self.unaccepted == MOST_UNACCEPTED {
            return Some(Refused::TooManyAbandoned);
        }
        if matches!(self.progress, Progress::Waiting { .. }) {
            return Some(Refused::Busy);
        }
        // A request has a service and a path size at least. Bit 7 of the service marks a reply.
        if request.len() < SMALLEST_REQUEST || request[0] >= 0x80 {
            return Some(Refused::NoRequest);
        }
        // The O->T size includes the sequence count.
        if SEQUENCE_COUNT_SIZE + request.len() > self.o_to_t_size as usize {
            return Some(Refused::TooLong);
        }
        None
    }

    /// Whether the item is the reply to the waiting request.
    fn is_reply(&self, item: &[u8]) -> bool
        ensures { result ≡ is_reply self.now.t_to_o_size self.now.phase item.now }
    {
        match self.progress {
            Progress::Waiting { sequence_count, .. } => {
                let service = self.block[SEQUENCE_COUNT_SIZE];
                answers(item, self.t_to_o_size, sequence_count, service)
            }
            _ => false,
        }
    }
}

/// Whether the item answers a request with this sequence count and service: the size is in range, and count and
/// service match.
fn answers(item: &[u8], t_to_o_size: u16, sequence_count: u16, service: u8) -> bool
    ensures { result ≡ answers t_to_o_size sequence_count service item.now }
{
    SEQUENCE_COUNT_SIZE + SMALLEST_REPLY <= item.len()
        && item.len() <= t_to_o_size as usize
        && LittleEndian::read_u16(item) == sequence_count
        && item[SEQUENCE_COUNT_SIZE] == reply_service(service)
}
