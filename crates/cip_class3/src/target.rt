//! The target's end of a class 3 connection.
//! Text: docs/PROTOCOL.md, "A class 3 connection: counts, repeats and giving up".

ghost use Rattle.std.specs.Prelude.{◌≡◌, ℕ, ◌≤◌, ◌+◌, ◌-◌, ◌<◌, Option, Some, None, IfSome, length};
ghost use Rattle.std.specs.Option.{option_map};
ghost use Rattle.cip_class3.specs.TargetRule.{kept_bytes};
ghost use Rattle.cip_class3.specs.KeptReply.{kept_of};
ghost use Rattle.cip_class3.specs.Item.{message_of};

use arrayvec::ArrayVec;
use byteorder::{ByteOrder, LittleEndian};
use cip_bytes::protocol::{
    LARGEST_CONNECTION_SIZE, REPLY_LIMIT, SEQUENCE_COUNT_SIZE, SMALLEST_O_TO_T_SIZE,
    SMALLEST_REQUEST, SMALLEST_T_TO_O_SIZE,
};
use cip_message::{ReplyBuf, Router};
use std::marker::Model;

/// What a target did with an item.
#[derive(Clone, Copy, Debug, PartialEq, Eq)]
pub enum Received {
    /// The item has fewer than 4 bytes, or more than the connection's O->T size. Nothing changed.
    Dropped,
    /// The item's sequence count is the one that is held. Nothing changed, and the kept reply answers it.
    Repeated,
    /// The request was executed. Its sequence count and reply are held.
    Executed,
}

/// The sequence count and the reply of the last request that was executed.
#[derive(Clone, Copy, Debug, PartialEq, Eq)]
pub struct KeptReply<'a> {
    /// The request's sequence count.
    pub sequence_count: u16,
    /// The reply to that request.
    pub reply: &'a [u8],
}

/// The target's end of a class 3 connection. It holds the sequence count and the reply of the last request that it
/// executed.
///
/// ```
/// let mut target = Target::new(500, 500);
/// assert_eq!(rt; target.receive(objects, item), Received::Executed);
/// assert_eq!(rt; target.receive(objects, item), Received::Repeated); // `objects` is unchanged
/// ```
#[derive(Drop)]
pub struct Target {
    o_to_t_size: u16,
    t_to_o_size: u16,
    /// The sequence count that is held, if any.
    held: Option<u16>,
    /// The reply that is held with it. The router writes it in place.
    reply: ReplyBuf,
}

impl Model for Target {
    ghost use Rattle.cip_class3.specs.TargetRule.{TargetState};

    ghost Value = { TargetState };

    ghost use Rattle.cip_class3.specs.Target.{target_state, IsTarget};

    ghost view = { target_state };

    ghost invariant = { IsTarget };
}

impl Target {
    ghost use Rattle.cip_class3.specs.TargetRule.{target_at_opening, step_of, target_step, IsAccepted, IsRepeat};
    ghost use Rattle.cip_class3.specs.TargetRule.{HasNewCount, execution_limit};

    /// The target's end of a connection that was just opened. It holds nothing.
    ///
    /// The sizes are in bytes and include the two bytes of an item's sequence count.
    pub fn new(o_to_t_size: u16, t_to_o_size: u16) -> Target
        requires o_to_t_from { SMALLEST_O_TO_T_SIZE ≤ o_to_t_size }
        requires o_to_t_to { o_to_t_size ≤ LARGEST_CONNECTION_SIZE }
        requires t_to_o_from { SMALLEST_T_TO_O_SIZE ≤ t_to_o_size }
        requires t_to_o_to { t_to_o_size ≤ LARGEST_CONNECTION_SIZE }
        ensures { result ≡ target_at_opening o_to_t_size t_to_o_size }
    {
        Target {
            o_to_t_size,
            t_to_o_size,
            held: None,
            reply: ArrayVec::new(),
        }
    }

    /// Executes the item's request, unless its sequence count is the one that is held.
    #[inline(always)]
    pub fn receive<R: Router>(&mut self, router: &mut R, item: &[u8]) -> Received
        ensures rule { step_of result self.new router.new
            ≡ target_step R.after R.answer self.old router.old item.now }

        // A repeat changes nothing: the router's state is equal, and the same bytes answer it.
        ensures repeat { IsAccepted self.old item.now → IsRepeat self.old item.now →
            (result ≡ Received.Repeated) × (router.new ≡ router.old)
            × (kept_bytes self.new.held ≡ kept_bytes self.old.held) }
        // Any other count is executed, even if the request has the same bytes as the one before it.
        ensures another { IsAccepted self.old item.now → HasNewCount self.old item.now →
            (result ≡ Received.Executed)
            × (router.new ≡ R.after router.old (self.old.t_to_o_size - 2) (message_of item.now)) }
    {
        // An item is a sequence count and a request, and fits the O->T size.
        if item.len() < SEQUENCE_COUNT_SIZE + SMALLEST_REQUEST
            || item.len() > self.o_to_t_size as usize
        {
            return Received::Dropped;
        }
        let sequence_count = LittleEndian::read_u16(item);
        // The sequence count alone decides. A target that holds nothing does not hold count 0.
        if self.held == Some(sequence_count) {
            return Received::Repeated;
        }
        let max_size = self.t_to_o_size as usize - SEQUENCE_COUNT_SIZE;
        router.execute(&item[SEQUENCE_COUNT_SIZE..], max_size, &mut self.reply);
        self.held = Some(sequence_count);
        Received::Executed
    }

    /// The limit on the reply with which `receive` would execute this item's request, in bytes: the `max_size` of the
    /// router's `execute`. `None` if `receive` would drop the item, or answer it as a repeat.
    ///
    /// ```
    /// if let Some(max_size) = target.would_execute(item) {
    ///     prepare(&item[2..], max_size); // the request, which `receive` executes next
    /// }
    /// assert_eq!(rt; target.receive(objects, item), Received::Executed);
    /// assert!(rt; target.would_execute(item).is_none()); // it is a repeat now
    /// ```
    pub fn would_execute(&self, item: &[u8]) -> Option<usize>
        ensures limit { result ≡ execution_limit self.now item.now }
        // Only an item that is accepted and has a new count, and every such item.
        ensures only { IfSome result (λ max_size. IsAccepted self.now item.now × HasNewCount self.now item.now) }
        ensures every { IsAccepted self.now item.now → HasNewCount self.now item.now →
            result ≡ Some (self.now.t_to_o_size - 2) }
        // What `Router::execute` requires.
        ensures from { IfSome result (λ max_size. 8 ≤ max_size) }
        ensures to { IfSome result (λ max_size. max_size ≤ REPLY_LIMIT) }
    {
        let smallest = SEQUENCE_COUNT_SIZE + SMALLEST_REQUEST;
        let largest = usize::from(self.o_to_t_size);
        if item.len() < smallest || item.len() > largest {
            return None;
        }
        if self.held == Some(LittleEndian::read_u16(item)) {
            return None;
        }
        Some(usize::from(self.t_to_o_size) - SEQUENCE_COUNT_SIZE)
    }

    /// The held sequence count and reply, which answer the last request. `None` before the first execution.
    #[inline(always)]
    pub fn kept(&self) -> Option<KeptReply<'_>>
        ensures held { option_map kept_of result ≡ self.now.held }
        // The reply with its sequence count fits the T->O size.
        ensures fits { IfSome result (λ kept. length kept.reply.now + SEQUENCE_COUNT_SIZE ≤ self.now.t_to_o_size) }
        ensures within { IfSome result (λ kept. length kept.reply.now + SEQUENCE_COUNT_SIZE ≤ LARGEST_CONNECTION_SIZE) }
    {
        match self.held {
            Some(sequence_count) => Some(KeptReply {
                sequence_count,
                reply: self.reply.as_slice(),
            }),
            None => None,
        }
    }
}
