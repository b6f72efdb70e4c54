//! Feeds that ask the owner of the device.
//! Text: docs/PROTOCOL.md, "A peer".

ghost use Rattle.std.specs.Prelude.{◌≡◌, ◌<◌, ◌≤◌, length, false, IfSome, is_some, is_none};
ghost use Rattle.std.specs.Borrow.{sem};
ghost use Rattle.std.specs.Io.BufRead.{Rests};
ghost use Rattle.std.specs.Option.{option_map};
ghost use Rattle.cip_ledger.specs.Reaching.{listed};
ghost use Rattle.cip_objects.specs.OwnRequests.{asked_in};
ghost use Rattle.enip_adapter.specs.Adapter.{feed_output};

use super::lend;
use crate::adapter::{Adapter, Fed};
use crate::asked_head::{copy_asked, lend_asked};
use crate::commands::{asked, executing, withdraw};
use crate::peer::Peer;
use crate::reply::LONGEST_ANSWER;
use cip_ledger::DoubtfulCommand;
use cip_owner::{OwnRequest, Owner, OwnerReply};

impl Adapter {
    ghost use Rattle.enip_adapter.specs.Asks.{asks_of_call, prepared_feed, with_reply};
    ghost use Rattle.enip_adapter.specs.Asks.{after_asking, asking_adapter, owner_after};
    ghost use Rattle.enip_adapter.specs.Calls.{Call, call_meaning, call_answer, after_call};
    ghost use Rattle.enip_adapter.specs.Executing.{executing};
    ghost use Rattle.enip_adapter.specs.Runs.{after_calls};
    ghost use Rattle.enip_adapter.specs.Withdrawing.{found_by_piece, is_withdrawing, requests_of_piece};
    ghost use Rattle.enip_adapter.specs.contracts.adapter.Adapter.{the_row};

    /// What the owner of the device would be asked if these bytes were fed now: the own request of the frame that they
    /// complete, if it would reach the objects. `None` if nothing would be asked. Takes the time into account as `tick`
    /// does; nothing else changes. The data of the request are lent from a buffer of the adapter.
    ///
    /// A repeat of a request on a connection asks nothing, and neither does a command that the ledger has executed.
    ///
    /// ```
    /// let fed = match adapter.asked(now, &peer, piece) {
    ///     Some(request) => {
    ///         let reply = conveyor.answer(&request);
    ///         adapter.feed_prepared(now, &peer, piece, reply)
    ///     }
    ///     None => adapter.feed(now, &peer, piece),
    /// };
    /// ```
    pub fn asked(&mut self, now: u64, peer: &Peer, piece: &[u8]) -> Option<OwnRequest<'_>>
        ensures* state { sem 𝓛 (Rests the_row self.entry (λ last. last ≡ after_call self.old (Call.Ticks now))) }
        ensures asked { listed (option_map asked_in result)
            ≡ asks_of_call self.old (Call.Feeds now peer.now piece.now) }
        ensures ticked { listed (option_map asked_in result)
            ≡ asks_of_call (after_call self.old (Call.Ticks now)) (Call.Feeds now peer.now piece.now) }
    {
        self.shared.advance(now);
        // Most devices have no application objects. Then nothing is asked, and no byte is looked at.
        if !self.shared.objects.router.objects.has_application_objects() {
            return None;
        }
        let seen = self.places.peek(peer.handle, piece);
        let head = copy_asked(asked(&self.shared, seen), &mut self.reply);
        lend_asked(head, &self.reply)
    }

    /// The command of the ledger that would be executed if these bytes were fed now: that of the frame which they
    /// complete. `None` if none would, or if the command would be queued. Nothing changes.
    ///
    /// If `asked` returns a request that a numbered command embeds, this is the command. An owner that keeps the ledger
    /// keeps it with this command in doubt before it executes the request.
    ///
    /// ```
    /// if let Some(command) = adapter.executing(&peer, piece) {
    ///     keep_in_doubt(&adapter, command); // the originator, and the number
    /// }
    /// ```
    pub fn executing(&mut self, peer: &Peer, piece: &[u8]) -> Option<DoubtfulCommand>
        ensures state { self.new ≡ self.old }
        ensures command { result ≡ executing self.old peer.now piece.now }
    {
        executing(&self.shared, self.places.peek(peer.handle, piece))
    }

    /// Withdraws what the request in these bytes withdraws: that of the frame which they complete. Call it before each
    /// feed of an adapter that has a ledger, at the time of `tick`. Withdraw and Forget of a pending command take it out of
    /// the queue, if no owner was handed it, and Withdraw of a number that was not used uses it up. The feed answers what
    /// has become of the command. No other request withdraws anything, and nothing else changes.
    ///
    /// Returns whether something was withdrawn: the ledger changed, and perhaps the queue.
    ///
    /// ```
    /// adapter.tick(now);
    /// adapter.withdraw_asked(&peer, piece);
    /// let fed = adapter.feed(now, &peer, piece);
    /// ```
    pub fn withdraw_asked(&mut self, peer: &Peer, piece: &[u8]) -> bool
        ensures state { self.new ≡ found_by_piece self.old peer.now piece.now }
        ensures told { result
            ≡ is_withdrawing self.old.state.shared.objects (requests_of_piece self.old peer.now piece.now) }
    {
        // Without a ledger nothing is withdrawn, and no byte is looked at.
        if self.shared.objects.ledger.is_none() {
            return false;
        }
        let seen = self.places.peek(peer.handle, piece);
        withdraw(&mut self.shared, seen)
    }

    /// Feeds bytes as `feed` does, with the owner's reply to the request that they ask. `None` is answered 0x10, as a
    /// request to the owner is without this call. Afterwards no reply is prepared, whether the bytes asked or not.
    pub fn feed_prepared(
        &mut self,
        now: u64,
        peer: &Peer,
        piece: &[u8],
        reply: Option<OwnerReply>,
    ) -> Fed<'_>
        ensures* state { sem 𝓛 (Rests the_row self.entry (λ last. last
            ≡ after_calls self.old (prepared_feed now peer.now piece.now reply))) }
        ensures taken { result.taken
            ≡ (call_meaning (with_reply self.old reply) (Call.Feeds now peer.now piece.now)).taken }
        ensures answer { feed_output result.answer result.no_reply_reason
            ≡ (call_answer (with_reply self.old reply) (Call.Feeds now peer.now piece.now)).output }
        ensures no_reply_reason { is_some result.no_reply_reason ≡ is_none result.answer }
        ensures close { result.close
            ≡ (call_answer (with_reply self.old reply) (Call.Feeds now peer.now piece.now)).close }
        ensures within { result.taken ≤ length piece.now }
        ensures progress { 0 < length piece.now → result.close ≡ false → 0 < result.taken }
        ensures fits { IfSome result.answer (λ frame. length frame.now ≤ LONGEST_ANSWER) }
    {
        self.prepare(reply);
        self.shared.advance(now);
        let (taken, reaction) = self.places.feed(
            &mut self.shared,
            peer.handle,
            piece,
            &mut self.reply,
            &mut self.answer,
        );
        // A reply that this feed did not take must not go to another request.
        self.shared.objects.router.prepared = None;
        lend(&self.answer, taken, reaction)
    }

    /// Feeds bytes as `feed` does, and asks the owner if they have a request to it. A request is asked once: neither a
    /// repeat on its connection nor a command that the ledger has executed asks again.
    ///
    /// ```
    /// let fed = adapter.feed_asking(now, &peer, piece, &mut conveyor);
    /// ```
    pub fn feed_asking<O: Owner>(
        &mut self,
        now: u64,
        peer: &Peer,
        piece: &[u8],
        owner: &mut O,
    ) -> Fed<'_>
        ensures* state { sem 𝓛 (Rests the_row self.entry (λ last. last
            ≡ after_asking O.answer O.after self.old owner.old now peer.now piece.now)) }
        ensures owner { owner.new
            ≡ owner_after O.answer O.after owner.old (asks_of_call self.old (Call.Feeds now peer.now piece.now)) }
        ensures taken { result.taken ≡ (call_meaning (asking_adapter O.answer O.after self.old owner.old now peer.now
            piece.now) (Call.Feeds now peer.now piece.now)).taken }
        ensures answer { feed_output result.answer result.no_reply_reason
            ≡ (call_answer (asking_adapter O.answer O.after self.old owner.old now peer.now piece.now)
            (Call.Feeds now peer.now piece.now)).output }
        ensures no_reply_reason { is_some result.no_reply_reason ≡ is_none result.answer }
        ensures close { result.close
            ≡ (call_answer (asking_adapter O.answer O.after self.old owner.old now peer.now piece.now)
            (Call.Feeds now peer.now piece.now)).close }
        ensures within { result.taken ≤ length piece.now }
        ensures progress { 0 < length piece.now → result.close ≡ false → 0 < result.taken }
        ensures fits { IfSome result.answer (λ frame. length frame.now ≤ LONGEST_ANSWER) }
    {
        match self.asked(now, peer, piece) {
            Some(request) => {
                let reply = owner.answer(&request);
                self.feed_prepared(now, peer, piece, reply)
            }
            None => self.feed(now, peer, piece),
        }
    }
}
