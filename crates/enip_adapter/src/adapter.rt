//! The adapter: its peers, and the calls that change it.
//! Text: docs/PROTOCOL.md, "A peer".

ghost use Rattle.std.specs.Prelude.{◌≡◌, ◌<◌, ◌≤◌, ◌-◌, length, slice_index_or, false, not, nat_lt};
ghost use Rattle.std.specs.Prelude.{OnErr, IfSome, None, is_some, is_none};
ghost use Rattle.std.specs.Borrow.{sem};
ghost use Rattle.std.specs.Io.BufRead.{Rests};
ghost use Rattle.std.specs.Option.{option_map};
ghost use Rattle.std.specs.List.{list_any};
ghost use Rattle.cip_manager.specs.declared.connection.Connection.{Connection};
ghost use Rattle.cip_manager.specs.Connection.{earliest_deadline, has_id};
ghost use Rattle.cip_manager.specs.ConnectionInfo.{connection_info};
ghost use Rattle.enip_adapter.specs.Turn.{session_of, sent};
ghost use Rattle.cip_objects.specs.Changes.{changes_of, changes_at};
ghost use Rattle.cip_objects.specs.ObjectMap.{key};
ghost use Rattle.enip_adapter.specs.Adapter.{full_number, feed_output};
ghost use Rattle.enip_adapter.specs.Groups.{has_share};
ghost use Rattle.enip_adapter.specs.Replies.{written};
ghost use Rattle.enip_adapter.specs.Discovery.{discovered};
ghost use Rattle.enip_adapter.specs.Device.{resets_of};

mod asking;
mod making;
mod own_writes;

use crate::commands::DiscoveryBuffer;
use crate::no_reply_reason::NoReplyReason;
use crate::peer::{Peer, Rights, Session};
use crate::peer_slots::PeerSlots;
use crate::reply::{AnswerFrame, LONGEST_ANSWER, Reaction, Reply};
use crate::shared::Shared;
use cip_ledger::Ledger;
use cip_manager::{ConnectionInfo, Steps};
use cip_objects::{Objects, ReplyBuf};
use cip_owner::{OwnerReply, Queue, Resetting};
use std::marker::Model;
use thiserror::Error;

/// The capacity of an adapter, and the first numbers that it assigns.
///
/// ```
/// Limits { peers: 4, connections: 16, first_handle: 1, first_id: 1 }
/// ```
#[derive(Clone, Copy, Debug)]
pub struct Limits {
    /// The number of peer slots, 1 to 16.
    pub peers: u16,
    /// The number of connection slots, 1 to 64.
    pub connections: u16,
    /// The first session handle, 32 bits: at least 1.
    pub first_handle: u32,
    /// The first O->T connection ID, 32 bits: at least 1.
    pub first_id: u32,
}

/// How much of an adapter one group of peers may hold at a time. A group is any number, such as the address of a client.
///
/// ```
/// Shares { peers: 4, connections: 8 }
/// ```
#[derive(Clone, Copy, Debug)]
pub struct Shares {
    /// The number of peers, 1 to 16.
    pub peers: u16,
    /// The number of connections, 1 to 64.
    pub connections: u16,
}

impl Shares {
    /// No limit: an adapter has no more peer slots and connection slots.
    pub const NONE: Shares = Shares {
        peers: 16,
        connections: 64,
    };
}

/// Why no peer can begin.
#[derive(Clone, Copy, Debug, PartialEq, Eq, Error)]
pub enum Full {
    /// All peer slots are taken.
    #[error("all peer slots are taken")]
    Places = 1,
    /// The last session handle, 0xffffffff, was assigned.
    #[error("no session handle is left")]
    Handles = 2,
    /// The group of the peer holds its share. Only `begin_as` refuses with this.
    #[error("all peer slots of this group are taken")]
    Share = 3,
}

impl Full {
    /// The number of this refusal in printed output.
    pub fn number(self) -> u8
        ensures { result ≡ full_number self }
    {
        self as u8
    }
}

/// What `feed` did with a piece.
#[derive(Clone, Copy, Debug)]
pub struct Fed<'a> {
    /// The number of bytes of the piece that were taken.
    pub taken: usize,
    /// The frame to send, if any.
    pub answer: Option<&'a [u8]>,
    /// Why there is no frame to send. `None` if there is one.
    pub no_reply_reason: Option<NoReplyReason>,
    /// Whether the peer is closed now, or is not held: close its TCP connection once the answer is sent.
    pub close: bool,
}

/// An adapter that serves its objects to its peers.
///
/// It does no input and no output. Each TCP connection is a peer: `begin` it, `feed` it what arrives, send what `feed`
/// answers, and `end` it. Times are in microseconds of any clock that starts anywhere; the adapter never goes back to
/// an earlier time.
///
/// ```
/// let mut adapter = Adapter::new(alloc, objects, listen, limits)?;
/// let Ok(peer) = adapter.begin() else {
///     return Ok(());
/// };
/// let fed = adapter.feed(now, &peer, piece);
/// if let Some(answer) = fed.answer {
///     written.extend_from_slice(answer)?;
/// }
/// adapter.end(peer);
/// ```
pub struct Adapter {
    // The next session handle: 2^32 once the last one was assigned.
    next_handle: u64,
    shared: Shared,
    places: PeerSlots,
    // The router writes its reply here, and `asked` the data of a request to the owner. The content from an earlier
    // call is never used.
    reply: ReplyBuf,
    answer: AnswerFrame,
}

// Written out, so that each exit of a function that owns one calls it, and has no drop of every part.
impl Drop for Adapter {
    fn drop(self) {
        let Adapter {
            next_handle: _,
            shared: _,
            places: _,
            reply: _,
            answer: _,
        } = self;
    }
}

impl Model for Adapter {
    ghost use Rattle.enip_adapter.specs.Calls.{AdapterState};
    ghost use Rattle.enip_adapter.specs.Stored.{adapter_code};

    ghost Value = { AdapterState };

    ghost coded = { adapter_code };

    ghost use Rattle.std.specs.Prelude.{◌≤◌, ◌^◌};
    ghost use Rattle.enip_adapter.specs.Adapter.{adapter_in};

    ghost view = { λ a. adapter_in a.places.limit a.next_handle a.shared a.places.taken };

    ghost invariant = { λ a. a.next_handle ≤ 2 ^ 32 };
}

impl Adapter {
    ghost use Rattle.enip_adapter.specs.Adapter.{begin_output};
    ghost use Rattle.enip_adapter.specs.declared.peer.Rights.TheVariants.{Write};
    ghost use Rattle.enip_adapter.specs.Calls.{Call, call_meaning, call_answer, after_call};
    ghost use Rattle.enip_adapter.specs.Serving.{is_peer_served};
    ghost use Rattle.enip_adapter.specs.contracts.adapter.Adapter.{the_row};

    /// Begins a peer that may do everything and is in no group, and assigns it the next session handle.
    ///
    /// # Errors
    ///
    /// `Full::Places` if all peer slots are taken, otherwise `Full::Handles` if the last handle was assigned.
    pub fn begin(&mut self) -> Result<Peer, Full>
        ensures state { self.new ≡ after_call self.old (Call.Begins_peer Write None) }
        ensures output { begin_output result ≡ (call_answer self.old (Call.Begins_peer Write None)).output }
    {
        self.begin_as(Rights::Write, None)
    }

    /// Begins a peer with these rights, and assigns it the next session handle. The peer counts for the share of its
    /// group, if it has one. A group is any number; a program that serves sockets may take the client's address.
    ///
    /// ```
    /// let Ok(peer) = adapter.begin_as(Rights::Read, Some(address)) else {
    ///     return Ok(()); // its address holds its share, or no slot is free
    /// };
    /// ```
    ///
    /// # Errors
    ///
    /// `Full::Share` if the group holds as many peers as its share, otherwise `Full::Places` if all peer slots are
    /// taken, otherwise `Full::Handles` if the last handle was assigned. Then nothing changes.
    pub fn begin_as(&mut self, rights: Rights, group: Option<u128>) -> Result<Peer, Full>
        ensures state { self.new ≡ after_call self.old (Call.Begins_peer rights group) }
        ensures output { begin_output result ≡ (call_answer self.old (Call.Begins_peer rights group)).output }
        ensures refused { OnErr result (self.new ≡ self.old) }
    {
        // The share of a group is checked before a free slot, and a free slot before a free handle (ours).
        if !self.places.has_share(self.shared.share, group) {
            return Err(Full::Share);
        }
        if self.places.free() == 0 {
            return Err(Full::Places);
        }
        // Session handles are never used again.
        let Ok(handle) = u32::try_from(self.next_handle) else {
            return Err(Full::Handles);
        };
        self.next_handle += 1;
        self.places.take(handle, rights, group);
        Ok(Peer { handle })
    }

    /// Takes bytes of a piece that arrived from a peer at the time `now`, in microseconds, up to the end of one frame,
    /// and serves that frame. Call it again with the rest of the piece.
    ///
    /// A piece that is not empty is taken in part at least, unless `close` is set. A peer that is closed or not held
    /// has nothing taken, and `close` is set.
    ///
    /// The current time is the greatest one that the adapter has been given so far. Connections whose deadline is at or
    /// before it end first.
    pub fn feed(&mut self, now: u64, peer: &Peer, piece: &[u8]) -> Fed<'_>
        ensures* state { sem 𝓛 (Rests the_row self.entry (λ last. last
            ≡ after_call self.old (Call.Feeds now peer.now piece.now))) }
        ensures taken { result.taken ≡ (call_meaning self.old (Call.Feeds now peer.now piece.now)).taken }
        ensures answer { feed_output result.answer result.no_reply_reason
            ≡ (call_answer self.old (Call.Feeds now peer.now piece.now)).output }
        ensures no_reply_reason { is_some result.no_reply_reason ≡ is_none result.answer }
        ensures close { result.close ≡ (call_answer self.old (Call.Feeds now peer.now piece.now)).close }
        ensures within { result.taken ≤ length piece.now }
        ensures progress { 0 < length piece.now → result.close ≡ false → 0 < result.taken }
        ensures fits { IfSome result.answer (λ frame. length frame.now ≤ LONGEST_ANSWER) }
    {
        self.shared.advance(now);
        let (taken, reaction) = self.places.feed(
            &mut self.shared,
            peer.handle,
            piece,
            &mut self.reply,
            &mut self.answer,
        );
        lend(&self.answer, taken, reaction)
    }

    /// Ends a peer and its connections, and frees its slot. Nothing changes if the peer is not held.
    pub fn end(&mut self, peer: Peer)
        ensures { self.new ≡ after_call self.old (Call.Ends_peer peer) }
    {
        if self.places.release(peer.handle) {
            self.shared.end_session(peer.handle);
        }
    }

    /// Gives the adapter a time, in microseconds. The greatest one so far is the current time; connections whose
    /// deadline is at or before it end.
    pub fn tick(&mut self, now: u64)
        ensures { self.new ≡ after_call self.old (Call.Ticks now) }
    {
        self.shared.advance(now);
    }

    /// The earliest time, in microseconds, at which a connection ends unless an item arrives on it: the earliest
    /// deadline of an open connection. `None` if no connection is open.
    pub fn deadline(&self) -> Option<u64>
        ensures { result ≡ earliest_deadline self.now.state.shared.manager.connections }
    {
        self.shared.manager.deadline()
    }

    /// The answer to a UDP datagram, written into `room`. A datagram is answered if it is exactly one frame with
    /// ListIdentity, ListServices or ListInterfaces, without data and with options and status 0; the answer has the
    /// same bytes as over TCP. `None` for any other datagram.
    ///
    /// No peer and no session begins, and the adapter does not change.
    ///
    /// ```
    /// let mut room = DiscoveryBuffer::new();
    /// let answer = adapter.discover(datagram, &mut room);
    /// ```
    pub fn discover<'a>(&self, datagram: &[u8], room: &'a mut DiscoveryBuffer) -> Option<&'a [u8]>
        ensures answer { option_map (λ bytes. bytes.now) result ≡ discovered self.now.state.shared datagram.now }
        ensures fits { IfSome result (λ bytes. length bytes.now ≤ LONGEST_ANSWER) }
    {
        room.discover(&self.shared, datagram)
    }

    /// The current objects.
    pub fn objects(&self) -> &Objects
        ensures { result.now ≡ self.now.state.shared.objects.router.objects }
    {
        &self.shared.objects.router.objects
    }

    /// The current command ledger. `None` if the adapter has none.
    pub fn ledger(&self) -> Option<&Ledger>
        ensures { option_map (λ ledger. ledger.now) result ≡ self.now.state.shared.objects.ledger }
    {
        self.shared.objects.ledger.as_ref()
    }

    /// The queue of commands: those that wait, in the order of their tickets, and the last 256 results. `None` if the
    /// adapter has none.
    pub fn queue(&self) -> Option<&Queue>
        ensures { option_map (λ queue. queue.now) result ≡ self.now.state.shared.objects.router.queue }
    {
        self.shared.objects.router.queue.as_ref()
    }

    /// What the adapter needs to be reset, with the number of resets that were executed and the type of the last. `None` if
    /// peers cannot reset the device.
    pub fn resetting(&self) -> Option<&Resetting>
        ensures { option_map (λ reset. reset.now) result ≡ self.now.state.shared.objects.router.reset }
    {
        self.shared.objects.router.reset.as_ref()
    }

    /// How many resets were executed, modulo 2^32: each executed Reset of the Identity object counts once. Refused requests
    /// and repeats on a class 3 connection do not count. 0 if peers cannot reset the device.
    ///
    /// Once this number has changed and the replies are out, the program that serves the peers ends all of them, as their
    /// sessions and connections do not outlast a reset.
    ///
    /// ```
    /// if adapter.resets() != before {
    ///     end_all_peers(); // the reply to the Reset is sent
    /// }
    /// ```
    pub fn resets(&self) -> u32
        ensures { result ≡ resets_of self.now }
    {
        match &self.shared.objects.router.reset {
            Some(reset) => reset.executed(),
            None => 0,
        }
    }

    /// The reply that the next request to the owner takes, if one is prepared.
    pub fn prepared(&self) -> Option<&OwnerReply>
        ensures { option_map (λ reply. reply.now) result ≡ self.now.state.shared.objects.router.prepared }
    {
        self.shared.objects.router.prepared.as_ref()
    }

    /// How often peers have written data of this assembly, modulo 2^32. `None` if there is no such assembly. See
    /// `Objects::changes` for what counts.
    pub fn changes(&self, instance: u32) -> Option<u32>
        ensures { result ≡ changes_of instance self.now.state.shared.objects.router.objects.changes }
    {
        self.shared.objects.router.objects.changes(instance)
    }

    /// How often peers have set this attribute of an application object, or the data of an assembly (class 0x04,
    /// attribute 3), modulo 2^32. `None` if there is no such attribute. See `Objects::attribute_changes` for what
    /// counts.
    pub fn attribute_changes(&self, class: u16, instance: u32, attribute: u16) -> Option<u32>
        ensures { result
            ≡ changes_at (key class instance attribute) self.now.state.shared.objects.router.objects.changes }
    {
        self.shared
            .objects
            .router
            .objects
            .attribute_changes(class, instance, attribute)
    }

    /// The number of open connections.
    pub fn connections(&self) -> usize
        ensures count { result ≡ length self.now.state.shared.manager.connections }
        ensures most { result ≤ 64 }
    {
        self.shared.manager.len()
    }

    /// ID, session and deadline of the open connection at an index. Indices count from 0, in the order of opening.
    pub fn connection_info(&self, index: usize) -> ConnectionInfo
        requires { index < length self.now.state.shared.manager.connections }
        ensures { (d : Connection) →
            result ≡ connection_info (slice_index_or self.now.state.shared.manager.connections index d) }
    {
        self.shared.manager.connection_info(index)
    }

    /// Whether the connection with this O->T ID is open.
    pub fn has_connection(&self, id: u32) -> bool
        ensures { result ≡ list_any (has_id id) self.now.state.shared.manager.connections }
    {
        self.shared.manager.find(id, &mut Steps::default())
    }

    /// The current time: the greatest one that the adapter has been given, in microseconds.
    pub fn moment(&self) -> u64
        ensures { result ≡ self.now.state.shared.moment }
    {
        self.shared.moment
    }

    /// The session of the peer with this handle. `None` if it is not held.
    pub(crate) fn session(&self, handle: u32) -> Option<Session>
        ensures { result ≡ session_of self.now.state handle }
    {
        self.places.session(handle)
    }

    /// Whether a peer has registered a session. `None` if it is not held.
    ///
    /// ```
    /// if adapter.is_registered(&peer) == Some(false) {
    ///     // it holds a slot, and has no session
    /// }
    /// ```
    pub fn is_registered(&self, peer: &Peer) -> Option<bool>
        ensures { result ≡ option_map (λ session. session.registered) (session_of self.now.state peer.now) }
    {
        match self.session(peer.handle) {
            Some(session) => Some(session.registered),
            None => None,
        }
    }

    /// Whether a group holds its share of the peer slots, so that `begin_as` refuses another peer of it with
    /// `Full::Share`. `false` for `None`.
    ///
    /// ```
    /// if adapter.holds_share(Some(address)) {
    ///     // no further peer of this address begins until one of them ends
    /// }
    /// ```
    pub fn holds_share(&self, group: Option<u128>) -> bool
        ensures { result ≡ not (has_share self.now.state.shared.share self.now.state.peers group) }
    {
        !self.places.has_share(self.shared.share, group)
    }

    /// Whether a session handle is left. If none is, `begin_as` refuses each further peer with `Full::Handles`, however
    /// many slots are free.
    ///
    /// ```
    /// if !adapter.has_handle() {
    ///     // no peer begins any more, whoever ends
    /// }
    /// ```
    pub fn has_handle(&self) -> bool
        ensures { result ≡ not (nat_lt 0xffffffff self.now.state.next_handle) }
    {
        self.next_handle <= u64::from(u32::MAX)
    }

    /// Whether a peer is held and not closed.
    pub(crate) fn is_served(&self, peer: &Peer) -> bool
        ensures { result ≡ is_peer_served self.now peer.now }
    {
        self.places.is_open(peer.handle)
    }

    /// The number of free peer slots, and of free connection slots.
    pub fn free(&self) -> (u16, u16)
        ensures peers { result.0 ≡ self.now.state.places - length self.now.state.peers }
        ensures connections { result.1
            ≡ self.now.state.shared.manager.places - length self.now.state.shared.manager.connections }
    {
        (self.places.free(), self.shared.manager.free())
    }
}

/// The outcome of a feed, which lends the answer if there is one.
#[inline(always)]
fn lend(answer: &AnswerFrame, taken: usize, reaction: Reaction) -> Fed<'_>
    ensures taken { result.taken ≡ taken }
    ensures answer { feed_output result.answer result.no_reply_reason ≡ sent (written reaction.reply answer.now.items) }
    ensures no_reply_reason { is_some result.no_reply_reason ≡ is_none result.answer }
    ensures close { result.close ≡ reaction.close }
    ensures fits { IfSome result.answer (λ frame. length frame.now ≤ LONGEST_ANSWER) }
{
    match reaction.reply {
        Reply::Written => Fed {
            taken,
            answer: Some(answer.as_slice()),
            no_reply_reason: None,
            close: reaction.close,
        },
        Reply::NoReply(why) => Fed {
            taken,
            answer: None,
            no_reply_reason: Some(why),
            close: reaction.close,
        },
    }
}
