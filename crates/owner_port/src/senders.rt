//! By whom the waiting commands were sent.

ghost use Rattle.std.specs.Prelude.{◌≡◌, ◌-◌, IfOk, option_map};
ghost use Rattle.std.specs.declared.net.ip_addr.IpAddr.{IpAddr};
ghost use Rattle.enip_adapter.specs.QueueLaws.{is_waiting};
ghost use Rattle.owner_port.specs.Senders.{sender_of, without_sender, next_in, is_full, still_known, AreNoted, IsNoted, IsNobody};

use cip_owner::{QUEUE_LIMIT, Queue};
use enip_server::{FrameWire, HeldWire};
use std::alloc::{AllocError, Global};
use std::net::IpAddr;

/// A wire that knows the address of its peer.
///
/// ```
/// impl HasAddress for TcpWire {
///     ghost address_of = { λ wire. wire.address };
///
///     fn address(&self) -> IpAddr {
///         self.address
///     }
/// }
/// ```
pub trait HasAddress {
    // The address of the peer.
    ghost address_of: { Self → IpAddr };

    /// The address of the peer.
    fn address(&self) -> IpAddr
        ensures { result ≡ address_of self.now };
}

/// A wire that holds back what is written to it has the peer of the wire inside.
impl<W: HasAddress> HasAddress for HeldWire<W> {
    ghost address_of = { λ held. W.address_of held.wire };

    fn address(&self) -> IpAddr {
        self.inner().address()
    }
}

/// So has a wire that gives out frames only once they are admitted.
impl<W: HasAddress> HasAddress for FrameWire<W> {
    ghost address_of = { λ framed. W.address_of framed.wire };

    fn address(&self) -> IpAddr {
        self.inner().address()
    }
}

/// The peer that sent a command.
#[derive(Clone, Copy, Debug)]
pub(crate) struct Sender {
    /// The ticket of the command.
    pub(crate) ticket: u32,
    /// The address of the peer.
    pub(crate) address: IpAddr,
}

/// The peers that sent the waiting commands, as far as they are known.
#[derive(Drop)]
pub(crate) struct Senders {
    /// The first ticket that was not seen.
    pub(crate) next: u64,
    pub(crate) known: Vec<Sender>,
}

impl Senders {
    /// Nobody is known. The commands that wait were sent before.
    pub(crate) fn new(
        alloc: Global,
        capacity: usize,
        queue: Option<&Queue>,
    ) -> Result<Senders, AllocError>
        ensures { IfOk result (λ senders. IsNobody (option_map (λ q. q.now) queue.entry) senders) }
    {
        Ok(Senders {
            next: next_ticket(queue),
            known: Vec::with_capacity(alloc, capacity)?,
        })
    }

    /// Notes the sender of the commands that were put into the queue since the last call. If as many senders are known as
    /// commands can wait, those are forgotten first whose commands have left the queue.
    pub(crate) fn note(&mut self, by: IpAddr, queue: Option<&Queue>)
        ensures next { self.new.next ≡ next_in (option_map (λ q. q.now) queue.entry) }
        ensures noted { AreNoted (next_in (option_map (λ q. q.now) queue.entry) - self.old.next) self.old.next by
            (still_known self.old.next (option_map (λ q. q.now) queue.entry) self.old.known.items)
            self.new.known.items }
    {
        let next = next_ticket(queue);
        keep_waiting(&mut self.known, self.next, queue);
        note_tickets(&mut self.known, self.next, next, by);
        self.next = next;
    }

    /// Forgets the sender of a command that is done.
    pub(crate) fn forget(&mut self, ticket: u32)
        ensures next { self.new.next ≡ self.old.next }
        ensures known { self.new.known.items ≡ without_sender ticket self.old.known.items }
    {
        forget(&mut self.known, ticket);
    }

    /// The address of the peer that sent a command, if it is known.
    pub(crate) fn address(&self, ticket: u32) -> Option<IpAddr>
        ensures { result ≡ sender_of ticket self.now.known.items }
    {
        address_in(self.known.as_slice(), ticket)
    }
}

/// The next ticket of a queue. Without a queue no ticket is given.
fn next_ticket(queue: Option<&Queue>) -> u64
    ensures { result ≡ next_in (option_map (λ q. q.now) queue.entry) }
{
    match queue {
        Some(queue) => queue.next(),
        None => 1,
    }
}

/// Forgets the senders of commands that have left the queue, if commands were put into it from the ticket `next` on, and
/// as many senders are known as commands can wait.
fn keep_waiting(known: &mut Vec<Sender>, next: u64, queue: Option<&Queue>)
    ensures { known.new.items ≡ still_known next (option_map (λ q. q.now) queue.entry) known.old.items }
{
    if is_full(known.as_slice(), next, queue) {
        known.retain(|sender| waits(queue, sender.ticket));
    }
}

/// Whether commands were put into the queue from the ticket `next` on, and as many senders are known as commands can wait.
fn is_full(known: &[Sender], next: u64, queue: Option<&Queue>) -> bool
    ensures { result ≡ is_full next (option_map (λ q. q.now) queue.entry) known.now }
{
    next < next_ticket(queue) && known.len() >= usize::from(QUEUE_LIMIT)
}

/// Whether a command waits under this ticket.
fn waits(queue: Option<&Queue>, ticket: u32) -> bool
    ensures { result ≡ is_waiting ticket (option_map (λ q. q.now) queue.entry) }
{
    match queue {
        Some(queue) => queue.command(ticket).is_some(),
        None => false,
    }
}

/// Notes the sender of the commands with tickets from `from` up to the one before `to`.
fn note_tickets(known: &mut Vec<Sender>, from: u64, to: u64, by: IpAddr)
    ensures { AreNoted (to - from) from by known.old.items known.new.items }
{
    for ticket in from..to {
        note_ticket(known, ticket, by);
    }
}

/// Notes the sender of a command, unless memory is refused.
fn note_ticket(known: &mut Vec<Sender>, ticket: u64, by: IpAddr)
    ensures { IsNoted ticket by known.old.items known.new.items }
{
    let Ok(ticket) = u32::try_from(ticket) else {
        return;
    };
    let _ = known.push(Sender {
        ticket,
        address: by,
    });
}

/// Forgets the sender of a command.
fn forget(known: &mut Vec<Sender>, ticket: u32)
    ensures { known.new.items ≡ without_sender ticket known.old.items }
{
    known.retain(|sender| sender.ticket != ticket);
}

/// The address of the peer that sent a command, if it is among these.
fn address_in(known: &[Sender], ticket: u32) -> Option<IpAddr>
    ensures { result ≡ sender_of ticket known.now }
{
    let Some((first, others)) = known.split_first() else {
        return None;
    };
    if first.ticket == ticket {
        return Some(first.address);
    }
    address_in(others, ticket)
}
