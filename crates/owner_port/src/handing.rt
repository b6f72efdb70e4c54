//! Queues the commands that wait.

ghost use Rattle.std.specs.Prelude.{◌≡◌, ◌++◌, OnOk, map, drop, filter};
ghost use Rattle.cip_owner.specs.Queue.{command_ticket, is_handed};
ghost use Rattle.cip_owner.specs.QueueViews.{waiting_in};
ghost use Rattle.owner_port.specs.Handing.{AreHanded, AreAllHanded, IsCommandSent, IsCommandLine, if_marked, marked_tickets, last_ahead};
ghost use Rattle.owner_port.specs.Sessions.{IsSent};

use crate::fault::SessionEnd;
use crate::senders::Senders;
use crate::session::Session;
use cip_owner::{Queue, WaitingCommand};
use enip_owner::{CommandEvent, HandOver, HandedOver, write_command};
use std::alloc::{AllocError, Global};

/// Queues the commands that are marked and were not handed over in this session, in their order, as far as they fit and
/// the owner may have more in hand. `tickets` is the memory for their tickets.
pub(crate) fn hand_waiting(
    alloc: Global,
    queue: &Queue,
    senders: &Senders,
    tickets: &mut Vec<u32>,
    hand_over: &mut HandOver,
    session: &mut Session,
)
    ensures { AreHanded queue.now senders.now.known.items hand_over.old session.old hand_over.new session.new }
{
    if !session.has_space() {
        return;
    }
    if collect_tickets(queue, tickets).is_err() {
        session.finish(SessionEnd::Memory);
        return;
    }
    hand_all(alloc, queue, senders, tickets, hand_over, session);
}

/// Collects the tickets of the waiting commands that are marked, in their order.
fn collect_tickets(queue: &Queue, tickets: &mut Vec<u32>) -> Result<(), AllocError>
    ensures { OnOk result (tickets.new.items ≡ marked_tickets queue.now) }
{
    tickets.clear();
    collect_from(queue, 0, tickets)
}

/// Appends the tickets of the waiting commands that are marked, from this index on.
fn collect_from(queue: &Queue, index: usize, tickets: &mut Vec<u32>) -> Result<(), AllocError>
    ensures { OnOk result (tickets.new.items
        ≡ tickets.old.items ++ map command_ticket (filter (is_handed queue.now) (drop index queue.now.waiting))) }
{
    let Some(command) = queue.waiting(index) else {
        return Ok(());
    };
    // At most 256 commands wait.
    let _count = queue.waiting_count();
    push_if_marked(queue, command.ticket, tickets)?;
    collect_from(queue, index + 1, tickets)
}

/// Appends the ticket of a command if it is marked.
fn push_if_marked(queue: &Queue, ticket: u32, tickets: &mut Vec<u32>) -> Result<(), AllocError>
    ensures { OnOk result (tickets.new.items ≡ tickets.old.items ++ if_marked queue.now ticket) }
{
    if ticket > queue.handed() {
        return Ok(());
    }
    tickets.push(ticket)?;
    Ok(())
}

/// The ticket up to which the owner may have commands in hand: that of the last of the first `ahead` that wait. `None` if
/// none waits, or if the owner may have none.
pub(crate) fn last_ahead(ahead: u16, queue: &Queue) -> Option<u32>
    ensures { result ≡ last_ahead ahead queue.now.waiting }
{
    let count = usize::from(ahead).min(queue.waiting_count());
    if count == 0 {
        return None;
    }
    match queue.waiting(count - 1) {
        Some(command) => Some(command.ticket),
        None => None,
    }
}

/// Queues the commands with these tickets that were not handed over in this session, as far as they fit and the owner may
/// have more in hand.
fn hand_all(
    alloc: Global,
    queue: &Queue,
    senders: &Senders,
    tickets: &[u32],
    hand_over: &mut HandOver,
    session: &mut Session,
)
    ensures { AreAllHanded queue.now senders.now.known.items tickets.now hand_over.old session.old hand_over.new
        session.new }
{
    if !session.has_space() {
        return;
    }
    let Some(handed) = hand_over.next(tickets) else {
        return;
    };
    send_handed(alloc, queue, senders, handed, session);
    hand_all(alloc, queue, senders, tickets, hand_over, session);
}

/// Queues the command that is handed over.
fn send_handed(
    alloc: Global,
    queue: &Queue,
    senders: &Senders,
    handed: HandedOver,
    session: &mut Session,
)
    ensures { IsCommandSent queue.now senders.now.known.items handed session.old session.new }
{
    if let Some(command) = queue.command(handed.ticket) {
        send_command(alloc, command, senders, handed.again, session);
    }
}

/// Queues a command.
fn send_command(
    alloc: Global,
    command: WaitingCommand<'_>,
    senders: &Senders,
    again: bool,
    session: &mut Session,
)
    ensures { IsSent (IsCommandLine senders.now.known.items (waiting_in command.entry) again) session.old session.new }
{
    let line = write_command(
        alloc,
        &CommandEvent {
            ticket: command.ticket,
            class: command.class,
            instance: command.instance,
            service: command.service,
            data: command.data,
            by: senders.address(command.ticket),
            again,
        },
    );
    session.send(line);
}
