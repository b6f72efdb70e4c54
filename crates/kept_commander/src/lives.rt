//! Commands, replies, crashes and starts, in any order.
ghost use Rattle.std.specs.Prelude.{◌≡◌, ◌≤◌, false, None, [], IsTrue, IfOk, IfSome, OnOk, All, AllPairs};
ghost use Rattle.cip_commander.specs.CommanderRule.{CommanderState};
ghost use Rattle.kept_commander.specs.Calls.{IsReady, handed_out};
ghost use Rattle.kept_commander.specs.Lives.{bytes_of, IsOfPending, IsStep, IsRun, IsLater, HasUsed, IsNeverDropped};

use crate::{KeptCommander, RestartableKeeper};
use std::alloc::{AllocError, Global};

/// What happens to a client.
#[derive(Drop)]
pub enum CommandEvent {
    /// This request is given as a command, for the device in this life. If it is taken and kept, its message is handed
    /// out. If the storage fails, a crash may have come before or after the command was kept.
    Give(u64, Vec<u8>),
    /// The message of the pending command is handed out, if one is pending.
    Send,
    /// These bytes arrive as the reply.
    Accept(Vec<u8>),
    /// The caller gives the pending command up.
    Abandon,
    /// A crash at this moment, and a start.
    Restart,
}

/// A message that was handed out.
#[derive(Drop)]
pub struct Sent {
    /// The number of its command.
    pub number: u32,
    /// Its bytes.
    pub message: Vec<u8>,
}

/// Lets these events happen to a client, and lists what each of them handed out.
///
/// Whatever a crash leaves afterwards is what a client without crashes could have: by some of the events, and with the
/// same messages. So of two messages the later one has a greater number, or the same number and the same bytes. The
/// number of a message is not given to another command, and a command whose message left stays pending until a reply
/// settles it or the caller gives it up.
///
/// # Errors
///
/// If memory is refused for the list.
pub fn live<K: RestartableKeeper + Drop>(
    alloc: Global,
    client: &mut KeptCommander<K>,
    events: Vec<CommandEvent>,
    sent: &mut Vec<Option<Sent>>,
) -> Result<(), AllocError>
    requires ready { IsReady K.doubt K.is_up K.kept client.old }
    requires serving { IsTrue client.old.is_serving }
    requires fresh { sent.old.items ≡ [] }
    ensures run { K.doubt client.new.keeper ≡ 0 → OnOk result ((c : CommanderState)
        → K.may_leave client.new.keeper c → IsRun events.items sent.new.items
        client.old.is_serving client.old.commander client.new.is_serving c) }
    ensures later { K.doubt client.new.keeper ≡ 0 → OnOk result (AllPairs IsLater sent.new.items) }
    ensures used { K.doubt client.new.keeper ≡ 0 → OnOk result ((c : CommanderState)
        → K.may_leave client.new.keeper c → All (HasUsed c) sent.new.items) }
    ensures never_dropped { K.doubt client.new.keeper ≡ 0 → OnOk result ((c : CommanderState)
        → K.may_leave client.new.keeper c → IsNeverDropped events.items sent.new.items c) }
    ensures ready { IsReady K.doubt K.is_up K.kept client.new }
    ensures doubt { K.doubt client.old.keeper ≤ K.doubt client.new.keeper }
{
    for event in events {
        let handed_out = happen(alloc, client, event)?;
        sent.push(handed_out)?;
    }
    Ok(())
}

/// One event. Returns what it handed out.
fn happen<K: RestartableKeeper + Drop>(
    alloc: Global,
    client: &mut KeptCommander<K>,
    event: CommandEvent,
) -> Result<Option<Sent>, AllocError>
    requires { IsReady K.doubt K.is_up K.kept client.old }
    ensures ready { IsReady K.doubt K.is_up K.kept client.new }
    ensures step { K.doubt client.new.keeper ≡ 0 → IfOk result (λ sent. (c : CommanderState)
        → K.may_leave client.new.keeper c
        → (before : CommanderState) × K.may_leave client.old.keeper before ×
        IsStep event sent client.old.is_serving before client.new.is_serving c) }
    ensures silent { client.new.is_serving ≡ false → IfOk result (λ sent. sent ≡ None) }
    ensures doubt { K.doubt client.old.keeper ≤ K.doubt client.new.keeper }
{
    match event {
        CommandEvent::Give(life, request) => {
            if client.give(life, &request).is_err() {
                return Ok(None);
            }
            hand_out(alloc, client)
        }
        CommandEvent::Send => hand_out(alloc, client),
        CommandEvent::Accept(reply) => {
            let _ = client.accept(&reply);
            Ok(None)
        }
        CommandEvent::Abandon => {
            let _ = client.abandon();
            Ok(None)
        }
        CommandEvent::Restart => {
            let _ = client.restart();
            Ok(None)
        }
    }
}

/// Copies the message that is handed out now.
fn hand_out<K: RestartableKeeper + Drop>(
    alloc: Global,
    client: &KeptCommander<K>,
) -> Result<Option<Sent>, AllocError>
    ensures sent { IfOk result (λ sent. IsOfPending client.now.commander sent) }
    ensures all { IfOk result (λ sent. bytes_of sent ≡ handed_out client.now.is_serving client.now.commander) }
    ensures silent { client.now.is_serving ≡ false → IfOk result (λ sent. sent ≡ None) }
{
    let Some(message) = client.message() else {
        return Ok(None);
    };
    let mut copy = Vec::new(alloc);
    copy.extend_from_slice(message)?;
    Ok(Some(Sent {
        number: client.commander().last_number(),
        message: copy,
    }))
}
