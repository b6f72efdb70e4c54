//! A client that crashes at each call of its keeper, before and after the call has replaced what is kept.

use super::counting::{ADD_ONE, objects};
use cip_commander::{CommandOutcome, CommandRefused, Commander};
use cip_ledger::{Ledger, LedgerRouter};
use cip_objects::{ReplyBuf, Router};
use cip_owner::OwnedObjects;
use kept_commander::{
    CommandEvent, Crash, KeptCommandError, KeptCommander, MemoryKeeper, Sent, live,
};
use std::alloc::Global;
use std::process::Abort;
use std::test::Fail;

/// The life of the device.
const LIFE: u64 = 7;

/// How many commands a client gives.
const COMMANDS: u8 = 3;

/// A client with this originator, whose storage fails there.
fn client(alloc: Global, crash: Crash) -> Result<KeptCommander<MemoryKeeper>, Fail> {
    let mut keeper = MemoryKeeper::new(alloc, LIFE, 0x0102_0304_0506_0708, 0);
    keeper.set_crash(crash);
    Ok(KeptCommander::start(keeper)?)
}

/// A device with one slot, and a counter that is 0.
fn device(alloc: Global) -> Result<LedgerRouter<OwnedObjects>, Fail> {
    Ok(LedgerRouter {
        ledger: Some(Ledger::new(alloc, 1, LIFE)?),
        router: OwnedObjects::new(objects(alloc)?),
    })
}

/// Nothing is handed out or taken after a failure.
fn check_stopped(rt: &impl Abort, client: &mut KeptCommander<MemoryKeeper>) {
    assert!(rt; !client.is_serving());
    assert!(rt; client.message().is_none());
    assert!(rt; client.give(LIFE, &ADD_ONE) == Err(KeptCommandError::Stopped));
    assert!(rt; client.accept(b"\xcb\0\0\0\0").err() == Some(KeptCommandError::Stopped));
    assert!(rt; client.abandon() == Err(KeptCommandError::Stopped));
}

/// Gives a command, and after a crash again, if it is not pending then. Returns whether the client crashed.
fn give(rt: &impl Abort, client: &mut KeptCommander<MemoryKeeper>) -> Result<bool, Fail> {
    match client.give(LIFE, &ADD_ONE) {
        Ok(()) => Ok(false),
        Err(_) => {
            check_stopped(rt, client);
            client.restart()?;
            if client.message().is_none() {
                client.give(LIFE, &ADD_ONE)?;
            }
            Ok(true)
        }
    }
}

/// Sends the pending command until its reply is accepted and kept. Returns whether the client crashed.
fn finish(
    rt: &impl Abort,
    client: &mut KeptCommander<MemoryKeeper>,
    device: &mut LedgerRouter<OwnedObjects>,
    count: u8,
) -> Result<bool, Fail> {
    let wanted = [0xb2, 0, 0, 0, count, 0, 0, 0];
    let mut reply = ReplyBuf::new();
    let mut crashed = false;
    while let Some(message) = client.message() {
        device.execute(message, 504, &mut reply);
        match client.accept(reply.as_slice()) {
            Ok(outcome) => assert!(rt; outcome == CommandOutcome::Done(&wanted)),
            Err(_) => {
                check_stopped(rt, client);
                client.restart()?;
                crashed = true;
            }
        }
    }
    Ok(crashed)
}

/// The device executes each command once, wherever the client crashes. Returns how often it did.
fn commands_with_a_crash(rt: &impl Abort, alloc: Global, crash: Crash) -> Result<u8, Fail> {
    let mut device = device(alloc)?;
    let mut client = client(alloc, crash)?;
    let mut crashes = 0;
    for count in 1..=COMMANDS {
        crashes += u8::from(give(rt, &mut client)?);
        assert_eq!(rt; client.commander().last_number(), u32::from(count));
        crashes += u8::from(finish(rt, &mut client, &mut device, count)?);
        assert_eq!(rt; client.commander().last_number(), u32::from(count));
    }
    Ok(crashes)
}

#[test]
fn each_command_is_executed_once_wherever_the_client_crashes(rt: HostRuntime) -> Result<(), Fail> {
    let alloc = rt.alloc();
    assert_eq!(rt; commands_with_a_crash(&rt, alloc, Crash::Never)?, 0);
    // a command is written twice: when it is given, and when it is done
    for calls in 0..2 * u64::from(COMMANDS) {
        assert_eq!(rt; commands_with_a_crash(&rt, alloc, Crash::Before(calls))?, 1);
        assert_eq!(rt; commands_with_a_crash(&rt, alloc, Crash::After(calls))?, 1);
    }
    let calls = 2 * u64::from(COMMANDS);
    assert_eq!(rt; commands_with_a_crash(&rt, alloc, Crash::Before(calls))?, 0);
    Ok(())
}

/// A refused command takes no number, and one that is given up leaves its number used.
#[test]
fn refused_and_abandoned_commands(rt: HostRuntime) -> Result<(), Fail> {
    let mut client = client(rt.alloc(), Crash::Never)?;
    let refused = |why| Err(KeptCommandError::Refused(why));
    assert!(rt; client.give(LIFE, b"\x80\0") == refused(CommandRefused::NotARequest));
    assert!(rt; client.give(LIFE, &[0x32; 479]) == refused(CommandRefused::TooLong));
    assert!(rt; client.abandon() == Ok(false));
    client.give(LIFE, &ADD_ONE)?;
    assert!(rt; client.give(LIFE, &ADD_ONE) == refused(CommandRefused::Pending));
    assert!(rt; client.abandon() == Ok(true));
    assert!(rt; client.message().is_none());
    client.give(LIFE + 1, &ADD_ONE)?;
    assert_eq!(rt; client.commander().last_number(), 2);
    assert_eq!(rt; client.commander().life(), LIFE + 1);
    Ok(())
}

/// What is created is kept, and found by a start.
#[test]
fn a_first_commander_is_kept(rt: HostRuntime) -> Result<(), Fail> {
    let keeper = MemoryKeeper::new(rt.alloc(), 1, 2, 3);
    let commander = Commander::resume(LIFE, 8, 12, Some(&ADD_ONE))?;
    let mut client = KeptCommander::create(keeper, commander)?;
    client.restart()?;
    assert_eq!(rt; client.commander().life(), LIFE);
    assert_eq!(rt; client.commander().originator(), 8);
    assert_eq!(rt; client.commander().last_number(), 12);
    assert!(rt; client.commander().pending_request() == Some(&ADD_ONE));
    Ok(())
}

/// The numbers of the messages that were handed out, in order. 0 for an event that handed out nothing.
fn numbers(alloc: Global, sent: &[Option<Sent>]) -> Result<Vec<u32>, Fail> {
    let mut numbers = Vec::new(alloc);
    for one in sent {
        numbers.push(match one {
            Some(message) => message.number,
            None => 0,
        })?;
    }
    Ok(numbers)
}

/// These events hand out messages with these numbers.
fn check_events(
    rt: &impl Abort,
    alloc: Global,
    crash: Crash,
    events: Vec<CommandEvent>,
    wanted: &[u32],
) -> Result<(), Fail> {
    let mut client = client(alloc, crash)?;
    let mut sent = Vec::new(alloc);
    live(alloc, &mut client, events, &mut sent)?;
    assert!(rt; numbers(alloc, &sent)?.as_slice() == wanted);
    Ok(())
}

/// Two commands over crashes: the first is settled, the second is given up.
fn two_commands(alloc: Global) -> Result<Vec<CommandEvent>, Fail> {
    let add = || Vec::from_slice(alloc, &ADD_ONE);
    let done = Vec::from_slice(alloc, b"\xcb\0\0\0\0")?;
    let refused = Vec::from_slice(alloc, b"\xcb\0\x11\0")?;
    Ok(vec![in alloc;
        CommandEvent::Give(LIFE, add()?),
        CommandEvent::Restart,
        CommandEvent::Send,
        CommandEvent::Accept(refused),
        CommandEvent::Give(LIFE, add()?),
        CommandEvent::Send,
        CommandEvent::Accept(done),
        CommandEvent::Restart,
        CommandEvent::Send,
        CommandEvent::Give(LIFE, add()?),
        CommandEvent::Abandon,
        CommandEvent::Restart,
        CommandEvent::Send,
    ]?)
}

#[test]
fn events_hand_out_messages(rt: HostRuntime) -> Result<(), Fail> {
    let alloc = rt.alloc();
    let rows: [(Crash, [u32; 13]); 6] = [
        (Crash::Never, [1, 0, 1, 0, 0, 1, 0, 0, 0, 2, 0, 0, 0]),
        // the first command is lost, or kept and not sent before the restart
        (Crash::Before(0), [0, 0, 0, 0, 1, 1, 0, 0, 0, 2, 0, 0, 0]),
        (Crash::After(0), [0, 0, 1, 0, 0, 1, 0, 0, 0, 2, 0, 0, 0]),
        // the reply is lost, or kept as accepted
        (Crash::Before(1), [1, 0, 1, 0, 0, 1, 0, 0, 1, 0, 0, 0, 0]),
        (Crash::After(1), [1, 0, 1, 0, 0, 1, 0, 0, 0, 2, 0, 0, 0]),
        // the second command stays pending
        (Crash::Before(3), [1, 0, 1, 0, 0, 1, 0, 0, 0, 2, 0, 0, 2]),
    ];
    for (crash, wanted) in &rows {
        check_events(&rt, alloc, *crash, two_commands(alloc)?, wanted)?;
    }
    Ok(())
}
