//! `--once`: which command is sent, and what a refusal says of it.

use super::command_files::{ADD, PENDING, commander_in, text_of};
use cip_commander::{CommandOutcome, CommandRefused, Commander};
use enip_commands::{
    LIFE_REQUEST, LedgerRefusal, LifeFault, OnceRefusal, PendingChoice, WithdrawalRefusal,
    begin_once, check_once, read_life,
};
use std::alloc::Global;
use std::process::Abort;
use std::test::Fail;

/// Add of 6.
const ADD_SIX: &[u8] = b"\x32\x02\x20\x64\x24\x01\x06\0\0\0";

#[test]
fn lives_of_ledgers(rt: HostRuntime) {
    assert_eq!(rt; LIFE_REQUEST, *b"\x0e\x03\x20\x65\x24\x01\x30\x03");
    let rows: [(&[u8], Result<u64, LifeFault>); 11] = [
        (
            b"\x8e\0\0\0\x01\x02\x03\x04\x05\x06\x07\x08",
            Ok(0x0807_0605_0403_0201),
        ),
        (b"\x8e\0\0\x01\xff\xff\x02\0\0\0\0\0\0\0", Ok(2)),
        (
            b"\x8e\0\0\0\x01\x02\x03\x04\x05\x06\x07",
            Err(LifeFault::Malformed),
        ),
        (
            b"\x8e\0\0\0\x01\x02\x03\x04\x05\x06\x07\x08\x09",
            Err(LifeFault::Malformed),
        ),
        (b"\x8e\0\0\0", Err(LifeFault::Malformed)),
        (b"\x8e\0\x05\0", Err(LifeFault::NoLedger(5, 0))),
        (
            b"\x8e\0\x05\x01\x34\x12",
            Err(LifeFault::NoLedger(5, 0x1234)),
        ),
        (
            b"\x8e\0\x05\0\x01\x02\x03\x04\x05\x06\x07\x08",
            Err(LifeFault::NoLedger(5, 0)),
        ),
        (
            b"\x81\0\0\0\x01\x02\x03\x04\x05\x06\x07\x08",
            Err(LifeFault::Malformed),
        ),
        (
            b"\x0e\0\0\0\x01\x02\x03\x04\x05\x06\x07\x08",
            Err(LifeFault::Malformed),
        ),
        (b"", Err(LifeFault::Malformed)),
    ];
    for (number, (reply, life)) in rows.iter().enumerate() {
        assert_eq!(rt; read_life(reply), *life, "row {number}");
    }
}

/// A file, a request, a life and a choice; why nothing is sent, or the number and the request that are.
#[derive(Clone, Copy)]
struct Begun<'a> {
    name: &'a str,
    pending: Option<&'a [u8]>,
    request: &'a [u8],
    life: u64,
    choice: PendingChoice,
    begun: Result<(u32, &'a [u8]), OnceRefusal>,
}

/// The command of a row in a commander of life 7 whose last number is 12. After a refusal nothing has changed.
fn check_begun<A: Abort>(rt: &A, alloc: Global, row: &Begun<'_>) -> Result<(), Fail> {
    let mut commander = Commander::resume(7, 1, 12, row.pending)?;
    let before = text_of(alloc, &commander)?;
    let begun = begin_once(&mut commander, row.request, row.life, row.choice);
    match row.begun {
        Ok((number, request)) => {
            assert_eq!(rt; begun, Ok(()), "{}", row.name);
            assert_eq!(rt; commander.life(), row.life, "{}", row.name);
            assert_eq!(rt; commander.originator(), 1, "{}", row.name);
            assert_eq!(rt; commander.last_number(), number, "{}", row.name);
            assert_eq!(rt; commander.pending_request(), Some(request), "{}", row.name);
        }
        Err(why) => {
            assert_eq!(rt; begun, Err(why), "{}", row.name);
            assert_eq!(rt;
                text_of(alloc, &commander)?.as_slice(),
                before.as_slice(),
                "{}",
                row.name
            );
        }
    }
    Ok(())
}

#[test]
fn commands_that_begin(rt: HostRuntime) -> Result<(), Fail> {
    let begun = |name, pending, request, life, choice, begun| Begun {
        name,
        pending,
        request,
        life,
        choice,
        begun,
    };
    let rows = [
        begun("new", None, ADD, 7, PendingChoice::Same, Ok((13, ADD))),
        begun("new life", None, ADD, 8, PendingChoice::Same, Ok((13, ADD))),
        begun(
            "nothing to give up",
            None,
            ADD,
            8,
            PendingChoice::Abandon,
            Ok((13, ADD)),
        ),
        begun(
            "nothing to send",
            None,
            ADD,
            7,
            PendingChoice::Send,
            Err(OnceRefusal::NonePending),
        ),
        begun(
            "again",
            Some(ADD),
            ADD,
            7,
            PendingChoice::Same,
            Ok((12, ADD)),
        ),
        begun(
            "another",
            Some(ADD),
            ADD_SIX,
            7,
            PendingChoice::Same,
            Err(OnceRefusal::Differs),
        ),
        begun(
            "another, in its place",
            Some(ADD),
            ADD_SIX,
            7,
            PendingChoice::Send,
            Ok((12, ADD)),
        ),
        begun(
            "given up",
            Some(ADD),
            ADD_SIX,
            7,
            PendingChoice::Abandon,
            Ok((13, ADD_SIX)),
        ),
        begun(
            "the same, given up",
            Some(ADD),
            ADD,
            7,
            PendingChoice::Abandon,
            Ok((13, ADD)),
        ),
        begun(
            "restarted",
            Some(ADD),
            ADD,
            8,
            PendingChoice::Same,
            Err(OnceRefusal::OtherLife),
        ),
        begun(
            "restarted, sent",
            Some(ADD),
            ADD,
            8,
            PendingChoice::Send,
            Err(OnceRefusal::OtherLife),
        ),
        begun(
            "restarted, given up",
            Some(ADD),
            ADD,
            8,
            PendingChoice::Abandon,
            Ok((13, ADD)),
        ),
        begun(
            "restarted, and another",
            Some(ADD),
            ADD_SIX,
            8,
            PendingChoice::Same,
            Err(OnceRefusal::Differs),
        ),
        begun(
            "no request",
            None,
            b"\x80\x02",
            7,
            PendingChoice::Same,
            Err(OnceRefusal::Command(CommandRefused::NotARequest)),
        ),
        begun(
            "no request in place of one",
            Some(ADD),
            b"\x32",
            7,
            PendingChoice::Abandon,
            Err(OnceRefusal::Command(CommandRefused::NotARequest)),
        ),
    ];
    for row in &rows {
        check_begun(&rt, rt.alloc(), row)?;
    }
    Ok(())
}

/// After the greatest number there is none.
#[test]
fn numbers_that_are_exhausted(rt: HostRuntime) -> Result<(), Fail> {
    let exhausted = OnceRefusal::Command(CommandRefused::NumbersExhausted);
    let mut commander = Commander::new(7, 1, u32::MAX);
    assert_eq!(rt;
        check_once(&commander, ADD, PendingChoice::Same),
        Err(exhausted)
    );
    assert_eq!(rt;
        begin_once(&mut commander, ADD, 7, PendingChoice::Same),
        Err(exhausted)
    );
    let mut commander = Commander::new(7, 1, u32::MAX - 1);
    assert_eq!(rt;
        begin_once(&mut commander, ADD, 7, PendingChoice::Same),
        Ok(())
    );
    assert_eq!(rt; commander.last_number(), u32::MAX);
    Ok(())
}

/// Before the device is asked, its life is not known.
#[test]
fn checks_before_the_device_is_asked(rt: HostRuntime) -> Result<(), Fail> {
    let long = vec![in rt.alloc(); 0x32u8; 479]?;
    let too_long = OnceRefusal::Command(CommandRefused::TooLong);
    let free = Commander::new(7, 1, 12);
    let pending = Commander::resume(7, 1, 12, Some(ADD))?;
    assert_eq!(rt; check_once(&free, ADD, PendingChoice::Same), Ok(()));
    assert_eq!(rt;
        check_once(&free, ADD, PendingChoice::Send),
        Err(OnceRefusal::NonePending)
    );
    assert_eq!(rt;
        check_once(&free, long.as_slice(), PendingChoice::Same),
        Err(too_long)
    );
    assert_eq!(rt; check_once(&pending, ADD, PendingChoice::Same), Ok(()));
    assert_eq!(rt;
        check_once(&pending, ADD_SIX, PendingChoice::Same),
        Err(OnceRefusal::Differs)
    );
    assert_eq!(rt; check_once(&pending, ADD_SIX, PendingChoice::Send), Ok(()));
    assert_eq!(rt;
        check_once(&pending, long.as_slice(), PendingChoice::Send),
        Ok(())
    );
    assert_eq!(rt;
        check_once(&pending, long.as_slice(), PendingChoice::Abandon),
        Err(too_long)
    );
    Ok(())
}

/// The codes and the exit statuses of the refusals.
#[test]
fn refusals_of_the_program(rt: HostRuntime) -> Result<(), Fail> {
    let rows = [
        (OnceRefusal::Differs, "pending", 2),
        (OnceRefusal::NonePending, "pending", 2),
        (OnceRefusal::OtherLife, "life", 2),
        (OnceRefusal::Withdrawn, "withdrawn", 7),
        (
            OnceRefusal::Command(CommandRefused::NotARequest),
            "fault 7",
            7,
        ),
        (OnceRefusal::Command(CommandRefused::TooLong), "fault 7", 7),
        (
            OnceRefusal::Command(CommandRefused::NumbersExhausted),
            "fault 1",
            7,
        ),
    ];
    for (why, code, status) in rows {
        assert_eq!(rt; format!(in rt.alloc(); "{why}")?.as_str(), code);
        assert_eq!(rt; why.exit_status(), status);
    }
    Ok(())
}

/// The statuses of the table of Withdraw, their neighbours, and what they say of the command.
#[test]
fn refusals_of_a_withdrawal(rt: HostRuntime) {
    let rows = [
        (0x01, WithdrawalRefusal::Other(1), true),
        (0x02, WithdrawalRefusal::SlotsTaken, false),
        (0x03, WithdrawalRefusal::Other(3), true),
        (0x05, WithdrawalRefusal::NoLedger, true),
        (0x07, WithdrawalRefusal::Other(7), true),
        (0x08, WithdrawalRefusal::NotSupported, true),
        (0x09, WithdrawalRefusal::Other(9), true),
        (0x0b, WithdrawalRefusal::Other(0x0b), true),
        (0x0c, WithdrawalRefusal::NumberPassed, true),
        (0x0f, WithdrawalRefusal::Other(0x0f), true),
        (0x10, WithdrawalRefusal::Other(0x10), true),
        (0x13, WithdrawalRefusal::Other(0x13), true),
        (0xcf, WithdrawalRefusal::Other(0xcf), true),
        (0xd0, WithdrawalRefusal::OtherPending, false),
        (0xd1, WithdrawalRefusal::Other(0xd1), true),
    ];
    for (status, refusal, may_be_executed) in rows {
        assert_eq!(rt; WithdrawalRefusal::of(status), refusal);
        assert_eq!(rt; refusal.may_be_executed(), may_be_executed);
    }
}

/// The statuses of the table of Do_Once, their neighbours, and what they say of the command.
#[test]
fn refusals_of_a_ledger(rt: HostRuntime) -> Result<(), Fail> {
    let rows = [
        (0x01, LedgerRefusal::Other(1), true),
        (0x02, LedgerRefusal::NoSlot, false),
        (0x03, LedgerRefusal::Other(3), true),
        (0x05, LedgerRefusal::NoLedger, true),
        (0x0b, LedgerRefusal::Other(0x0b), true),
        (0x0c, LedgerRefusal::NumberPassed, true),
        (0x0f, LedgerRefusal::Other(0x0f), true),
        (0x10, LedgerRefusal::OtherLife, true),
        (0x11, LedgerRefusal::ReplyTooLarge, true),
        (0x13, LedgerRefusal::Other(0x13), true),
        (0xcf, LedgerRefusal::Other(0xcf), true),
        (0xd0, LedgerRefusal::LastPending, false),
        (0xd1, LedgerRefusal::Other(0xd1), true),
    ];
    for (status, refusal, may_be_executed) in rows {
        assert_eq!(rt; LedgerRefusal::of(status), refusal);
        assert_eq!(rt; refusal.may_be_executed(), may_be_executed);
    }
    assert!(rt; !LedgerRefusal::SlotsTaken.may_be_executed());
    assert!(rt; !LedgerRefusal::QueueFull.may_be_executed());
    let other = format!(in rt.alloc(); "{}", LedgerRefusal::of(0x13))?;
    assert_eq!(rt;
        other.as_str(),
        "the ledger refused the command with general status 0x13"
    );
    Ok(())
}

/// A file is read, its command is answered, and the file says that none is pending.
#[test]
fn pending_command_that_is_answered(rt: HostRuntime) -> Result<(), Fail> {
    let mut commander = commander_in(PENDING)?;
    let done = commander.receive(b"\xcb\0\0\0\0\xb2\0\0\0");
    assert_eq!(rt; done, CommandOutcome::Done(b"\xb2\0\0\0"));
    let text = text_of(rt.alloc(), &commander)?;
    assert_eq!(rt; &text.as_slice()[..76], &PENDING[..76]);
    assert_eq!(rt; &text.as_slice()[76..], b"pending none\n".as_slice());
    Ok(())
}
