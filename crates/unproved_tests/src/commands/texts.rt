//! The texts of the errors of `enip_commands`, `enip_config` and `enip_replay`. Those of a configuration are printed by
//! the program only, so `tests/messages` has their rows.

use crate::texts::check_texts;
use cip_commander::CommandRefused;
use cip_layouts::FieldsFault;
use cip_values::{ValueFault, ValueType};
use enip_access::{Prefix, PrefixFault};
use enip_client::ClientFault;
use enip_commands::{
    CommandFileFault, LedgerRefusal, LifeFault, LineFault, OnceRefusal, ProgramFault,
    RequestFailure, WithdrawalRefusal,
};
use enip_config::{ConfigurationRefusal, LoadFault};
use enip_replay::ReplayFailure;
use std::test::Fail;

#[test]
fn of_lines(rt: HostRuntime) -> Result<(), Fail> {
    let rows = [
        (LineFault::Input, "expected `P HEX`, `end P` or `now N`"),
        (
            LineFault::Piece,
            "piece: empty, or not two hex digits per byte",
        ),
        (LineFault::End, "end: expected a peer, 1 to 9"),
        (LineFault::Now, "now: expected 0 to 18446744073709551615"),
        (
            LineFault::Script,
            "expected an event (see `enip replay --help`)",
        ),
        (
            LineFault::Submit,
            "submit: not hexadecimal (two digits per byte)",
        ),
        (
            LineFault::Other,
            "other: not hexadecimal (two digits per byte)",
        ),
        (LineFault::Reach, "reach: expected a position"),
        (LineFault::Back, "back: expected a position"),
        (
            LineFault::Owner,
            "owner: expected a status, 0 to 255 but not 17, and up to 480 bytes of hex",
        ),
    ];
    check_texts(&rt, rt.alloc(), &rows)
}

#[test]
fn of_command_files(rt: HostRuntime) -> Result<(), Fail> {
    let rows = [
        (CommandFileFault::Head, "expected `enip commands 1`"),
        (
            CommandFileFault::Originator,
            "expected `originator` and 16 lower-case hexadecimal digits",
        ),
        (
            CommandFileFault::Life,
            "expected `life` and 0 to 18446744073709551615",
        ),
        (
            CommandFileFault::Number,
            "expected `number` and 0 to 4294967295",
        ),
        (
            CommandFileFault::Pending,
            "expected `pending none`, or `pending` and a request in lower-case hexadecimal digits",
        ),
        (CommandFileFault::End, "expected the end of the file"),
    ];
    check_texts(&rt, rt.alloc(), &rows)
}

#[test]
fn of_commands_that_are_executed_once(rt: HostRuntime) -> Result<(), Fail> {
    let lives = [
        (
            LifeFault::NoLedger(5, 0),
            "the device has no command ledger",
        ),
        (
            LifeFault::Malformed,
            "the reply is not the life of a command ledger",
        ),
    ];
    let program = [
        (OnceRefusal::Differs, "pending"),
        (OnceRefusal::NonePending, "pending"),
        (OnceRefusal::OtherLife, "life"),
        (OnceRefusal::Withdrawn, "withdrawn"),
        (OnceRefusal::Command(CommandRefused::TooLong), "fault 7"),
    ];
    let device = [
        (
            LedgerRefusal::NoSlot,
            "all slots of the command ledger are taken, or its queue of commands is full",
        ),
        (
            LedgerRefusal::SlotsTaken,
            "all slots of the command ledger are taken (see enip ledger and --forget, or configure more originators)",
        ),
        (
            LedgerRefusal::QueueFull,
            "the device's queue of commands is full (try again later, or configure a larger queue)",
        ),
        (LedgerRefusal::NoLedger, "the device has no command ledger"),
        (
            LedgerRefusal::NumberPassed,
            "the ledger has a later command of this originator, and will not execute this one",
        ),
        (LedgerRefusal::OtherLife, "the device was restarted"),
        (
            LedgerRefusal::ReplyTooLarge,
            "the ledger's reply does not fit the connection",
        ),
        (
            LedgerRefusal::LastPending,
            "the last command of this originator is still in the queue of the device, which takes no other until it has ended",
        ),
        (
            LedgerRefusal::Other(0x0e),
            "the ledger refused the command with general status 0x0e",
        ),
    ];
    let withdrawals = [
        (
            WithdrawalRefusal::SlotsTaken,
            "all slots of the command ledger are taken (see enip ledger and --forget, or configure more originators)",
        ),
        (
            WithdrawalRefusal::NoLedger,
            "the device has no command ledger",
        ),
        (
            WithdrawalRefusal::NotSupported,
            "the device cannot withdraw a command",
        ),
        (
            WithdrawalRefusal::NumberPassed,
            "the ledger has a later command of this originator, and will not execute this one",
        ),
        (
            WithdrawalRefusal::OtherPending,
            "another command of this originator is still in the queue of the device",
        ),
        (
            WithdrawalRefusal::Other(0x0e),
            "the device refused to withdraw the command, with general status 0x0e",
        ),
    ];
    check_texts(&rt, rt.alloc(), &lives)?;
    check_texts(&rt, rt.alloc(), &program)?;
    check_texts(&rt, rt.alloc(), &device)?;
    check_texts(&rt, rt.alloc(), &withdrawals)
}

/// Each text is the code that the program prints.
#[test]
fn of_requests_and_programs(rt: HostRuntime) -> Result<(), Fail> {
    let Some(value_type) = ValueType::from_name("UINT") else {
        return Err(Fail::from("UINT is a type"));
    };
    let requests = [
        (RequestFailure::Hex, "hex"),
        (RequestFailure::Session(0x65), "fault 2"),
        (RequestFailure::Client(ClientFault::State), "fault 1"),
        (
            RequestFailure::Shape(value_type, ValueFault::Short),
            "fault 6",
        ),
        (RequestFailure::Fields(FieldsFault::Trailing(1)), "fault 6"),
        (RequestFailure::Program(ProgramFault::Memory), "memory"),
    ];
    let programs = [
        (ProgramFault::Line(12, LineFault::Now), "line 12"),
        (ProgramFault::Device, "device"),
        (ProgramFault::Memory, "memory"),
    ];
    check_texts(&rt, rt.alloc(), &requests)?;
    check_texts(&rt, rt.alloc(), &programs)
}

#[test]
fn of_enip_access(rt: HostRuntime) -> Result<(), Fail> {
    let rows = [
        (PrefixFault::Address, "not an address"),
        (
            PrefixFault::Length,
            "a prefix has 0 to 32 bits of an IPv4 address, or 0 to 128 of an IPv6 address",
        ),
        (
            PrefixFault::HostBits(Prefix::default()),
            "the address has bits after the prefix",
        ),
    ];
    check_texts(&rt, rt.alloc(), &rows)
}

#[test]
fn of_enip_config(rt: HostRuntime) -> Result<(), Fail> {
    let rows = [
        (
            LoadFault::Refused(ConfigurationRefusal::UnknownKey),
            "configuration 9",
        ),
        (LoadFault::Memory, "memory"),
    ];
    check_texts(&rt, rt.alloc(), &rows)
}

#[test]
fn of_enip_replay(rt: HostRuntime) -> Result<(), Fail> {
    let rows = [
        (ReplayFailure::Setup, "setup"),
        (ReplayFailure::Program(ProgramFault::Device), "device"),
    ];
    check_texts(&rt, rt.alloc(), &rows)
}
