//! The names of commands, services and statuses, which have no contract. (Volume 2, encapsulation; Volume 1,
//! Connection Manager, general and extended status codes.)

use arrayvec::ArrayString;
use cip_bytes::protocol::{
    Command, EncapsulationStatus, ExtendedStatus, GeneralStatus, ManagerService,
};
use std::fmt::{Display, Write};
use std::process::Abort;
use std::test::*;

fn check<A: Abort, T: Display>(rt: &A, named: &T, words: &str) {
    let mut text: ArrayString<80> = ArrayString::new();
    assert!(rt; write!(text, "{named}").is_ok(), "{words}");
    assert_eq!(rt; text.as_str(), words);
}

static COMMANDS: [(Command, &str); 8] = [
    (Command::Nop, "NOP"),
    (Command::ListServices, "ListServices"),
    (Command::ListIdentity, "ListIdentity"),
    (Command::ListInterfaces, "ListInterfaces"),
    (Command::RegisterSession, "RegisterSession"),
    (Command::UnRegisterSession, "UnRegisterSession"),
    (Command::SendRRData, "SendRRData"),
    (Command::SendUnitData, "SendUnitData"),
];

static SERVICES: [(ManagerService, &str); 3] = [
    (ManagerService::ForwardClose, "Forward_Close"),
    (ManagerService::ForwardOpen, "Forward_Open"),
    (ManagerService::LargeForwardOpen, "Large_Forward_Open"),
];

static ENCAPSULATION: [(EncapsulationStatus, &str); 6] = [
    (EncapsulationStatus::Success, "success"),
    (
        EncapsulationStatus::UnsupportedCommand,
        "invalid or unsupported command",
    ),
    (EncapsulationStatus::PoorlyFormedData, "poorly formed data"),
    (
        EncapsulationStatus::InvalidSession,
        "invalid session handle",
    ),
    (EncapsulationStatus::InvalidLength, "invalid length"),
    (
        EncapsulationStatus::UnsupportedRevision,
        "unsupported protocol revision",
    ),
];

static GENERAL: [(GeneralStatus, &str); 15] = [
    (GeneralStatus::Success, "success"),
    (GeneralStatus::ConnectionFailure, "connection failure"),
    (GeneralStatus::PathSegmentError, "path segment error"),
    (
        GeneralStatus::PathDestinationUnknown,
        "path destination unknown",
    ),
    (GeneralStatus::ServiceNotSupported, "service not supported"),
    (
        GeneralStatus::InvalidAttributeValue,
        "invalid attribute value",
    ),
    (GeneralStatus::AttributeListError, "attribute list error"),
    (
        GeneralStatus::AttributeNotSettable,
        "attribute not settable",
    ),
    (GeneralStatus::ReplyDataTooLarge, "reply data too large"),
    (GeneralStatus::NotEnoughData, "not enough data"),
    (
        GeneralStatus::AttributeNotSupported,
        "attribute not supported",
    ),
    (GeneralStatus::TooMuchData, "too much data"),
    (GeneralStatus::InvalidParameter, "invalid parameter"),
    (GeneralStatus::PathSizeInvalid, "path size invalid"),
    (GeneralStatus::InvalidMemberId, "invalid member ID"),
];

static EXTENDED: [(ExtendedStatus, &str); 12] = [
    (
        ExtendedStatus::DoubleOpen,
        "connection in use or duplicate Forward_Open",
    ),
    (
        ExtendedStatus::Transport,
        "transport class and trigger combination not supported",
    ),
    (
        ExtendedStatus::ConnectionNotFound,
        "target connection not found",
    ),
    (
        ExtendedStatus::ConnectionParameter,
        "invalid network connection parameter",
    ),
    (ExtendedStatus::ConnectionSize, "invalid connection size"),
    (ExtendedStatus::Rpi, "RPI not supported"),
    (ExtendedStatus::OutOfConnections, "out of connections"),
    (
        ExtendedStatus::VendorOrProduct,
        "vendor ID or product code mismatch",
    ),
    (ExtendedStatus::DeviceType, "device type mismatch"),
    (ExtendedStatus::Revision, "revision mismatch"),
    (ExtendedStatus::ApplicationPath, "invalid application path"),
    (
        ExtendedStatus::PathSegment,
        "invalid segment in the connection path",
    ),
];

#[test]
fn words_of_commands_and_services(rt: HostRuntime) {
    for (command, words) in &COMMANDS {
        check(&rt, command, words);
    }
    for (service, words) in &SERVICES {
        check(&rt, service, words);
    }
}

#[test]
fn words_of_statuses(rt: HostRuntime) {
    for (status, words) in &ENCAPSULATION {
        check(&rt, status, words);
    }
    for (status, words) in &GENERAL {
        check(&rt, status, words);
    }
    for (status, words) in &EXTENDED {
        check(&rt, status, words);
    }
}
