//! The texts of the errors of each crate from `cip_bytes` to `cip_class3`.

use crate::texts::check_texts;
use cip_application::{ObjectFault, SetFault};
use cip_bytes::Full;
use cip_class3::Refused;
use cip_commander::{CommandRefused, SlotsFault};
use cip_message::{LengthFault, PathFault, ReplyFault, RequestFault};
use cip_objects::ConfigFault;
use cip_route::{HopFault, RouteFailure, RouteFault};
use kept_commander::{KeptCommandError, StorageFailed};
use std::test::Fail;

#[test]
fn of_cip_bytes(rt: HostRuntime) -> Result<(), Fail> {
    check_texts(&rt, rt.alloc(), &[(Full, "the bytes do not fit")])
}

#[test]
fn of_cip_message(rt: HostRuntime) -> Result<(), Fail> {
    let paths = [
        (PathFault::Segment, "not a segment type"),
        (PathFault::Order, "segments out of order"),
        (PathFault::Cut, "cut within a segment"),
    ];
    let requests = [
        (
            RequestFault::Short,
            "shorter than a request's first two bytes",
        ),
        (RequestFault::PathSize, "the path goes past the end"),
    ];
    let replies = [
        (ReplyFault::Short, "shorter than a reply's first four bytes"),
        (ReplyFault::NotReply, "not a reply"),
        (ReplyFault::Extra, "the additional words go past the end"),
    ];
    let lengths = [
        (LengthFault::Short, "data too short"),
        (LengthFault::Long, "data too long"),
    ];
    check_texts(&rt, rt.alloc(), &paths)?;
    check_texts(&rt, rt.alloc(), &requests)?;
    check_texts(&rt, rt.alloc(), &replies)?;
    check_texts(&rt, rt.alloc(), &lengths)
}

#[test]
fn of_cip_route(rt: HostRuntime) -> Result<(), Fail> {
    let hops = [
        (HopFault::Kind, "not a port segment"),
        (HopFault::Port, "not a port"),
        (HopFault::Size, "not the size of a link address"),
        (HopFault::Pad, "the pad byte is not 0"),
        (HopFault::Cut, "cut within a port segment"),
    ];
    let routes = [
        (RouteFault::Form, "a hop is PORT/LINK, such as 1/0"),
        (RouteFault::Port, "a port is 1 to 65535"),
        (
            RouteFault::Link,
            "a link is 0 to 255, or an address such as 10.0.0.7",
        ),
        (RouteFault::TooLong, "the route is longer than 64 bytes"),
    ];
    let failures = [
        (
            RouteFailure::TimedOut,
            "a router on the route got no answer in time",
        ),
        (RouteFailure::Port, "the router has no such port"),
        (RouteFailure::Link, "the router has no such link address"),
        (
            RouteFailure::Segment,
            "the router does not accept a segment of the path",
        ),
    ];
    check_texts(&rt, rt.alloc(), &hops)?;
    check_texts(&rt, rt.alloc(), &routes)?;
    check_texts(&rt, rt.alloc(), &failures)
}

#[test]
fn of_cip_application(rt: HostRuntime) -> Result<(), Fail> {
    let sets = [
        (SetFault::AttributeNotSupported, "attribute not supported"),
        (SetFault::AttributeNotSettable, "attribute not settable"),
        (SetFault::NotEnoughData, "not enough data"),
        (SetFault::TooMuchData, "too much data"),
        (SetFault::InvalidAttributeValue, "invalid attribute value"),
    ];
    let objects = [
        (
            ObjectFault::Object,
            "an object whose class, instance or name is not allowed, or too many objects",
        ),
        (
            ObjectFault::Attribute,
            "an attribute whose number, size, range or value is not allowed, or too many attributes",
        ),
        (
            ObjectFault::Service,
            "a service whose number or size is not allowed, or too many services",
        ),
        (ObjectFault::Memory, "out of memory"),
    ];
    check_texts(&rt, rt.alloc(), &sets)?;
    check_texts(&rt, rt.alloc(), &objects)
}

#[test]
fn of_cip_objects(rt: HostRuntime) -> Result<(), Fail> {
    let rows = [
        (
            ConfigFault::Name,
            "the name is too long, or has a byte that is not printable",
        ),
        (
            ConfigFault::Size,
            "too many assemblies, or one with 0 bytes or too many",
        ),
        (
            ConfigFault::Members,
            "an assembly with too many members, or with one of 0 bytes",
        ),
        (
            ConfigFault::DoubleInstance,
            "an instance number that is 0 or occurs twice",
        ),
        (
            ConfigFault::Limit,
            "the counter's first value is over its limit",
        ),
        (ConfigFault::Memory, "out of memory"),
        (
            ConfigFault::Object,
            "an object whose class, instance or name is not allowed, or too many objects",
        ),
        (
            ConfigFault::Attribute,
            "an attribute whose number, size, range or value is not allowed, or too many attributes",
        ),
        (
            ConfigFault::Service,
            "a service whose number or size is not allowed, or too many services",
        ),
    ];
    check_texts(&rt, rt.alloc(), &rows)
}

#[test]
fn of_cip_commander(rt: HostRuntime) -> Result<(), Fail> {
    let rows = [
        (CommandRefused::Pending, "another command is pending"),
        (
            CommandRefused::NotARequest,
            "not a request: at least 2 bytes, and a service below 0x80",
        ),
        (
            CommandRefused::TooLong,
            "the request is longer than 478 bytes",
        ),
        (
            CommandRefused::NumbersExhausted,
            "no command number is left for this originator",
        ),
    ];
    let slots = [
        (
            SlotsFault::Refused(0x0c, 0),
            "the device refused with general status 0x0c",
        ),
        (SlotsFault::Malformed, "not a reply of a command ledger"),
    ];
    check_texts(&rt, rt.alloc(), &rows)?;
    check_texts(&rt, rt.alloc(), &slots)
}

#[test]
fn of_kept_commander(rt: HostRuntime) -> Result<(), Fail> {
    let rows = [
        (
            KeptCommandError::Refused(CommandRefused::Pending),
            "another command is pending",
        ),
        (KeptCommandError::Storage, "the storage failed"),
        (KeptCommandError::Stopped, "stopped by an earlier failure"),
    ];
    check_texts(&rt, rt.alloc(), &rows)?;
    check_texts(&rt, rt.alloc(), &[(StorageFailed, "the storage failed")])
}

#[test]
fn of_cip_class3(rt: HostRuntime) -> Result<(), Fail> {
    let rows = [
        (Refused::Busy, "another request is waiting for its reply"),
        (
            Refused::TooLong,
            "the request is longer than the connection's size",
        ),
        (
            Refused::NoRequest,
            "not a request: 2 bytes or more, and a service below 0x80",
        ),
        (Refused::GivenUp, "a request was given up"),
        (
            Refused::TooManyAbandoned,
            "65,535 requests were submitted since the last accepted reply",
        ),
    ];
    check_texts(&rt, rt.alloc(), &rows)
}
