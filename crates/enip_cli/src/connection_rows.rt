//! The arguments and options that say how a device is reached, how long it has, and how often a command is sent.

use crate::argument_row::{ArgumentRow, FLAG, PLAIN};
use crate::option_texts::{
    ABANDON_DETAILS, COMMAND_ID_DETAILS, CONNECTION_SERIAL_DETAILS, DEADLINE_DETAILS,
    FORCE_DETAILS, FORGET_DETAILS, IDS_DETAILS, MULTIPLIER_DETAILS, ONCE_DETAILS,
    ORIGINATOR_SERIAL_DETAILS, PENDING_DETAILS, READ_MULTIPLIER_DETAILS, READ_TRIES_DETAILS,
    ROUTE_DETAILS, RPI_DETAILS, SESSION_MULTIPLIER_DETAILS, SIZE_DETAILS, TRIES_DETAILS,
    WAIT_DETAILS,
};
use enip_shell::Takes;

pub(crate) static DEVICE_ADDRESS: ArgumentRow = ArgumentRow {
    id: "ADDRESS",
    help: "Device to ask, such as 10.0.0.9, plc.local or 10.0.0.9:44818",
    details: Some(
        "Device to ask: a host or address, such as 10.0.0.9, plc.local or\n10.0.0.9:44818. Without a port it is 44818",
    ),
    is_required: true,
    ..PLAIN
};

pub(crate) static NETWORK_ADDRESS: ArgumentRow = ArgumentRow {
    id: "ADDRESS",
    help: "Broadcast address, or one machine",
    details: Some(
        "Where to look for devices: the broadcast address of a network, or the\naddress of one machine",
    ),
    default: Some("255.255.255.255"),
    ..PLAIN
};

pub(crate) static CONNECTED: ArgumentRow = ArgumentRow {
    id: "connected",
    option: Some("connected"),
    help: "Send the request on a class 3 connection",
    ..FLAG
};

pub(crate) static ROUTE: ArgumentRow = ArgumentRow {
    id: "route",
    option: Some("route"),
    value_name: Some("HOPS"),
    help: "Hops from ADDRESS to the device, such as 1/0",
    details: Some(ROUTE_DETAILS),
    ..PLAIN
};

/// An option of the connection.
const OF_CONNECTION: ArgumentRow = ArgumentRow {
    needs: &["connected"],
    is_rare: true,
    ..PLAIN
};

pub(crate) static CONNECTION_SERIAL: ArgumentRow = ArgumentRow {
    id: "connection-serial",
    option: Some("connection-serial"),
    value_name: Some("N"),
    takes: Takes::NamesOrText(&["auto"]),
    help: CONNECTION_SERIAL_DETAILS,
    ..OF_CONNECTION
};

pub(crate) static ORIGINATOR_SERIAL: ArgumentRow = ArgumentRow {
    id: "originator-serial",
    option: Some("originator-serial"),
    value_name: Some("N"),
    takes: Takes::NamesOrText(&["auto"]),
    help: ORIGINATOR_SERIAL_DETAILS,
    ..OF_CONNECTION
};

pub(crate) static SIZE: ArgumentRow = ArgumentRow {
    id: "size",
    option: Some("size"),
    value_name: Some("BYTES"),
    help: SIZE_DETAILS,
    ..OF_CONNECTION
};

pub(crate) static RPI: ArgumentRow = ArgumentRow {
    id: "rpi",
    option: Some("rpi"),
    value_name: Some("MICROSECONDS"),
    help: RPI_DETAILS,
    ..OF_CONNECTION
};

pub(crate) static MULTIPLIER: ArgumentRow = ArgumentRow {
    id: "multiplier",
    option: Some("multiplier"),
    value_name: Some("N"),
    help: MULTIPLIER_DETAILS,
    ..OF_CONNECTION
};

pub(crate) static READ_MULTIPLIER: ArgumentRow = ArgumentRow {
    id: "multiplier",
    option: Some("multiplier"),
    value_name: Some("N"),
    help: READ_MULTIPLIER_DETAILS,
    ..OF_CONNECTION
};

pub(crate) static SESSION_MULTIPLIER: ArgumentRow = ArgumentRow {
    id: "multiplier",
    option: Some("multiplier"),
    value_name: Some("N"),
    help: SESSION_MULTIPLIER_DETAILS,
    ..OF_CONNECTION
};

/// Our own limits: 0 to 3,600 seconds.
pub(crate) static TIMEOUT: ArgumentRow = ArgumentRow {
    id: "timeout",
    option: Some("timeout"),
    value_name: Some("SECONDS"),
    help: "Longest wait for the device, 0 to 3600",
    details: Some(WAIT_DETAILS),
    default: Some("5"),
    ..PLAIN
};

pub(crate) static DISCOVERY_TIME: ArgumentRow = ArgumentRow {
    id: "timeout",
    option: Some("timeout"),
    value_name: Some("SECONDS"),
    help: "Collect answers for so long, 0 to 3600",
    details: Some(
        "Collect answers for so long: seconds, 0 to 3600, with up to six\ndecimals. 0 is no limit",
    ),
    default: Some("1"),
    ..PLAIN
};

pub(crate) static DEADLINE: ArgumentRow = ArgumentRow {
    id: "deadline",
    option: Some("deadline"),
    value_name: Some("SECONDS"),
    help: DEADLINE_DETAILS,
    is_rare: true,
    ..PLAIN
};

pub(crate) static ONCE: ArgumentRow = ArgumentRow {
    id: "once",
    option: Some("once"),
    value_name: Some("FILE"),
    takes: Takes::File,
    help: "Execute once, even if connections are lost",
    details: Some(ONCE_DETAILS),
    ..PLAIN
};

pub(crate) static COMMAND_ID: ArgumentRow = ArgumentRow {
    id: "id",
    option: Some("id"),
    value_name: Some("TEXT"),
    help: COMMAND_ID_DETAILS,
    needs: &["once"],
    conflicts: &["pending", "abandon", "force"],
    is_rare: true,
    ..PLAIN
};

pub(crate) static IDS: ArgumentRow = ArgumentRow {
    id: "ids",
    option: Some("ids"),
    value_name: Some("N"),
    help: IDS_DETAILS,
    needs: &["id"],
    is_rare: true,
    ..PLAIN
};

pub(crate) static COMMAND_FILE: ArgumentRow = ArgumentRow {
    id: "FILE",
    takes: Takes::File,
    help: "File of commands that are executed once",
    is_required: true,
    ..PLAIN
};

pub(crate) static TRIES: ArgumentRow = ArgumentRow {
    id: "tries",
    option: Some("tries"),
    value_name: Some("N"),
    help: TRIES_DETAILS,
    is_rare: true,
    ..PLAIN
};

pub(crate) static READ_TRIES: ArgumentRow = ArgumentRow {
    id: "tries",
    option: Some("tries"),
    value_name: Some("N"),
    help: READ_TRIES_DETAILS,
    is_rare: true,
    ..PLAIN
};

pub(crate) static PENDING: ArgumentRow = ArgumentRow {
    id: "pending",
    option: Some("pending"),
    help: PENDING_DETAILS,
    needs: &["once"],
    conflicts: &["abandon"],
    is_rare: true,
    ..FLAG
};

pub(crate) static ABANDON: ArgumentRow = ArgumentRow {
    id: "abandon",
    option: Some("abandon"),
    help: ABANDON_DETAILS,
    needs: &["once"],
    is_rare: true,
    ..FLAG
};

pub(crate) static FORCE: ArgumentRow = ArgumentRow {
    id: "force",
    option: Some("force"),
    help: FORCE_DETAILS,
    needs: &["abandon"],
    is_rare: true,
    ..FLAG
};

pub(crate) static FORGET: ArgumentRow = ArgumentRow {
    id: "forget",
    option: Some("forget"),
    value_name: Some("FILE"),
    takes: Takes::File,
    help: "Free the slot of FILE; with NUMBER, of an originator",
    details: Some(FORGET_DETAILS),
    ..PLAIN
};

pub(crate) static FORGOTTEN_NUMBER: ArgumentRow = ArgumentRow {
    id: "NUMBER",
    help: "With --forget, number of the last command of the slot",
    needs: &["forget"],
    ..PLAIN
};
