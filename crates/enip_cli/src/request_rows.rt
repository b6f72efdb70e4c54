//! The arguments of requests and the options that say what is asked and printed.

use crate::argument_row::{ArgumentRow, FLAG, PLAIN};
use crate::option_texts::{
    CALLED_TYPE_DETAILS, COUNT_DETAILS, DATA_DETAILS, EVERY_DETAILS, MEMBER_DETAILS,
    PRINTED_TYPE_DETAILS, QUIET_DETAILS, REPLY_TYPE_DETAILS, WRITTEN_TYPE_DETAILS,
};
use enip_shell::Takes;

/// The options with which a command of FILE takes the place of the request in the arguments.
const COMMAND_OF_FILE: &[&str] = &["pending", "abandon"];

const ANY_CLASS: ArgumentRow = ArgumentRow {
    id: "CLASS",
    takes: Takes::Class,
    help: "Class of the object, 0 to 65535 or a name, such as identity",
    ..PLAIN
};

pub(crate) static CLASS: ArgumentRow = ArgumentRow {
    is_required: true,
    ..ANY_CLASS
};

pub(crate) static COMMAND_CLASS: ArgumentRow = ArgumentRow {
    required_unless: COMMAND_OF_FILE,
    ..ANY_CLASS
};

const ANY_INSTANCE: ArgumentRow = ArgumentRow {
    id: "INSTANCE",
    help: "Instance of the object, 0 to 4294967295; 0 is the class itself",
    ..PLAIN
};

pub(crate) static INSTANCE: ArgumentRow = ArgumentRow {
    is_required: true,
    ..ANY_INSTANCE
};

pub(crate) static COMMAND_INSTANCE: ArgumentRow = ArgumentRow {
    required_unless: COMMAND_OF_FILE,
    ..ANY_INSTANCE
};

pub(crate) static OPTIONAL_ATTRIBUTE: ArgumentRow = ArgumentRow {
    id: "ATTRIBUTE",
    takes: Takes::Attribute,
    help: "Attribute to read, 0 to 65535 or a name; all if left out",
    ..PLAIN
};

pub(crate) static COMMAND_ATTRIBUTE: ArgumentRow = ArgumentRow {
    id: "ATTRIBUTE",
    takes: Takes::Attribute,
    help: "Attribute to write, 0 to 65535 or a name",
    required_unless: COMMAND_OF_FILE,
    ..PLAIN
};

pub(crate) static COMMAND_SERVICE: ArgumentRow = ArgumentRow {
    id: "SERVICE",
    takes: Takes::Service,
    help: "Service, 0 to 127 or a name, such as reset",
    required_unless: COMMAND_OF_FILE,
    ..PLAIN
};

const DATA: ArgumentRow = ArgumentRow {
    id: "HEX",
    help: "Data in hexadecimal, as one argument; with --as, values",
    details: Some(DATA_DETAILS),
    is_list: true,
    has_negatives: true,
    ..PLAIN
};

pub(crate) static OPTIONAL_DATA: ArgumentRow = DATA;

pub(crate) static COMMAND_DATA: ArgumentRow = ArgumentRow {
    required_unless: COMMAND_OF_FILE,
    ..DATA
};

pub(crate) static WATCHED_REQUEST: ArgumentRow = ArgumentRow {
    id: "REQUEST",
    help: "Attribute to read: the arguments of `enip get`, in quotes",
    is_required: true,
    is_list: true,
    ..PLAIN
};

pub(crate) static MEMBER: ArgumentRow = ArgumentRow {
    id: "member",
    option: Some("member"),
    value_name: Some("N"),
    help: MEMBER_DETAILS,
    is_rare: true,
    ..PLAIN
};

pub(crate) static PRINTED_TYPE: ArgumentRow = ArgumentRow {
    id: "as",
    option: Some("as"),
    value_name: Some("TYPE"),
    takes: Takes::Type,
    help: "Print values of this type, such as UINT or UINT[]",
    details: Some(PRINTED_TYPE_DETAILS),
    ..PLAIN
};

/// The option `--as` of data that are sent.
const SENT_TYPE: ArgumentRow = ArgumentRow {
    id: "data-as",
    option: Some("as"),
    value_name: Some("TYPE"),
    takes: Takes::Type,
    help: "Take values of this type, such as UINT or UINT[]",
    ..PLAIN
};

pub(crate) static WRITTEN_TYPE: ArgumentRow = ArgumentRow {
    details: Some(WRITTEN_TYPE_DETAILS),
    ..SENT_TYPE
};

pub(crate) static CALLED_TYPE: ArgumentRow = ArgumentRow {
    details: Some(CALLED_TYPE_DETAILS),
    ..SENT_TYPE
};

pub(crate) static REPLY_TYPE: ArgumentRow = ArgumentRow {
    id: "reply-as",
    option: Some("reply-as"),
    value_name: Some("TYPE"),
    takes: Takes::Type,
    help: "Print the data of the reply as values of this type",
    details: Some(REPLY_TYPE_DETAILS),
    ..PLAIN
};

pub(crate) static JSON: ArgumentRow = ArgumentRow {
    id: "json",
    option: Some("json"),
    help: "Print a JSON object on one line",
    ..FLAG
};

/// Our own limits: 0 to 3,600 seconds.
pub(crate) static INTERVAL: ArgumentRow = ArgumentRow {
    id: "every",
    option: Some("every"),
    value_name: Some("SECONDS"),
    help: "Read again this long after each reply [default: once]",
    details: Some(EVERY_DETAILS),
    ..PLAIN
};

pub(crate) static REPLY_COUNT: ArgumentRow = ArgumentRow {
    id: "count",
    option: Some("count"),
    value_name: Some("N"),
    help: "With --every, exit after N replies [default: never]",
    details: Some(COUNT_DETAILS),
    needs: &["every"],
    ..PLAIN
};

pub(crate) static ALL_REPLIES: ArgumentRow = ArgumentRow {
    id: "all",
    option: Some("all"),
    help: "With --every, print every value, not only changes",
    needs: &["every"],
    ..FLAG
};

pub(crate) static STOP: ArgumentRow = ArgumentRow {
    id: "stop",
    option: Some("stop"),
    help: "Stop at the first line that fails",
    ..FLAG
};

pub(crate) static VERBOSE: ArgumentRow = ArgumentRow {
    id: "verbose",
    option: Some("verbose"),
    help: "Print refused attributes, too, with their status",
    ..FLAG
};

pub(crate) static SOURCES: ArgumentRow = ArgumentRow {
    id: "verbose",
    option: Some("verbose"),
    help: "Print where each answer came from, too",
    ..FLAG
};

pub(crate) static ROUNDS: ArgumentRow = ArgumentRow {
    id: "count",
    option: Some("count"),
    value_name: Some("N"),
    help: "Exit after N rounds [default: never]",
    ..PLAIN
};

pub(crate) static ROUND_INTERVAL: ArgumentRow = ArgumentRow {
    id: "every",
    option: Some("every"),
    value_name: Some("SECONDS"),
    help: "Seconds between two rounds, 0 to 3600 [default: 1]",
    ..PLAIN
};

pub(crate) static QUIET: ArgumentRow = ArgumentRow {
    id: "quiet",
    option: Some("quiet"),
    help: QUIET_DETAILS,
    is_rare: true,
    ..FLAG
};
