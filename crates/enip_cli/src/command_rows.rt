//! The commands of the program, with their arguments and their help.

use crate::arguments::Argument;
use crate::command_row::CommandRow;
use crate::device_texts::{
    DETAILS_DISCOVER, DETAILS_IDENTITY, DETAILS_INSPECT, DETAILS_LEDGER, DETAILS_SERVICES,
    EXAMPLES_DISCOVER, EXAMPLES_IDENTITY, EXAMPLES_INSPECT, EXAMPLES_LEDGER, EXAMPLES_SERVICES,
    USAGE_LEDGER,
};
use crate::line_texts::{
    DETAILS_ANSWER, DETAILS_REPLAY, DETAILS_SHOW, EXAMPLES_ANSWER, EXAMPLES_REPLAY, EXAMPLES_SHOW,
};
use crate::request_texts::{
    DETAILS_BATCH, DETAILS_CALL, DETAILS_GET, DETAILS_ONCE, DETAILS_SET, DETAILS_WATCH,
    EXAMPLES_BATCH, EXAMPLES_CALL, EXAMPLES_GET, EXAMPLES_ONCE, EXAMPLES_SET, EXAMPLES_WATCH,
    USAGE_CALL, USAGE_SET,
};
use crate::serving_texts::{
    DETAILS_CHECK, DETAILS_EDS, DETAILS_SERVE, EXAMPLES_CHECK, EXAMPLES_EDS, EXAMPLES_SERVE,
};
use crate::shell_texts::{DETAILS_COMPLETIONS, DETAILS_MAN, EXAMPLES_COMPLETIONS, EXAMPLES_MAN};

pub(crate) static SERVE: CommandRow = CommandRow {
    name: "serve",
    about: "Serve a device over TCP to several clients at once",
    usage: None,
    examples: EXAMPLES_SERVE,
    details: DETAILS_SERVE,
    arguments: &[
        Argument::Config,
        Argument::ListenAddress,
        Argument::ConnectionCount,
        Argument::IdleTimeout,
        Argument::Discovery,
        Argument::Log,
        Argument::LogTime,
        Argument::Keep,
        Argument::AcceptOlder,
        Argument::DropCommands,
        Argument::ResetValues,
        Argument::AcceptConfig,
        Argument::Owner,
        Argument::OwnerFrom,
        Argument::OwnerToken,
        Argument::OwnerTimeout,
    ],
};

pub(crate) static CHECK: CommandRow = CommandRow {
    name: "check",
    about: "Check a configuration, and print the device that it describes",
    usage: None,
    examples: EXAMPLES_CHECK,
    details: DETAILS_CHECK,
    arguments: &[
        Argument::CheckedConfig,
        Argument::KeptFile,
        Argument::ServedAddress,
        Argument::ClientAddress,
        Argument::Profile,
        Argument::Example,
    ],
};

pub(crate) static EDS: CommandRow = CommandRow {
    name: "eds",
    about: "Print the electronic data sheet (EDS) of a device",
    usage: None,
    examples: EXAMPLES_EDS,
    details: DETAILS_EDS,
    arguments: &[Argument::Config, Argument::Icon, Argument::EdsDate],
};

pub(crate) static GET: CommandRow = CommandRow {
    name: "get",
    about: "Read an attribute of an object, once or again and again",
    usage: None,
    examples: EXAMPLES_GET,
    details: DETAILS_GET,
    arguments: &[
        Argument::DeviceAddress,
        Argument::Class,
        Argument::Instance,
        Argument::OptionalAttribute,
        Argument::Member,
        Argument::PrintedType,
        Argument::Json,
        Argument::Interval,
        Argument::ReplyCount,
        Argument::AllReplies,
        Argument::Connected,
        Argument::Route,
        Argument::ConnectionSerial,
        Argument::OriginatorSerial,
        Argument::Size,
        Argument::Rpi,
        Argument::ReadMultiplier,
        Argument::Timeout,
        Argument::Deadline,
        Argument::Quiet,
        Argument::ReadTries,
    ],
};

pub(crate) static SET: CommandRow = CommandRow {
    name: "set",
    about: "Write an attribute of an object",
    usage: Some(USAGE_SET),
    examples: EXAMPLES_SET,
    details: DETAILS_SET,
    arguments: &[
        Argument::DeviceAddress,
        Argument::CommandClass,
        Argument::CommandInstance,
        Argument::CommandAttribute,
        Argument::CommandData,
        Argument::Member,
        Argument::WrittenType,
        Argument::Json,
        Argument::Connected,
        Argument::Route,
        Argument::ConnectionSerial,
        Argument::OriginatorSerial,
        Argument::Size,
        Argument::Rpi,
        Argument::Multiplier,
        Argument::Timeout,
        Argument::Deadline,
        Argument::Quiet,
        Argument::Once,
        Argument::CommandId,
        Argument::Ids,
        Argument::Tries,
        Argument::Pending,
        Argument::Abandon,
        Argument::Force,
    ],
};

pub(crate) static CALL: CommandRow = CommandRow {
    name: "call",
    about: "Call a service of an object",
    usage: Some(USAGE_CALL),
    examples: EXAMPLES_CALL,
    details: DETAILS_CALL,
    arguments: &[
        Argument::DeviceAddress,
        Argument::CommandService,
        Argument::CommandClass,
        Argument::CommandInstance,
        Argument::OptionalData,
        Argument::Member,
        Argument::CalledType,
        Argument::ReplyType,
        Argument::Json,
        Argument::Connected,
        Argument::Route,
        Argument::ConnectionSerial,
        Argument::OriginatorSerial,
        Argument::Size,
        Argument::Rpi,
        Argument::Multiplier,
        Argument::Timeout,
        Argument::Deadline,
        Argument::Quiet,
        Argument::Once,
        Argument::CommandId,
        Argument::Ids,
        Argument::Tries,
        Argument::Pending,
        Argument::Abandon,
        Argument::Force,
    ],
};

pub(crate) static ONCE: CommandRow = CommandRow {
    name: "once",
    about: "Print what a command file has, and send nothing",
    usage: None,
    examples: EXAMPLES_ONCE,
    details: DETAILS_ONCE,
    arguments: &[Argument::CommandFile, Argument::Json],
};

pub(crate) static BATCH: CommandRow = CommandRow {
    name: "batch",
    about: "Send the requests of standard input, one a line, in one session",
    usage: None,
    examples: EXAMPLES_BATCH,
    details: DETAILS_BATCH,
    arguments: &[
        Argument::DeviceAddress,
        Argument::Json,
        Argument::Stop,
        Argument::Connected,
        Argument::Route,
        Argument::ConnectionSerial,
        Argument::OriginatorSerial,
        Argument::Size,
        Argument::Rpi,
        Argument::SessionMultiplier,
        Argument::ReadTries,
        Argument::Timeout,
        Argument::Deadline,
    ],
};

pub(crate) static WATCH: CommandRow = CommandRow {
    name: "watch",
    about: "Read several attributes of a device again and again",
    usage: None,
    examples: EXAMPLES_WATCH,
    details: DETAILS_WATCH,
    arguments: &[
        Argument::DeviceAddress,
        Argument::WatchedRequest,
        Argument::RoundInterval,
        Argument::Rounds,
        Argument::Json,
        Argument::Connected,
        Argument::Route,
        Argument::ConnectionSerial,
        Argument::OriginatorSerial,
        Argument::Size,
        Argument::Rpi,
        Argument::SessionMultiplier,
        Argument::ReadTries,
        Argument::Timeout,
        Argument::Deadline,
    ],
};

pub(crate) static INSPECT: CommandRow = CommandRow {
    name: "inspect",
    about: "Print what a device says of itself: its objects and assemblies",
    usage: None,
    examples: EXAMPLES_INSPECT,
    details: DETAILS_INSPECT,
    arguments: &[
        Argument::DeviceAddress,
        Argument::Json,
        Argument::Verbose,
        Argument::Connected,
        Argument::Route,
        Argument::ConnectionSerial,
        Argument::OriginatorSerial,
        Argument::Size,
        Argument::Rpi,
        Argument::SessionMultiplier,
        Argument::ReadTries,
        Argument::Timeout,
        Argument::Deadline,
    ],
};

pub(crate) static LEDGER: CommandRow = CommandRow {
    name: "ledger",
    about: "List the slots of a command ledger, or free one",
    usage: Some(USAGE_LEDGER),
    examples: EXAMPLES_LEDGER,
    details: DETAILS_LEDGER,
    arguments: &[
        Argument::DeviceAddress,
        Argument::ForgottenNumber,
        Argument::Forget,
        Argument::Json,
        Argument::Connected,
        Argument::Route,
        Argument::ConnectionSerial,
        Argument::OriginatorSerial,
        Argument::Size,
        Argument::Rpi,
        Argument::SessionMultiplier,
        Argument::ReadTries,
        Argument::Timeout,
        Argument::Deadline,
    ],
};

pub(crate) static IDENTITY: CommandRow = CommandRow {
    name: "identity",
    about: "Print what a device is",
    usage: None,
    examples: EXAMPLES_IDENTITY,
    details: DETAILS_IDENTITY,
    arguments: &[
        Argument::DeviceAddress,
        Argument::Json,
        Argument::Timeout,
        Argument::Deadline,
    ],
};

pub(crate) static DISCOVER: CommandRow = CommandRow {
    name: "discover",
    about: "Find the devices of a network",
    usage: None,
    examples: EXAMPLES_DISCOVER,
    details: DETAILS_DISCOVER,
    arguments: &[
        Argument::NetworkAddress,
        Argument::Json,
        Argument::Sources,
        Argument::DiscoveryTime,
    ],
};

pub(crate) static SERVICES: CommandRow = CommandRow {
    name: "services",
    about: "Print the encapsulation services that a device offers",
    usage: None,
    examples: EXAMPLES_SERVICES,
    details: DETAILS_SERVICES,
    arguments: &[
        Argument::DeviceAddress,
        Argument::Json,
        Argument::Timeout,
        Argument::Deadline,
    ],
};

pub(crate) static ANSWER: CommandRow = CommandRow {
    name: "answer",
    about: "Answer frames that are given as lines of hexadecimal digits",
    usage: None,
    examples: EXAMPLES_ANSWER,
    details: DETAILS_ANSWER,
    arguments: &[Argument::Config],
};

pub(crate) static SHOW: CommandRow = CommandRow {
    name: "show",
    about: "Print the fields of frames given as lines of hexadecimal digits",
    usage: None,
    examples: EXAMPLES_SHOW,
    details: DETAILS_SHOW,
    arguments: &[],
};

pub(crate) static REPLAY: CommandRow = CommandRow {
    name: "replay",
    about: "Run a client and an adapter by a script of losses and repeats",
    usage: None,
    examples: EXAMPLES_REPLAY,
    details: DETAILS_REPLAY,
    arguments: &[Argument::Config, Argument::Script, Argument::Ladder],
};

pub(crate) static COMPLETIONS: CommandRow = CommandRow {
    name: "completions",
    about: "Print a script that completes the command line in a shell",
    usage: None,
    examples: EXAMPLES_COMPLETIONS,
    details: DETAILS_COMPLETIONS,
    arguments: &[Argument::Shell],
};

pub(crate) static MAN: CommandRow = CommandRow {
    name: "man",
    about: "Print the man page",
    usage: None,
    examples: EXAMPLES_MAN,
    details: DETAILS_MAN,
    arguments: &[],
};
