//! What the commands of the program `enip` share.
//!
//! - An [`OsArg`] is an argument as the system passes it. [`NumberArgument`], [`HostPort`], [`Timeout`] and [`NamedFile`]
//!   read arguments. An [`ArgumentError`] says why one is refused before anything is done.
//! - A [`LockedFile`] is used by one process at a time, and a [`RoundFile`] has the number of the last round that a kept
//!   state has.
//! - [`SocketSource`], [`SocketSink`] and [`ErrorKeeping`] are streams that keep why they failed.
//! - A [`CommandError`] ends a command: its [`Reason`] is the first line on standard error, and its [`Fault`] the second
//!   line and the exit status, which `specs/Statuses.antt` defines.
#![tactic(auto)]

mod argument_error;
mod error_keeping;
mod fault;
mod file;
mod host_port;
mod locked_file;
mod named_file;
mod number_argument;
mod os_arg;
mod owner_need;
mod reason;
mod round_file;
mod seconds;
mod socket;

pub use argument_error::{
    ARGUMENTS_REFUSED, ArgumentError, Choices, parse_ip, parse_seconds, parse_shape,
    print_argument_error,
};
pub use error_keeping::ErrorKeeping;
pub use fault::Fault;
pub use file::{
    FRONT, arguments_after, can_update, exists, front_of, is_link, open_or_make, option_file_name,
    read_file, read_option_file, reserve_streams,
};
pub use host_port::{HostPort, Timeout};
pub use locked_file::{LockedFile, resolved};
pub use named_file::{NamedFile, is_input};
pub use number_argument::{NumberArgument, path_of, service_of, u16_of, u32_of};
pub use os_arg::{OsArg, os_args};
pub use owner_need::OwnerNeed;
pub use reason::{
    CLOCK, CommandError, ConfigurationReason, NamedReason, Note, OwnedDigits, OwnedReply, Reason,
    StateFile, StorageReason, SystemError, print_reason,
};
pub use round_file::{LastRound, RoundFile};
pub use seconds::microseconds_of;
pub use socket::{SocketSink, SocketSource, StreamFault};

/// What messages call the program's streams.
pub const INPUT: &str = "standard input";

pub const OUTPUT: &str = "standard output";

pub const ERRORS: &str = "standard error";
