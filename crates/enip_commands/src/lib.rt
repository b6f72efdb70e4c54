//! The commands of the program `enip`: each reads its input from any reader, and prints to any writer.
//!
//! - [`show_frames`] prints the fields of frames, one frame per line of input.
//! - A [`DeviceRequest`], a [`TypedRequest`] or a [`LayoutRequest`] makes a request, [`exchange_with`] sends it, and
//!   [`show_reply`] prints the reply. [`DeviceSession`], [`Readings`] and [`print_reading`] are for repeated reads.
//! - For commands that are executed once, [`read_commander`] and [`write_commander`] keep a commander in a file, [`read_life`] and [`begin_once`] say what is
//!   sent, a [`LedgerRefusal`] what a refusal means, and a [`WithdrawalRefusal`] what one of Withdraw means. With ids it is
//!   a [`CommandRecord`], which [`read_record`] and [`record_text`] keep in the file, and [`plan_id`] says what is sent.
//! - [`list_over`] and [`objects_over`] ask a device for its identity or its services. [`print_devices`] and
//!   [`print_device_objects`] print the answers to a broadcast, [`print_answer`] and [`print_answer_object`] with the
//!   address that each came from. A [`DiscoveryAnswer`] is compared with others.
//! - An [`InterfaceConfiguration`] is printed as lines or, by [`interface_object`], as JSON. A [`PhysicalLink`], a name
//!   with padding and the numbers of an Ethernet Link have texts, too ([`padded_name`], [`InterfaceFlags`]).
//!
//! A command over lines is built from what `enip_lines` has for them.
//!
//! A [`ProgramFault`] of `enip_faults` or a [`RequestFailure`] says why a command ended early, and an [`OnceRefusal`] why a
//! command that is executed once is not sent. The text of each is the line for standard error.
//!
//! This crate opens no file and no socket, and it knows neither the command line nor the configuration file.
#![tactic(auto)]

mod asking;
mod command_file;
mod command_record;
mod digits;
mod discovering;
mod hexadecimal;
mod interface;
mod json_text;
mod list_objects;
mod listing;
mod network;
mod once;
mod once_refusal;
mod reading;
mod request_failure;
mod session;
mod showing;
mod style;
mod turns;
mod typed;

pub use asking::{
    DeviceRequest, ReplyOutcome, exchange_with, show_refusal, show_reply, show_resumed,
};
pub use command_file::{CommandFile, read_commander, write_commander};
pub use command_record::{
    CommandRecord, DoneCommand, IdPlan, RecordFailure, has_ids_head, is_command_id, plan_id,
    read_record, record_line, record_listing, record_text, reply_of_digits, text_after,
};
pub use discovering::{DiscoveryAnswer, Remarks, print_answer, print_answer_object};
pub use enip_faults::{
    CommandFileFault, Digits, LedgerRefusal, LineFault, ProgramFault, RecordFault,
    WithdrawalRefusal,
};
pub use interface::{InterfaceConfiguration, interface_object};
pub use list_objects::{objects_over, print_device_objects};
pub use listing::{list_over, print_devices};
pub use network::{
    InterfaceFlags, PhysicalLink, interface_state_name, interface_type_name, link_object,
    name_object, padded_name,
};
pub use once::{LIFE_REQUEST, LifeFault, PendingChoice, begin_once, check_once, read_life};
pub use once_refusal::OnceRefusal;
pub use reading::{Readings, print_reading};
pub use request_failure::RequestFailure;
pub use session::{DeviceSession, LONG_LIVED};
pub use showing::show_frames;
pub use style::{DIGITS, Style};
pub use typed::{LayoutRequest, TypedRequest};
