//! A device that a command of the program `enip` sends requests to.
//!
//! - A [`Device`] is what the arguments say of it: its address, the route to it ([`RouteOption`]), the connection to open
//!   ([`ConnectionOptions`]), and how its replies are printed. A [`Request`] is a request to it.
//! - An [`OpenSession`] is a session over a stream to it, in which requests are sent one after the other. [`exchange`]
//!   sends one request in a session of its own. A [`SessionFailure`] says why there is no reply, and
//!   [`reason_of_refusal`] why the device refused. [`fault_of_request`] and [`fault_of_once`] give the code for scripts
//!   and the exit status.
//! - A [`SessionEnd`] says whether a command that sends requests again and again tries the device again.
#![tactic(auto)]

mod connection_options;
mod device;
mod failure;
mod faults;
mod open_session;
mod request;
mod route_option;
mod session_end;

pub use connection_options::ConnectionOptions;
pub use device::Device;
pub use failure::{SessionFailure, error_of_failure, reason_of_client, reason_of_refusal};
pub use faults::{fault_of_once, fault_of_request};
pub use open_session::{OpenSession, exchange};
pub use request::{GET_ATTRIBUTE_SINGLE, Request, service_of_get, service_of_set};
pub use route_option::RouteOption;
pub use session_end::SessionEnd;
