//! The output of `--json`: one object per line, its members sorted by name.
//!
//! [`identity_line`] writes an identity, [`service_line`] a service, [`answer_object`] an identity with where it came from,
//! [`data_line`], [`values_line`] and [`fields_line`] a reply, [`refusal_line`] a refusal, [`timed_line`] a reply with
//! its time, and [`resumed_line`] the reply to a command of an earlier run. `specs/Json.antt` defines the objects.

mod answer;
mod entry;
mod fields;
mod reply;

pub(crate) use answer::answer_object;
pub(crate) use entry::{host_of, identity_line, service_line};
pub(crate) use fields::fields_line;
pub(crate) use reply::{data_line, refusal_line, resumed_line, timed_line, values_line};
