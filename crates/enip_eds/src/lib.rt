//! The electronic data sheet (EDS) of a device: the text file with which a tool of a controller learns what the device is,
//! and what its assemblies and attributes are. (Volume 1, chapter 7, and Volume 2, the additions for EtherNet/IP.)
//!
//! [`eds_text`] writes it from an [`EdsSource`]: the configuration of a device, a date and perhaps an [`Icon`].
//!
//! ```
//! let date = date_in(b"11-29-2026")?;
//! let text = eds_text(alloc, &EdsSource { configuration: &configuration, date, icon: None })?;
//! // [Device]
//! //         VendCode = 4660;
//! //         ..
//! ```
//!
//! [`profile_text`] says what a conformance test looks for in a configuration, and what is missing.
//!
//! `specs/Eds.antt` defines the text from its first line to its last, and `specs/Params.antt` its section Params.
#![tactic(auto)]

mod dates;
mod device_types;
mod eds;
mod icon;
mod numbers;
mod param;
mod params;
mod profile;
mod texts;
mod types;

pub use dates::{date_at, date_in};
pub use device_types::device_type_name;
pub use eds::{EdsSource, eds_text};
pub use icon::{ICON_LIMIT, Icon, is_icon};
pub use profile::profile_text;
