//! What the arguments of `enip serve` say of a device, and what the device starts from and listens on by them.
//!
//! [`ServeOptions`] has the arguments. It reads a configuration ([`ServeOptions::configuration`]), of which [`served_start`]
//! makes what a device starts from, and [`listen`] binds its sockets. Serving is in `enip_device`.
#![tactic(auto)]

mod idle;
mod listening;
mod options;
mod owner_options;
mod start;

pub use listening::listen;
pub use options::ServeOptions;
pub use owner_options::OwnerOptions;
pub use start::served_start;
