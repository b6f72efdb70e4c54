//! The known key that an unknown one was probably meant to be.

use crate::place::Place;
use std::alloc::{AllocError, Global};
use strsim::damerau_levenshtein;

/// The names of the known keys of a table, and of the tables in it.
fn names_of(place: Place) -> &'static [&'static str] {
    match place {
        Place::Text => &[
            "vendor",
            "device_type",
            "product_code",
            "major",
            "minor",
            "serial",
            "name",
            "status",
            "state",
            "address",
            "port",
            "peers",
            "connections",
            "first_handle",
            "first_id",
            "message_router",
            "counter",
            "identity",
            "assembly",
            "ledger",
            "commands",
            "access",
            "tcp_ip",
            "ethernet_link",
            "object",
        ],
        Place::Table("counter", _) => &["value", "limit", "enabled"],
        Place::Table("identity", _) => &["reset"],
        Place::Table("assembly", _) => &["instance", "members", "settable", "lists"],
        Place::Table("ledger", _) => &["originators", "life"],
        Place::Table("commands", _) => &["queue", "ahead"],
        Place::Table("access", _) => &["read", "write", "per_address", "connections_per_address"],
        Place::Table("tcp_ip", _) => &[
            "address",
            "mask",
            "gateway",
            "name_servers",
            "domain",
            "host",
            "interface",
            "inactivity_timeout",
        ],
        Place::Table("ethernet_link", _) => &[
            "speed",
            "flags",
            "physical_address",
            "type",
            "state",
            "label",
            "interface",
        ],
        Place::Table(..) => &["class", "instance", "name", "lists", "attribute", "service"],
        Place::Part(_, "service", _) => &["number", "size", "sizes", "reply", "queued"],
        Place::Part(..) => &[
            "number", "type", "value", "settable", "checked", "min", "max",
        ],
    }
}

/// The known key that is most like this one: at most one character in three is another, is left out, is added or has
/// changed places with the next.
///
/// # Errors
///
/// `AllocError` if memory is refused.
pub(crate) fn nearest_key(
    alloc: Global,
    place: Place,
    key: &str,
) -> Result<Option<&'static str>, AllocError> {
    let mut most = key.chars().count() / 3;
    let mut nearest = None;
    for name in names_of(place) {
        let edits = damerau_levenshtein(alloc, key, *name)?;
        if edits <= most && edits > 0 {
            most = edits - 1;
            nearest = Some(*name);
        }
    }
    Ok(nearest)
}
