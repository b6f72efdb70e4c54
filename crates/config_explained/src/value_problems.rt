//! What is wrong with the value of a key: it is missing, has another type or is out of range.

use crate::finding::{Expected, Finding};
use crate::missing_keys::MissingKeys;
use crate::place::Place;
use crate::problem::{Located, Problem};
use attribute_types::number_in;
use toml::{Table, Value};

/// The keys of the table `ethernet_link` whose values are read from the interface that it names.
const OF_THE_LINK: [&str; 4] = ["speed", "flags", "physical_address", "state"];

/// What is wrong where the reader of a document refused a value: the required keys that the top level or the table does
/// not have, or the value itself.
pub fn bad_value(text: &Table, finding: &Finding) -> Option<Located<'static>> {
    if let Some(missing) = missing_in(text, Place::Text) {
        return Some(missing);
    }
    let place = finding.place();
    let (key, expected) = finding.key();
    let Some(table) = place.taken_in(text) else {
        return Some(Located::at_table(place, Problem::Type(place.name(), "a table")));
    };
    if let Some(missing) = missing_in(table, place) {
        return Some(missing);
    }
    let (key, problem) = match expected {
        Expected::Sizes => bad_sizes(table)?,
        Expected::Interface => bad_interface(table, place)?,
        _ => (key, bad_value_of(key, expected, table.get(key)?)?),
    };
    Some(Located::at_key(place, key, problem))
}

/// The keys without a default that a table does not have.
fn missing_in(table: &Table, place: Place) -> Option<Located<'static>> {
    let mut missing = MissingKeys::new();
    for key in required_keys(table, place) {
        if table.get(*key).is_none() {
            missing.push(*key);
        }
    }
    let first = missing.first()?;
    let problem = Problem::MissingKeys(missing);
    Some(match place {
        // no line has it
        Place::Text => Located::at_key(place, first, problem),
        _ => Located::at_table(place, problem),
    })
}

/// The keys of a table that have no default.
fn required_keys(table: &Table, place: Place) -> &'static [&'static str] {
    match place {
        Place::Text => &[
            "vendor",
            "device_type",
            "product_code",
            "major",
            "minor",
            "serial",
            "name",
        ],
        Place::Table("assembly", _) => &["instance", "members"],
        Place::Table("object", _) => &["class", "instance"],
        Place::Table("ledger", _) => &["originators"],
        Place::Table("tcp_ip", _) if table.get("interface").is_none() => &["address", "mask"],
        Place::Table(..) => &[],
        Place::Part(_, "service", _) if table.get("sizes").is_some() => &["number", "sizes"],
        Place::Part(_, "service", _) => &["number", "size"],
        Place::Part(..) => &["number", "type"],
    }
}

/// What is wrong with the value of a key.
fn bad_value_of(key: &'static str, expected: Expected, value: &Value) -> Option<Problem> {
    match expected {
        Expected::Number(least, greatest) => out_of_range(key, value, least, greatest),
        Expected::Flag => Some(Problem::Flag(key)),
        Expected::String => Some(Problem::Type(key, "a string")),
        Expected::Text(most) => Some(match value {
            Value::String(text) => Problem::Text(key, text.len(), most),
            _ => Problem::Type(key, "a string"),
        }),
        Expected::Tables => Some(Problem::Type(key, "an array of tables")),
        Expected::Address => bad_numbers(key, value, 4),
        Expected::MacAddress => bad_numbers(key, value, 6),
        Expected::NameServers => bad_servers(value),
        Expected::MemberSizes => match value {
            Value::Array(values) => bad_member("a size in members", values.as_slice(), 0xffff),
            _ => Some(Problem::Type(key, "an array of sizes")),
        },
        Expected::Table | Expected::Sizes | Expected::Interface | Expected::List => None,
    }
}

/// What is wrong with a number.
fn out_of_range(name: &'static str, value: &Value, least: u64, greatest: u64) -> Option<Problem> {
    if number_in(value, least, greatest).is_ok() {
        return None;
    }
    let (least, greatest) = accepted_range(name, least, greatest);
    Some(match value {
        Value::Integer(number) => Problem::Range(name, *number, least, greatest),
        Value::Float(number) => Problem::Float(name, Value::Float(*number)),
        _ => Problem::Type(name, "an integer"),
    })
}

/// The range of a number in an assembly or an own object that all checks together accept. The check of the value itself
/// accepts all numbers that fit, from `least` to `greatest`.
fn accepted_range(name: &str, least: u64, greatest: u64) -> (u64, u64) {
    match name {
        "number" if greatest == u64::from(u8::MAX) => (50, 99),
        "class" | "instance" | "number" => (1, greatest),
        "a size in members" => (1, 3900),
        "size" | "a size in sizes" | "reply" => (0, 480),
        _ => (least, greatest),
    }
}

/// What is wrong with an array of so many bytes, an address.
fn bad_numbers(key: &'static str, value: &Value, count: usize) -> Option<Problem> {
    let wanted = match count {
        4 => "an array of four numbers",
        _ => "an array of six numbers",
    };
    match value {
        Value::Array(values) if values.len() == count => {
            bad_member(number_name(key), values.as_slice(), 0xff)
        }
        _ => Some(Problem::Type(key, wanted)),
    }
}

/// What a number of an address is called.
fn number_name(key: &str) -> &'static str {
    match key {
        "address" => "a number in address",
        "mask" => "a number in mask",
        "gateway" => "a number in gateway",
        "physical_address" => "a number in physical_address",
        _ => "a number in name_servers",
    }
}

/// What is wrong with the first of these values that is not a number from 0 to `most`. Each is called `name`.
fn bad_member(name: &'static str, values: &[Value], most: u64) -> Option<Problem> {
    for value in values {
        if let Some(problem) = out_of_range(name, value, 0, most) {
            return Some(problem);
        }
    }
    None
}

/// What is wrong with the name servers.
fn bad_servers(value: &Value) -> Option<Problem> {
    let Value::Array(values) = value else {
        return Some(Problem::Type("name_servers", "an array of addresses"));
    };
    if values.len() > 2 {
        return Some(Problem::Type("name_servers", "an array of up to two addresses"));
    }
    for value in values.as_slice() {
        if let Some(problem) = bad_numbers("an address in name_servers", value, 4) {
            return Some(problem);
        }
    }
    None
}

/// What is wrong with the keys `size` and `sizes` of a service, and at which key.
fn bad_sizes(table: &Table) -> Option<(&'static str, Problem)> {
    match (table.get("size"), table.get("sizes")) {
        (None, None) => None,
        (Some(_), Some(_)) => Some(("sizes", Problem::Exclude("size", "sizes"))),
        (Some(size), None) => Some(("size", out_of_range("size", size, 0, 0xffff)?)),
        (None, Some(Value::Array(values))) if values.len() == 2 => Some((
            "sizes",
            bad_member("a size in sizes", values.as_slice(), 0xffff)?,
        )),
        (None, Some(_)) => Some(("sizes", Problem::Type("sizes", "an array of two sizes"))),
    }
}

/// What is wrong with the name of an interface, and at which key: it is not one, or the table has one of the values that
/// are read from there.
fn bad_interface(table: &Table, place: Place) -> Option<(&'static str, Problem)> {
    let theirs: &[&'static str] = match place.name() {
        "tcp_ip" => &["address", "mask"],
        _ => &OF_THE_LINK,
    };
    for key in theirs {
        if table.get(*key).is_some() {
            return Some((*key, Problem::Exclude(*key, "interface")));
        }
    }
    let problem = Problem::Type("interface", "the name of a network interface");
    Some(("interface", problem))
}
