//! The known keys of a configuration, table by table.
//! Text: docs/PROGRAM.md, "The configuration".

ghost use Rattle.std.specs.Prelude.{◌≡◌, map};
ghost use Rattle.std.specs.List.{list_any};
ghost use Rattle.toml.specs.View.{view, table_view};
ghost use Rattle.enip_config.specs.Keys.{row};
ghost use Rattle.enip_config.specs.Known.{is_among, keys_of, has_key, has_unknown_key, is_unknown};
ghost use Rattle.enip_config.specs.Known.{are_other_keys, has_other_keys, has_other_keys_within};
ghost use Rattle.enip_config.specs.Known.{has_other_keys_in_objects, object_has_other_keys, are_other_object_keys};
ghost use Rattle.enip_config.specs.Known.{is_unknown_in_object};

use crate::key::{
    AHEAD, ATTRIBUTE_NUMBER, CLASS, FLAGS, INACTIVITY_TIMEOUT, INSTANCE, INTERFACE_STATE,
    INTERFACE_TYPE, LIFE, NumberKey, ORIGINATORS, QUEUE, REPLY, SERVICE_NUMBER, SPEED,
};
use config_explained::{Finding, Place};
use toml::{Table, Value};

/// The kinds of tables in a configuration.
#[derive(Clone, Copy)]
pub(crate) enum TableKind {
    /// The top level, without the tables in it.
    Text,
    /// The table `counter`.
    Counter,
    /// The table `identity`.
    Identity,
    /// A table `assembly`.
    Assembly,
    /// The table `ledger`.
    Ledger,
    /// The table `commands`.
    Commands,
    /// The table `access`.
    Access,
    /// The table `tcp_ip`.
    TcpIp,
    /// The table `ethernet_link`.
    EthernetLink,
    /// A table `object`, without the tables in it.
    Object,
    /// A table `object.attribute`.
    Attribute,
    /// A table `object.service`.
    Service,
}

/// The keys at the top level whose values are numbers.
static TEXT_NUMBERS: [NumberKey; 13] = [
    NumberKey::Vendor,
    NumberKey::DeviceType,
    NumberKey::ProductCode,
    NumberKey::Major,
    NumberKey::Minor,
    NumberKey::Serial,
    NumberKey::Status,
    NumberKey::State,
    NumberKey::Port,
    NumberKey::Peers,
    NumberKey::Connections,
    NumberKey::FirstHandle,
    NumberKey::FirstId,
];

impl TableKind {
    /// The kind of a table.
    fn of(place: Place) -> TableKind {
        match place {
            Place::Text => TableKind::Text,
            Place::Table("counter", _) => TableKind::Counter,
            Place::Table("identity", _) => TableKind::Identity,
            Place::Table("assembly", _) => TableKind::Assembly,
            Place::Table("ledger", _) => TableKind::Ledger,
            Place::Table("commands", _) => TableKind::Commands,
            Place::Table("access", _) => TableKind::Access,
            Place::Table("tcp_ip", _) => TableKind::TcpIp,
            Place::Table("ethernet_link", _) => TableKind::EthernetLink,
            Place::Table(..) => TableKind::Object,
            Place::Part(_, "service", _) => TableKind::Service,
            Place::Part(..) => TableKind::Attribute,
        }
    }

    /// The reader enters the first table of this kind.
    fn enter(self, finding: &mut Finding) {
        match self {
            TableKind::Text => finding.enter_text(),
            TableKind::Counter => finding.enter_table("counter"),
            TableKind::Identity => finding.enter_table("identity"),
            TableKind::Assembly => finding.enter_table("assembly"),
            TableKind::Ledger => finding.enter_table("ledger"),
            TableKind::Commands => finding.enter_table("commands"),
            TableKind::Access => finding.enter_table("access"),
            TableKind::TcpIp => finding.enter_table("tcp_ip"),
            TableKind::EthernetLink => finding.enter_table("ethernet_link"),
            TableKind::Object => finding.enter_table("object"),
            TableKind::Attribute => finding.enter_part("attribute"),
            TableKind::Service => finding.enter_part("service"),
        }
    }

    /// Whether a key is known in this kind of table.
    fn knows(self, name: &str) -> bool
        ensures { result ≡ is_among (keys_of self) name.now }
    {
        match self {
            TableKind::Text => is_number(&TEXT_NUMBERS, name)
                || name == "name"
                || name == "address"
                || name == "message_router",
            TableKind::Counter => {
                is_number(&[NumberKey::CounterValue, NumberKey::CounterLimit], name)
                    || name == "enabled"
            }
            TableKind::Identity => name == "reset",
            TableKind::Assembly => INSTANCE.is_named(name)
                || name == "settable"
                || name == "members"
                || name == "lists",
            TableKind::Ledger => ORIGINATORS.is_named(name) || LIFE.is_named(name),
            TableKind::Commands => QUEUE.is_named(name) || AHEAD.is_named(name),
            TableKind::Access => is_access_key(name),
            TableKind::TcpIp => is_tcp_ip_key(name),
            TableKind::EthernetLink => is_link_key(name),
            TableKind::Object => CLASS.is_named(name)
                || INSTANCE.is_named(name)
                || name == "name"
                || name == "lists",
            TableKind::Attribute => is_attribute_key(name),
            TableKind::Service => is_service_key(name),
        }
    }
}

/// Whether the table `access` has a key of this name.
fn is_access_key(name: &str) -> bool
    ensures { result ≡ is_among (keys_of TableKind.Access) name.now }
{
    name == "read" || name == "write" || name == "per_address" || name == "connections_per_address"
}

/// Whether the table `tcp_ip` has a key of this name.
fn is_tcp_ip_key(name: &str) -> bool
    ensures { result ≡ is_among (keys_of TableKind.TcpIp) name.now }
{
    name == "address"
        || name == "mask"
        || name == "gateway"
        || name == "name_servers"
        || name == "domain"
        || name == "host"
        || name == "interface"
        || INACTIVITY_TIMEOUT.is_named(name)
}

/// Whether the table `ethernet_link` has a key of this name.
fn is_link_key(name: &str) -> bool
    ensures { result ≡ is_among (keys_of TableKind.EthernetLink) name.now }
{
    SPEED.is_named(name)
        || FLAGS.is_named(name)
        || name == "physical_address"
        || INTERFACE_TYPE.is_named(name)
        || INTERFACE_STATE.is_named(name)
        || name == "label"
        || name == "interface"
}

/// Whether a table `object.attribute` has a key of this name.
fn is_attribute_key(name: &str) -> bool
    ensures { result ≡ is_among (keys_of TableKind.Attribute) name.now }
{
    ATTRIBUTE_NUMBER.is_named(name)
        || name == "type"
        || name == "value"
        || name == "settable"
        || name == "checked"
        || name == "min"
        || name == "max"
}

/// Whether a table `object.service` has a key of this name.
fn is_service_key(name: &str) -> bool
    ensures { result ≡ is_among (keys_of TableKind.Service) name.now }
{
    SERVICE_NUMBER.is_named(name)
        || name == "size"
        || name == "sizes"
        || REPLY.is_named(name)
        || name == "queued"
}

/// Whether one of these keys has this name.
fn is_number(keys: &[NumberKey], name: &str) -> bool
    ensures { result ≡ is_among (map (λ key. (row key).name) keys.now) name.now }
{
    for key in keys {
        if key.row().is_named(name) {
            return true;
        }
    }
    false
}

/// Whether there is an unknown key, at any depth.
pub(crate) fn has_unknown_key(table: &Table, finding: &mut Finding) -> bool
    ensures { result ≡ has_unknown_key (table_view table.now) }
{
    for (key, value) in table.iter() {
        if is_unknown(key.as_str(), value, finding) {
            return true;
        }
    }
    false
}

/// Whether a key at the top level is unknown, or one within its value.
fn is_unknown(key: &str, value: &Value, finding: &mut Finding) -> bool
    ensures { result ≡ is_unknown key.now (view value.now) }
{
    match key {
        "counter" => has_other_keys_within(value, TableKind::Counter, finding),
        "identity" => has_other_keys_within(value, TableKind::Identity, finding),
        "assembly" => has_other_keys_within(value, TableKind::Assembly, finding),
        "ledger" => has_other_keys_within(value, TableKind::Ledger, finding),
        "commands" => has_other_keys_within(value, TableKind::Commands, finding),
        "access" => has_other_keys_within(value, TableKind::Access, finding),
        "tcp_ip" => has_other_keys_within(value, TableKind::TcpIp, finding),
        "ethernet_link" => has_other_keys_within(value, TableKind::EthernetLink, finding),
        "object" => has_other_keys_in_objects(value, finding),
        name => {
            finding.enter_text();
            !TableKind::Text.knows(name) || has_key(value)
        }
    }
}

/// Whether a value has a key that is unknown in this kind of table: in the table itself, or in the tables of an array.
fn has_other_keys_within(value: &Value, kind: TableKind, finding: &mut Finding) -> bool
    ensures { result ≡ has_other_keys_within (keys_of kind) (view value.now) }
{
    kind.enter(finding);
    match value {
        Value::Array(values) => any_has_other_keys(values.as_slice(), kind, finding),
        _ => has_other_keys(value, kind),
    }
}

/// Whether one of these values has an unknown key.
fn any_has_other_keys(values: &[Value], kind: TableKind, finding: &mut Finding) -> bool
    ensures { result ≡ list_any (λ value. has_other_keys (keys_of kind) (view value)) values.now }
{
    for value in values {
        if has_other_keys(value, kind) {
            return true;
        }
        finding.enter_next();
    }
    false
}

/// Whether a value has an unknown key.
fn has_other_keys(value: &Value, kind: TableKind) -> bool
    ensures { result ≡ has_other_keys (keys_of kind) (view value.now) }
{
    match value {
        Value::Table(table) => are_other_keys(table, kind),
        _ => has_key(value),
    }
}

/// Whether a table has an unknown key, or any key within a value of it.
fn are_other_keys(table: &Table, kind: TableKind) -> bool
    ensures { result ≡ are_other_keys (keys_of kind) (table_view table.now) }
{
    for (key, value) in table.iter() {
        if !kind.knows(key.as_str()) || has_key(value) {
            return true;
        }
    }
    false
}

/// Whether the value of `object` has an unknown key, at any depth: in a table, or in the tables of an array.
fn has_other_keys_in_objects(value: &Value, finding: &mut Finding) -> bool
    ensures { result ≡ has_other_keys_in_objects (view value.now) }
{
    TableKind::Object.enter(finding);
    match value {
        Value::Array(values) => any_object_has_other_keys(values.as_slice(), finding),
        _ => object_has_other_keys(value, finding),
    }
}

/// Whether one of these objects has an unknown key.
fn any_object_has_other_keys(values: &[Value], finding: &mut Finding) -> bool
    ensures { result ≡ list_any (λ value. object_has_other_keys (view value)) values.now }
{
    for value in values {
        if object_has_other_keys(value, finding) {
            return true;
        }
        finding.enter_object();
        finding.enter_next();
    }
    false
}

/// Whether an object has an unknown key.
fn object_has_other_keys(value: &Value, finding: &mut Finding) -> bool
    ensures { result ≡ object_has_other_keys (view value.now) }
{
    match value {
        Value::Table(table) => are_other_object_keys(table, finding),
        _ => has_key(value),
    }
}

/// Whether a table `object` has an unknown key.
fn are_other_object_keys(table: &Table, finding: &mut Finding) -> bool
    ensures { result ≡ are_other_object_keys (table_view table.now) }
{
    for (key, value) in table.iter() {
        if is_unknown_in_object(key.as_str(), value, finding) {
            return true;
        }
    }
    false
}

/// Whether a key of a table `object` is unknown, or one within its value.
fn is_unknown_in_object(key: &str, value: &Value, finding: &mut Finding) -> bool
    ensures { result ≡ is_unknown_in_object key.now (view value.now) }
{
    match key {
        "attribute" => has_other_keys_within(value, TableKind::Attribute, finding),
        "service" => has_other_keys_within(value, TableKind::Service, finding),
        name => {
            finding.enter_object();
            !TableKind::Object.knows(name) || has_key(value)
        }
    }
}

/// The first key of a table that is unknown there, or has keys within, and whether it is known.
pub(crate) fn first_other_key(table: &Table, place: Place) -> Option<(&str, bool)> {
    let kind = TableKind::of(place);
    for (key, value) in table.iter() {
        let key = key.as_str();
        let is_known = kind.knows(key);
        if !is_table_name(place, key) && (!is_known || has_key(value)) {
            return Some((key, is_known));
        }
    }
    None
}

/// Whether a table has tables of this name, which have keys of their own.
fn is_table_name(place: Place, name: &str) -> bool {
    match place {
        Place::Text => matches!(
            name,
            "counter"
                | "identity"
                | "assembly"
                | "ledger"
                | "commands"
                | "access"
                | "tcp_ip"
                | "ethernet_link"
                | "object"
        ),
        Place::Table("object", _) => name == "attribute" || name == "service",
        Place::Table(..) | Place::Part(..) => false,
    }
}

/// Whether a value has a key within it, at any depth.
#[cycle(keys)]
fn has_key(value: &Value) -> bool
    ensures { result ≡ has_key (view value.now) }
{
    match value {
        Value::Table(table) => !table.is_empty(),
        Value::Array(values) => any_has_key(values.as_slice()),
        _ => false,
    }
}

/// Whether one of these values has a key within it.
#[cycle(keys)]
fn any_has_key(values: &[Value]) -> bool
    ensures { result ≡ list_any (λ value. has_key (view value)) values.now }
{
    for value in values {
        if has_key(value) {
            return true;
        }
    }
    false
}
