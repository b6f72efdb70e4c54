//! The arguments and options of `enip serve`, `enip check` and `enip eds`.

use crate::argument_row::{ArgumentRow, FLAG, PLAIN};
use crate::option_texts::{
    ACCEPT_CONFIG_DETAILS, ACCEPT_OLDER_DETAILS, CLIENT_ADDRESS_DETAILS, DROP_COMMANDS_DETAILS,
    EDS_DATE_DETAILS, ICON_DETAILS, KEEP_DETAILS, KEPT_FILE_DETAILS, OWNER_DETAILS,
    OWNER_FROM_DETAILS, OWNER_TIMEOUT_DETAILS, OWNER_TOKEN_DETAILS, PROFILE_DETAILS,
    RESET_VALUES_DETAILS, SERVED_ADDRESS_DETAILS,
};
use enip_shell::Takes;

const ANY_CONFIG: ArgumentRow = ArgumentRow {
    id: "CONFIG",
    takes: Takes::File,
    help: "Configuration of the device, a TOML file, or - for standard input",
    ..PLAIN
};

pub(crate) static CONFIG: ArgumentRow = ArgumentRow {
    is_required: true,
    ..ANY_CONFIG
};

pub(crate) static CHECKED_CONFIG: ArgumentRow = ArgumentRow {
    required_unless: &["example"],
    ..ANY_CONFIG
};

pub(crate) static EXAMPLE: ArgumentRow = ArgumentRow {
    id: "example",
    option: Some("example"),
    help: "Print a configuration with every key, with comments",
    conflicts: &["CONFIG", "keep", "address", "from", "profile"],
    ..FLAG
};

pub(crate) static SERVED_ADDRESS: ArgumentRow = ArgumentRow {
    id: "address",
    option: Some("address"),
    value_name: Some("ADDRESS"),
    help: "Warn if discovery reports another address",
    details: Some(SERVED_ADDRESS_DETAILS),
    ..PLAIN
};

pub(crate) static CLIENT_ADDRESS: ArgumentRow = ArgumentRow {
    id: "from",
    option: Some("from"),
    value_name: Some("ADDRESS"),
    help: "Also print what a client of this address may do",
    details: Some(CLIENT_ADDRESS_DETAILS),
    ..PLAIN
};

pub(crate) static PROFILE: ArgumentRow = ArgumentRow {
    id: "profile",
    option: Some("profile"),
    help: "Print what a conformance test looks for",
    details: Some(PROFILE_DETAILS),
    conflicts: &["keep", "address", "from"],
    ..FLAG
};

pub(crate) static ICON: ArgumentRow = ArgumentRow {
    id: "icon",
    option: Some("icon"),
    value_name: Some("FILE"),
    takes: Takes::File,
    help: "Icon of the device, an .ico file",
    details: Some(ICON_DETAILS),
    ..PLAIN
};

pub(crate) static EDS_DATE: ArgumentRow = ArgumentRow {
    id: "date",
    option: Some("date"),
    value_name: Some("DATE"),
    help: "Date of the EDS, MM-DD-YYYY [default: today, in UTC]",
    details: Some(EDS_DATE_DETAILS),
    ..PLAIN
};

pub(crate) static LISTEN_ADDRESS: ArgumentRow = ArgumentRow {
    id: "ADDRESS",
    help: "Address to listen at, such as 127.0.0.1 or 127.0.0.1:44818",
    details: Some(
        "Address to listen at, such as 127.0.0.1 or 127.0.0.1:44818. Without a\nport it is 44818; port 0 takes a free one",
    ),
    is_required: true,
    ..PLAIN
};

pub(crate) static CONNECTION_COUNT: ArgumentRow = ArgumentRow {
    id: "count",
    option: Some("count"),
    value_name: Some("N"),
    help: "Exit after N connections [default: never]",
    details: Some(
        "Exit after N connections, 1 to 65535. Connections that are closed at\nonce count too\n\n[default: never]",
    ),
    ..PLAIN
};

/// TCP/IP Interface, Encapsulation Inactivity Timeout: 0 to 3,600 seconds, by default 120.
pub(crate) static IDLE_TIMEOUT: ArgumentRow = ArgumentRow {
    id: "idle",
    option: Some("idle"),
    value_name: Some("SECONDS"),
    help: "Longest silence of a client, 0 to 3600 [default: 120]",
    details: Some(
        "A client that sends nothing for so many seconds, 0 to 3600, is\ndisconnected. 0 is no limit. SECONDS replaces the\ninactivity_timeout of a table tcp_ip, which counts without --idle\n\n[default: 120]",
    ),
    ..PLAIN
};

pub(crate) static DISCOVERY: ArgumentRow = ArgumentRow {
    id: "discovery",
    option: Some("discovery"),
    help: "Answer clients that look for devices over UDP",
    ..FLAG
};

pub(crate) static LOG: ArgumentRow = ArgumentRow {
    id: "log",
    option: Some("log"),
    value_name: Some("FORMAT"),
    takes: Takes::Names(&["text", "json"]),
    help: "Log connections and frames, as text or json",
    bare_value: Some("text"),
    ..PLAIN
};

pub(crate) static LOG_TIME: ArgumentRow = ArgumentRow {
    id: "log-time",
    option: Some("log-time"),
    value_name: Some("CLOCK"),
    takes: Takes::Names(&["start", "utc"]),
    help: "Times of the log: since the start, or of the day in UTC",
    needs: &["log"],
    is_rare: true,
    ..PLAIN
};

pub(crate) static KEEP: ArgumentRow = ArgumentRow {
    id: "keep",
    option: Some("keep"),
    value_name: Some("FILE"),
    takes: Takes::File,
    help: "File that keeps the state of the device over restarts",
    details: Some(KEEP_DETAILS),
    ..PLAIN
};

pub(crate) static KEPT_FILE: ArgumentRow = ArgumentRow {
    id: "keep",
    option: Some("keep"),
    value_name: Some("FILE"),
    takes: Takes::File,
    help: "File that keeps the state of the device over restarts",
    details: Some(KEPT_FILE_DETAILS),
    ..PLAIN
};

pub(crate) static ACCEPT_OLDER: ArgumentRow = ArgumentRow {
    id: "accept-older",
    option: Some("accept-older"),
    help: ACCEPT_OLDER_DETAILS,
    needs: &["keep"],
    is_rare: true,
    ..FLAG
};

pub(crate) static DROP_COMMANDS: ArgumentRow = ArgumentRow {
    id: "drop-commands",
    option: Some("drop-commands"),
    help: DROP_COMMANDS_DETAILS,
    needs: &["keep"],
    is_rare: true,
    ..FLAG
};

pub(crate) static RESET_VALUES: ArgumentRow = ArgumentRow {
    id: "reset-value",
    option: Some("reset-value"),
    value_name: Some("ATTRIBUTES"),
    help: RESET_VALUES_DETAILS,
    needs: &["keep"],
    is_rare: true,
    ..PLAIN
};

pub(crate) static ACCEPT_CONFIG: ArgumentRow = ArgumentRow {
    id: "accept-config",
    option: Some("accept-config"),
    help: ACCEPT_CONFIG_DETAILS,
    needs: &["keep"],
    is_rare: true,
    ..FLAG
};

pub(crate) static OWNER: ArgumentRow = ArgumentRow {
    id: "owner",
    option: Some("owner"),
    value_name: Some("ADDRESS"),
    help: "Also listen here for the owner of the device",
    details: Some(OWNER_DETAILS),
    ..PLAIN
};

pub(crate) static OWNER_FROM: ArgumentRow = ArgumentRow {
    id: "owner-from",
    option: Some("owner-from"),
    value_name: Some("ADDRESS"),
    help: OWNER_FROM_DETAILS,
    needs: &["owner"],
    is_rare: true,
    ..PLAIN
};

pub(crate) static OWNER_TOKEN: ArgumentRow = ArgumentRow {
    id: "owner-token",
    option: Some("owner-token"),
    value_name: Some("FILE"),
    takes: Takes::File,
    help: OWNER_TOKEN_DETAILS,
    needs: &["owner"],
    is_rare: true,
    ..PLAIN
};

pub(crate) static OWNER_TIMEOUT: ArgumentRow = ArgumentRow {
    id: "owner-timeout",
    option: Some("owner-timeout"),
    value_name: Some("SECONDS"),
    help: OWNER_TIMEOUT_DETAILS,
    needs: &["owner"],
    is_rare: true,
    ..PLAIN
};
