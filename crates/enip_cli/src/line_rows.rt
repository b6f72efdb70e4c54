//! The arguments and options of `enip replay` and `enip completions`.

use crate::argument_row::{ArgumentRow, FLAG, PLAIN};
use enip_shell::Takes;

pub(crate) static SCRIPT: ArgumentRow = ArgumentRow {
    id: "SCRIPT",
    takes: Takes::File,
    help: "Script to run, a text file, or - for standard input",
    is_required: true,
    ..PLAIN
};

pub(crate) static LADDER: ArgumentRow = ArgumentRow {
    id: "ladder",
    option: Some("ladder"),
    help: "Draw the run with client, wire and adapter as columns",
    ..FLAG
};

/// Its values are the shells that have a completion script.
pub(crate) static SHELL: ArgumentRow = ArgumentRow {
    id: "SHELL",
    takes: Takes::Names(&["bash", "zsh", "fish"]),
    help: "Shell that runs the script",
    is_required: true,
    ..PLAIN
};
