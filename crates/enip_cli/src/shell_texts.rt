//! The longer texts of the help of `enip completions` and `enip man`. No line is longer than 80 columns.

pub(crate) const EXAMPLES_COMPLETIONS: &str = "\
Examples:
  enip completions bash >~/.local/share/bash-completion/completions/enip
  enip completions fish >~/.config/fish/completions/enip.fish";

pub(crate) const DETAILS_COMPLETIONS: &str = "\
The script completes commands, options, and what they take: files, the names of
types, classes, attributes and services, and values that are one of a few. For
the shell that is running:

  eval \"$(enip completions bash)\"
  source <(enip completions zsh)
  enip completions fish | source

For each new shell, keep it in a file:

  bash    ~/.local/share/bash-completion/completions/enip
  zsh     _enip in a folder of $fpath
  fish    ~/.config/fish/completions/enip.fish

Examples:
  enip completions bash >~/.local/share/bash-completion/completions/enip
  enip completions fish >~/.config/fish/completions/enip.fish

For exit statuses, see `enip --help`.";

pub(crate) const EXAMPLES_MAN: &str = "\
Examples:
  enip man | man -l -
  enip man >/usr/local/share/man/man1/enip.1";

pub(crate) const DETAILS_MAN: &str = "\
The page is roff with the macros of man(7). It has the texts of the help of all
commands.

Examples:
  enip man | man -l -
  enip man >/usr/local/share/man/man1/enip.1

For exit statuses, see `enip --help`.";
