//! The end of the help of the program.
//!
//! The texts of the help are in `.._texts`, by what they are about. No line of one is longer than 80 columns.

/// The end of `enip --help`: the one place that has the exit statuses.
pub(crate) const EXIT_STATUSES: &str = "\
Examples:
  enip serve demo.toml 127.0.0.1
  enip get 127.0.0.1 identity 1 name --as SHORT_STRING

`enip help objects` prints the names of classes, attributes and services.

Exit status, and the last line of standard error if the command fails. The line
before it starts with `enip: ` and gives the reason.

  0                     success
  2                     the arguments are refused; the text gives the reason
  2  hex                HEX is not hexadecimal
  2  value              an argument is not a value of TYPE, or is out of range
  2  pending            --once: the pending command of FILE is another one, or
                        there is none
  2  life               --once: the device has restarted since the pending
                        command was sent
  2  id                 --id: the command with this id has another request
  3  configuration N    the configuration is refused
  3  state              --keep: FILE is not the kept state of this device, or is
                        damaged, or older than it was
  4  line N             line N of the input or the script is refused; the lines
                        before it were run. --once: line N of FILE is refused
  5  device             a file, a stream or the network failed, or the device
                        did not answer in time
  5  memory             out of memory
  6                     the device refused the request
  6  setup              replay: no capacity for two sessions and a connection
  7  fault N            no valid reply
  7  withdrawn          --once: the pending command was withdrawn before, and is
                        never executed
  8  unsettled          --id: the command is pending in FILE
  9  blocked            --id: the command was not sent, because another one is
                        pending in FILE

configuration N, the first that applies:

  7    the file is not TOML
  9    an unknown key
  8    a key is missing, or its value has the wrong type or is out of range
  1    `name` is longer than 32 bytes, or has a byte that is not printable
  2    more than 16 assemblies, or `members` of one with 0 or over 3900 bytes
  3    more than 64 members in an assembly, or one of 0 bytes
  4    `instance` of an assembly is 0 or occurs twice
  5    `value` of the counter is over its `limit`
  10   a class, an instance or a name of an object, or more than 32 objects
  11   a number, a type, a value or a range of an attribute, or too many bytes
  12   a number or a size of an object's service, or more than 16 services
  13   `read` or `write` of `access` is not a list of addresses and prefixes
  14   there is a table `commands`, but no service is queued

fault N:

  1    the request is not possible
  2    the device answered with an encapsulation error status
  3    --once: the device refused the command, or it has no command ledger
  4    a frame was too long
  6    the reply is malformed, or its data are not values of TYPE
  7    the request is too long: over 504 bytes, or 498 with --connected; with
       --once 478 or 472. With --size N, 498 and 472 are N - 2 and N - 28";
