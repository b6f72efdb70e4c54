//! The longer texts of the help of `enip inspect`, `ledger`, `identity`, `services` and `discover`.
//!
//! `EXAMPLES_..` end the help of `-h`. `DETAILS_..` end that of `--help` and have the same examples.

pub(crate) const EXAMPLES_INSPECT: &str = "\
Examples:
  enip inspect 10.0.0.9
  enip inspect 10.0.0.9 --json --route 1/0";

pub(crate) const DETAILS_INSPECT: &str = "\
Reads the attributes of Identity, Message Router, Connection Manager, TCP/IP
Interface and Ethernet Link, of the counter and the ledger of this product, and
the data of each assembly. What the device refuses is left out, or printed with
its status if you pass --verbose.

Assemblies are tried from instance 1 up to the greatest instance of the class,
at most 1000; up to 255 if the device does not say.

Examples:
  enip inspect 10.0.0.9
  enip inspect 10.0.0.9 --json --route 1/0

For exit statuses, see `enip --help`.";

pub(crate) const USAGE_LEDGER: &str = "\
enip ledger [OPTIONS] <ADDRESS>
       enip ledger [OPTIONS] <ADDRESS> --forget <FILE>
       enip ledger [OPTIONS] <ADDRESS> --forget <ORIGINATOR> <NUMBER>";

pub(crate) const EXAMPLES_LEDGER: &str = "\
Examples:
  enip ledger 10.0.0.9
  enip ledger 10.0.0.9 --forget commands
  enip ledger 10.0.0.9 --forget 4d1f0a5be2a90c37 12";

pub(crate) const DETAILS_LEDGER: &str = "\
Each originator of commands, such as a FILE of --once, takes a slot of the
command ledger and keeps it until it is freed. Without --forget, this prints a
line for each slot that is taken: the originator as FILE has it, the number of
its last command, and whether that is done, pending, in doubt or withdrawn.

  4d1f0a5be2a90c37 12 done

With --forget, it frees a slot, and prints `freed` and that line, or `no slot`
if the originator has none. Free a slot only if its originator will not repeat
its last command: once the slot is free, the device executes that again. A
pending command is withdrawn first. If the owner of the device has it, the slot
is not freed.

If the device refuses, the output is `refused 0xGG`, as of `enip get`. With
--json, it is an object on one line.

Examples:
  enip ledger 10.0.0.9
  enip ledger 10.0.0.9 --forget commands
      frees the slot of `--once commands`
  enip ledger 10.0.0.9 --forget 4d1f0a5be2a90c37 12

For exit statuses, see `enip --help`.";

pub(crate) const EXAMPLES_IDENTITY: &str = "\
Examples:
  enip identity 127.0.0.1
  enip identity plc.local:2222 --json";

pub(crate) const DETAILS_IDENTITY: &str = "\
Sends ListIdentity, which needs no session, and prints a line for each field.
Several identities have an empty line between them.

  vendor 4660
  device type 43
  product code 7
  revision 2.5
  status 0x0000
  serial 0x01020304
  name Demo
  state 3
  address 127.0.0.1:44818

A byte of the name that is not printable is written as \\xNN. With --json, each
identity is one object on one line.

Examples:
  enip identity 127.0.0.1
  enip identity plc.local:2222 --json

For exit statuses, see `enip --help`.";

pub(crate) const EXAMPLES_SERVICES: &str = "\
Examples:
  enip services 127.0.0.1
  enip services plc.local:2222 --timeout 1
  enip services plc.local:2222 --json";

pub(crate) const DETAILS_SERVICES: &str = "\
Sends ListServices, which needs no session, and prints a line for each field.
Several services have an empty line between them.

  version 1
  capability flags 0x0020
  name Communications

A byte of the name that is not printable is written as \\xNN. With --json, each
service is one object on one line.

Examples:
  enip services 127.0.0.1
  enip services plc.local:2222 --timeout 1
  enip services plc.local:2222 --json

For exit statuses, see `enip --help`.";

pub(crate) const EXAMPLES_DISCOVER: &str = "\
Examples:
  enip discover
  enip discover 192.168.1.255 --timeout 3";

pub(crate) const DETAILS_DISCOVER: &str = "\
Sends ListIdentity in one UDP datagram, and prints a line for each device that
answers in time:

  127.0.0.1:44818 Demo vendor 4660 product 7 serial 0x01020304

A datagram that is not a whole answer is ignored. With --json, each device is
one object on one line. The exit status is 0 even if no device answers.

With --verbose, ` from ADDRESS` ends each line: the address and the port that
the answer came from. Warnings on standard error say if an answer came from
another address than the device reports, or if two devices report the same
address or serial number.

Examples:
  enip discover
  enip discover 192.168.1.255 --timeout 3

For exit statuses, see `enip --help`.";
