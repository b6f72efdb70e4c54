//! The longer texts of the help of `enip serve`, `enip check` and `enip eds`.
//!
//! `EXAMPLES_..` end the help of `-h`. `DETAILS_..` end that of `--help` and have the same examples.

pub(crate) const EXAMPLES_SERVE: &str = "\
Examples:
  enip serve demo.toml 127.0.0.1
  enip serve demo.toml 0.0.0.0:2222 --discovery --log
  enip serve conveyor.toml 10.0.0.9 --owner 127.0.0.1:7000";

pub(crate) const DETAILS_SERVE: &str = "\
Once the device listens, `listening on ADDRESS` is printed on standard error.

The configuration's `peers` is how many clients may be connected at once. One
client more, or one for which no session handle is left, is disconnected at
once. A client that resets its connection, sends garbage or leaves in the middle
of a frame ends only its own connection. A client that does not send or does not
read delays no other client; --idle ends it.

With --discovery, the device also receives datagrams at the same UDP address and
port. It answers ListIdentity, ListServices and ListInterfaces without data as
over TCP, and drops all others. At 0.0.0.0 it receives broadcasts too.

With --log, standard error has a line for each connection that begins or ends,
and for each frame: the seconds since the start, the client, the request and the
status of the answer, and `(kept reply)` if the request is a repeat. With --log
json, each line is a JSON object. Without --log, clients that were turned away
are reported once a minute.

  0.002117 127.0.0.1:40312 connected
  0.002305 127.0.0.1:40312 RegisterSession: 0x0000 success
  0.002377 127.0.0.1:40312 SendRRData service 0x01 get-all class 0x01
    identity instance 1: 0x00 success
  0.002462 127.0.0.1:40312 UnRegisterSession: no answer
  0.002481 127.0.0.1:40312 disconnected: session unregistered

With --owner, a program behind the device is its owner. Once the device listens
for it, `owner at ADDRESS` is printed on standard error. Whoever can connect
there can control the device, unless you pass --owner-token.

Examples:
  enip serve demo.toml 127.0.0.1
  enip serve demo.toml 0.0.0.0:2222 --discovery --log
  enip serve conveyor.toml 10.0.0.9 --owner 127.0.0.1:7000

For exit statuses, see `enip --help`.";

pub(crate) const EXAMPLES_CHECK: &str = "\
Examples:
  enip check --example >device.toml
  enip check demo.toml
  enip check demo.toml --from 10.0.0.5
  enip check demo.toml && enip serve demo.toml 127.0.0.1";

pub(crate) const DETAILS_CHECK: &str = "\
Prints the identity, the counter, each assembly with the sizes of its members,
the limits, and who may read and who may write if the configuration says so:

  vendor 4660
  device type 43
  product code 7
  revision 2.5
  status 0x0000
  serial 0x01020304
  name Demo
  state 3
  address 127.0.0.1:44818
  counter 0, limit 100
  assembly 100, settable, 4 bytes, member sizes 1 2 1
  up to 4 peers and 16 connections
  first session handle 1, first connection ID 1

If the configuration is refused, standard error has the reason, in which line it
is, and `configuration N`. `enip --help` lists the meanings of N.

Examples:
  enip check --example >device.toml
  enip check demo.toml
  enip check demo.toml --from 10.0.0.5
  enip check demo.toml && enip serve demo.toml 127.0.0.1

For exit statuses, see `enip --help`.";

pub(crate) const EXAMPLES_EDS: &str = "\
Examples:
  enip eds demo.toml >demo.eds
  enip eds demo.toml --icon demo.ico --date 11-29-2026 >demo.eds";

pub(crate) const DETAILS_EDS: &str = "\
Prints the electronic data sheet of the device that a configuration describes: a
text file from which the tools of controllers learn what the device is, and what
its assemblies and attributes are.

  [Device]
          VendCode = 4660;
          VendName = \"Vendor 4660\";
          ProdType = 43;
          ProdTypeStr = \"Generic Device (keyable)\";

Each member of 1, 2, 4 or 8 bytes of an assembly is a Param, and each attribute
of an own object that is neither an array nor BYTES. There are no I/O
connections.

Examples:
  enip eds demo.toml >demo.eds
  enip eds demo.toml --icon demo.ico --date 11-29-2026 >demo.eds

For exit statuses, see `enip --help`.";
