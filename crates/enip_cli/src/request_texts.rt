//! The longer texts of the help of `enip get`, `set`, `call`, `batch` and `watch`.
//!
//! `EXAMPLES_..` end the help of `-h`. `DETAILS_..` end that of `--help` and have the same examples.

pub(crate) const EXAMPLES_GET: &str = "\
Examples:
  enip get 127.0.0.1 1 1 1
  enip get 127.0.0.1 1 1 7 --as SHORT_STRING";

pub(crate) const DETAILS_GET: &str = "\
The request has a session of its own, or with --connected a connection of its
own. It is Get_Attribute_Single, or Get_Attributes_All without ATTRIBUTE.

Output:

  hex                    the data of the reply, least significant byte first
  ok                     the reply has no data
  refused 0xGG           the device refused: the general status
  refused 0xGG 0xEEEE    the same, with the first additional status word

With --json it is an object instead: `status` 0 and `data`, and with --as `type`
and `values`; or for a refusal, `status` and `extended`, the first additional
status word or 0.

With --every, a line starts with the seconds since the start:

  0.002117 01020304
  4.002391 05020304

A device that goes away is reported on standard error and tried again after the
seconds of --timeout, or after 5 if that is 0.

Examples:
  enip get 127.0.0.1 1 1 1
      reads the vendor: class 1 (Identity), instance 1, attribute 1
  enip get 127.0.0.1 1 1 7 --as SHORT_STRING
      prints the product name, such as Demo
  enip get 127.0.0.1 4 100 3 --every 0.5 --connected
      follows the data of an assembly: class 4, instance 100, attribute 3

For exit statuses, see `enip --help`.";

pub(crate) const USAGE_SET: &str = "\
enip set [OPTIONS] <ADDRESS> <CLASS> <INSTANCE> <ATTRIBUTE> <HEX>...
       enip set <ADDRESS> --once <FILE> <--pending|--abandon>";

pub(crate) const EXAMPLES_SET: &str = "\
Examples:
  enip set 127.0.0.1 4 100 3 01020304
  enip set 127.0.0.1 4 100 3 --as UINT[] 513 1027";

pub(crate) const DETAILS_SET: &str = "\
The request has a session of its own, or with --connected a connection of its
own. It is Set_Attribute_Single.

Output:

  ok                     the attribute is written
  hex                    the same, and the reply has these data
  refused 0xGG           the device refused: the general status
  refused 0xGG 0xEEEE    the same, with the first additional status word

With --json it is an object instead: `status` 0 and `data`, the data of the
reply; or for a refusal, `status` and `extended`, the first additional status
word or 0.

With --once, the device executes the command once, whatever connections break,
if it has a command ledger. FILE keeps the command until the device has
answered: exit status 0 or 6. After any other status the same command line goes
on with it.

Examples:
  enip set 127.0.0.1 4 100 3 01020304
      sets the data of an assembly (class 4, instance 100, attribute 3) to the
      bytes 01 02 03 04
  enip set 127.0.0.1 4 100 3 --as UINT[] 513 1027
      sets them to the same bytes

For exit statuses, see `enip --help`.";

pub(crate) const USAGE_CALL: &str = "\
enip call [OPTIONS] <ADDRESS> <SERVICE> <CLASS> <INSTANCE> [HEX]...
       enip call <ADDRESS> --once <FILE> <--pending|--abandon>";

pub(crate) const EXAMPLES_CALL: &str = "\
Examples:
  enip call 127.0.0.1 50 100 1 05000000
  enip call 127.0.0.1 50 100 1 --as UDINT --reply-as UDINT 5
  enip call 127.0.0.1 51 100 1 --connected
  enip call 127.0.0.1 50 100 1 05000000 --once commands";

pub(crate) const DETAILS_CALL: &str = "\
The request has a session of its own, or with --connected a connection of its
own.

Output:

  hex                    the data of the reply, least significant byte first
  values                 the same with --reply-as
  ok                     the reply has no data
  refused 0xGG           the device refused: the general status
  refused 0xGG 0xEEEE    the same, with the first additional status word

With --json it is an object instead: `status` 0 and `data`, and with --reply-as
`type` and `values`; or for a refusal, `status` and `extended`, the first
additional status word or 0.

With --once, the device executes the command once, whatever connections break,
if it has a command ledger. FILE keeps the command until the device has
answered: exit status 0 or 6. After any other status the same command line goes
on with it.

Examples:
  enip call 127.0.0.1 50 100 1 05000000
      calls service 50 (0x32) of class 100, instance 1, with the data
      05 00 00 00; the demo device adds 5 to its counter
  enip call 127.0.0.1 50 100 1 --as UDINT --reply-as UDINT 5
      the same, and prints the new count as a number
  enip call 127.0.0.1 51 100 1 --connected
      calls service 51 (0x33) on a class 3 connection; the demo device sets its
      counter to 0
  enip call 127.0.0.1 50 100 1 05000000 --once commands
      adds 5 exactly once, however often this line is run until it succeeds; the
      device needs a command ledger

For exit statuses, see `enip --help`.";

pub(crate) const EXAMPLES_ONCE: &str = "\
Examples:
  enip once commands
  enip once commands --json";

pub(crate) const DETAILS_ONCE: &str = "\
Reads the file that `enip call` and `enip set` keep of commands that are
executed once. Prints who gives the commands, the life of the device, the number
of the last command, the request and the id of the pending one, the ids,
requests and replies of the last commands with an id, and the last of these
replies. Nothing is sent, and the file is not changed. Requests and replies are
in hexadecimal.

With --json it is an object instead.

Examples:
  enip once commands
  enip once commands --json

For exit statuses, see `enip --help`.";

pub(crate) const EXAMPLES_BATCH: &str = "\
Examples:
  enip batch 10.0.0.9 <requests.txt
  echo 'get identity 1 name --as SHORT_STRING' | enip batch 10.0.0.9";

pub(crate) const DETAILS_BATCH: &str = "\
Reads requests from standard input, one a line, and sends them in one session,
with --connected on one connection. A line is `get`, `set` or `call` with the
arguments of that command, without ADDRESS:

  # set a speed, then read it back
  set 768 1 1 --as UINT 1500
  get 768 1 1 --as UINT
  call add counter 1 05000000

A word in quotation marks may contain spaces. `#` begins a comment.

Each reply is one line on standard output, in the order of the requests. If a
request is refused, the line is `refused 0xGG`, and standard error has the
reason with the number of the line. A line that is not a request prints nothing,
and is reported in the same way. The rest of the input continues, unless you
pass --stop.

The exit status is 4 if a line is not a request, otherwise that of the first
request that failed.

Examples:
  enip batch 10.0.0.9 <requests.txt
  echo 'get identity 1 name --as SHORT_STRING' | enip batch 10.0.0.9

For exit statuses, see `enip --help`.";

pub(crate) const EXAMPLES_WATCH: &str = "\
Examples:
  enip watch 10.0.0.9 '4 100 3' 'counter 1 value --as UDINT'
  enip watch 10.0.0.9 '768 1 1 --as UINT' --every 0.1 --connected";

pub(crate) const DETAILS_WATCH: &str = "\
Reads the attributes in rounds, in one session, with --connected on one
connection. Each REQUEST is one argument: the arguments of `enip get` without
ADDRESS, such as 'counter 1 value --as UDINT'.

On a terminal, a table shows the values. Elsewhere, a line is printed for each
value that differs from the one before: the seconds since the start, REQUEST and
the value. With --json, each line is an object.

A device that is lost is tried again after the time of --timeout.

Examples:
  enip watch 10.0.0.9 '4 100 3' 'counter 1 value --as UDINT'
  enip watch 10.0.0.9 '768 1 1 --as UINT' --every 0.1 --connected

For exit statuses, see `enip --help`.";
