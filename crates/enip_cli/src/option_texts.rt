//! The longer help of options: what `--help` prints of one, which `clap` indents by ten columns.

pub(crate) const SERVED_ADDRESS_DETAILS: &str = "\
Address at which the device will be served. Standard error has a
warning if discovery reports another address or port";

pub(crate) const CLIENT_ADDRESS_DETAILS: &str = "\
Also print what a client of this IPv4 or IPv6 address may do, by the
table `access` of the configuration: read and write, read, or not
connect";

pub(crate) const PROFILE_DETAILS: &str = "\
Print what a conformance test looks for in this configuration, one
line for each part, in place of the device. A line with `missing:` is
about something that the standard requires";

pub(crate) const ICON_DETAILS: &str = "\
Icon of the device, an .ico file of up to 65536 bytes. The EDS has its
name without folders, and its bytes in base64";

pub(crate) const EDS_DATE_DETAILS: &str = "\
Date of the EDS as MM-DD-YYYY, such as 11-29-2026. With it, the same
configuration gives the same text on every day

[default: today, in UTC]";

pub(crate) const ROUTE_DETAILS: &str = "\
Hops to a device behind routers, such as 1/0,2/10.0.0.7: ADDRESS is
the first router, and each hop is PORT/LINK, a port of a router and
the link address of the next node behind it. A link is 0 to 255, as a
slot, or an address";

pub(crate) const WAIT_DETAILS: &str = "\
Longest wait for the device: seconds, 0 to 3600, with up to six
decimals. It applies to connecting and to each read, not to the
resolution of a name. 0 waits for as long as TCP does";

pub(crate) const EVERY_DETAILS: &str = "\
Read again this long after each reply: seconds, 0 to 3600, with up to
six decimals. All requests have one session, or with --connected one
connection. The first value is printed, and then each that differs
from the one before

[default: once]";

pub(crate) const COUNT_DETAILS: &str = "\
With --every, exit after N replies, 1 to 4294967295

[default: never]";

pub(crate) const PRINTED_TYPE_DETAILS: &str = "\
Print the data as a value of this type, or with [] after it, as any
number of values, with a space between them:

BOOL                     0 or 1
SINT INT DINT LINT       signed numbers of 1, 2, 4 and 8 bytes
USINT UINT UDINT ULINT   unsigned numbers of 1, 2, 4 and 8 bytes
BYTE WORD DWORD LWORD    bit strings, as 0x and hexadecimal digits
REAL LREAL               a decimal number, inf, -inf or NaN
DATE                     YYYY-MM-DD
TIME_OF_DAY              hh:mm:ss.mmm
DATE_AND_TIME            YYYY-MM-DDThh:mm:ss.mmm
TIME LTIME               a duration, such as 1500ms and 1500us
SHORT_STRING             up to 255 characters; \\xNN is a byte that is
                         not printable, \\\\ a backslash. In a list,
                         each is quoted
STRING                   the same, up to 65535 characters
STRING2                  up to 65535 characters of 16 bits; \\uNNNN is
                         one that is not printable ASCII
EPATH                    up to 255 words, as hexadecimal digits

The values of a structure are given by the types of its fields, with a
comma between them, such as UINT,REAL,USINT[4]: [N] is an array of N
values. All fields or none have names, such as speed:UINT,limit:REAL";

pub(crate) const REPLY_TYPE_DETAILS: &str = "\
Print the data of the reply as a value of this type, or with [] after
it, as any number of values, with a space between them, or as the
fields of a structure. The types are those of --as of `enip get`";

pub(crate) const WRITTEN_TYPE_DETAILS: &str = "\
Take a value of this type, or with [] after it, any number of values,
each as one argument:

BOOL                     0, 1, false or true
SINT INT DINT LINT       signed numbers of 1, 2, 4 and 8 bytes
USINT UINT UDINT ULINT   unsigned numbers of 1, 2, 4 and 8 bytes;
                         ULINT also as 0x and hexadecimal digits
BYTE WORD DWORD LWORD    bit strings, as 0x and hexadecimal digits, or
                         as decimal numbers
REAL LREAL               a decimal number, with or without exponent,
                         inf, -inf or NaN
DATE                     YYYY-MM-DD
TIME_OF_DAY              hh:mm:ss.mmm
DATE_AND_TIME            YYYY-MM-DDThh:mm:ss.mmm
TIME LTIME               a number, with or without ms or us after it
SHORT_STRING STRING      up to 255 and 65535 characters; \\xNN is a
                         byte, \\\\ a backslash
STRING2                  up to 65535 ASCII characters; \\uNNNN is any
                         character
EPATH                    up to 255 words, as hexadecimal digits

The values of a structure are given by the types of its fields, with a
comma between them, such as UINT,REAL,USINT[4]: [N] is an array of N
values. All fields or none have names, such as speed:UINT,limit:REAL";

pub(crate) const CALLED_TYPE_DETAILS: &str = "\
Take a value of this type, or with [] after it, any number of values,
each as one argument, or those of the fields of a structure. The types
are those of --as of `enip set`";

pub(crate) const DATA_DETAILS: &str = "\
Data in hexadecimal, as one argument; spaces are ignored. Numbers have
their least significant byte first. With --as, one argument for each
value. A value that begins with a minus sign and is not a number needs
`--` before it";

pub(crate) const KEEP_DETAILS: &str = "\
Keep the state of the device in FILE, an SQLite database, over
restarts and power cuts: what clients have set, the counter and the
command ledger. No answer leaves before the change that it reports is
kept. FILE is created if there is none. FILE-wal and FILE.round are
files next to it: move them together";

pub(crate) const KEPT_FILE_DETAILS: &str = "\
Also print the values that a device would start with from FILE, the
file of `enip serve --keep`. FILE is not changed";

pub(crate) const ACCEPT_OLDER_DETAILS: &str = "\
With --keep, start even if FILE is damaged, or older than FILE.round
says. The command ledger and the queue then start empty, in a new
life, so that no pending command is executed twice";

pub(crate) const DROP_COMMANDS_DETAILS: &str = "\
With --keep, start even if CONFIG has no place for commands that wait
in FILE, or for taken slots of the command ledger. All of them are
dropped, and standard error says how many. Look at the machine before
you give a command again";

pub(crate) const RESET_VALUES_DETAILS: &str = "\
With --keep, put these attributes back to the values of CONFIG, such
as 768/1/1 or 0x300/1/1,768/1/2: class, instance and attribute, with a
comma between several";

pub(crate) const ACCEPT_CONFIG_DETAILS: &str = "\
With --keep, put each kept value that its type or range in CONFIG does
not allow any more back to the value of CONFIG";

pub(crate) const OWNER_DETAILS: &str = "\
Also listen here for the owner of the device: a program that executes
its services, hears of each set by a client, and writes its values, by
lines of JSON. A loopback address, such as 127.0.0.1:7000,
unless --owner-from is given. Port 0 takes a free one";

pub(crate) const OWNER_FROM_DETAILS: &str = "\
With --owner, listen at any address, and let in an owner from this
IPv4 or IPv6 address only";

pub(crate) const OWNER_TOKEN_DETAILS: &str = "\
With --owner, let in an owner whose first line is the first line of
FILE";

pub(crate) const OWNER_TIMEOUT_DETAILS: &str = "\
With --owner, how long a client waits for the owner's answer to a
request that is not queued, 0 to 3600. 0 is no limit

[default: 1]";

pub(crate) const ONCE_DETAILS: &str = "\
Execute the command once, even if connections are lost. The device
needs a command ledger. FILE has who gives the commands, the number of
the last one, and the command while it is pending. It is created if
there is none, and written before the command is sent. FILE.lock and
FILE.new are files next to it";

pub(crate) const COMMAND_ID_DETAILS: &str = "\
With --once, the id of the command: 1 to 64 printable ASCII characters
without spaces, such as 2026-11-29. FILE keeps the ids, requests and
replies of the last commands. A command whose id is among them is not
sent: its reply is printed again. A pending command with another id is
settled first";

pub(crate) const IDS_DETAILS: &str = "\
With --id, keep the last N ids in FILE, 1 to 1024. An id that is not
kept any more is that of a new command

[default: 64]";

pub(crate) const TRIES_DETAILS: &str = "\
With --once, try up to N times, each on a new connection, until the
device answers. With --connected and without --once, send the request
up to N times on the same connection, again after each timeout; the
device executes it once. 0 is for ever

[default: 3 with --once, 1 without]";

pub(crate) const READ_TRIES_DETAILS: &str = "\
With --connected, send the request up to N times on the connection,
again after each timeout. 0 is for ever

[default: 1]";

pub(crate) const PENDING_DETAILS: &str = "\
With --once, send the pending command of FILE and not the one in the
arguments, which can be left out";

pub(crate) const ABANDON_DETAILS: &str = "\
With --once, have the device withdraw the pending command of FILE, so
that it is never executed, and send the one in the arguments as a new
command. If it is left out, send no other. A command that was executed
is settled with its reply. After any other answer, or none, nothing is
given up and nothing else is sent. If the new command has no answer,
do not repeat this line: leave out --abandon";

pub(crate) const FORCE_DETAILS: &str = "\
With --abandon, do not ask the device, and give up the pending command
of FILE: it is executed once or not at all, now or later";

pub(crate) const FORGET_DETAILS: &str = "\
Free the slot of the originator of FILE, a file of --once without a
pending command. With NUMBER, the value is not a file but an
originator, as the list has it, or 0x and up to 16 hexadecimal digits.
The slot is freed only if its last command has the number of FILE, or
NUMBER";

pub(crate) const MEMBER_DETAILS: &str = "\
Member of the attribute, 0 to 65535. The request of `get` is then
Get_Member 0x18, that of `set` Set_Member 0x19";

pub(crate) const CONNECTION_SERIAL_DETAILS: &str = "\
Connection serial number, 0 to 65535, or auto for one that differs
from those of other processes of this machine

[default: 1]";

pub(crate) const ORIGINATOR_SERIAL_DETAILS: &str = "\
Serial number of the originator, 0 to 4294967295, or auto for one from
the clock

[default: 305419896]";

pub(crate) const SIZE_DETAILS: &str = "\
Size of an item of the connection in each direction, 10 to 4002: a
request or a reply and 2 bytes. Over 511 the connection is opened with
Large_Forward_Open

[default: 500]";

pub(crate) const RPI_DETAILS: &str = "\
Requested packet interval, 1 to 4294967295

[default: 2000000]";

pub(crate) const MULTIPLIER_DETAILS: &str = "\
Timeout multiplier, 0 to 7. The device closes the connection if it
gets nothing for RPI x 4 x 2^N

[default: 0]";

pub(crate) const READ_MULTIPLIER_DETAILS: &str = "\
Timeout multiplier, 0 to 7. The device closes the connection if it
gets nothing for RPI x 4 x 2^N

[default: 7 with --every, 0 without]";

pub(crate) const SESSION_MULTIPLIER_DETAILS: &str = "\
Timeout multiplier, 0 to 7. The device closes the connection if it
gets nothing for RPI x 4 x 2^N

[default: 7]";

pub(crate) const DEADLINE_DETAILS: &str = "\
Longest time of the whole command: seconds, 0 to 3600, with up to six
decimals. It does not bound the resolution of a name. 0 is no limit

[default: none]";

pub(crate) const QUIET_DETAILS: &str = "\
Print only values on standard output. `ok` is not printed, and a
refusal is printed on standard error";
