//! A configuration with every key.

/// A configuration with every key, with comments. It describes a device that `enip serve` can run. Keys that need a
/// program of yours, the owner of the device, are commented out.
pub const EXAMPLE: &str =
    r#"# A device for `enip serve`. A key with a default can be left out, and so can any table.

vendor = 4660                # the identity of the device, which clients compare: 0 to 65535
device_type = 43             # 0 to 65535
product_code = 7             # 0 to 65535
major = 2                    # the revision: 1 to 127
minor = 5                    # 0 to 255
serial = 16909060            # the serial number: 0 to 4294967295
name = "Demo"                # up to 32 characters, 0x20 to 0x7e
status = 0                   # the status word of Identity; default 0
state = 3                    # the device's state: 0 to 255; default 3, operational

address = [127, 0, 0, 1]     # what discovery reports; default [0, 0, 0, 0]
port = 44818                 # the same; default 44818
peers = 4                    # how many clients are served at once: 1 to 16; default 4
connections = 16             # how many class 3 connections are open at once: 1 to 64; default 16
first_handle = 1             # the first session handle; default 1
first_id = 1                 # the first connection ID; default 1
message_router = true        # class 2, the Message Router, lists the classes of the device; default false

[counter]                    # class 0x64, a counter that clients add to
value = 0                    # its value at the start; default 0
limit = 100                  # its greatest value; default 4294967295
enabled = true               # false: the device has no counter; default true

[identity]                   # class 0x01, whose numbers are at the top
reset = false                # true: clients can reset the device, which ends all sessions; default false

[ledger]                     # class 0x65, executes the commands of `--once` once
originators = 16             # how many clients it remembers: 1 to 64
life = 1                     # `enip serve` uses the time of its start instead; default 1

[access]                     # who may do what, by address; without it, everybody may do everything
read = ["127.0.0.0/8", "::1"] # who may connect: up to 64 addresses and prefixes; default everybody
write = ["127.0.0.1", "::1"] # who may also change something: the same; default whoever may connect
per_address = 4              # how many clients of one address are served at once: 1 to 16; default no limit
connections_per_address = 16 # how many of its connections are open at once: 1 to 64; default no limit

[tcp_ip]                     # class 0xf5, the TCP/IP Interface; it changes nothing on this computer
address = [10, 0, 0, 9]      # the address of the device
mask = [255, 255, 255, 0]    # its network mask
#       interface = "eth0"   # instead of both: those of this computer when the device starts
gateway = [10, 0, 0, 1]      # its default gateway; default [0, 0, 0, 0]
name_servers = [[10, 0, 0, 2]] # up to two addresses; default none
domain = "plant.example"     # up to 48 characters, 0x20 to 0x7e; default none
host = "mixer"               # up to 64 characters; default none
inactivity_timeout = 120     # in seconds, clients can set it: 0 to 3600; default 120

[ethernet_link]              # class 0xf6, the Ethernet Link; the same
speed = 100                  # in Mbit/s: 0 to 4294967295; default 100
flags = 15                   # default 15: an active link, full duplex, negotiated
physical_address = [2, 0, 0, 0, 0, 9] # the MAC address; default all zeros
state = 1                    # 0 to 255; default 1, enabled
#       interface = "eth0"   # instead of these four: those of this computer when the device starts
type = 2                     # 0 to 255; default 2, twisted pair
label = "Port 1"             # up to 64 characters; default none

[[assembly]]                 # class 4, one table for each assembly, up to 16
instance = 100               # 1 to 65535
settable = true              # whether clients can write the data; default false
members = [1, 2, 1]          # the sizes of its members in bytes: up to 64, 3900 bytes in all
lists = false                # true: clients can read all its attributes, or set several, at once; default false

[[object]]                   # an object of your own, up to 32
class = 768                  # 1 to 65535, not one of the adapter's own
instance = 1                 # 1 to 65535
name = "Conveyor"            # optional, for `enip check`
lists = false                # true: clients can set several of its attributes at once; default false

[[object.attribute]]         # up to 32 in an object
number = 1                   # 1 to 65535
type = "UINT"                # a type of `enip get --as`, UINT[4], SHORT_STRING[32] or BYTES[12]
value = 0                    # at the start; default all zeros
settable = true              # whether clients can set it; default false
checked = false              # true: the owner of the device decides on each set; default false
min = 0                      # the least number that a client can set; default that of the type
max = 3000                   # the greatest

[[object.attribute]]
number = 2
type = "SHORT_STRING[32]"
value = "ready"

# Services are executed by the owner of the device: a program with the adapter as a library, or, if they are queued,
# one that connects to `enip serve --owner`. Without an owner, `enip serve` refuses a configuration with services.
#
# [[object.service]]           # up to 16 in an object
# number = 50                  # 50 to 99
# size = 4                     # how many bytes of data it takes: 0 to 480
# reply = 4                    # the most bytes of data in its reply: 0 to 480; default 0
#
# [[object.service]]
# number = 51
# sizes = [0, 8]               # the least and the greatest number of bytes, instead of size
# queued = true                # answered at once by a ticket, and executed later; default false
#
# [commands]                   # the queue of the device, for services with queued = true
# queue = 16                   # how many commands can wait in it: 1 to 256; default 16
# ahead = 1                    # how many the owner gets before the first of them is done: 1 to 256; default 1
"#;
