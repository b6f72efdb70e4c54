//! The longer texts of the help of `enip answer`, `show` and `replay`.
//!
//! `EXAMPLES_..` end the help of `-h`. `DETAILS_..` end that of `--help` and have the same examples.

pub(crate) const EXAMPLES_ANSWER: &str = "\
Examples:
  enip answer demo.toml < lines
  enip answer demo.toml < lines | cut -c3- | enip show";

pub(crate) const DETAILS_ANSWER: &str = "\
Reads lines from standard input. Empty lines and lines that start with # are
skipped.

  P HEX    bytes from peer P, 1 to 9, which connects with its first line
  end P    peer P disconnects
  now N    the time of the following lines, in microseconds

HEX may have spaces. Output:

  P hex       an answer to peer P
  P closed    the adapter closed the connection of peer P; its later bytes are
              ignored
  P full N    peer P cannot connect: all peer slots are taken (1), or no session
              handle is left (2)

Examples:
  enip answer demo.toml < lines
  enip answer demo.toml < lines | cut -c3- | enip show
      prints the fields of the answers

For exit statuses, see `enip --help`.";

pub(crate) const EXAMPLES_SHOW: &str = "\
Examples:
  enip show < frames
  enip answer demo.toml < lines | cut -c3- | enip show";

pub(crate) const DETAILS_SHOW: &str = "\
Reads lines from standard input, each a frame in hexadecimal, which may have
spaces. Prints the header of each frame, its items, and the request or the reply
in it, up to the first fault:

  frame 0xCCCC length N session N status 0xSSSSSSSS context HEX options N
  item 0xTTTT length N
  count N
  request 0xSS class N instance N attribute N member N data HEX
  reply 0xSS status 0xGG extended HEX data HEX

Examples:
  enip show < frames
  enip answer demo.toml < lines | cut -c3- | enip show
      prints the fields of the answers of `enip answer`

For exit statuses, see `enip --help`.";

pub(crate) const EXAMPLES_REPLAY: &str = "\
Examples:
  enip replay demo.toml script
  enip replay demo.toml script --ladder";

pub(crate) const DETAILS_REPLAY: &str = "\
The client has registered and opened a connection; a second session is
registered too. The frames that are sent in each direction are numbered from 0.
The lines of SCRIPT say what happens to them. Empty lines and lines that start
with # are skipped.

  line          output
  submit HEX    submit N sent K      request N, from 0, is sent as frame K
                submit refused R     a request is pending (1), it is too long
                                     (2), it is not a request (3), 65,535 were
                                     submitted since the last accepted reply (5)
  resend        resend K             the pending request is sent again, as frame
                                     K
                resend none          no request is pending
  reach K       reach K back J       the adapter receives frame K and answers
                                     with frame J
                reach K none         the adapter receives it and does not answer
                reach K impossible   frame K was not sent, or a later one was
                                     delivered
  back J        back J accepted HEX  the client receives frame J and accepts
                                     this reply
                back J ignored       the client is not waiting for it
                back J impossible    as for `reach`
  other HEX     other done           the second session has this request
                                     executed, unconnected
                other impossible     it has less than 2 or more than 504 bytes
  owner STATUS HEX
                owner STATUS         the owner of the device prepares this reply
                                     to the next request to it
  shut          shut                 the connection times out
  giveup        giveup               the client gives up the pending request and
                                     can submit another

K and J are decimal. HEX may have spaces. At the end, the state is printed:

  counter VALUE LIMIT ADDITIONS
  assembly N HEX                     for each assembly, in ascending order
  client idle                        or `client waiting`, `client given up`

Examples:
  enip replay demo.toml script
      with these lines in the file `script`, the request to add 5 to the counter
      reaches the adapter twice, and its reply reaches the client twice

        submit 32022064240105000000
        reach 0
        reach 0
        back 0
        back 1

      The counter moves once, and one reply is accepted:

        submit 0 sent 0
        reach 0 back 0
        reach 0 back 1
        back 0 accepted b200000005000000
        back 1 ignored
        counter 5 100 1
        assembly 100 00000000
        client idle
  enip replay demo.toml script --ladder
      draws the same run

For exit statuses, see `enip --help`.";
