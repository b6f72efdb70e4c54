//! `enip show`: reads frames, one per line, and prints their fields.
//!
//! A line is printed part by part, up to the first fault in it. A fault in a line does not end the program.

ghost use Rattle.std.specs.Prelude.{◌≡◌, IfErr, ⊤};
ghost use Rattle.enip_commands.specs.Statuses.{IsStopOfDevices};
ghost use Rattle.enip_faults.specs.Statuses.{IsOfDevices};

use crate::digits::print_digits;
use cip_bytes::protocol::{CONNECTION_MANAGER, Command, ManagerService};
use cip_message::{
    CloseRequest, LengthFault, OpenRequest, Path, PathFault, ReplyFault, ReplyView, RequestFault,
    RequestView, read_path,
};
use cip_route::{HopFault, HopView, UNCONNECTED_SEND, UnconnectedSend, read_hop};
use enip_faults::ProgramFault;
use enip_lines::{TakeLines, decode, read_lines};
use enip_wire::{CpfFault, FrameReader, FrameView, Header, Held, cpf_items, rr_body, unit_body};
use std::alloc::Global;
use std::io::{self, BufWriter, Read, Write};
use thiserror::Error;

/// How many bytes precede the items of a packet: interface and timeout. (Volume 2, SendRRData.)
const BEFORE_ITEMS: usize = 6;

/// The lowest first byte of a segment that is not a port segment. (Volume 1, segment types.)
const OTHER_SEGMENT: u8 = 0x20;

/// Prints the fields of frames, which the input has in hexadecimal, one per line.
///
/// For a line that is not exactly one frame it prints the fault, and goes on with the next line.
///
/// # Errors
///
/// `Device` if the input could not be read or the output written. `Memory` if memory was refused.
pub fn show_frames<R: Read + Drop, W: Write + Drop>(
    alloc: Global,
    input: R,
    output: W,
) -> Result<(), ProgramFault>
    ensures { IfErr result IsOfDevices }
{
    let mut input = input;
    let mut output = BufWriter::new(alloc, output)?;
    let mut printer = Printer {
        digits: Vec::new(alloc),
        bytes: Vec::new(alloc),
        reader: FrameReader::new(alloc)?,
    };
    read_lines(alloc, &mut input, &mut printer, &mut output)
}

/// Why the rest of a line is not printed. The text follows `fault `.
#[derive(Clone, Copy, Debug, PartialEq, Eq, Error)]
enum ShowFailure {
    /// The line is not hexadecimal.
    #[error("hex")]
    Hex,
    /// The line is not exactly one frame.
    #[error("header")]
    Header,
    /// The body does not have the items of its command.
    #[error("cpf {}", .0.number())]
    Cpf(CpfFault),
    /// The message is not a request.
    #[error("request {}", .0.number())]
    Request(RequestFault),
    /// The path of the request is invalid.
    #[error("path {}", .0.number())]
    Path(PathFault),
    /// The message is not a reply.
    #[error("reply {}", .0.number())]
    Reply(ReplyFault),
    /// The data of an Unconnected_Send are too short or too long.
    #[error("send {}", .0.number())]
    Send(LengthFault),
    /// A hop of a route is not a port segment.
    #[error("hop {}", .0.number())]
    Hop(HopFault),
    /// The program itself failed.
    #[error("{0}")]
    Program(ProgramFault),
}

impl From<ProgramFault> for ShowFailure {
    ghost use Rattle.enip_commands.specs.declared.showing.ShowFailure.TheVariants.{Program};

    ghost from_gives = { λ fault stop. stop ≡ Program fault };

    fn from(fault: ProgramFault) -> ShowFailure {
        ShowFailure::Program(fault)
    }
}

impl From<io::Error> for ShowFailure {
    ghost from_gives = { λ _ stop. IsStopOfDevices stop };

    fn from(error: io::Error) -> ShowFailure {
        ShowFailure::Program(ProgramFault::from(error))
    }
}

impl From<CpfFault> for ShowFailure {
    ghost from_gives = { λ _ stop. IsStopOfDevices stop };

    fn from(fault: CpfFault) -> ShowFailure {
        ShowFailure::Cpf(fault)
    }
}

impl From<RequestFault> for ShowFailure {
    ghost from_gives = { λ _ stop. IsStopOfDevices stop };

    fn from(fault: RequestFault) -> ShowFailure {
        ShowFailure::Request(fault)
    }
}

impl From<PathFault> for ShowFailure {
    ghost from_gives = { λ _ stop. IsStopOfDevices stop };

    fn from(fault: PathFault) -> ShowFailure {
        ShowFailure::Path(fault)
    }
}

impl From<ReplyFault> for ShowFailure {
    ghost from_gives = { λ _ stop. IsStopOfDevices stop };

    fn from(fault: ReplyFault) -> ShowFailure {
        ShowFailure::Reply(fault)
    }
}

impl From<LengthFault> for ShowFailure {
    ghost from_gives = { λ _ stop. IsStopOfDevices stop };

    fn from(fault: LengthFault) -> ShowFailure {
        ShowFailure::Send(fault)
    }
}

impl From<HopFault> for ShowFailure {
    ghost from_gives = { λ _ stop. IsStopOfDevices stop };

    fn from(fault: HopFault) -> ShowFailure {
        ShowFailure::Hop(fault)
    }
}

/// The buffers for one line.
#[derive(Drop)]
struct Printer {
    digits: Vec<u8>,
    bytes: Vec<u8>,
    reader: FrameReader,
}

impl Printer {
    /// Prints a line up to its first fault, which is the error.
    fn show_line<W: Write>(&mut self, text: &[u8], output: &mut W) -> Result<(), ShowFailure>
        ensures { IfErr result IsStopOfDevices }
    {
        if !decode(text, &mut self.digits, &mut self.bytes)? {
            return Err(ShowFailure::Hex);
        }
        self.reader.clear();
        let taken = self.reader.push(self.bytes.as_slice());
        match self.reader.state() {
            Held::Frame(frame) if taken == self.bytes.len() => show_frame(output, frame),
            _ => Err(ShowFailure::Header),
        }
    }

    /// Prints a line up to its first fault, and the fault.
    fn print_line<W: Write>(&mut self, text: &[u8], output: &mut W) -> Result<(), ProgramFault>
        ensures { IfErr result IsOfDevices }
    {
        match self.show_line(text, output) {
            Ok(()) => Ok(()),
            Err(ShowFailure::Program(fault)) => Err(fault),
            Err(stop) => {
                writeln!(output, "fault {stop}")?;
                Ok(())
            }
        }
    }
}

impl TakeLines for Printer {
    ghost does = { λ _ _ _ _ _. ⊤ };

    ghost refuses = { λ _. ⊥ };

    fn take_line<W: Write>(
        &mut self,
        text: &[u8],
        _number: u64,
        output: &mut W,
    ) -> Result<(), ProgramFault> {
        self.print_line(text, output)
    }
}

/// Prints a frame: its header, and the router message that it carries, if any.
fn show_frame<W: Write>(output: &mut W, frame: FrameView<'_>) -> Result<(), ShowFailure>
    ensures { IfErr result IsStopOfDevices }
{
    print_header(output, &frame.header)?;
    match Command::of(frame.header.command) {
        Some(Command::SendRRData) => {
            let message = rr_body(frame.body)?;
            print_items(output, frame.body)?;
            show_message(output, message)
        }
        Some(Command::SendUnitData) => {
            let (_connection, item) = unit_body(frame.body)?;
            print_items(output, frame.body)?;
            show_counted(output, item)
        }
        _ => Ok(()),
    }
}

/// Prints the fields of a header.
fn print_header<W: Write>(output: &mut W, header: &Header) -> io::Result<()> {
    write!(
        output,
        "frame 0x{:04x} length {} session {} status 0x{:08x} context ",
        header.command, header.length, header.session, header.status
    )?;
    print_digits(output, &header.context)?;
    writeln!(output, " options {}", header.options)
}

/// Prints the type and the length of each item of a body, whose items were checked before.
fn print_items<W: Write>(output: &mut W, body: &[u8]) -> Result<(), ShowFailure>
    ensures { IfErr result IsStopOfDevices }
{
    let Some(items) = body.get(BEFORE_ITEMS..) else {
        return Ok(());
    };
    for item in cpf_items(items)? {
        writeln!(
            output,
            "item 0x{:04x} length {}",
            item.kind,
            item.bytes.len()
        )?;
    }
    Ok(())
}

/// Prints the data of a connected item: the sequence count, and the message after it. (Volume 1, transport
/// class 3.)
fn show_counted<W: Write>(output: &mut W, item: &[u8]) -> Result<(), ShowFailure>
    ensures { IfErr result IsStopOfDevices }
{
    let [low, high, message @ ..] = item else {
        return Err(ShowFailure::from(RequestFault::Short));
    };
    writeln!(output, "count {}", u16::from_le_bytes([*low, *high]))?;
    show_message(output, message)
}

/// Prints a router message: a reply if bit 7 of its first byte is set, otherwise a request.
fn show_message<W: Write>(output: &mut W, message: &[u8]) -> Result<(), ShowFailure>
    ensures { IfErr result IsStopOfDevices }
{
    match message {
        [service, ..] if *service >= 0x80 => show_reply(output, message),
        _ => show_request(output, message),
    }
}

/// Prints a request, and the route in it if it is one of the Connection Manager.
fn show_request<W: Write>(output: &mut W, message: &[u8]) -> Result<(), ShowFailure>
    ensures { IfErr result IsStopOfDevices }
{
    let request = RequestView::read(message)?;
    let path = read_path(request.path)?;
    print_request(output, &request, &path)?;
    if path.class == CONNECTION_MANAGER && path.instance == 1 {
        return show_managed(output, request.service, request.data);
    }
    Ok(())
}

/// Prints the route in the data of a request of the Connection Manager, if it has one.
fn show_managed<W: Write>(output: &mut W, service: u8, bytes: &[u8]) -> Result<(), ShowFailure>
    ensures { IfErr result IsStopOfDevices }
{
    if service == UNCONNECTED_SEND {
        return show_send(output, bytes);
    }
    match connection_path(service, bytes) {
        Some(path) => show_hops(output, route_in(path)),
        None => Ok(()),
    }
}

/// The path in the data of a request that opens or closes a connection.
fn connection_path(service: u8, bytes: &[u8]) -> Option<&[u8]> {
    match ManagerService::of(service)? {
        ManagerService::ForwardOpen => match OpenRequest::read(bytes) {
            Ok(open) => Some(open.path),
            Err(_) => None,
        },
        ManagerService::LargeForwardOpen => match OpenRequest::read_large(bytes) {
            Ok(open) => Some(open.path),
            Err(_) => None,
        },
        ManagerService::ForwardClose => match CloseRequest::read(bytes) {
            Ok(close) => Some(close.path),
            Err(_) => None,
        },
    }
}

/// The port segments at the front of a path. Bytes that begin one and do not end it are included.
fn route_in(path: &[u8]) -> &[u8] {
    let mut rest = path;
    while let [first, ..] = rest {
        if *first >= OTHER_SEGMENT {
            break;
        }
        match read_hop(rest) {
            Ok((_hop, after)) => rest = after,
            Err(_) => return path,
        }
    }
    &path[..path.len() - rest.len()]
}

/// Prints an Unconnected_Send: how long routers try, the request in it, and the hops of its route.
fn show_send<W: Write>(output: &mut W, bytes: &[u8]) -> Result<(), ShowFailure>
    ensures { IfErr result IsStopOfDevices }
{
    let send = UnconnectedSend::read(bytes)?;
    writeln!(
        output,
        "send tick 0x{:02x} ticks {} message {} route {}",
        send.priority_and_tick_time,
        send.timeout_ticks,
        send.message.len(),
        send.route.len()
    )?;
    let request = RequestView::read(send.message)?;
    let path = read_path(request.path)?;
    print_request(output, &request, &path)?;
    show_hops(output, send.route)
}

/// Prints the hops of a route, one per line.
fn show_hops<W: Write>(output: &mut W, route: &[u8]) -> Result<(), ShowFailure>
    ensures { IfErr result IsStopOfDevices }
{
    let mut rest = route;
    while !rest.is_empty() {
        match read_hop(rest) {
            Ok((hop, after)) => {
                print_hop(output, hop)?;
                rest = after;
            }
            Err(fault) => return Err(ShowFailure::Hop(fault)),
        }
    }
    Ok(())
}

/// Prints a hop as `--route` takes it: a link of one byte as a number, a longer one as text. A link that is no text is
/// hexadecimal.
fn print_hop<W: Write>(output: &mut W, hop: HopView<'_>) -> io::Result<()> {
    write!(output, "hop {}/", hop.port)?;
    match hop.link {
        [number] => write!(output, "{number}")?,
        text if text.iter().all(|byte| byte.is_ascii_graphic()) => output.write_all(text)?,
        bytes => {
            output.write_all(b"0x")?;
            print_digits(output, bytes)?;
        }
    }
    output.write_all(b"\n")
}

/// Prints a request and its path.
fn print_request<W: Write>(
    output: &mut W,
    request: &RequestView<'_>,
    path: &Path,
) -> io::Result<()> {
    write!(
        output,
        "request 0x{:02x} class {} instance {} attribute ",
        request.service, path.class, path.instance
    )?;
    print_number(output, path.attribute)?;
    output.write_all(b" member ")?;
    print_number(output, path.member)?;
    output.write_all(b" data ")?;
    print_bytes(output, request.data)?;
    output.write_all(b"\n")
}

/// Prints a reply. Each additional status word has four digits.
fn show_reply<W: Write>(output: &mut W, message: &[u8]) -> Result<(), ShowFailure>
    ensures { IfErr result IsStopOfDevices }
{
    let reply = ReplyView::read(message)?;
    write!(
        output,
        "reply 0x{:02x} status 0x{:02x} extended ",
        reply.service, reply.status
    )?;
    print_words(output, &reply)?;
    output.write_all(b" data ")?;
    print_bytes(output, reply.data)?;
    output.write_all(b"\n")?;
    Ok(())
}

/// Prints a number, or `-` if there is none.
fn print_number<W: Write>(output: &mut W, number: Option<u16>) -> io::Result<()> {
    match number {
        Some(number) => write!(output, "{number}"),
        None => output.write_all(b"-"),
    }
}

/// Prints bytes in hexadecimal, or `-` if there are none.
fn print_bytes<W: Write>(output: &mut W, bytes: &[u8]) -> io::Result<()> {
    if bytes.is_empty() {
        output.write_all(b"-")
    } else {
        print_digits(output, bytes)
    }
}

/// Prints the additional status words of a reply, joined, or `-` if there are none.
fn print_words<W: Write>(output: &mut W, reply: &ReplyView<'_>) -> io::Result<()> {
    if reply.additional.is_empty() {
        return output.write_all(b"-");
    }
    // a reply has at most 255 words
    for place in 0..255 {
        let Some(word) = reply.additional_word(place) else {
            break;
        };
        write!(output, "{word:04x}")?;
    }
    Ok(())
}
