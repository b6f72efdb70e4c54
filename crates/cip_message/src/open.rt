//! The data of a Forward_Open request, which opens a connection (Volume 1, Connection Manager).
//! Text: docs/PROTOCOL.md, "Router messages".

ghost use Rattle.std.specs.Prelude.{◌≡◌, ◌↔◌, ◌+◌, ◌*◌, ◌%◌, ◌<◌, ◌≤◌, ◌++◌, length, IsOk, OnOk, OnErr};
ghost use Rattle.arrayvec.specs.ArrayVec.{array_vec_len};
ghost use Rattle.cip_bytes.specs.Reading.{Gives};
ghost use Rattle.cip_message.specs.Open.{Open, FrontFits, IsOpen, SpellsOpen, front, «open», view};
ghost use Rattle.cip_message.specs.Open.{expected_length, open_of, is_server_of};
ghost use Rattle.cip_message.specs.Open.{class_of_transport, length_fault_number};
ghost use Rattle.cip_message.specs.Open.{IsLargeOpen, SpellsLarge, large_open, large_view, large_expected_length};
ghost use Rattle.cip_message.specs.Open.{large_open_of, width, before_path, IsOpenIn, BackFitsIn, back_in, open_with_in};
ghost use Rattle.cip_message.specs.Open.{open_of_in, open_fields_in, view_by};

use crate::parameters::{DirectionParameters, LargeParameters, Parameters, append_parameters};
use arrayvec::ArrayVec;
use byteorder::{ByteOrder, LittleEndian};
use cip_bytes::{Full, append, append_u8, append_u16, append_u32};
use thiserror::Error;

/// The transport of a connection: which end is the server, what triggers production, and the class.
#[derive(Clone, Copy, Debug, PartialEq, Eq)]
pub struct Transport {
    /// Bit 7 is the server bit, bits 6 to 4 the trigger, bits 3 to 0 the class.
    pub bits: u8,
}

impl Transport {
    /// Whether the target is the server.
    pub fn is_server(self) -> bool
        ensures { result ≡ is_server_of self.bits }
    {
        self.bits >= 0x80
    }

    /// The transport class.
    pub fn class(self) -> u8
        ensures { result ≡ class_of_transport self.bits }
    {
        self.bits & 0x0f
    }
}

/// The data of a Forward_Open, or with `LargeParameters` of a Large_Forward_Open.
#[derive(Clone, Copy, Debug)]
pub struct OpenRequest<'a, P = Parameters> {
    /// Priority and tick time.
    pub priority_and_tick_time: u8,
    /// Timeout ticks.
    pub timeout_ticks: u8,
    /// The O->T connection ID. The target chooses it.
    pub o_to_t_id: u32,
    /// The T->O connection ID.
    pub t_to_o_id: u32,
    /// The originator's number for the connection.
    pub connection_serial: u16,
    /// The originator's vendor ID.
    pub originator_vendor: u16,
    /// The originator's serial number.
    pub originator_serial: u32,
    /// The timeout multiplier: the timeout is O->T RPI x 4 x 2^multiplier.
    pub timeout_multiplier: u8,
    /// The requested packet interval (RPI) from originator to target, in microseconds.
    pub o_to_t_rpi: u32,
    /// The connection parameters from originator to target.
    pub o_to_t_parameters: P,
    /// The requested packet interval (RPI) from target to originator, in microseconds.
    pub t_to_o_rpi: u32,
    /// The connection parameters from target to originator.
    pub t_to_o_parameters: P,
    /// The transport class and trigger.
    pub transport: Transport,
    /// The bytes of the path: an even number, as a path is whole 16-bit words.
    pub path: &'a [u8],
}

/// Why data are not an open or a close request.
#[derive(Clone, Copy, Debug, PartialEq, Eq, Error)]
pub enum LengthFault {
    /// The data end before their fields or their path do.
    #[error("data too short")]
    Short = 1,
    /// Bytes follow the path.
    #[error("data too long")]
    Long = 2,
}

impl LengthFault {
    /// The fault's number, as printed.
    pub fn number(self) -> u8
        ensures { result ≡ length_fault_number self }
    {
        self as u8
    }
}

impl<'a> OpenRequest<'a> {
    /// Reads all of the bytes as an open request. The reserved bytes may have any value. The path is lent from the
    /// bytes.
    pub fn read(bytes: &'a [u8]) -> Result<OpenRequest<'a>, LengthFault>
        // A request is read if and only if the bytes spell it.
        ensures open_request { (o : Open) → Gives view result (Ok o) ↔ SpellsOpen o bytes.now }
        ensures short { Gives view result (Err LengthFault.Short) ↔ (length bytes.now < expected_length bytes.now) }
        ensures long { Gives view result (Err LengthFault.Long) ↔ (expected_length bytes.now < length bytes.now) }
        ensures exact { Gives view result (open_of bytes.now) }
    {
        open_at(bytes)
    }

    /// Appends the request, with 0 in the reserved bytes. The path must be whole words, at most 255 of them.
    ///
    /// # Errors
    ///
    /// `Full` if the request does not fit. Then nothing is written.
    pub fn write<const N: usize>(&self, out: &mut ArrayVec<u8, N>) -> Result<(), Full>
        requires whole_words { length self.now.path.now % 2 ≡ 0 }
        requires counted { length self.now.path.now ≤ 510 }
        ensures fits { IsOk result ↔ (array_vec_len out.old + length («open» (view self.now)) ≤ N) }
        ensures ok { OnOk result (out.new.items ≡ out.old.items ++ «open» (view self.now)) }
        ensures spelled { OnOk result (IsOpen (view self.now)) }
        ensures err { OnErr result (out.new ≡ out.old) }
    {
        self.append_to(out)
    }
}

impl<'a> OpenRequest<'a, LargeParameters> {
    /// Reads all of the bytes as a large open request. The reserved bytes may have any value. The path is lent from
    /// the bytes.
    pub fn read_large(bytes: &'a [u8]) -> Result<OpenRequest<'a, LargeParameters>, LengthFault>
        // A request is read if and only if the bytes spell it.
        ensures open_request { (o : Open) → Gives large_view result (Ok o) ↔ SpellsLarge o bytes.now }
        ensures short { Gives large_view result (Err LengthFault.Short) ↔ (length bytes.now < large_expected_length bytes.now) }
        ensures long { Gives large_view result (Err LengthFault.Long) ↔ (large_expected_length bytes.now < length bytes.now) }
        ensures exact { Gives large_view result (large_open_of bytes.now) }
    {
        open_at(bytes)
    }

    /// Appends the request, with 0 in the reserved bytes. The path must be whole words, at most 255 of them.
    ///
    /// # Errors
    ///
    /// `Full` if the request does not fit. Then nothing is written.
    pub fn write_large<const N: usize>(&self, out: &mut ArrayVec<u8, N>) -> Result<(), Full>
        requires whole_words { length self.now.path.now % 2 ≡ 0 }
        requires counted { length self.now.path.now ≤ 510 }
        ensures fits { IsOk result ↔ (array_vec_len out.old + length (large_open (large_view self.now)) ≤ N) }
        ensures ok { OnOk result (out.new.items ≡ out.old.items ++ large_open (large_view self.now)) }
        ensures spelled { OnOk result (IsLargeOpen (large_view self.now)) }
        ensures err { OnErr result (out.new ≡ out.old) }
    {
        self.append_to(out)
    }
}

impl<P: DirectionParameters> OpenRequest<'_, P> {
    /// Appends the request, in the layout of its parameters.
    fn append_to<const N: usize>(&self, out: &mut ArrayVec<u8, N>) -> Result<(), Full>
        requires whole_words { length self.now.path.now % 2 ≡ 0 }
        requires counted { length self.now.path.now ≤ 510 }
        ensures fits { IsOk result
            ↔ (array_vec_len out.old + before_path P.layout + length self.now.path.now ≤ N) }
        ensures ok { OnOk result (out.new.items ≡ out.old.items ++ open_with_in P.layout 0 (view_by P.bits self.now)) }
        ensures spelled { OnOk result (IsOpenIn P.layout (view_by P.bits self.now)) }
        ensures err { OnErr result (out.new ≡ out.old) }
    {
        if out.remaining_capacity() < size_before_path::<P>() + self.path.len() {
            return Err(Full);
        }
        self.append_front(out);
        self.append_back(out);
        append(out, self.path);
        Ok(())
    }

    /// Appends the fields up to the originator serial.
    fn append_front<const N: usize>(&self, out: &mut ArrayVec<u8, N>)
        requires { array_vec_len out.old + 18 ≤ N }
        ensures text { out.new.items ≡ out.old.items ++ front (view_by P.bits self.now) }
        ensures len { array_vec_len out.new ≡ array_vec_len out.old + 18 }
        ensures fits { FrontFits (view_by P.bits self.now) }
    {
        append_u8(out, self.priority_and_tick_time);
        append_u8(out, self.timeout_ticks);
        append_u32(out, self.o_to_t_id);
        append_u32(out, self.t_to_o_id);
        append_u16(out, self.connection_serial);
        append_u16(out, self.originator_vendor);
        append_u32(out, self.originator_serial);
    }

    /// Appends the fields from the timeout multiplier up to the path.
    fn append_back<const N: usize>(&self, out: &mut ArrayVec<u8, N>)
        requires capacity { array_vec_len out.old + 14 + 2 * width P.layout ≤ N }
        requires counted { length self.now.path.now ≤ 510 }
        ensures text { out.new.items ≡ out.old.items ++ back_in P.layout 0 (view_by P.bits self.now) }
        ensures len { array_vec_len out.new ≡ array_vec_len out.old + 14 + 2 * width P.layout }
        ensures fits { BackFitsIn P.layout (view_by P.bits self.now) }
    {
        append_u8(out, self.timeout_multiplier);
        append(out, &[0, 0, 0]);
        append_u32(out, self.o_to_t_rpi);
        append_parameters(out, self.o_to_t_parameters);
        append_u32(out, self.t_to_o_rpi);
        append_parameters(out, self.t_to_o_parameters);
        append_u8(out, self.transport.bits);
        append_u8(out, (self.path.len() / 2) as u8);
    }
}

/// How many bytes come before the path.
fn size_before_path<P: DirectionParameters>() -> usize
    ensures exact { result ≡ before_path P.layout }
    ensures narrow { result ≤ 40 }
{
    32 + 2 * P::width()
}

/// Reads all of the bytes as an open request: the computation.
fn open_at<P: DirectionParameters>(bytes: &[u8]) -> Result<OpenRequest<'_, P>, LengthFault>
    ensures { Gives (view_by P.bits) result (open_of_in P.layout bytes.now) }
{
    let before_path = size_before_path::<P>();
    if bytes.len() < before_path {
        return Err(LengthFault::Short);
    }
    // The byte before the path is the path size in words.
    let expected = before_path + 2 * usize::from(bytes[before_path - 1]);
    if bytes.len() < expected {
        return Err(LengthFault::Short);
    }
    if expected < bytes.len() {
        return Err(LengthFault::Long);
    }
    Ok(fields_at(bytes))
}

/// Reads each field at its offset.
fn fields_at<P: DirectionParameters>(bytes: &[u8]) -> OpenRequest<'_, P>
    requires { before_path P.layout ≤ length bytes.now }
    ensures { view_by P.bits result ≡ open_fields_in P.layout bytes.now }
{
    let width = P::width();
    OpenRequest {
        priority_and_tick_time: bytes[0],
        timeout_ticks: bytes[1],
        o_to_t_id: LittleEndian::read_u32(&bytes[2..]),
        t_to_o_id: LittleEndian::read_u32(&bytes[6..]),
        connection_serial: LittleEndian::read_u16(&bytes[10..]),
        originator_vendor: LittleEndian::read_u16(&bytes[12..]),
        originator_serial: LittleEndian::read_u32(&bytes[14..]),
        timeout_multiplier: bytes[18],
        o_to_t_rpi: LittleEndian::read_u32(&bytes[22..]),
        o_to_t_parameters: P::read_front(&bytes[26..]),
        t_to_o_rpi: LittleEndian::read_u32(&bytes[26 + width..]),
        t_to_o_parameters: P::read_front(&bytes[30 + width..]),
        transport: Transport {
            bits: bytes[30 + 2 * width],
        },
        path: &bytes[size_before_path::<P>()..],
    }
}
