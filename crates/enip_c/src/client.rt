//! The functions of a client.

ghost use Rattle.std.specs.Prelude.{◌≡◌, ◌≤◌, ◌<◌, length, Some, None, IfOk, IfErr, IfSome};
ghost use Rattle.std.specs.Option.{option_map};
ghost use Rattle.enip_client.specs.Calls.{bytes_in};
ghost use Rattle.enip_client.specs.Client.{new_client, fed, heard_event_in};
ghost use Rattle.enip_c.specs.ClientCalls.{fault_status, refused_status, submit_status, returned_frame, returned_resend, wants_of};
ghost use Rattle.enip_c.specs.ClientCalls.{register_outcome, open_outcome, ask_outcome, submit_outcome, close_outcome};
ghost use Rattle.enip_c.specs.ClientCalls.{unregister_outcome, resend_outcome, IsDone, IsDoneKept, IsTooSmall};
ghost use Rattle.enip_c.specs.ClientCalls.{general_in, extended_in, returned_event, returned_reply, IsHeardBy, IsHeardKept};
ghost use Rattle.enip_c.specs.ClientCalls.{IsGivenUp, IsGivenUpKept, are_sizes_allowed, IsClientStatus};
ghost use Rattle.enip_c.specs.Kept.{IsLive};
ghost use Rattle.enip_c.specs.Buffer.{status_number};

use crate::buffer::copy_front;
use crate::kept_client::KeptClient;
use crate::status::Status;
use cip_bytes::protocol::LARGEST_CONNECTION_SIZE;
use cip_class3::Refused;
use enip_client::{Client, ClientFault, LONGEST_SENT, SubmitFault, Wants};
use std::alloc::Global;

/// The smallest connection size from originator to target, in bytes.
const SMALLEST_OUT: u16 = 4;

/// The smallest connection size from target to originator, in bytes.
const SMALLEST_BACK: u16 = 10;

/// The longest frame, in bytes. No reply is longer. (Volume 2, encapsulation header.)
const LONGEST_FRAME: usize = 65_535;

/// The connection that a client opens: `enip_wants` of `enip.h`.
#[repr(C)]
#[derive(Clone, Copy, Debug)]
pub struct ConnectionWants {
    /// The originator's serial number.
    pub originator_serial: u32,
    /// The connection ID from target to originator.
    pub t_to_o_id: u32,
    /// The requested packet interval of both directions, in microseconds.
    pub rpi: u32,
    /// The originator's vendor ID.
    pub originator_vendor: u16,
    /// The originator's number for the connection.
    pub connection_serial: u16,
    /// The size of an item from originator to target in bytes, including its count: 4 to 4,002.
    pub o_to_t_size: u16,
    /// The size of an item from target to originator in bytes, including its count: 10 to 4,002.
    pub t_to_o_size: u16,
    /// The sequence count of the first request.
    pub first_count: u16,
    /// The timeout multiplier: the timeout is RPI x 4 x 2^multiplier.
    pub timeout_multiplier: u8,
}

/// What a piece that came back contained: `enip_heard` of `enip.h`.
#[repr(C)]
#[derive(Clone, Copy, Debug)]
pub struct Heard {
    /// The number of bytes taken from the front of the piece.
    pub taken: usize,
    /// The number of bytes of the reply in the buffer.
    pub reply: usize,
    /// What was heard: 0 nothing, 1 the session is registered, 2 the connection is open, 3 the reply to an unconnected
    /// request, 4 the reply to the pending request on the connection, 5 an open or a close is refused, 6 the connection
    /// is closed.
    pub kind: u32,
    /// The general status of the reply or of the refusal, otherwise 0.
    pub general: u32,
    /// The first word of additional status, or 0.
    pub extended: u32,
}

/// Makes a client. Allocates all the memory that it will ever need.
#[unsafe(no_mangle)]
pub extern "C" fn enip_core_client_new(
    alloc: Global,
    kept: &mut KeptClient,
    wants: &ConnectionWants,
) -> u32
    ensures status { IsClientStatus (are_sizes_allowed wants.now) result }
    ensures made { result ≡ status_number Status.Done → kept.new.value ≡ Some (new_client (wants_of wants.now)) }
    ensures unchanged { (result ≡ status_number Status.Done → ⊥) → kept.new.value ≡ kept.old.value }
{
    if !are_sizes_allowed(wants) {
        return Status::Wants.number();
    }
    let Ok(client) = Client::new(alloc, &wants_of(wants)) else {
        return Status::Memory.number();
    };
    let Ok(boxed) = Box::new(alloc, client) else {
        return Status::Memory.number();
    };
    *kept = KeptClient::of(boxed);
    Status::Done.number()
}

/// Whether the sizes of the connection are in their ranges.
fn are_sizes_allowed(wants: &ConnectionWants) -> bool
    ensures { result ≡ are_sizes_allowed wants.now }
{
    SMALLEST_OUT <= wants.o_to_t_size
        && usize::from(wants.o_to_t_size) <= LARGEST_CONNECTION_SIZE
        && SMALLEST_BACK <= wants.t_to_o_size
        && usize::from(wants.t_to_o_size) <= LARGEST_CONNECTION_SIZE
}

fn wants_of(wants: &ConnectionWants) -> Wants
    ensures { result ≡ wants_of wants.now }
{
    Wants {
        originator_vendor: wants.originator_vendor,
        originator_serial: wants.originator_serial,
        connection_serial: wants.connection_serial,
        t_to_o_id: wants.t_to_o_id,
        rpi: wants.rpi,
        timeout_multiplier: wants.timeout_multiplier,
        o_to_t_size: wants.o_to_t_size,
        t_to_o_size: wants.t_to_o_size,
        first_count: wants.first_count,
    }
}

/// Frees a client.
#[unsafe(no_mangle)]
pub extern "C" fn enip_core_client_free(alloc: Global, kept: &mut KeptClient)
    requires { IsLive kept.old.value }
    ensures { kept.new.value ≡ None }
{
    drop(kept.take(alloc));
}

fn status_of(fault: ClientFault) -> Status
    ensures { result ≡ fault_status fault }
{
    match fault {
        ClientFault::State => Status::State,
        ClientFault::Status(_) => Status::Failed,
        ClientFault::Refused(..) => Status::Refused,
        ClientFault::TooLong => Status::TooLong,
        ClientFault::Memory => Status::Memory,
        ClientFault::Malformed => Status::Malformed,
        ClientFault::Request => Status::Request,
    }
}

fn status_refused(why: Refused) -> Status
    ensures { result ≡ refused_status why }
{
    match why {
        Refused::Busy => Status::Waiting,
        Refused::TooLong => Status::LongRequest,
        Refused::NoRequest => Status::Request,
        Refused::GivenUp => Status::GivenUp,
        Refused::TooManyAbandoned => Status::Abandoned,
    }
}

fn status_not_submitted(fault: SubmitFault) -> Status
    ensures { result ≡ submit_status fault }
{
    match fault {
        SubmitFault::Client(fault) => status_of(fault),
        SubmitFault::Refused(why) => status_refused(why),
    }
}

/// Copies a frame to the buffer, or returns why there is none.
fn return_frame(lent: Result<&[u8], ClientFault>, buffer: &mut [u8], count: &mut usize) -> u32
    requires { IfOk lent (λ frame. length frame.now ≤ length buffer.old) }
    ensures { record { status = result; count = count.new; buffer = buffer.new }
        ≡ returned_frame fault_status (bytes_in lent.entry) count.old buffer.old }
{
    match lent {
        Ok(frame) => {
            *count = copy_front(frame, buffer);
            Status::Done.number()
        }
        Err(fault) => status_of(fault).number(),
    }
}

/// Copies the frame of a submitted request to the buffer, or returns why there is none.
fn return_submitted(lent: Result<&[u8], SubmitFault>, buffer: &mut [u8], count: &mut usize) -> u32
    requires { IfOk lent (λ frame. length frame.now ≤ length buffer.old) }
    ensures { record { status = result; count = count.new; buffer = buffer.new }
        ≡ returned_frame submit_status (bytes_in lent.entry) count.old buffer.old }
{
    match lent {
        Ok(frame) => {
            *count = copy_front(frame, buffer);
            Status::Done.number()
        }
        Err(fault) => status_not_submitted(fault).number(),
    }
}

/// Copies the frame of the pending request to the buffer, or returns that none is pending.
fn return_resend(lent: Option<&[u8]>, buffer: &mut [u8], count: &mut usize) -> u32
    requires { IfSome lent (λ frame. length frame.now ≤ length buffer.old) }
    ensures { record { status = result; count = count.new; buffer = buffer.new }
        ≡ returned_resend (option_map (λ frame. frame.now) lent.entry) count.old buffer.old }
{
    match lent {
        Some(frame) => {
            *count = copy_front(frame, buffer);
            Status::Done.number()
        }
        None => Status::Absent.number(),
    }
}

/// Writes the RegisterSession to send.
#[unsafe(no_mangle)]
pub extern "C" fn enip_core_client_register(
    alloc: Global,
    kept: &mut KeptClient,
    buffer: &mut [u8],
    count: &mut usize,
) -> u32
    requires { IsLive kept.old.value }
    ensures small { length buffer.old < LONGEST_SENT
        → IsTooSmall kept.old.value kept.new.value result count.old count.new buffer.old buffer.new }
    ensures done { LONGEST_SENT ≤ length buffer.old
        → IsDoneKept register_outcome kept.old.value kept.new.value result count.old count.new buffer.old buffer.new }
{
    if buffer.len() < LONGEST_SENT {
        return Status::Room.number();
    }
    let mut client = kept.take(alloc);
    let status = register(&mut client, buffer, count);
    *kept = KeptClient::of(client);
    status
}

fn register(client: &mut Client, buffer: &mut [u8], count: &mut usize) -> u32
    requires { LONGEST_SENT ≤ length buffer.old }
    ensures { IsDone (register_outcome client.old count.old buffer.old) client.new result count.new buffer.new }
{
    return_frame(client.register(), buffer, count)
}

/// Writes the Forward_Open to send.
#[unsafe(no_mangle)]
pub extern "C" fn enip_core_client_open(
    alloc: Global,
    kept: &mut KeptClient,
    buffer: &mut [u8],
    count: &mut usize,
) -> u32
    requires { IsLive kept.old.value }
    ensures small { length buffer.old < LONGEST_SENT
        → IsTooSmall kept.old.value kept.new.value result count.old count.new buffer.old buffer.new }
    ensures done { LONGEST_SENT ≤ length buffer.old
        → IsDoneKept open_outcome kept.old.value kept.new.value result count.old count.new buffer.old buffer.new }
{
    if buffer.len() < LONGEST_SENT {
        return Status::Room.number();
    }
    let mut client = kept.take(alloc);
    let status = open_connection(&mut client, buffer, count);
    *kept = KeptClient::of(client);
    status
}

fn open_connection(client: &mut Client, buffer: &mut [u8], count: &mut usize) -> u32
    requires { LONGEST_SENT ≤ length buffer.old }
    ensures { IsDone (open_outcome client.old count.old buffer.old) client.new result count.new buffer.new }
{
    return_frame(client.open(), buffer, count)
}

/// Writes the frame of an unconnected request.
#[unsafe(no_mangle)]
pub extern "C" fn enip_core_client_ask(
    alloc: Global,
    kept: &mut KeptClient,
    request: &[u8],
    buffer: &mut [u8],
    count: &mut usize,
) -> u32
    requires { IsLive kept.old.value }
    ensures small { length buffer.old < LONGEST_SENT
        → IsTooSmall kept.old.value kept.new.value result count.old count.new buffer.old buffer.new }
    ensures done { LONGEST_SENT ≤ length buffer.old
        → IsDoneKept (ask_outcome request.now) kept.old.value kept.new.value result count.old count.new buffer.old buffer.new }
{
    if buffer.len() < LONGEST_SENT {
        return Status::Room.number();
    }
    let mut client = kept.take(alloc);
    let status = ask(&mut client, request, buffer, count);
    *kept = KeptClient::of(client);
    status
}

fn ask(client: &mut Client, request: &[u8], buffer: &mut [u8], count: &mut usize) -> u32
    requires { LONGEST_SENT ≤ length buffer.old }
    ensures { IsDone (ask_outcome request.now client.old count.old buffer.old) client.new result count.new buffer.new }
{
    return_frame(client.unconnected(request), buffer, count)
}

/// Writes the frame of a request on the connection.
#[unsafe(no_mangle)]
pub extern "C" fn enip_core_client_submit(
    alloc: Global,
    kept: &mut KeptClient,
    request: &[u8],
    buffer: &mut [u8],
    count: &mut usize,
) -> u32
    requires { IsLive kept.old.value }
    ensures small { length buffer.old < LONGEST_SENT
        → IsTooSmall kept.old.value kept.new.value result count.old count.new buffer.old buffer.new }
    ensures done { LONGEST_SENT ≤ length buffer.old
        → IsDoneKept (submit_outcome request.now) kept.old.value kept.new.value result count.old count.new buffer.old buffer.new }
{
    if buffer.len() < LONGEST_SENT {
        return Status::Room.number();
    }
    let mut client = kept.take(alloc);
    let status = submit(&mut client, request, buffer, count);
    *kept = KeptClient::of(client);
    status
}

fn submit(client: &mut Client, request: &[u8], buffer: &mut [u8], count: &mut usize) -> u32
    requires { LONGEST_SENT ≤ length buffer.old }
    ensures { IsDone (submit_outcome request.now client.old count.old buffer.old) client.new result count.new buffer.new }
{
    return_submitted(client.submit(request), buffer, count)
}

/// Writes the frame of the pending request again.
#[unsafe(no_mangle)]
pub extern "C" fn enip_core_client_resend(
    alloc: Global,
    kept: &mut KeptClient,
    buffer: &mut [u8],
    count: &mut usize,
) -> u32
    requires { IsLive kept.old.value }
    ensures small { length buffer.old < LONGEST_SENT
        → IsTooSmall kept.old.value kept.new.value result count.old count.new buffer.old buffer.new }
    ensures done { LONGEST_SENT ≤ length buffer.old
        → IsDoneKept resend_outcome kept.old.value kept.new.value result count.old count.new buffer.old buffer.new }
{
    if buffer.len() < LONGEST_SENT {
        return Status::Room.number();
    }
    let mut client = kept.take(alloc);
    let status = resend(&mut client, buffer, count);
    *kept = KeptClient::of(client);
    status
}

fn resend(client: &mut Client, buffer: &mut [u8], count: &mut usize) -> u32
    requires { LONGEST_SENT ≤ length buffer.old }
    ensures { IsDone (resend_outcome client.old count.old buffer.old) client.new result count.new buffer.new }
{
    return_resend(client.resend(), buffer, count)
}

/// Writes the Forward_Close to send.
#[unsafe(no_mangle)]
pub extern "C" fn enip_core_client_close(
    alloc: Global,
    kept: &mut KeptClient,
    buffer: &mut [u8],
    count: &mut usize,
) -> u32
    requires { IsLive kept.old.value }
    ensures small { length buffer.old < LONGEST_SENT
        → IsTooSmall kept.old.value kept.new.value result count.old count.new buffer.old buffer.new }
    ensures done { LONGEST_SENT ≤ length buffer.old
        → IsDoneKept close_outcome kept.old.value kept.new.value result count.old count.new buffer.old buffer.new }
{
    if buffer.len() < LONGEST_SENT {
        return Status::Room.number();
    }
    let mut client = kept.take(alloc);
    let status = close(&mut client, buffer, count);
    *kept = KeptClient::of(client);
    status
}

fn close(client: &mut Client, buffer: &mut [u8], count: &mut usize) -> u32
    requires { LONGEST_SENT ≤ length buffer.old }
    ensures { IsDone (close_outcome client.old count.old buffer.old) client.new result count.new buffer.new }
{
    return_frame(client.close(), buffer, count)
}

/// Writes the UnRegisterSession to send.
#[unsafe(no_mangle)]
pub extern "C" fn enip_core_client_unregister(
    alloc: Global,
    kept: &mut KeptClient,
    buffer: &mut [u8],
    count: &mut usize,
) -> u32
    requires { IsLive kept.old.value }
    ensures small { length buffer.old < LONGEST_SENT
        → IsTooSmall kept.old.value kept.new.value result count.old count.new buffer.old buffer.new }
    ensures done { LONGEST_SENT ≤ length buffer.old
        → IsDoneKept unregister_outcome kept.old.value kept.new.value result count.old count.new buffer.old buffer.new }
{
    if buffer.len() < LONGEST_SENT {
        return Status::Room.number();
    }
    let mut client = kept.take(alloc);
    let status = unregister(&mut client, buffer, count);
    *kept = KeptClient::of(client);
    status
}

fn unregister(client: &mut Client, buffer: &mut [u8], count: &mut usize) -> u32
    requires { LONGEST_SENT ≤ length buffer.old }
    ensures { IsDone (unregister_outcome client.old count.old buffer.old) client.new result count.new buffer.new }
{
    return_frame(client.unregister(), buffer, count)
}

/// Gives up the pending request on the connection.
#[unsafe(no_mangle)]
pub extern "C" fn enip_core_client_give_up(alloc: Global, kept: &mut KeptClient) -> u32
    requires { IsLive kept.old.value }
    ensures { IsGivenUpKept kept.old.value kept.new.value result }
{
    let mut client = kept.take(alloc);
    let status = give_up(&mut client);
    *kept = KeptClient::of(client);
    status
}

fn give_up(client: &mut Client) -> u32
    ensures { IsGivenUp client.old client.new result }
{
    if client.give_up() {
        Status::Done.number()
    } else {
        Status::Absent.number()
    }
}

/// Feeds a piece of what came back.
#[unsafe(no_mangle)]
pub extern "C" fn enip_core_client_feed(
    alloc: Global,
    kept: &mut KeptClient,
    piece: &[u8],
    buffer: &mut [u8],
    heard: &mut Heard,
) -> u32
    requires { IsLive kept.old.value }
    ensures small { length buffer.old < LONGEST_FRAME → result ≡ status_number Status.Room }
    ensures kept { length buffer.old < LONGEST_FRAME → kept.new.value ≡ kept.old.value }
    ensures buffer { length buffer.old < LONGEST_FRAME → buffer.new ≡ buffer.old }
    ensures untold { length buffer.old < LONGEST_FRAME → heard.new ≡ heard.old }
    ensures done { LONGEST_FRAME ≤ length buffer.old → result ≡ status_number Status.Done }
    ensures heard { LONGEST_FRAME ≤ length buffer.old
        → IsHeardKept kept.old.value kept.new.value piece.now heard.new buffer.old buffer.new }
{
    if buffer.len() < LONGEST_FRAME {
        return Status::Room.number();
    }
    let mut client = kept.take(alloc);
    *heard = feed(&mut client, piece, buffer);
    *kept = KeptClient::of(client);
    Status::Done.number()
}

fn feed(client: &mut Client, piece: &[u8], buffer: &mut [u8]) -> Heard
    ensures { IsHeardBy client.old client.new piece.now result buffer.old buffer.new }
{
    let hearing = client.feed(piece);
    return_heard(hearing.taken, hearing.heard, buffer)
}

fn return_heard(taken: usize, heard: enip_client::Heard<'_>, buffer: &mut [u8]) -> Heard
    ensures { record { heard = result; buffer = buffer.new } ≡ returned_event taken (heard_event_in heard.entry) buffer.old }
{
    match heard {
        enip_client::Heard::Nothing => without_bytes(taken, 0, 0, 0),
        enip_client::Heard::Registered => without_bytes(taken, 1, 0, 0),
        enip_client::Heard::Opened => without_bytes(taken, 2, 0, 0),
        enip_client::Heard::Reply(bytes) => return_reply(taken, 3, bytes, buffer),
        enip_client::Heard::Accepted(bytes) => return_reply(taken, 4, bytes, buffer),
        enip_client::Heard::Refused(general, extended) => without_bytes(
            taken, 5, general, extended,
        ),
        enip_client::Heard::Closed => without_bytes(taken, 6, 0, 0),
    }
}

fn without_bytes(taken: usize, kind: u32, general: u8, extended: u16) -> Heard
    ensures { result ≡ record { taken = taken; reply = 0; kind = kind; general = general; extended = extended } }
{
    Heard {
        taken,
        reply: 0,
        kind,
        general: u32::from(general),
        extended: u32::from(extended),
    }
}

fn return_reply(taken: usize, kind: u32, reply: &[u8], buffer: &mut [u8]) -> Heard
    ensures { record { heard = result; buffer = buffer.new } ≡ returned_reply taken kind reply.now buffer.old }
{
    if reply.len() <= buffer.len() {
        copy_front(reply, buffer);
    }
    Heard {
        taken,
        reply: reply.len(),
        kind,
        general: general_in(reply),
        extended: extended_in(reply),
    }
}

pub(crate) fn general_in(reply: &[u8]) -> u32
    ensures { result ≡ general_in reply.now }
{
    if reply.len() < 4 {
        0
    } else {
        u32::from(reply[2])
    }
}

fn extended_in(reply: &[u8]) -> u32
    ensures { result ≡ extended_in reply.now }
{
    if reply.len() < 6 || reply[3] == 0 {
        0
    } else {
        u32::from(reply[4]) + u32::from(reply[5]) * 256
    }
}
