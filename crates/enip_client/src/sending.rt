//! The frames that a client sends. (Volume 2, encapsulation commands.)
//! Text: docs/PROTOCOL.md, "The client".

ghost use Rattle.std.specs.Prelude.{◌≡◌, ◌↔◌, ℕ, ◌≤◌, ◌+◌, ◌%◌, length, [], IsSome, IfSome};
ghost use Rattle.arrayvec.specs.ArrayVec.{array_vec_len};
ghost use Rattle.enip_wire.specs.Headers.{header_spelling};
ghost use Rattle.enip_wire.specs.Frames.{frame};
ghost use Rattle.enip_client.specs.Frames.{sent_header, register_frame, unregister_frame};
ghost use Rattle.enip_client.specs.Frames.{request_frame, item_frame, manager_request, parameters_of, open_request_over};
ghost use Rattle.cip_message.specs.Open.{small, large, view_by};
ghost use Rattle.enip_client.specs.Frames.{close_request_over, open_service, open_request_on, is_large};
ghost use Rattle.enip_client.specs.Frames.{large_parameters_of, asked_on, router_over, send_request};

use crate::wants::Wants;
use arrayvec::ArrayVec;
use cip_bytes::protocol::{
    CONNECTION_MANAGER, Command, LARGEST_CONNECTION_SIZE, LARGEST_FORWARD_OPEN_SIZE,
    MESSAGE_ROUTER, ManagerService, UNCONNECTED_LIMIT,
};
use cip_message::{CloseRequest, LargeParameters, OpenRequest, Parameters, Transport};
use cip_route::{LONGEST_ROUTE, Route, UNCONNECTED_SEND, UnconnectedSend};
use enip_wire::{Header, write_rr_body, write_unit_body};

/// The number of bytes of a packet before an unconnected request: interface 4, timeout 2, item count 2, null address 4,
/// type and length of the data item 4. (Volume 2, common packet format.)
const UNCONNECTED_HEAD: usize = 16;

/// The same before an item of a connection, with a connected address of 8.
const CONNECTED_HEAD: usize = 20;

/// The greatest size of the data of a frame that is sent, in bytes.
const LONGEST_DATA: usize = CONNECTED_HEAD + LARGEST_CONNECTION_SIZE;

/// The greatest size of a frame that is sent, in bytes: a header, and an item of the largest connection.
pub const LONGEST_SENT: usize = Header::SIZE + LONGEST_DATA;

/// The bytes of one frame to send, its header first.
pub type Sent = ArrayVec<u8, LONGEST_SENT>;

/// The data of RegisterSession: protocol version 1 and no option flags.
const PROTOCOL: [u8; 4] = [1, 0, 0, 0];

/// The path of the Connection Manager, instance 1.
const MANAGER_PATH: [u8; 4] = [0x20, CONNECTION_MANAGER as u8, 0x24, 1];

/// The path of the message router, instance 1, to which a connection is opened.
const ROUTER_PATH: [u8; 4] = [0x20, MESSAGE_ROUTER as u8, 0x24, 1];

const PRIORITY_AND_TICK_TIME: u8 = 0x0a;

const TIMEOUT_TICKS: u8 = 0x0e;

/// The target is the server, the trigger is the application object, class 3. (Volume 1, transport class and trigger.)
const SERVER_CLASS_3: u8 = 0xa3;

/// Point to point, with variable size. (Volume 1, network connection parameters.)
const POINT_TO_POINT_VARIABLE: u16 = 0x4200;

/// The same in the parameters of a large connection.
const LARGE_POINT_TO_POINT_VARIABLE: u32 = 0x4200_0000;

/// Ticks of 1,024 milliseconds after which a router gives a request up (ours): 4.1 seconds, less than a client waits by
/// default.
const ROUTE_TIMEOUT_TICKS: u8 = 4;

/// The greatest size of the path of a connection, in bytes: a route, and the path of the message router.
const LONGEST_CONNECTION_PATH: usize = LONGEST_ROUTE + ROUTER_PATH.len();

/// The path of a connection.
type ConnectionPath = ArrayVec<u8, LONGEST_CONNECTION_PATH>;

/// The greatest size of a request to the Connection Manager, in bytes: service, path size and path 6, a large open 40
/// and its path.
const LONGEST_MANAGER_REQUEST: usize = 46 + LONGEST_CONNECTION_PATH;

/// A request to the Connection Manager.
pub(crate) type ManagerRequest = ArrayVec<u8, LONGEST_MANAGER_REQUEST>;

/// A request over a route, as it is sent to the first router.
pub(crate) type RoutedRequest = ArrayVec<u8, UNCONNECTED_LIMIT>;

/// Writes the header of a frame with `size` bytes of data.
pub(crate) fn begin_frame(command: Command, session: u32, number: u64, size: usize, sent: &mut Sent)
    requires { size ≤ LONGEST_DATA }
    ensures header { sent.new.items ≡ header_spelling (sent_header command session number size) }
    ensures size { array_vec_len sent.new ≡ 24 }
{
    let header = Header {
        command: command.number(),
        length: size as u16,
        session,
        status: 0,
        context: number.to_le_bytes(),
        options: 0,
    };
    sent.clear();
    let _ = sent.try_extend_from_slice(&header.write());
}

/// Writes a RegisterSession, 28 bytes, in place of the content of `sent`. Its session field is 0, since there is no
/// session yet.
///
/// `number` is the sender context, least significant byte first. The answer repeats it, which identifies the answer.
pub fn write_register(number: u64, sent: &mut Sent)
    ensures { sent.new.items ≡ frame (register_frame number) }
{
    begin_frame(Command::RegisterSession, 0, number, PROTOCOL.len(), sent);
    let _ = sent.try_extend_from_slice(&PROTOCOL);
}

/// Writes an UnRegisterSession, which has no reply.
pub(crate) fn write_unregister(session: u32, sent: &mut Sent)
    ensures { sent.new.items ≡ frame (unregister_frame session) }
{
    begin_frame(Command::UnRegisterSession, session, 0, 0, sent);
}

/// Writes a SendRRData with an unconnected request in place of the content of `sent`: 40 bytes, then those of the
/// request.
///
/// `session` is the handle in the answer to a RegisterSession. `number` is the sender context, least significant byte
/// first. The answer repeats it, which identifies the answer. `request` is a request to the message router, of at most
/// 504 bytes.
///
/// ```
/// let mut sent = Sent::new();
/// write_request(session, 1, b"\x0e\x03\x20\x01\x24\x01\x30\x01", &mut sent);
/// ```
pub fn write_request(session: u32, number: u64, request: &[u8], sent: &mut Sent)
    requires { length request.now ≤ UNCONNECTED_LIMIT }
    ensures { sent.new.items ≡ frame (request_frame session number request.now) }
{
    let size = UNCONNECTED_HEAD + request.len();
    begin_frame(Command::SendRRData, session, number, size, sent);
    let _ = write_rr_body(sent, request);
}

/// Writes a SendUnitData with an item of the connection that has this O->T ID.
pub(crate) fn write_item(session: u32, o_to_t_id: u32, item: &[u8], sent: &mut Sent)
    requires { length item.now ≤ LARGEST_CONNECTION_SIZE }
    ensures { sent.new.items ≡ frame (item_frame session o_to_t_id item.now) }
{
    begin_frame(
        Command::SendUnitData,
        session,
        0,
        CONNECTED_HEAD + item.len(),
        sent,
    );
    let _ = write_unit_body(sent, o_to_t_id, item);
}

/// The service that opens the connection that a client wants: Forward_Open if neither size is over 511 bytes.
pub(crate) fn open_service(wants: &Wants) -> ManagerService
    ensures { result ≡ open_service wants.now }
{
    if is_large(wants) {
        ManagerService::LargeForwardOpen
    } else {
        ManagerService::ForwardOpen
    }
}

/// A request to open a connection over a route.
pub(crate) fn open_request(wants: &Wants, route: &Route) -> ManagerRequest
    ensures { result.items ≡ open_request_over route.now wants.now }
{
    let path = connection_path(route);
    if is_large(wants) {
        large_open_request(wants, path.as_slice())
    } else {
        small_open_request(wants, path.as_slice())
    }
}

/// The path of a connection over a route: the route, and the path of the message router.
fn connection_path(route: &Route) -> ConnectionPath
    ensures path { result.items ≡ router_over route.now }
    ensures whole_words { array_vec_len result % 2 ≡ 0 }
    ensures size { array_vec_len result ≤ LONGEST_CONNECTION_PATH }
{
    let mut path = ConnectionPath::new();
    let _ = path.try_extend_from_slice(route.as_slice());
    let _ = path.try_extend_from_slice(&ROUTER_PATH);
    path
}

/// A Forward_Open.
fn small_open_request(wants: &Wants, path: &[u8]) -> ManagerRequest
    requires whole_words { length path.now % 2 ≡ 0 }
    requires size { length path.now ≤ LONGEST_CONNECTION_PATH }
    ensures { result.items ≡ open_request_on path.now small wants.now }
{
    let mut request = begin_manager_request(ManagerService::ForwardOpen);
    let asked = asked(
        wants,
        path,
        parameters(wants.o_to_t_size),
        parameters(wants.t_to_o_size),
    );
    let _ = asked.write(&mut request);
    request
}

/// A Large_Forward_Open.
fn large_open_request(wants: &Wants, path: &[u8]) -> ManagerRequest
    requires whole_words { length path.now % 2 ≡ 0 }
    requires size { length path.now ≤ LONGEST_CONNECTION_PATH }
    ensures { result.items ≡ open_request_on path.now large wants.now }
{
    let mut request = begin_manager_request(ManagerService::LargeForwardOpen);
    let asked = asked(
        wants,
        path,
        large_parameters(wants.o_to_t_size),
        large_parameters(wants.t_to_o_size),
    );
    let _ = asked.write_large(&mut request);
    request
}

/// The fields of an open, with the path and the parameters of both directions.
fn asked<'a, P>(
    wants: &Wants,
    path: &'a [u8],
    o_to_t_parameters: P,
    t_to_o_parameters: P,
) -> OpenRequest<'a, P>
    ensures asked { (bits : P → ℕ) →
        view_by bits result ≡ asked_on path.now (bits o_to_t_parameters) (bits t_to_o_parameters) wants.now }
    ensures path { result.path.now ≡ path.now }
{
    OpenRequest {
        priority_and_tick_time: PRIORITY_AND_TICK_TIME,
        timeout_ticks: TIMEOUT_TICKS,
        o_to_t_id: 0,
        t_to_o_id: wants.t_to_o_id,
        connection_serial: wants.connection_serial,
        originator_vendor: wants.originator_vendor,
        originator_serial: wants.originator_serial,
        timeout_multiplier: wants.timeout_multiplier,
        o_to_t_rpi: wants.rpi,
        o_to_t_parameters,
        t_to_o_rpi: wants.rpi,
        t_to_o_parameters,
        transport: Transport {
            bits: SERVER_CLASS_3,
        },
        path,
    }
}

/// Whether a size is too large for the parameters of a Forward_Open.
fn is_large(wants: &Wants) -> bool
    ensures { result ≡ is_large wants.now }
{
    wants.o_to_t_size > LARGEST_FORWARD_OPEN_SIZE || wants.t_to_o_size > LARGEST_FORWARD_OPEN_SIZE
}

/// A request to close the connection, over the route of its opening.
pub(crate) fn close_request(wants: &Wants, route: &Route) -> ManagerRequest
    ensures { result.items ≡ close_request_over route.now wants.now }
{
    let path = connection_path(route);
    let mut request = begin_manager_request(ManagerService::ForwardClose);
    let asked = CloseRequest {
        priority_and_tick_time: PRIORITY_AND_TICK_TIME,
        timeout_ticks: TIMEOUT_TICKS,
        connection_serial: wants.connection_serial,
        originator_vendor: wants.originator_vendor,
        originator_serial: wants.originator_serial,
        path: path.as_slice(),
    };
    let _ = asked.write(&mut request);
    request
}

/// A request as it is sent over a route: in an Unconnected_Send. `None` if that is longer than an unconnected request may
/// be.
pub(crate) fn routed_request(route: &Route, request: &[u8]) -> Option<RoutedRequest>
    requires { length request.now ≤ UNCONNECTED_LIMIT }
    ensures fits { IsSome result ↔ (length (send_request route.now request.now) ≤ UNCONNECTED_LIMIT) }
    ensures routed { IfSome result (λ routed. routed.items ≡ send_request route.now request.now) }
{
    let mut routed = RoutedRequest::new();
    let _ = routed.try_extend_from_slice(&[UNCONNECTED_SEND, 2]);
    let _ = routed.try_extend_from_slice(&MANAGER_PATH);
    let send = UnconnectedSend {
        priority_and_tick_time: PRIORITY_AND_TICK_TIME,
        timeout_ticks: ROUTE_TIMEOUT_TICKS,
        message: request,
        route: route.as_slice(),
    };
    match send.write(&mut routed) {
        Ok(()) => Some(routed),
        Err(_) => None,
    }
}

/// The service, the path size in words and the path of a request to the Connection Manager.
fn begin_manager_request(service: ManagerService) -> ManagerRequest
    ensures text { result.items ≡ manager_request service [] }
    ensures size { array_vec_len result ≡ 6 }
{
    let mut request = ManagerRequest::new();
    let _ = request.try_extend_from_slice(&[service.number(), 2]);
    let _ = request.try_extend_from_slice(&MANAGER_PATH);
    request
}

/// The parameters of one direction of a connection, with this size.
fn parameters(size: u16) -> Parameters
    ensures { result.bits ≡ parameters_of size }
{
    // Bits 0 to 8 are the size (network connection parameters).
    Parameters {
        bits: POINT_TO_POINT_VARIABLE + size % 0x200,
    }
}

/// The same for a large connection.
fn large_parameters(size: u16) -> LargeParameters
    ensures { result.bits ≡ large_parameters_of size }
{
    // Bits 0 to 15 are the size (network connection parameters).
    LargeParameters {
        bits: LARGE_POINT_TO_POINT_VARIABLE + u32::from(size),
    }
}
