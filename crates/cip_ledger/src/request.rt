//! Requests to the ledger's class, and the command that Do_Once gives.
ghost use Rattle.std.specs.Prelude.{◌≡◌, ◌≤◌, length, true, false, option_map, Some, None, drop};
ghost use Rattle.cip_message.specs.PathReading.{path_of};
ghost use Rattle.cip_ledger.specs.Requests.{ledger_request, do_once_with, IsShort, command_of, is_barred, bars_class};

use byteorder::{ByteOrder, LittleEndian};
use cip_bytes::protocol::CONNECTION_MANAGER;
use cip_message::{DO_ONCE, LEDGER, RequestView, read_path};

/// The first bytes of segments: a class of 8 bits, a class of 16 bits, an instance of 8 bits. (Volume 1, logical
/// segment.)
const CLASS_8_BITS: u8 = 0x20;

const CLASS_16_BITS: u8 = 0x21;

const INSTANCE_8_BITS: u8 = 0x24;

/// The size of a request whose path is short, up to its data: the service, the path size, a class and an instance of 8
/// bits.
pub(crate) const SHORT_SIZE: usize = 6;

/// A request to the ledger's class.
#[derive(Clone, Copy)]
pub(crate) struct LedgerRequest<'a> {
    /// The service.
    pub(crate) service: u8,
    /// The instance, 0 for the class itself.
    pub(crate) instance: u32,
    /// The attribute, if the path names one.
    pub(crate) attribute: Option<u16>,
    /// The data of the service.
    pub(crate) data: &'a [u8],
}

impl<'a> LedgerRequest<'a> {
    ghost use Rattle.cip_ledger.specs.Views.{request_in};

    /// Reads a request. `None` if it does not go to the ledger's class.
    pub(crate) fn read(request: &'a [u8]) -> Option<LedgerRequest<'a>>
        ensures { option_map request_in result ≡ ledger_request request.now }
    {
        if !is_short(request) {
            return LedgerRequest::read_any(request);
        }
        Some(LedgerRequest {
            service: request[0],
            instance: u32::from(request[5]),
            attribute: None,
            data: &request[6..],
        })
    }

    /// Reads a request, however its path is spelled.
    #[inline(never)]
    #[tactic(auto, unfolding(crate::specs::Requests::ledger_request))]
    fn read_any(request: &'a [u8]) -> Option<LedgerRequest<'a>>
        ensures { option_map request_in result ≡ ledger_request request.now }
    {
        let Ok(view) = RequestView::read(request) else {
            return None;
        };
        let Ok(path) = read_path(view.path) else {
            return None;
        };
        if path.class != LEDGER {
            return None;
        }
        Some(LedgerRequest {
            service: view.service,
            instance: path.instance,
            attribute: path.attribute,
            data: view.data,
        })
    }
}

/// Whether the first bytes of a request's path may be those of the ledger's class. It rules out most requests to
/// other classes in a few instructions.
#[inline(always)]
pub(crate) fn may_be_to_ledger(request: &[u8]) -> bool
    ensures { result ≡ false → ledger_request request.now ≡ None }
{
    // behind the service and the path size: the segment's first byte, and a class of 8 bits
    request.len() > 3 && (u16::from(request[3]) == LEDGER || request[2] == CLASS_16_BITS)
}

/// Whether a request's path is the ledger's class and an instance, in 8 bits each, as most requests spell it.
#[inline(always)]
fn is_short(request: &[u8]) -> bool
    ensures { result ≡ true → IsShort request.now }
{
    if request.len() < 6 {
        return false;
    }
    if request[1] != 2 {
        return false;
    }
    if request[2] != CLASS_8_BITS {
        return false;
    }
    if u16::from(request[3]) != LEDGER {
        return false;
    }
    request[4] == INSTANCE_8_BITS
}

/// Whether a request is Do_Once at the instance, with a short path.
#[inline(always)]
pub(crate) fn is_do_once(request: &[u8]) -> bool
    ensures size { result ≡ true → 6 ≤ length request.now }
    ensures is { result ≡ true → ledger_request request.now ≡ Some (do_once_with (drop 6 request.now)) }
{
    if !is_short(request) {
        return false;
    }
    if request[0] != DO_ONCE {
        return false;
    }
    request[5] == 1
}

/// Whether a request can't be embedded in a command: it goes to the Connection Manager or to the ledger.
pub(crate) fn is_barred(request: &[u8]) -> bool
    ensures { result ≡ is_barred request.now }
{
    may_be_barred(request) && is_read_as_barred(request)
}

/// Whether the first bytes of a request's path may be those of a class whose requests can't be embedded.
#[inline(always)]
fn may_be_barred(request: &[u8]) -> bool
    ensures { result ≡ false → is_barred request.now ≡ false }
{
    if request.len() <= 3 {
        return false;
    }
    if u16::from(request[3]) == CONNECTION_MANAGER {
        return true;
    }
    if u16::from(request[3]) == LEDGER {
        return true;
    }
    request[2] == CLASS_16_BITS
}

/// Whether a request is read as one that can't be embedded.
#[inline(never)]
#[tactic(auto, unfolding(crate::specs::Requests::is_barred))]
fn is_read_as_barred(request: &[u8]) -> bool
    ensures { result ≡ is_barred request.now }
{
    let Ok(view) = RequestView::read(request) else {
        return false;
    };
    bars_class(view.path)
}

/// Whether a path is one of a class whose requests can't be embedded.
fn bars_class(path: &[u8]) -> bool
    ensures { result ≡ bars_class (path_of path.now) }
{
    match read_path(path) {
        Ok(path) => path.class == CONNECTION_MANAGER || path.class == LEDGER,
        Err(_) => false,
    }
}

/// A command of an originator: a request that is to be executed once.
#[derive(Clone, Copy)]
pub(crate) struct Command<'a> {
    /// The number of the device's life that the command is for.
    pub(crate) life: u64,
    /// Who gives the command.
    pub(crate) originator: u64,
    /// The number that the originator gave it.
    pub(crate) number: u32,
    /// The embedded router request.
    pub(crate) request: &'a [u8],
}

impl<'a> Command<'a> {
    ghost use Rattle.cip_ledger.specs.Views.{command_in};

    /// The size of what is before the embedded request, in bytes: a life, an originator and a number.
    pub(crate) const FRONT_SIZE: usize = 20;

    /// The smallest data of Do_Once, in bytes: with the smallest request.
    pub(crate) const SMALLEST: usize = 22;

    /// Reads the data of Do_Once.
    pub(crate) fn read(data: &'a [u8]) -> Command<'a>
        requires { 22 ≤ length «data».now }
        ensures command { command_in result ≡ command_of «data».now }
        ensures embedded { result.request.now ≡ drop 20 «data».now }
    {
        Command {
            life: LittleEndian::read_u64(data),
            originator: LittleEndian::read_u64(&data[8..]),
            number: LittleEndian::read_u32(&data[16..]),
            request: &data[Command::FRONT_SIZE..],
        }
    }
}
