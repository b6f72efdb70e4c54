//! Requests of the message router (Volume 1, message router request format).
//! Text: docs/PROTOCOL.md, "Router messages".

ghost use Rattle.std.specs.Prelude.{◌≡◌, ◌↔◌, ◌+◌, ◌*◌, ◌%◌, ◌<◌, ◌≤◌, ◌++◌, length, slice_index, IsOk, OnOk, OnErr};
ghost use Rattle.std.specs.Prelude.{Ok, Err};
ghost use Rattle.arrayvec.specs.ArrayVec.{array_vec_len};
ghost use Rattle.cip_bytes.specs.Reading.{Gives};
ghost use Rattle.cip_message.specs.Request.{Request, IsRequest, request, view, request_of, request_fault_number};

use arrayvec::ArrayVec;
use cip_bytes::{Full, append, append_u8};
use thiserror::Error;

/// A request, lent from the bytes that spell it.
///
/// ```
/// let request = RequestView::read(&[0x0e, 0x03, 0x20, 0x01, 0x24, 0x01, 0x30, 0x01])?;
/// assert_eq!(rt; request.service, 0x0e);
/// let path = read_path(request.path); // class 1, instance 1, attribute 1
/// ```
#[derive(Clone, Copy, Debug)]
pub struct RequestView<'a> {
    /// The service. Bit 7 is clear in a request.
    pub service: u8,
    /// The bytes of the path: an even number, as a path is whole 16-bit words.
    pub path: &'a [u8],
    /// The data of the service.
    pub data: &'a [u8],
}

/// Why bytes are not a request.
#[derive(Clone, Copy, Debug, PartialEq, Eq, Error)]
pub enum RequestFault {
    /// There are fewer than the two bytes before the path.
    #[error("shorter than a request's first two bytes")]
    Short = 1,
    /// The path goes past the end.
    #[error("the path goes past the end")]
    PathSize = 2,
}

impl RequestFault {
    /// The fault's number, as printed.
    pub fn number(self) -> u8
        ensures { result ≡ request_fault_number self }
    {
        self as u8
    }
}

impl<'a> RequestView<'a> {
    /// Reads all of the bytes as a request. Path and data are lent from the bytes.
    pub fn read(bytes: &'a [u8]) -> Result<RequestView<'a>, RequestFault>
        // A request is read if and only if the bytes spell it.
        ensures request { (q : Request) → Gives view result (Ok q) ↔ (IsRequest q × (bytes.now ≡ request q)) }
        ensures short { Gives view result (Err RequestFault.Short) ↔ (length bytes.now < 2) }
        ensures path_size { Gives view result (Err RequestFault.PathSize)
            ↔ ((2 ≤ length bytes.now) × (length bytes.now < 2 + 2 * slice_index bytes.now 1)) }
        ensures exact { Gives view result (request_of bytes.now) }
    {
        request_at(bytes)
    }

    /// Appends the request. The path must be whole words, at most 255 of them.
    ///
    /// # Errors
    ///
    /// `Full` if the request does not fit. Then nothing is written.
    #[tactic(auto, using(crate::proofs::Requests::length_parts))]
    pub fn write<const N: usize>(&self, out: &mut ArrayVec<u8, N>) -> Result<(), Full>
        requires whole_words { length self.now.path.now % 2 ≡ 0 }
        requires counted { length self.now.path.now ≤ 510 }
        ensures fits { IsOk result ↔ (array_vec_len out.old + length (request (view self.now)) ≤ N) }
        ensures ok { OnOk result (out.new.items ≡ out.old.items ++ request (view self.now)) }
        ensures spelled { OnOk result (IsRequest (view self.now)) }
        ensures err { OnErr result (out.new ≡ out.old) }
    {
        let capacity = out.remaining_capacity();
        let before = 2 + self.path.len();
        if capacity < before || capacity - before < self.data.len() {
            return Err(Full);
        }
        append_u8(out, self.service);
        append_u8(out, (self.path.len() / 2) as u8);
        append(out, self.path);
        append(out, self.data);
        Ok(())
    }
}

/// Reads all of the bytes as a request: the computation.
#[tactic(auto, unfolding(crate::specs::Request::request_of))]
fn request_at(bytes: &[u8]) -> Result<RequestView<'_>, RequestFault>
    ensures { Gives view result (request_of bytes.now) }
{
    let [service, words, rest @ ..] = bytes else {
        return Err(RequestFault::Short);
    };
    // The path size is in words of two bytes.
    let size = 2 * usize::from(*words);
    if rest.len() < size {
        return Err(RequestFault::PathSize);
    }
    Ok(RequestView {
        service: *service,
        path: &rest[..size],
        data: &rest[size..],
    })
}
