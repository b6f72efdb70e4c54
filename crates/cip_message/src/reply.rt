//! Replies of the message router (Volume 1, message router response format).
//! Text: docs/PROTOCOL.md, "Router messages".

ghost use Rattle.std.specs.Prelude.{◌≡◌, ◌↔◌, ◌+◌, ◌*◌, ◌%◌, ◌<◌, ◌≤◌, ◌++◌, length, slice_get, slice_index, IsOk};
ghost use Rattle.std.specs.Prelude.{OnOk, OnErr, IfOk};
ghost use Rattle.std.specs.List.{flat_map};
ghost use Rattle.arrayvec.specs.ArrayVec.{array_vec_len};
ghost use Rattle.cip_bytes.specs.Numbers.{le};
ghost use Rattle.cip_bytes.specs.Reading.{Gives};
ghost use Rattle.cip_message.specs.Reply.{Reply, SpellsReply, reply, reply_to, reply_service, view, reply_of};
ghost use Rattle.cip_message.specs.Reply.{reply_fault_number};

use arrayvec::ArrayVec;
use byteorder::{ByteOrder, LittleEndian};
use cip_bytes::{Full, append};
use thiserror::Error;

/// A reply, lent from the bytes that spell it.
///
/// ```
/// let reply = ReplyView::read(&[0x8e, 0, 0, 0, 0x34, 0x12])?;
/// assert_eq!(rt; reply.service, reply_service(0x0e));
/// assert_eq!(rt; reply.status, 0);
/// assert_eq!(rt; reply.data, [0x34, 0x12].as_slice());
/// ```
#[derive(Clone, Copy, Debug)]
pub struct ReplyView<'a> {
    /// The request's service with bit 7 set.
    pub service: u8,
    /// The general status.
    pub status: u8,
    /// The additional status words: two bytes each, least first.
    pub additional: &'a [u8],
    /// The data of the reply.
    pub data: &'a [u8],
}

/// Why bytes are not a reply: the first of these that holds.
#[derive(Clone, Copy, Debug, PartialEq, Eq, Error)]
pub enum ReplyFault {
    /// There are fewer than the four bytes before the additional status words.
    #[error("shorter than a reply's first four bytes")]
    Short = 1,
    /// Bit 7 of the service is clear.
    #[error("not a reply")]
    NotReply = 2,
    /// The additional status words go past the end.
    #[error("the additional words go past the end")]
    Extra = 3,
}

impl ReplyFault {
    /// The fault's number, as printed.
    pub fn number(self) -> u8
        ensures { result ≡ reply_fault_number self }
    {
        self as u8
    }
}

impl<'a> ReplyView<'a> {
    /// Reads all of the bytes as a reply. Additional words and data are lent from the bytes. The reserved byte may
    /// have any value.
    pub fn read(bytes: &'a [u8]) -> Result<ReplyView<'a>, ReplyFault>
        // A reply is read if and only if the bytes spell it.
        ensures reply { (a : Reply) → Gives view result (Ok a) ↔ SpellsReply a bytes.now }
        ensures short { Gives view result (Err ReplyFault.Short) ↔ (length bytes.now < 4) }
        ensures not_reply { Gives view result (Err ReplyFault.NotReply)
            ↔ ((4 ≤ length bytes.now) × (slice_index bytes.now 0 < 128)) }
        ensures extra { Gives view result (Err ReplyFault.Extra)
            ↔ ((4 ≤ length bytes.now) × (128 ≤ slice_index bytes.now 0)
            × (length bytes.now < 4 + 2 * slice_index bytes.now 3)) }
        ensures exact { Gives view result (reply_of bytes.now) }
        // The additional words are an even number of bytes.
        ensures whole_words { IfOk result (λ v. length v.additional.now % 2 ≡ 0) }
    {
        reply_at(bytes)
    }

    /// The additional status word at this index, if there is one. Indices start at 0.
    pub fn additional_word(&self, index: usize) -> Option<u16>
        ensures { result ≡ slice_get (view self.now).additional index }
    {
        let words = self.additional;
        if words.len() / 2 <= index {
            return None;
        }
        Some(LittleEndian::read_u16(&words[2 * index..]))
    }
}

/// Reads all of the bytes as a reply: the computation.
#[tactic(auto, using(crate::proofs::Replies::even_front), unfolding(crate::specs::Reply::reply_of))]
fn reply_at(bytes: &[u8]) -> Result<ReplyView<'_>, ReplyFault>
    ensures exact { Gives view result (reply_of bytes.now) }
    ensures whole_words { IfOk result (λ v. length v.additional.now % 2 ≡ 0) }
{
    let [service, _reserved, status, words, rest @ ..] = bytes else {
        return Err(ReplyFault::Short);
    };
    // Bit 7 of the service distinguishes a reply from a request.
    if *service < 0x80 {
        return Err(ReplyFault::NotReply);
    }
    // The reserved byte may have any value. The size of the additional status is in words.
    let size = 2 * usize::from(*words);
    if rest.len() < size {
        return Err(ReplyFault::Extra);
    }
    Ok(ReplyView {
        service: *service,
        status: *status,
        additional: &rest[..size],
        data: &rest[size..],
    })
}

/// Appends the words, two bytes each, least first.
fn append_words<const N: usize>(out: &mut ArrayVec<u8, N>, words: &[u16])
    requires { array_vec_len out.old + 2 * length words.now ≤ N }
    ensures words { out.new.items ≡ out.old.items ++ flat_map (le 2) words.now }
    ensures len { array_vec_len out.new ≡ array_vec_len out.old + 2 * length words.now }
{
    for word in words {
        append(out, &word.to_le_bytes());
    }
}

/// The service of the reply to a request with this service: bit 7 is set. (Volume 1, message router response
/// format.)
pub fn reply_service(service: u8) -> u8
    ensures { result ≡ reply_service service }
{
    if service < 0x80 {
        service + 0x80
    } else {
        service
    }
}

/// Appends a whole reply to a request with this service: the service with bit 7 set, the reserved byte 0, the
/// general status, the additional status words, and the data.
///
/// # Errors
///
/// `Full` if the reply does not fit. Then nothing is written.
#[tactic(auto, using(crate::proofs::Replies::length_words))]
pub fn write_reply<const N: usize>(
    out: &mut ArrayVec<u8, N>,
    service: u8,
    status: u8,
    additional: &[u16],
    data: &[u8],
) -> Result<(), Full>
    requires { length additional.now < 256 }
    ensures fits { IsOk result
        ↔ (array_vec_len out.old + length (reply (reply_to service status additional.now «data».now)) ≤ N) }
    ensures ok { OnOk result
        (out.new.items ≡ out.old.items ++ reply (reply_to service status additional.now «data».now)) }
    ensures err { OnErr result (out.new ≡ out.old) }
    // What is written spells a reply, and reads as that reply again.
    ensures spelled { SpellsReply (reply_to service status additional.now «data».now)
        (reply (reply_to service status additional.now «data».now)) }
    ensures again { reply_of (reply (reply_to service status additional.now «data».now))
        ≡ Ok (reply_to service status additional.now «data».now) }
{
    let capacity = out.remaining_capacity();
    let before = 4 + 2 * additional.len();
    if capacity < before || capacity - before < data.len() {
        return Err(Full);
    }
    append(
        out,
        &[reply_service(service), 0, status, additional.len() as u8],
    );
    append_words(out, additional);
    append(out, data);
    Ok(())
}
