//! Multiple_Service_Packet: several requests in one (Volume 1, Message Router object).
//! Text: docs/PROTOCOL.md, "Several requests in one".
ghost use Rattle.std.specs.Prelude.{◌≡◌, ◌<◌, ◌^◌, length, option_map, IfOk};
ghost use Rattle.std.specs.Iterator.{YieldsFirstBy, item_count};
ghost use Rattle.cip_bytes.specs.Numbers.{words_of};
ghost use Rattle.cip_objects.specs.Packets.{are_in_order, packet_of, request_at, end_at, requests_of, check_requests};
ghost use Rattle.cip_objects.specs.Packets.{is_path_to_router, AreLong};

use crate::status::Refusal;
use byteorder::{ByteOrder, LittleEndian};
use cip_bytes::protocol::MESSAGE_ROUTER;
use cip_message::{Path, RequestView, read_path};
use std::marker::Model;

/// The service of a packet (Volume 1, common services).
pub(crate) const MULTIPLE_SERVICE_PACKET: u8 = 0x0a;

/// The bytes of the count, and of each offset.
pub(crate) const NUMBER_SIZE: usize = 2;

/// The fewest bytes of a request: its service, and the size of its path.
const LEAST_REQUEST: usize = 2;

/// The requests of a packet, in their order, lent from its data.
///
/// ```
/// if let Some(data) = packet_data(request) {
///     for embedded in PacketRequests::read(data)? {
///         requests += 1;
///     }
/// }
/// ```
#[derive(Debug, Drop)]
pub struct PacketRequests<'a> {
    /// The data of the packet: the count, the offsets, the requests.
    data: &'a [u8],
    /// The offsets of the requests that come, two bytes each.
    offsets: &'a [u8],
}

impl<'a> Model for PacketRequests<'a> {
    ghost use Rattle.std.specs.Prelude.{ℕ, List};
    ghost use Rattle.cip_bytes.specs.Numbers.{words_of};
    ghost use Rattle.std.specs.Coded.{coded_ℕ, coded_list};
    ghost use Rattle.cip_objects.specs.Packets.{requests_at};

    ghost Value = { List (List ℕ) };

    ghost coded = { coded_list (coded_list coded_ℕ) };

    ghost view = { λ requests. requests_at requests.data.now (words_of requests.offsets.now) };
}

impl<'a> Iterator for PacketRequests<'a> {
    type Item = &'a [u8];

    ghost next_gives = { YieldsFirstBy (λ request. request.now) (λ left. left) };

    ghost remaining = { item_count (λ left. left) };

    fn next(&mut self) -> Option<&'a [u8]> {
        if self.offsets.len() < NUMBER_SIZE {
            return None;
        }
        let from = LittleEndian::read_u16(self.offsets);
        let offsets = &self.offsets[NUMBER_SIZE..];
        let request = request_between(self.data, from, end_of(self.data, offsets))?;
        self.offsets = offsets;
        Some(request)
    }
}

impl<'a> PacketRequests<'a> {
    /// Reads all data of a packet: a count, that many offsets from the count on, and the requests, one behind another.
    /// Each has two bytes at least. How many requests there are is returned beside them.
    ///
    /// # Errors
    ///
    /// `NotEnoughData` if the data end before the last offset, if a request would begin before that, or if a request
    /// would have fewer than two bytes. `TooMuchData` if bytes lie between the offsets and the first request.
    #[tactic(auto, unfolding(crate::specs::Packets::requests_of))]
    pub fn read(data: &'a [u8]) -> Result<PacketRequests<'a>, Refusal>
        ensures read { result ≡ requests_of data.now }
        ensures long { IfOk result AreLong }
        ensures few { IfOk result (λ requests. length requests < 2 ^ 16) }
    {
        if data.len() < NUMBER_SIZE {
            return Err(Refusal::NotEnoughData);
        }
        let behind = NUMBER_SIZE + NUMBER_SIZE * usize::from(LittleEndian::read_u16(data));
        if data.len() < behind {
            return Err(Refusal::NotEnoughData);
        }
        let offsets = &data[NUMBER_SIZE..behind];
        check_requests(data, offsets, behind)?;
        Ok(PacketRequests { data, offsets })
    }
}

/// The data of a packet: of a request with the service Multiple_Service_Packet to the Message Router. `None` for any
/// other request.
#[tactic(auto, unfolding(crate::specs::Packets::packet_of))]
pub fn packet_data(request: &[u8]) -> Option<&[u8]>
    ensures { option_map (λ content. content.now) result ≡ packet_of request.now }
{
    let view = RequestView::read(request).ok()?;
    if view.service != MULTIPLE_SERVICE_PACKET {
        return None;
    }
    let path = read_path(view.path).ok()?;
    if !is_path_to_router(&path) {
        return None;
    }
    Some(view.data)
}

/// Whether a path leads to the instance of the Message Router.
fn is_path_to_router(path: &Path) -> bool
    ensures { result ≡ is_path_to_router path.now }
{
    path.class == MESSAGE_ROUTER && path.instance == 1
}

/// Checks where requests begin and end, whose offsets end at `behind`.
fn check_requests(data: &[u8], offsets: &[u8], behind: usize) -> Result<(), Refusal>
    ensures { result ≡ check_requests data.now (words_of offsets.now) behind }
{
    let begin = end_of(data, offsets);
    if begin < behind {
        return Err(Refusal::NotEnoughData);
    }
    if behind < begin {
        return Err(Refusal::TooMuchData);
    }
    if !are_in_order(data, offsets) {
        return Err(Refusal::NotEnoughData);
    }
    Ok(())
}

/// Whether each request has two bytes at least, up to where the next one begins or the data end.
fn are_in_order(data: &[u8], offsets: &[u8]) -> bool
    ensures { result ≡ are_in_order data.now (words_of offsets.now) }
{
    for index in 0..offsets.len() / NUMBER_SIZE {
        let from = usize::from(LittleEndian::read_u16(&offsets[NUMBER_SIZE * index..]));
        let to = end_of(data, &offsets[NUMBER_SIZE * (index + 1)..]);
        if to < from + LEAST_REQUEST {
            return false;
        }
    }
    true
}

/// Where a request ends: where the first of these offsets leads, or at the end of the data if there is none.
fn end_of(data: &[u8], offsets: &[u8]) -> usize
    ensures { result ≡ end_at data.now (words_of offsets.now) }
{
    if offsets.len() < NUMBER_SIZE {
        return data.len();
    }
    usize::from(LittleEndian::read_u16(offsets))
}

/// The request between two offsets, if it has two bytes at least and the data have them.
fn request_between(data: &[u8], from: u16, to: usize) -> Option<&[u8]>
    ensures { option_map (λ request. request.now) result ≡ request_at data.now from to }
{
    let from = usize::from(from);
    if to < from + LEAST_REQUEST || data.len() < to {
        return None;
    }
    Some(&data[from..to])
}
