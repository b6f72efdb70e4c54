//! The owner of a device.
ghost use Rattle.std.specs.Prelude.{◌≡◌, ◌≤◌, ◌<◌, Option, length, IfSome, IfNone, true};
ghost use Rattle.cip_objects.specs.OwnRequests.{Asked, asked_in};
ghost use Rattle.cip_owner.specs.Owned.{is_fit};
ghost use Rattle.cip_owner.specs.Replies.{Reply};

use arrayvec::ArrayVec;
use cip_objects::{GeneralStatus, OwnRequest};
use std::marker::Model;

/// The most bytes of the data of an owner's reply.
pub const OWNER_REPLY_LIMIT: usize = 480;

/// The owner's reply to a request: a general status (Volume 1, general status codes), and up to 480 bytes.
#[derive(Debug, Drop)]
pub struct OwnerReply {
    status: u8,
    data: ArrayVec<u8, OWNER_REPLY_LIMIT>,
}

impl Model for OwnerReply {
    ghost use Rattle.cip_owner.specs.Replies.{Reply};

    ghost Value = { Reply };

    ghost view = { λ r. record { status = r.status; content = r.data.items } };
}

impl OwnerReply {
    /// A reply with this general status and these data. `None` if the data have over 480 bytes.
    pub fn new(status: u8, data: &[u8]) -> Option<OwnerReply>
        ensures made { IfSome result (λ r. r ≡ record { status = status; content = «data».now }) }
        ensures refused { IfNone result (480 < length «data».now) }
    {
        let mut content = ArrayVec::new();
        if content.try_extend_from_slice(data).is_err() {
            return None;
        }
        Some(OwnerReply {
            status,
            data: content,
        })
    }

    /// The general status.
    pub fn status(&self) -> u8
        ensures { result ≡ self.now.status }
    {
        self.status
    }

    /// Whether the reply can be given to a request whose reply may have `limit` bytes of data: it is not longer, and
    /// does not say that it is too large (0x11), as the request was executed.
    pub fn is_fit(&self, limit: u16) -> bool
        ensures { (asked : Asked) → asked.reply_limit ≡ limit → result ≡ is_fit asked self.now }
    {
        self.data.len() <= usize::from(limit)
            && self.status != GeneralStatus::ReplyDataTooLarge.number()
    }

    /// The data.
    pub fn data(&self) -> &[u8]
        ensures value { result.now ≡ self.now.content }
        ensures short { length result.now ≤ 480 }
    {
        self.data.as_slice()
    }
}

/// The owner of a device, who executes the own services of its objects and is asked before a checked attribute is set.
///
/// ```
/// impl Owner for Conveyor {
///     ghost answer = { λ conveyor asked. Some (conveyor_reply conveyor asked) };
///
///     ghost after = { λ conveyor asked. conveyor_after conveyor asked };
///
///     fn answer(&mut self, request: &OwnRequest<'_>) -> Option<OwnerReply> {
///         self.moved += u32::from(request.data[0]); // the machine moves
///         OwnerReply::new(0, &self.moved.to_le_bytes())
///     }
/// }
/// ```
pub trait Owner {
    // What the owner answers, and the owner afterwards.
    ghost answer: { Self → Asked → Option Reply };

    ghost after: { Self → Asked → Self };

    /// Executes a request, and returns the reply to it. `None` is answered as if there were no owner: 0x10.
    fn answer(&mut self, request: &OwnRequest<'_>) -> Option<OwnerReply>
        ensures answer { result ≡ answer self.old (asked_in request.now) }
        ensures after { self.new ≡ after self.old (asked_in request.now) }
        // The reply is not longer than the service allows, and does not say that it is too large.
        ensures fits { IfSome result (λ r. is_fit (asked_in request.now) r ≡ true) };
}

/// Nobody owns the device: every request to the owner is answered 0x10.
#[derive(Clone, Copy, Debug)]
pub struct NoOwner;

impl Owner for NoOwner {
    ghost use Rattle.std.specs.Prelude.{None};

    ghost answer = { λ owner asked. None };

    ghost after = { λ owner asked. owner };

    fn answer(&mut self, request: &OwnRequest<'_>) -> Option<OwnerReply> {
        let _ = request;
        None
    }
}
