//! The reply of the owner that the next round gives.

ghost use Rattle.std.specs.Prelude.{◌≡◌, true};
ghost use Rattle.cip_objects.specs.OwnRequests.{asked_in};
ghost use Rattle.owner_port.specs.Questions.{fits_reply};

use crate::asked_request::AskedRequest;
use cip_owner::{OwnRequest, Owner, OwnerReply};

/// A reply of the owner, and the request that it was asked.
#[derive(Drop)]
pub(crate) struct ReplyTo {
    pub(crate) request: AskedRequest,
    pub(crate) reply: OwnerReply,
}

impl ReplyTo {
    /// Whether this is a reply to a request, and can be given to it.
    fn is_to(&self, request: &OwnRequest<'_>) -> bool
        ensures { result ≡ fits_reply self.now (asked_in request.now) }
    {
        self.request.is_same(request) && self.reply.is_fit(request.reply_limit)
    }
}

/// The owner of a device in one round: it has at most one reply, which it gives once, to the request that it was asked.
/// To other requests it gives none, so they are answered 0x10.
#[derive(Drop)]
pub struct PreparedReply {
    pub(crate) prepared: Option<ReplyTo>,
}

impl Owner for PreparedReply {
    ghost use Rattle.owner_port.specs.Questions.{reply_given, after_given};

    ghost answer = { reply_given };

    ghost after = { after_given };

    fn answer(&mut self, request: &OwnRequest<'_>) -> Option<OwnerReply> {
        let is_to = match &self.prepared {
            Some(prepared) => prepared.is_to(request),
            None => false,
        };
        if !is_to {
            return None;
        }
        match self.prepared.take() {
            Some(prepared) => Some(prepared.reply),
            None => None,
        }
    }
}
