//! A request that the owner is asked.

ghost use Rattle.std.specs.Prelude.{◌≡◌, IfOk};
ghost use Rattle.cip_objects.specs.OwnRequests.{asked_in};
ghost use Rattle.owner_port.specs.Questions.{IsCopied, is_same, is_same_number};

use cip_owner::OwnRequest;
use std::alloc::{AllocError, Global};

/// A request to the owner, with a copy of its data.
#[derive(Drop)]
pub(crate) struct AskedRequest {
    pub(crate) class: u16,
    pub(crate) instance: u32,
    pub(crate) service: u8,
    pub(crate) attribute: Option<u16>,
    /// The most bytes of the reply's data.
    pub(crate) reply_limit: u16,
    pub(crate) content: Vec<u8>,
}

impl AskedRequest {
    /// A copy of a request.
    pub(crate) fn copy_of(
        alloc: Global,
        request: &OwnRequest<'_>,
    ) -> Result<AskedRequest, AllocError>
        ensures { IfOk result (IsCopied (asked_in request.now)) }
    {
        let mut content = Vec::new(alloc);
        content.extend_from_slice(request.data)?;
        Ok(AskedRequest {
            class: request.class,
            instance: request.instance,
            service: request.service,
            attribute: request.attribute,
            reply_limit: request.reply_limit,
            content,
        })
    }

    /// Whether this is a copy of a request.
    pub(crate) fn is_same(&self, request: &OwnRequest<'_>) -> bool
        ensures { result ≡ is_same self.now (asked_in request.now) }
    {
        self.class == request.class
            && self.instance == request.instance
            && self.service == request.service
            && is_same_number(self.attribute, request.attribute)
            && self.content.as_slice() == request.data
    }
}

/// Whether two attributes are the same, or both are none.
fn is_same_number(one: Option<u16>, other: Option<u16>) -> bool
    ensures { result ≡ is_same_number one other }
{
    match (one, other) {
        (None, None) => true,
        (Some(one), Some(other)) => one == other,
        (None, Some(_)) | (Some(_), None) => false,
    }
}
