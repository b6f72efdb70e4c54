//! What the owner of the device is asked, apart from the data.

ghost use Rattle.std.specs.Prelude.{◌≡◌, ◌≤◌, length, IfSome};
ghost use Rattle.std.specs.Option.{option_map};
ghost use Rattle.cip_objects.specs.OwnRequests.{asked_in};
ghost use Rattle.enip_adapter.specs.Asks.{asked_with};

use cip_objects::{ReplyBuf, ServiceKind};
use cip_owner::OwnRequest;

/// A request to the owner of the device, apart from its data.
#[derive(Clone, Copy)]
pub(crate) struct AskedHead {
    class: u16,
    instance: u32,
    service: u8,
    attribute: Option<u16>,
    reply_limit: u16,
    kind: ServiceKind,
}

/// Copies the data of a request into a buffer, over what it held, and returns the rest.
pub(crate) fn copy_asked(
    request: Option<OwnRequest<'_>>,
    buffer: &mut ReplyBuf,
) -> Option<AskedHead>
    requires { IfSome request (λ own. length own.data.now ≤ 500) }
    ensures { option_map (asked_with buffer.new.items) result ≡ option_map asked_in request.entry }
{
    let request = request?;
    buffer.clear();
    let _ = buffer.try_extend_from_slice(request.data);
    Some(AskedHead {
        class: request.class,
        instance: request.instance,
        service: request.service,
        attribute: request.attribute,
        reply_limit: request.reply_limit,
        kind: request.kind,
    })
}

/// A request whose data were copied into a buffer. They are lent from there.
pub(crate) fn lend_asked(head: Option<AskedHead>, buffer: &ReplyBuf) -> Option<OwnRequest<'_>>
    ensures { option_map asked_in result ≡ option_map (asked_with buffer.now.items) head }
{
    let head = head?;
    Some(OwnRequest {
        class: head.class,
        instance: head.instance,
        service: head.service,
        attribute: head.attribute,
        data: buffer.as_slice(),
        reply_limit: head.reply_limit,
        kind: head.kind,
    })
}
