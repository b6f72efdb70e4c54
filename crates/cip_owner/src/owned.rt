//! The objects, with a reply that the owner of the device prepared, and the queue of commands that wait for the owner.
ghost use Rattle.std.specs.Prelude.{◌≡◌, ◌≤◌, [], length, None, is_some, IfSome, MatchOption};
ghost use Rattle.std.specs.Option.{option_map};
ghost use Rattle.cip_objects.specs.OwnRequests.{own_request, asked_in};
ghost use Rattle.cip_message.specs.Router.{general_status};
ghost use Rattle.cip_owner.specs.Owned.{exec_owned, asks, is_asked, answer_with, given, asked_now, queued, ticket_by};
ghost use Rattle.cip_owner.specs.Owned.{of_kind, result_answer, done_answer, after_reply, is_left, IsDone, IsTaken};
ghost use Rattle.cip_owner.specs.Owned.{IsReset};
ghost use Rattle.cip_owner.specs.Reset.{reset_data};
ghost use Rattle.cip_owner.specs.Queue.{after_push};
ghost use Rattle.cip_owner.specs.QueueViews.{result_in};

use crate::owner::{OWNER_REPLY_LIMIT, OwnerReply};
use crate::queue::{CommandResult, Outcome, Queue};
use crate::reset::{Resetting, reset_data, reset_type};
use cip_application::QUEUED_REPLY_LIMIT;
use cip_bytes::append;
use cip_message::reply_service;
use cip_objects::{GeneralStatus, Objects, OwnRequest, REPLY_LIMIT, ReplyBuf, Router, ServiceKind};

/// The service Set_Attribute_Single (Volume 1, common services).
const SET_ATTRIBUTE_SINGLE: u8 = 0x10;

/// The request was executed: success (Volume 1, general status codes).
const SUCCESS: u8 = 0x00;

/// No reply is prepared: device state conflict (Volume 1, general status codes).
const NOT_PREPARED: u8 = 0x10;

/// The queue does not take a command: resource unavailable (Volume 1, general status codes).
const RESOURCE_UNAVAILABLE: u8 = 0x02;

/// The object has no command with this ticket: object does not exist (Volume 1, general status codes).
const UNKNOWN_OBJECT: u8 = 0x16;

/// The data of a Reset say no type: invalid parameter (Volume 1, general status codes).
const INVALID_PARAMETER: u8 = 0x20;

/// The state byte of a queued command that the owner finished, as in the command ledger.
const DONE: u8 = 0;

/// The state byte of a queued command that waits.
const PENDING: u8 = 1;

/// The bytes of a reply before its data.
const HEAD_SIZE: usize = 4;

/// The bytes of the data of Get_Result's reply before the owner's: the state byte and the owner's general status.
const RESULT_FRONT: usize = 2;

/// The objects of a device, the reply of its owner that is prepared, if one is, the queue of commands, if the device has
/// one, and what a Reset puts back, if the device can be reset.
///
/// ```
/// let mut device = OwnedObjects::with_queue(objects, Some(Queue::new(alloc, 16)?));
/// if let Some(asked) = device.asks(request, 504) {
///     device.prepared = owner.answer(&asked);
/// }
/// device.execute(request, 504, &mut reply); // the owner's reply, if it was asked
/// ```
pub struct OwnedObjects {
    /// The objects.
    pub objects: Objects,
    /// The reply that the next request to the owner takes.
    pub prepared: Option<OwnerReply>,
    /// The queue of commands. Without one, queued services are answered "resource unavailable" (0x02).
    pub queue: Option<Queue>,
    /// What a Reset of the Identity object puts back. Without it, Reset is answered "service not supported" (0x08).
    pub reset: Option<Resetting>,
}

// Written out, so that each exit of a function that owns one calls it, and has no drop of every part.
impl Drop for OwnedObjects {
    fn drop(self) {
        let OwnedObjects {
            objects: _,
            prepared: _,
            queue: _,
            reset: _,
        } = self;
    }
}

impl OwnedObjects {
    /// The objects, with no reply prepared and without a queue. The device cannot be reset.
    pub fn new(objects: Objects) -> OwnedObjects
        ensures { result ≡ record { objects = objects; prepared = None; queue = None; reset = None } }
    {
        OwnedObjects::with_queue(objects, None)
    }

    /// The objects, with no reply prepared, and this queue. The device cannot be reset.
    pub fn with_queue(objects: Objects, queue: Option<Queue>) -> OwnedObjects
        ensures { result ≡ record { objects = objects; prepared = None; queue = queue; reset = None } }
    {
        OwnedObjects {
            objects,
            prepared: None,
            queue,
            reset: None,
        }
    }

    /// What the owner is asked by a request whose reply may have `max_size` bytes. `None` if the request is not to the
    /// owner, is queued or asks for a result, is refused before the owner is asked, or leaves no room for the longest
    /// reply.
    #[tactic(auto, unfolding(crate::specs::Owned::asks))]
    pub fn asks<'a>(&self, request: &'a [u8], max_size: usize) -> Option<OwnRequest<'a>>
        ensures asked { option_map asked_in result ≡ asks self.now.objects max_size request.now }
        ensures short { IfSome result (λ own. length own.data.now ≤ 500) }
    {
        let Some(Ok(own)) = self.objects.own_request(request) else {
            return None;
        };
        if !is_asked(own.kind) || max_size < HEAD_SIZE + usize::from(own.reply_limit) {
            return None;
        }
        Some(own)
    }

    /// Executes a Reset of the Identity object if the device can be reset. Returns whether it did; otherwise nothing is
    /// done, and `reply` stays.
    #[inline(always)]
    fn take_reset(&mut self, request: &[u8], reply: &mut ReplyBuf) -> bool
        requires { 2 ≤ length request.now }
        ensures { IsReset self.old request.now self.old.reset (reset_data request.now) result self.new reply.new.items }
    {
        // Most devices cannot be reset, and then this is all.
        self.reset.is_some() && self.execute_reset(request, reply)
    }

    /// Executes a Reset of the Identity object, and returns `true`. For any other request, or if the device cannot be
    /// reset, nothing is done, and `reply` stays.
    #[inline(never)]
    fn execute_reset(&mut self, request: &[u8], reply: &mut ReplyBuf) -> bool
        requires { 2 ≤ length request.now }
        ensures { IsReset self.old request.now self.old.reset (reset_data request.now) result self.new reply.new.items }
    {
        let Some(resetting) = &mut self.reset else {
            return false;
        };
        let Some(data) = reset_data(request) else {
            return false;
        };
        match reset_type(data) {
            Some(reset) => {
                resetting.execute(reset, &mut self.objects);
                answer(request[0], SUCCESS, &[], reply);
            }
            None => answer(request[0], INVALID_PARAMETER, &[], reply),
        }
        true
    }

    /// Executes a request to the owner if a reply is prepared. Returns whether it did; otherwise nothing is done, and
    /// `reply` stays.
    #[inline(always)]
    fn take_prepared(&mut self, request: &[u8], max_size: usize, reply: &mut ReplyBuf) -> bool
        requires request { 2 ≤ length request.now }
        requires max_size_from { 8 ≤ max_size }
        requires max_size_to { max_size ≤ REPLY_LIMIT }
        ensures taken { IsTaken self.old max_size request.now result self.new reply.new.items }
    {
        self.prepared.is_some() && self.execute_own(request, max_size, reply)
    }

    /// Executes a request to the owner, and returns `true`. For any other, nothing is done, and `reply` stays.
    #[inline(never)]
    fn execute_own(&mut self, request: &[u8], max_size: usize, reply: &mut ReplyBuf) -> bool
        requires request { 2 ≤ length request.now }
        requires max_size_from { 8 ≤ max_size }
        requires max_size_to { max_size ≤ REPLY_LIMIT }
        ensures done { IsDone self.old max_size request.now reply.old.items
            (own_request self.old.objects request.now) self.new reply.new.items }
        ensures own { result ≡ is_some (own_request self.old.objects request.now) }
    {
        match self.objects.own_request(request) {
            None => return false,
            Some(Err(refusal)) => answer(request[0], refusal.status().number(), &[], reply),
            Some(Ok(own)) => self.execute_by_kind(own, request[0], max_size, reply),
        }
        true
    }

    /// Executes a request to the owner, by the kind of its service.
    fn execute_by_kind(
        &mut self,
        own: OwnRequest<'_>,
        service: u8,
        max_size: usize,
        reply: &mut ReplyBuf,
    )
        ensures state { self.new ≡ (of_kind own.entry.kind self.old max_size service (asked_in own.entry)).after }
        ensures reply { reply.new.items
            ≡ (of_kind own.entry.kind self.old max_size service (asked_in own.entry)).answer }
    {
        match own.kind {
            ServiceKind::Asked => self.ask(own, service, max_size, reply),
            ServiceKind::Queued => self.enqueue(own, service, reply),
            ServiceKind::Result => answer_result(&self.queue, own, service, max_size, reply),
        }
    }

    /// Puts a request into the queue, and answers its ticket.
    fn enqueue(&mut self, own: OwnRequest<'_>, service: u8, reply: &mut ReplyBuf)
        ensures state { self.new ≡ (queued self.old service (asked_in own.entry) self.old.queue).after }
        ensures reply { reply.new.items ≡ (queued self.old service (asked_in own.entry) self.old.queue).answer }
    {
        match push(&mut self.queue, own) {
            Some(ticket) => answer(service, SUCCESS, &u32::to_le_bytes(ticket), reply),
            None => answer(service, RESOURCE_UNAVAILABLE, &[], reply),
        }
    }

    /// Asks the owner: the request gets the reply that is prepared, if there is room for the longest reply.
    fn ask(&mut self, own: OwnRequest<'_>, service: u8, max_size: usize, reply: &mut ReplyBuf)
        ensures state { self.new ≡ (asked_now self.old max_size service (asked_in own.entry)).after }
        ensures reply { reply.new.items ≡ (asked_now self.old max_size service (asked_in own.entry)).answer }
    {
        if max_size < HEAD_SIZE + usize::from(own.reply_limit) {
            answer(
                service,
                GeneralStatus::ReplyDataTooLarge.number(),
                &[],
                reply,
            );
            return;
        }
        self.give_prepared(own, service, reply);
    }

    /// Gives a request to the owner the reply that is prepared. A set that the owner accepts is stored.
    fn give_prepared(&mut self, own: OwnRequest<'_>, service: u8, reply: &mut ReplyBuf)
        ensures state { self.new ≡ (given self.old service (asked_in own.entry) self.old.prepared).after }
        ensures reply { reply.new.items ≡ (given self.old service (asked_in own.entry) self.old.prepared).answer }
    {
        // The reply is some 500 bytes, and is read where it is.
        let Some(prepared) = self.prepared.as_ref() else {
            answer(service, NOT_PREPARED, &[], reply);
            return;
        };
        if !prepared.is_fit(own.reply_limit) {
            answer(service, NOT_PREPARED, &[], reply);
            self.prepared = None;
            return;
        }
        let status = prepared.status();
        answer(service, status, prepared.data(), reply);
        self.prepared = None;
        self.store_accepted(own, status);
    }

    /// Stores a set of a checked attribute that the owner accepts, and nothing for another request or status.
    fn store_accepted(&mut self, own: OwnRequest<'_>, status: u8)
        ensures { self.new
            ≡ record self.old { objects = after_reply self.old.objects (asked_in own.entry) status } }
    {
        if own.service != SET_ATTRIBUTE_SINGLE || status != 0 {
            return;
        }
        if let Some(attribute) = own.attribute {
            self.objects
                .store_checked(own.class, own.instance, attribute, own.data);
        }
    }
}

impl Router for OwnedObjects {
    ghost use Rattle.cip_owner.specs.OwnedLaws.{exec_owned_too_large};

    ghost after = { λ w max_size text. (exec_owned w max_size text).after };

    ghost answer = { λ w max_size text. (exec_owned w max_size text).answer };

    /// Leaves the state and the reply of the definition `exec_owned`. Allocates nothing.
    ///
    /// The objects refuse a request to the owner themselves, so that no other request is read twice. While a reply is
    /// prepared, it is the other way round: the request is most likely the one that was asked.
    #[inline(always)]
    fn execute(&mut self, request: &[u8], max_size: usize, reply: &mut ReplyBuf) {
        if self.take_reset(request, reply) {
            return;
        }
        if self.take_prepared(request, max_size, reply) {
            return;
        }
        self.objects.execute(request, max_size, reply);
        if may_be_to_owner(reply.as_slice()) {
            self.execute_own(request, max_size, reply);
        }
    }

    ghost too_large = { λ w max_size text h e. exec_owned_too_large w max_size text e };
}

/// Whether a reply of the objects may be their refusal of a request to the owner: "service not supported" or "attribute
/// not settable".
#[inline(always)]
fn may_be_to_owner(reply: &[u8]) -> bool
    requires { 4 ≤ length reply.now }
    ensures { result ≡ is_left (general_status reply.now) }
{
    let status = reply[2];
    status == GeneralStatus::ServiceNotSupported.number()
        || status == GeneralStatus::AttributeNotSettable.number()
}

/// Whether the owner is asked for services of this kind while the peer waits.
fn is_asked(kind: ServiceKind) -> bool
    ensures { result ≡ is_asked kind }
{
    match kind {
        ServiceKind::Asked => true,
        ServiceKind::Queued | ServiceKind::Result => false,
    }
}

/// Puts a request into the queue, if there is one and it takes the request, and returns the ticket.
fn push(queue: &mut Option<Queue>, own: OwnRequest<'_>) -> Option<u32>
    ensures ticket { result ≡ ticket_by queue.old (asked_in own.entry) }
    ensures state { queue.new ≡ option_map (λ q. after_push q (asked_in own.entry)) queue.old }
{
    match queue {
        Some(queue) => queue.push(own),
        None => None,
    }
}

/// Get_Result: answers the result of a command that was put into the queue.
fn answer_result(
    queue: &Option<Queue>,
    own: OwnRequest<'_>,
    service: u8,
    max_size: usize,
    reply: &mut ReplyBuf,
)
    ensures { reply.new.items ≡ result_answer max_size service (asked_in own.entry) queue.now }
{
    let Some(queue) = queue else {
        answer(service, UNKNOWN_OBJECT, &[], reply);
        return;
    };
    match queue.result_of(own) {
        Outcome::Pending => answer(service, SUCCESS, &[PENDING], reply),
        Outcome::Done(finished) => answer_done(finished, service, max_size, reply),
        Outcome::Unknown => answer(service, UNKNOWN_OBJECT, &[], reply),
    }
}

/// Answers the result of a command that the owner finished, if it fits.
fn answer_done(finished: CommandResult<'_>, service: u8, max_size: usize, reply: &mut ReplyBuf)
    requires { length finished.data.now ≤ QUEUED_REPLY_LIMIT }
    ensures { reply.new.items ≡ done_answer max_size service (result_in finished.entry) }
{
    if max_size < HEAD_SIZE + RESULT_FRONT + finished.data.len() {
        answer(
            service,
            GeneralStatus::ReplyDataTooLarge.number(),
            &[],
            reply,
        );
        return;
    }
    answer(service, SUCCESS, &[DONE, finished.status], reply);
    append(reply, finished.data);
}

/// Writes a reply to a request with this service.
fn answer(service: u8, status: u8, data: &[u8], reply: &mut ReplyBuf)
    requires { length «data».now ≤ OWNER_REPLY_LIMIT }
    ensures { reply.new.items ≡ answer_with service status «data».now }
{
    reply.clear();
    reply.push(reply_service(service));
    reply.push(0);
    reply.push(status);
    reply.push(0);
    let _ = reply.try_extend_from_slice(data);
}
