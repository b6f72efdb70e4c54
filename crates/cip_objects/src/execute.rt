//! Execution of router requests (Volume 1, Message Router).
//! Text: docs/PROTOCOL.md, "Objects".
ghost use Rattle.std.specs.Prelude.{◌≡◌, ◌<◌, ◌≤◌, ◌*◌, ◌^◌, [], ◌∷◌, length, OnErr, slice_set};
ghost use Rattle.cip_message.specs.Reply.{reply as spelled, reply_of_fields};
ghost use Rattle.cip_objects.specs.ObjectRef.{Exists, HasService, path_to};
ghost use Rattle.cip_objects.specs.Execution.{outcome_result, outcome_within, perform, outcome, exec};
ghost use Rattle.cip_objects.specs.Packets.{exec_routed, run_packet, run_within, LEAST_ROOM, AreLong};
ghost use Rattle.cip_objects.specs.PacketReplies.{seen, none_of, all_pushed};
ghost use Rattle.cip_objects.specs.PacketRuns.{packet_result, packet_outcome, IsPacketExecuted};
ghost use Rattle.cip_message.specs.Reply.{reply_service};
ghost use Rattle.cip_bytes.specs.Protocol.{general_status_number};

use crate::object_ref::ResolvedPath;
use crate::objects::Objects;
use crate::packet::{MULTIPLE_SERVICE_PACKET, NUMBER_SIZE, PacketRequests, packet_data};
use crate::packet_replies::PacketReplies;
use crate::reply::append;
use crate::service::Service;
use crate::status::{Completion, Refusal};
use cip_bytes::protocol::{GeneralStatus, MESSAGE_ROUTER, REPLY_LIMIT};
use cip_message::{ReplyBuf, RequestView, Router, read_path, reply_service};

/// The bytes of a reply before its data.
const HEAD_SIZE: usize = 4;

/// The least room of each reply to a request of a packet.
const LEAST_ROOM: usize = 8;

impl Objects {
    /// Performs a service that the object has, and appends the data of its reply.
    ///
    /// All services are inlined, so that the resolved path stays in registers. If one of them took a pointer to it, it
    /// would be written to memory for each request, whatever the service.
    #[inline(always)]
    fn perform(
        &mut self,
        service: Service,
        resolved: ResolvedPath,
        data: &[u8],
        max_size: usize,
        reply: &mut ReplyBuf,
    ) -> Result<Completion, Refusal>
        requires there { Exists self.old.shapes resolved.object }
        requires offered { HasService self.old.shapes resolved.object service }
        requires max_size_from { 8 ≤ max_size }
        requires max_size_to { max_size ≤ REPLY_LIMIT }
        requires head { length reply.old.items ≡ 4 }
        ensures outcome { outcome_result self.new result reply.new.items
            ≡ outcome_within max_size reply.old.items
            (perform self.old service (path_to self.old.shapes resolved) «data».now) }
        ensures err { OnErr result (self.new ≡ self.old) }
    {
        match service {
            Service::GetAttributesAll => self.get_attributes_all(resolved, data, max_size, reply),
            Service::GetAttributeList => self.get_attribute_list(resolved, data, max_size, reply),
            Service::SetAttributeList => self.set_attribute_list(resolved, data, max_size, reply),
            Service::GetAttributeSingle => {
                let value = self.get_attribute_single(resolved, data)?;
                value.append(max_size, reply)?;
                Ok(Completion::Whole)
            }
            Service::SetAttributeSingle => {
                self.set_attribute_single(resolved, data)?;
                Ok(Completion::Whole)
            }
            Service::GetMember => {
                let member = self.get_member(resolved, data)?;
                append(member, max_size, reply)?;
                Ok(Completion::Whole)
            }
            Service::SetMember => {
                self.set_member(resolved, data)?;
                Ok(Completion::Whole)
            }
            Service::Add => {
                let value = self.add(data)?;
                append(&value.to_le_bytes(), max_size, reply)?;
                Ok(Completion::Whole)
            }
            Service::Clear => {
                let value = self.clear(data)?;
                append(&value.to_le_bytes(), max_size, reply)?;
                Ok(Completion::Whole)
            }
        }
    }

    /// Reads a request and performs it. The first check that fails is answered.
    #[tactic(auto, unfolding(crate::specs::Execution::outcome, crate::specs::ReadServices::service_at))]
    fn perform_request(
        &mut self,
        request: &[u8],
        max_size: usize,
        reply: &mut ReplyBuf,
    ) -> Result<Completion, Refusal>
        requires max_size_from { 8 ≤ max_size }
        requires max_size_to { max_size ≤ REPLY_LIMIT }
        requires head { length reply.old.items ≡ 4 }
        ensures outcome { outcome_result self.new result reply.new.items
            ≡ outcome_within max_size reply.old.items (outcome self.old request.now) }
        ensures err { OnErr result (self.new ≡ self.old) }
    {
        // The path goes past the end of the request: 0x26.
        let Ok(view) = RequestView::read(request) else {
            return Err(Refusal::PathSizeInvalid);
        };
        // The path is malformed: 0x04.
        let Ok(path) = read_path(view.path) else {
            return Err(Refusal::PathSegmentError);
        };
        // There is no such class or instance: 0x05.
        let object = self
            .object(path.class, path.instance)
            .ok_or(Refusal::PathDestinationUnknown)?;
        // The object does not have this service: 0x08.
        let service = self
            .service(object, view.service)
            .ok_or(Refusal::ServiceNotSupported)?;
        let resolved = ResolvedPath {
            object,
            attribute: path.attribute,
            member: path.member,
        };
        self.perform(service, resolved, view.data, max_size, reply)
    }

    /// Executes a request as it is.
    #[inline(always)]
    fn execute_one(&mut self, request: &[u8], max_size: usize, reply: &mut ReplyBuf)
        requires request { 2 ≤ length request.now }
        requires max_size_from { 8 ≤ max_size }
        requires max_size_to { max_size ≤ REPLY_LIMIT }
        ensures state { self.new ≡ (exec self.old max_size request.now).after }
        ensures reply { reply.new.items ≡ (exec self.old max_size request.now).answer }
        ensures fits { length reply.new.items ≤ max_size }
    {
        begin(request[0], GeneralStatus::Success, reply);
        match self.perform_request(request, max_size, reply) {
            Ok(completion) => set_status(completion.status(), reply),
            Err(refusal) => begin(request[0], refusal.status(), reply),
        }
    }

    /// Executes the requests of a packet one after another, and returns `true`. For any other request, or if the device
    /// does not have the Message Router, nothing is done.
    #[inline(always)]
    fn execute_if_packet(&mut self, request: &[u8], max_size: usize, reply: &mut ReplyBuf) -> bool
        requires request { 2 ≤ length request.now }
        requires max_size_from { 8 ≤ max_size }
        requires max_size_to { max_size ≤ REPLY_LIMIT }
        ensures { IsPacketExecuted self.old max_size request.now result self.new reply.old.items reply.new.items }
    {
        if request[0] != MULTIPLE_SERVICE_PACKET {
            return false;
        }
        self.execute_packet(request, max_size, reply)
    }

    /// The same for a request that may be a packet by its service.
    #[inline(never)]
    fn execute_packet(&mut self, request: &[u8], max_size: usize, reply: &mut ReplyBuf) -> bool
        requires request { 2 ≤ length request.now }
        requires max_size_from { 8 ≤ max_size }
        requires max_size_to { max_size ≤ REPLY_LIMIT }
        ensures { IsPacketExecuted self.old max_size request.now result self.new reply.old.items reply.new.items }
    {
        let Some(data) = packet_data(request) else {
            return false;
        };
        if self.object(MESSAGE_ROUTER, 1).is_none() {
            return false;
        }
        if let Err(refusal) = self.run_packet(request[0], data, max_size, reply) {
            begin(request[0], refusal.status(), reply);
        }
        true
    }

    /// Reads the requests of a packet, executes them, and writes the reply to the packet, whose service this is.
    fn run_packet(
        &mut self,
        service: u8,
        data: &[u8],
        max_size: usize,
        reply: &mut ReplyBuf,
    ) -> Result<(), Refusal>
        requires max_size_from { 8 ≤ max_size }
        requires max_size_to { max_size ≤ REPLY_LIMIT }
        ensures ran { packet_result self.new result reply.new.items
            ≡ packet_outcome self.old max_size service data.now }
        ensures err { OnErr result (self.new ≡ self.old) }
    {
        let count = PacketRequests::read(data)?.count();
        let requests = PacketRequests::read(data)?;
        self.run_counted(requests, count, service, max_size, reply)
    }

    /// Executes so many requests of a packet, if there is room for the least reply to each, and writes the reply to the
    /// packet.
    fn run_counted(
        &mut self,
        requests: PacketRequests<'_>,
        count: usize,
        service: u8,
        max_size: usize,
        reply: &mut ReplyBuf,
    ) -> Result<(), Refusal>
        requires count { count ≡ length requests }
        requires few { count < 2 ^ 16 }
        requires long { AreLong requests }
        requires max_size_to { max_size ≤ REPLY_LIMIT }
        ensures ran { packet_result self.new result reply.new.items
            ≡ run_within self.old max_size (service ∷ []) requests.entry }
        ensures err { OnErr result (self.new ≡ self.old) }
    {
        // The head, the count, and the offsets.
        let front = HEAD_SIZE + NUMBER_SIZE + NUMBER_SIZE * count;
        if max_size < front + LEAST_ROOM * count {
            return Err(Refusal::ReplyDataTooLarge);
        }
        let mut replies = PacketReplies::new(count);
        self.run_requests(requests, count, max_size - front, &mut replies);
        replies.write(service, reply);
        Ok(())
    }

    /// Executes the requests of a packet one after another, whose replies have this room together, and adds the replies.
    fn run_requests(
        &mut self,
        requests: PacketRequests<'_>,
        count: usize,
        room: usize,
        replies: &mut PacketReplies,
    )
        requires count { count ≡ length requests }
        requires long { AreLong requests }
        requires none { seen replies.old ≡ none_of count }
        requires room_from { LEAST_ROOM * count ≤ room }
        requires room_to { room ≤ REPLY_LIMIT }
        ensures state { self.new ≡ (run_packet self.old room requests.entry).after }
        ensures replies { seen replies.new ≡ all_pushed (none_of count) (run_packet self.old room requests.entry).answers }
    {
        let mut reply = ReplyBuf::new();
        let mut left = room;
        let mut later = count;
        for request in requests {
            later -= 1;
            self.execute_one(request, left - LEAST_ROOM * later, &mut reply);
            left -= reply.len();
            replies.push(reply.as_slice());
        }
    }
}

/// Begins a reply to a request with this service: the service with bit 7 set, a reserved byte, the status, and no
/// additional status words.
fn begin(service: u8, status: GeneralStatus, reply: &mut ReplyBuf)
    ensures { reply.new.items ≡ spelled (reply_of_fields (reply_service service) (general_status_number status) [] []) }
{
    reply.clear();
    reply.push(reply_service(service));
    reply.push(0);
    reply.push(status.number());
    reply.push(0);
}

/// Overwrites the status of a reply that was begun.
fn set_status(status: GeneralStatus, reply: &mut ReplyBuf)
    requires { 4 ≤ length reply.old.items }
    ensures { reply.new.items ≡ slice_set reply.old.items 2 (general_status_number status) }
{
    reply.as_mut_slice()[2] = status.number();
}

impl Router for Objects {
    ghost use Rattle.cip_objects.specs.PacketLaws.{exec_routed_too_large};

    ghost after = { λ m max_size text. (exec_routed m max_size text).after };

    ghost answer = { λ m max_size text. (exec_routed m max_size text).answer };

    /// Leaves the object map and the reply of the definition `exec_routed`. Allocates nothing.
    fn execute(&mut self, request: &[u8], max_size: usize, reply: &mut ReplyBuf) {
        if !self.execute_if_packet(request, max_size, reply) {
            self.execute_one(request, max_size, reply);
        }
    }

    ghost too_large = { λ m max_size text h e. exec_routed_too_large m max_size text e };
}
