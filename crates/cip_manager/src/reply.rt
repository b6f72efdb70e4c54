//! The replies to Forward_Open, Large_Forward_Open and Forward_Close, written in place (Volume 1, Connection
//! Manager).
ghost use Rattle.std.specs.Prelude.{◌≡◌, ◌≤◌, ◌<◌, ◌+◌, [], ◌∷◌, ◌++◌, length};
ghost use Rattle.arrayvec.specs.ArrayVec.{array_vec_len};
ghost use Rattle.cip_bytes.specs.Protocol.{extended_status_number};
ghost use Rattle.cip_manager.specs.Opening.{open_success};
ghost use Rattle.cip_manager.specs.Replies.{close_success, reply_of_service, length_reply, failure_reply};
ghost use Rattle.cip_manager.specs.Replies.{triad_bytes};

use crate::connection::Triad;
use crate::opening::Opening;
use cip_bytes::protocol::{ExtendedStatus, GeneralStatus, ManagerService, REPLY_LIMIT};
use cip_bytes::{append, append_u16, append_u32};
use cip_message::{LengthFault, ReplyBuf, write_reply};

/// Begins a reply with this status and no data.
fn begin(service: ManagerService, status: GeneralStatus, reply: &mut ReplyBuf)
    ensures text { reply.new.items ≡ reply_of_service service status [] [] }
    ensures len { array_vec_len reply.new ≡ 4 }
{
    reply.clear();
    let _ = write_reply(reply, service.number(), status.number(), &[], &[]);
}

/// Begins a reply that refuses with this extended status, without its data.
fn begin_failure(service: ManagerService, extended: ExtendedStatus, reply: &mut ReplyBuf)
    ensures text { reply.new.items
        ≡ reply_of_service service GeneralStatus.ConnectionFailure (extended_status_number extended ∷ []) [] }
    ensures len { array_vec_len reply.new ≡ 6 }
{
    let status = GeneralStatus::ConnectionFailure.number();
    reply.clear();
    let _ = write_reply(reply, service.number(), status, &[extended.number()], &[]);
}

/// Appends connection serial, originator vendor and originator serial.
fn append_triad(triad: Triad, reply: &mut ReplyBuf)
    requires { array_vec_len reply.old + 8 ≤ REPLY_LIMIT }
    ensures text { reply.new.items ≡ reply.old.items ++ triad_bytes triad }
    ensures len { array_vec_len reply.new ≡ array_vec_len reply.old + 8 }
{
    append_u16(reply, triad.connection_serial);
    append_u16(reply, triad.originator_vendor);
    append_u32(reply, triad.originator_serial);
}

/// Writes the reply to data that are too short or too long.
pub fn write_length_fault(service: ManagerService, fault: LengthFault, reply: &mut ReplyBuf)
    ensures { reply.new.items ≡ length_reply service fault }
{
    let status = match fault {
        LengthFault::Short => GeneralStatus::NotEnoughData,
        LengthFault::Long => GeneralStatus::TooMuchData,
    };
    begin(service, status, reply);
}

/// Writes a reply that refuses with this extended status.
pub fn write_failure(
    service: ManagerService,
    extended: ExtendedStatus,
    triad: Triad,
    reply: &mut ReplyBuf,
)
    ensures { reply.new.items ≡ failure_reply service extended triad }
{
    begin_failure(service, extended, reply);
    append_triad(triad, reply);
    append(reply, &[0, 0]);
}

/// Writes the reply to an opening that succeeded with this O->T ID.
pub fn write_open_success(service: ManagerService, id: u32, opening: &Opening, reply: &mut ReplyBuf)
    ensures { reply.new.items ≡ open_success service id opening.now }
{
    begin(service, GeneralStatus::Success, reply);
    append_u32(reply, id);
    append_u32(reply, opening.t_to_o_id);
    append_triad(opening.triad, reply);
    append_u32(reply, opening.o_to_t.rpi);
    append_u32(reply, opening.t_to_o.rpi);
    append(reply, &[0, 0]);
}

/// Writes the reply to a Forward_Close that closed the connection with this triad.
pub fn write_close_success(triad: Triad, reply: &mut ReplyBuf)
    ensures { reply.new.items ≡ close_success triad }
{
    begin(ManagerService::ForwardClose, GeneralStatus::Success, reply);
    append_triad(triad, reply);
    append(reply, &[0, 0]);
}
