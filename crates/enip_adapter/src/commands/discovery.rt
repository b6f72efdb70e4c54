//! Discovery over UDP: datagrams that ask who the device is. (Volume 2, encapsulation over UDP.)
//! Text: docs/PROTOCOL.md, "Datagrams".

ghost use Rattle.std.specs.Prelude.{◌≡◌, ◌≤◌, length, if◌then◌else◌, Some, None, IfSome};
ghost use Rattle.std.specs.Option.{option_map};
ghost use Rattle.enip_wire.specs.Stream.{frame_of};
ghost use Rattle.enip_adapter.specs.Discovery.{discovered, frame_discovered};

use super::lists::{list_identity, list_interfaces, list_services};
use crate::reply::{AnswerFrame, LONGEST_ANSWER};
use crate::shared::Shared;
use cip_bytes::protocol::Command;
use cip_objects::ReplyBuf;
use enip_wire::{FrameView, Held, parse_frame};

/// A buffer for the answer to one datagram. Its old content is never used.
#[derive(Drop)]
pub struct DiscoveryBuffer {
    reply: ReplyBuf,
    answer: AnswerFrame,
}

impl DiscoveryBuffer {
    /// A blank buffer. It allocates no memory, neither here nor later.
    pub fn new() -> DiscoveryBuffer {
        DiscoveryBuffer {
            reply: ReplyBuf::new(),
            answer: AnswerFrame::new(),
        }
    }

    /// Writes the answer to a datagram into this buffer, and lends it. `None` if the datagram is dropped.
    pub(crate) fn discover(&mut self, shared: &Shared, datagram: &[u8]) -> Option<&[u8]>
        ensures answer { option_map (λ bytes. bytes.now) result ≡ discovered shared.now datagram.now }
        ensures fits { IfSome result (λ bytes. length bytes.now ≤ LONGEST_ANSWER) }
    {
        // A datagram is exactly one frame (ours).
        let Held::Frame(frame) = parse_frame(datagram) else {
            return None;
        };
        if self.write_answer(shared, frame) {
            Some(self.answer.as_slice())
        } else {
            None
        }
    }

    /// Writes the answer to a frame that arrived in a datagram. Returns whether there is one.
    #[tactic(auto, unfolding(crate::specs::Commands::command_served))]
    fn write_answer(&mut self, shared: &Shared, frame: FrameView<'_>) -> bool
        ensures { (if result then Some self.new.answer.items else None)
            ≡ frame_discovered shared.now (frame_of frame.entry) }
    {
        let asked = frame.header;
        // Options or a status other than 0: dropped, as over TCP.
        if asked.options != 0 || asked.status != 0 {
            return false;
        }
        // An answer always has data, so two devices never answer each other (ours).
        if asked.length != 0 {
            return false;
        }
        match Command::of(asked.command) {
            Some(Command::ListServices) => list_services(asked, &mut self.answer),
            Some(Command::ListIdentity) => {
                list_identity(shared, asked, &mut self.reply, &mut self.answer);
            }
            Some(Command::ListInterfaces) => list_interfaces(asked, &mut self.answer),
            // A datagram registers no session and reaches no object (ours).
            _ => return false,
        }
        true
    }
}
