//! Requests and answers as the log prints them.

use crate::numbered_status::NumberedStatus;
use cip_bytes::StatusText;
use cip_bytes::protocol::{Command, EncapsulationStatus};
use cip_message::{Path, ReplyView, RequestView, read_path};
use cip_names::{AttributeText, ClassText, ServiceText};
use enip_wire::{FrameView, Header, rr_body, unit_body};
use std::fmt;

/// What the log prints of a request, and what it needs to recognize the answer.
#[derive(Clone, Copy)]
pub(crate) struct RequestSummary {
    command: u16,
    context: [u8; 8],
    /// Of a class 3 item: the connection ID and the sequence count.
    item: Option<(u32, u16)>,
    service: Option<u8>,
    path: Option<Path>,
}

impl RequestSummary {
    /// The summary of a frame.
    pub(crate) fn of(frame: FrameView<'_>) -> RequestSummary {
        let (item, message) = message_of(frame);
        let request = message.and_then(|bytes| RequestView::read(bytes).ok());
        RequestSummary {
            item,
            service: request.map(|request| request.service),
            path: request.and_then(|request| read_path(request.path).ok()),
            ..RequestSummary::of_header(&frame.header)
        }
    }

    /// The summary of a header alone.
    pub(crate) fn of_header(header: &Header) -> RequestSummary {
        RequestSummary {
            command: header.command,
            context: header.context,
            item: None,
            service: None,
            path: None,
        }
    }

    /// Of a class 3 item: the connection ID and the sequence count.
    pub(crate) fn item(&self) -> Option<(u32, u16)> {
        self.item
    }

    /// The number of the service, if it has a message of the message router.
    pub(crate) fn service(&self) -> Option<u8> {
        self.service
    }

    /// The number of the class, if its path can be read.
    pub(crate) fn class(&self) -> Option<u16> {
        self.path.map(|path| path.class)
    }

    /// Whether it unregisters the session.
    pub(crate) fn unregisters(&self) -> bool {
        matches!(Command::of(self.command), Some(Command::UnRegisterSession))
    }

    /// Whether a frame is the answer: it has the same command, context and sequence count.
    pub(crate) fn is_answered_by(&self, frame: FrameView<'_>) -> bool {
        let count = self.item.map(|(_, count)| count);
        let answered = message_of(frame).0.map(|(_, count)| count);
        self.command == frame.header.command
            && self.context == frame.header.context
            && count == answered
    }
}

/// The class 3 item and the message router's message in a frame. (Volume 2, SendRRData and SendUnitData.)
fn message_of(frame: FrameView<'_>) -> (Option<(u32, u16)>, Option<&[u8]>) {
    match Command::of(frame.header.command) {
        Some(Command::SendRRData) => (None, rr_body(frame.body).ok()),
        Some(Command::SendUnitData) => match unit_body(frame.body) {
            Ok((connection, [low, high, message @ ..])) => {
                let count = u16::from_le_bytes([*low, *high]);
                (Some((connection, count)), Some(message))
            }
            _ => (None, None),
        },
        _ => (None, None),
    }
}

impl fmt::Display for RequestSummary {
    fn fmt<W: fmt::Write>(&self, f: &mut fmt::Formatter<W>) -> fmt::Result {
        match Command::of(self.command) {
            Some(command) => write!(f, "{command}")?,
            None => {
                let command = self.command;
                write!(f, "command {command:#06x}")?;
            }
        }
        if let Some((connection, count)) = self.item {
            write!(f, " connection {connection} count {count}")?;
        }
        if let Some(service) = self.service {
            let class = self.class();
            write!(f, " {}", ServiceText { class, service })?;
        }
        match self.path {
            Some(path) => write_path(f, path),
            None => Ok(()),
        }
    }
}

/// Writes a path by its numbers and their names.
fn write_path<W: fmt::Write>(f: &mut fmt::Formatter<W>, path: Path) -> fmt::Result {
    let (class, instance) = (path.class, path.instance);
    write!(f, " {} instance {instance}", ClassText(class))?;
    if let Some(attribute) = path.attribute {
        let text = AttributeText {
            class,
            instance,
            attribute,
        };
        write!(f, " {text}")?;
    }
    match path.member {
        Some(member) => write!(f, " member {member}"),
        None => Ok(()),
    }
}

/// The status of an answer.
#[derive(Clone, Copy)]
pub(crate) enum AnswerStatus {
    /// The header's encapsulation status.
    Encapsulation(u32),
    /// The reply's general status, and its first additional word or 0.
    Reply(StatusText),
}

impl AnswerStatus {
    /// The status of a frame: that of the reply in it, unless the header has an error status.
    pub(crate) fn of(frame: FrameView<'_>) -> AnswerStatus {
        let (_, message) = message_of(frame);
        match message.map(ReplyView::read) {
            Some(Ok(reply)) if frame.header.status == 0 => AnswerStatus::Reply(StatusText {
                status: reply.status,
                extended: reply.additional_word(0).unwrap_or(0),
            }),
            _ => AnswerStatus::Encapsulation(frame.header.status),
        }
    }
}

impl AnswerStatus {
    /// Whether it is that of a reply of the message router.
    pub(crate) fn is_reply(&self) -> bool {
        matches!(self, AnswerStatus::Reply(_))
    }
}

/// The encapsulation statuses with a name. (Volume 2, encapsulation status.)
static STATUSES: [EncapsulationStatus; 6] = [
    EncapsulationStatus::Success,
    EncapsulationStatus::UnsupportedCommand,
    EncapsulationStatus::PoorlyFormedData,
    EncapsulationStatus::InvalidSession,
    EncapsulationStatus::InvalidLength,
    EncapsulationStatus::UnsupportedRevision,
];

impl fmt::Display for AnswerStatus {
    fn fmt<W: fmt::Write>(&self, f: &mut fmt::Formatter<W>) -> fmt::Result {
        match self {
            AnswerStatus::Reply(text) => write!(f, "{}", NumberedStatus(*text)),
            AnswerStatus::Encapsulation(status) => {
                write!(f, "{status:#06x}")?;
                match STATUSES.iter().find(|known| known.number() == *status) {
                    Some(known) => write!(f, " {known}"),
                    None => Ok(()),
                }
            }
        }
    }
}
