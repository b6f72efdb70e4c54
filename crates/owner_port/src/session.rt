//! A session with an owner: how far it is, and what is queued for the owner.

ghost use Rattle.std.specs.Prelude.{◌≡◌, IfOk, IfSome, ◌≤◌};
ghost use Rattle.owner_port.specs.Sessions.{no_session, begun, opened, is_open, is_listening, has_space, can_feed, sent, with_line, with_next_line, with_end, end_of};

use crate::fault::SessionEnd;
use crate::output::{OUTPUT_LIMIT, Output};
use enip_owner::{EventFault, LINE_LIMIT};
use std::alloc::{AllocError, Global};

/// The most bytes of a line with its newline.
const LINE_SIZE: usize = LINE_LIMIT + 1;

/// How far a session is.
#[derive(Clone, Copy, Debug, PartialEq, Eq)]
pub(crate) enum Phase {
    /// There is no session.
    Absent,
    /// The first line, the token, has not come.
    AwaitsToken,
    /// Lines are executed, and events are queued.
    Open,
    /// The connection is to be closed.
    Over(SessionEnd),
}

/// A session with an owner.
#[derive(Drop)]
pub(crate) struct Session {
    pub(crate) phase: Phase,
    /// The number of the owner's last line. The token has none.
    pub(crate) line: u64,
    /// What was not written to the owner yet.
    pub(crate) output: Output,
}

impl Session {
    /// No session. All memory is taken here.
    pub(crate) fn new(alloc: Global) -> Result<Session, AllocError>
        ensures { IfOk result (λ session. session ≡ no_session) }
    {
        Ok(Session {
            phase: Phase::Absent,
            line: 0,
            output: Output::new(alloc)?,
        })
    }

    /// A connection begins. If there is a token, it has to come first.
    pub(crate) fn begin(&mut self, has_token: bool)
        ensures { self.new ≡ begun has_token }
    {
        self.phase = if has_token {
            Phase::AwaitsToken
        } else {
            Phase::Open
        };
        self.line = 0;
        self.output.clear();
    }

    /// The connection has ended.
    pub(crate) fn end(&mut self)
        ensures { self.new ≡ no_session }
    {
        self.phase = Phase::Absent;
        self.line = 0;
        self.output.clear();
    }

    /// Whether events are queued.
    pub(crate) fn is_open(&self) -> bool
        ensures { result ≡ is_open self.now.phase }
    {
        match self.phase {
            Phase::Open => true,
            Phase::Absent | Phase::AwaitsToken | Phase::Over(_) => false,
        }
    }

    /// Whether lines of the owner are taken.
    fn is_listening(&self) -> bool
        ensures { result ≡ is_listening self.now.phase }
    {
        match self.phase {
            Phase::Open | Phase::AwaitsToken => true,
            Phase::Absent | Phase::Over(_) => false,
        }
    }

    /// Why the session is over, if it is.
    pub(crate) fn ending(&self) -> Option<SessionEnd>
        ensures { result ≡ end_of self.now.phase }
    {
        match self.phase {
            Phase::Over(end) => Some(end),
            Phase::Absent | Phase::AwaitsToken | Phase::Open => None,
        }
    }

    /// Whether a line of an event is queued now, and fits.
    pub(crate) fn has_space(&self) -> bool
        ensures { result ≡ has_space self.now }
    {
        self.is_open() && self.output.free() >= LINE_SIZE
    }

    /// Whether a line of the owner is taken now: each of its answers fits.
    pub(crate) fn can_feed(&self) -> bool
        ensures { result ≡ can_feed self.now }
    {
        self.is_listening() && self.output.free() >= 2 * LINE_SIZE
    }

    /// The next line of the owner has come.
    pub(crate) fn count_line(&mut self)
        ensures { self.new ≡ with_next_line self.old }
    {
        self.line = self.line.saturating_add(1);
    }

    /// The owner has shown the token.
    pub(crate) fn accept(&mut self)
        ensures { self.new ≡ opened self.old }
    {
        self.phase = Phase::Open;
    }

    /// The session is over.
    pub(crate) fn finish(&mut self, end: SessionEnd)
        ensures { self.new ≡ with_end end self.old }
    {
        self.phase = Phase::Over(end);
    }

    /// Queues a line, if the session is open. If it does not fit, or could not be written, the session is over.
    pub(crate) fn send(&mut self, line: Result<Vec<u8>, EventFault>)
        ensures { self.new ≡ sent self.old line }
    {
        if self.is_open() {
            self.queue_line(line);
        }
    }

    /// Queues a line. If it does not fit, or could not be written, the session is over.
    fn queue_line(&mut self, line: Result<Vec<u8>, EventFault>)
        ensures { self.new ≡ with_line self.old line }
    {
        match line {
            Ok(line) => {
                if !self.output.put(line.as_slice()) {
                    self.phase = Phase::Over(SessionEnd::Slow);
                }
            }
            Err(_) => self.phase = Phase::Over(SessionEnd::Memory),
        }
    }
}
