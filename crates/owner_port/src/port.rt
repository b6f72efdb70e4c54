//! The port of a device's owner.

ghost use Rattle.std.specs.Prelude.{◌≡◌, ◌<◌, ◌-◌, ◌^◌, IfOk, drop, is_some, map, option_map};
ghost use Rattle.cip_ledger.specs.Device.{Device};
ghost use Rattle.enip_server.specs.Rounds.{IsWritten, state_of};
ghost use Rattle.owner_port.specs.Ports.{HasSeen, IsNewPort, IsBegun, IsFrameSeen, IsPortFed, IsHandedOver, IsQueueHanded};
ghost use Rattle.owner_port.specs.Ports.{mark_of, after_mark, handed_of, is_above, queue_in};
ghost use Rattle.owner_port.specs.Ports.{IsHelloSent, IsRight, IsFirstLineTaken, IsTokenRefused, IsRequestTaken, IsLineTaken, IsEndTaken, IsLongLineRefused, SameRest, life_in, senders_after, with_output, with_session};
ghost use Rattle.owner_port.specs.Asking.{unanswered};
ghost use Rattle.owner_port.specs.Questions.{failed, with_list};
ghost use Rattle.owner_port.specs.Sessions.{no_session, opened, can_feed, end_of, has_session, awaits_token};

use crate::asked_request::AskedRequest;
use crate::device_table::DeviceTable;
use crate::execution::{Answer, answer_to};
use crate::fault::{LineFault, SessionEnd};
use crate::handing::{hand_waiting, last_ahead};
use crate::prepared_reply::PreparedReply;
use crate::questions::{Question, QuestionState, Questions};
use crate::senders::{HasAddress, Senders};
use crate::sending::{report_reset, report_sets, send_answer, send_asked, send_ends, send_error};
use crate::session::{Phase, Session};
use crate::set_count::{Counts, new_counts};
use cip_owner::{OwnRequest, QUEUE_LIMIT, Queue};
use enip_adapter::{Adapter, Endings, Peer};
use enip_owner::{HandOver, LineBuffer, LineOutcome, is_token};
use enip_server::{Gate, GatedWire, Peers, Watcher, Wire};
use json::Scratch;
use std::alloc::{AllocError, Global};
use std::net::IpAddr;

/// The port of a device's owner: the session that there is, and what outlives it. The largest buffers, for 256 KiB of
/// output and a line of 64 KiB, are allocated in `new`.
///
/// A program that serves the device passes it to each round as the watcher, so that it sees each frame.
///
/// ```
/// let mut port = OwnerPort::new(alloc, table, None, 1_000_000, peers.adapter())?;
/// port.begin(peers.adapter()); // an owner has connected: `port.pending()` is the first line
/// let rest = port.feed(b"{\"state\":3}\n", &mut peers);
/// port.pending() // .. {"ok":1}
/// ```
pub struct OwnerPort {
    alloc: Global,
    table: DeviceTable,
    token: Option<Vec<u8>>,
    /// How many sets of each attribute that peers can set were reported, and how many resets.
    counts: Counts,
    senders: Senders,
    /// The memory for the tickets of the commands that wait.
    tickets: Vec<u32>,
    hand_over: HandOver,
    endings: Endings,
    lines: LineBuffer,
    scratch: Scratch,
    session: Session,
    /// The requests that wait for the owner's answer.
    questions: Questions,
}

// Written out, so that each exit of a function that owns one calls it, and has no drop of every part.
impl Drop for OwnerPort {
    fn drop(self) {
        let OwnerPort {
            alloc: _,
            table: _,
            token: _,
            counts: _,
            senders: _,
            tickets: _,
            hand_over: _,
            endings: _,
            lines: _,
            scratch: _,
            session: _,
            questions: _,
        } = self;
    }
}

impl OwnerPort {
    /// A port without a session. If there is a token, each owner has to send it as its first line. An owner that is asked
    /// has `owner_timeout` microseconds for its answer.
    ///
    /// # Errors
    ///
    /// `AllocError` if memory is refused.
    pub fn new(
        alloc: Global,
        table: DeviceTable,
        token: Option<Vec<u8>>,
        owner_timeout: u64,
        adapter: &Adapter,
    ) -> Result<OwnerPort, AllocError>
        ensures { IfOk result (IsNewPort table owner_timeout adapter.now) }
    {
        let queue = adapter.queue();
        let counts = Counts {
            sets: new_counts(alloc, table.settable.as_slice(), adapter)?,
            resets: adapter.resets(),
        };
        let senders = Senders::new(alloc, usize::from(QUEUE_LIMIT), queue)?;
        let hand_over = HandOver::restarted(table.ahead, handed_in(queue));
        let lines = LineBuffer::new(alloc)?;
        let session = Session::new(alloc)?;
        let questions = Questions::new(alloc, owner_timeout)?;
        Ok(OwnerPort {
            alloc,
            table,
            token,
            counts,
            senders,
            tickets: Vec::with_capacity(alloc, usize::from(QUEUE_LIMIT))?,
            hand_over,
            endings: Endings::new(),
            lines,
            scratch: Scratch::new(alloc),
            session,
            questions,
        })
    }

    /// Whether there is a session: the connection of an owner that has not ended.
    pub fn has_session(&self) -> bool
        ensures { result ≡ has_session self.now.session.phase }
    {
        match self.session.phase {
            Phase::Absent => false,
            Phase::AwaitsToken | Phase::Open | Phase::Over(_) => true,
        }
    }

    /// Whether the owner has not sent its first line, the token.
    pub fn awaits_token(&self) -> bool
        ensures { result ≡ awaits_token self.now.session.phase }
    {
        match self.session.phase {
            Phase::AwaitsToken => true,
            Phase::Absent | Phase::Open | Phase::Over(_) => false,
        }
    }

    /// Why the session is over, if it is: close the connection, and call `end`. What is pending may be written before.
    pub fn ending(&self) -> Option<SessionEnd>
        ensures { result ≡ end_of self.now.session.phase }
    {
        self.session.ending()
    }

    /// Whether the session is over.
    pub fn is_over(&self) -> bool
        ensures { result ≡ is_some (end_of self.now.session.phase) }
    {
        self.session.ending().is_some()
    }

    /// Whether `feed` takes bytes now. If not, the owner has to read first.
    pub fn can_feed(&self) -> bool
        ensures { result ≡ can_feed self.now.session }
    {
        self.session.can_feed()
    }

    /// The bytes to write to the owner.
    pub fn pending(&self) -> &[u8]
        ensures { result.now ≡ self.now.session.output }
    {
        self.session.output.as_slice()
    }

    /// So many of the pending bytes were written.
    pub fn written(&mut self, size: usize)
        ensures { self.new ≡ with_output (drop size self.old.session.output) self.old }
    {
        self.session.output.drop_front(size);
    }

    /// Marks the commands that the owner may have in hand as handed over, before it hears of them: of those that wait the
    /// first `ahead`. A mark is the device's own write. Nothing is marked while no session is open.
    ///
    /// If the state of the device is kept, call it in each round before the frames of the peers, and `hand_over` when the round
    /// is kept: the line of a command then leaves after its mark is kept. If not, call it after the round.
    pub fn mark<W: Wire + Drop>(&self, peers: &mut Peers<W>)
        ensures marked { state_of peers.new
            ≡ after_mark (mark_of self.now (state_of peers.old).adapter) (state_of peers.old) }
        ensures writes { IsWritten (state_of peers.old) (state_of peers.new) }
        ensures seen { HasSeen self.now (state_of peers.old).adapter.state.shared.objects →
            HasSeen self.now (state_of peers.new).adapter.state.shared.objects }
    {
        if let Some(ticket) = self.next_mark(peers.adapter()) {
            peers.mark(ticket);
        }
    }

    /// Whether `mark` would mark a command that is not marked: a round is due now.
    pub fn has_unmarked(&self, adapter: &Adapter) -> bool
        ensures { result ≡ is_above (handed_of (queue_in adapter.now)) (mark_of self.now adapter.now) }
    {
        match self.next_mark(adapter) {
            Some(ticket) => ticket > handed_in(adapter.queue()),
            None => false,
        }
    }

    /// The ticket of the last command that the owner may have in hand now.
    fn next_mark(&self, adapter: &Adapter) -> Option<u32>
        ensures { result ≡ mark_of self.now adapter.now }
    {
        if !self.session.is_open() {
            return None;
        }
        match adapter.queue() {
            Some(queue) => last_ahead(self.table.ahead, queue),
            None => None,
        }
    }

    /// An owner has connected. Its session begins: with `hello`, or with the token if there is one. It is handed the
    /// commands that wait from the first one on, those that an earlier owner was handed as well.
    pub fn begin(&mut self, adapter: &Adapter)
        ensures begun { IsBegun adapter.now self.old self.new }
        ensures seen { (device : Device) → HasSeen self.old device → HasSeen self.new device }
    {
        self.lines.clear();
        self.hand_over.begin_session();
        self.endings.update(adapter);
        self.questions.begin_session();
        self.session.begin(self.token.is_some());
        send_hello(self.alloc, &mut self.table, adapter, &mut self.session);
    }

    /// The connection of the owner has ended, or it is closed. Nobody answers the questions that are open.
    pub fn end(&mut self)
        ensures questions { self.new.questions.list.items ≡ map failed self.old.questions.list.items }
        ensures same { self.new ≡ record (with_session no_session self.old) {
          questions = with_list self.new.questions.list self.old.questions;
        } }
    {
        self.session.end();
        self.questions.end_session();
    }

    /// Takes bytes of the owner up to the end of one line, executes the line, and queues its answer. Returns the bytes
    /// that are left. If `can_feed` is false, no byte is taken. All that a line changes of the peers is the device's own
    /// writes.
    pub fn feed<'a, W: Wire + Drop>(&mut self, bytes: &'a [u8], peers: &mut Peers<W>) -> &'a [u8]
        ensures fed { IsPortFed self.old bytes.now (state_of peers.old) result.now self.new (state_of peers.new) }
        ensures writes { IsWritten (state_of peers.old) (state_of peers.new) }
        ensures seen { HasSeen self.old (state_of peers.old).adapter.state.shared.objects →
            HasSeen self.new (state_of peers.new).adapter.state.shared.objects }
    {
        if !self.session.can_feed() {
            return bytes;
        }
        let fed = self.lines.feed(bytes);
        self.take_end(fed.0, peers);
        fed.1
    }

    /// Takes the end of a line of the owner, if one has ended.
    fn take_end<W: Wire + Drop>(&mut self, outcome: LineOutcome, peers: &mut Peers<W>)
        ensures taken { IsEndTaken outcome self.old (state_of peers.old) self.new (state_of peers.new) }
        ensures rest { SameRest self.old self.new }
        ensures lines { self.new.lines ≡ self.old.lines }
    {
        match outcome {
            LineOutcome::Unfinished => {}
            LineOutcome::Whole => self.take_line(peers),
            LineOutcome::TooLong => refuse_long(self.alloc, &mut self.session),
        }
    }

    /// Takes a line of the owner: the token, or a request.
    fn take_line<W: Wire + Drop>(&mut self, peers: &mut Peers<W>)
        ensures taken { IsLineTaken self.old (state_of peers.old) self.new (state_of peers.new) }
        ensures rest { SameRest self.old self.new }
        ensures lines { self.new.lines ≡ self.old.lines }
    {
        if self.awaits_token() {
            self.take_token(peers.adapter());
        } else {
            self.answer_line(peers);
        }
    }

    /// Takes the first line of the owner, which has to be the token.
    fn take_token(&mut self, adapter: &Adapter)
        ensures taken { IsFirstLineTaken self.old.table (life_in adapter.now) self.old.token self.old.lines.text
            self.old.session self.new.session }
        ensures rest { SameRest self.old self.new }
        ensures lines { self.new.lines ≡ self.old.lines }
        ensures questions { self.new.questions ≡ self.old.questions }
    {
        if is_right(&self.token, self.lines.line()) {
            accept_token(self.alloc, &mut self.table, adapter, &mut self.session);
        } else {
            refuse_token(self.alloc, &mut self.session);
        }
    }

    /// Executes a line of the owner, and queues its answer.
    fn answer_line<W: Wire + Drop>(&mut self, peers: &mut Peers<W>)
        ensures answered { IsRequestTaken self.old (state_of peers.old) self.new (state_of peers.new) }
        ensures rest { SameRest self.old self.new }
        ensures lines { self.new.lines ≡ self.old.lines }
    {
        self.session.count_line();
        let answer = answer_to(
            self.alloc,
            self.table.types.as_slice(),
            self.lines.line(),
            &mut self.scratch,
            &mut self.questions,
            peers,
        );
        forget_finished(&mut self.senders, answer);
        send_answer(
            self.alloc,
            self.table.types.as_slice(),
            peers.adapter(),
            answer,
            &mut self.session,
        );
    }

    /// Reports what a frame of the peer at this address has changed: each set of an attribute that peers can set, a Reset of
    /// the device, and the commands that were put into the queue. As the watcher of a round, the port calls this itself.
    pub fn see_frame(&mut self, by: IpAddr, adapter: &Adapter)
        ensures frame { IsFrameSeen by adapter.now self.old self.new }
        ensures seen { HasSeen self.new adapter.now.state.shared.objects }
    {
        report_sets(
            self.alloc,
            self.table.types.as_slice(),
            adapter,
            by,
            self.counts.sets.as_mut_slice(),
            &mut self.session,
        );
        report_reset(
            self.alloc,
            adapter,
            by,
            &mut self.counts.resets,
            &mut self.session,
        );
        self.senders.note(by, adapter.queue());
        hand_queue(
            self.alloc,
            adapter.queue(),
            &self.senders,
            &mut self.tickets,
            &mut self.hand_over,
            &mut self.session,
        );
    }

    /// Reports the connections that ended since the last call, and queues the commands that are marked and were not
    /// handed over in this session, in their order, as far as they fit and the owner may have more in hand. Call it after
    /// each round.
    ///
    /// If there is no session, or its token has not come, nothing is reported of what happens.
    pub fn hand_over(&mut self, adapter: &Adapter)
        ensures handed { IsHandedOver adapter.now self.old self.new }
        ensures seen { (device : Device) → HasSeen self.old device → HasSeen self.new device }
    {
        self.endings.update(adapter);
        send_ends(self.alloc, self.endings.ended(), &mut self.session);
        hand_queue(
            self.alloc,
            adapter.queue(),
            &self.senders,
            &mut self.tickets,
            &mut self.hand_over,
            &mut self.session,
        );
    }
}

/// Questions to the owner while a peer waits.
impl OwnerPort {
    ghost use Rattle.std.specs.Prelude.{None};
    ghost use Rattle.std.specs.List.{list_any};
    ghost use Rattle.cip_objects.specs.OwnRequests.{asked_in};
    ghost use Rattle.enip_server.specs.Rounds.{is_ready};
    ghost use Rattle.owner_port.specs.Asking.{IsPass, IsRequestShown, IsEntered, IsNewQuestion};
    ghost use Rattle.owner_port.specs.Questions.{earliest_in, expired, is_settled, taken_reply};

    /// It is too late for an answer to the open questions whose time is over at the time `now`.
    pub fn expire(&mut self, now: u64)
        ensures list { self.new.questions.list.items ≡ map (expired now) self.old.questions.list.items }
        ensures same { self.new ≡ record self.old { questions = with_list self.new.questions.list self.old.questions } }
        ensures seen { (device : Device) → HasSeen self.old device → HasSeen self.new device }
    {
        self.questions.expire(now);
    }

    /// Asks the owner what the frames that wait ask of it, after a round at the time `now`, and admits the first one whose
    /// answer has come, or comes no more. What asks nothing is admitted at once. In the next round `take_reply` is the
    /// owner of the device.
    ///
    /// Returns whether a wire may be ready now, as `Peers::admit_frames` does.
    pub fn admit_frames<W: GatedWire + HasAddress + Drop>(
        &mut self,
        now: u64,
        peers: &mut Peers<W>,
    ) -> bool
        ensures pass { IsPass W.waiting W.admitted W.address_of now self.old (state_of peers.old) self.new
            (state_of peers.new) }
        ensures ready { result ≡ list_any is_ready (state_of peers.new).slots }
        ensures seen { (device : Device) → HasSeen self.old device → HasSeen self.new device }
    {
        self.questions.begin_pass(now);
        let ready = peers.admit_frames(now, self);
        self.questions.end_pass();
        ready
    }

    /// Whether it is settled what a request that waits is answered: a round is due now, after which `admit_frames` admits
    /// it.
    pub fn has_settled(&self) -> bool
        ensures { result ≡ list_any is_settled self.now.questions.list.items }
    {
        self.questions.has_settled()
    }

    /// The owner of the device in the next round: it gives the reply to the request that was admitted.
    pub fn take_reply(&mut self) -> PreparedReply
        ensures reply { result ≡ taken_reply self.old.questions }
        ensures same { self.new ≡ record self.old { questions = record self.old.questions { prepared = None } } }
        ensures seen { (device : Device) → HasSeen self.old device → HasSeen self.new device }
    {
        self.questions.take_reply()
    }

    /// When it is too late for an answer to the first open question.
    pub fn next_deadline(&self) -> Option<u64>
        ensures { result ≡ earliest_in self.now.questions.list.items }
    {
        self.questions.next_deadline()
    }

    /// The frame of this peer asks this of the owner. Returns whether it is served in the next round.
    fn show_request(
        &mut self,
        peer: u32,
        by: IpAddr,
        request: &OwnRequest<'_>,
        is_numbered: bool,
    ) -> bool
        ensures { IsRequestShown peer by (asked_in request.now) is_numbered self.old result self.new }
    {
        if !self.questions.show(peer) {
            self.enter(peer, by, request, is_numbered);
        }
        self.questions.admit(peer)
    }

    /// A request begins to wait. The owner is asked, unless a numbered command embeds the request, there is no owner, or
    /// the line may not fit. Then it is settled that nobody answers.
    fn enter(&mut self, peer: u32, by: IpAddr, request: &OwnRequest<'_>, is_numbered: bool)
        ensures { IsEntered peer by (asked_in request.now) is_numbered self.old self.new }
    {
        if is_numbered || !self.session.has_space() || self.questions.next == u32::MAX {
            self.questions.add(unanswered(peer));
            return;
        }
        match AskedRequest::copy_of(self.alloc, request) {
            Ok(copy) => self.ask(peer, by, request, copy),
            Err(_) => {
                self.session.finish(SessionEnd::Memory);
                self.questions.add(unanswered(peer));
            }
        }
    }

    /// Asks the owner.
    fn ask(&mut self, peer: u32, by: IpAddr, request: &OwnRequest<'_>, copy: AskedRequest)
        requires { self.old.questions.next < 2 ^ 32 - 1 }
        ensures { IsNewQuestion peer by (asked_in request.now) copy self.old self.new }
    {
        let number = self.questions.next;
        let types = self.table.types.as_slice();
        send_asked(self.alloc, types, by, number, request, &mut self.session);
        let question = Question {
            peer,
            number,
            deadline: self.questions.deadline(),
            request: Some(copy),
            state: QuestionState::Open,
            is_shown: true,
        };
        self.questions.next = number + 1;
        if !self.questions.add(question) {
            self.session.finish(SessionEnd::Memory);
        }
    }
}

/// A request of a peer that nobody answers.
fn unanswered(peer: u32) -> Question
    ensures { result ≡ unanswered peer }
{
    Question {
        peer,
        number: 0,
        deadline: 0,
        request: None,
        state: QuestionState::Failed,
        is_shown: true,
    }
}

impl<W: HasAddress> Gate<W> for OwnerPort {
    ghost use Rattle.owner_port.specs.Asking.{IsRequestShown};

    ghost shows = { λ port peer wire asked numbered admitted after.
        IsRequestShown peer (W.address_of wire) asked numbered port admitted after };

    fn admits(
        &mut self,
        peer: Peer,
        wire: &W,
        request: &OwnRequest<'_>,
        is_numbered: bool,
    ) -> bool {
        self.show_request(peer.handle(), wire.address(), request, is_numbered)
    }
}

impl<W: HasAddress> Watcher<W> for OwnerPort {
    ghost use Rattle.owner_port.specs.Ports.{HasSeen};

    ghost has_seen = { λ port device. HasSeen port device };

    fn served(&mut self, wire: &W, adapter: &Adapter) {
        self.see_frame(wire.address(), adapter);
    }
}

/// The greatest ticket that was handed over, or 0.
fn handed_in(queue: Option<&Queue>) -> u32
    ensures { result ≡ handed_of (option_map (λ q. q.now) queue.entry) }
{
    match queue {
        Some(queue) => queue.handed(),
        None => 0,
    }
}

/// Forgets who sent a command that is done.
fn forget_finished(senders: &mut Senders, answer: Answer)
    ensures next { senders.new.next ≡ senders.old.next }
    ensures known { senders.new.known.items ≡ senders_after answer senders.old.known.items }
{
    match answer {
        Answer::Finished(ticket) => senders.forget(ticket),
        Answer::Done | Answer::Value(_) | Answer::Refused(_) => {}
    }
}

/// Queues the first line of the device, if the session is open.
fn send_hello(alloc: Global, table: &mut DeviceTable, adapter: &Adapter, session: &mut Session)
    ensures sent { IsHelloSent table.old (life_in adapter.now) session.old session.new }
    ensures types { table.new.types ≡ table.old.types }
{
    if session.is_open() {
        let line = table.hello(alloc, adapter);
        session.send(line);
    }
}

/// Whether a line is the token, if there is one.
fn is_right(token: &Option<Vec<u8>>, line: &[u8]) -> bool
    ensures { IsRight token.now line.now result }
{
    match token {
        Some(token) => is_token(line, token.as_slice()),
        None => true,
    }
}

/// The owner has sent the token: the session is open.
fn accept_token(alloc: Global, table: &mut DeviceTable, adapter: &Adapter, session: &mut Session)
    ensures sent { IsHelloSent table.old (life_in adapter.now) (opened session.old) session.new }
    ensures types { table.new.types ≡ table.old.types }
{
    session.accept();
    send_hello(alloc, table, adapter, session);
}

/// The owner has not sent the token: the session is over.
fn refuse_token(alloc: Global, session: &mut Session)
    ensures { IsTokenRefused session.old session.new }
{
    session.accept();
    send_error(alloc, LineFault::Token, session);
    session.finish(SessionEnd::Token);
}

/// Refuses a line of more than 64 KiB.
fn refuse_long(alloc: Global, session: &mut Session)
    ensures { IsLongLineRefused session.old session.new }
{
    match session.phase {
        Phase::AwaitsToken => refuse_token(alloc, session),
        Phase::Absent | Phase::Open | Phase::Over(_) => {
            session.count_line();
            send_error(alloc, LineFault::TooLong, session);
        }
    }
}

/// Queues the commands that wait in the queue, if there is one.
fn hand_queue(
    alloc: Global,
    queue: Option<&Queue>,
    senders: &Senders,
    tickets: &mut Vec<u32>,
    hand_over: &mut HandOver,
    session: &mut Session,
)
    ensures { IsQueueHanded (option_map (λ q. q.now) queue.entry) senders.now.known.items hand_over.old session.old
        hand_over.new session.new }
{
    if let Some(queue) = queue {
        hand_waiting(alloc, queue, senders, tickets, hand_over, session);
    }
}
