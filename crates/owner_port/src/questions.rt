//! The requests that wait for the owner's answer.

ghost use Rattle.std.specs.Prelude.{◌≡◌, ◌<◌, IfOk, IfSome, length, map, filter, None};
ghost use Rattle.std.specs.List.{list_any, position};
ghost use Rattle.owner_port.specs.Questions.{IsAdded, IsNoQuestions, IsAdmitted, answered_in, fault_in, expired, failed, hidden};
ghost use Rattle.owner_port.specs.Questions.{is_question, is_settled, is_open_state, is_of, shown_by, earliest_in, earlier_by};
ghost use Rattle.owner_port.specs.Questions.{reply_of_question, limit_of, unfit_fault, settled_by, with_list, IsPassBegun, IsPassEnded, taken_reply, deadline_after};

use crate::asked_request::AskedRequest;
use crate::fault::LineFault;
use crate::prepared_reply::{PreparedReply, ReplyTo};
use cip_objects::GeneralStatus;
use cip_owner::OwnerReply;
use std::alloc::{AllocError, Global};

/// How many peers can wait. A device has at most 64.
const MOST_WAITING: usize = 64;

/// What becomes of a request.
#[derive(Drop)]
pub(crate) enum QuestionState {
    /// The owner was asked, and has time to answer.
    Open,
    /// The owner has answered.
    Answered(OwnerReply),
    /// The owner gives no answer: there is none, it was too late, or it was not asked.
    Failed,
}

impl QuestionState {
    /// Whether the owner has time to answer.
    fn is_open(&self) -> bool
        ensures { result ≡ is_open_state self.now }
    {
        match self {
            QuestionState::Open => true,
            QuestionState::Answered(_) | QuestionState::Failed => false,
        }
    }
}

/// A request of a peer that waits.
#[derive(Drop)]
pub(crate) struct Question {
    /// The session handle of the peer. A peer waits with one request at most.
    pub(crate) peer: u32,
    /// The number by which the owner answers, or 0 if it was not asked.
    pub(crate) number: u32,
    /// When it is too late for an answer.
    pub(crate) deadline: u64,
    /// The request, if the owner was asked.
    pub(crate) request: Option<AskedRequest>,
    pub(crate) state: QuestionState,
    /// Whether the request still waits: it was shown in this pass over the frames that wait.
    pub(crate) is_shown: bool,
}

impl Question {
    /// Whether it is settled what the request is answered.
    fn is_settled(&self) -> bool
        ensures { result ≡ is_settled self.now }
    {
        !self.state.is_open()
    }

    /// Whether this is the open question with this number.
    fn is_question(&self, number: u32) -> bool
        ensures { result ≡ is_question number self.now }
    {
        self.state.is_open() && self.number == number
    }

    /// The most bytes of a reply's data.
    fn limit(&self) -> u16
        ensures { result ≡ limit_of self.now.request }
    {
        match &self.request {
            Some(request) => request.reply_limit,
            None => 0,
        }
    }
}

/// The requests that wait, in the order in which they came, and the reply that the next round gives.
#[derive(Drop)]
pub(crate) struct Questions {
    /// How long the owner has for an answer, in microseconds.
    pub(crate) timeout: u64,
    /// The number of the next question in this session.
    pub(crate) next: u32,
    pub(crate) list: Vec<Question>,
    /// The time of the last pass over the frames that wait.
    pub(crate) time: u64,
    /// Whether a frame was admitted in this pass.
    pub(crate) is_taken: bool,
    pub(crate) prepared: Option<ReplyTo>,
}

impl Questions {
    /// No request waits.
    pub(crate) fn new(alloc: Global, timeout: u64) -> Result<Questions, AllocError>
        ensures { IfOk result (IsNoQuestions timeout) }
    {
        Ok(Questions {
            timeout,
            next: 1,
            list: Vec::with_capacity(alloc, MOST_WAITING)?,
            time: 0,
            is_taken: false,
            prepared: None,
        })
    }

    /// A session begins: its first question has number 1.
    pub(crate) fn begin_session(&mut self)
        ensures { self.new ≡ record self.old { next = 1 } }
    {
        self.next = 1;
    }

    /// The session has ended: nobody answers what is open.
    pub(crate) fn end_session(&mut self)
        ensures list { self.new.list.items ≡ map failed self.old.list.items }
        ensures same { self.new ≡ with_list self.new.list self.old }
    {
        fail_all(self.list.as_mut_slice());
    }

    /// It is too late for an answer to the open questions whose time is over.
    pub(crate) fn expire(&mut self, now: u64)
        ensures list { self.new.list.items ≡ map (expired now) self.old.list.items }
        ensures same { self.new ≡ with_list self.new.list self.old }
    {
        expire_all(self.list.as_mut_slice(), now);
    }

    /// Begins a pass over the frames that wait.
    pub(crate) fn begin_pass(&mut self, now: u64)
        ensures { IsPassBegun now self.old self.new }
    {
        self.time = now;
        self.is_taken = false;
        hide_all(self.list.as_mut_slice());
    }

    /// Ends a pass over the frames that wait: a request that was not shown does not wait any longer.
    pub(crate) fn end_pass(&mut self)
        ensures { IsPassEnded self.old self.new }
    {
        retain_shown(&mut self.list);
    }

    /// The request of this peer waits. Returns whether it waited before.
    pub(crate) fn show(&mut self, peer: u32) -> bool
        ensures list { self.new.list.items ≡ map (shown_by peer) self.old.list.items }
        ensures same { self.new ≡ with_list self.new.list self.old }
        ensures known { result ≡ list_any (is_of peer) self.old.list.items }
    {
        show_in(self.list.as_mut_slice(), peer)
    }

    /// When it is too late for an answer to a question that is asked now.
    pub(crate) fn deadline(&self) -> u64
        ensures { result ≡ deadline_after self.now.time self.now.timeout }
    {
        self.time.saturating_add(self.timeout)
    }

    /// Adds a request that waits. Returns whether there is memory for it.
    pub(crate) fn add(&mut self, question: Question) -> bool
        ensures added { IsAdded question result self.old.list.items self.new.list.items }
        ensures same { self.new ≡ with_list self.new.list self.old }
    {
        self.list.push(question).is_ok()
    }

    /// The owner has answered the question with this number. Returns why that is refused, if it is.
    pub(crate) fn answer(&mut self, number: u32, reply: OwnerReply) -> Option<LineFault>
        ensures list { self.new.list.items ≡ answered_in number reply self.old.list.items }
        ensures same { self.new ≡ with_list self.new.list self.old }
        ensures fault { result ≡ fault_in number reply self.old.list.items }
    {
        answer_in(self.list.as_mut_slice(), number, reply)
    }

    /// Whether the request of this peer is served in the next round: it is the first one that is settled, and no other was
    /// admitted in this pass. Then it waits no longer, and its reply, if there is one, is prepared.
    pub(crate) fn admit(&mut self, peer: u32) -> bool
        ensures { IsAdmitted peer self.old result self.new }
    {
        let Some(index) = first_settled(self.list.as_slice()) else {
            return false;
        };
        if self.is_taken || self.list[index].peer != peer {
            return false;
        }
        let question = self.list.remove(index);
        self.is_taken = true;
        self.prepared = reply_of(question);
        true
    }

    /// The reply that is prepared for the next round. After it none is.
    pub(crate) fn take_reply(&mut self) -> PreparedReply
        ensures reply { result ≡ taken_reply self.old }
        ensures same { self.new ≡ record self.old { prepared = None } }
    {
        PreparedReply {
            prepared: self.prepared.take(),
        }
    }

    /// Whether it is settled what a request is answered.
    pub(crate) fn has_settled(&self) -> bool
        ensures { result ≡ list_any is_settled self.now.list.items }
    {
        self.list.iter().any(|question| question.is_settled())
    }

    /// When the first open question is over.
    pub(crate) fn next_deadline(&self) -> Option<u64>
        ensures { result ≡ earliest_in self.now.list.items }
    {
        earliest_in(self.list.as_slice())
    }
}

/// Nobody answers these questions.
fn fail_all(list: &mut [Question])
    ensures { list.new ≡ map failed list.old }
{
    let Some((question, others)) = list.split_first_mut() else {
        return;
    };
    fail(question);
    fail_all(others);
}

/// Nobody answers a question that is open.
fn fail(question: &mut Question)
    ensures { question.new ≡ failed question.old }
{
    if question.state.is_open() {
        question.state = QuestionState::Failed;
    }
}

/// Nobody answers those of these questions whose time is over.
fn expire_all(list: &mut [Question], now: u64)
    ensures { list.new ≡ map (expired now) list.old }
{
    let Some((question, others)) = list.split_first_mut() else {
        return;
    };
    expire(question, now);
    expire_all(others, now);
}

/// Nobody answers a question whose time is over.
fn expire(question: &mut Question, now: u64)
    ensures { question.new ≡ expired now question.old }
{
    if question.deadline <= now {
        fail(question);
    }
}

/// None of these requests was shown in this pass.
fn hide_all(list: &mut [Question])
    ensures { list.new ≡ map hidden list.old }
{
    let Some((question, others)) = list.split_first_mut() else {
        return;
    };
    question.is_shown = false;
    hide_all(others);
}

/// Leaves those that were shown.
fn retain_shown(list: &mut Vec<Question>)
    ensures { list.new.items ≡ filter (λ (q : Question). q.is_shown) list.old.items }
{
    list.retain(|question| question.is_shown);
}

/// The request of this peer was shown. Returns whether it is among these.
fn show_in(list: &mut [Question], peer: u32) -> bool
    ensures list { list.new ≡ map (shown_by peer) list.old }
    ensures known { result ≡ list_any (is_of peer) list.old }
{
    let Some((question, others)) = list.split_first_mut() else {
        return false;
    };
    let is_known = show(question, peer);
    show_in(others, peer) || is_known
}

/// The request of this peer was shown, if this is it.
fn show(question: &mut Question, peer: u32) -> bool
    ensures shown { question.new ≡ shown_by peer question.old }
    ensures known { result ≡ is_of peer question.old }
{
    if question.peer == peer {
        question.is_shown = true;
        return true;
    }
    false
}

/// The owner has answered the question with this number among these.
fn answer_in(list: &mut [Question], number: u32, reply: OwnerReply) -> Option<LineFault>
    ensures list { list.new ≡ answered_in number reply list.old }
    ensures fault { result ≡ fault_in number reply list.old }
{
    let Some((question, others)) = list.split_first_mut() else {
        return Some(LineFault::NoQuestion(number));
    };
    if question.is_question(number) {
        return settle(question, reply);
    }
    answer_in(others, number, reply)
}

/// The owner has answered a question.
fn settle(question: &mut Question, reply: OwnerReply) -> Option<LineFault>
    ensures settled { question.new ≡ settled_by reply question.old }
    ensures fault { result ≡ unfit_fault (limit_of question.old.request) reply }
{
    if let Some(fault) = unfit_fault(question.limit(), &reply) {
        return Some(fault);
    }
    question.state = QuestionState::Answered(reply);
    None
}

/// Why a reply cannot be given to a request whose reply may have so many bytes of data.
fn unfit_fault(limit: u16, reply: &OwnerReply) -> Option<LineFault>
    ensures { result ≡ unfit_fault limit reply.now }
{
    if reply.status() == GeneralStatus::ReplyDataTooLarge.number() {
        return Some(LineFault::ReservedStatus);
    }
    if reply.data().len() > usize::from(limit) {
        return Some(LineFault::LongReply);
    }
    None
}

/// The index of the first request of these that is settled.
fn first_settled(list: &[Question]) -> Option<usize>
    ensures first { result ≡ position is_settled list.now }
    ensures within { IfSome result (λ index. index < length list.now) }
{
    list.iter().position(|question| question.is_settled())
}

/// The reply to a request that is admitted, if there is one.
fn reply_of(question: Question) -> Option<ReplyTo>
    ensures { result ≡ reply_of_question question }
{
    match (question.request, question.state) {
        (Some(request), QuestionState::Answered(reply)) => Some(ReplyTo { request, reply }),
        _ => None,
    }
}

/// When the first open question of these is over.
fn earliest_in(list: &[Question]) -> Option<u64>
    ensures { result ≡ earliest_in list.now }
{
    let Some((question, others)) = list.split_first() else {
        return None;
    };
    let later = earliest_in(others);
    if question.state.is_open() {
        return Some(earlier_by(question.deadline, later));
    }
    later
}

/// The earlier one of two times, the second of which there may be.
fn earlier_by(one: u64, other: Option<u64>) -> u64
    ensures { result ≡ earlier_by one other }
{
    match other {
        Some(other) => one.min(other),
        None => one,
    }
}
