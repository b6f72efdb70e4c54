//! What a ledger is asked, request by request: all of its slots, or to free one.

use cip_commander::{
    CommandState, LedgerSlot, SlotList, SlotRequest, SlotsFault, WithdrawRequest,
    WithdrawalOutcome, forget_request, last_request, read_forgotten, read_last, read_withdrawal,
    slots_request, withdraw_request,
};
use cip_message::MOST_ORIGINATORS;
use enip_commands::{LIFE_REQUEST, LifeFault, read_life};
use std::alloc::Global;

/// The most slots of a ledger.
const MOST_SLOTS: usize = MOST_ORIGINATORS as usize;

/// The general status of Get_Last if the originator has no slot (ours).
const NO_SLOT: u8 = 0x16;

/// The general status of Withdraw if the device is in another life than before (ours).
const OTHER_LIFE: u8 = 0x10;

/// The general status of Withdraw if the device is older than the service. (Volume 1, general status codes.)
const NO_SERVICE: u8 = 0x08;

/// Why a job fails.
#[derive(Clone, Copy)]
pub(crate) enum JobFault {
    /// By a reply.
    Reply(SlotsFault),
    Memory,
}

impl From<SlotsFault> for JobFault {
    fn from(fault: SlotsFault) -> JobFault {
        JobFault::Reply(fault)
    }
}

/// A request to a ledger.
#[derive(Drop)]
pub(crate) enum JobRequest {
    Slot(SlotRequest),
    Life,
    Withdraw(WithdrawRequest),
}

impl JobRequest {
    /// Its bytes.
    pub(crate) fn as_slice(&self) -> &[u8] {
        match self {
            JobRequest::Slot(request) => request.as_slice(),
            JobRequest::Life => LIFE_REQUEST.as_slice(),
            JobRequest::Withdraw(request) => request.as_slice(),
        }
    }
}

/// Requests to a ledger, each one after the reply to the one before.
pub(crate) trait LedgerJob {
    /// The next request. `None` if there is none.
    fn request(&self) -> Option<JobRequest>;

    /// Takes the reply to it.
    fn take_reply(&mut self, reply: &[u8]);
}

/// Reads the slots of a ledger.
#[derive(Drop)]
pub(crate) struct Listing {
    slots: Vec<LedgerSlot>,
    /// How many slots are taken, by the last reply.
    taken: u16,
    is_over: bool,
    fault: Option<JobFault>,
}

impl Listing {
    pub(crate) fn new(alloc: Global) -> Listing {
        Listing {
            slots: Vec::new(alloc),
            taken: 0,
            is_over: false,
            fault: None,
        }
    }

    /// The slots that were read.
    pub(crate) fn slots(&self) -> &[LedgerSlot] {
        self.slots.as_slice()
    }

    /// How many slots are taken, by the last reply.
    pub(crate) fn taken(&self) -> u16 {
        self.taken
    }

    /// Why a reply has no slots, if one has none.
    pub(crate) fn fault(&self) -> Option<JobFault> {
        self.fault
    }

    /// Takes a reply. Each one that is not the last has a slot at least, so there are at most as many as slots.
    fn take(&mut self, reply: &[u8]) -> Result<(), JobFault> {
        let list = SlotList::read(reply)?;
        self.taken = list.taken();
        let left = usize::from(self.taken).saturating_sub(self.slots.len());
        let count = list.count();
        if count > left || (count == 0 && left > 0) {
            return Err(JobFault::Reply(SlotsFault::Malformed));
        }
        self.is_over = count == left;
        for index in 0..count {
            let slot = list.slot(index).ok_or(SlotsFault::Malformed)?;
            if self.slots.len() == MOST_SLOTS {
                return Err(JobFault::Reply(SlotsFault::Malformed));
            }
            if self.slots.push(slot).is_err() {
                return Err(JobFault::Memory);
            }
        }
        Ok(())
    }
}

impl LedgerJob for Listing {
    fn request(&self) -> Option<JobRequest> {
        if self.is_over {
            return None;
        }
        let first = u16::try_from(self.slots.len()).unwrap_or(u16::MAX);
        Some(JobRequest::Slot(slots_request(first)))
    }

    fn take_reply(&mut self, reply: &[u8]) {
        if let Err(fault) = self.take(reply) {
            self.fault = Some(fault);
            self.is_over = true;
        }
    }
}

/// How far the freeing of a slot is.
#[derive(Clone, Copy)]
enum FreeingStep {
    /// Get_Last comes next.
    Read,
    /// The command is pending. The life of the device comes next, and then Withdraw in this life.
    ReadLife,
    Withdraw(u64),
    /// Forget comes next. If it frees the slot, the last command has this state.
    Free(CommandState),
    /// The slot with a command of this state was freed. `None` if there was none.
    Freed(Option<CommandState>),
    Failed(SlotsFault),
}

/// Frees the slot of an originator. A pending command is withdrawn before, so that it is known how it ended.
#[derive(Clone, Copy)]
pub(crate) struct Freeing {
    originator: u64,
    number: u32,
    step: FreeingStep,
}

impl Freeing {
    /// Frees the slot of an originator whose last command has this number.
    pub(crate) fn new(originator: u64, number: u32) -> Freeing {
        Freeing {
            originator,
            number,
            step: FreeingStep::Read,
        }
    }

    /// The slot that was freed. `None` if the originator had none.
    pub(crate) fn freed(&self) -> Option<LedgerSlot> {
        match self.step {
            FreeingStep::Freed(Some(state)) => Some(LedgerSlot {
                originator: self.originator,
                number: self.number,
                state,
            }),
            _ => None,
        }
    }

    /// What comes after the reply to Get_Last. If the last command has another number, the device refuses Forget.
    fn after_last(&self, reply: &[u8]) -> FreeingStep {
        match read_last(reply) {
            Ok((number, CommandState::Pending)) if number == self.number => FreeingStep::ReadLife,
            Ok((_, state)) => FreeingStep::Free(state),
            Err(SlotsFault::Refused(NO_SLOT, _)) => FreeingStep::Freed(None),
            Err(fault) => FreeingStep::Failed(fault),
        }
    }

    /// Why the slot was not freed, if it was not.
    pub(crate) fn fault(&self) -> Option<JobFault> {
        match self.step {
            FreeingStep::Failed(fault) => Some(JobFault::Reply(fault)),
            _ => None,
        }
    }
}

impl LedgerJob for Freeing {
    fn request(&self) -> Option<JobRequest> {
        let (originator, number) = (self.originator, self.number);
        match self.step {
            FreeingStep::Read => Some(JobRequest::Slot(last_request(originator))),
            FreeingStep::ReadLife => Some(JobRequest::Life),
            FreeingStep::Withdraw(life) => {
                Some(JobRequest::Withdraw(withdraw_request(life, originator, number)))
            }
            FreeingStep::Free(_) => Some(JobRequest::Slot(forget_request(originator, number))),
            FreeingStep::Freed(_) | FreeingStep::Failed(_) => None,
        }
    }

    fn take_reply(&mut self, reply: &[u8]) {
        self.step = match self.step {
            FreeingStep::Read => self.after_last(reply),
            FreeingStep::ReadLife => after_life(reply),
            FreeingStep::Withdraw(_) => after_withdrawal(read_withdrawal(reply)),
            FreeingStep::Free(state) => match read_forgotten(reply) {
                Ok(()) => FreeingStep::Freed(Some(state)),
                Err(fault) => FreeingStep::Failed(fault),
            },
            ended => ended,
        };
    }
}

/// What comes after the life of the device was read.
fn after_life(reply: &[u8]) -> FreeingStep {
    match read_life(reply) {
        Ok(life) => FreeingStep::Withdraw(life),
        Err(LifeFault::NoLedger(status, extended)) => {
            FreeingStep::Failed(SlotsFault::Refused(status, extended))
        }
        Err(LifeFault::Malformed) => FreeingStep::Failed(SlotsFault::Malformed),
    }
}

/// What comes after Withdraw.
fn after_withdrawal(outcome: WithdrawalOutcome<'_>) -> FreeingStep {
    match outcome {
        WithdrawalOutcome::Withdrawn => FreeingStep::Free(CommandState::Withdrawn),
        WithdrawalOutcome::Done(_) => FreeingStep::Free(CommandState::Done),
        // The device refuses Forget of a command that was handed over, until it is done.
        WithdrawalOutcome::HandedOver => FreeingStep::Free(CommandState::Done),
        WithdrawalOutcome::InDoubt => FreeingStep::Free(CommandState::InDoubt),
        // It refuses Forget of a smaller number, and an older device Forget of a pending command.
        WithdrawalOutcome::Smaller | WithdrawalOutcome::Refused(NO_SERVICE) => {
            FreeingStep::Free(CommandState::Pending)
        }
        WithdrawalOutcome::OtherLife => FreeingStep::Failed(SlotsFault::Refused(OTHER_LIFE, 0)),
        WithdrawalOutcome::Refused(status) => FreeingStep::Failed(SlotsFault::Refused(status, 0)),
        WithdrawalOutcome::Malformed | WithdrawalOutcome::NotPending => {
            FreeingStep::Failed(SlotsFault::Malformed)
        }
    }
}
