//! `enip ledger`: lists the slots of a device's command ledger, or frees one.

use crate::ledger_jobs::{Freeing, JobFault, LedgerJob, Listing};
use crate::ledger_task::LedgerTask;
use crate::once::slot_of_file;
use crate::slot_texts::{print_freed, print_slots};
use cip_bytes::StatusText;
use cip_commander::SlotsFault;
use enip_client::ClientFault;
use enip_commands::{RequestFailure, show_refusal};
use enip_common::{CommandError, ErrorKeeping, NamedReason, OUTPUT, OsArg, Reason, print_reason};
use remote_device::{Device, OpenSession, error_of_failure, reason_of_refusal};
use std::io::Write;

/// The general status of a ledger's class that the device does not have. (Volume 1, general status codes.)
const NO_LEDGER: u8 = 0x05;

/// The general status of Forget if the last command of the slot has another number (ours).
const OTHER_NUMBER: u8 = 0x0c;

/// Lists the slots of a ledger, or frees one. Returns the exit status.
pub(crate) fn run_ledger<'a>(
    rt: &HostRuntime,
    args: &[OsArg],
    device: Device<'a>,
    task: LedgerTask<'a>,
) -> Result<u8, CommandError<'a>> {
    match task {
        LedgerTask::List => list_slots(rt, device),
        LedgerTask::ForgetFile(file) => {
            let (originator, number) = slot_of_file(rt, args, device, file)?;
            free_slot(rt, device, originator, number)
        }
        LedgerTask::Forget(originator, number) => free_slot(rt, device, originator, number),
    }
}

/// Prints the slots of a ledger.
fn list_slots<'a>(rt: &HostRuntime, device: Device<'a>) -> Result<u8, CommandError<'a>> {
    let mut listing = Listing::new(rt.alloc());
    run_job(rt, device, &mut listing)?;
    if let Some(fault) = listing.fault() {
        return end_by_fault(rt, device, fault);
    }
    let mut output = ErrorKeeping::new(rt.stdout());
    let printed = print_slots(&mut output, device.style.is_json, &listing);
    finish(output, printed)
}

/// Frees the slot of an originator whose last command has this number, and prints what was freed.
fn free_slot<'a>(
    rt: &HostRuntime,
    device: Device<'a>,
    originator: u64,
    number: u32,
) -> Result<u8, CommandError<'a>> {
    let mut freeing = Freeing::new(originator, number);
    run_job(rt, device, &mut freeing)?;
    if let Some(fault) = freeing.fault() {
        return end_by_fault(rt, device, fault);
    }
    let mut output = ErrorKeeping::new(rt.stdout());
    let printed = print_freed(&mut output, device.style.is_json, &freeing);
    finish(output, printed)
}

/// Ends the output of a command that succeeded.
fn finish<'a, O: Write + Drop>(
    output: ErrorKeeping<O>,
    printed: std::io::Result<()>,
) -> Result<u8, CommandError<'a>> {
    let mut output = output;
    match printed.and_then(|()| output.flush()) {
        Ok(()) => Ok(0),
        Err(error) => Err(CommandError::of_system(OUTPUT, error)),
    }
}

/// Sends the requests of a job in a session of its own.
fn run_job<'a, J: LedgerJob>(
    rt: &HostRuntime,
    device: Device<'a>,
    job: &mut J,
) -> Result<(), CommandError<'a>> {
    let stream = device.connect(rt)?;
    let mut session = OpenSession::open(rt, device, &stream)?;
    for _ in 0..u64::MAX {
        let Some(request) = job.request() else {
            break;
        };
        session.ask(request.as_slice())?;
        job.take_reply(session.reply());
    }
    let _ = session.end();
    Ok(())
}

/// Reports a refusal of the device, or a reply of another form.
fn end_by_fault<'a>(
    rt: &HostRuntime,
    device: Device<'a>,
    fault: JobFault,
) -> Result<u8, CommandError<'a>> {
    let (status, extended) = match fault {
        JobFault::Reply(SlotsFault::Refused(status, extended)) => (status, extended),
        JobFault::Reply(SlotsFault::Malformed) => {
            let failure = RequestFailure::Client(ClientFault::Malformed);
            return Err(error_of_failure(failure, device.address, None));
        }
        JobFault::Memory => return Err(CommandError::of_memory()),
    };
    let mut output = ErrorKeeping::new(rt.stdout());
    let shown = show_refusal(rt.alloc(), &mut output, device.style, status, extended);
    let outcome = shown.map_err(|failure| error_of_failure(
        failure,
        device.address,
        output.reason(OUTPUT),
    ))?;
    let text = StatusText { status, extended };
    let reason = match status {
        NO_LEDGER => Reason::NoLedger(device.address, text),
        OTHER_NUMBER => Reason::Named(device.address, NamedReason::OtherNumber),
        _ => reason_of_refusal(device, text),
    };
    print_reason(rt, &reason);
    Ok(outcome.exit_status())
}
