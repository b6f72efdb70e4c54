//! The state of an adapter as bytes, and commands in doubt.

ghost use Rattle.std.specs.Prelude.{◌≡◌, Some, slice_get};
ghost use Rattle.cip_ledger.specs.declared.doubt.DoubtfulCommand.{DoubtfulCommand as CommandState};
ghost use Rattle.saved_adapter.specs.Entries.{entries_in_doubt};
ghost use Rattle.enip_c.specs.StateCalls.{entries_kept, command_kept, doubtful_kept, settle_status, IsSettledKept};
ghost use Rattle.enip_c.specs.StateCalls.{returned_state, ReturnsGeneration, ReturnsCommand};
ghost use Rattle.enip_c.specs.Kept.{IsLive};
ghost use Rattle.saved_state.specs.States.{Entry};

use crate::adapter_pointer::KeptAdapter;
use crate::status::Status;
use cip_ledger::DoubtfulCommand;
use enip_adapter::{Adapter, Peer};
use saved_adapter::{AdapterEntries, generation};
use saved_state::{saved_size, write};
use std::alloc::Global;

/// Writes the state of an adapter to the buffer, and its size to `count`. A command that the piece of a peer would
/// execute is in doubt in it; an empty piece executes none. If the state does not fit, only `count` changes.
#[unsafe(no_mangle)]
pub extern "C" fn enip_core_adapter_save(
    alloc: Global,
    kept: &mut KeptAdapter,
    generation: u64,
    peer: u32,
    piece: &[u8],
    buffer: &mut [u8],
    count: &mut usize,
) -> u32
    requires { IsLive kept.old.value }
    ensures kept { kept.new.value ≡ kept.old.value }
    ensures returned { record { status = result; count = count.new; buffer = buffer.new }
        ≡ returned_state (entries_kept kept.old.value peer piece.now) generation count.old buffer.old }
{
    let mut adapter = kept.take(alloc);
    let doubt = adapter.executing(&Peer::of(peer), piece);
    let status = save(&adapter, doubt, generation, buffer, count);
    *kept = KeptAdapter::of(adapter);
    status
}

fn save(
    adapter: &Adapter,
    doubt: Option<DoubtfulCommand>,
    generation: u64,
    buffer: &mut [u8],
    count: &mut usize,
) -> u32
    ensures { record { status = result; count = count.new; buffer = buffer.new }
        ≡ returned_state (entries_in_doubt doubt adapter.now) generation count.old buffer.old }
{
    let entries = AdapterEntries::new(adapter, doubt);
    let Ok(size) = saved_size(&entries) else {
        return Status::State.number();
    };
    *count = size;
    match write(&entries, generation, buffer) {
        Ok(_) => Status::Done.number(),
        Err(_) => Status::Room.number(),
    }
}

/// The generation of the adapter's state: that of the last state if it is the same, otherwise the next. A command that
/// the piece of a peer would execute is in doubt in it; an empty piece executes none.
#[unsafe(no_mangle)]
pub extern "C" fn enip_core_adapter_generation(
    alloc: Global,
    kept: &mut KeptAdapter,
    peer: u32,
    piece: &[u8],
    last: &[u8],
    next: &mut u64,
) -> u32
    requires { IsLive kept.old.value }
    ensures kept { kept.new.value ≡ kept.old.value }
    ensures returned { ReturnsGeneration last.now (entries_kept kept.old.value peer piece.now) next.old next.new
        result }
{
    let mut adapter = kept.take(alloc);
    let doubt = adapter.executing(&Peer::of(peer), piece);
    let status = next_generation(&adapter, doubt, last, next);
    *kept = KeptAdapter::of(adapter);
    status
}

#[tactic(auto, using(crate::proofs::StateLemmas::is_generation, crate::proofs::StateLemmas::no_generation))]
fn next_generation(
    adapter: &Adapter,
    doubt: Option<DoubtfulCommand>,
    last: &[u8],
    next: &mut u64,
) -> u32
    ensures { ReturnsGeneration last.now (entries_in_doubt doubt adapter.now) next.old next.new result }
{
    match generation(adapter, doubt, last) {
        Ok(number) => {
            *next = number;
            Status::Done.number()
        }
        Err(_) => Status::SavedState.number(),
    }
}

/// The command that the piece of a peer would execute.
#[unsafe(no_mangle)]
pub extern "C" fn enip_core_adapter_executing(
    alloc: Global,
    kept: &mut KeptAdapter,
    peer: u32,
    piece: &[u8],
    originator: &mut u64,
    number: &mut u32,
) -> u32
    requires { IsLive kept.old.value }
    ensures kept { kept.new.value ≡ kept.old.value }
    ensures returned { ReturnsCommand (command_kept kept.old.value peer piece.now) originator.old number.old
        originator.new number.new result }
{
    let mut adapter = kept.take(alloc);
    let command = adapter.executing(&Peer::of(peer), piece);
    *kept = KeptAdapter::of(adapter);
    return_command(command, originator, number)
}

/// A command in doubt, by its index among them.
#[unsafe(no_mangle)]
pub extern "C" fn enip_core_adapter_in_doubt(
    alloc: Global,
    kept: &mut KeptAdapter,
    index: usize,
    originator: &mut u64,
    number: &mut u32,
) -> u32
    requires { IsLive kept.old.value }
    ensures kept { kept.new.value ≡ kept.old.value }
    ensures returned { ReturnsCommand (slice_get (doubtful_kept kept.old.value) index) originator.old number.old
        originator.new number.new result }
{
    let adapter = kept.take(alloc);
    let command = in_doubt(&adapter, index);
    *kept = KeptAdapter::of(adapter);
    return_command(command, originator, number)
}

fn in_doubt(adapter: &Adapter, index: usize) -> Option<DoubtfulCommand>
    ensures { result ≡ slice_get (doubtful_kept (Some adapter.now)) index }
{
    match adapter.ledger() {
        Some(ledger) => ledger.in_doubt(index),
        None => None,
    }
}

fn return_command(command: Option<DoubtfulCommand>, originator: &mut u64, number: &mut u32) -> u32
    ensures { ReturnsCommand command originator.old number.old originator.new number.new result }
{
    match command {
        Some(command) => {
            *originator = command.originator;
            *number = command.number;
            Status::Done.number()
        }
        None => Status::Absent.number(),
    }
}

/// Settles a command in doubt: a repeat of it gets this reply from now on.
#[unsafe(no_mangle)]
pub extern "C" fn enip_core_adapter_settle(
    alloc: Global,
    kept: &mut KeptAdapter,
    originator: u64,
    number: u32,
    reply: &[u8],
) -> u32
    requires { IsLive kept.old.value }
    ensures { IsSettledKept kept.old.value kept.new.value originator number reply.now result }
{
    let mut adapter = kept.take(alloc);
    let is_settled = adapter.settle(originator, number, reply);
    *kept = KeptAdapter::of(adapter);
    status_of(is_settled).number()
}

fn status_of(is_settled: bool) -> Status
    ensures { result ≡ settle_status is_settled }
{
    if is_settled {
        Status::Done
    } else {
        Status::Absent
    }
}
