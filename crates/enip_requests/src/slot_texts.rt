//! The output of `enip ledger`.

use crate::ledger_jobs::{Freeing, Listing};
use cip_commander::{CommandState, LedgerSlot};
use std::io::{self, Write};

/// Prints the slots of a ledger: a line for each, or with JSON one object.
pub(crate) fn print_slots<O: Write>(
    output: &mut O,
    is_json: bool,
    listing: &Listing,
) -> io::Result<()> {
    if is_json {
        return print_slots_object(output, listing);
    }
    for slot in listing.slots() {
        let (originator, number) = (slot.originator, slot.number);
        let state = state_text(slot.state);
        writeln!(output, "{originator:016x} {number} {state}")?;
    }
    Ok(())
}

/// Prints the slots of a ledger as a JSON object.
fn print_slots_object<O: Write>(output: &mut O, listing: &Listing) -> io::Result<()> {
    write!(output, "{{\"slots\":[")?;
    let mut is_first = true;
    for slot in listing.slots() {
        if !is_first {
            write!(output, ",")?;
        }
        print_slot_object(output, *slot)?;
        is_first = false;
    }
    let taken = listing.taken();
    writeln!(output, "],\"taken\":{taken}}}")
}

/// Prints a slot as a JSON object.
fn print_slot_object<O: Write>(output: &mut O, slot: LedgerSlot) -> io::Result<()> {
    let (originator, number) = (slot.originator, slot.number);
    let state = state_text(slot.state);
    write!(
        output,
        "{{\"number\":{number},\"originator\":\"{originator:016x}\",\"state\":\"{state}\"}}"
    )
}

/// Prints the slot that was freed, or that there was none.
pub(crate) fn print_freed<O: Write>(
    output: &mut O,
    is_json: bool,
    freeing: &Freeing,
) -> io::Result<()> {
    match freeing.freed() {
        Some(slot) if is_json => {
            write!(output, "{{\"freed\":")?;
            print_slot_object(output, slot)?;
            writeln!(output, "}}")
        }
        None if is_json => writeln!(output, "{{\"freed\":null}}"),
        Some(slot) => {
            let (originator, number) = (slot.originator, slot.number);
            let state = state_text(slot.state);
            writeln!(output, "freed {originator:016x} {number} {state}")
        }
        None => writeln!(output, "no slot"),
    }
}

/// A state in words.
fn state_text(state: CommandState) -> &'static str {
    match state {
        CommandState::Done => "done",
        CommandState::Pending => "pending",
        CommandState::InDoubt => "in doubt",
        CommandState::Withdrawn => "withdrawn",
    }
}
