//! What FILE of `--keep` has, and what of it a device does not use.

use crate::kept_commands::{CommandText, SlotText};
use crate::kept_file::KeptFile;
use crate::prepared::Noted;
use enip_common::{CommandError, NamedReason, Reason, print_reason};
use enip_faults::Digits;
use enip_keep::Entry;
use kept_adapter::{AdapterStart, EntryName, ValueState, is_origin_key, kept_at, waiting_commands};
use std::alloc::Global;
use std::fmt;
use std::io::{self, BufWriter, Write};

/// The keys of what is kept and a device does not use, and what is said of a start.
#[derive(Drop)]
pub struct KeptValues {
    unused: Vec<u64>,
    /// How many commands waited.
    waiting: usize,
    notes: Vec<String>,
}

impl KeptValues {
    /// What a device that starts from these entries does not use, and what is said of the start.
    pub(crate) fn of<'a>(
        alloc: Global,
        file: KeptFile<'a>,
        entries: &[Entry],
        start: &AdapterStart,
        notes: Vec<String>,
    ) -> Result<KeptValues, CommandError<'a>> {
        let mut unused = match start.unused(alloc, entries) {
            Ok(unused) => unused,
            Err(error) => return Err(file.refused(error)),
        };
        unused.retain(|key| !is_origin_key(*key) && !is_at_rest(EntryName::of_key(*key), start));
        Ok(KeptValues {
            unused,
            waiting: waiting_commands(entries),
            notes,
        })
    }

    /// Prints on standard error what is said of the start: a line for each value that stays as it was set although the
    /// configuration has changed, for what was dropped, and for each value that is not used, which stays in FILE.
    pub fn report(&self, rt: &HostRuntime, file: KeptFile<'_>) {
        if file.accepts_older() && self.waiting > 0 {
            print_reason(rt, &Dropped(file.name(), self.waiting));
        }
        for note in &self.notes {
            print_reason(rt, &Noted(file.name(), note.as_str()));
        }
        let mut has_lost = false;
        for key in &self.unused {
            let name = EntryName::of_key(*key);
            has_lost |= name.is_of_ledger();
            print_reason(rt, &NotUsed(file.name(), name));
        }
        if has_lost {
            print_reason(rt, &Reason::Named(file.name(), NamedReason::NewLife));
        }
    }

    /// Prints each of these entries in hexadecimal, and what a start makes of it. A place that is free has no line, and neither
    /// has the origin of a value.
    pub(crate) fn print<W: Write + Drop>(
        &self,
        alloc: Global,
        entries: &[Entry],
        start: &AdapterStart,
        output: W,
    ) -> io::Result<()> {
        let values = start.configured_values(alloc)?;
        let mut output = BufWriter::new(alloc, output)?;
        for entry in entries {
            let name = EntryName::of_key(entry.key);
            let is_free = entry.bytes.is_empty() && (name.is_of_ledger() || name.is_of_queue());
            if is_free || is_origin_key(entry.key) {
                continue;
            }
            let remark = self.remark(entry, name, &values, entries, start);
            writeln!(
                output,
                "kept: {name}, {}{remark}",
                Digits(entry.bytes.as_slice())
            )?;
        }
        output.flush()
    }

    /// What a start makes of an entry.
    fn remark<'e>(
        &self,
        entry: &'e Entry,
        name: EntryName,
        values: &'e [Entry],
        entries: &[Entry],
        start: &AdapterStart,
    ) -> Remark<'e> {
        match name {
            EntryName::Slot(_) => return Remark::Slot(entry.bytes.as_slice()),
            EntryName::WaitingCommand(_) => return Remark::Command(entry.bytes.as_slice()),
            _ => {}
        }
        let state = match values.iter().find(|value| value.key == entry.key) {
            Some(value) => start.value_state(value, entries),
            None => None,
        };
        match (state, kept_at(values, entry.key)) {
            (Some(state), Some(configured)) if configured != entry.bytes.as_slice() => {
                Remark::Value(state, configured)
            }
            (None, _) if self.unused.contains(&entry.key) => Remark::Unused,
            _ => Remark::None,
        }
    }
}

/// Whether an entry is of a ledger or a queue that the configuration does not have: no slot is taken then, and nothing waits.
fn is_at_rest(name: EntryName, start: &AdapterStart) -> bool {
    match name {
        EntryName::NextTicket => start.queue.is_none(),
        _ => name.is_of_ledger() && start.ledger.is_none(),
    }
}

/// What a start makes of an entry, as text behind its bytes.
#[derive(Clone, Copy)]
enum Remark<'e> {
    None,
    /// It is not used.
    Unused,
    /// It is a slot of the command ledger with these bytes.
    Slot(&'e [u8]),
    /// It is a command that waits, with these bytes.
    Command(&'e [u8]),
    /// It is a value that is not the configured one, which has these bytes.
    Value(ValueState, &'e [u8]),
}

impl fmt::Display for Remark<'_> {
    fn fmt<W: fmt::Write>(&self, f: &mut fmt::Formatter<W>) -> fmt::Result {
        match *self {
            Remark::None | Remark::Value(ValueState::Missing, _) => Ok(()),
            Remark::Unused => f.write_str(", not used"),
            Remark::Slot(bytes) => write!(f, ": {}", SlotText(bytes)),
            Remark::Command(bytes) => write!(f, ": {}", CommandText(bytes)),
            Remark::Value(ValueState::Configured, configured) => {
                write!(f, ", as configured before (now {})", Digits(configured))
            }
            Remark::Value(ValueState::Written, configured) => {
                write!(f, ", set (configured {})", Digits(configured))
            }
            Remark::Value(ValueState::Unfit, configured) => {
                write!(
                    f,
                    ", set and not allowed any more (configured {})",
                    Digits(configured)
                )
            }
        }
    }
}

/// So many commands that waited in the file of this name were dropped, as its state may be older than it was.
#[derive(Clone, Copy)]
struct Dropped<'a>(&'a str, usize);

impl fmt::Display for Dropped<'_> {
    fn fmt<W: fmt::Write>(&self, f: &mut fmt::Formatter<W>) -> fmt::Result {
        let (file, count) = (self.0, self.1);
        if count == 1 {
            return write!(
                f,
                "{file}: 1 command that waited was dropped (--accept-older)"
            );
        }
        write!(
            f,
            "{file}: {count} commands that waited were dropped (--accept-older)"
        )
    }
}

/// A value in the file of this name is not used, because the configuration does not describe it, or peers can only read it.
#[derive(Clone, Copy)]
struct NotUsed<'a>(&'a str, EntryName);

impl fmt::Display for NotUsed<'_> {
    fn fmt<W: fmt::Write>(&self, f: &mut fmt::Formatter<W>) -> fmt::Result {
        let (file, value) = (self.0, self.1);
        write!(
            f,
            "{file}: {value} is not used: the configuration has none that is kept, or one of another size"
        )
    }
}
