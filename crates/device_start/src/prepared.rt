//! What is kept, made ready for a start: nothing of it is lost in silence.

ghost use Rattle.std.specs.Prelude.{◌≡◌, [], All, IfOk, None, OnOk};
ghost use Rattle.device_start.specs.Preparing.{first_unknown, is_value};
ghost use Rattle.enip_keep.specs.Kept.{IsKeepable, pairs_of, set_all};
ghost use Rattle.kept_adapter.specs.Hindrances.{hindrances};
ghost use Rattle.kept_adapter.specs.Preparing.{configured_values, preparation};
ghost use Rattle.kept_adapter.specs.declared.preparing.Wishes.{Wishes};

use crate::hindrance_text::HindranceText;
use crate::judgement::OpenFault;
use crate::kept_commands::{CommandText, Counted, SlotText};
use crate::kept_file::KeptFile;
use crate::wishes::StartWishes;
use enip_common::{CommandError, Fault, Reason, print_reason};
use enip_faults::Digits;
use enip_keep::{Entry, set_all};
use kept_adapter::{
    AdapterStart, EntryName, Hindrance, ValueState, Wishes, is_taken, is_waiting, kept_at,
    origin_key, taken_slots, waiting_commands,
};
use std::alloc::{AllocError, Global};
use std::fmt;

/// The changes before a start, and what is said of them.
#[derive(Drop)]
pub(crate) struct Prepared {
    pub(crate) changes: Vec<Entry>,
    pub(crate) notes: Vec<String>,
}

/// Makes the entries of FILE ready for a start. Returns the changes that are to be committed before it.
///
/// # Errors
///
/// If something would be lost by the start, or if a value that is to be put back is none of the device. Each reason but the
/// last is printed.
pub(crate) fn prepare<'a>(
    rt: &HostRuntime,
    file: KeptFile<'a>,
    start: &AdapterStart,
    entries: &mut Vec<Entry>,
    wishes: StartWishes<'a>,
) -> Result<Prepared, CommandError<'a>>
    ensures changes { IfOk result (λ p. (wanted : Wishes) × (wanted.drops_commands ≡ wishes.entry.drops_commands)
        × (wanted.accepts_config ≡ wishes.entry.accepts_config)
        × (first_unknown (configured_values start.now) wanted.resets.items ≡ None)
        × (pairs_of p.changes.items ≡ preparation start.now wanted (pairs_of entries.old.items))) }
    ensures made { IfOk result (λ p. pairs_of entries.new.items
        ≡ set_all (pairs_of p.changes.items) (pairs_of entries.old.items)) }
    ensures keepable { IfOk result (λ p. All IsKeepable p.changes.items) }
    ensures lossless { OnOk result (hindrances start.now (pairs_of entries.new.items) ≡ []) }
{
    let alloc = rt.alloc();
    let values = start.configured_values(alloc)?;
    let wanted = wishes_for(alloc, file, &values, wishes)?;
    let changes = start.preparation(alloc, entries, &wanted)?;
    let mut notes = Vec::new(alloc);
    if wishes.drops_commands {
        note_drops(alloc, entries, &mut notes)?;
    }
    note_put_back(alloc, start, &values, entries, &changes, &mut notes)?;
    set_all(alloc, entries, &changes)?;
    note_written(alloc, start, &values, entries, &changes, &mut notes)?;
    refuse_if_hindered(rt, file, start, entries)?;
    Ok(Prepared { changes, notes })
}

/// What is wanted of what is kept.
///
/// # Errors
///
/// If a value that is to be put back is none of the device.
fn wishes_for<'a>(
    alloc: Global,
    file: KeptFile<'a>,
    values: &[Entry],
    wishes: StartWishes<'a>,
) -> Result<Wishes, CommandError<'a>>
    ensures drops { IfOk result (λ w. w.drops_commands ≡ wishes.entry.drops_commands) }
    ensures accepts { IfOk result (λ w. w.accepts_config ≡ wishes.entry.accepts_config) }
    ensures resets { IfOk result (λ w. first_unknown (pairs_of values.now) w.resets.items ≡ None) }
{
    let resets = wishes.reset_keys(alloc)?;
    if let Some(key) = first_unknown(values, &resets) {
        let text = format!(in alloc; "{} is not kept (--reset-value)", EntryName::of_key(key))?;
        return Err(no_start(file, text));
    }
    Ok(Wishes {
        drops_commands: wishes.drops_commands,
        accepts_config: wishes.accepts_config,
        resets,
    })
}

/// The first of these keys that is not that of a value.
fn first_unknown(values: &[Entry], keys: &[u64]) -> Option<u64>
    ensures { result ≡ first_unknown (pairs_of values.now) keys.now }
{
    for key in keys {
        if !is_value(values, *key) {
            return Some(*key);
        }
    }
    None
}

/// Whether a key is that of a value. The first entry says which device it is, and is not a value.
fn is_value(values: &[Entry], key: u64) -> bool
    ensures { result ≡ is_value (pairs_of values.now) key }
{
    match values.split_first() {
        Some((_, values)) => kept_at(values, key).is_some(),
        None => false,
    }
}

/// The error of a start that is refused.
fn no_start<'a>(file: KeptFile<'a>, text: String) -> CommandError<'a> {
    CommandError::new(Fault::State, Reason::NoStart(file.name(), text))
}

/// Refuses a start by which something would be lost.
fn refuse_if_hindered<'a>(
    rt: &HostRuntime,
    file: KeptFile<'a>,
    start: &AdapterStart,
    entries: &[Entry],
) -> Result<(), CommandError<'a>>
    ensures { OnOk result (hindrances start.now (pairs_of entries.now) ≡ []) }
{
    let alloc = rt.alloc();
    let hindrances = start.hindrances(alloc, entries)?;
    let Some((last, others)) = hindrances.as_slice().split_last() else {
        return Ok(());
    };
    for hindrance in others {
        let text = format!(in alloc; "{}", HindranceText(*hindrance, entries))?;
        print_reason(rt, &Noted(file.name(), text.as_str()));
    }
    Err(hindered(alloc, file, *last, entries)?)
}

/// The error of a start by which something would be lost, for the last reason.
fn hindered<'a>(
    alloc: Global,
    file: KeptFile<'a>,
    hindrance: Hindrance,
    entries: &[Entry],
) -> Result<CommandError<'a>, AllocError> {
    if hindrance == Hindrance::OtherDevice {
        return Ok(file.not_opened(OpenFault::OtherDevice));
    }
    let text = format!(in alloc; "{}", HindranceText(hindrance, entries))?;
    Ok(no_start(file, text))
}

/// Something that is said of the file of this name.
#[derive(Clone, Copy)]
pub(crate) struct Noted<'a>(pub(crate) &'a str, pub(crate) &'a str);

impl fmt::Display for Noted<'_> {
    fn fmt<W: fmt::Write>(&self, f: &mut fmt::Formatter<W>) -> fmt::Result {
        write!(f, "{}: {}", self.0, self.1)
    }
}

/// Notes which commands and slots are dropped.
fn note_drops(alloc: Global, entries: &[Entry], notes: &mut Vec<String>) -> Result<(), AllocError> {
    notes.push(format!(in alloc;
        "dropped {} and {} of the command ledger (--drop-commands)",
        Counted(
            waiting_commands(entries),
            "command that waited",
            "commands that waited"
        ),
        Counted(taken_slots(entries), "slot", "slots"),
    )?)?;
    for entry in entries {
        if is_taken(entry) {
            notes.push(format!(in alloc; "dropped slot: {}", SlotText(&entry.bytes))?)?;
        }
        if is_waiting(entry) {
            notes.push(format!(in alloc; "dropped command: {}", CommandText(&entry.bytes))?)?;
        }
    }
    Ok(())
}

/// Notes which values that were written are put back to the configured ones.
fn note_put_back(
    alloc: Global,
    start: &AdapterStart,
    values: &[Entry],
    entries: &[Entry],
    changes: &[Entry],
    notes: &mut Vec<String>,
) -> Result<(), AllocError> {
    for value in values {
        let state = start.value_state(value, entries);
        if !matches!(state, Some(ValueState::Written | ValueState::Unfit)) {
            continue;
        }
        if kept_at(changes, value.key).is_some() {
            notes.push(format!(in alloc;
                "{} is {} again, as configured (it was set to {})",
                EntryName::of_key(value.key),
                Digits(&value.bytes),
                Digits(kept_at(entries, value.key).unwrap_or(&[])),
            )?)?;
        }
    }
    Ok(())
}

/// Notes which values that were written differ from the configured ones, if the configuration of these has changed.
fn note_written(
    alloc: Global,
    start: &AdapterStart,
    values: &[Entry],
    entries: &[Entry],
    changes: &[Entry],
    notes: &mut Vec<String>,
) -> Result<(), AllocError> {
    for value in values {
        let kept = kept_at(entries, value.key).unwrap_or(&[]);
        if start.value_state(value, entries) == Some(ValueState::Written)
            && kept != value.bytes.as_slice()
            && is_origin_changed(value.key, changes)
        {
            notes.push(format!(in alloc;
                "{} stays {}, as it was set: the configuration has {} (see --reset-value)",
                EntryName::of_key(value.key),
                Digits(kept),
                Digits(&value.bytes),
            )?)?;
        }
    }
    Ok(())
}

/// Whether the changes have one of the origin of the value with this key.
fn is_origin_changed(key: u64, changes: &[Entry]) -> bool {
    key < 0x1_0000_0000_0000 && kept_at(changes, origin_key(key)).is_some()
}
