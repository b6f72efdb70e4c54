//! What a start changes of what is kept, before a device is made from it.
ghost use Rattle.std.specs.Prelude.{◌≡◌, ◌<◌, ◌==◌, ◌^◌, ◌∷◌, ◌++◌, [], All, IfOk, OnOk, Some, None, length, if◌then◌else◌, option_copied, option_map, false};
ghost use Rattle.std.specs.List.{list_any};
ghost use Rattle.enip_keep.specs.Kept.{IsKeepable, pair_of, pairs_of};
ghost use Rattle.kept_adapter.specs.Origins.{description, kind_under, origin_bytes};
ghost use Rattle.kept_adapter.specs.Preparing.{are_these, becomes_configured, change_to, changes_of_value, changes_of_values, cleared};
ghost use Rattle.kept_adapter.specs.Preparing.{configured_values, drop_of, drops, is_of_value, is_reset, preparation, state_in, stays_unfit};
ghost use Rattle.kept_adapter.specs.Keys.{origin_key};
ghost use Rattle.kept_adapter.specs.Preparing.{greater_life, later, ledger_in_later_life, life_of, next_life, unmarked, value_changes};
ghost use Rattle.kept_server.specs.Changes.{is_small};

use crate::adapter_start::{AdapterStart, LedgerStart};
use crate::keys::{
    is_ledger_key, is_queue_key, is_value_key, ledger_key, origin_key, queue_number,
};
use crate::origins::{ValueState, kept_at, kind_under, value_state, write_description};
use crate::saving::save_objects;
use byteorder::{ByteOrder, LittleEndian};
use cip_application::AttributeKind;
use cip_objects::{Config, ReplyBuf};
use enip_keep::Entry;
use std::alloc::{AllocError, Global};

/// What the one who starts a device wants to be dropped or put back.
#[derive(Debug, Drop)]
pub struct Wishes {
    /// The command ledger and the queue are emptied.
    pub drops_commands: bool,
    /// Each value that the configuration does not allow any more is put back to the configured one.
    pub accepts_config: bool,
    /// The values with these keys are put back to the configured ones.
    pub resets: Vec<u64>,
}

impl AdapterStart {
    /// The changes that make what is kept ready for a start: commands are dropped if that is wanted, each value that is as it
    /// was configured at the last start gets the value that is configured now, and the origin of each value is noted. Commit
    /// them, and start from what is kept then.
    ///
    /// A value that the configuration does not allow any more stays as it is, with its origin, unless the wishes say
    /// otherwise: see `hindrances`.
    ///
    /// # Errors
    ///
    /// `AllocError` if memory is refused.
    ///
    /// ```
    /// let changes = start.preparation(alloc, &entries, &wishes)?;
    /// ```
    pub fn preparation(
        &self,
        alloc: Global,
        entries: &[Entry],
        wishes: &Wishes,
    ) -> Result<Vec<Entry>, AllocError>
        ensures changes { IfOk result (λ changes. pairs_of changes.items
            ≡ preparation self.now wishes.now (pairs_of entries.now)) }
        ensures keepable { IfOk result (λ changes. All IsKeepable changes.items) }
    {
        let values = self.configured_values(alloc)?;
        let mut changes = Vec::new(alloc);
        if wishes.drops_commands {
            add_drops(alloc, entries, &mut changes)?;
        }
        add_changes_of_values(alloc, &self.objects, wishes, entries, &values, &mut changes)?;
        Ok(changes)
    }

    /// The values that are kept, as they are configured, behind the entry that says which device it is.
    ///
    /// # Errors
    ///
    /// `AllocError` if memory is refused.
    pub fn configured_values(&self, alloc: Global) -> Result<Vec<Entry>, AllocError>
        ensures { IfOk result (λ values. pairs_of values.items ≡ configured_values self.now) }
    {
        let objects = self.new_objects(alloc)?;
        let mut values = Vec::new(alloc);
        let count = save_objects(alloc, &objects, false, &mut values)?;
        values.truncate(count);
        Ok(values)
    }

    /// The same start, with a number for a life that begins now that is greater than that of the life which is kept. So it is
    /// another life, whatever the clock says.
    ///
    /// ```
    /// let start = start.in_later_life(&entries);
    /// ```
    pub fn in_later_life(self, entries: &[Entry]) -> AdapterStart
        ensures ledger { result.ledger ≡ ledger_in_later_life self.ledger (pairs_of entries.now) }
        ensures objects { result.objects ≡ self.objects }
        ensures queue { result.queue ≡ self.queue }
        ensures begins { result.begins_life ≡ self.begins_life }
        ensures reset { result.reset ≡ self.reset }
        ensures listen { result.listen ≡ self.listen }
        ensures limits { result.limits ≡ self.limits }
        ensures shares { result.shares ≡ self.shares }
        ensures idle { result.idle_timeout ≡ self.idle_timeout }
    {
        let kept = life_of(kept_at(entries, ledger_key(0)));
        let AdapterStart {
            objects,
            ledger,
            queue,
            begins_life,
            reset,
            listen,
            limits,
            shares,
            idle_timeout,
        } = self;
        let ledger = later_ledger(ledger, kept);
        AdapterStart {
            objects,
            ledger,
            queue,
            begins_life,
            reset,
            listen,
            limits,
            shares,
            idle_timeout,
        }
    }

    /// What a start makes of a value, by its key and the configured bytes: an entry of `configured_values`. `None` if it is
    /// the entry that says which device it is.
    ///
    /// ```
    /// for value in &start.configured_values(alloc)? {
    ///     report(value.key, start.value_state(value, &entries));
    /// }
    /// ```
    pub fn value_state(&self, value: &Entry, entries: &[Entry]) -> Option<ValueState>
        ensures { result ≡ (if is_of_value value.now.key then
            Some (state_in self.now.objects (pairs_of entries.now) (pair_of value.now)) else None) }
    {
        if !is_of_value(value.key) {
            return None;
        }
        Some(state_in(&self.objects, entries, value))
    }
}

/// Whether an entry with this key is a value of the device.
pub(crate) fn is_of_value(key: u64) -> bool
    ensures { result ≡ is_of_value key }
{
    is_value_key(key) && key < 0x1_0000_0000_0000
}

/// What a start makes of the value of an entry that is as configured.
pub(crate) fn state_in(config: &Config, entries: &[Entry], value: &Entry) -> ValueState
    requires { value.now.key < 2 ^ 48 }
    ensures { result ≡ state_in config.now (pairs_of entries.now) (pair_of value.now) }
{
    value_state(
        kind_under(config, value.key),
        value.bytes.as_slice(),
        kept_at(entries, value.key),
        kept_at(entries, origin_key(value.key)),
    )
}

/// The number of the life that is kept, 0 if there is none.
fn life_of(content: Option<&[u8]>) -> u64
    ensures { result ≡ life_of (option_copied content.entry) }
{
    match content {
        Some(content) if content.len() == 8 => LittleEndian::read_u64(content),
        _ => 0,
    }
}

/// The ledger that starts, in a life with a greater number than this one.
fn later_ledger(ledger: Option<LedgerStart>, kept: u64) -> Option<LedgerStart>
    ensures { result ≡ option_map (later kept) ledger }
{
    let ledger = ledger?;
    Some(LedgerStart {
        originators: ledger.originators,
        life: greater_life(ledger.life, kept),
    })
}

/// A number of a life that is greater than the one that is kept.
fn greater_life(life: u64, kept: u64) -> u64
    ensures { result ≡ greater_life life kept }
{
    if kept < life || kept == u64::MAX {
        life
    } else {
        kept + 1
    }
}

/// Adds a change.
fn add(alloc: Global, key: u64, bytes: &[u8], changes: &mut Vec<Entry>) -> Result<(), AllocError>
    requires keepable { All IsKeepable changes.old.items }
    requires key { key < 2 ^ 63 }
    requires size { length bytes.now < 2 ^ 16 }
    ensures added { OnOk result (pairs_of changes.new.items ≡ pairs_of changes.old.items ++ (key, bytes.now) ∷ []) }
    ensures keepable { OnOk result (All IsKeepable changes.new.items) }
{
    changes.push(Entry {
        key,
        bytes: Vec::from_slice(alloc, bytes)?,
    })?;
    Ok(())
}

/// Whether an entry can be kept.
fn is_small(key: u64, bytes: &[u8]) -> bool
    ensures { result ≡ is_small (key, bytes.now) }
{
    key < 0x8000_0000_0000_0000 && bytes.len() < 0x1_0000
}

/// Adds the change that puts these bytes under a key, unless they are there.
fn add_change_to(
    alloc: Global,
    key: u64,
    bytes: &[u8],
    entries: &[Entry],
    changes: &mut Vec<Entry>,
) -> Result<(), AllocError>
    requires { All IsKeepable changes.old.items }
    ensures added { OnOk result (pairs_of changes.new.items
        ≡ pairs_of changes.old.items ++ change_to key bytes.now (pairs_of entries.now)) }
    ensures keepable { OnOk result (All IsKeepable changes.new.items) }
{
    if are_these(bytes, kept_at(entries, key)) || !is_small(key, bytes) {
        return Ok(());
    }
    add(alloc, key, bytes, changes)
}

/// Whether these bytes are kept.
fn are_these(bytes: &[u8], kept: Option<&[u8]>) -> bool
    ensures { result ≡ are_these bytes.now (option_copied kept.entry) }
{
    match kept {
        Some(others) => others == bytes,
        None => false,
    }
}

/// Adds the changes that empty the ledger and the queue.
fn add_drops(alloc: Global, entries: &[Entry], changes: &mut Vec<Entry>) -> Result<(), AllocError>
    requires { All IsKeepable changes.old.items }
    ensures added { OnOk result (pairs_of changes.new.items ≡ pairs_of changes.old.items ++ drops (pairs_of entries.now)) }
    ensures keepable { OnOk result (All IsKeepable changes.new.items) }
{
    for entry in entries {
        add_drop_of(alloc, entry, changes)?;
    }
    Ok(())
}

/// Adds the change that empties an entry of the ledger or of the queue.
fn add_drop_of(alloc: Global, entry: &Entry, changes: &mut Vec<Entry>) -> Result<(), AllocError>
    requires { All IsKeepable changes.old.items }
    ensures added { OnOk result (pairs_of changes.new.items ≡ pairs_of changes.old.items ++ drop_of (pair_of entry.now)) }
    ensures keepable { OnOk result (All IsKeepable changes.new.items) }
{
    if entry.key == ledger_key(0) {
        return add_next_life(alloc, entry, changes);
    }
    if is_ledger_key(entry.key) {
        return add_cleared(alloc, entry, changes);
    }
    if !is_queue_key(entry.key) {
        return Ok(());
    }
    if queue_number(entry.key) == 0 {
        add_unmarked(alloc, entry, changes)
    } else {
        add_cleared(alloc, entry, changes)
    }
}

/// Adds the change to the number of the next life.
fn add_next_life(alloc: Global, entry: &Entry, changes: &mut Vec<Entry>) -> Result<(), AllocError>
    requires { All IsKeepable changes.old.items }
    ensures added { OnOk result (pairs_of changes.new.items ≡ pairs_of changes.old.items ++ next_life (pair_of entry.now)) }
    ensures keepable { OnOk result (All IsKeepable changes.new.items) }
{
    if !is_small(entry.key, &entry.bytes) {
        return Ok(());
    }
    let life = if entry.bytes.len() == 8 {
        LittleEndian::read_u64(&entry.bytes)
    } else {
        u64::MAX
    };
    if life < u64::MAX {
        add(alloc, entry.key, &(life + 1).to_le_bytes(), changes)
    } else {
        add(alloc, entry.key, &[], changes)
    }
}

/// Adds the change that leaves no bytes of an entry.
fn add_cleared(alloc: Global, entry: &Entry, changes: &mut Vec<Entry>) -> Result<(), AllocError>
    requires { All IsKeepable changes.old.items }
    ensures added { OnOk result (pairs_of changes.new.items ≡ pairs_of changes.old.items ++ cleared (pair_of entry.now)) }
    ensures keepable { OnOk result (All IsKeepable changes.new.items) }
{
    if entry.bytes.is_empty() || !is_small(entry.key, &entry.bytes) {
        return Ok(());
    }
    add(alloc, entry.key, &[], changes)
}

/// Adds the change that leaves the next ticket and no mark.
fn add_unmarked(alloc: Global, entry: &Entry, changes: &mut Vec<Entry>) -> Result<(), AllocError>
    requires { All IsKeepable changes.old.items }
    ensures added { OnOk result (pairs_of changes.new.items ≡ pairs_of changes.old.items ++ unmarked (pair_of entry.now)) }
    ensures keepable { OnOk result (All IsKeepable changes.new.items) }
{
    if entry.bytes.len() != 12 || !is_small(entry.key, &entry.bytes) {
        return Ok(());
    }
    add(alloc, entry.key, &entry.bytes[..8], changes)
}

/// Whether the configured value of this key is wanted.
fn is_reset(wishes: &Wishes, key: u64) -> bool
    ensures { result ≡ is_reset wishes.now key }
{
    wishes.resets.iter().any(|k| *k == key)
}

/// Whether a value becomes the configured one.
fn becomes_configured(wishes: &Wishes, key: u64, state: ValueState) -> bool
    ensures { result ≡ becomes_configured wishes.now key state }
{
    match state {
        ValueState::Missing => false,
        ValueState::Configured => true,
        ValueState::Written => is_reset(wishes, key),
        ValueState::Unfit => wishes.accepts_config || is_reset(wishes, key),
    }
}

/// Whether a value is not allowed any more, and nobody says what to do.
fn stays_unfit(wishes: &Wishes, key: u64, state: ValueState) -> bool
    ensures { result ≡ stays_unfit wishes.now key state }
{
    state == ValueState::Unfit && !wishes.accepts_config && !is_reset(wishes, key)
}

/// Adds the changes of values, by their entries as they are configured.
fn add_changes_of_values(
    alloc: Global,
    config: &Config,
    wishes: &Wishes,
    entries: &[Entry],
    values: &[Entry],
    changes: &mut Vec<Entry>,
) -> Result<(), AllocError>
    requires { All IsKeepable changes.old.items }
    ensures added { OnOk result (pairs_of changes.new.items ≡ pairs_of changes.old.items
        ++ changes_of_values config.now wishes.now (pairs_of entries.now) (pairs_of values.now)) }
    ensures keepable { OnOk result (All IsKeepable changes.new.items) }
{
    for value in values {
        add_changes_of_value(alloc, config, wishes, entries, value, changes)?;
    }
    Ok(())
}

/// Adds the changes of a value, by its entry as it is configured.
fn add_changes_of_value(
    alloc: Global,
    config: &Config,
    wishes: &Wishes,
    entries: &[Entry],
    value: &Entry,
    changes: &mut Vec<Entry>,
) -> Result<(), AllocError>
    requires { All IsKeepable changes.old.items }
    ensures added { OnOk result (pairs_of changes.new.items ≡ pairs_of changes.old.items
        ++ changes_of_value config.now wishes.now (pairs_of entries.now) (pair_of value.now)) }
    ensures keepable { OnOk result (All IsKeepable changes.new.items) }
{
    if !is_of_value(value.key) {
        return Ok(());
    }
    let state = state_in(config, entries, value);
    if becomes_configured(wishes, value.key, state) {
        add_change_to(alloc, value.key, &value.bytes, entries, changes)?;
    }
    if stays_unfit(wishes, value.key, state) {
        return Ok(());
    }
    add_origin(
        alloc,
        kind_under(config, value.key),
        value,
        entries,
        changes,
    )
}

/// Adds the change that notes the origin of a value of this kind, by its entry as it is configured.
fn add_origin(
    alloc: Global,
    kind: Option<AttributeKind>,
    value: &Entry,
    entries: &[Entry],
    changes: &mut Vec<Entry>,
) -> Result<(), AllocError>
    requires key { value.now.key < 2 ^ 48 }
    requires keepable { All IsKeepable changes.old.items }
    ensures added { OnOk result (pairs_of changes.new.items ≡ pairs_of changes.old.items
        ++ change_to (origin_key value.now.key) (origin_bytes (description kind) value.now.bytes.items)
        (pairs_of entries.now)) }
    ensures keepable { OnOk result (All IsKeepable changes.new.items) }
{
    let mut description = ReplyBuf::new();
    write_description(kind, &mut description);
    let mut bytes = Vec::new(alloc);
    bytes.push(description.len() as u8)?;
    bytes.extend_from_slice(&description)?;
    bytes.extend_from_slice(&value.bytes)?;
    add_change_to(alloc, origin_key(value.key), &bytes, entries, changes)
}
