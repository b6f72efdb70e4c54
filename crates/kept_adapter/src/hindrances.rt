//! Why a device does not start from what is kept: something of it would be lost.
ghost use Rattle.std.specs.Prelude.{◌≡◌, ◌++◌, IfOk, OnOk};
ghost use Rattle.enip_keep.specs.Kept.{pair_of, pairs_of};
ghost use Rattle.device_state.specs.QueueEntries.{spelled_command};
ghost use Rattle.kept_adapter.specs.Hindrances.{count_of, disallowed, hindrances, is_queued, is_taken, is_taken_by, is_waiting};
ghost use Rattle.kept_adapter.specs.Hindrances.{of_commands, places_in, service_at, service_in, slots_in, takes, too_few_places, too_few_slots};
ghost use Rattle.kept_adapter.specs.Hindrances.{without_service};
ghost use Rattle.kept_adapter.specs.Preparing.{configured_values};

use crate::adapter_start::AdapterStart;
use crate::keys::{is_ledger_key, is_queue_key, ledger_key, queue_number};
use crate::origins::{ValueState, object_in};
use crate::preparing::{is_of_value, state_in};
use byteorder::{ByteOrder, LittleEndian};
use cip_application::{ServiceConfig, ServiceKind};
use cip_objects::Config;
use enip_keep::Entry;
use std::alloc::{AllocError, Global};

/// The places for waiting commands.
const PLACES: u16 = 256;

/// The bytes of a waiting command before its data.
const COMMAND_HEAD: usize = 13;

/// Why a device does not start from what is kept.
#[derive(Clone, Copy, Debug, PartialEq, Eq)]
pub enum Hindrance {
    /// The entries are those of another device.
    OtherDevice,
    /// So many commands wait, and the queue of the configuration has so many places, 0 if there is none.
    TooFewPlaces(usize, usize),
    /// So many slots of the command ledger are taken, and that of the configuration has so many, 0 if there is none.
    TooFewSlots(usize, usize),
    /// The command under this key waits, and the configuration has no such service that is queued, or one whose data or whose
    /// reply have other sizes.
    NoService(u64),
    /// The value under this key was written, and its type or range does not allow it any more.
    Disallowed(u64),
}

impl AdapterStart {
    /// What would be lost if a device started from these entries: a prudent program does not start it then. Empty if nothing
    /// would be. If `begins_life` is set, the commands are dropped anyway, and only values are looked at.
    ///
    /// # Errors
    ///
    /// `AllocError` if memory is refused.
    ///
    /// ```
    /// for hindrance in &start.hindrances(alloc, &entries)? {
    ///     report(hindrance);
    /// }
    /// ```
    pub fn hindrances(&self, alloc: Global, entries: &[Entry]) -> Result<Vec<Hindrance>, AllocError>
        ensures { IfOk result (λ all. all.items ≡ hindrances self.now (pairs_of entries.now)) }
    {
        let mut all = Vec::new(alloc);
        if self.put_back(alloc, entries)?.is_other_device {
            all.push(Hindrance::OtherDevice)?;
            return Ok(all);
        }
        let values = self.configured_values(alloc)?;
        self.add_of_commands(entries, &mut all)?;
        add_disallowed(&self.objects, entries, &values, &mut all)?;
        Ok(all)
    }

    /// Adds those of commands.
    fn add_of_commands(&self, entries: &[Entry], all: &mut Vec<Hindrance>) -> Result<(), AllocError>
        ensures { OnOk result (all.new.items ≡ all.old.items ++ of_commands self.now (pairs_of entries.now)) }
    {
        if self.begins_life {
            return Ok(());
        }
        self.add_too_few_places(entries, all)?;
        self.add_too_few_slots(entries, all)?;
        add_without_service(&self.objects, entries, all)
    }

    /// Adds that of the queue.
    fn add_too_few_places(
        &self,
        entries: &[Entry],
        all: &mut Vec<Hindrance>,
    ) -> Result<(), AllocError>
        ensures { OnOk result (all.new.items ≡ all.old.items ++ too_few_places self.now (pairs_of entries.now)) }
    {
        let (waiting, places) = (waiting_commands(entries), self.places());
        if places < waiting {
            all.push(Hindrance::TooFewPlaces(waiting, places))?;
        }
        Ok(())
    }

    /// Adds that of the slots.
    fn add_too_few_slots(
        &self,
        entries: &[Entry],
        all: &mut Vec<Hindrance>,
    ) -> Result<(), AllocError>
        ensures { OnOk result (all.new.items ≡ all.old.items ++ too_few_slots self.now (pairs_of entries.now)) }
    {
        let (taken, slots) = (taken_slots(entries), self.slots());
        if slots < taken {
            all.push(Hindrance::TooFewSlots(taken, slots))?;
        }
        Ok(())
    }

    /// How many commands may wait.
    fn places(&self) -> usize
        ensures { result ≡ places_in self.now }
    {
        match self.queue {
            Some(places) => usize::from(places),
            None => 0,
        }
    }

    /// How many slots the command ledger has.
    fn slots(&self) -> usize
        ensures { result ≡ slots_in self.now }
    {
        match self.ledger {
            Some(ledger) => usize::from(ledger.originators),
            None => 0,
        }
    }
}

/// Whether an entry is that of a command that waits.
///
/// ```
/// let first = entries.iter().find(|entry| is_waiting(entry));
/// ```
pub fn is_waiting(entry: &Entry) -> bool
    ensures { result ≡ is_waiting (pair_of entry.now) }
{
    is_queue_key(entry.key)
        && queue_number(entry.key) != 0
        && queue_number(entry.key) <= PLACES
        && !entry.bytes.is_empty()
}

/// Whether an entry is that of a slot of the command ledger that is taken.
///
/// ```
/// let first = entries.iter().find(|entry| is_taken(entry));
/// ```
pub fn is_taken(entry: &Entry) -> bool
    ensures { result ≡ is_taken (pair_of entry.now) }
{
    is_ledger_key(entry.key) && entry.key != ledger_key(0) && !entry.bytes.is_empty()
}

/// How many commands wait in the queue that is kept.
///
/// ```
/// let waiting = waiting_commands(&entries);
/// ```
pub fn waiting_commands(entries: &[Entry]) -> usize
    ensures { result ≡ count_of is_waiting (pairs_of entries.now) }
{
    let mut count = 0;
    for entry in entries {
        if is_waiting(entry) {
            count += 1;
        }
    }
    count
}

/// How many slots are taken in the command ledger that is kept.
///
/// ```
/// let taken = taken_slots(&entries);
/// ```
pub fn taken_slots(entries: &[Entry]) -> usize
    ensures { result ≡ count_of is_taken (pairs_of entries.now) }
{
    let mut count = 0;
    for entry in entries {
        if is_taken(entry) {
            count += 1;
        }
    }
    count
}

/// Adds the commands of which the configuration has no such service.
fn add_without_service(
    config: &Config,
    entries: &[Entry],
    all: &mut Vec<Hindrance>,
) -> Result<(), AllocError>
    ensures { OnOk result (all.new.items ≡ all.old.items ++ without_service config.now (pairs_of entries.now)) }
{
    for entry in entries {
        if is_waiting(entry) && !is_taken_by(config, &entry.bytes) {
            all.push(Hindrance::NoService(entry.key))?;
        }
    }
    Ok(())
}

/// Whether the configuration has a service that takes the command that these bytes spell.
fn is_taken_by(config: &Config, bytes: &[u8]) -> bool
    ensures { result ≡ is_taken_by config.now (spelled_command bytes.now) }
{
    if bytes.len() < COMMAND_HEAD {
        return false;
    }
    let class = LittleEndian::read_u16(&bytes[4..]);
    let instance = LittleEndian::read_u32(&bytes[6..]);
    let reply = LittleEndian::read_u16(&bytes[11..]);
    takes(
        service_at(config, class, instance, bytes[10]),
        bytes[COMMAND_HEAD..].len(),
        reply,
    )
}

/// The service of an object.
fn service_at(config: &Config, class: u16, instance: u32, number: u8) -> Option<ServiceConfig>
    ensures { result ≡ service_at config.now class instance number }
{
    let object = object_in(&config.objects, class, instance)?;
    service_in(&object.services, number)
}

/// Whether a service takes a command whose data have this size, and whose reply may have so many bytes.
fn takes(service: Option<ServiceConfig>, size: usize, reply: u16) -> bool
    ensures { result ≡ takes service size reply }
{
    let Some(service) = service else {
        return false;
    };
    is_queued(service.kind)
        && usize::from(service.least) <= size
        && size <= usize::from(service.most)
        && reply == service.reply
}

/// The service with this number.
fn service_in(services: &[ServiceConfig], number: u8) -> Option<ServiceConfig>
    ensures { result ≡ service_in number services.now }
{
    for service in services {
        if service.number == number {
            return Some(*service);
        }
    }
    None
}

/// Whether the requests of such a service are queued.
fn is_queued(kind: ServiceKind) -> bool
    ensures { result ≡ is_queued kind }
{
    kind == ServiceKind::Queued
}

/// Adds the values that their type or range does not allow any more, of these, as they are configured.
fn add_disallowed(
    config: &Config,
    entries: &[Entry],
    values: &[Entry],
    all: &mut Vec<Hindrance>,
) -> Result<(), AllocError>
    ensures { OnOk result (all.new.items
        ≡ all.old.items ++ disallowed config.now (pairs_of entries.now) (pairs_of values.now)) }
{
    for value in values {
        if is_of_value(value.key) && state_in(config, entries, value) == ValueState::Unfit {
            all.push(Hindrance::Disallowed(value.key))?;
        }
    }
    Ok(())
}
