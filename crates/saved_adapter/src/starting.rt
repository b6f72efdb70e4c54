//! An adapter that starts from a saved state.

ghost use Rattle.std.specs.Prelude.{◌≡◌, false, IfOk, IfErr, OnOk};
ghost use Rattle.enip_keep.specs.Kept.{pairs_of};
ghost use Rattle.saved_adapter.specs.Entries.{kept_in};
ghost use Rattle.saved_adapter.specs.Starting.{IsFaultWith, IsRestoreFault, IsStartedFrom, IsStartedWith, IsStateFault};
ghost use Rattle.saved_adapter.specs.Starting.{is_nameless};

use device_state::identity_key;
use enip_adapter::Adapter;
use enip_keep::Entry;
use kept_adapter::{AdapterStart, StartFault};
use saved_state::{SavedState, StateFault};
use std::alloc::{AllocError, Global};
use thiserror::Error;

/// Why no adapter starts from a state.
#[derive(Clone, Copy, Debug, PartialEq, Eq, Error)]
pub enum RestoreFault {
    /// Out of memory.
    #[error("out of memory")]
    Memory,
    /// The bytes are not a state.
    #[error("{0}")]
    Malformed(StateFault),
    /// The state is that of another device: of another vendor, product code or serial number.
    #[error("the saved state is that of another device")]
    OtherDevice,
    /// The assemblies or the application objects are not configured in rising order.
    #[error("the assemblies or the objects are not configured in rising order")]
    Order,
}

/// Makes the adapter that starts from a state: its ledger goes on in the same life, and each value that is kept is as
/// it was. `bytes` are those of the state, or there are none: then the device starts for the first time.
///
/// A value that the configuration does not have any more, or has with another size, is left out, as in `kept_adapter`.
///
/// # Errors
///
/// `Malformed` if the bytes are not a state, `OtherDevice` if the state is that of another device, `Order` if the
/// assemblies or the application objects are not configured in rising order, `Memory` if memory is refused.
///
/// ```
/// let adapter = start(alloc, &configured, state)?;
/// ```
pub fn start(
    alloc: Global,
    configured: &AdapterStart,
    bytes: &[u8],
) -> Result<Adapter, RestoreFault>
    ensures started { IfOk result (IsStartedFrom configured.now bytes.now) }
    ensures cause { IfErr result (IsRestoreFault configured.now bytes.now) }
{
    if bytes.is_empty() {
        return start_from(alloc, configured, &[]);
    }
    match SavedState::read(bytes) {
        Ok(state) => start_from_state(alloc, configured, &state),
        Err(why) => Err(RestoreFault::Malformed(why)),
    }
}

/// Makes the adapter that starts from a state.
fn start_from_state(
    alloc: Global,
    configured: &AdapterStart,
    state: &SavedState<'_>,
) -> Result<Adapter, RestoreFault>
    ensures started { IfOk result (IsStartedWith configured.now (kept_in state.now.entries)) }
    ensures named { OnOk result (is_nameless state.now ≡ false) }
    ensures cause { IfErr result (IsStateFault configured.now state.now) }
{
    if state.find(identity_key()).is_none() {
        return Err(RestoreFault::OtherDevice);
    }
    match entries_of(alloc, state) {
        Ok(entries) => start_from(alloc, configured, &entries),
        Err(_) => Err(RestoreFault::Memory),
    }
}

/// Makes the adapter that starts from entries.
fn start_from(
    alloc: Global,
    configured: &AdapterStart,
    entries: &[Entry],
) -> Result<Adapter, RestoreFault>
    ensures started { IfOk result (IsStartedWith configured.now (pairs_of entries.now)) }
    ensures cause { IfErr result (IsFaultWith configured.now (pairs_of entries.now)) }
{
    match configured.start_from(alloc, entries) {
        Ok(adapter) => Ok(adapter),
        Err(StartFault::Memory) => Err(RestoreFault::Memory),
        Err(StartFault::OtherDevice) => Err(RestoreFault::OtherDevice),
        Err(StartFault::Order) => Err(RestoreFault::Order),
    }
}

/// The entries of a state, copied.
fn entries_of(alloc: Global, state: &SavedState<'_>) -> Result<Vec<Entry>, AllocError>
    ensures { IfOk result (λ entries. pairs_of entries.items ≡ kept_in state.now.entries) }
{
    let mut entries = Vec::new(alloc);
    for view in state.entries() {
        let mut bytes = Vec::new(alloc);
        bytes.extend_from_slice(view.bytes)?;
        entries.push(Entry {
            key: view.key,
            bytes,
        })?;
    }
    Ok(entries)
}
