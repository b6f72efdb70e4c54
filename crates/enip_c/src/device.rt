//! The device's own calls of its adapter, and the connections that ended.

ghost use Rattle.std.specs.Prelude.{◌≡◌, Some, None, slice_get};
ghost use Rattle.std.specs.Option.{option_map};
ghost use Rattle.cip_objects.specs.DeviceWrites.{with_device_status, with_device_state};
ghost use Rattle.enip_adapter.specs.Device.{with_objects};
ghost use Rattle.enip_adapter.specs.Endings.{no_endings, updated};
ghost use Rattle.enip_c.specs.DeviceCalls.{IsWrittenKept, data_written, attribute_written, changes_kept};
ghost use Rattle.enip_c.specs.DeviceCalls.{attribute_changes_kept, end_reason_number, looked_kept, ended_kept, resets_kept};
ghost use Rattle.enip_c.specs.DeviceCalls.{ReturnsEnding, write_status};
ghost use Rattle.enip_c.specs.Kept.{IsLive};
ghost use Rattle.enip_c.specs.Buffer.{status_number, ReturnsNumber, IsMadeStatus};

use crate::adapter_pointer::KeptAdapter;
use crate::kept_endings::KeptEndings;
use crate::status::Status;
use cip_owner::Resetting;
use enip_adapter::{EndReason, Endings};
use std::alloc::Global;

/// A connection that ended: `enip_ended` of `enip.h`.
#[repr(C)]
#[derive(Clone, Copy, Debug)]
pub struct CEndedConnection {
    /// Its O->T connection ID.
    pub id: u32,
    /// The peer that opened it.
    pub peer: u32,
    /// Why it ended: 1 it timed out, 2 its peer was removed, 3 its session ended, 4 it was closed.
    pub why: u32,
}

/// Writes to the data of an assembly, as the device.
#[unsafe(no_mangle)]
pub extern "C" fn enip_core_adapter_write(
    alloc: Global,
    kept: &mut KeptAdapter,
    instance: u32,
    offset: usize,
    bytes: &[u8],
) -> u32
    requires { IsLive kept.old.value }
    ensures { IsWrittenKept kept.old.value kept.new.value (data_written instance offset bytes.now) result }
{
    let mut adapter = kept.take(alloc);
    let status = status_of(adapter.write_data(instance, offset, bytes));
    *kept = KeptAdapter::of(adapter);
    status.number()
}

/// Writes to an attribute of an application object, or to the data of an assembly, as the device.
#[unsafe(no_mangle)]
pub extern "C" fn enip_core_adapter_write_attribute(
    alloc: Global,
    kept: &mut KeptAdapter,
    class: u16,
    instance: u32,
    attribute: u16,
    offset: usize,
    bytes: &[u8],
) -> u32
    requires { IsLive kept.old.value }
    ensures { IsWrittenKept kept.old.value kept.new.value
        (attribute_written class instance attribute offset bytes.now) result }
{
    let mut adapter = kept.take(alloc);
    let status = status_of(adapter.write_attribute(class, instance, attribute, offset, bytes));
    *kept = KeptAdapter::of(adapter);
    status.number()
}

fn status_of(written: bool) -> Status
    ensures { result ≡ write_status written }
{
    if written {
        Status::Done
    } else {
        Status::Absent
    }
}

/// Sets the device's status.
#[unsafe(no_mangle)]
pub extern "C" fn enip_core_adapter_set_status(alloc: Global, kept: &mut KeptAdapter, status: u16)
    requires { IsLive kept.old.value }
    ensures { kept.new.value
        ≡ option_map (λ a. with_objects a (with_device_status a.state.shared.objects.router.objects status)) kept.old.value }
{
    let mut adapter = kept.take(alloc);
    adapter.set_device_status(status);
    *kept = KeptAdapter::of(adapter);
}

/// Sets the device's state.
#[unsafe(no_mangle)]
pub extern "C" fn enip_core_adapter_set_state(alloc: Global, kept: &mut KeptAdapter, state: u8)
    requires { IsLive kept.old.value }
    ensures { kept.new.value
        ≡ option_map (λ a. with_objects a (with_device_state a.state.shared.objects.router.objects state)) kept.old.value }
{
    let mut adapter = kept.take(alloc);
    adapter.set_device_state(state);
    *kept = KeptAdapter::of(adapter);
}

/// The number of times that peers have written data of an assembly.
#[unsafe(no_mangle)]
pub extern "C" fn enip_core_adapter_changes(
    alloc: Global,
    kept: &mut KeptAdapter,
    instance: u32,
    changes: &mut u32,
) -> u32
    requires { IsLive kept.old.value }
    ensures kept { kept.new.value ≡ kept.old.value }
    ensures returned { ReturnsNumber (changes_kept kept.old.value instance) changes.old changes.new result }
{
    let adapter = kept.take(alloc);
    let status = return_changes(adapter.changes(instance), changes);
    *kept = KeptAdapter::of(adapter);
    status
}

fn return_changes(count: Option<u32>, changes: &mut u32) -> u32
    ensures { ReturnsNumber count changes.old changes.new result }
{
    match count {
        Some(count) => {
            *changes = count;
            Status::Done.number()
        }
        None => Status::Absent.number(),
    }
}

/// The number of times that peers have set an attribute of an application object, or the data of an assembly.
#[unsafe(no_mangle)]
pub extern "C" fn enip_core_adapter_attribute_changes(
    alloc: Global,
    kept: &mut KeptAdapter,
    class: u16,
    instance: u32,
    attribute: u16,
    changes: &mut u32,
) -> u32
    requires { IsLive kept.old.value }
    ensures kept { kept.new.value ≡ kept.old.value }
    ensures returned { ReturnsNumber (attribute_changes_kept kept.old.value class instance attribute)
        changes.old changes.new result }
{
    let adapter = kept.take(alloc);
    let status = return_changes(
        adapter.attribute_changes(class, instance, attribute),
        changes,
    );
    *kept = KeptAdapter::of(adapter);
    status
}

/// The number of resets that were executed.
#[unsafe(no_mangle)]
pub extern "C" fn enip_core_adapter_resets(
    alloc: Global,
    kept: &mut KeptAdapter,
    resets: &mut u32,
) -> u32
    requires { IsLive kept.old.value }
    ensures kept { kept.new.value ≡ kept.old.value }
    ensures returned { ReturnsNumber (resets_kept kept.old.value) resets.old resets.new result }
{
    let adapter = kept.take(alloc);
    let status = return_changes(executed(adapter.resetting()), resets);
    *kept = KeptAdapter::of(adapter);
    status
}

/// The number of resets that were executed, if the device can be reset.
fn executed(resetting: Option<&Resetting>) -> Option<u32>
    ensures { result ≡ option_map (λ reset. reset.now.executed) resetting.entry }
{
    match resetting {
        Some(resetting) => Some(resetting.executed()),
        None => None,
    }
}

/// Makes endings that have not seen an adapter yet.
#[unsafe(no_mangle)]
pub extern "C" fn enip_core_endings_new(alloc: Global, kept: &mut KeptEndings) -> u32
    ensures status { IsMadeStatus result }
    ensures made { result ≡ status_number Status.Done → kept.new.value ≡ Some no_endings }
    ensures unchanged { (result ≡ status_number Status.Done → ⊥) → kept.new.value ≡ kept.old.value }
{
    let Ok(boxed) = Box::new(alloc, Endings::new()) else {
        return Status::Memory.number();
    };
    *kept = KeptEndings::of(boxed);
    Status::Done.number()
}

/// Frees endings.
#[unsafe(no_mangle)]
pub extern "C" fn enip_core_endings_free(alloc: Global, kept: &mut KeptEndings)
    requires { IsLive kept.old.value }
    ensures { kept.new.value ≡ None }
{
    drop(kept.take(alloc));
}

/// Updates endings from their adapter.
#[unsafe(no_mangle)]
pub extern "C" fn enip_core_endings_update(
    alloc: Global,
    kept: &mut KeptEndings,
    of: &mut KeptAdapter,
)
    requires endings { IsLive kept.old.value }
    requires adapter { IsLive of.old.value }
    ensures endings { kept.new.value ≡ looked_kept kept.old.value of.old.value }
    ensures adapter { of.new.value ≡ of.old.value }
{
    let mut endings = kept.take(alloc);
    let adapter = of.take(alloc);
    endings.update(&adapter);
    *of = KeptAdapter::of(adapter);
    *kept = KeptEndings::of(endings);
}

/// Entry `place`, counted from 0, of the connections that had ended at the last update.
#[unsafe(no_mangle)]
pub extern "C" fn enip_core_endings_at(
    alloc: Global,
    kept: &mut KeptEndings,
    place: usize,
    ended: &mut CEndedConnection,
) -> u32
    requires { IsLive kept.old.value }
    ensures kept { kept.new.value ≡ kept.old.value }
    ensures returned { ReturnsEnding (ended_kept kept.old.value place) ended.old ended.new result }
{
    let endings = kept.take(alloc);
    let status = tell(&endings, place, ended);
    *kept = KeptEndings::of(endings);
    status
}

fn tell(endings: &Endings, place: usize, returned: &mut CEndedConnection) -> u32
    ensures { ReturnsEnding (slice_get endings.now.ended place) returned.old returned.new result }
{
    let Some(ended) = endings.ended().get(place) else {
        return Status::Absent.number();
    };
    *returned = CEndedConnection {
        id: ended.id,
        peer: ended.session,
        why: number_of(ended.reason),
    };
    Status::Done.number()
}

fn number_of(why: EndReason) -> u32
    ensures { result ≡ end_reason_number why }
{
    match why {
        EndReason::TimedOut => 1,
        EndReason::PeerEnded => 2,
        EndReason::SessionEnded => 3,
        EndReason::Closed => 4,
    }
}
