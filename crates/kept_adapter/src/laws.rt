//! What holds of a device over restarts. The functions do nothing: their clauses are the laws.
//!
//! `restarted` in `specs/Restarts.antt` defines the device that starts from what is kept of a device, `after_life_steps`
//! the device after requests, its own writes and restarts, in any order, and `journal_over_restarts` the commands that are
//! executed in them. A crash is a restart: it leaves what is kept of the device after some round, as
//! `live_adapter` states.

ghost use Rattle.kept_adapter.specs.RestartLaws.{new_adapter_law, ledger_goes_on_law, ledger_or_new_law, values_go_on_law};
ghost use Rattle.kept_adapter.specs.RestartLaws.{queue_goes_on_law, queue_or_new_law, queue_over_restarts_law, values_stay_law};
ghost use Rattle.kept_adapter.specs.RestartLaws.{fitting_ledger_law, fitting_queue_law};
ghost use Rattle.kept_adapter.specs.RestartLaws.{no_hindrance_law, unhindered_goes_on_law, new_queue_new_life_law, later_life_law};
ghost use Rattle.kept_adapter.specs.RestartLaws.{later_device_life_law, prepared_values_law};
ghost use Rattle.kept_adapter.specs.RestartLaws.{others_begin_again_law, first_device_law, device_stays_law};
ghost use Rattle.kept_adapter.specs.RestartLaws.{device_over_restarts_law, server_law, server_kept_law, crash_law};
ghost use Rattle.kept_adapter.specs.RestartLaws.{once_over_restarts_law, rising_over_restarts_law};
ghost use Rattle.kept_adapter.specs.RestartLaws.{steps_fit_law, adapter_once_law};
ghost use Rattle.kept_adapter.specs.RestartLaws.{same_bytes_over_restarts_law, final_bytes_over_restarts_law};
ghost use Rattle.kept_adapter.specs.RestartLaws.{each_life_once_law, keeps_slot_over_restarts_law};

use enip_server::Wire;

/// A restart goes on with the ledger if the configuration has as many slots and as large a queue, and wants no new life:
/// the life, the slots, the kept replies, the tickets and the doubts are the same. With any other configuration the
/// ledger goes on, with as many slots as are configured, or it is new, in the configured life. Sessions and connections
/// are gone.
pub fn ledger_goes_on()
    ensures adapter { new_adapter_law }
    ensures same { ledger_goes_on_law }
    ensures any { ledger_or_new_law }
{}

/// Such a restart goes on with the queue, too: the next ticket, the commands that wait and the results are the same. With
/// any other configuration the queue goes on, with as many places as are configured, or it is new. Over restarts that go
/// on with it, it is the queue after the commands that were put into it and those that the owner finished, in order.
pub fn queue_goes_on()
    ensures same { queue_goes_on_law }
    ensures any { queue_or_new_law }
    ensures steps { queue_over_restarts_law }
{}

/// A restart whose configuration has room for the slots that are taken and the commands that wait, and wants no new life,
/// goes on with the ledger and the queue, with as many slots and places as are configured.
pub fn fitting_restarts_go_on()
    ensures ledger { fitting_ledger_law }
    ensures queue { fitting_queue_law }
{}

/// A configuration that nothing hinders has room for the slots that are taken and the commands that wait, so the start goes
/// on with the ledger and the queue, if it wants no new life and has both as the device has.
pub fn unhindered_restarts_go_on()
    ensures fit { no_hindrance_law }
    ensures go_on { unhindered_goes_on_law }
{}

/// A restart with any configuration goes on with the queue, or the ledger is new, in the configured life, if the
/// configuration has a queue exactly if the device has one. `in_later_life` gives that life a greater number than that of the
/// device, unless that has the greatest of all.
pub fn new_queues_begin_lives()
    ensures queue { new_queue_new_life_law }
    ensures later { later_life_law }
    ensures device { later_device_life_law }
{}

/// By the changes before a start, each value that is as it was configured follows the configuration, and each one that was
/// written stays, unless it is reset, if the objects are configured in rising order.
pub fn values_are_prepared()
    ensures { prepared_values_law }
{}

/// Each value that is kept is as it was before the restart, and each other value is as it is configured. A value stays
/// one that it can have.
pub fn values_go_on()
    ensures kept { values_go_on_law }
    ensures others { others_begin_again_law }
    ensures stay { values_stay_law }
{}

/// What the laws assume of a device holds of one that starts from nothing, and still holds after each step. What they
/// assume of a step holds of those of an adapter, if what its peers send consists of bytes.
pub fn devices_stay()
    ensures first { first_device_law }
    ensures step { device_stays_law }
    ensures bytes { steps_fit_law }
{}

/// The device of an adapter over restarts is the device after the requests that reach it, its own writes and the
/// restarts, in order.
pub fn restarts_are_steps()
    ensures { device_over_restarts_law }
{}

/// The adapter of a server that keeps its state is the adapter after the calls of its rounds and the restarts, in order,
/// if each configuration has the same tables. What is kept is what is kept of that adapter, and so is what a crash may
/// leave (`live_adapter`): the adapter is that after steps of the events.
pub fn servers_restart<W: Wire + Drop>()
    ensures adapter { server_law W }
    ensures kept { server_kept_law W }
    ensures left { crash_law W }
{}

/// Over restarts that go on with the ledger, no number of an originator is executed twice, and the numbers rise, unless
/// the originator's slot is freed in between. So it is of an adapter that starts from nothing, over any calls and any
/// restarts with as many slots and as large a queue.
pub fn once_over_restarts()
    ensures once { once_over_restarts_law }
    ensures rising { rising_over_restarts_law }
    ensures adapter { adapter_once_law }
{}

/// Over restarts that go on with the ledger, every two success answers to a number have the same bytes, or the first says
/// that the command is pending. A device without a queue never says so.
pub fn same_bytes_over_restarts()
    ensures any { same_bytes_over_restarts_law }
    ensures without_queue { final_bytes_over_restarts_law }
{}

/// Over restarts that go on with the ledger, a command that is pending keeps its slot until the owner finishes it: until
/// then no later command of its originator is taken, and no Forget frees the slot.
pub fn one_pending_over_restarts()
    ensures { keeps_slot_over_restarts_law }
{}

/// Over restarts with any configurations, no number of an originator is executed twice in one life of the device, unless
/// the originator's slot is freed in between.
pub fn once_in_each_life()
    ensures { each_life_once_law }
{}
