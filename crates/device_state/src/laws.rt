//! What holds of a device that starts from what was saved. The functions do nothing: their clauses are the laws.

ghost use Rattle.device_state.specs.Laws.{saved_law, used_law, others_law, other_device_law, version_law, version_2_law};
ghost use Rattle.device_state.specs.QueueEntries.{queue_law};

/// A device of the same configuration that starts from what was saved of a device uses every entry. Its ledger is the
/// same, and it is saved in the same entries: every value that is kept is the same.
pub fn restored_is_saved()
    ensures { saved_law }
{}

/// The same without a premise on the values, if each entry was used: a device that checks what `restore` returns goes on
/// with the same ledger and the same values.
pub fn used_is_saved()
    ensures { used_law }
{}

/// What no entry names stays as the configuration made it.
pub fn others_stay()
    ensures { others_law }
{}

/// The entry of another device is reported, and changes nothing.
pub fn other_device_is_reported()
    ensures { other_device_law }
{}

/// The first entry of a state, which says which device it is, is used by the same device, with either version.
pub fn either_version_is_used()
    ensures { version_law }
{}

/// With a mark or a withdrawn command this entry is not one that a program of version 1 writes, for any device: such a program
/// refuses the state.
pub fn version_1_refuses_version_2()
    ensures { version_2_law }
{}

/// A queue with as many places that starts from the entries of a queue is that queue: the next ticket, what was handed over,
/// the commands that wait and the results are the same.
pub fn queue_is_kept()
    ensures { queue_law }
{}
