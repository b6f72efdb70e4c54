//! How often peers have set an attribute, and how many of these sets were reported.

ghost use Rattle.std.specs.Prelude.{◌≡◌, ◌++◌, IfOk, OnOk, map};
ghost use Rattle.owner_port.specs.Sets.{count_of, sets_since, with_reported, new_count, tallies_in};

use enip_adapter::Adapter;
use enip_owner::AttributeRef;
use std::alloc::{AllocError, Global};

/// How many of the sets of an attribute by peers were reported, modulo 2^32.
#[derive(Clone, Copy, Debug)]
pub(crate) struct SetCount {
    /// The attribute.
    pub(crate) attribute: AttributeRef,
    /// The count of its sets when they were reported last.
    pub(crate) reported: u32,
}

/// What was reported of what peers have done to the device.
#[derive(Drop)]
pub(crate) struct Counts {
    /// How many sets of each attribute that peers can set.
    pub(crate) sets: Vec<SetCount>,
    /// How many resets, modulo 2^32.
    pub(crate) resets: u32,
}

impl SetCount {
    /// How many sets of the attribute were not reported. They count as reported from now on.
    pub(crate) fn take(&mut self, adapter: &Adapter) -> u32
        ensures sets { result ≡ sets_since (tallies_in adapter.now) self.old }
        ensures reported { self.new ≡ with_reported (tallies_in adapter.now) self.old }
    {
        let count = count_of(self.attribute, adapter);
        let sets = count.wrapping_sub(self.reported);
        self.reported = count;
        sets
    }
}

/// How often peers have set an attribute, modulo 2^32.
fn count_of(attribute: AttributeRef, adapter: &Adapter) -> u32
    ensures { result ≡ count_of (tallies_in adapter.now) attribute }
{
    adapter
        .attribute_changes(attribute.class, attribute.instance, attribute.attribute)
        .unwrap_or(0)
}

/// The counts of these attributes. What was set up to now counts as reported.
pub(crate) fn new_counts(
    alloc: Global,
    attributes: &[AttributeRef],
    adapter: &Adapter,
) -> Result<Vec<SetCount>, AllocError>
    ensures { IfOk result (λ counts. counts.items ≡ map (new_count (tallies_in adapter.now)) attributes.now) }
{
    let mut counts = Vec::new(alloc);
    append_counts(attributes, adapter, &mut counts)?;
    Ok(counts)
}

/// Appends the counts of these attributes.
fn append_counts(
    attributes: &[AttributeRef],
    adapter: &Adapter,
    counts: &mut Vec<SetCount>,
) -> Result<(), AllocError>
    ensures { OnOk result (counts.new.items
        ≡ counts.old.items ++ map (new_count (tallies_in adapter.now)) attributes.now) }
{
    let Some((attribute, others)) = attributes.split_first() else {
        return Ok(());
    };
    counts.push(SetCount {
        attribute: *attribute,
        reported: count_of(*attribute, adapter),
    })?;
    append_counts(others, adapter, counts)
}
