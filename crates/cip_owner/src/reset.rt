//! Reset of the Identity object.
//! Text: docs/PROTOCOL.md, "Objects".
ghost use Rattle.std.specs.Prelude.{◌≡◌, ◌++◌, true, None, Err, IfOk, IfErr, IfSome, option_map};
ghost use Rattle.std.specs.Box.{boxed_slice_items};
ghost use Rattle.cip_objects.specs.Configuration.{fault_of};
ghost use Rattle.cip_objects.specs.Kept.{counter_names, name_of};
ghost use Rattle.cip_owner.specs.Reset.{reset_data, reset_type, settable_names, settable_data, settable_attributes};
ghost use Rattle.cip_owner.specs.Reset.{settable_in_objects, with_first_values, resettable, after_one};
ghost use Rattle.cip_owner.specs.Reset.{objects_after_reset};

use cip_application::{AttributeConfig, ObjectConfig};
use cip_bytes::protocol::{ASSEMBLY, COUNTER, IDENTITY};
use cip_message::{RequestView, read_path};
use cip_objects::{AssemblyConfig, AttributeName, Config, ConfigFault, Objects, ReplyBuf};
use std::alloc::{AllocError, Global};
use std::boxed::BoxedSlice;
use std::marker::Model;

/// The common service Reset (Volume 1, common services).
const RESET: u8 = 0x05;

/// What a Reset asks for (Volume 1, Identity object).
#[derive(Clone, Copy, Debug, PartialEq, Eq)]
pub enum ResetType {
    /// Type 0, or no data: the device acts as after a power cycle. No value changes.
    PowerCycle = 0,
    /// Type 1: the values that peers can set, and the counter, are as they are configured.
    FirstValues = 1,
}

impl ResetType {
    ghost use Rattle.cip_owner.specs.Reset.{reset_number};

    /// The number of this type, as it is on the wire.
    pub fn number(self) -> u8
        ensures { result ≡ reset_number self }
    {
        self as u8
    }
}

/// What a device that can be reset holds: its objects as they are configured, and how many resets it executed.
///
/// ```
/// let mut device = OwnedObjects::new(Objects::new(alloc, &config)?);
/// device.reset = Some(Resetting::new(alloc, &config)?);
/// device.execute(&[0x05, 0x02, 0x20, 0x01, 0x24, 0x01, 0x01], 504, &mut reply); // 85 00 00 00
/// ```
pub struct Resetting {
    first: Objects,
    names: BoxedSlice<AttributeName>,
    executed: u32,
    last: Option<ResetType>,
}

// Written out, so that each exit of a function that owns one calls it, and has no drop of every part.
impl Drop for Resetting {
    fn drop(self) {
        let Resetting {
            first: _,
            names: _,
            executed: _,
            last: _,
        } = self;
    }
}

impl Model for Resetting {
    ghost use Rattle.std.specs.Box.{boxed_slice_items};
    ghost use Rattle.cip_owner.specs.Reset.{ResetState, reset_code};

    ghost Value = { ResetState };

    ghost coded = { reset_code };

    ghost view = { λ r. record {
      first = r.first;
      names = boxed_slice_items r.names;
      executed = r.executed;
      last = r.last;
    } };
}

impl Resetting {
    /// What a device with this configuration needs to be reset. No Reset was executed yet. All memory is taken here: that
    /// of a second copy of the objects.
    ///
    /// # Errors
    ///
    /// Those of `Objects::new`.
    pub fn new(alloc: Global, config: &Config) -> Result<Resetting, ConfigFault>
        ensures made { IfOk result (λ r. r ≡ resettable config.now) }
        ensures refused { IfSome (fault_of config.now) (λ fault. result ≡ Err fault) }
        ensures allowed { fault_of config.now ≡ None → IfErr result (λ fault. fault ≡ ConfigFault.Memory) }
    {
        let first = Objects::new(alloc, config)?;
        let names = settable_names(alloc, config)?;
        Ok(Resetting {
            first,
            names: names.into_boxed_slice(),
            executed: 0,
            last: None,
        })
    }

    /// How many resets were executed, modulo 2^32. A program that runs the device ends all of its sessions once this
    /// number changed and the replies are out.
    pub fn executed(&self) -> u32
        ensures { result ≡ self.now.executed }
    {
        self.executed
    }

    /// The type of the last Reset that was executed.
    pub fn last(&self) -> Option<ResetType>
        ensures { result ≡ self.now.last }
    {
        self.last
    }

    /// Executes a Reset of this type: counts it, and for type 1 puts the first values back.
    pub(crate) fn execute(&mut self, reset: ResetType, objects: &mut Objects)
        ensures objects { objects.new ≡ objects_after_reset reset self.old objects.old }
        ensures counted { self.new ≡ after_one reset self.old }
    {
        self.executed = self.executed.wrapping_add(1);
        self.last = Some(reset);
        match reset {
            ResetType::PowerCycle => {}
            ResetType::FirstValues => put_first_values(&self.first, &self.names, objects),
        }
    }
}

/// Gives the values of these names their first values. A value that the objects do not have stays.
fn put_first_values(first: &Objects, names: &[AttributeName], objects: &mut Objects)
    ensures { objects.new ≡ with_first_values first.now names.now objects.old }
{
    let mut value = ReplyBuf::new();
    for name in names {
        first.read_attribute(
            name.class,
            u32::from(name.instance),
            name.attribute,
            &mut value,
        );
        objects.restore(*name, value.as_slice());
    }
}

/// The data of a request that is a Reset of the Identity object's instance. `None` for any other bytes.
#[tactic(auto, unfolding(crate::specs::Reset::reset_data))]
pub(crate) fn reset_data(request: &[u8]) -> Option<&[u8]>
    ensures { option_map (λ «data». «data».now) result ≡ reset_data request.now }
{
    let Ok(view) = RequestView::read(request) else {
        return None;
    };
    if view.service != RESET {
        return None;
    }
    let Ok(path) = read_path(view.path) else {
        return None;
    };
    if path.class == IDENTITY && path.instance == 1 {
        Some(view.data)
    } else {
        None
    }
}

/// The type that the data of a Reset say, if they say one.
pub(crate) fn reset_type(data: &[u8]) -> Option<ResetType>
    ensures { result ≡ reset_type «data».now }
{
    match data {
        [] => Some(ResetType::PowerCycle),
        [number] => match number {
            0 => Some(ResetType::PowerCycle),
            1 => Some(ResetType::FirstValues),
            _ => None,
        },
        _ => None,
    }
}

/// The names of the values that peers can change.
fn settable_names(alloc: Global, config: &Config) -> Result<Vec<AttributeName>, AllocError>
    ensures { IfOk result (λ names. names.items ≡ settable_names config.now) }
{
    let mut names = Vec::new(alloc);
    add_settable_data(&config.assemblies, &mut names)?;
    if config.counter.enabled {
        add_counter(&mut names)?;
    }
    for object in &config.objects {
        add_settable_attributes(object, &mut names)?;
    }
    Ok(names)
}

/// Adds the names of the data of the settable ones among these assemblies.
fn add_settable_data(
    assemblies: &[AssemblyConfig],
    names: &mut Vec<AttributeName>,
) -> Result<(), AllocError>
    ensures { IfOk result (λ _. names.new.items ≡ names.old.items ++ settable_data assemblies.now) }
{
    for assembly in assemblies {
        if assembly.settable {
            names.push(AttributeName {
                class: ASSEMBLY,
                instance: assembly.instance,
                attribute: 3,
            })?;
        }
    }
    Ok(())
}

/// Adds the names of the counter's value, limit and additions.
fn add_counter(names: &mut Vec<AttributeName>) -> Result<(), AllocError>
    ensures { IfOk result (λ _. names.new.items ≡ names.old.items ++ counter_names true) }
{
    names.push(counter_name(1))?;
    names.push(counter_name(2))?;
    names.push(counter_name(3))?;
    Ok(())
}

/// The name of an attribute of the counter.
fn counter_name(attribute: u16) -> AttributeName
    ensures { result ≡ name_of COUNTER 1 attribute }
{
    AttributeName {
        class: COUNTER,
        instance: 1,
        attribute,
    }
}

/// Adds the names of an application object's settable attributes.
fn add_settable_attributes(
    object: &ObjectConfig,
    names: &mut Vec<AttributeName>,
) -> Result<(), AllocError>
    ensures { IfOk result (λ _. names.new.items
        ≡ names.old.items ++ settable_attributes object.now.class object.now.instance object.now.attributes.items) }
{
    for attribute in &object.attributes {
        if attribute.settable {
            names.push(AttributeName {
                class: object.class,
                instance: object.instance,
                attribute: attribute.number,
            })?;
        }
    }
    Ok(())
}
