//! An assembly: its data are its members, one after another (Volume 1, class 0x04).
//! Text: docs/PROTOCOL.md, "Objects".
ghost use Rattle.std.specs.Prelude.{◌≡◌, ◌≤◌, ◌+◌, ◌-◌, ◌*◌, ◌<◌, length, sum, take, drop, slice_index, option_map};
ghost use Rattle.std.specs.Prelude.{ℕ, List, option_copied, ◌++◌, IfOk, IfSome, replicate, MatchOption};
ghost use Rattle.cip_objects.specs.Entries.{attribute_in, assembly_attributes, assembly_at, greatest_of, shape_of};
ghost use Rattle.cip_objects.specs.Changes.{one_more};
ghost use Rattle.cip_objects.specs.FirstOf.{IsFirst};
ghost use Rattle.cip_objects.specs.Tables.{span_of, kind_in_assembly};
ghost use Rattle.cip_application.specs.Values.{size_for};
ghost use Rattle.cip_objects.specs.AttributeValue.{value_bytes, IsShort};

use crate::value::AttributeValue;
use std::alloc::{AllocError, Global};
use std::boxed::BoxedSlice;
use std::marker::Model;

/// The most bytes of an assembly's data (our choice).
pub(crate) const DATA_LIMIT: usize = 3_900;

/// The most members of an assembly (our choice).
pub(crate) const MEMBER_LIMIT: usize = 64;

/// The bytes of a member in the data of its assembly.
#[derive(Clone, Copy)]
pub(crate) struct Span {
    /// The offset of the first byte.
    pub(crate) offset: usize,
    /// The number of bytes.
    pub(crate) size: usize,
}

/// An instance of the Assembly object. `new` allocates members and data at their full length. A boxed slice does
/// not grow.
#[derive(Debug, Drop)]
pub(crate) struct Assembly {
    /// The instance number, 1 to 65,535.
    instance: u16,
    /// Whether the data can be set.
    settable: bool,
    /// The sizes of the members in bytes, in the order of the data.
    members: BoxedSlice<u16>,
    /// Whether it has the services for lists of attributes.
    lists: bool,
    /// The data: the members, one after another.
    content: BoxedSlice<u8>,
    /// How often peers wrote the data, modulo 2^32.
    changes: u32,
}

impl Model for Assembly {
    ghost use Rattle.std.specs.Box.{boxed_slice_items};
    ghost use Rattle.cip_objects.specs.Entries.{AssemblyValues};

    ghost Value = { AssemblyValues };

    ghost view = { λ a. record {
      instance = a.instance;
      settable = a.settable;
      members = boxed_slice_items a.members;
      lists = a.lists;
      content = boxed_slice_items a.content;
      changes = a.changes;
    } };

    ghost use Rattle.cip_objects.specs.Assembly.{IsWhole};

    ghost invariant = { λ a. IsWhole a };
}

impl Assembly {
    /// An assembly with these members. Its data are zeros, and nobody has written them.
    pub(crate) fn new(
        alloc: Global,
        instance: u16,
        settable: bool,
        members: &[u16],
        lists: bool,
    ) -> Result<Assembly, AllocError>
        requires few { length members.now ≤ MEMBER_LIMIT }
        requires small { sum members.now ≤ DATA_LIMIT }
        ensures { IfOk result (λ a. a
            ≡ record {
              instance = instance;
              settable = settable;
              members = members.now;
              lists = lists;
              content = replicate (sum members.now) 0;
              changes = 0;
            }) }
    {
        Ok(Assembly {
            instance,
            settable,
            members: BoxedSlice::from_slice(alloc, members)?,
            lists,
            content: vec![in alloc; 0; total(members)]?.into_boxed_slice(),
            changes: 0,
        })
    }

    /// The bytes of the member with this number. Members are numbered from 1.
    pub(crate) fn span(&self, number: u16) -> Option<Span>
        ensures member { result ≡ span_of self.now.members number }
        ensures inside { IfSome result (λ s. s.offset + s.size ≤ length self.now.content) }
    {
        let number = usize::from(number);
        // Members are numbered from 1.
        if number == 0 || self.members.len() < number {
            return None;
        }
        // Members follow one another in the data.
        Some(Span {
            offset: total(&self.members[..number - 1]),
            size: usize::from(self.members[number - 1]),
        })
    }

    /// The value of an attribute of the instance.
    pub(crate) fn attribute(&self, attribute: u16) -> Option<AttributeValue<'_>>
        ensures value { option_map value_bytes result ≡ attribute_in attribute (assembly_attributes self.now) }
        ensures short { IfSome result IsShort }
    {
        match attribute {
            1 => Some(AttributeValue::Uint(self.members.len() as u16)),
            3 => Some(AttributeValue::Bytes(self.content.as_slice())),
            4 => Some(AttributeValue::Uint(self.content.len() as u16)),
            _ => None,
        }
    }

    /// The instance number.
    pub(crate) fn instance(&self) -> u16
        ensures { result ≡ self.now.instance }
    {
        self.instance
    }

    /// The size of the data in bytes.
    pub(crate) fn size(&self) -> usize
        ensures members { result ≡ sum self.now.members }
        ensures content { result ≡ length self.now.content }
    {
        self.content.len()
    }

    /// Whether the data can be set.
    pub(crate) fn is_settable(&self) -> bool
        ensures { result ≡ self.now.settable }
    {
        self.settable
    }

    /// Whether it has the services for lists of attributes.
    pub(crate) fn has_lists(&self) -> bool
        ensures { result ≡ self.now.lists }
    {
        self.lists
    }

    /// The bytes of a value of an attribute, or `None` if there is no such attribute.
    pub(crate) fn value_size(&self, attribute: u16) -> Option<usize>
        ensures { (value : List ℕ) → result
            ≡ option_map (λ kind. size_for kind value) (kind_in_assembly attribute (shape_of self.now)) }
    {
        match attribute {
            1 | 4 => Some(2),
            3 => Some(self.content.len()),
            _ => None,
        }
    }

    /// The data.
    pub(crate) fn content(&self) -> &[u8]
        ensures { result.now ≡ self.now.content }
    {
        self.content.as_slice()
    }

    /// How often peers wrote the data, modulo 2^32.
    pub(crate) fn changes(&self) -> u32
        ensures { result ≡ self.now.changes }
    {
        self.changes
    }

    /// Counts a write of the data by a peer.
    pub(crate) fn count_change(&mut self)
        ensures { self.new ≡ record self.old { changes = one_more self.old.changes } }
    {
        self.changes = self.changes.wrapping_add(1);
    }

    /// Replaces bytes of the data, from `offset` on.
    pub(crate) fn write(&mut self, offset: usize, bytes: &[u8])
        requires { offset + length bytes.now ≤ length self.old.content }
        ensures { self.new ≡ record self.old {
          content = take offset self.old.content
              ++ (bytes.now ++ drop (offset + length bytes.now) self.old.content);
        } }
    {
        self.content[offset..offset + bytes.len()].copy_from_slice(bytes);
    }
}

/// The sum of these member sizes.
fn total(members: &[u16]) -> usize
    requires { length members.now ≤ MEMBER_LIMIT }
    ensures { result ≡ sum members.now }
{
    let mut all: usize = 0;
    for size in members {
        all += usize::from(*size);
    }
    all
}

/// The index of the first assembly with this instance number.
pub(crate) fn position(assemblies: &[Assembly], instance: u32) -> Option<usize>
    ensures { MatchOption result (assembly_at instance assemblies.now ≡ None)
        (IsFirst (λ a. a.instance) assemblies.now instance) }
{
    for (i, assembly) in assemblies.iter().enumerate() {
        if u32::from(assembly.instance()) == instance {
            return Some(i);
        }
    }
    None
}

/// The greatest instance number, or 0 if there is no assembly.
pub(crate) fn greatest(assemblies: &[Assembly]) -> u16
    ensures { result ≡ greatest_of assemblies.now }
{
    let mut most: u16 = 0;
    for assembly in assemblies {
        most = most.max(assembly.instance());
    }
    most
}
