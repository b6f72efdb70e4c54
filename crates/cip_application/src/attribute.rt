//! An attribute of an application object: its value in memory of a fixed size, and how often peers set it.
//! Text: docs/PROTOCOL.md, "Objects".
ghost use Rattle.std.specs.Prelude.{◌≡◌, ◌≤◌, ◌+◌, IfOk, IfErr, IfSome, OnErr, OnOk, Ok, Err, length, unwrap_or};
ghost use Rattle.std.specs.Prelude.{is_some, Some};
ghost use Rattle.std.specs.Prelude.{◌&&◌, nat_le, not};
ghost use Rattle.cip_application.specs.Values.{capacity, size_for, with_bytes_at};
ghost use Rattle.cip_application.specs.Attributes.{attribute_set, attribute_write, attribute_restore};
ghost use Rattle.cip_application.specs.Attributes.{check_before_asking};
ghost use Rattle.cip_application.specs.Kept.{is_kept};

use crate::config::is_standard_class;
use crate::kind::{AttributeKind, VALUE_LIMIT};
use std::alloc::{AllocError, Global};
use std::boxed::BoxedSlice;
use std::marker::Model;
use thiserror::Error;

/// Why a set is refused: the first of these that holds (Volume 1, general status codes).
#[derive(Clone, Copy, Debug, PartialEq, Eq, Error)]
pub enum SetFault {
    /// The object has no attribute of this number: 0x14.
    #[error("attribute not supported")]
    AttributeNotSupported,
    /// Peers cannot set the attribute: 0x0e.
    #[error("attribute not settable")]
    AttributeNotSettable,
    /// The data are shorter than the value: 0x13.
    #[error("not enough data")]
    NotEnoughData,
    /// The data are longer than the value: 0x15.
    #[error("too much data")]
    TooMuchData,
    /// A number is out of its range, or a text is longer than its room: 0x09.
    #[error("invalid attribute value")]
    InvalidAttributeValue,
}

/// An attribute. `new` allocates the space of its longest value. A boxed slice does not grow.
#[derive(Debug, Drop)]
pub(crate) struct Attribute {
    /// The number, 1 to 65,535.
    number: u16,
    /// What values it has.
    kind: AttributeKind,
    /// Whether peers can set it.
    settable: bool,
    /// Whether a set is asked of the owner before it is stored.
    checked: bool,
    /// The value, then unused space.
    content: BoxedSlice<u8>,
    /// The bytes of the value.
    size: usize,
    /// How often peers set it, modulo 2^32.
    changes: u32,
}

impl Model for Attribute {
    ghost use Rattle.std.specs.Prelude.{take};
    ghost use Rattle.std.specs.Box.{boxed_slice_items};
    ghost use Rattle.cip_application.specs.Attributes.{AttributeValues};

    ghost Value = { AttributeValues };

    ghost view = { λ a. record {
      number = a.number;
      kind = a.kind;
      settable = a.settable;
      checked = a.checked;
      value = take a.size (boxed_slice_items a.content);
      changes = a.changes;
    } };

    ghost use Rattle.cip_application.specs.Whole.{IsWhole};

    ghost invariant = { λ a. IsWhole a };
}

impl Attribute {
    /// An attribute with this value. No peer has set it.
    pub(crate) fn new(
        alloc: Global,
        number: u16,
        kind: AttributeKind,
        settable: bool,
        checked: bool,
        value: &[u8],
    ) -> Result<Attribute, AllocError>
        requires fits { length value.now ≤ capacity kind }
        requires short { capacity kind ≤ VALUE_LIMIT }
        ensures { IfOk result (λ a. a
            ≡ record {
              number = number;
              kind = kind;
              settable = settable;
              checked = checked;
              value = value.now;
              changes = 0;
            }) }
    {
        let mut content = vec![in alloc; 0; kind.capacity()]?.into_boxed_slice();
        put(&mut content, 0, value);
        Ok(Attribute {
            number,
            kind,
            settable,
            checked,
            content,
            size: value.len(),
            changes: 0,
        })
    }

    /// The number.
    pub(crate) fn number(&self) -> u16
        ensures { result ≡ self.now.number }
    {
        self.number
    }

    /// The value.
    pub(crate) fn value(&self) -> &[u8]
        ensures value { result.now ≡ self.now.value }
        ensures short { length result.now ≤ VALUE_LIMIT }
    {
        &self.content[..self.size]
    }

    /// The bytes of a value that begins with these.
    pub(crate) fn size_for(&self, data: &[u8]) -> usize
        ensures { result ≡ size_for self.now.kind data.now }
    {
        self.kind.size_for(data)
    }

    /// Whether peers can set it without a question to the owner of the device.
    pub(crate) fn is_settable(&self) -> bool
        ensures { result ≡ self.now.settable && not self.now.checked }
    {
        self.settable && !self.checked
    }

    /// Whether peers can set it only if the owner of the device approves.
    pub(crate) fn needs_approval(&self) -> bool
        ensures { result ≡ self.now.settable && self.now.checked }
    {
        self.settable && self.checked
    }

    /// Whether it is kept over a restart, as an attribute of an object of this class.
    pub(crate) fn is_kept(&self, class: u16) -> bool
        ensures { result ≡ is_kept class self.now }
    {
        // Of an object of the standard only what peers can set is kept (our choice).
        !is_standard_class(class) || self.settable
    }

    /// The checks of a set before the owner is asked, or `None` if a set does not need the owner's approval.
    pub(crate) fn check_before_asking(&self, data: &[u8]) -> Option<Result<(), SetFault>>
        ensures checks { result ≡ check_before_asking (Some self.now) data.now }
        ensures short { IfSome result (λ r. OnOk r (length data.now ≤ VALUE_LIMIT)) }
    {
        if !self.needs_approval() {
            return None;
        }
        Some(self.kind.check(data))
    }

    /// How often peers set it, modulo 2^32.
    pub(crate) fn changes(&self) -> u32
        ensures { result ≡ self.now.changes }
    {
        self.changes
    }

    /// Sets the value to these data, for a peer. A set that is executed is counted.
    ///
    /// # Errors
    ///
    /// The first check that fails, in the order of the faults. Nothing changes then.
    pub(crate) fn set(&mut self, data: &[u8]) -> Result<(), SetFault>
        ensures set { OnOk result (attribute_set self.old data.now ≡ Ok self.new) }
        ensures fault { IfErr result (λ fault. attribute_set self.old data.now ≡ Err fault) }
        ensures refused { OnErr result (self.new ≡ self.old) }
    {
        if !self.settable {
            return Err(SetFault::AttributeNotSettable);
        }
        self.kind.check(data)?;
        self.replace(data);
        self.changes = self.changes.wrapping_add(1);
        Ok(())
    }

    /// Writes bytes into the value from an offset on, for the device itself, and returns whether it did. If the value
    /// cannot hold them, nothing changes.
    pub(crate) fn write(&mut self, offset: usize, bytes: &[u8]) -> bool
        ensures written { self.new ≡ unwrap_or (attribute_write self.old offset bytes.now) self.old }
        ensures reported { result ≡ is_some (attribute_write self.old offset bytes.now) }
    {
        match self.kind {
            AttributeKind::Fixed { .. } => {
                if !ends_within(offset, bytes.len(), self.size) {
                    return false;
                }
                self.overwrite(offset, bytes);
                true
            }
            // A text is written as a whole, so that its first byte stays its length.
            AttributeKind::ShortString { .. } => {
                if offset != 0 || self.kind.check(bytes).is_err() {
                    return false;
                }
                self.replace(bytes);
                true
            }
        }
    }

    /// Puts bytes in place of the value, for the device itself, and returns whether it did. If they are not a value of
    /// the attribute's kind, nothing changes.
    pub(crate) fn restore(&mut self, bytes: &[u8]) -> bool
        ensures restored { self.new ≡ unwrap_or (attribute_restore self.old bytes.now) self.old }
        ensures reported { result ≡ is_some (attribute_restore self.old bytes.now) }
    {
        if !self.kind.is_whole(bytes) {
            return false;
        }
        self.replace(bytes);
        true
    }

    /// Replaces the value.
    fn replace(&mut self, value: &[u8])
        requires { length value.now ≤ capacity self.old.kind }
        ensures { self.new ≡ record self.old { value = value.now } }
    {
        put(&mut self.content, 0, value);
        self.size = value.len();
    }

    /// Replaces bytes of the value, from an offset on.
    fn overwrite(&mut self, offset: usize, bytes: &[u8])
        requires { offset + length bytes.now ≤ length self.old.value }
        ensures { self.new ≡ record self.old { value = with_bytes_at self.old.value offset bytes.now } }
    {
        put(&mut self.content, offset, bytes);
    }
}

/// Whether `count` bytes from `offset` on end within `size`.
fn ends_within(offset: usize, count: usize, size: usize) -> bool
    ensures { result ≡ nat_le (offset + count) size }
{
    offset <= size && count <= size - offset
}

/// Replaces bytes of a list, from an offset on.
fn put(content: &mut [u8], offset: usize, bytes: &[u8])
    requires { offset + length bytes.now ≤ length content.old }
    ensures { content.new ≡ with_bytes_at content.old offset bytes.now }
{
    content[offset..offset + bytes.len()].copy_from_slice(bytes);
}
