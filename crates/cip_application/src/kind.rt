//! The kinds of attributes, and which values they can have (Volume 1, elementary data types).
//! Text: docs/PROTOCOL.md, "Objects".
ghost use Rattle.std.specs.Prelude.{◌≡◌, ◌≤◌, OnOk, length, true};
ghost use Rattle.cip_application.specs.Values.{capacity, size_for, is_allowed, is_whole, check_value};

use crate::attribute::SetFault;
use crate::number::NumberRange;

/// The most bytes of an attribute's value (our choice).
pub const VALUE_LIMIT: usize = 500;

/// What values an attribute has.
#[derive(Clone, Copy, Debug)]
pub enum AttributeKind {
    /// Values of exactly this many bytes: an elementary type, an array, or bytes of any meaning.
    Fixed {
        /// The bytes of a value, 1 to 500.
        size: u16,
        /// The range in which each number of a value must lie. `None` allows every value.
        range: Option<NumberRange>,
    },
    /// A SHORT_STRING: a byte with its length, then the text.
    ShortString {
        /// The most bytes of the text.
        room: u8,
    },
}

impl AttributeKind {
    /// The most bytes of a value.
    pub fn capacity(&self) -> usize
        ensures { result ≡ capacity self.now }
    {
        match *self {
            AttributeKind::Fixed { size, .. } => usize::from(size),
            AttributeKind::ShortString { room } => usize::from(room) + 1,
        }
    }

    /// The bytes of a value that begins with these.
    pub(crate) fn size_for(&self, value: &[u8]) -> usize
        ensures { result ≡ size_for self.now value.now }
    {
        match *self {
            AttributeKind::Fixed { size, .. } => usize::from(size),
            AttributeKind::ShortString { .. } => match value.first() {
                Some(length) => usize::from(*length) + 1,
                None => 1,
            },
        }
    }

    /// Whether a value of the right size is one that the attribute may have.
    fn is_allowed(&self, value: &[u8]) -> bool
        ensures { result ≡ is_allowed self.now value.now }
    {
        match *self {
            AttributeKind::Fixed { range: None, .. } => true,
            AttributeKind::Fixed {
                range: Some(range),
                ..
            } => range.contains_all(value),
            AttributeKind::ShortString { room } => match value.first() {
                Some(length) => *length <= room,
                None => true,
            },
        }
    }

    /// Checks a value: its size, then what it says.
    ///
    /// # Errors
    ///
    /// `NotEnoughData` or `TooMuchData` if the size is another, `InvalidAttributeValue` if the attribute may not have
    /// this value.
    pub fn check(&self, value: &[u8]) -> Result<(), SetFault>
        ensures checked { result ≡ check_value self.now value.now }
        ensures fits { OnOk result (length value.now ≤ capacity self.now) }
    {
        let size = self.size_for(value);
        if value.len() < size {
            return Err(SetFault::NotEnoughData);
        }
        if value.len() > size {
            return Err(SetFault::TooMuchData);
        }
        if !self.is_allowed(value) {
            return Err(SetFault::InvalidAttributeValue);
        }
        Ok(())
    }

    /// Whether these bytes are a value of this kind, in its range or not: they have the size of the value, or are a text
    /// that is not longer than its room.
    pub fn is_whole(&self, bytes: &[u8]) -> bool
        ensures whole { result ≡ is_whole self.now bytes.now }
        ensures fits { result ≡ true → length bytes.now ≤ capacity self.now }
    {
        match *self {
            AttributeKind::Fixed { size, .. } => bytes.len() == usize::from(size),
            AttributeKind::ShortString { .. } => self.check(bytes).is_ok(),
        }
    }
}
