//! The name of a field.

ghost use Rattle.std.specs.Prelude.{◌≡◌, ◌≤◌, option_map};

use crate::field::is_name;
use std::fmt;

/// Our own limit: how many characters a name can have.
pub const LONGEST_NAME: usize = 32;

/// The name of a field: 1 to 32 letters, digits, `_`, `-` and `.`.
#[derive(Clone, Copy, Debug)]
pub struct FieldName {
    bytes: [u8; LONGEST_NAME],
    length: usize,
    pub ghost within: { length ≤ 32 },
}

impl FieldName {
    ghost use Rattle.cip_layouts.specs.Layouts.{name_in, name_of};

    /// The name that a text is, if it is one.
    pub(crate) fn parse(text: &[u8]) -> Option<FieldName>
        ensures { option_map name_of result ≡ name_in text.now }
    {
        if !is_name(text) {
            return None;
        }
        let mut bytes = [0; LONGEST_NAME];
        bytes[..text.len()].copy_from_slice(text);
        Some(FieldName {
            bytes,
            length: text.len(),
        })
    }

    /// The characters of the name, in ASCII.
    pub fn as_slice(&self) -> &[u8]
        ensures { result.now ≡ name_of self.now }
    {
        &self.bytes[..self.length]
    }
}

impl fmt::Display for FieldName {
    ghost use Rattle.std.specs.Prelude.{Some};
    ghost use Rattle.cip_layouts.specs.Layouts.{name_shown};

    ghost output = { λ name. Some (name_shown name) };

    fn fmt<W: fmt::Write>(&self, f: &mut fmt::Formatter<W>) -> fmt::Result {
        for byte in self.as_slice() {
            write!(f, "{}", char::from(*byte))?;
        }
        Ok(())
    }
}
