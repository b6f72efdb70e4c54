//! A layout: the fields of a structure, and their text.

ghost use Rattle.std.specs.Prelude.{◌≡◌, ◌≤◌, ◌==◌, map, length};
ghost use Rattle.std.specs.List.{slice_split};

use crate::fault::{FieldFault, LayoutFault};
use crate::field::{Field, any_named, cut};
use crate::name::FieldName;
use cip_values::ValueType;
use std::fmt;

/// Our own limit: how many fields a layout can have.
pub const MOST_FIELDS: usize = 32;

/// The fields of a structure: all with names, or all without.
///
/// ```
/// let layout = Layout::parse("speed:UINT,limit:REAL")?;
/// assert_eq!(rt; layout.fields().len(), 2);
/// ```
#[derive(Clone, Copy, Debug)]
pub struct Layout {
    fields: [Field; MOST_FIELDS],
    length: usize,
    pub ghost within: { length ≤ 32 },
}

impl Layout {
    ghost use Rattle.cip_layouts.specs.Layouts.{fields_of, fields_in, field_in, layout_in, layout_seen, changed, with_texts, with_text};
    ghost use Rattle.cip_layouts.specs.Layouts.{with_field, mixes, doubles, has_name, has_names, name_of};

    /// Parses a layout: fields with a comma between each two. A field is the name of a type, and for an array the number
    /// of its values in brackets. A name and a colon precede it, in all fields or in none.
    ///
    /// # Errors
    ///
    /// The first field that is refused.
    pub fn parse(text: &str) -> Result<Layout, LayoutFault>
        ensures { layout_seen result ≡ layout_in text.now }
    {
        let mut layout = Layout {
            fields: [Field::UNUSED; MOST_FIELDS],
            length: 0,
        };
        layout.add_all(text)?;
        Ok(layout)
    }

    /// The fields, in their order.
    pub fn fields(&self) -> &[Field]
        ensures fields { result.now ≡ fields_of self.now }
        ensures most { length result.now ≤ MOST_FIELDS }
    {
        &self.fields[..self.length]
    }

    /// Whether the fields have names.
    pub fn has_names(&self) -> bool
        ensures { result ≡ has_names (fields_of self.now) }
    {
        let [first, ..] = self.fields() else {
            return false;
        };
        first.name.is_some()
    }

    /// Adds the fields of a text.
    fn add_all(&mut self, text: &str) -> Result<(), LayoutFault>
        ensures { changed result (fields_in self.new) ≡ with_texts (fields_in self.old) (slice_split (λ b. b == 44) text.now) }
    {
        match cut(text, ',') {
            None => self.add_text(text),
            Some((first, rest)) => match self.add_text(first) {
                Ok(()) => self.add_all(rest),
                Err(fault) => Err(fault),
            },
        }
    }

    /// Adds the field that a text is.
    #[tactic(auto, unfolding(crate::specs::Layouts::with_text))]
    fn add_text(&mut self, text: &str) -> Result<(), LayoutFault>
        ensures { changed result (fields_in self.new) ≡ with_text (fields_in self.old) text.now }
    {
        let number = self.length + 1;
        let field = match Field::parse(text) {
            Ok(field) => field,
            Err(reason) => return Err(LayoutFault { number, reason }),
        };
        match self.add(field) {
            Ok(()) => Ok(()),
            Err(reason) => Err(LayoutFault { number, reason }),
        }
    }

    /// Adds a field.
    #[tactic(auto, unfolding(crate::specs::Layouts::with_field))]
    fn add(&mut self, field: Field) -> Result<(), FieldFault>
        ensures { changed result (fields_in self.new) ≡ with_field (fields_in self.old) (field_in field) }
    {
        if self.mixes(field) {
            return Err(FieldFault::Mixed);
        }
        if self.doubles(field) {
            return Err(FieldFault::Doubled);
        }
        if self.length == MOST_FIELDS {
            return Err(FieldFault::TooMany);
        }
        self.fields[self.length] = field;
        self.length += 1;
        Ok(())
    }

    /// Whether this field has a name and the others have none, or the other way round.
    fn mixes(&self, field: Field) -> bool
        ensures { result ≡ mixes (fields_in self.now) (field_in field) }
    {
        let [first, ..] = self.fields() else {
            return false;
        };
        match (first.name, field.name) {
            (Some(_), None) | (None, Some(_)) => true,
            _ => false,
        }
    }

    /// Whether a field has the same name as this one.
    fn doubles(&self, field: Field) -> bool
        ensures { result ≡ doubles (fields_in self.now) (field_in field) }
    {
        match field.name {
            Some(name) => self.has_name(name),
            None => false,
        }
    }

    /// Whether a field has this name.
    fn has_name(&self, name: FieldName) -> bool
        ensures { result ≡ has_name (fields_in self.now) (name_of name) }
    {
        any_named(self.fields(), name)
    }
}

impl fmt::Display for Layout {
    ghost use Rattle.std.specs.Prelude.{Some};
    ghost use Rattle.cip_layouts.specs.Layouts.{fields_of, layout_text};

    ghost output = { λ layout. Some (layout_text (fields_of layout)) };

    fn fmt<W: fmt::Write>(&self, f: &mut fmt::Formatter<W>) -> fmt::Result {
        match self.fields() {
            [first, others @ ..] => write!(f, "{first}{}", OtherFields(others)),
            [] => Ok(()),
        }
    }
}

/// Fields, each behind a comma.
#[derive(Clone, Copy)]
struct OtherFields<'a>(&'a [Field]);

impl fmt::Display for OtherFields<'_> {
    ghost use Rattle.std.specs.Prelude.{Some};
    ghost use Rattle.std.specs.List.{flat_map};
    ghost use Rattle.cip_layouts.specs.Layouts.{other_text};

    ghost output = { λ others. Some (flat_map other_text others.0.now) };

    fn fmt<W: fmt::Write>(&self, f: &mut fmt::Formatter<W>) -> fmt::Result {
        for field in self.0 {
            write!(f, ",{field}")?;
        }
        Ok(())
    }
}

/// How values are laid out in data.
#[derive(Clone, Copy, Debug)]
pub enum ValueShape {
    /// One value of a type, or a list of its values.
    Type(ValueType),
    /// The fields of a structure.
    Layout(Layout),
}
