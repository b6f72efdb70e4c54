//! The tables of a configuration.

use toml::{Table, Value};

/// A table of a configuration. Tables of an array are counted from 0. A table that is in no array has the index 0.
#[derive(Clone, Copy, Debug)]
pub enum Place {
    /// The top level.
    Text,
    /// The table of this name at the top level, with this index.
    Table(&'static str, usize),
    /// The table `attribute` or `service` with the second index, in the table `object` with the first one.
    Part(usize, &'static str, usize),
}

impl Place {
    /// The name of the table. The top level has an empty one.
    pub(crate) fn name(self) -> &'static str {
        match self {
            Place::Text => "",
            Place::Table(name, _) | Place::Part(_, name, _) => name,
        }
    }

    /// What a key of the table has before its name in a text.
    pub(crate) fn prefix(self) -> (&'static str, &'static str, &'static str) {
        match self {
            Place::Text => ("", "", ""),
            Place::Table(name, _) => (name, ".", ""),
            Place::Part(_, "service", _) => ("object.", "service", "."),
            Place::Part(..) => ("object.", "attribute", "."),
        }
    }

    /// The value in a document that is to be this table. The top level has none.
    pub(crate) fn value_in(self, text: &Table) -> Option<&Value> {
        match self {
            Place::Text => None,
            Place::Table(name, index) => item_at(text.get(name), index),
            Place::Part(object, name, index) => {
                item_at(item_at(text.get("object"), object)?.get(name), index)
            }
        }
    }

    /// The table in a document, if it is there.
    pub fn table_in(self, text: &Table) -> Option<&Table> {
        match self {
            Place::Text => Some(text),
            _ => self.value_in(text)?.as_table(),
        }
    }

    /// The table in a document as the reader takes it: an array of tables is taken for assemblies, for objects and for
    /// their parts alone.
    pub(crate) fn taken_in(self, text: &Table) -> Option<&Table> {
        match self {
            Place::Table("assembly" | "object", _) | Place::Text | Place::Part(..) => {
                self.table_in(text)
            }
            Place::Table(name, _) => text.get(name)?.as_table(),
        }
    }

    /// Whether a document has a key of this table. Without a key: whether it has the table.
    pub(crate) fn is_in(self, text: &Table, key: Option<&str>) -> bool {
        match key {
            None => self.value_in(text).is_some(),
            Some(key) => match self.table_in(text) {
                Some(table) => table.get(key).is_some(),
                None => false,
            },
        }
    }
}

/// The value with this index, from 0, of an array, or the first of a value that is not an array.
fn item_at(value: Option<&Value>, index: usize) -> Option<&Value> {
    match value {
        Some(Value::Array(values)) => values.get(index),
        Some(value) if index == 0 => Some(value),
        _ => None,
    }
}
