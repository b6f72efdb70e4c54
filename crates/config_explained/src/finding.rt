//! Where a reader of a configuration is, and what it looks for there.

use crate::place::Place;
use attribute_types::TypedFault;

/// What a reader looks for at a key.
#[derive(Clone, Copy, Debug)]
pub enum Expected {
    /// A table, at the place itself.
    Table,
    /// An array of tables.
    Tables,
    /// An integer, from the first number to the second one.
    Number(u64, u64),
    /// True or false.
    Flag,
    /// A string.
    String,
    /// A text of up to this many bytes, each from 0x20 to 0x7e.
    Text(usize),
    /// An IPv4 address: an array of four numbers.
    Address,
    /// An array of up to two IPv4 addresses.
    NameServers,
    /// A MAC address: an array of six numbers.
    MacAddress,
    /// The sizes of an assembly's members: an array of numbers.
    MemberSizes,
    /// The sizes of a service's data: a number at the key `size`, or an array of two at the key `sizes`.
    Sizes,
    /// The name of an interface of the system, in a table without the values that are read from there.
    Interface,
    /// A list of addresses and prefixes.
    List,
}

/// The first attribute of the own objects whose keys `type`, `value`, `min` and `max` give no bytes of its type.
#[derive(Clone, Copy, Debug)]
pub(crate) struct Untyped {
    pub(crate) object: usize,
    pub(crate) attribute: usize,
    pub(crate) fault: TypedFault,
}

/// Where a reader of a configuration is, and what it looks for. A reader that refuses a configuration leaves here where
/// that was.
#[derive(Clone, Copy, Debug)]
pub struct Finding {
    place: Place,
    key: &'static str,
    expected: Expected,
    untyped: Option<Untyped>,
}

impl Finding {
    /// The reader is at the top level.
    pub fn new() -> Finding {
        Finding {
            place: Place::Text,
            key: "",
            expected: Expected::Table,
            untyped: None,
        }
    }

    /// The table that the reader is in.
    pub fn place(&self) -> Place {
        self.place
    }

    /// The key that the reader looks for, and what it looks for there.
    pub(crate) fn key(&self) -> (&'static str, Expected) {
        (self.key, self.expected)
    }

    /// The first attribute without bytes of its type, if there is one.
    pub(crate) fn untyped(&self) -> Option<Untyped> {
        self.untyped
    }

    /// The reader enters the top level.
    pub fn enter_text(&mut self) {
        self.enter(Place::Text);
    }

    /// The reader enters the table of this name at the top level, or the first one of an array.
    pub fn enter_table(&mut self, name: &'static str) {
        self.enter(Place::Table(name, 0));
    }

    /// The reader enters the first table of this name in the object that it is in.
    pub fn enter_part(&mut self, name: &'static str) {
        self.enter(Place::Part(self.index(), name, 0));
    }

    /// The reader enters the next table in the same array.
    pub fn enter_next(&mut self) {
        let next = match self.place {
            Place::Text => Place::Text,
            Place::Table(name, index) => Place::Table(name, index.saturating_add(1)),
            Place::Part(object, name, index) => Place::Part(object, name, index.saturating_add(1)),
        };
        self.enter(next);
    }

    /// The reader enters the object again, one of whose tables it may be in.
    pub fn enter_object(&mut self) {
        self.enter(Place::Table("object", self.index()));
    }

    /// The reader looks for this at a key of the table.
    pub fn expect(&mut self, key: &'static str, expected: Expected) {
        self.key = key;
        self.expected = expected;
    }

    /// The reader has read the type of the attribute that it is in, and it may have no bytes of its type.
    pub fn add_type(&mut self, fault: Option<TypedFault>) {
        if self.untyped.is_some() {
            return;
        }
        if let (Some(fault), Place::Part(object, _, attribute)) = (fault, self.place) {
            self.untyped = Some(Untyped {
                object,
                attribute,
                fault,
            });
        }
    }

    /// The index of the table at the top level that the reader is in.
    fn index(&self) -> usize {
        match self.place {
            Place::Text => 0,
            Place::Table(_, index) | Place::Part(index, _, _) => index,
        }
    }

    fn enter(&mut self, place: Place) {
        self.place = place;
        self.key = "";
        self.expected = Expected::Table;
    }
}
