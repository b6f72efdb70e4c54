//! The elementary data types and their names. (Volume 1, data types.)

ghost use Rattle.std.specs.Prelude.{◌≡◌, ◌≤◌, IfSome, None};
ghost use Rattle.cip_values.specs.declared.element.ElementaryType.{ElementaryType};
ghost use Rattle.cip_values.specs.Types.{name_of, form_of, unit_of, IsSized};

use std::fmt;

/// An elementary data type of the standard. Integers and bit strings are little-endian.
#[derive(Clone, Copy, Debug, PartialEq, Eq)]
pub enum ElementaryType {
    /// True or false: one byte, 1 or 0.
    Bool,
    /// A signed integer of 1 byte.
    Sint,
    /// A signed integer of 2 bytes.
    Int,
    /// A signed integer of 4 bytes.
    Dint,
    /// A signed integer of 8 bytes.
    Lint,
    /// An unsigned integer of 1 byte.
    Usint,
    /// An unsigned integer of 2 bytes.
    Uint,
    /// An unsigned integer of 4 bytes.
    Udint,
    /// An unsigned integer of 8 bytes.
    Ulint,
    /// A string of 8 bits.
    Byte,
    /// A string of 16 bits.
    Word,
    /// A string of 32 bits.
    Dword,
    /// A string of 64 bits.
    Lword,
    /// An IEEE 754 single-precision number, 4 bytes.
    Real,
    /// A string of up to 255 bytes, after a byte with its length.
    ShortString,
    /// An IEEE 754 double-precision number, 8 bytes.
    Lreal,
    /// A string of up to 65,535 bytes, after their count in 2 bytes.
    String,
    /// A string of up to 65,535 characters of 2 bytes, after their count in 2 bytes.
    String2,
    /// A path of up to 255 words, after a byte with their count.
    Epath,
    /// A date: the days since 1972-01-01 in 2 bytes.
    Date,
    /// A time of day: the milliseconds since midnight in 4 bytes.
    TimeOfDay,
    /// A time of day in 4 bytes and a date in 2.
    DateAndTime,
    /// A duration in milliseconds, signed, 4 bytes.
    Time,
    /// A duration in microseconds, signed, 8 bytes.
    Ltime,
}

/// The kind of an elementary type's values, and their size in bytes.
#[derive(Clone, Copy)]
pub(crate) enum Form {
    Bool,
    Signed(usize),
    Unsigned(usize),
    Bits(usize),
    Real,
    Text(usize),
    Lreal,
    Wide,
    Path,
    Date,
    TimeOfDay,
    DateAndTime,
}

impl Form {
    ghost use Rattle.cip_values.specs.Types.{size_of, unit_size};

    /// The size of a value in bytes. Of a string or a path it is the size of its count alone.
    pub(crate) fn size(self) -> usize
        requires { IsSized self }
        ensures value { result ≡ size_of self }
        ensures most { result ≤ 8 }
    {
        match self {
            Form::Signed(size) | Form::Unsigned(size) | Form::Bits(size) | Form::Text(size) => size,
            Form::Bool | Form::Path => 1,
            Form::Wide | Form::Date => 2,
            Form::Real => 4,
            Form::TimeOfDay => 4,
            Form::DateAndTime => 6,
            Form::Lreal => 8,
        }
    }

    /// The size in bytes of what the count of a string or a path counts.
    pub(crate) fn unit(self) -> usize
        ensures { result ≡ unit_size self }
    {
        match self {
            Form::Wide | Form::Path => 2,
            _ => 1,
        }
    }
}

impl ElementaryType {
    /// The type with this name. The standard writes names in capitals.
    pub fn from_name(name: &str) -> Option<ElementaryType>
        ensures named { IfSome result (λ element. name_of element ≡ name.now) }
        ensures other { result ≡ None → (element : ElementaryType) → name_of element ≡ name.now → ⊥ }
    {
        match name {
            "BOOL" => Some(ElementaryType::Bool),
            "SINT" => Some(ElementaryType::Sint),
            "INT" => Some(ElementaryType::Int),
            "DINT" => Some(ElementaryType::Dint),
            "LINT" => Some(ElementaryType::Lint),
            "USINT" => Some(ElementaryType::Usint),
            "UINT" => Some(ElementaryType::Uint),
            "UDINT" => Some(ElementaryType::Udint),
            "ULINT" => Some(ElementaryType::Ulint),
            "BYTE" => Some(ElementaryType::Byte),
            "WORD" => Some(ElementaryType::Word),
            "DWORD" => Some(ElementaryType::Dword),
            "LWORD" => Some(ElementaryType::Lword),
            "REAL" => Some(ElementaryType::Real),
            "SHORT_STRING" => Some(ElementaryType::ShortString),
            "LREAL" => Some(ElementaryType::Lreal),
            "STRING" => Some(ElementaryType::String),
            "STRING2" => Some(ElementaryType::String2),
            "EPATH" => Some(ElementaryType::Epath),
            "DATE" => Some(ElementaryType::Date),
            "TIME_OF_DAY" => Some(ElementaryType::TimeOfDay),
            "DATE_AND_TIME" => Some(ElementaryType::DateAndTime),
            "TIME" => Some(ElementaryType::Time),
            "LTIME" => Some(ElementaryType::Ltime),
            _ => None,
        }
    }

    /// The type's name in the standard.
    pub fn name(self) -> &'static str
        ensures { result.now ≡ name_of self }
    {
        match self {
            ElementaryType::Bool => "BOOL",
            ElementaryType::Sint => "SINT",
            ElementaryType::Int => "INT",
            ElementaryType::Dint => "DINT",
            ElementaryType::Lint => "LINT",
            ElementaryType::Usint => "USINT",
            ElementaryType::Uint => "UINT",
            ElementaryType::Udint => "UDINT",
            ElementaryType::Ulint => "ULINT",
            ElementaryType::Byte => "BYTE",
            ElementaryType::Word => "WORD",
            ElementaryType::Dword => "DWORD",
            ElementaryType::Lword => "LWORD",
            ElementaryType::Real => "REAL",
            ElementaryType::ShortString => "SHORT_STRING",
            ElementaryType::Lreal => "LREAL",
            ElementaryType::String => "STRING",
            ElementaryType::String2 => "STRING2",
            ElementaryType::Epath => "EPATH",
            ElementaryType::Date => "DATE",
            ElementaryType::TimeOfDay => "TIME_OF_DAY",
            ElementaryType::DateAndTime => "DATE_AND_TIME",
            ElementaryType::Time => "TIME",
            ElementaryType::Ltime => "LTIME",
        }
    }

    /// The range of the type's values, as text.
    pub(crate) fn range(self) -> &'static str {
        match self {
            ElementaryType::Bool => "0 to 1",
            ElementaryType::Sint => "-128 to 127",
            ElementaryType::Int => "-32768 to 32767",
            ElementaryType::Dint => "-2147483648 to 2147483647",
            ElementaryType::Lint => "-9223372036854775808 to 9223372036854775807",
            ElementaryType::Usint => "0 to 255",
            ElementaryType::Uint => "0 to 65535",
            ElementaryType::Udint => "0 to 4294967295",
            ElementaryType::Ulint => "0 to 18446744073709551615",
            ElementaryType::Byte => "0x00 to 0xff",
            ElementaryType::Word => "0x0000 to 0xffff",
            ElementaryType::Dword => "0x00000000 to 0xffffffff",
            ElementaryType::Lword => "0x0000000000000000 to 0xffffffffffffffff",
            ElementaryType::Real => "-3.4028235e38 to 3.4028235e38",
            ElementaryType::ShortString => "0 to 255 bytes",
            ElementaryType::Lreal => "-1.7976931348623157e308 to 1.7976931348623157e308",
            ElementaryType::String => "0 to 65535 bytes",
            ElementaryType::String2 => "0 to 65535 characters",
            ElementaryType::Epath => "0 to 255 words",
            ElementaryType::Date => "1972-01-01 to 2151-06-06",
            ElementaryType::TimeOfDay => "00:00:00.000 to 23:59:59.999",
            ElementaryType::DateAndTime => "1972-01-01T00:00:00.000 to 2151-06-06T23:59:59.999",
            ElementaryType::Time => "-2147483648ms to 2147483647ms",
            ElementaryType::Ltime => "-9223372036854775808us to 9223372036854775807us",
        }
    }

    /// The kind of the type's values.
    pub(crate) fn form(self) -> Form
        ensures form { result ≡ form_of self }
        ensures sized { IsSized result }
    {
        match self {
            ElementaryType::Bool => Form::Bool,
            ElementaryType::Sint => Form::Signed(1),
            ElementaryType::Int => Form::Signed(2),
            ElementaryType::Dint => Form::Signed(4),
            ElementaryType::Lint => Form::Signed(8),
            ElementaryType::Usint => Form::Unsigned(1),
            ElementaryType::Uint => Form::Unsigned(2),
            ElementaryType::Udint => Form::Unsigned(4),
            ElementaryType::Ulint => Form::Unsigned(8),
            ElementaryType::Byte => Form::Bits(1),
            ElementaryType::Word => Form::Bits(2),
            ElementaryType::Dword => Form::Bits(4),
            ElementaryType::Lword => Form::Bits(8),
            ElementaryType::Real => Form::Real,
            ElementaryType::ShortString => Form::Text(1),
            ElementaryType::Lreal => Form::Lreal,
            ElementaryType::String => Form::Text(2),
            ElementaryType::String2 => Form::Wide,
            ElementaryType::Epath => Form::Path,
            ElementaryType::Date => Form::Date,
            ElementaryType::TimeOfDay => Form::TimeOfDay,
            ElementaryType::DateAndTime => Form::DateAndTime,
            ElementaryType::Time => Form::Signed(4),
            ElementaryType::Ltime => Form::Signed(8),
        }
    }

    /// The unit that follows a number in text.
    pub(crate) fn unit(self) -> &'static str
        ensures { result.now ≡ unit_of self }
    {
        match self {
            ElementaryType::Time => "ms",
            ElementaryType::Ltime => "us",
            _ => "",
        }
    }
}

impl fmt::Display for ElementaryType {
    ghost use Rattle.std.specs.Prelude.{Some};
    ghost use Rattle.cip_values.specs.Types.{name_of};

    ghost output = { λ element. Some (name_of element) };

    fn fmt<W: fmt::Write>(&self, f: &mut fmt::Formatter<W>) -> fmt::Result {
        f.write_str(self.name())
    }
}

/// The type of what is read or written at once: one value of an elementary type, or a list of them.
///
/// ```
/// let list = ValueType { element: ElementaryType::Dint, is_list: true };
/// assert_eq!(rt; ValueType::from_name("DINT[]"), Some(list));
/// ```
#[derive(Clone, Copy, Debug, PartialEq, Eq)]
pub struct ValueType {
    /// The elementary type of each value.
    pub element: ElementaryType,
    /// Whether this is a list, which may have any number of values.
    pub is_list: bool,
}

impl ValueType {
    ghost use Rattle.cip_values.specs.declared.element.ValueType.{ValueType};
    ghost use Rattle.cip_values.specs.Types.{type_name_of};

    /// The type with this name: `UINT`, or `UINT[]` for a list.
    pub fn from_name(name: &str) -> Option<ValueType>
        ensures named { IfSome result (λ value_type. type_name_of value_type ≡ name.now) }
        ensures other { result ≡ None → (value_type : ValueType) → type_name_of value_type ≡ name.now → ⊥ }
    {
        let (element, is_list) = match name.strip_suffix("[]") {
            Some(element) => (element, true),
            None => (name, false),
        };
        Some(ValueType {
            element: ElementaryType::from_name(element)?,
            is_list,
        })
    }
}

impl fmt::Display for ValueType {
    ghost use Rattle.std.specs.Prelude.{Some};
    ghost use Rattle.cip_values.specs.Types.{type_name_of};

    ghost output = { λ value_type. Some (type_name_of value_type) };

    fn fmt<W: fmt::Write>(&self, f: &mut fmt::Formatter<W>) -> fmt::Result {
        f.write_str(self.element.name())?;
        if self.is_list {
            return f.write_str("[]");
        }
        Ok(())
    }
}
