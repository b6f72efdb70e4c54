//! What an EDS says of the elementary data types.

ghost use Rattle.std.specs.Prelude.{◌≡◌};
ghost use Rattle.enip_eds.specs.Types.{bit_string, code_of, greatest_of, least_of};

use cip_values::ElementaryType;

/// The code of a type. (Volume 1, data type codes.)
pub(crate) fn code_of(element: ElementaryType) -> u8
    ensures { result ≡ code_of element }
{
    match element {
        ElementaryType::Bool => 0xc1,
        ElementaryType::Sint => 0xc2,
        ElementaryType::Int => 0xc3,
        ElementaryType::Dint => 0xc4,
        ElementaryType::Lint => 0xc5,
        ElementaryType::Usint => 0xc6,
        ElementaryType::Uint => 0xc7,
        ElementaryType::Udint => 0xc8,
        ElementaryType::Ulint => 0xc9,
        ElementaryType::Real => 0xca,
        ElementaryType::Lreal => 0xcb,
        ElementaryType::Date => 0xcd,
        ElementaryType::TimeOfDay => 0xce,
        ElementaryType::DateAndTime => 0xcf,
        ElementaryType::String => 0xd0,
        ElementaryType::Byte => 0xd1,
        ElementaryType::Word => 0xd2,
        ElementaryType::Dword => 0xd3,
        ElementaryType::Lword => 0xd4,
        ElementaryType::String2 => 0xd5,
        ElementaryType::Ltime => 0xd7,
        ElementaryType::ShortString => 0xda,
        ElementaryType::Time => 0xdb,
        ElementaryType::Epath => 0xdc,
    }
}

/// The least value of a type. A floating-point number may be infinite, and a text has none.
pub(crate) fn least_of(element: ElementaryType) -> &'static str
    ensures { result.now ≡ least_of element }
{
    match element {
        ElementaryType::Bool => "0",
        ElementaryType::Sint => "-128",
        ElementaryType::Int => "-32768",
        ElementaryType::Dint => "-2147483648",
        ElementaryType::Lint => "-9223372036854775808",
        ElementaryType::Usint => "0",
        ElementaryType::Uint => "0",
        ElementaryType::Udint => "0",
        ElementaryType::Ulint => "0",
        ElementaryType::Byte => "0x00",
        ElementaryType::Word => "0x0000",
        ElementaryType::Dword => "0x00000000",
        ElementaryType::Lword => "0x0000000000000000",
        ElementaryType::Time => "-2147483648",
        ElementaryType::Ltime => "-9223372036854775808",
        _ => "",
    }
}

/// The greatest value of a type.
pub(crate) fn greatest_of(element: ElementaryType) -> &'static str
    ensures { result.now ≡ greatest_of element }
{
    match element {
        ElementaryType::Bool => "1",
        ElementaryType::Sint => "127",
        ElementaryType::Int => "32767",
        ElementaryType::Dint => "2147483647",
        ElementaryType::Lint => "9223372036854775807",
        ElementaryType::Usint => "255",
        ElementaryType::Uint => "65535",
        ElementaryType::Udint => "4294967295",
        ElementaryType::Ulint => "18446744073709551615",
        ElementaryType::Byte => "0xFF",
        ElementaryType::Word => "0xFFFF",
        ElementaryType::Dword => "0xFFFFFFFF",
        ElementaryType::Lword => "0xFFFFFFFFFFFFFFFF",
        ElementaryType::Time => "2147483647",
        ElementaryType::Ltime => "9223372036854775807",
        _ => "",
    }
}

/// The bit string of this many bytes, as which a member of an assembly is described.
pub(crate) fn bit_string(size: u16) -> Option<ElementaryType>
    ensures { result ≡ bit_string size }
{
    match size {
        1 => Some(ElementaryType::Byte),
        2 => Some(ElementaryType::Word),
        4 => Some(ElementaryType::Dword),
        8 => Some(ElementaryType::Lword),
        _ => None,
    }
}
