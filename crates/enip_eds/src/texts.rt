//! The texts that every section of an EDS is made of.

ghost use Rattle.std.specs.Prelude.{◌≡◌, ◌≤◌};
ghost use Rattle.enip_eds.specs.Texts.{segment_size};

use cip_values::Date;
use std::fmt;

/// A text in quotes. A quote in it and a backslash follow a backslash, and a byte that is not printable ASCII is `\xNN`.
#[derive(Clone, Copy)]
pub(crate) struct Quoted<'a>(pub(crate) &'a [u8]);

impl fmt::Display for Quoted<'_> {
    ghost use Rattle.std.specs.Prelude.{Some};
    ghost use Rattle.enip_eds.specs.Texts.{quoted};

    ghost output = { λ q. Some (quoted q.0.now) };

    fn fmt<W: fmt::Write>(&self, f: &mut fmt::Formatter<W>) -> fmt::Result {
        write!(f, "\"{}\"", Escaped(self.0))
    }
}

/// The bytes between the quotes of a text.
#[derive(Clone, Copy)]
pub(crate) struct Escaped<'a>(pub(crate) &'a [u8]);

impl fmt::Display for Escaped<'_> {
    ghost use Rattle.std.specs.Prelude.{Some, true};
    ghost use Rattle.cip_values.specs.Texts.{escaped};

    ghost output = { λ e. Some (escaped true e.0.now) };

    fn fmt<W: fmt::Write>(&self, f: &mut fmt::Formatter<W>) -> fmt::Result {
        for byte in self.0 {
            match *byte {
                b'\\' => f.write_str("\\\\")?,
                b'"' => f.write_str("\\\"")?,
                b' '..=b'~' => write!(f, "{}", char::from(*byte))?,
                other => write!(f, "\\x{other:02x}")?,
            }
        }
        Ok(())
    }
}

/// A date as month, day and year.
#[derive(Clone, Copy)]
pub(crate) struct DateText(pub(crate) Date);

impl fmt::Display for DateText {
    ghost use Rattle.std.specs.Prelude.{Some};
    ghost use Rattle.enip_eds.specs.Texts.{date_text};

    ghost output = { λ d. Some (date_text d.0) };

    fn fmt<W: fmt::Write>(&self, f: &mut fmt::Formatter<W>) -> fmt::Result {
        write!(
            f,
            "{:02}-{:02}-{:04}",
            self.0.month, self.0.day, self.0.year
        )
    }
}

/// The path of an attribute.
#[derive(Clone, Copy)]
pub(crate) struct AttributePath {
    pub(crate) class: u16,
    pub(crate) instance: u16,
    pub(crate) attribute: u16,
}

impl AttributePath {
    ghost use Rattle.std.specs.Prelude.{◌≡◌};
    ghost use Rattle.enip_eds.specs.Texts.{path_size};

    /// Its size in bytes.
    pub(crate) fn size(self) -> u8
        ensures { result ≡ path_size self.class self.instance self.attribute }
    {
        segment_size(self.class) + segment_size(self.instance) + segment_size(self.attribute)
    }
}

impl fmt::Display for AttributePath {
    ghost use Rattle.std.specs.Prelude.{Some};
    ghost use Rattle.enip_eds.specs.Texts.{path};

    ghost output = { λ p. Some (path p.class p.instance p.attribute) };

    fn fmt<W: fmt::Write>(&self, f: &mut fmt::Formatter<W>) -> fmt::Result {
        let class = Segment {
            kind: 0x20,
            number: self.class,
        };
        let instance = Segment {
            kind: 0x24,
            number: self.instance,
        };
        let attribute = Segment {
            kind: 0x30,
            number: self.attribute,
        };
        write!(f, "\"{class} {instance} {attribute}\"")
    }
}

/// A segment of a path: the byte of its kind with a number of 8 bits, and its number.
#[derive(Clone, Copy)]
struct Segment {
    kind: u8,
    number: u16,
}

impl fmt::Display for Segment {
    ghost use Rattle.std.specs.Prelude.{Some};
    ghost use Rattle.enip_eds.specs.Texts.{segment};

    ghost output = { λ s. Some (segment s.kind s.number) };

    fn fmt<W: fmt::Write>(&self, f: &mut fmt::Formatter<W>) -> fmt::Result {
        let (kind, number) = (u16::from(self.kind), self.number);
        if number <= 0xff {
            return write!(f, "{kind:02X} {number:02X}");
        }
        write!(
            f,
            "{:02X} 00 {:02X} {:02X}",
            kind + 1,
            number % 256,
            number / 256
        )
    }
}

/// The bytes of a segment with this number.
fn segment_size(number: u16) -> u8
    ensures size { result ≡ segment_size number }
    ensures most { result ≤ 4 }
{
    if number <= 0xff { 2 } else { 4 }
}
