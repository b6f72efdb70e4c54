//! A value of an elementary type, and its bytes. (Volume 1, data types.)

ghost use Rattle.std.specs.Prelude.{◌≡◌, [], ◌++◌, ◌≤◌, ◌<◌, ◌*◌, length, IfOk, IfErr, OnOk};
ghost use Rattle.cip_bytes.specs.Numbers.{le, number_at};
ghost use Rattle.cip_values.specs.Types.{IsSized, size_of, unit_size};
ghost use Rattle.cip_values.specs.Values.{value_in, IsOf, spelled, BeginsWith, IsValueFault, IsCounted, IsClocked, counted};

use crate::calendar::Date;
use crate::element::Form;
use crate::fault::ValueFault;
use byteorder::{ByteOrder, LittleEndian};
use std::alloc::AllocError;

/// A value of an elementary type.
#[derive(Clone, Copy, Debug, PartialEq, Eq)]
pub enum Value<'a> {
    /// A BOOL.
    Bool(bool),
    /// A SINT, INT, DINT or LINT, a TIME in milliseconds, or an LTIME in microseconds.
    Signed(i64),
    /// A USINT, UINT, UDINT or ULINT.
    Unsigned(u64),
    /// A BYTE, WORD, DWORD or LWORD.
    Bits(u64),
    /// A REAL, as its 32 bits.
    Real(u32),
    /// A SHORT_STRING or a STRING, as its bytes: 255 or 65,535 at most.
    Text(&'a [u8]),
    /// An LREAL, as its 64 bits.
    Lreal(u64),
    /// A STRING2, as its bytes: two for each of at most 65,535 characters, least first.
    Wide(&'a [u8]),
    /// An EPATH, as its bytes: 255 words of two bytes at most.
    Path(&'a [u8]),
    /// A DATE.
    Date(Date),
    /// A TIME_OF_DAY: the milliseconds since midnight. From 86,400,000 on it is no time of a day.
    TimeOfDay(u32),
    /// A DATE_AND_TIME: a date, and milliseconds since midnight.
    DateAndTime(Date, u32),
}

impl<'a> Value<'a> {
    /// Reads the value at the front of the bytes, and returns it with the rest.
    ///
    /// # Errors
    ///
    /// `Short` if the bytes end within the value, `NotBool` if a BOOL is neither 0 nor 1.
    pub(crate) fn read(
        form: Form,
        bytes: &'a [u8],
    ) -> Result<(Value<'a>, &'a [u8]), ValueFault<'static>>
        requires { IsSized form }
        ensures read { IfOk result (λ read. BeginsWith form bytes.now (value_in read.0) read.1.now) }
        ensures refused { IfErr result (IsValueFault form bytes.now) }
    {
        if bytes.len() < form.size() {
            return Err(ValueFault::Short);
        }
        let (front, rest) = bytes.split_at(form.size());
        match form {
            Form::Bool => match front[0] {
                0 => Ok((Value::Bool(false), rest)),
                1 => Ok((Value::Bool(true), rest)),
                other => Err(ValueFault::NotBool(other)),
            },
            Form::Signed(size) => Ok((Value::Signed(LittleEndian::read_int(front, size)), rest)),
            Form::Unsigned(size) => Ok((
                Value::Unsigned(LittleEndian::read_uint(front, size)),
                rest,
            )),
            Form::Bits(size) => Ok((Value::Bits(LittleEndian::read_uint(front, size)), rest)),
            Form::Real => Ok((Value::Real(LittleEndian::read_u32(front)), rest)),
            Form::Lreal => Ok((Value::Lreal(LittleEndian::read_u64(front)), rest)),
            Form::Text(_) | Form::Wide | Form::Path => Value::read_counted(form, front, rest),
            Form::Date | Form::TimeOfDay | Form::DateAndTime => Ok((
                Value::read_time(form, front),
                rest,
            )),
        }
    }

    /// Reads the string or the path whose count is `front`, and returns it with the rest behind it.
    fn read_counted(
        form: Form,
        front: &[u8],
        rest: &'a [u8],
    ) -> Result<(Value<'a>, &'a [u8]), ValueFault<'static>>
        requires { IsCounted form front.now }
        ensures read { IfOk result (λ read. BeginsWith form (front.now ++ rest.now) (value_in read.0) read.1.now) }
        ensures refused { IfErr result (λ fault. (fault ≡ ValueFault.Short)
            × (length rest.now < unit_size form * number_at 0 (size_of form) front.now)) }
    {
        let units = LittleEndian::read_uint(front, front.len()) as usize;
        let size = units * form.unit();
        if rest.len() < size {
            return Err(ValueFault::Short);
        }
        let (text, behind) = rest.split_at(size);
        Ok((Value::counted(form, text), behind))
    }

    /// The string or the path with these bytes.
    pub(crate) fn counted(form: Form, bytes: &'a [u8]) -> Value<'a>
        ensures { value_in result ≡ counted form bytes.now }
    {
        match form {
            Form::Wide => Value::Wide(bytes),
            Form::Path => Value::Path(bytes),
            _ => Value::Text(bytes),
        }
    }

    /// The date or the time of day that these bytes spell.
    fn read_time(form: Form, bytes: &[u8]) -> Value<'static>
        requires { IsClocked form bytes.now }
        ensures { BeginsWith form bytes.now (value_in result) [] }
    {
        match form {
            Form::Date => Value::Date(Date::from_days(LittleEndian::read_u16(bytes))),
            Form::TimeOfDay => Value::TimeOfDay(LittleEndian::read_u32(bytes)),
            _ => {
                let (time, days) = bytes.split_at(4);
                let date = Date::from_days(LittleEndian::read_u16(days));
                Value::DateAndTime(date, LittleEndian::read_u32(time))
            }
        }
    }

    /// Appends the value's bytes.
    pub(crate) fn append(self, form: Form, out: &mut Vec<u8>) -> Result<(), AllocError>
        requires sized { IsSized form }
        requires value { IsOf form (value_in self) }
        ensures { OnOk result (out.new.items ≡ out.old.items ++ spelled (size_of form) (value_in self.entry)) }
    {
        match self {
            Value::Bool(truth) => out.push(u8::from(truth))?,
            Value::Signed(number) => append_number(number.cast_unsigned(), form.size(), out)?,
            Value::Unsigned(number) | Value::Bits(number) => {
                append_number(number, form.size(), out)?;
            }
            Value::Real(bits) => append_number(u64::from(bits), form.size(), out)?,
            Value::Lreal(bits) => append_number(bits, 8, out)?,
            Value::Text(text) => {
                append_number(text.len() as u64, form.size(), out)?;
                out.extend_from_slice(text)?;
            }
            Value::Wide(text) => {
                append_number((text.len() / 2) as u64, 2, out)?;
                out.extend_from_slice(text)?;
            }
            Value::Path(path) => {
                append_number((path.len() / 2) as u64, 1, out)?;
                out.extend_from_slice(path)?;
            }
            Value::Date(date) => append_number(u64::from(date.days()), 2, out)?,
            Value::TimeOfDay(milliseconds) => append_number(u64::from(milliseconds), 4, out)?,
            Value::DateAndTime(date, milliseconds) => {
                append_number(u64::from(milliseconds), 4, out)?;
                append_number(u64::from(date.days()), 2, out)?;
            }
        }
        Ok(())
    }
}

/// Appends the `size` low bytes of a number.
pub(crate) fn append_number(number: u64, size: usize, out: &mut Vec<u8>) -> Result<(), AllocError>
    requires { size ≤ 8 }
    ensures { OnOk result (out.new.items ≡ out.old.items ++ le size number) }
{
    out.extend_from_slice(&number.to_le_bytes()[..size])
}
