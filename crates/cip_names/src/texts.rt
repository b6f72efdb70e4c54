//! Classes, services and attributes as the program prints them: the number, then the name if there is one.

use crate::names::name_of;
use crate::objects::{COMMON_SERVICES, attribute_names, class_name, service_name};
use std::fmt;

/// A class. `Display` prints its number in hexadecimal and its name.
///
/// ```
/// format!(in alloc; "{}", ClassText(0x64))? // class 0x64 counter
/// format!(in alloc; "{}", ClassText(0x300))? // class 0x300
/// ```
#[derive(Clone, Copy, Debug)]
pub struct ClassText(pub u16);

impl fmt::Display for ClassText {
    fn fmt<W: fmt::Write>(&self, f: &mut fmt::Formatter<W>) -> fmt::Result {
        let class = self.0;
        write!(f, "class {class:#04x}")?;
        write_name(f, class_name(class))
    }
}

/// A service. `Display` prints its number in hexadecimal and its name.
///
/// ```
/// format!(in alloc; "{}", ServiceText { class: Some(0x64), service: 0x32 })? // service 0x32 add
/// format!(in alloc; "{}", ServiceText { class: None, service: 0x32 })? // service 0x32
/// ```
#[derive(Clone, Copy, Debug)]
pub struct ServiceText {
    /// The class of the object. Without it, only the common services have names.
    pub class: Option<u16>,
    /// The number of the service.
    pub service: u8,
}

impl fmt::Display for ServiceText {
    fn fmt<W: fmt::Write>(&self, f: &mut fmt::Formatter<W>) -> fmt::Result {
        let service = self.service;
        write!(f, "service {service:#04x}")?;
        let name = match self.class {
            Some(class) => service_name(class, service),
            None => name_of(&COMMON_SERVICES, u16::from(service)),
        };
        write_name(f, name)
    }
}

/// An attribute. `Display` prints its number in decimal, as the standard's tables have it, and its name.
///
/// ```
/// let vendor = AttributeText { class: 0x01, instance: 1, attribute: 1 };
/// format!(in alloc; "{vendor}")? // attribute 1 vendor
/// ```
#[derive(Clone, Copy, Debug)]
pub struct AttributeText {
    /// The class of the object.
    pub class: u16,
    /// Its instance, or 0 for the class itself.
    pub instance: u32,
    /// The number of the attribute.
    pub attribute: u16,
}

impl fmt::Display for AttributeText {
    fn fmt<W: fmt::Write>(&self, f: &mut fmt::Formatter<W>) -> fmt::Result {
        let attribute = self.attribute;
        write!(f, "attribute {attribute}")?;
        write_name(
            f,
            name_of(attribute_names(self.class, self.instance), attribute),
        )
    }
}

/// Writes a name after a number.
fn write_name<W: fmt::Write>(f: &mut fmt::Formatter<W>, name: Option<&str>) -> fmt::Result {
    match name {
        Some(name) => write!(f, " {name}"),
        None => Ok(()),
    }
}
