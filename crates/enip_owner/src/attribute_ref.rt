//! An attribute of an object.

/// An attribute of an object, by its numbers.
#[derive(Clone, Copy, Debug, PartialEq, Eq)]
pub struct AttributeRef {
    /// The object's class.
    pub class: u16,
    /// The object's instance number.
    pub instance: u32,
    /// The attribute's number.
    pub attribute: u16,
}
