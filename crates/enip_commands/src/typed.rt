//! Requests whose data are given as values of elementary types, or of the fields of a layout.

ghost use Rattle.std.specs.Prelude.{map, IfOk, IfErr};
ghost use Rattle.cip_layouts.specs.Fields.{IsFieldsWriteFault};
ghost use Rattle.cip_layouts.specs.Layouts.{fields_of};
ghost use Rattle.cip_values.specs.Parsing.{IsWriteFault};
ghost use Rattle.enip_commands.specs.Styles.{IsTypedRequest, IsLayoutRequest};

use crate::asking::spell_request;
use cip_layouts::{FieldsFault, Layout, write_fields};
use cip_message::Path;
use cip_values::{ValueFault, ValueType, write_values};
use std::alloc::Global;

/// A request whose data are given as values.
#[derive(Clone, Copy, Debug)]
pub struct TypedRequest<'a, 'b> {
    /// The service code.
    pub service: u8,
    /// The object that the request goes to.
    pub path: Path,
    /// The type of the values.
    pub value_type: ValueType,
    /// The values as text, one element each.
    pub words: &'b [&'a str],
}

impl<'a> TypedRequest<'a, '_> {
    /// Encodes the request: service, shortest path, and the bytes of the values.
    ///
    /// # Errors
    ///
    /// The errors of [`write_values`].
    pub fn request(&self, alloc: Global) -> Result<Vec<u8>, ValueFault<'a>>
        ensures made { IfOk result (λ request. IsTypedRequest self.now request.items) }
        ensures refused { IfErr result (IsWriteFault self.now.value_type (map (λ word. word.now) self.now.words.now)) }
    {
        let bytes = write_values(alloc, self.value_type, self.words)?;
        Ok(spell_request(alloc, self.service, self.path, bytes.as_slice())?)
    }
}

/// A request whose data are given as the values of fields.
#[derive(Clone, Copy, Debug)]
pub struct LayoutRequest<'a, 'b> {
    /// The service code.
    pub service: u8,
    /// The object that the request goes to.
    pub path: Path,
    /// The fields.
    pub layout: Layout,
    /// The values as text, one element each.
    pub words: &'b [&'a str],
}

impl<'a> LayoutRequest<'a, '_> {
    /// Encodes the request: service, shortest path, and the bytes of the values.
    ///
    /// # Errors
    ///
    /// The errors of [`write_fields`].
    pub fn request(&self, alloc: Global) -> Result<Vec<u8>, FieldsFault<'a>>
        ensures made { IfOk result (λ request. IsLayoutRequest self.now request.items) }
        ensures refused { IfErr result (IsFieldsWriteFault (fields_of self.now.layout) (map (λ word. word.now) self.now.words.now)) }
    {
        let bytes = write_fields(alloc, self.layout.fields(), self.words)?;
        Ok(spell_request(alloc, self.service, self.path, bytes.as_slice())?)
    }
}
