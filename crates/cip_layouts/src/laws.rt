//! What follows from the definitions of the values of fields and their bytes.
//!
//! The function does nothing: its clauses are the law.

ghost use Rattle.std.specs.Prelude.{◌≡◌, ℕ, List};
ghost use Rattle.cip_values.specs.Values.{Value};
ghost use Rattle.cip_layouts.specs.Fields.{AreBytesOfFields, IsReadFault};
ghost use Rattle.cip_layouts.specs.declared.fault.FieldsFault.{FieldsFault};
ghost use Rattle.cip_layouts.specs.declared.field.Field.{Field};

/// Bytes have at most one reading as the values of fields, and bytes that have one are not refused.
///
/// So bytes that were written are read as the values that were written, unless memory is refused.
pub fn one_reading()
    ensures same { (fields : List Field) (bytes : List ℕ) (values others : List Value) →
        AreBytesOfFields fields bytes values → AreBytesOfFields fields bytes others → values ≡ others }
    ensures read { (fields : List Field) (bytes : List ℕ) (values : List Value) (fault : FieldsFault) →
        AreBytesOfFields fields bytes values → IsReadFault fields bytes fault → fault ≡ FieldsFault.Memory }
{}
