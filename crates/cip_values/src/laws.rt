//! What follows from the definitions of values and their bytes.
//!
//! The function does nothing: its clauses are the law.

ghost use Rattle.std.specs.Prelude.{◌≡◌, ℕ, List};
ghost use Rattle.cip_values.specs.Values.{Value, AreBytesOf, IsReadFault};
ghost use Rattle.cip_values.specs.declared.element.ValueType.{ValueType};
ghost use Rattle.cip_values.specs.declared.fault.ValueFault.{ValueFault};

/// Bytes have at most one reading as values of a type, and bytes that have one are not refused.
///
/// So bytes that were written are read as the values that were written, unless memory is refused.
pub fn one_reading()
    ensures same { (value_type : ValueType) (bytes : List ℕ) (values others : List Value) →
        AreBytesOf value_type bytes values → AreBytesOf value_type bytes others → values ≡ others }
    ensures read { (value_type : ValueType) (bytes : List ℕ) (values : List Value) (fault : ValueFault) →
        AreBytesOf value_type bytes values → IsReadFault value_type bytes fault → fault ≡ ValueFault.Memory }
{}
