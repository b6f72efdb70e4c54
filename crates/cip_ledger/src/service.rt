//! The codes of the common services that the ledger has.

/// Get_Attribute_List. (Volume 1, common services.)
pub(crate) const GET_ATTRIBUTE_LIST: u8 = 0x03;

/// Get_Attribute_Single. (Volume 1, common services.)
pub(crate) const GET_ATTRIBUTE_SINGLE: u8 = 0x0e;
