//! What follows from the definitions alone. Each law is the contract of a function that does nothing.

ghost use Rattle.enip_access.specs.Address.{AddressesAreTexts, MappedIsOne};
ghost use Rattle.enip_access.specs.Prefix.{AreBlocks, NumbersAreTexts, RulesAreTexts};

/// A text is read as an address exactly if the grammar has it as one.
pub fn addresses_are_texts()
    ensures { AddressesAreTexts }
{}

/// A text is read as a number of bits exactly if it is the number in decimal, without leading zeros.
pub fn numbers_are_texts()
    ensures { NumbersAreTexts }
{}

/// A text is read as a rule exactly if it is an address, alone or with a slash and the number of bits that count, and the
/// others are 0.
pub fn rules_are_texts()
    ensures { RulesAreTexts }
{}

/// An IPv4 address and the IPv4-mapped IPv6 address of it have the same number, so they count as one address.
pub fn mapped_is_one()
    ensures { MappedIsOne }
{}

/// The addresses of a prefix follow one another, from its first address on.
pub fn are_blocks()
    ensures { AreBlocks }
{}
