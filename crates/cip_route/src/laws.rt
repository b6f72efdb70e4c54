//! What follows from the grammars alone. Each law is the contract of a function that does nothing.

ghost use Rattle.cip_route.specs.Hop.{OneHop};

/// At most one hop spells a prefix of some bytes.
pub fn one_hop()
    ensures { OneHop }
{}
