//! What follows from the grammars alone. Each law is the contract of a function that does nothing.

ghost use Rattle.cip_message.specs.Open.{OneOpen, OneLargeOpen};
ghost use Rattle.cip_message.specs.PathWriting.{OneSegment};

/// At most one segment spells a prefix of some bytes.
pub fn one_segment()
    ensures { OneSegment }
{}

/// At most one open request spells a prefix of some bytes.
pub fn one_open_request()
    ensures { OneOpen }
{}

/// At most one large open request spells a prefix of some bytes.
pub fn one_large_open_request()
    ensures { OneLargeOpen }
{}
