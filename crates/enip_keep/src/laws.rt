//! What the steps of a list of events say, and what a checksum shows. The functions do nothing: their clauses are the
//! laws.

ghost use Rattle.enip_keep.specs.LivesLaws.{done_law};
ghost use Rattle.enip_keep.specs.WholeLaws.{byte_law, round_byte_law};

use crate::Device;

/// An event that went well has its step, between those of the events before it and those of the events after it. So a
/// round whose answers left was executed, once, at its place in the order.
pub fn done_events_have_steps<D: Device>()
    ensures { done_law D.Input D.Requests D.Configuration D.brings }
{}

/// If entries are whole, they are not whole with another byte in place of one of their bytes.
pub fn changed_byte_shows()
    ensures device { byte_law }
    ensures round { round_byte_law }
{}
