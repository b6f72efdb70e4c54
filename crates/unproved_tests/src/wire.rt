//! Tests of `enip_wire`: sinks that fail, fields of a header, bodies, calls of a frame reader one by one, and the
//! texts of errors.

mod devices;
mod header;
mod packets;
mod reader;
mod texts;
