//! Tests of `enip_bench`: the largest connections, an opening that is refused, the faults' numbers and texts, and the
//! device's own writes.

mod faults;
mod large;
mod writes;
