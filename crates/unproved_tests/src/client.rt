//! Tests of `enip_client`: calls in any order, openings of each size, readers and writers that fail, and the texts of
//! errors.

mod asking;
mod caller;
mod calls;
mod lists;
mod openings;
mod texts;
