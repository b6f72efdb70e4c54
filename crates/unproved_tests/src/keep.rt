//! Tests of `enip_keep` and `enip_keep_sqlite`: a keeper that fails at each call in turn, and a device that starts from
//! what is kept.

mod failures;
mod sqlite_rows;
mod texts;
mod wholeness;
