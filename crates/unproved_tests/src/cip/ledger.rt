//! The command ledger before a counter: a row for each line of its tables, and for each pair of checks that follow one
//! another. The bytes of the replies are written out from the tables.

mod attributes;
mod do_once;
mod doubt;
mod embedded;
mod forget;
mod get_last;
mod listing;
mod node;
mod paths;
mod queued;
mod refusals;
mod slots;
mod withdrawing;
