//! What is wrong with a refused configuration, as text, and the line with the fault. `enip_config` reads configurations. Its
//! readers keep a [`Finding`], and this crate makes the text of it.
//!
//! - A [`Place`] is a table of a configuration. A [`Finding`] is where a reader is, what it looks for there
//!   ([`Expected`]), and the first attribute that has no bytes of its type.
//! - A [`Located`] is what is wrong at a key of a table: [`bad_value`], [`unknown_key`], [`object_problem`],
//!   [`list_problem`] and [`unused_queue`] find it.
//! - An [`Explanation`] has the check that refuses the configuration (`specs/Explained.antt`), and prints the line, the
//!   object, and what is wrong. An [`ExplainedFault`] is an explanation, or memory that was refused.
//!
//! The check is proved, the text and the line are tested.
#![tactic(auto)]

mod attribute_problems;
mod explanation;
mod finding;
mod lines;
mod list_problems;
mod missing_keys;
mod nearest_key;
mod object_problems;
mod own_problems;
mod place;
mod problem;
mod statement;
mod subject;
mod text_problems;
mod value_problems;

pub use explanation::{Document, ExplainedFault, Explanation};
pub use finding::{Expected, Finding};
pub use list_problems::list_problem;
pub use object_problems::object_problem;
pub use place::Place;
pub use problem::{Located, unused_queue};
pub use text_problems::unknown_key;
pub use value_problems::bad_value;
