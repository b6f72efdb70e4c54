//! What is wrong with a refused configuration, for C.

ghost use Rattle.std.specs.Prelude.{◌≡◌};
ghost use Rattle.enip_c.specs.ExplainCalls.{explained_count, IsPrinted, IsExplainOutcome, IsExplainedToC};

use crate::buffer::copy_front;
use crate::queued_service::first_queued;
use enip_config::{Configuration, ExplainedFault};
use std::alloc::Global;
use std::fmt::Display;

/// What became of an explanation.
#[derive(Clone, Copy)]
enum ExplainOutcome {
    /// The configuration is accepted, and no service is queued, so there is nothing to explain.
    Accepted,
    /// This many bytes were written.
    Written(usize),
    /// The text does not fit the buffer.
    Room,
    /// Out of memory.
    Memory,
}

impl ExplainOutcome {
    /// The number of bytes that were written.
    fn count(self) -> usize
        ensures { result ≡ explained_count self }
    {
        match self {
            ExplainOutcome::Written(count) => count,
            ExplainOutcome::Accepted | ExplainOutcome::Room | ExplainOutcome::Memory => 0,
        }
    }
}

/// Writes what is wrong with the text of a configuration, and in which line, or which of its services is queued. Returns
/// the length of this text. Returns 0 if nothing is wrong, and also if memory runs out or the text does not fit.
#[unsafe(no_mangle)]
pub extern "C" fn enip_core_explain(alloc: Global, text: &[u8], buffer: &mut [u8]) -> usize
    ensures { IsExplainedToC text.now buffer.old buffer.new result }
{
    let outcome = explain_to(alloc, text, buffer);
    outcome.count()
}

/// Writes what is wrong with the text of a configuration, or which of its services is queued.
fn explain_to(alloc: Global, text: &[u8], buffer: &mut [u8]) -> ExplainOutcome
    ensures { IsExplainOutcome text.now buffer.old buffer.new result }
{
    let configuration = match Configuration::explained(alloc, text) {
        Ok(configuration) => configuration,
        Err(ExplainedFault::Refused(explanation)) => return print_to(alloc, &explanation, buffer),
        Err(ExplainedFault::Memory) => return ExplainOutcome::Memory,
    };
    match first_queued(&configuration.objects.objects) {
        Some(service) => print_to(alloc, &service, buffer),
        None => ExplainOutcome::Accepted,
    }
}

/// Writes a reason.
fn print_to<T: Display>(alloc: Global, reason: &T, buffer: &mut [u8]) -> ExplainOutcome
    ensures { IsPrinted buffer.old buffer.new result }
{
    let Ok(words) = format!(in alloc; "{reason}") else {
        return ExplainOutcome::Memory;
    };
    if words.len() > buffer.len() {
        return ExplainOutcome::Room;
    }
    ExplainOutcome::Written(copy_front(words.as_bytes(), buffer))
}
