//! `enip show`: reads frames in hexadecimal, and prints their fields.

ghost use Rattle.std.specs.Prelude.{◌≡◌, ◌⊎◌};

use crate::report::Report;
use enip_common::Fault;
use std::alloc::Global;
use std::io::{Read, Write};

/// Prints the fields of the frames of an input, one frame in hexadecimal on each line. Returns the exit status of the
/// program: 0, or 5 if a stream or memory failed. `errors` receives the fault.
///
/// A line that is not a frame is shown as the fault that it has, and the lines after it are shown too.
pub fn show<R: Read + Drop, W: Write + Drop, E: Report>(
    alloc: Global,
    input: R,
    output: W,
    errors: &mut E,
) -> u8
    ensures { (result ≡ 0) ⊎ (result ≡ 5) }
{
    match enip_commands::show_frames(alloc, input, output) {
        Ok(()) => 0,
        Err(fault) => {
            errors.report(Fault::Run(fault));
            fault.exit_status()
        }
    }
}
