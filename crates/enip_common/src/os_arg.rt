//! The arguments of the command line, as the system passes them and as text.

use std::alloc::{AllocError, Global};
use std::convert::AsStr;
use std::env::{Env, FillError};

/// How many bytes of an argument are asked for at first.
const FIRST_CAPACITY: usize = 256;

/// An option whose value may be left out, so that `clap` takes a value only after `=`. These values may be the next
/// argument, too.
const LOG: &[u8] = b"--log";

const LOG_FORMATS: [&[u8]; 2] = [b"text", b"json"];

/// An argument of the command line.
#[derive(Drop)]
pub struct OsArg {
    /// The argument, which need not be UTF-8.
    pub bytes: Vec<u8>,
    /// The argument as text, with U+FFFD for what is not UTF-8.
    text: String,
}

impl AsStr for OsArg {
    ghost use Rattle.std.specs.Prelude.{string_bytes};

    ghost text = { λ argument. string_bytes argument.text };

    fn as_str(&self) -> &str {
        self.text.as_str()
    }
}

impl OsArg {
    fn new(alloc: Global, bytes: Vec<u8>) -> Result<OsArg, AllocError> {
        let text = String::from_utf8_lossy(alloc, bytes.as_slice())?;
        Ok(OsArg { bytes, text })
    }
}

/// All arguments. The first is the given name of the program, whatever name it was started by.
pub fn os_args(rt: &HostRuntime, alloc: Global, program: &str) -> Result<Vec<OsArg>, AllocError> {
    let mut arguments = Vec::new(alloc);
    let mut name = Vec::new(alloc);
    name.extend_from_slice(program.as_bytes())?;
    arguments.push(OsArg::new(alloc, name)?)?;
    for index in 1..usize::MAX {
        let Some(bytes) = argument_at(rt, alloc, index)? else {
            break;
        };
        if is_log_format(arguments.as_slice(), bytes.as_slice()) {
            let joined = joined(alloc, LOG, bytes.as_slice())?;
            let _ = arguments.pop();
            arguments.push(OsArg::new(alloc, joined)?)?;
        } else {
            arguments.push(OsArg::new(alloc, bytes)?)?;
        }
    }
    Ok(arguments)
}

/// Whether an argument is the format of the option `--log` before it.
fn is_log_format(before: &[OsArg], argument: &[u8]) -> bool {
    let is_log = before
        .last()
        .is_some_and(|last| last.bytes.as_slice() == LOG);
    is_log && LOG_FORMATS.iter().any(|format| *format == argument)
}

/// An option and its value, with `=` between them.
fn joined(alloc: Global, option: &[u8], value: &[u8]) -> Result<Vec<u8>, AllocError> {
    let mut joined = Vec::new(alloc);
    for part in [option, b"=", value] {
        joined.extend_from_slice(part)?;
    }
    Ok(joined)
}

/// The bytes of the argument at an index. `None` if there are fewer arguments.
fn argument_at<E: Env>(
    env: &E,
    alloc: Global,
    index: usize,
) -> Result<Option<Vec<u8>>, AllocError> {
    let mut capacity = FIRST_CAPACITY;
    for _ in 0..usize::BITS {
        let mut argument = vec![in alloc; 0u8; capacity]?;
        match env.arg(index, argument.as_mut_slice()) {
            Ok(length) => {
                argument.truncate(length);
                return Ok(Some(argument));
            }
            Err(FillError::NotPresent) => return Ok(None),
            Err(FillError::TooLong) => capacity = capacity.saturating_mul(2),
        }
    }
    Err(AllocError)
}
