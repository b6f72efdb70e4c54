//! Files that arguments name, and why one is refused.

ghost use Rattle.std.specs.Prelude.{◌≡◌};

use crate::INPUT;
use crate::file::read_file;
use crate::os_arg::OsArg;
use crate::reason::CommandError;
use clap::ArgMatches;
use std::alloc::Global;
use std::io::Read;

/// The argument that stands for standard input.
const DASH: &str = "-";

/// Whether the argument of this ID is standard input.
pub fn is_input(matches: &ArgMatches<'_>, id: &str) -> bool {
    matches.get_str(id) == Some(DASH)
}

/// A file that an argument names, and its content.
#[derive(Drop)]
pub struct NamedFile<'a> {
    name: &'a str,
    bytes: Vec<u8>,
}

impl<'a> NamedFile<'a> {
    /// Reads the file that the argument of this ID names. `-` is standard input.
    pub fn read(
        rt: &HostRuntime,
        args: &[OsArg],
        matches: &ArgMatches<'a>,
        id: &str,
    ) -> Result<NamedFile<'a>, CommandError<'a>> {
        NamedFile::read_front(rt, args, matches.get_str(id).unwrap_or(""), u64::MAX)
    }

    /// Reads at most so many bytes of the file with this name. `-` is standard input.
    pub fn read_front(
        rt: &HostRuntime,
        args: &[OsArg],
        name: &'a str,
        most: u64,
    ) -> Result<NamedFile<'a>, CommandError<'a>> {
        let (name, read) = if name == DASH {
            let mut bytes = Vec::new(rt.alloc());
            let read = rt.stdin().take(most).read_to_end(&mut bytes);
            (INPUT, read.map(|_| bytes))
        } else {
            (name, read_file(rt.alloc(), args, name, most))
        };
        match read {
            Ok(bytes) => Ok(NamedFile { name, bytes }),
            Err(error) => Err(CommandError::of_system(name, error)),
        }
    }

    /// The name as the argument gives it.
    pub fn name(&self) -> &'a str
        ensures { result ≡ self.now.name }
    {
        self.name
    }

    /// The content of the file.
    pub fn bytes(&self) -> &[u8] {
        self.bytes.as_slice()
    }

    /// The text of a script, with U+FFFD for what is not UTF-8, which only a comment may have.
    pub fn script_text(&self, alloc: Global) -> Result<String, CommandError<'a>> {
        Ok(String::from_utf8_lossy(alloc, self.bytes())?)
    }
}
