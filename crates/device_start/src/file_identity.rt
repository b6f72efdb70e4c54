//! Whether a name still leads to the file that it led to.

use std::fs::metadata;
use std::io;
use std::os::unix::fs::MetadataExt;

/// A name, and the file that it leads to.
#[derive(Drop)]
pub(crate) struct FileIdentity {
    rt: HostRuntime,
    name: String,
    device: u64,
    number: u64,
}

impl FileIdentity {
    /// The file that this name leads to.
    ///
    /// # Errors
    ///
    /// That of the system, if there is none.
    pub(crate) fn of(rt: &HostRuntime, name: String) -> io::Result<FileIdentity> {
        let found = metadata(rt, name.as_str())?;
        Ok(FileIdentity {
            rt: *rt,
            name,
            device: found.dev(),
            number: found.ino(),
        })
    }

    /// Whether the name still leads to this file. It does not once the file is removed or replaced, although a process
    /// that has it open can still write to it.
    pub(crate) fn is_there(&self) -> bool {
        match metadata(&self.rt, self.name.as_str()) {
            Ok(found) => found.dev() == self.device && found.ino() == self.number,
            Err(_) => false,
        }
    }
}
