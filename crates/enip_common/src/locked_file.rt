//! A file that one process uses at a time, and that is replaced as a whole.
//!
//! FILE is the file. `FILE.lock` is empty: whoever uses FILE holds its lock. It stays, because a lock on a file that is
//! removed excludes nobody. `FILE.new` is the next content of FILE until it is complete.

use crate::file::{File, checked};
use std::alloc::{AllocError, Global};
use std::io::{self, ErrorKind, Read, Write};

/// What is appended to the name of a file for the file that is locked.
const LOCK: &[u8] = b".lock";

/// What is appended for the next content.
const NEXT: &[u8] = b".new";

/// Our own limit, in bytes: more than any command file has, with 1,024 ids too. A longer file is not read to its end.
const LONGEST: u64 = 16_777_216;

/// A file that no other process uses until this value is dropped.
#[derive(Drop)]
pub struct LockedFile {
    name: Vec<u8>,
    /// Holds the lock.
    _lock: File,
}

impl LockedFile {
    /// Locks a file, which need not exist. `None` if another process uses it. Symbolic links are followed, so a file
    /// with several names has one lock.
    ///
    /// # Errors
    ///
    /// That of the system, if the file that is locked cannot be opened or created.
    pub fn try_lock(alloc: Global, name: &[u8]) -> io::Result<Option<LockedFile>> {
        let name = resolved(alloc, name)?;
        let lock = File::open_or_create(with_suffix(alloc, name.as_slice(), LOCK)?.as_slice())?;
        match lock.try_lock() {
            Ok(()) => Ok(Some(LockedFile { name, _lock: lock })),
            Err(error) if error.kind() == ErrorKind::WouldBlock => Ok(None),
            Err(error) => Err(error),
        }
    }

    /// The content of the file, up to a limit that no file reaches which `replace` wrote.
    ///
    /// # Errors
    ///
    /// `NotFound` if there is no file. `PermissionDenied` if it cannot be read or must not be written.
    pub fn read(&self, alloc: Global) -> io::Result<Vec<u8>> {
        let mut content = Vec::new(alloc);
        File::open_to_update(self.name.as_slice())?
            .take(LONGEST)
            .read_to_end(&mut content)?;
        Ok(content)
    }

    /// Replaces the file, or creates it. Once this returns, the content survives a crash of the machine. If the process
    /// or the machine stops before, the file has the content of before or the new one, each complete.
    ///
    /// # Errors
    ///
    /// That of the system. The file has the content of before or the new one.
    pub fn replace(&self, alloc: Global, content: &[u8]) -> io::Result<()> {
        let name = self.name.as_slice();
        let next = with_suffix(alloc, name, NEXT)?;
        // an earlier process may have stopped before it renamed its file
        let _ = os::unlink(next.as_slice());
        let mut file = File::create(next.as_slice())?;
        file.write_all(content)?;
        file.sync()?;
        checked(os::rename(next.as_slice(), name))?;
        File::open(folder_of(name))?.sync()
    }
}

/// A name with all its symbolic links resolved. If there is no such file, the name itself.
pub fn resolved(alloc: Global, name: &[u8]) -> Result<Vec<u8>, AllocError> {
    let mut path = [0; libc::PATH_MAX];
    let found = os::realpath(name, &mut path) == 0;
    let mut resolved = Vec::new(alloc);
    if found {
        resolved.extend_from_slice(&path[..os::name_length(&path)])?;
    } else {
        resolved.extend_from_slice(name)?;
    }
    Ok(resolved)
}

pub(crate) fn with_suffix(
    alloc: Global,
    name: &[u8],
    suffix: &[u8],
) -> Result<Vec<u8>, AllocError> {
    let mut longer = Vec::new(alloc);
    longer.extend_from_slice(name)?;
    longer.extend_from_slice(suffix)?;
    Ok(longer)
}

/// The folder that a file is in.
pub(crate) fn folder_of(name: &[u8]) -> &[u8] {
    match name.iter().rposition(|byte| *byte == b'/') {
        None => b".",
        Some(0) => b"/",
        Some(end) => &name[..end],
    }
}
