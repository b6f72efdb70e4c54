//! Files that arguments name. A name may be any bytes that the system accepts, UTF-8 or not.

ghost use Rattle.std.specs.Prelude.{◌≤◌, length, IfOk};

use crate::os_arg::OsArg;
use std::alloc::Global;
use std::convert::AsStr;
use std::io::{self, ErrorKind, Read, Write};

/// The bytes of the name of a file that an argument names. `text` is the argument as text.
fn file_name<'a>(args: &'a [OsArg], text: &'a str) -> &'a [u8] {
    let argument = args.iter().find(|argument| argument.as_str() == text);
    argument.map_or(text.as_bytes(), |argument| argument.bytes.as_slice())
}

/// The arguments after the first one with this text. Two names that are not UTF-8 can have the same text, so the second
/// of two files is looked for after the first.
pub fn arguments_after<'a>(args: &'a [OsArg], text: &str) -> &'a [OsArg] {
    match args.iter().position(|argument| argument.as_str() == text) {
        Some(index) => &args[index + 1..],
        None => args,
    }
}

/// The bytes of the name of a file that an option names, as `OPTION FILE` or `OPTION=FILE`. `option` has its dashes,
/// and `text` is FILE as text.
pub fn option_file_name<'a>(args: &'a [OsArg], option: &str, text: &'a str) -> &'a [u8] {
    for (index, argument) in args.iter().enumerate() {
        match argument.bytes.as_slice().strip_prefix(option.as_bytes()) {
            Some([]) => return args
                .get(index + 1)
                .map_or(text.as_bytes(), |file| file.bytes.as_slice()),
            Some([b'=', file @ ..]) => return file,
            _ => {}
        }
    }
    text.as_bytes()
}

/// The first bytes of the file that an argument names, up to `most` of them. `text` is the argument as text. The file is
/// opened by the bytes of that argument, which need not be UTF-8.
pub fn read_file(alloc: Global, args: &[OsArg], text: &str, most: u64) -> io::Result<Vec<u8>> {
    read_front(alloc, file_name(args, text), most)
}

/// The first bytes of the file that an option names, up to `most` of them. `text` is FILE as text.
pub fn read_option_file(
    alloc: Global,
    args: &[OsArg],
    option: &str,
    text: &str,
    most: u64,
) -> io::Result<Vec<u8>> {
    read_front(alloc, option_file_name(args, option, text), most)
}

/// The first bytes of the file of this name, up to `most` of them.
fn read_front(alloc: Global, name: &[u8], most: u64) -> io::Result<Vec<u8>> {
    let mut bytes = Vec::new(alloc);
    File::open(name)?.take(most).read_to_end(&mut bytes)?;
    Ok(bytes)
}

/// Whether there is a file of this name, of whatever kind, or something that is not opened for reading and writing.
pub fn exists(name: &[u8]) -> bool {
    match File::open_to_update(name) {
        Ok(_) => true,
        Err(error) => !matches!(error.kind(), ErrorKind::NotFound | ErrorKind::NotADirectory),
    }
}

/// The most bytes that are looked at of a file.
pub const FRONT: usize = 4_096;

/// The first bytes of the file of this name, up to [`FRONT`] of them. A pipe counts as empty. `None` if there is no such
/// file. It can be read and written, and stays as it is.
///
/// # Errors
///
/// That of the system, if there is something of this name that cannot be read and written.
pub fn front_of(alloc: Global, name: &[u8]) -> io::Result<Option<Vec<u8>>> {
    let file = match File::open_to_update(name) {
        Ok(file) => file,
        Err(error) if error.kind() == ErrorKind::NotFound => return Ok(None),
        Err(error) => return Err(error),
    };
    let mut front = [0; FRONT];
    let count = match file.read_at_start(&mut front) {
        Ok(count) => count,
        Err(error) if error.kind() == ErrorKind::NotSeekable => 0,
        Err(error) => return Err(error),
    };
    let front = Vec::from_slice(alloc, &front[..count])?;
    Ok(Some(front))
}

/// Whether there is a file of this name. It can be read and written, and stays as it is.
///
/// # Errors
///
/// That of the system, if there is something of this name that cannot be read and written.
pub fn can_update(name: &[u8]) -> io::Result<bool> {
    match File::open_to_update(name) {
        Ok(_) => Ok(true),
        Err(error) if error.kind() == ErrorKind::NotFound => Ok(false),
        Err(error) => Err(error),
    }
}

/// Opens a file of this name for reading and writing, and makes an empty one if there is none.
///
/// # Errors
///
/// That of the system, if the file cannot be opened or made.
pub fn open_or_make(name: &[u8]) -> io::Result<()> {
    match File::open_or_create(name) {
        Ok(_) => Ok(()),
        Err(error) => Err(error),
    }
}

/// Whether this name is that of a symbolic link.
pub fn is_link(name: &[u8]) -> bool {
    let mut target = [0; 1];
    os::readlink(name, &mut target) >= 0
}

/// The descriptors of the standard streams are below this one.
const FIRST_FREE: i32 = 3;

/// A file that takes any bytes and has none.
const NOWHERE: &[u8] = b"/dev/null";

/// Takes the descriptors of the standard streams that are closed. Otherwise a file or a socket that the program opens
/// would get such a descriptor, and what is printed would go there. Reads and writes still fail as on a closed
/// descriptor: that of standard input is open for writing only, those of the other two for reading only.
///
/// # Errors
///
/// That of the system, if it has no such file or no descriptor is free.
pub fn reserve_streams() -> io::Result<()> {
    let input = os::open_with(NOWHERE, libc::O_WRONLY, 0);
    checked(input)?;
    if input != 0 {
        let _ = libc::close(input);
    }
    for _ in 0..FIRST_FREE {
        let output = os::open_read(NOWHERE);
        checked(output)?;
        if output >= FIRST_FREE {
            let _ = libc::close(output);
            break;
        }
    }
    Ok(())
}

/// An open file.
pub(crate) struct File {
    descriptor: i32,
}

/// The outcome of a call of the system that returns -1 if it fails.
pub(crate) fn checked(status: i32) -> io::Result<()> {
    if status < 0 {
        return Err(io::Error::from_raw_os_error(os::errno()));
    }
    Ok(())
}

impl File {
    /// The file of a descriptor that the system has just opened, or its error.
    fn of_descriptor(descriptor: i32) -> io::Result<File> {
        checked(descriptor)?;
        Ok(File { descriptor })
    }

    /// Opens a file or a folder for reading.
    pub(crate) fn open(name: &[u8]) -> io::Result<File> {
        File::of_descriptor(os::open_read(name))
    }

    /// Opens a file for reading and writing.
    pub(crate) fn open_to_update(name: &[u8]) -> io::Result<File> {
        File::of_descriptor(os::open_update(name))
    }

    /// Opens a file for reading and writing. If there is none, creates an empty one.
    pub(crate) fn open_or_create(name: &[u8]) -> io::Result<File> {
        let flags = libc::O_RDWR | libc::O_CREAT;
        File::of_descriptor(os::open_with(name, flags, NEW_FILE))
    }

    /// Creates a file for writing. There must be none of this name.
    pub(crate) fn create(name: &[u8]) -> io::Result<File> {
        File::of_descriptor(os::create(name))
    }

    /// Takes the lock of the file, which ends with this value. `WouldBlock` if another process holds it.
    pub(crate) fn try_lock(&self) -> io::Result<()> {
        checked(libc::flock(self.descriptor, libc::LOCK_EX | libc::LOCK_NB))
    }

    /// Reads the front of the file. Returns how many bytes it has, if they are fewer than the slice takes.
    pub(crate) fn read_at_start(&self, into: &mut [u8]) -> io::Result<usize>
        ensures { IfOk result (λ count. count ≤ length into.new) }
    {
        let count = libc::pread(self.descriptor, into, 0);
        if count < 0 {
            return Err(io::Error::from_raw_os_error(os::errno()));
        }
        Ok(count as usize)
    }

    /// Writes bytes at an offset, and waits until they have reached the disk.
    pub(crate) fn write_at(&self, bytes: &[u8], offset: u32) -> io::Result<()> {
        let count = libc::pwrite(self.descriptor, bytes, i64::from(offset));
        if count < 0 {
            return Err(io::Error::from_raw_os_error(os::errno()));
        }
        if count as usize != bytes.len() {
            return Err(io::Error::from(ErrorKind::WriteZero));
        }
        checked(libc::fdatasync(self.descriptor))
    }

    /// Waits until what was written has reached the disk.
    pub(crate) fn sync(&self) -> io::Result<()> {
        checked(libc::fsync(self.descriptor))
    }
}

/// The permissions of a new file, before the system takes away those of its mask.
const NEW_FILE: u32 = 0o666;

impl Drop for File {
    fn drop(self) {
        let File { descriptor } = self;
        let _ = libc::close(descriptor);
    }
}

impl Read for File {
    fn read(&mut self, into: &mut [u8]) -> io::Result<usize> {
        let count = libc::read(self.descriptor, into);
        if count < 0 {
            return Err(io::Error::from_raw_os_error(os::errno()));
        }
        Ok(count as usize)
    }
}

impl Write for File {
    fn write(&mut self, from: &[u8]) -> io::Result<usize> {
        let count = libc::write(self.descriptor, from);
        if count < 0 {
            return Err(io::Error::from_raw_os_error(os::errno()));
        }
        Ok(count as usize)
    }

    fn flush(&mut self) -> io::Result<()> {
        Ok(())
    }
}
