//! The file of `--once`: its lock, what it has, and why it cannot be used.

use crate::command_record::record_in;
use crate::once::OnceRun;
use cip_commander::Commander;
use enip_commands::{CommandRecord, has_ids_head, record_text};
use enip_common::{
    CLOCK, CommandError, LockedFile, NamedReason, Note, Reason, StateFile, StorageReason,
    SystemError, exists, front_of,
};
use std::io::{self, ErrorKind};
use std::random::RandomSource;
use std::thread;
use std::time::Duration;

/// How long to wait before a file in use is tried again, in milliseconds (ours).
const LOCK_INTERVAL: u64 = 20;

impl<'a> OnceRun<'a, '_> {
    /// Locks the command file. Waits for as long as the timeout if another process uses it.
    pub(crate) fn lock(&self) -> Result<LockedFile, CommandError<'a>> {
        self.look()?;
        let start = self.now()?;
        for _ in 0..u64::MAX {
            match LockedFile::try_lock(self.rt.alloc(), self.name) {
                Ok(Some(file)) => return Ok(file),
                Ok(None) => {}
                Err(error) => return Err(self.error_of_lock(error)),
            }
            let elapsed = start
                .elapsed(self.rt)
                .map_err(|error| CommandError::of_system(CLOCK, error))?;
            if self.device.timeout.deadline_over(self.rt).is_some() {
                break;
            }
            if let Some(limit) = self.device.timeout.limit() {
                if elapsed >= limit {
                    break;
                }
            }
            thread::sleep(self.rt, Duration::from_millis(LOCK_INTERVAL));
        }
        Err(CommandError::of_reason(Reason::Named(self.options.file, NamedReason::InUse)).with_note(
            Note::NotSent,
        ))
    }

    /// Refuses a file that is no command file before another one is made beside it.
    fn look(&self) -> Result<(), CommandError<'a>> {
        match front_of(self.rt.alloc(), self.name) {
            Ok(None) => Ok(()),
            // such a file may be longer than its front
            Ok(Some(text)) if has_ids_head(text.as_slice()) => Ok(()),
            Ok(Some(text)) => {
                match record_in(self.rt.alloc(), self.options.file, text.as_slice()) {
                    Ok(_) => Ok(()),
                    Err(error) => Err(error),
                }
            }
            Err(error) => Err(self.error_of_file(error)),
        }
    }

    /// The text of the command file. `None` if there is no file.
    pub(crate) fn read(&self, file: &LockedFile) -> Result<Option<Vec<u8>>, CommandError<'a>> {
        match file.read(self.rt.alloc()) {
            Ok(text) => Ok(Some(text)),
            Err(error) if error.kind() == ErrorKind::NotFound => Ok(None),
            Err(error) => Err(self.error_of_file(error)),
        }
    }

    /// What the command file with this text has, or a new one.
    pub(crate) fn record_of<'t>(
        &self,
        text: &'t Option<Vec<u8>>,
    ) -> Result<CommandRecord<'t>, CommandError<'a>> {
        match text {
            Some(text) => record_in(self.rt.alloc(), self.options.file, text.as_slice()),
            None => Ok(CommandRecord {
                commander: Commander::new(0, self.new_originator()?, 0),
                pending_id: None,
                done: Vec::new(self.rt.alloc()),
            }),
        }
    }

    /// Writes the command file.
    pub(crate) fn write(
        &self,
        file: &LockedFile,
        record: &CommandRecord<'_>,
    ) -> Result<(), CommandError<'a>> {
        self.write_text(file, record_text(self.rt.alloc(), record)?.as_slice())
    }

    /// Writes the command file, whose text this is.
    pub(crate) fn write_text(
        &self,
        file: &LockedFile,
        text: &[u8],
    ) -> Result<(), CommandError<'a>> {
        file.replace(self.rt.alloc(), text)
            .map_err(|error| self.error_of_file(error))
    }

    /// Checks that there is a command file.
    pub(crate) fn require_file(&self) -> Result<(), CommandError<'a>> {
        if exists(self.name) {
            Ok(())
        } else {
            Err(self.no_file())
        }
    }

    /// A random number as the originator of a new command file.
    fn new_originator(&self) -> Result<u64, CommandError<'a>> {
        let mut bytes = [0; 8];
        self.rt
            .fill_bytes(&mut bytes)
            .map_err(|error| CommandError::of_system("random numbers", error))?;
        Ok(u64::from_le_bytes(bytes))
    }

    fn error_of_file(&self, error: io::Error) -> CommandError<'a> {
        CommandError::of_system(self.options.file, error)
    }

    /// The error of the file that is locked.
    fn error_of_lock(&self, error: io::Error) -> CommandError<'a> {
        let file = match error.kind() {
            ErrorKind::OutOfMemory => return CommandError::of_memory(),
            ErrorKind::NotFound | ErrorKind::NotADirectory => StateFile::Folder,
            _ => StateFile::Lock,
        };
        let why = StorageReason::System(SystemError(error));
        CommandError::of_reason(Reason::Storage(self.options.file, file, why))
    }

    pub(crate) fn no_file(&self) -> CommandError<'a> {
        self.error_of_file(io::Error::from(ErrorKind::NotFound))
    }
}
