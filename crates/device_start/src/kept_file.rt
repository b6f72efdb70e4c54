//! FILE of `--keep`: how it is opened, and why it is refused.
//!
//! FILE is looked at first, so nothing is made next to one whose first bytes are not those of a state. Then
//! `FILE.round` is locked, so one process uses FILE at a time. FILE is made only if neither of them says that there was a
//! state before.

ghost use Rattle.std.specs.Prelude.{◌≡◌, IfOk, true, false};
ghost use Rattle.device_start.specs.Starting.{fault_of_open, fault_at_start, fault_while_served};

use crate::file_identity::FileIdentity;
use crate::judgement::{OpenFault, judged, named};
use crate::start_watch::{Done, StartWatch};
use enip_common::{
    CommandError, Fault, LastRound, NamedReason, OsArg, Reason, RoundFile, StateFile,
    StorageReason, front_of, is_link, option_file_name, resolved,
};
use enip_faults::ProgramFault;
use enip_keep::{KeepError, Keeper, Numbered, RoundNote, StorageFault};
use enip_keep_sqlite::{RowsUser, begins_as_kept, make_file, names_table, with_rows};
use sqlite::Unknown;
use std::alloc::Global;
use std::io::{self, ErrorKind};

/// What FILE is, by its first bytes.
#[derive(Clone, Copy, PartialEq, Eq)]
enum Found {
    Nothing,
    /// A part of a database that was being made.
    Unfinished,
    Database,
}

/// FILE, once it is open.
#[derive(Drop)]
pub struct OpenFile<K: Keeper + Drop> {
    rows: K,
    note: FileNote,
    /// The number of the last round, as `FILE.round` has it.
    last: u64,
    /// How long its opening takes.
    watch: StartWatch,
}

impl<K: Keeper + Drop> OpenFile<K> {
    /// The watch of the start that goes on with it.
    pub(crate) fn watch(&self) -> StartWatch {
        self.watch
    }
}

/// Notes the numbers of rounds in `FILE.round`.
#[derive(Drop)]
pub struct FileNote {
    alloc: Global,
    file: RoundFile,
    database: FileIdentity,
    log: FileIdentity,
    /// The number that was noted last.
    noted: u64,
}

impl FileNote {
    /// What notes the numbers of rounds, the last of which is this one, next to the database at a path.
    fn new(
        rt: &HostRuntime,
        path: &str,
        file: RoundFile,
        noted: u64,
    ) -> Result<FileNote, OpenFault> {
        let alloc = rt.alloc();
        Ok(FileNote {
            alloc,
            file,
            database: identity(rt, StateFile::File, String::from_str(alloc, path)?)?,
            log: identity(rt, StateFile::Log, format!(in alloc; "{path}-wal")?)?,
            noted,
        })
    }
}

/// The file that this name leads to, which is this one of a state.
fn identity(rt: &HostRuntime, file: StateFile, name: String) -> Result<FileIdentity, OpenFault> {
    match FileIdentity::of(rt, name) {
        Ok(identity) => Ok(identity),
        Err(error) => Err(OpenFault::of_system(file, error)),
    }
}

impl RoundNote for FileNote {
    ghost noted = { λ n. n.noted };

    fn note(&mut self, round: u64) -> Result<(), StorageFault> {
        // what is written to a file that was removed is not there after a restart
        if !self.database.is_there() {
            return Err(StorageFault::Removed);
        }
        if !self.log.is_there() {
            return Err(StorageFault::LogRemoved);
        }
        match self.file.write(self.alloc, round) {
            Ok(()) => {
                self.noted = round;
                Ok(())
            }
            Err(error) if error.kind() == ErrorKind::StorageFull => Err(StorageFault::NoteFull),
            Err(_) => Err(StorageFault::NoteFailed),
        }
    }
}

/// What is done with FILE once it is open.
pub trait FileUser<R> {
    /// Goes on with the open file. Its rows are up, unless what they keep is in doubt.
    fn run<K: Keeper + Drop>(self, rt: &HostRuntime, opened: OpenFile<K>) -> R
        requires { K.doubt opened.rows ≡ 0 → K.is_up opened.rows };
}

/// FILE, once `FILE.round` is locked, and before its database is opened.
#[derive(Drop)]
pub struct LockedFile {
    /// The path of the database.
    path: String,
    round: RoundFile,
    /// The number of the last round, as `FILE.round` has it.
    last: u64,
    watch: StartWatch,
}

impl LockedFile {
    /// Opens the database, and hands the open file on. Returns what comes of that.
    ///
    /// # Errors
    ///
    /// If the database is refused. It is left as it is then.
    pub fn open_for<R, U: FileUser<R> + Drop>(
        self,
        rt: &HostRuntime,
        user: U,
    ) -> Result<R, OpenFault> {
        let LockedFile {
            path,
            round,
            last,
            watch,
        } = self;
        let path = path.as_str();
        let opening = Opening {
            path,
            round,
            last,
            watch,
            user,
        };
        match with_rows(rt, path, Unknown, opening) {
            Ok(result) => result,
            Err(fault) => Err(judged(rt.alloc(), path, fault)),
        }
    }
}

/// FILE while its database is opened, and what is done with it then.
#[derive(Drop)]
struct Opening<'p, U: Drop> {
    path: &'p str,
    round: RoundFile,
    last: u64,
    watch: StartWatch,
    user: U,
}

impl<'p, R, U: FileUser<R> + Drop> RowsUser<Unknown, Result<R, OpenFault>> for Opening<'p, U> {
    fn run<K: Keeper + Drop>(self, rt: &HostRuntime, rows: K) -> Result<R, OpenFault> {
        let Opening {
            path,
            round,
            last,
            watch,
            user,
        } = self;
        let note = FileNote::new(rt, path, round, last)?;
        let opened = OpenFile {
            rows,
            note,
            last,
            watch,
        };
        Ok(user.run(rt, opened))
    }
}

/// FILE, as the arguments name it.
#[derive(Clone, Copy)]
pub struct KeptFile<'a> {
    name: &'a str,
    /// Whether a state that is damaged, or older than it was, is taken.
    accepts_older: bool,
    /// Whether the file is made if there is none.
    is_made: bool,
}

impl<'a> KeptFile<'a> {
    /// The file of a device that is served.
    pub fn new(name: &'a str, accepts_older: bool) -> KeptFile<'a>
        ensures name { result.name ≡ name.entry }
        ensures older { result.accepts_older ≡ accepts_older }
        ensures made { result.is_made ≡ true }
    {
        KeptFile {
            name,
            accepts_older,
            is_made: true,
        }
    }

    /// A file that is only read.
    pub(crate) fn to_read(name: &'a str) -> KeptFile<'a>
        ensures name { result.name ≡ name.entry }
        ensures older { result.accepts_older ≡ false }
        ensures made { result.is_made ≡ false }
    {
        KeptFile {
            name,
            accepts_older: false,
            is_made: false,
        }
    }

    /// The name as the argument gives it.
    pub(crate) fn name(self) -> &'a str
        ensures { result ≡ self.entry.name }
    {
        self.name
    }

    /// Whether a state that is damaged, or older than it was, is taken.
    pub fn accepts_older(self) -> bool
        ensures { result ≡ self.entry.accepts_older }
    {
        self.accepts_older
    }

    /// Locks `FILE.round`, and makes the database if there was none before.
    ///
    /// # Errors
    ///
    /// If another process uses the file, if it is not a state, or if it cannot be used. It is left as it is then. Nothing is
    /// made next to a file whose first bytes are not those of a state.
    pub fn locked(self, rt: &HostRuntime, args: &[OsArg]) -> Result<LockedFile, CommandError<'a>> {
        let name = resolved(rt.alloc(), option_file_name(args, "--keep", self.name))?;
        let Ok(path) = str::from_utf8(&name) else {
            return Err(CommandError::of_reason(Reason::Named(self.name, NamedReason::NotText)));
        };
        let path = String::from_str(rt.alloc(), path)?;
        match self.lock_rounds(rt, path.as_str()) {
            Ok((round, last)) => Ok(LockedFile {
                path,
                round,
                last,
                watch: StartWatch::start(rt),
            }),
            Err(fault) => Err(self.not_opened(fault)),
        }
    }

    /// Looks at FILE, locks `FILE.round`, and makes the database if there was none before. Returns `FILE.round`, and the
    /// number of the last round, as it has it.
    fn lock_rounds(self, rt: &HostRuntime, path: &str) -> Result<(RoundFile, u64), OpenFault> {
        let alloc = rt.alloc();
        let found = self.look(alloc, path)?;
        let round = lock(alloc, path)?;
        let last = self.last_round(alloc, &round, found)?;
        if last == 0 || found == Found::Nothing {
            let watch = StartWatch::start(rt);
            match make_file(rt, path, Unknown) {
                Ok(()) => {
                    let _ = watch.next(rt, self.name, Done::Made);
                }
                Err(fault) => return Err(judged(alloc, path, fault)),
            }
        }
        Ok((round, last))
    }

    /// Looks at FILE before anything is made beside it.
    fn look(self, alloc: Global, path: &str) -> Result<Found, OpenFault> {
        let page = front_of(alloc, path.as_bytes()).map_err(|error| OpenFault::of_system(
            StateFile::File,
            error,
        ))?;
        let Some(page) = page else {
            return self.missing(path);
        };
        let has_round = RoundFile::is_there(alloc, path.as_bytes()).map_err(
            |error| OpenFault::of_system(StateFile::Round, error),
        )?;
        if !begins_as_kept(page.as_slice()) {
            // what is left of a first start is at most a byte, or has a log beside it
            return if has_round && (page.len() <= 1 || has_log(alloc, path)?) {
                Ok(Found::Unfinished)
            } else {
                Err(OpenFault::NotAState)
            };
        }
        if has_round {
            return Ok(Found::Database);
        }
        if !names_table(page.as_slice()) && !has_log(alloc, path)? {
            return Err(OpenFault::NotAState);
        }
        if self.accepts_older {
            Ok(Found::Database)
        } else {
            Err(OpenFault::NoLastRound)
        }
    }

    /// There is no FILE.
    fn missing(self, path: &str) -> Result<Found, OpenFault> {
        if is_link(path.as_bytes()) {
            return Err(OpenFault::Storage(StateFile::File, StorageReason::Dangling));
        }
        if !self.is_made {
            let error = io::Error::from(ErrorKind::NotFound);
            return Err(OpenFault::of_system(StateFile::File, error));
        }
        Ok(Found::Nothing)
    }

    /// Goes on after the last round of an open file.
    ///
    /// # Errors
    ///
    /// If its state is damaged, or older than `FILE.round` says.
    pub(crate) fn numbered<K: Keeper + Drop>(
        self,
        alloc: Global,
        opened: OpenFile<K>,
    ) -> Result<Numbered<K, FileNote>, CommandError<'a>>
        requires { K.doubt opened.rows ≡ 0 → K.is_up opened.rows }
        ensures { IfOk result (λ n. ⟦<Numbered<K, FileNote> as Keeper>⟧.doubt n ≡ 0
            → ⟦<Numbered<K, FileNote> as Keeper>⟧.is_up n) }
    {
        let OpenFile {
            rows,
            note,
            last,
            watch: _,
        } = opened;
        match Numbered::start(alloc, rows, note) {
            Ok(keeper) => self.compare(keeper, last),
            Err(error) => Err(self.refused(error)),
        }
    }

    /// The number of the last round, as `FILE.round` has it: 0 before the first one.
    fn last_round(self, alloc: Global, file: &RoundFile, found: Found) -> Result<u64, OpenFault> {
        let last = file
            .read()
            .map_err(|error| OpenFault::of_system(StateFile::Round, error))?;
        let exists = found == Found::Database;
        match last {
            LastRound::Number(0) if found == Found::Unfinished => Ok(0),
            _ if found == Found::Unfinished => Err(OpenFault::NotAState),
            LastRound::Number(number) if exists || number == 0 || self.accepts_older => Ok(number),
            LastRound::Number(number) => Err(OpenFault::Older(number)),
            LastRound::New if !exists => {
                file.write(alloc, 0)
                    .map_err(|error| OpenFault::of_system(StateFile::Round, error))?;
                Ok(0)
            }
            LastRound::New | LastRound::Damaged if self.accepts_older => Ok(1),
            LastRound::New | LastRound::Damaged => Err(OpenFault::NoLastRound),
        }
    }

    /// Tests the checksum of what is kept, and compares the number of its last round with that of `FILE.round`.
    fn compare<K: Keeper + Drop>(
        self,
        keeper: Numbered<K, FileNote>,
        last: u64,
    ) -> Result<Numbered<K, FileNote>, CommandError<'a>>
        requires { ⟦<Numbered<K, FileNote> as Keeper>⟧.doubt keeper ≡ 0
            → ⟦<Numbered<K, FileNote> as Keeper>⟧.is_up keeper }
        ensures { IfOk result (λ n. ⟦<Numbered<K, FileNote> as Keeper>⟧.doubt n ≡ 0
            → ⟦<Numbered<K, FileNote> as Keeper>⟧.is_up n) }
    {
        let mut keeper = keeper;
        if !self.accepts_older {
            if !keeper.is_whole() {
                return Err(self.not_opened(OpenFault::NotAState));
            }
            if keeper.round() < last {
                return Err(self.not_opened(OpenFault::Older(last - keeper.round())));
            }
        }
        keeper.skip_to(last);
        Ok(keeper)
    }

    /// Why a call of the keeper failed at the start.
    pub(crate) fn refused(self, error: KeepError) -> CommandError<'a>
        ensures { result.fault ≡ fault_at_start error }
    {
        self.not_opened(OpenFault::of_start(error))
    }

    /// The error of a file that is not opened.
    pub fn not_opened(self, fault: OpenFault) -> CommandError<'a>
        ensures { result.fault ≡ fault_of_open fault }
    {
        let name = self.name;
        let (fault, reason) = match fault {
            OpenFault::Memory => (Fault::Run(ProgramFault::Memory), Reason::Memory),
            OpenFault::InUse => (
                Fault::Run(ProgramFault::Device),
                Reason::Named(name, NamedReason::InUse),
            ),
            OpenFault::NotAState => (Fault::State, Reason::Named(name, NamedReason::NotAState)),
            OpenFault::OtherDevice => (Fault::State, Reason::Named(name, NamedReason::OtherDevice)),
            OpenFault::NoLastRound => (Fault::State, Reason::NoLastRound(name)),
            OpenFault::Older(rounds) => (Fault::State, Reason::Older(name, rounds)),
            OpenFault::Storage(file, why) => (Fault::Storage, Reason::Storage(name, file, why)),
        };
        CommandError::new(fault, reason)
    }

    /// A round could not be kept, so nothing is served any longer.
    pub fn not_kept(self, error: KeepError) -> CommandError<'a>
        ensures { result.fault ≡ fault_while_served error }
    {
        let (fault, reason) = match error {
            KeepError::Memory => (Fault::Run(ProgramFault::Memory), Reason::Memory),
            KeepError::Storage(fault) => {
                let (file, why) = named(fault);
                (Fault::Storage, Reason::NotKept(self.name, file, why))
            }
            KeepError::Stopped | KeepError::Foreign | KeepError::Refused => (
                Fault::Storage,
                Reason::NotKept(self.name, StateFile::File, StorageReason::Failed),
            ),
        };
        CommandError::new(fault, reason)
    }
}

/// Whether the database at a path has a log.
fn has_log(alloc: Global, path: &str) -> Result<bool, OpenFault> {
    let log = format!(in alloc; "{path}-wal")?;
    match front_of(alloc, log.as_bytes()) {
        Ok(front) => Ok(front.is_some_and(|bytes| !bytes.is_empty())),
        Err(error) => Err(OpenFault::of_system(StateFile::Log, error)),
    }
}

/// Locks `FILE.round`, for the FILE at a path.
fn lock(alloc: Global, path: &str) -> Result<RoundFile, OpenFault> {
    match RoundFile::try_lock(alloc, path.as_bytes()) {
        Ok(Some(file)) => Ok(file),
        Ok(None) => Err(OpenFault::InUse),
        Err(error) => Err(OpenFault::of_system(file_or_folder(error.kind()), error)),
    }
}

/// What is missing if `FILE.round` cannot be made for this reason.
fn file_or_folder(kind: ErrorKind) -> StateFile {
    match kind {
        ErrorKind::NotFound | ErrorKind::NotADirectory => StateFile::Folder,
        _ => StateFile::Round,
    }
}
