//! The file beside a kept state that has the number of its last round.
//!
//! FILE is the kept state, and `FILE.round` has the number of the last round whose changes FILE has. If FILE is damaged,
//! or is replaced by an older copy, its own number is less. Whoever uses FILE holds the lock of `FILE.round`.
//!
//! `FILE.round` has two lines: that of the last even round, then that of the last odd one. A round's line is written over
//! the line of two rounds before, so a power cut in the middle of that spoils neither the line of the round before nor
//! what it says. Each line has its number twice, so half of a line is none.

use crate::file::{File, can_update, checked};
use crate::locked_file::{folder_of, with_suffix};
use std::alloc::Global;
use std::io::{self, ErrorKind};

/// What is appended to the name of a kept state.
const ROUND: &[u8] = b".round";

/// What comes before the number in a line.
const START: &str = "enip state 1, round ";

/// What comes between the number and its repetition.
const BETWEEN: &str = " = ";

/// The digits of a number. The greatest has so many.
const DIGITS: usize = 20;

/// The bytes of a line.
const LINE: usize = START.len() + DIGITS + BETWEEN.len() + DIGITS + 1;

/// One byte more than two lines have.
const LONGEST: usize = 2 * LINE + 1;

/// What `FILE.round` says.
#[derive(Clone, Copy, Debug, PartialEq, Eq)]
pub enum LastRound {
    /// Nothing: the file is new, or its first line was not written to its end.
    New,
    /// The number of the last round.
    Number(u64),
    /// The file has something else.
    Damaged,
}

/// The file `FILE.round`, whose lock this value holds.
#[derive(Drop)]
pub struct RoundFile {
    file: File,
}

impl RoundFile {
    /// Whether `FILE.round` is there, for the FILE of this name.
    ///
    /// # Errors
    ///
    /// That of the system, if there is something of its name that cannot be read and written.
    pub fn is_there(alloc: Global, name: &[u8]) -> io::Result<bool> {
        let name = with_suffix(alloc, name, ROUND)?;
        can_update(name.as_slice())
    }

    /// Locks `FILE.round`, for the FILE of this name, which is [`resolved`](crate::resolved). It is created if there is
    /// none. `None` if another process uses it.
    ///
    /// # Errors
    ///
    /// That of the system, if the file cannot be opened, created or locked.
    pub fn try_lock(alloc: Global, name: &[u8]) -> io::Result<Option<RoundFile>> {
        let name = with_suffix(alloc, name, ROUND)?;
        let file = File::open_or_create(name.as_slice())?;
        match file.try_lock() {
            Ok(()) => {
                // the name of a new file is to survive a crash as well
                File::open(folder_of(name.as_slice()))?.sync()?;
                Ok(Some(RoundFile { file }))
            }
            Err(error) if error.kind() == ErrorKind::WouldBlock => Ok(None),
            Err(error) => Err(error),
        }
    }

    /// What the file says.
    ///
    /// # Errors
    ///
    /// That of the system.
    pub fn read(&self) -> io::Result<LastRound> {
        let mut lines = [0; LONGEST];
        let size = self.file.read_at_start(&mut lines)?;
        Ok(last_round(&lines[..size]))
    }

    /// Writes the number of the last round. Once this returns, it survives a crash of the machine.
    ///
    /// # Errors
    ///
    /// That of the system. If the round follows that of the last write, the file has the number of before or the new one.
    pub fn write(&self, alloc: Global, round: u64) -> io::Result<()> {
        let line = format!(in alloc; "{START}{round:020}{BETWEEN}{round:020}\n")?;
        let offset = if round % 2 == 0 { 0 } else { LINE as u32 };
        self.file.write_at(line.as_bytes(), offset)
    }
}

/// What a file with these bytes says.
fn last_round(bytes: &[u8]) -> LastRound {
    if is_unfinished(bytes) {
        return LastRound::New;
    }
    if bytes.len() >= LONGEST {
        return LastRound::Damaged;
    }
    let (even, odd) = bytes.split_at(bytes.len().min(LINE));
    match (number_in(even), number_in(odd)) {
        (Some(even), Some(odd)) => LastRound::Number(even.max(odd)),
        (Some(number), None) | (None, Some(number)) => LastRound::Number(number),
        (None, None) => LastRound::Damaged,
    }
}

/// Whether a file with these bytes is empty, or has a part of its first line, and zeros for what was not written.
fn is_unfinished(bytes: &[u8]) -> bool {
    let written = bytes.iter().take_while(|byte| **byte != 0).count();
    written < LINE
        && START
            .as_bytes()
            .iter()
            .zip(bytes)
            .take(written)
            .all(|(one, other)| one == other)
        && bytes.iter().skip(written).all(|byte| *byte == 0)
}

/// The number in a line, which must have it twice.
fn number_in(line: &[u8]) -> Option<u64> {
    let numbers = line.strip_prefix(START.as_bytes())?.strip_suffix(b"\n")?;
    if numbers.len() != 2 * DIGITS + BETWEEN.len() {
        return None;
    }
    let (number, rest) = numbers.split_at(DIGITS);
    if rest.strip_prefix(BETWEEN.as_bytes())? != number || !number.iter().all(u8::is_ascii_digit) {
        return None;
    }
    str::from_utf8(number).ok()?.parse().ok()
}
