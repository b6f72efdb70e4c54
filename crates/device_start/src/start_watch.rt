//! What a start says if it takes longer than a second.

use crate::kept_commands::Counted;
use enip_common::print_reason;
use std::fmt;
use std::time::Instant;

/// A second, in milliseconds. What takes no longer is not said.
const LONG: u64 = 1_000;

/// What a start has done with FILE.
#[derive(Clone, Copy)]
pub(crate) enum Done {
    /// FILE was made.
    Made,
    /// So many entries were read.
    Read(usize),
    /// What the start has changed was written.
    Written,
}

/// A watch that tells how long each part of a start takes.
#[derive(Clone, Copy)]
pub(crate) struct StartWatch {
    /// When the part began. `None` if the clock cannot be read: then nothing is said.
    began: Option<Instant>,
}

impl StartWatch {
    /// A part begins.
    pub(crate) fn start(rt: &HostRuntime) -> StartWatch {
        StartWatch {
            began: Instant::now(rt).ok(),
        }
    }

    /// The part is over, and the next one begins. If it took longer than a second, standard error says what was done with the
    /// file of this name.
    pub(crate) fn next(self, rt: &HostRuntime, file: &str, done: Done) -> StartWatch {
        if let Some(began) = self.began {
            if let Ok(age) = began.elapsed(rt) {
                let milliseconds = u64::try_from(age.as_millis()).unwrap_or(u64::MAX);
                if milliseconds > LONG {
                    print_reason(rt, &Slow(file, done, milliseconds));
                }
            }
        }
        StartWatch::start(rt)
    }
}

/// What was done with the file of this name, in so many milliseconds.
#[derive(Clone, Copy)]
struct Slow<'a>(&'a str, Done, u64);

impl fmt::Display for Slow<'_> {
    fn fmt<W: fmt::Write>(&self, f: &mut fmt::Formatter<W>) -> fmt::Result {
        let (file, milliseconds) = (self.0, self.2);
        match self.1 {
            Done::Made => write!(f, "{file}: made")?,
            Done::Read(count) => {
                let entries = Counted(count, "entry", "entries");
                write!(f, "{file}: {entries} read")?;
            }
            Done::Written => write!(f, "{file}: the state written")?,
        }
        write!(
            f,
            " in {}.{} s",
            milliseconds / 1_000,
            milliseconds % 1_000 / 100
        )
    }
}
