//! Required keys that a table does not have.

use std::fmt;

/// The most required keys in a table: those at the top level.
const MOST: usize = 8;

/// The names of required keys that a table does not have. It prints as `vendor, serial and name are missing`.
#[derive(Clone, Copy)]
pub(crate) struct MissingKeys {
    /// The first `count` of them are names.
    names: [&'static str; MOST],
    count: usize,
}

impl MissingKeys {
    /// No keys.
    pub(crate) fn new() -> MissingKeys {
        MissingKeys {
            names: [""; MOST],
            count: 0,
        }
    }

    /// Adds a key.
    pub(crate) fn push(&mut self, name: &'static str) {
        let count = self.count;
        if count < MOST {
            self.names[count] = name;
            self.count = count + 1;
        }
    }

    /// The key that was added first.
    pub(crate) fn first(&self) -> Option<&'static str> {
        match self.count {
            0 => None,
            _ => Some(self.names[0]),
        }
    }
}

impl fmt::Display for MissingKeys {
    fn fmt<W: fmt::Write>(&self, f: &mut fmt::Formatter<W>) -> fmt::Result {
        let last = self.count.saturating_sub(1);
        for (index, name) in self.names.iter().take(self.count).enumerate() {
            let before = match index {
                0 => "",
                _ if index == last => " and ",
                _ => ", ",
            };
            write!(f, "{before}{name}")?;
        }
        f.write_str(if last == 0 {
            " is missing"
        } else {
            " are missing"
        })
    }
}

// As the text, since nothing prints it otherwise.
impl fmt::Debug for MissingKeys {
    fn fmt<W: fmt::Write>(&self, f: &mut fmt::Formatter<W>) -> fmt::Result {
        write!(f, "{self}")
    }
}
