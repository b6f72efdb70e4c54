//! The table of `enip watch` on a terminal.

use std::alloc::{AllocError, Global};
use std::fmt::{self, Write};

/// The columns of a row. A longer row is cut.
const COLUMNS: usize = 79;

/// The columns of the names at most.
const MOST_OF_A_NAME: usize = 40;

/// The control sequences of a terminal: to the first place, to the end of the line, and to the end of the screen.
const HOME: &str = "\u{1b}[H";

const REST_OF_LINE: &str = "\u{1b}[K";

const REST_OF_SCREEN: &str = "\u{1b}[J";

/// A row: a name, and its value.
#[derive(Drop)]
struct TableRow {
    name: String,
    value: String,
}

/// The names and values that are watched.
#[derive(Drop)]
pub(crate) struct WatchTable {
    alloc: Global,
    rows: Vec<TableRow>,
}

impl WatchTable {
    /// No rows.
    pub(crate) fn new(alloc: Global) -> WatchTable {
        WatchTable {
            alloc,
            rows: Vec::new(alloc),
        }
    }

    /// Sets the value of a row. The rows before it have their values.
    pub(crate) fn set(&mut self, index: usize, name: &str, value: &str) -> Result<(), AllocError> {
        let value = cut_text(self.alloc, value, COLUMNS)?;
        if let Some(row) = self.rows.get_mut(index) {
            row.value = value;
            return Ok(());
        }
        let name = cut_text(self.alloc, name, MOST_OF_A_NAME)?;
        self.rows.push(TableRow { name, value })?;
        Ok(())
    }

    /// The text that draws the table over the one before.
    pub(crate) fn screen(
        &self,
        alloc: Global,
        address: &str,
        seconds: u64,
    ) -> Result<String, AllocError> {
        let width = self
            .rows
            .iter()
            .map(|row| row.name.as_str().chars().count())
            .fold(0, usize::max);
        let mut screen = String::new(alloc);
        screen.push_str(HOME)?;
        let title = format!(in alloc; "{address}, {seconds} s")?;
        push_line(alloc, &mut screen, title.as_str())?;
        for row in &self.rows {
            let (name, value) = (row.name.as_str(), row.value.as_str());
            let line = format!(in alloc; "{name:width$}  {value}")?;
            push_line(alloc, &mut screen, line.as_str())?;
        }
        screen.push_str(REST_OF_SCREEN)?;
        Ok(screen)
    }
}

/// Adds a line, cut to the columns of a row.
fn push_line(alloc: Global, screen: &mut String, line: &str) -> Result<(), AllocError> {
    let line = cut_text(alloc, line, COLUMNS)?;
    screen.push_str(line.as_str())?;
    screen.push_str(REST_OF_LINE)?;
    screen.push_str("\n")
}

/// The first characters of a text.
fn cut_text(alloc: Global, text: &str, columns: usize) -> Result<String, AllocError> {
    let mut cut = String::new(alloc);
    for c in text.chars().take(columns) {
        cut.push(if c.is_control() { ' ' } else { c })?;
    }
    Ok(cut)
}

/// A text within the quotation marks of a JSON string.
#[derive(Clone, Copy)]
pub(crate) struct JsonText<'a>(pub(crate) &'a str);

impl fmt::Display for JsonText<'_> {
    fn fmt<W: fmt::Write>(&self, f: &mut fmt::Formatter<W>) -> fmt::Result {
        for c in self.0.chars() {
            match c {
                '"' => f.write_str("\\\"")?,
                '\\' => f.write_str("\\\\")?,
                c if c < ' ' => write!(f, "\\u{:04x}", u32::from(c))?,
                c => f.write_char(c)?,
            }
        }
        Ok(())
    }
}
