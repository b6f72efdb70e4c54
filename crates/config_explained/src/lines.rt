//! The line of a key of a configuration.

use crate::place::Place;
use crate::statement::{Name, StatementReader, first_name};
use std::alloc::Global;
use toml::Value;

/// The most names in the path to a key: those of a table, of a table in it, and of the key.
const MOST_NAMES: usize = 3;

/// A name in the path to a key. The rest of the path is in the table of this name with the index, from 0. `count` is how
/// many such tables of an array were read.
#[derive(Clone, Copy)]
struct Step<'a> {
    name: &'a str,
    index: usize,
    count: usize,
}

impl<'a> Step<'a> {
    fn new(name: &'a str, index: usize) -> Step<'a> {
        Step {
            name,
            index,
            count: 0,
        }
    }
}

/// A reader of the statements of a document that looks for a key. The first `length` steps are the path to it.
#[derive(Clone, Copy)]
struct KeyReader<'a> {
    steps: [Step<'a>; MOST_NAMES],
    length: usize,
    /// How many steps lead to the table of the last header. `None` if the path does not go through it.
    reached: Option<usize>,
}

impl<'a> KeyReader<'a> {
    /// Nothing is read. Without a key, the reader looks for the table.
    fn new(place: Place, key: Option<&'a str>) -> KeyReader<'a> {
        let nothing = Step::new("", 0);
        let last = Step::new(key.unwrap_or(""), 0);
        let (steps, tables): ([Step<'a>; MOST_NAMES], usize) = match place {
            Place::Text => ([last, nothing, nothing], 0),
            Place::Table(name, index) => ([Step::new(name, index), last, nothing], 1),
            Place::Part(object, name, index) => {
                (
                    [Step::new("object", object), Step::new(name, index), last],
                    2,
                )
            }
        };
        KeyReader {
            steps,
            length: if key.is_some() { tables + 1 } else { tables },
            reached: Some(0),
        }
    }

    /// Reads a statement. Returns whether it is the first one with the key.
    fn read(&mut self, alloc: Global, statement: &[u8]) -> bool {
        let statement = statement.trim_ascii();
        if let Some(names) = statement.strip_prefix(b"[[") {
            return self.read_header(alloc, names, true);
        }
        if let Some(names) = statement.strip_prefix(b"[") {
            return self.read_header(alloc, names, false);
        }
        match statement.first() {
            None | Some(b'#') => false,
            Some(_) => self.read_key(alloc, statement),
        }
    }

    /// Reads the names of a header, of a table or of the next one of an array.
    fn read_header(&mut self, alloc: Global, names: &[u8], is_array: bool) -> bool {
        self.reached = None;
        let mut rest = names;
        for depth in 0..MOST_NAMES {
            let name = first_name(rest);
            if !self.has_name(alloc, depth, name) {
                return false;
            }
            if name.is_last && is_array {
                self.count(depth);
            }
            let step = self.steps[depth];
            if step.count.saturating_sub(1) != step.index {
                return false;
            }
            if depth + 1 == self.length {
                return true;
            }
            if name.is_last {
                self.reached = Some(depth + 1);
                return false;
            }
            rest = name.rest;
        }
        false
    }

    /// Reads the names of a key in the table of the last header. The rest of the path is within its value.
    fn read_key(&mut self, alloc: Global, names: &[u8]) -> bool {
        let Some(reached) = self.reached else {
            return false;
        };
        let mut rest = names;
        for depth in 0..MOST_NAMES {
            if depth < reached {
                continue;
            }
            let name = first_name(rest);
            if !self.has_name(alloc, depth, name) {
                return false;
            }
            if name.is_last || depth + 1 == self.length {
                return true;
            }
            if self.steps[depth].index != 0 {
                return false;
            }
            rest = name.rest;
        }
        false
    }

    /// Whether the path has this name at a depth, from 0. If memory is refused, a name in quotation marks is another one.
    fn has_name(&self, alloc: Global, depth: usize, name: Name<'_>) -> bool {
        if depth >= self.length || depth >= MOST_NAMES {
            return false;
        }
        let wanted = self.steps[depth].name;
        match name.text.first() {
            Some(b'"' | b'\'') => is_quoted(alloc, name.text, wanted),
            _ => name.text == wanted.as_bytes(),
        }
    }

    /// Counts a table of an array. It has no tables within yet.
    fn count(&mut self, depth: usize) {
        for index in 0..MOST_NAMES {
            if index == depth {
                self.steps[index].count = self.steps[index].count.saturating_add(1);
            }
            if index > depth {
                self.steps[index].count = 0;
            }
        }
    }
}

/// Whether a name in quotation marks is this one.
fn is_quoted(alloc: Global, quoted: &[u8], name: &str) -> bool {
    let Ok(text) = str::from_utf8(quoted) else {
        return false;
    };
    match Value::from_str(alloc, text) {
        Ok(Value::String(text)) => text.as_str() == name,
        _ => false,
    }
}

/// The line, from 1, of a key of a table in a document that has it, or of the table: the one at whose end the document
/// has it first. So the line of a value of several lines is its last one.
pub(crate) fn line_of(
    alloc: Global,
    bytes: &[u8],
    place: Place,
    key: Option<&str>,
) -> Option<usize> {
    let mut keys = KeyReader::new(place, key);
    let mut statements = StatementReader::new();
    let mut line: usize = 1;
    let mut start: usize = 0;
    for (index, byte) in bytes.iter().enumerate() {
        if statements.read(&bytes[index..]) {
            let statement = bytes.get(start..index)?;
            if keys.read(alloc, statement) {
                return Some(line);
            }
            start = index.saturating_add(1);
        }
        if *byte == b'\n' {
            line = line.saturating_add(1);
        }
    }
    if keys.read(alloc, bytes.get(start..)?) {
        return Some(line);
    }
    None
}
