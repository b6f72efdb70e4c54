//! The statements of a TOML document, one after the other.

/// What a byte of a document is in.
#[derive(Clone, Copy)]
enum Within {
    /// No string and no comment.
    Plain,
    /// A comment, up to the end of the line.
    Comment,
    /// A string in these quotation marks.
    Short(u8),
    /// A string in three of these quotation marks at both ends.
    Long(u8),
}

/// A reader of the bytes of a document that knows where a statement ends: at the end of a line, outside of strings,
/// arrays and inline tables.
#[derive(Clone, Copy)]
pub(crate) struct StatementReader {
    within: Within,
    /// How many brackets and braces are open.
    depth: usize,
    /// How many of the next bytes have no meaning.
    skipped: usize,
}

impl StatementReader {
    /// Nothing is read.
    pub(crate) fn new() -> StatementReader {
        StatementReader {
            within: Within::Plain,
            depth: 0,
            skipped: 0,
        }
    }

    /// Reads the first of these bytes, the rest of a document. Returns whether it ends a statement.
    pub(crate) fn read(&mut self, rest: &[u8]) -> bool {
        if self.skipped > 0 {
            self.skipped -= 1;
            return false;
        }
        let Some(byte) = rest.first() else {
            return false;
        };
        match self.within {
            Within::Plain => self.read_plain(*byte, rest),
            Within::Comment => {
                if *byte == b'\n' {
                    self.within = Within::Plain;
                }
                *byte == b'\n' && self.depth == 0
            }
            Within::Short(quote) => {
                self.read_string(*byte, quote, false);
                false
            }
            Within::Long(quote) => {
                self.read_string(*byte, quote, !is_closed(rest, quote));
                false
            }
        }
    }

    /// Reads a byte outside of strings and comments.
    fn read_plain(&mut self, byte: u8, rest: &[u8]) -> bool {
        match byte {
            b'#' => self.within = Within::Comment,
            b'"' | b'\'' if is_triple(rest, byte) => {
                self.within = Within::Long(byte);
                self.skipped = 2;
            }
            b'"' | b'\'' => self.within = Within::Short(byte),
            b'[' | b'{' => self.depth = self.depth.saturating_add(1),
            b']' | b'}' => self.depth = self.depth.saturating_sub(1),
            _ => {}
        }
        byte == b'\n' && self.depth == 0
    }

    /// Reads a byte of a string in these quotation marks. One of them may be a part of the text.
    fn read_string(&mut self, byte: u8, quote: u8, is_text: bool) {
        if byte == b'\\' && quote == b'"' {
            self.skipped = 1;
        } else if byte == quote && !is_text {
            if let Within::Long(_) = self.within {
                self.skipped = 2;
            }
            self.within = Within::Plain;
        }
    }
}

/// Whether three of these quotation marks are first.
fn is_triple(rest: &[u8], quote: u8) -> bool {
    match rest {
        [first, second, third, ..] => *first == quote && *second == quote && *third == quote,
        _ => false,
    }
}

/// Whether the first three quotation marks close a string. One or two more before them are a part of the text.
fn is_closed(rest: &[u8], quote: u8) -> bool {
    is_triple(rest, quote) && rest.get(3) != Some(&quote)
}

/// A name of a dotted key or of a header, as it is written.
#[derive(Clone, Copy)]
pub(crate) struct Name<'a> {
    pub(crate) text: &'a [u8],
    pub(crate) rest: &'a [u8],
    pub(crate) is_last: bool,
}

/// The first name of a dotted key, up to the equals sign, or of a header, up to the closing bracket.
pub(crate) fn first_name(text: &[u8]) -> Name<'_> {
    let mut quote = None;
    let mut is_escaped = false;
    for (index, byte) in text.iter().enumerate() {
        let is_read = is_escaped;
        is_escaped = false;
        match quote {
            _ if is_read => {}
            None => match *byte {
                b'"' | b'\'' => quote = Some(*byte),
                b'.' | b'=' | b']' => {
                    return Name {
                        text: text[..index].trim_ascii(),
                        rest: &text[index + 1..],
                        is_last: *byte != b'.',
                    };
                }
                _ => {}
            },
            Some(open) => {
                if *byte == b'\\' && open == b'"' {
                    is_escaped = true;
                } else if *byte == open {
                    quote = None;
                }
            }
        }
    }
    Name {
        text,
        rest: &[],
        is_last: true,
    }
}
