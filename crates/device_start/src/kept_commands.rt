//! What is kept of commands, as text.

use byteorder::{ByteOrder, LittleEndian};
use enip_faults::Digits;
use std::fmt;

/// The bytes of a slot of the command ledger before its reply or ticket: the originator, the number and the state.
const SLOT_HEAD: usize = 13;

/// The bytes of a waiting command before its data.
const COMMAND_HEAD: usize = 13;

/// A slot of the command ledger, by its bytes: whose it is, and what its last command came to.
#[derive(Clone, Copy)]
pub(crate) struct SlotText<'e>(pub(crate) &'e [u8]);

impl fmt::Display for SlotText<'_> {
    fn fmt<W: fmt::Write>(&self, f: &mut fmt::Formatter<W>) -> fmt::Result {
        let bytes = self.0;
        if bytes.len() < SLOT_HEAD {
            return f.write_str("damaged");
        }
        let number = LittleEndian::read_u32(&bytes[8..]);
        write!(f, "originator {}, command {number}, ", Digits(&bytes[..8]))?;
        match bytes[12] {
            0 => f.write_str("executed"),
            1 if bytes.len() >= SLOT_HEAD + 4 => {
                let ticket = LittleEndian::read_u32(&bytes[SLOT_HEAD..]);
                write!(f, "waiting (ticket {ticket})")
            }
            2 => f.write_str("in doubt"),
            3 => f.write_str("withdrawn"),
            _ => f.write_str("damaged"),
        }
    }
}

/// A waiting command, by its bytes: its ticket, and what it is to execute.
#[derive(Clone, Copy)]
pub(crate) struct CommandText<'e>(pub(crate) &'e [u8]);

impl fmt::Display for CommandText<'_> {
    fn fmt<W: fmt::Write>(&self, f: &mut fmt::Formatter<W>) -> fmt::Result {
        let bytes = self.0;
        if bytes.len() < COMMAND_HEAD {
            return f.write_str("damaged");
        }
        let ticket = LittleEndian::read_u32(bytes);
        let class = LittleEndian::read_u16(&bytes[4..]);
        let instance = LittleEndian::read_u32(&bytes[6..]);
        let service = bytes[10];
        write!(
            f,
            "ticket {ticket}, service {service} of class {class:#04x}, instance {instance}"
        )
    }
}

/// So many things, with the word for one of them, and for several.
#[derive(Clone, Copy)]
pub(crate) struct Counted(
    pub(crate) usize,
    pub(crate) &'static str,
    pub(crate) &'static str,
);

impl fmt::Display for Counted {
    fn fmt<W: fmt::Write>(&self, f: &mut fmt::Formatter<W>) -> fmt::Result {
        let word = if self.0 == 1 { self.1 } else { self.2 };
        write!(f, "{} {word}", self.0)
    }
}
