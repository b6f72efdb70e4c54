//! `enip answer`: reads lines of hexadecimal pieces, and prints the answers of an adapter.

ghost use Rattle.std.specs.Prelude.{ℕ, List, Some, None, IfOk, IfErr, OnOk, true, false};
ghost use Rattle.std.specs.Prelude.{◌≡◌, ◌≤◌, ◌<◌, ◌++◌, length};
ghost use Rattle.std.specs.Io.KnownBytes.{Appends, Keeps};
ghost use Rattle.enip_adapter.specs.declared.peer.Rights.TheVariants as rights;
ghost use Rattle.enip_adapter.specs.Calls.{Call, call_meaning, call_answer, after_call};
ghost use Rattle.enip_answer.specs.Answering.{after_piece, piece_answer, piece_taken, Desk, desk_of, new_desk, peer_at, ended, IsFed, IsFedTo, IsPieceRun};
ghost use Rattle.enip_answer.specs.Answering.{IsBegunWith, IsLinePrinted, IsAnswered, IsAnsweredBy, IsRefusedPiece};
ghost use Rattle.enip_answer.specs.Answering.{answer_line, closed_line, full_line, output_line, entry_after};
ghost use Rattle.enip_lines.specs.Digits.{bytes_spelled};
ghost use Rattle.enip_lines.specs.InputLines.{AreAllRun, StopsAtLine};
ghost use Rattle.enip_answer.specs.Lines.{spells_bytes, IsRefusedLine};
ghost use Rattle.enip_faults.specs.Statuses.{IsOfDevices};

use crate::lines::{Line, line_fault};
use crate::peer_number::PeerNumber;
use enip_adapter::{Adapter, Full, LONGEST_ANSWER, Peer};
use enip_faults::ProgramFault;
use enip_lines::{TakeLines, decode, read_lines};
use std::alloc::Global;
use std::io::{Read, Write};

/// The length of the longest answer in hexadecimal.
const LONGEST_TEXT: usize = 2 * LONGEST_ANSWER;

/// Runs an adapter over lines of input, and prints its answers on `output`.
///
/// `output` is flushed before more input is read, and before a refused line is reported. An answer is written in several
/// parts, so pass a buffered writer.
///
/// # Errors
///
/// `Line` with the number of the first line that is refused, from 1; the lines before it were run. `Device` if the
/// input could not be read or the output written. `Memory` if memory was refused.
pub fn answer<R: Read + Drop, W: Write>(
    alloc: Global,
    adapter: Adapter,
    input: R,
    output: &mut W,
) -> Result<(), ProgramFault>
    ensures run { OnOk result ((desk : Desk) × AreAllRun IsAnswered (R.remaining input) (new_desk adapter) desk
        (W.contents output.old) (W.contents output.new)) }
    ensures refused { IfErr result (StopsAtLine IsAnswered IsRefusedLine (R.remaining input) (new_desk adapter)
        (W.contents output.old) (W.contents output.new)) }
{
    let mut input = input;
    let mut desk = Answerer::new(alloc, adapter);
    read_lines(alloc, &mut input, &mut desk, output)
}

/// The state of one of the nine peers.
#[derive(Clone, Copy)]
enum PeerEntry {
    /// It has not begun, or has ended.
    Free,
    /// It has a slot in the adapter.
    Taken(Peer),
    /// The adapter closed it, and that was printed.
    Closed(Peer),
}

impl PeerEntry {
    /// The state of a peer that has begun, after a piece was fed to it.
    fn after_feed(peer: Peer, is_closed: bool) -> PeerEntry
        ensures { result ≡ entry_after peer is_closed }
    {
        if is_closed {
            PeerEntry::Closed(peer)
        } else {
            PeerEntry::Taken(peer)
        }
    }
}

/// The adapter with its peers, and scratch buffers.
struct Answerer {
    adapter: Adapter,
    now: u64,
    peers: [PeerEntry; 9],
    digits: Vec<u8>,
    piece: Vec<u8>,
    text: [u8; LONGEST_TEXT],
}

// Written out, so that each exit of a function that owns one calls it, and has no drop of every part.
impl Drop for Answerer {
    fn drop(self) {
        let Answerer {
            adapter: _,
            now: _,
            peers: _,
            digits: _,
            piece: _,
            text: _,
        } = self;
    }
}

impl Answerer {
    fn new(alloc: Global, adapter: Adapter) -> Answerer
        ensures { desk_of result ≡ new_desk adapter }
    {
        Answerer {
            adapter,
            now: 0,
            peers: [PeerEntry::Free; 9],
            digits: Vec::new(alloc),
            piece: Vec::new(alloc),
            text: [0; LONGEST_TEXT],
        }
    }

    /// Runs a line. Returns false if it is refused.
    fn run_line<W: Write>(&mut self, text: &[u8], output: &mut W) -> Result<bool, ProgramFault>
        ensures run { IfOk result (λ runs. runs ≡ true → IsAnsweredBy text.now self.old self.new
            (W.contents output.old) (W.contents output.new)) }
        ensures refused { IfOk result (λ runs. runs ≡ false → IsRefusedLine text.now
            × Keeps (W.contents output.old) (W.contents output.new)) }
        ensures failed { IfErr result IsOfDevices }
    {
        match Line::read(text) {
            Some(line) => self.run(line, output),
            None => Ok(false),
        }
    }

    /// Does what a line says. Returns false if it is a piece that spells no byte.
    fn run<W: Write>(&mut self, line: Line<'_>, output: &mut W) -> Result<bool, ProgramFault>
        ensures run { IfOk result (λ runs. runs ≡ true → IsLinePrinted line.entry (desk_of self.old) (desk_of self.new)
            (W.contents output.old) (W.contents output.new)) }
        ensures refused { IfOk result (λ runs. runs ≡ false → IsRefusedPiece line.entry
            × Keeps (W.contents output.old) (W.contents output.new)) }
        ensures failed { IfErr result IsOfDevices }
    {
        match line {
            Line::Nothing => {}
            Line::Now(moment) => self.now = moment,
            Line::End(number) => self.end(number),
            Line::Piece(number, digits) => return self.run_piece(number, digits, output),
        }
        Ok(true)
    }

    /// Ends a peer, if it has begun.
    fn end(&mut self, number: PeerNumber)
        ensures { desk_of self.new ≡ ended (desk_of self.old) number }
    {
        let entry = self.peers[number.index()];
        match entry {
            PeerEntry::Free => {}
            PeerEntry::Taken(peer) | PeerEntry::Closed(peer) => self.adapter.end(peer),
        }
        self.peers[number.index()] = PeerEntry::Free;
    }

    /// Runs a piece of a peer. Returns false if the digits spell no byte.
    fn run_piece<W: Write>(
        &mut self,
        number: PeerNumber,
        digits: &[u8],
        output: &mut W,
    ) -> Result<bool, ProgramFault>
        ensures run { IfOk result (λ runs. runs ≡ true → IsLinePrinted (Line.Piece number digits.entry)
            (desk_of self.old) (desk_of self.new) (W.contents output.old) (W.contents output.new)) }
        ensures refused { IfOk result (λ runs. runs ≡ false → (spells_bytes digits.now ≡ false)
            × Keeps (W.contents output.old) (W.contents output.new)) }
        ensures failed { IfErr result IsOfDevices }
    {
        if !self.take_piece(digits)? {
            return Ok(false);
        }
        self.feed(number, output)?;
        Ok(true)
    }

    /// Decodes a piece into `self.piece`. Returns whether it is hexadecimal and not empty.
    fn take_piece(&mut self, digits: &[u8]) -> Result<bool, ProgramFault>
        ensures is_run { IfOk result (λ some. some ≡ spells_bytes digits.now) }
        ensures piece { IfOk result (λ some. some ≡ true → bytes_spelled digits.now ≡ Some self.new.piece.items) }
        ensures some { IfOk result (λ some. some ≡ true → 0 < length self.new.piece.items) }
        ensures same { desk_of self.new ≡ desk_of self.old }
        ensures failed { IfErr result IsOfDevices }
    {
        Ok(decode(digits, &mut self.digits, &mut self.piece)? && !self.piece.is_empty())
    }

    /// Feeds the piece to a peer, which begins if it has not yet.
    fn feed<W: Write>(&mut self, number: PeerNumber, output: &mut W) -> Result<(), ProgramFault>
        ensures fed { OnOk result ((printed : List ℕ)
            × IsPieceRun (peer_at (desk_of self.old) number) number self.old.piece.items (desk_of self.old)
            (desk_of self.new) printed × Appends (W.contents output.old) (W.contents output.new) printed) }
        ensures failed { IfErr result IsOfDevices }
    {
        let entry = self.peers[number.index()];
        match entry {
            PeerEntry::Free => self.begin(number, output),
            PeerEntry::Taken(peer) => self.feed_to(peer, number, output),
            PeerEntry::Closed(_) => Ok(()),
        }
    }

    /// Begins a peer and feeds it the piece, or prints why it cannot begin.
    fn begin<W: Write>(&mut self, number: PeerNumber, output: &mut W) -> Result<(), ProgramFault>
        ensures fed { OnOk result ((printed : List ℕ)
            × IsBegunWith (call_answer self.old.adapter (Call.Begins_peer rights.Write None)).output number self.old.piece.items
            (desk_of self.old) (desk_of self.new) printed
            × Appends (W.contents output.old) (W.contents output.new) printed) }
        ensures failed { IfErr result IsOfDevices }
    {
        match self.adapter.begin() {
            Ok(peer) => self.feed_to(peer, number, output),
            Err(full) => print_full(output, number, full),
        }
    }

    /// Feeds the piece to a peer that has begun.
    fn feed_to<W: Write>(
        &mut self,
        peer: Peer,
        number: PeerNumber,
        output: &mut W,
    ) -> Result<(), ProgramFault>
        ensures fed { OnOk result ((printed : List ℕ)
            × IsFedTo peer number self.old.piece.items (desk_of self.old) (desk_of self.new) printed
            × Appends (W.contents output.old) (W.contents output.new) printed) }
        ensures failed { IfErr result IsOfDevices }
    {
        let is_closed = feed_all(
            &mut self.adapter,
            self.now,
            &peer,
            self.piece.as_slice(),
            number,
            &mut self.text,
            output,
        )?;
        self.peers[number.index()] = PeerEntry::after_feed(peer, is_closed);
        Ok(())
    }
}

impl TakeLines for Answerer {
    ghost does = { IsAnsweredBy };

    ghost refuses = { λ text. IsRefusedLine text };

    fn take_line<W: Write>(
        &mut self,
        text: &[u8],
        number: u64,
        output: &mut W,
    ) -> Result<(), ProgramFault> {
        if self.run_line(text, output)? {
            Ok(())
        } else {
            Err(ProgramFault::Line(number, line_fault(text)))
        }
    }
}

/// Feeds a piece to a peer until it is used up or the peer is closed, and prints the answers. Returns whether the peer
/// is closed. `text` is a scratch buffer.
fn feed_all<W: Write>(
    adapter: &mut Adapter,
    now: u64,
    peer: &Peer,
    piece: &[u8],
    number: PeerNumber,
    text: &mut [u8; LONGEST_TEXT],
    output: &mut W,
) -> Result<bool, ProgramFault>
    ensures fed { IfOk result (λ is_closed. (printed : List ℕ)
        × IsFed number now peer.now adapter.old piece.now adapter.new printed is_closed
        × Appends (W.contents output.old) (W.contents output.new) printed) }
    ensures failed { IfErr result IsOfDevices }
{
    let mut rest = piece;
    while !rest.is_empty() {
        let (taken, close) = feed_once(adapter, now, peer, rest, number, text, output)?;
        if close {
            print_closed(output, number)?;
            return Ok(true);
        }
        rest = &rest[taken..];
    }
    Ok(false)
}

/// Withdraws what a piece withdraws, feeds it once, and prints the answer. Returns how many bytes were taken, and
/// whether the peer is closed.
fn feed_once<W: Write>(
    adapter: &mut Adapter,
    now: u64,
    peer: &Peer,
    piece: &[u8],
    number: PeerNumber,
    text: &mut [u8; LONGEST_TEXT],
    output: &mut W,
) -> Result<(usize, bool), ProgramFault>
    ensures state { adapter.new ≡ after_piece now peer.now adapter.old piece.now }
    ensures taken { IfOk result (λ step. step.0
        ≡ piece_taken now peer.now adapter.old piece.now) }
    ensures close { IfOk result (λ step. step.1
        ≡ (piece_answer now peer.now adapter.old piece.now).close) }
    ensures within { IfOk result (λ step. step.0 ≤ length piece.now) }
    ensures progress { IfOk result (λ step. 0 < length piece.now → step.1 ≡ false → 0 < step.0) }
    ensures printed { OnOk result (Appends (W.contents output.old) (W.contents output.new)
        (output_line number (piece_answer now peer.now adapter.old piece.now).output)) }
    ensures failed { IfErr result IsOfDevices }
{
    adapter.tick(now);
    adapter.withdraw_asked(peer, piece);
    let fed = adapter.feed(now, peer, piece);
    if let Some(frame) = fed.answer {
        print_answer(output, text, number, frame)?;
    }
    Ok((fed.taken, fed.close))
}

/// Prints an answer: `P hex`. `text` is a scratch buffer for the digits.
fn print_answer<W: Write>(
    output: &mut W,
    text: &mut [u8; LONGEST_TEXT],
    number: PeerNumber,
    frame: &[u8],
) -> Result<(), ProgramFault>
    requires { length frame.now ≤ LONGEST_ANSWER }
    ensures printed { OnOk result (Appends (W.contents output.old) (W.contents output.new) (answer_line number frame.now)) }
    ensures failed { IfErr result IsOfDevices }
{
    let digits = &mut text[..2 * frame.len()];
    let _ = hex::encode_to_slice(frame, digits);
    output.write_all(&[number.digit(), b' '])?;
    output.write_all(digits)?;
    output.write_all(b"\n")?;
    Ok(())
}

/// Prints that the adapter closed a peer: `P closed`.
fn print_closed<W: Write>(output: &mut W, number: PeerNumber) -> Result<(), ProgramFault>
    ensures printed { OnOk result (Appends (W.contents output.old) (W.contents output.new) (closed_line number)) }
    ensures failed { IfErr result IsOfDevices }
{
    output.write_all(&[number.digit()])?;
    output.write_all(b" closed\n")?;
    Ok(())
}

/// Prints that a peer cannot begin: `P full N`.
fn print_full<W: Write>(output: &mut W, number: PeerNumber, full: Full) -> Result<(), ProgramFault>
    ensures printed { OnOk result (Appends (W.contents output.old) (W.contents output.new) (full_line number full)) }
    ensures failed { IfErr result IsOfDevices }
{
    output.write_all(&[number.digit()])?;
    writeln!(output, " full {}", full.number())?;
    Ok(())
}
