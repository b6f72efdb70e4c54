//! Splits an input into lines, however it is cut into reads. Memory is taken for one line at a time.

ghost use Rattle.std.specs.Prelude.{ℕ, List, Option, [], Some, IfOk, OnOk, IfErr};
ghost use Rattle.std.specs.Prelude.{◌≡◌, ◌+◌, ◌≤◌, ◌<◌, ◌++◌, length, take};
ghost use Rattle.std.specs.Io.KnownBytes.{Keeps, Consumes, IsAtEnd};
ghost use Rattle.enip_lines.specs.InputLines.{AreTaken, IsChunkTaken, IsTakenToEnd};
ghost use Rattle.enip_lines.specs.Lines.{without_return};
ghost use Rattle.enip_lines.specs.InputLines.{EndsAt};
ghost use Rattle.enip_faults.specs.Statuses.{IsOfDevices};

use enip_faults::ProgramFault;
use memchr::memchr;
use std::alloc::Global;
use std::io::{Read, Write};

/// The size of a read, in bytes.
const CHUNK: usize = 65_536;

/// A command that runs line by line.
pub trait TakeLines {
    // What a line does: its text, the command before and after it, and what the output holds before and after it, if
    // that is known.
    ghost does: { List ℕ → Self → Self → Option (List ℕ) → Option (List ℕ) → Type 0 };

    // Which lines are refused, by their text.
    ghost refuses: { List ℕ → Type 0 };

    /// Runs a line, and prints on `output`. `text` has no line ending, and `number` counts from 1.
    ///
    /// # Errors
    ///
    /// `Line` with this number if the line is refused. Then nothing was printed. `Device` or `Memory` if the command
    /// itself failed.
    fn take_line<W: Write>(
        &mut self,
        text: &[u8],
        number: u64,
        output: &mut W,
    ) -> Result<(), ProgramFault>
        ensures done { OnOk result
            (does text.now self.old self.new (W.contents output.old) (W.contents output.new)) }
        ensures refused { IfErr result
            (EndsAt (refuses text.now × Keeps (W.contents output.old) (W.contents output.new)) number) };
}

/// Runs `taker` on each line of `input`, up to the first error. Lines end in `\n` or `\r\n`; the last one may have no
/// ending. `output` is flushed before each read but the first, and at the end, after an error too.
///
/// # Errors
///
/// `Line` if `taker` refused a line. `Device` if the input could not be read or the output not flushed. `Memory` if
/// memory was refused. Otherwise the first error of `taker`. If the last flush fails, its error is returned instead.
pub fn read_lines<R: Read, T: TakeLines, W: Write>(
    alloc: Global,
    input: &mut R,
    taker: &mut T,
    output: &mut W,
) -> Result<(), ProgramFault>
    ensures { IsTakenToEnd T.does T.refuses (R.remaining input.old) taker.old taker.new
        (W.contents output.old) (W.contents output.new) result }
{
    let taken = take_lines(alloc, input, taker, output);
    output.flush()?;
    taken
}

/// As `read_lines`, but does not flush the output at the end.
fn take_lines<R: Read, T: TakeLines, W: Write>(
    alloc: Global,
    input: &mut R,
    taker: &mut T,
    output: &mut W,
) -> Result<(), ProgramFault>
    ensures { IsTakenToEnd T.does T.refuses (R.remaining input.old) taker.old taker.new
        (W.contents output.old) (W.contents output.new) result }
{
    let mut chunk = vec![in alloc; 0u8; CHUNK]?;
    take_chunks(alloc, input, chunk.as_mut_slice(), taker, output)
}

/// Reads an input chunk by chunk, and runs `taker` on its lines. `chunk` is the buffer of the reads.
fn take_chunks<R: Read, T: TakeLines, W: Write>(
    alloc: Global,
    input: &mut R,
    chunk: &mut [u8],
    taker: &mut T,
    output: &mut W,
) -> Result<(), ProgramFault>
    requires { 0 < length chunk.old }
    ensures { IsTakenToEnd T.does T.refuses (R.remaining input.old) taker.old taker.new
        (W.contents output.old) (W.contents output.new) result }
{
    let mut line = Vec::new(alloc);
    let mut number = 1;
    for _ in 0..u64::MAX {
        let count = read_chunk(input, chunk)?;
        if count == 0 {
            return take_last(taker, line.as_slice(), number, output);
        }
        number = take_chunk(taker, &chunk[..count], &mut line, number, output)?;
        output.flush()?;
    }
    Err(ProgramFault::Device)
}

/// Reads into a buffer that is not empty. Returns how many bytes, 0 only at the end of the input.
fn read_chunk<R: Read>(input: &mut R, chunk: &mut [u8]) -> Result<usize, ProgramFault>
    requires { 0 < length chunk.old }
    ensures within { IfOk result (λ count. count ≤ length chunk.new) }
    ensures read { IfOk result (λ count.
        Consumes (R.remaining input.old) (R.remaining input.new) (take count chunk.new)) }
    ensures end { IfOk result (λ count. count ≡ 0 → IsAtEnd (R.remaining input.new)) }
    ensures refused { IfErr result IsOfDevices }
{
    Ok(input.read(chunk)?)
}

/// Runs the lines that end in a chunk, and returns the number of the next one. `line` holds the beginning of the first
/// line, and afterwards that of the next one.
fn take_chunk<T: TakeLines, W: Write>(
    taker: &mut T,
    chunk: &[u8],
    line: &mut Vec<u8>,
    number: u64,
    output: &mut W,
) -> Result<u64, ProgramFault>
    ensures { (bytes : List ℕ) (first : T) (before : Option (List ℕ)) →
        AreTaken T.does bytes line.old.items number first taker.old before (W.contents output.old) →
        IsChunkTaken T.does T.refuses (bytes ++ chunk.now) line.new.items first taker.new
        before (W.contents output.new) result }
{
    let mut number = number;
    let mut rest = chunk;
    while let Some(end) = memchr(b'\n', rest) {
        let (head, tail) = rest.split_at(end);
        take_line(taker, head, line, number, output)?;
        rest = &tail[1..];
        number = next_number(number)?;
    }
    line.extend_from_slice(rest)?;
    Ok(number)
}

/// Runs a line that has ended. `line` holds its beginning and is cleared, and `head` is the rest of it.
fn take_line<T: TakeLines, W: Write>(
    taker: &mut T,
    head: &[u8],
    line: &mut Vec<u8>,
    number: u64,
    output: &mut W,
) -> Result<(), ProgramFault>
    ensures cleared { OnOk result (line.new.items ≡ []) }
    ensures done { OnOk result (T.does (without_return (line.old.items ++ head.now)) taker.old taker.new
        (W.contents output.old) (W.contents output.new)) }
    ensures refused { IfErr result (EndsAt (T.refuses (without_return (line.old.items ++ head.now))
        × Keeps (W.contents output.old) (W.contents output.new)) number) }
{
    if line.is_empty() {
        return taker.take_line(without_return(head), number, output);
    }
    line.extend_from_slice(head)?;
    taker.take_line(without_return(line.as_slice()), number, output)?;
    line.clear();
    Ok(())
}

/// Runs the last line, if the input does not end with a newline.
fn take_last<T: TakeLines, W: Write>(
    taker: &mut T,
    line: &[u8],
    number: u64,
    output: &mut W,
) -> Result<(), ProgramFault>
    ensures { (input left : Option (List ℕ)) (bytes : List ℕ) (first : T) (before : Option (List ℕ)) →
        Consumes input left bytes → IsAtEnd left →
        AreTaken T.does bytes line.now number first taker.old before (W.contents output.old) →
        IsTakenToEnd T.does T.refuses input first taker.new before (W.contents output.new) result }
{
    if line.is_empty() {
        return Ok(());
    }
    taker.take_line(without_return(line), number, output)
}

/// The number of the next line.
///
/// # Errors
///
/// `Device` if there is none: the input has more lines than can be counted.
fn next_number(number: u64) -> Result<u64, ProgramFault>
    ensures next { IfOk result (λ next. next ≡ number + 1) }
    ensures refused { IfErr result IsOfDevices }
{
    number.checked_add(1).ok_or(ProgramFault::Device)
}

/// A line without its carriage return, for input with `\r\n` line endings.
fn without_return(text: &[u8]) -> &[u8]
    ensures { result.now ≡ without_return text.now }
{
    match text {
        [front @ .., b'\r'] => front,
        _ => text,
    }
}
