//! `enip replay --ladder`: draws a run with the client, the wire and the adapter as three columns.
//!
//! Each rung is a frame that is sent or delivered, or an event that moves none. An arrow shows the sequence count and
//! the request or reply of a frame; the number on the wire is the position of the frame in its direction:
//!
//! ```text
//! submit   0     |--- 1: 32022064240105000000 ----->   0                                    |
//!                |                                     0  --- 1: 32022064240105000000 ----->|  executes 0
//!                |                                     0  x-- 1: b200000005000000 ----------|
//! ```

ghost use Rattle.std.specs.Prelude.{◌≡◌, IfErr, OnOk, Err};
ghost use Rattle.std.specs.Io.KnownBytes.{Keeps};
ghost use Rattle.enip_bench.specs.CountingWorld.{counting_step};
ghost use Rattle.enip_bench.specs.Reached.{IsNewAdapter};
ghost use Rattle.enip_bench.specs.Stored.{event_in};
ghost use Rattle.enip_replay.specs.Drawing.{IsDrawn, IsDrawnFrom, IsDrawnUpTo, IsDrawingStopOf, IsEndDrawn, Grows};
ghost use Rattle.enip_replay.specs.Drawing.{nothing};
ghost use Rattle.enip_replay.specs.Replay.{IsRun, IsStopAt};
ghost use Rattle.enip_replay.specs.Script.{IsRefusedLine};
ghost use Rattle.enip_faults.specs.Statuses.{IsOfDevices};

use crate::outcome::Outcome;
use crate::replaying::{bench_of, print_state};
use crate::rungs::{Arrow, Direction, Field, Note, Rung};
use crate::script::{event_of, is_skipped, line_fault};
use byteorder::{ByteOrder, LittleEndian};
use cip_bytes::protocol::SEQUENCE_COUNT_SIZE;
use enip_adapter::Adapter;
use enip_bench::{Bench, Event, Frames, Step};
use enip_client::USUAL_WANTS;
use enip_faults::{ProgramFault, ReplayFailure};
use enip_lines::{TakeLines, read_lines};
use enip_wire::{Header, unit_body};
use std::alloc::Global;
use std::io::Write;

/// The last line. It holds for every script: that is what `Bench::seen` promises.
const SAME: &str = "same result as in a world without sequence counts or kept replies";

/// The names of the columns.
const HEAD: &str = "          client                    wire                    adapter";

/// The note for a repeat: the adapter executes nothing, since the count is that of its kept reply.
const KEPT: &str = "repeat of";

/// How many sequence counts there are. (Volume 1, transport class 3.)
const COUNTS: usize = 65_536;

/// Runs a script with a client and an adapter. Draws the run on `output`, and then prints the objects and the state
/// of the client. If a line is refused, the events before it are still drawn.
///
/// # Errors
///
/// As for [`replay`](crate::replay).
pub fn draw_replay<W: Write>(
    alloc: Global,
    adapter: Adapter,
    script: &[u8],
    output: &mut W,
) -> Result<(), ReplayFailure>
    requires { IsNewAdapter adapter }
    ensures drawn { OnOk result (IsDrawn adapter script.now (W.contents output.old) (W.contents output.new)) }
    ensures stopped { IfErr result
        (IsDrawingStopOf adapter script.now (W.contents output.old) (W.contents output.new)) }
{
    let bench = bench_of(alloc, adapter)?;
    let mut climber = LadderWriter {
        alloc,
        bench,
        ladder: Ladder::new(alloc),
        digits: Vec::new(alloc),
    };
    climber
        .draw_script(script, output)
        .map_err(ReplayFailure::Program)
}

/// An event with its outcome, as the ladder shows it.
#[derive(Drop)]
enum LadderEvent {
    /// The client sent or resent this request. The frame is at this position.
    Sent {
        words: &'static str,
        number: usize,
        position: usize,
    },
    /// The frame at this position reached the adapter, which answered with the frame at `back`, or not at all.
    Reached {
        position: usize,
        back: Option<usize>,
    },
    /// The answer at this position reached the client, which accepted or ignored it.
    Heard {
        position: usize,
        accepted: bool,
    },
    /// An event that moves no frame, drawn next to the client or the adapter.
    Aside {
        words: String,
        way: Direction,
    },
}

/// The events so far, and what is needed to draw their frames.
#[derive(Drop)]
struct Ladder {
    /// The requests, indexed by number.
    requests: Vec<Vec<u8>>,
    /// For each frame from the client, by position: the number of its request, and whether it reached the adapter.
    sent: Vec<(usize, bool)>,
    /// For each frame from the adapter, by position: whether it reached the client.
    heard: Vec<bool>,
    happened: Vec<LadderEvent>,
}

impl Ladder {
    /// A ladder without events.
    fn new(alloc: Global) -> Ladder {
        Ladder {
            requests: Vec::new(alloc),
            sent: Vec::new(alloc),
            heard: Vec::new(alloc),
            happened: Vec::new(alloc),
        }
    }

    /// Appends an event.
    fn put(&mut self, event: Event, happened: LadderEvent) -> Result<(), ProgramFault>
        ensures { IfErr result IsOfDevices }
    {
        self.mark(&happened)?;
        if let LadderEvent::Sent { .. } = &happened {
            self.keep(event)?;
        }
        self.happened.push(happened)?;
        Ok(())
    }

    /// Records which frames were sent and which have arrived.
    fn mark(&mut self, happened: &LadderEvent) -> Result<(), ProgramFault>
        ensures { IfErr result IsOfDevices }
    {
        match happened {
            LadderEvent::Sent { number, .. } => self.sent.push((*number, false))?,
            LadderEvent::Reached { position, back } => {
                if let Some(sent) = self.sent.get_mut(*position) {
                    sent.1 = true;
                }
                if back.is_some() {
                    self.heard.push(false)?;
                }
            }
            LadderEvent::Heard { position, .. } => {
                if let Some(heard) = self.heard.get_mut(*position) {
                    *heard = true;
                }
            }
            LadderEvent::Aside { .. } => {}
        }
        Ok(())
    }

    /// Keeps the request of a `Submit`.
    fn keep(&mut self, event: Event) -> Result<(), ProgramFault>
        ensures { IfErr result IsOfDevices }
    {
        if let Event::Submit(request) = event {
            self.requests.push(request)?;
        }
        Ok(())
    }

    /// The number of the last submitted request.
    fn last_number(&self) -> usize {
        self.requests.len().saturating_sub(1)
    }

    /// The number of the request in the client's frame at a position.
    fn number_at(&self, position: usize) -> usize {
        self.sent.get(position).map_or(0, |sent| sent.0)
    }

    /// The arrow of the client's frame at a position.
    fn request_at(&self, position: usize, arrives: bool) -> Field<'_> {
        let number = self.number_at(position);
        Field::Arrow(Arrow {
            way: Direction::ToAdapter,
            arrives,
            // counts go up from the first one and wrap at 65,536 (Volume 1, transport class 3)
            count: USUAL_WANTS
                .first_count
                .wrapping_add((number % COUNTS) as u16),
            message: self
                .requests
                .get(number)
                .map_or(&[], |request| request.as_slice()),
        })
    }
}

/// The sequence count and the reply in a frame from the adapter.
fn item_of(frame: &[u8]) -> (u16, &[u8]) {
    if frame.len() < Header::SIZE {
        return (0, &[]);
    }
    match unit_body(&frame[Header::SIZE..]) {
        Ok((_, item)) if item.len() >= SEQUENCE_COUNT_SIZE => {
            (LittleEndian::read_u16(item), &item[SEQUENCE_COUNT_SIZE..])
        }
        _ => (0, &[]),
    }
}

/// What the rungs so far show.
#[derive(Clone, Copy)]
struct Drawn {
    /// The number of the request that the client sent last.
    submitted: usize,
    /// The number of the request whose reply the adapter keeps.
    kept: Option<usize>,
}

impl Drawn {
    /// What the adapter does with this request: a repeat of the last one gets the kept reply.
    fn executed(&mut self, number: usize) -> &'static str {
        if self.kept == Some(number) {
            return KEPT;
        }
        self.kept = Some(number);
        "executes"
    }
}

/// Drawing.
impl Ladder {
    /// Draws all events. `back` has the frames from the adapter.
    fn draw<'a, W: Write>(&'a self, back: &'a Frames, output: &mut W) -> Result<(), ProgramFault>
        ensures drawn { OnOk result (Grows (W.contents output.old) (W.contents output.new)) }
        ensures refused { IfErr result IsOfDevices }
    {
        writeln!(output, "{HEAD}")?;
        let mut drawn = Drawn {
            submitted: 0,
            kept: None,
        };
        for happened in &self.happened {
            self.draw_one(happened, back, &mut drawn, output)?;
        }
        Ok(())
    }

    /// Draws one event.
    fn draw_one<'a, W: Write>(
        &'a self,
        happened: &'a LadderEvent,
        back: &'a Frames,
        drawn: &mut Drawn,
        output: &mut W,
    ) -> Result<(), ProgramFault>
        ensures drawn { OnOk result (Grows (W.contents output.old) (W.contents output.new)) }
        ensures refused { IfErr result IsOfDevices }
    {
        match happened {
            LadderEvent::Sent {
                words,
                number,
                position,
            } => {
                drawn.submitted = *number;
                draw_rung(self.sent(words, *number, *position), output)
            }
            LadderEvent::Reached {
                position,
                back: None,
            } => draw_rung(self.reached(*position, "no connection", None), output),
            LadderEvent::Reached {
                position,
                back: Some(answer),
            } => {
                let number = self.number_at(*position);
                let words = drawn.executed(number);
                draw_rung(self.reached(*position, words, Some(number)), output)?;
                draw_rung(self.answered(back, *answer), output)
            }
            LadderEvent::Heard { position, accepted } => {
                let number = accepted.then_some(drawn.submitted);
                draw_rung(heard(back, *position, number), output)
            }
            LadderEvent::Aside { words, way } => draw_rung(aside(words, *way), output),
        }
    }

    /// The client sends a request.
    fn sent(&self, words: &'static str, number: usize, position: usize) -> Rung<'_> {
        let arrives = self.sent.get(position).is_some_and(|sent| sent.1);
        Rung {
            client: Note {
                words,
                number: Some(number),
            },
            near: self.request_at(position, arrives),
            position: Some(position),
            far: Field::Blank,
            adapter: Note::BLANK,
        }
    }

    /// A request reaches the adapter.
    fn reached(&self, position: usize, words: &'static str, number: Option<usize>) -> Rung<'_> {
        Rung {
            client: Note::BLANK,
            near: Field::Blank,
            position: Some(position),
            far: self.request_at(position, true),
            adapter: Note { words, number },
        }
    }

    /// The adapter sends a reply.
    fn answered<'a>(&'a self, back: &'a Frames, position: usize) -> Rung<'a> {
        let arrives = self.heard.get(position).is_some_and(|heard| *heard);
        Rung {
            client: Note::BLANK,
            near: Field::Blank,
            position: Some(position),
            far: reply_at(back, position, arrives),
            adapter: Note::BLANK,
        }
    }
}

/// Draws a rung.
fn draw_rung<W: Write>(rung: Rung<'_>, output: &mut W) -> Result<(), ProgramFault>
    ensures drawn { OnOk result (Grows (W.contents output.old) (W.contents output.new)) }
    ensures refused { IfErr result IsOfDevices }
{
    writeln!(output, "{rung}")?;
    Ok(())
}

/// The arrow of the adapter's frame at a position.
fn reply_at(back: &Frames, position: usize, arrives: bool) -> Field<'_> {
    let (count, message) = item_of(back.get(position).unwrap_or(&[]));
    Field::Arrow(Arrow {
        way: Direction::ToClient,
        arrives,
        count,
        message,
    })
}

/// A reply reaches the client, which accepts it for a request or ignores it.
fn heard(back: &Frames, position: usize, number: Option<usize>) -> Rung<'_> {
    let words = if number.is_some() {
        "accepts"
    } else {
        "ignores"
    };
    Rung {
        client: Note { words, number },
        near: reply_at(back, position, true),
        position: Some(position),
        far: Field::Blank,
        adapter: Note::BLANK,
    }
}

/// An event that moves no frame, next to the end where arrows of this direction start.
fn aside(words: &str, way: Direction) -> Rung<'_> {
    let (near, far) = match way {
        Direction::ToAdapter => (Field::Words(words), Field::Blank),
        Direction::ToClient => (Field::Blank, Field::Words(words)),
    };
    Rung {
        client: Note::BLANK,
        near,
        position: None,
        far,
        adapter: Note::BLANK,
    }
}

/// The bench and the ladder of its events.
#[derive(Drop)]
struct LadderWriter {
    alloc: Global,
    bench: Bench,
    ladder: Ladder,
    digits: Vec<u8>,
}

impl LadderWriter {
    /// Runs a script, and draws it.
    fn draw_script<W: Write>(&mut self, script: &[u8], output: &mut W) -> Result<(), ProgramFault>
        ensures drawn { OnOk result
            (IsDrawnFrom self.old.bench script.now (W.contents output.old) (W.contents output.new)) }
        ensures stopped { IfErr result (IsStopAt
            (IsDrawnUpTo self.old.bench script.now (W.contents output.old) (W.contents output.new))) }
    {
        let mut rest = script;
        let ran = read_lines(self.alloc, &mut rest, self, output);
        self.draw(output)?;
        self.end(ran, output)
    }

    /// Runs an event, and appends it to the ladder.
    fn run_event(&mut self, event: Event) -> Result<(), ProgramFault>
        ensures done { OnOk result (self.new.bench ≡ counting_step self.old.bench (event_in event)) }
        ensures refused { IfErr result IsOfDevices }
    {
        let last = self.ladder.last_number();
        let happened = what_happened(self.alloc, &event, self.bench.step(&event)?, last)?;
        self.ladder.put(event, happened)
    }

    /// Draws the ladder.
    fn draw<W: Write>(&self, output: &mut W) -> Result<(), ProgramFault>
        ensures drawn { OnOk result (Grows (W.contents output.old) (W.contents output.new)) }
        ensures refused { IfErr result IsOfDevices }
    {
        self.ladder.draw(self.bench.seen().back, output)
    }

    /// Prints the final state and the last line if all lines were run. Otherwise returns the error of `ran`.
    fn end<W: Write>(
        &self,
        ran: Result<(), ProgramFault>,
        output: &mut W,
    ) -> Result<(), ProgramFault>
        ensures drawn { OnOk result (IsEndDrawn self.now.bench (W.contents output.old) (W.contents output.new)) }
        ensures silent { IfErr ran (λ fault. (result ≡ Err fault)
            × Keeps (W.contents output.old) (W.contents output.new)) }
        ensures refused { OnOk ran (IfErr result IsOfDevices) }
    {
        ran?;
        print_end(&self.bench, output)?;
        output.flush()?;
        Ok(())
    }
}

/// Prints the objects, the state of the client, and that the numbered world shows the same: `Bench::seen` promises it
/// of what is printed.
fn print_end<W: Write>(bench: &Bench, output: &mut W) -> Result<(), ProgramFault>
    ensures drawn { OnOk result (IsEndDrawn bench.now (W.contents output.old) (W.contents output.new)) }
    ensures refused { IfErr result IsOfDevices }
{
    let seen = bench.seen();
    print_state(seen.objects, seen.stage, output)?;
    writeln!(output, "{SAME}")?;
    Ok(())
}

/// An event with its outcome, as the ladder shows it. `last` is the number of the last submitted request.
fn what_happened(
    alloc: Global,
    event: &Event,
    step: Step<'_>,
    last: usize,
) -> Result<LadderEvent, ProgramFault>
    ensures { IfErr result IsOfDevices }
{
    Ok(match (event, step) {
        (_, Step::Sent(number, position)) => LadderEvent::Sent {
            words: "submit",
            number: number as usize,
            position,
        },
        (_, Step::Resent(Some(position))) => LadderEvent::Sent {
            words: "resend",
            number: last,
            position,
        },
        (Event::Reach(position), Step::Reached(back)) => LadderEvent::Reached {
            position: *position,
            back,
        },
        (Event::Back(position), Step::Accepted(_)) => LadderEvent::Heard {
            position: *position,
            accepted: true,
        },
        (Event::Back(position), Step::Ignored) => LadderEvent::Heard {
            position: *position,
            accepted: false,
        },
        _ => LadderEvent::Aside {
            words: format!(in alloc; "{}", Outcome { event, step })?,
            way: end_of(event),
        },
    })
}

/// The direction of arrows that start at the end where an event happens.
fn end_of(event: &Event) -> Direction {
    match event {
        Event::Reach(_) | Event::Other(_) | Event::Write(_) | Event::Shut => Direction::ToClient,
        _ => Direction::ToAdapter,
    }
}

impl TakeLines for LadderWriter {
    ghost does = { λ text old new before after. IsRun nothing text old.bench new.bench before after };

    ghost refuses = { IsRefusedLine };

    fn take_line<W: Write>(
        &mut self,
        text: &[u8],
        number: u64,
        _output: &mut W,
    ) -> Result<(), ProgramFault> {
        if is_skipped(text) {
            return Ok(());
        }
        let Some(event) = event_of(self.alloc, text, &mut self.digits)? else {
            return Err(ProgramFault::Line(number, line_fault(text)));
        };
        self.run_event(event)
    }
}
