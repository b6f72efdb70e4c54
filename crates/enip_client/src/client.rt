//! The client: the calls that lend a frame to send, and `feed`, which takes what arrives.

ghost use Rattle.std.specs.Prelude.{◌≡◌, ◌<◌, ◌≤◌, length, IfOk, IfErr, IfSome, None};
ghost use Rattle.std.specs.Option.{option_map};
ghost use Rattle.std.specs.Borrow.{sem};
ghost use Rattle.std.specs.Io.BufRead.{Rests};
ghost use Rattle.cip_bytes.specs.declared.protocol.TheConstants.{LARGEST_CONNECTION_SIZE};
ghost use Rattle.cip_bytes.specs.Numbers.{AreBytes};
ghost use Rattle.enip_wire.specs.Frames.{frame, IsTooLong, IsComplete};
ghost use Rattle.enip_wire.specs.Stream.{parsed, held_and_taken, bytes_taken, held_after_next, cleared};
ghost use Rattle.enip_client.specs.Client.{client_in, fed, heard_event_at, IsWithin, frame_bytes, IsListening, IsPieceOutcome};
ghost use Rattle.enip_client.specs.Hears.{hears_parsed};
ghost use Rattle.enip_client.specs.Calls.{bytes_in, bytes_lent, after_lending};

use crate::fault::{ClientFault, SubmitFault};
use crate::hearing::{Found, Hearing};
use crate::sending::{LONGEST_SENT, Sent};
use crate::state::{ConnectionState, Registration, State};
use crate::wants::Wants;
use cip_class3::{Originator, Stage};
use cip_route::Route;
use enip_wire::{FrameReader, Held};
use std::alloc::Global;
use std::marker::Model;

/// What a piece does: how many of its bytes are taken, whether it contains the whole frame, and what is found in the
/// frame.
#[derive(Clone, Copy)]
struct PieceOutcome {
    taken: usize,
    in_place: bool,
    found: Found,
}

impl PieceOutcome {
    /// Once a fault lasts, no byte is taken.
    const NOTHING: PieceOutcome = PieceOutcome {
        taken: 0,
        in_place: false,
        found: Found::Nothing,
    };
}

/// A client of one adapter, over one stream of bytes each way.
///
/// It does no input and no output. Send each frame that a call lends, and pass what arrives to `feed`. See `Wants` for
/// the connection that it opens.
///
/// ```
/// let mut client = Client::new(alloc, &wants)?;
/// device.send(client.register()?);
/// let Hearing { taken, heard } = client.feed(piece);
/// ```
pub struct Client {
    state: State,
    reader: FrameReader,
    sent: Sent,
}

// Written out, so that each exit of a function that owns one calls it, and has no drop of every part.
impl Drop for Client {
    fn drop(self) {
        let Client {
            state: _,
            reader: _,
            sent: _,
        } = self;
    }
}

impl Model for Client {
    ghost use Rattle.enip_client.specs.Client.{ClientState, client_in, IsListening};
    ghost use Rattle.cip_bytes.specs.Numbers.{AreBytes};

    ghost Value = { ClientState };

    ghost view = { λ c. client_in c.state c.reader };

    ghost invariant = { λ c. IsListening c.state c.reader × AreBytes c.reader };
}

impl Client {
    ghost use Rattle.enip_client.specs.Client.{new_client, with_state, heard_event_in, IsBetween};
    ghost use Rattle.enip_client.specs.Calls.{registers, opens, asks, submits, closes, unregisters, resends};
    ghost use Rattle.enip_client.specs.Calls.{opens_over, asks_over, closes_over};
    ghost use Rattle.enip_client.specs.Calls.{gives_up, after_giving_up, stage_in};
    ghost use Rattle.enip_client.specs.State.{is_registered};
    ghost use Rattle.enip_client.specs.contracts.client.Client.{the_row};

    /// Makes a client that is not registered and has no connection. It allocates all of its memory here.
    ///
    /// # Errors
    ///
    /// `ClientFault::Memory` if memory is refused.
    pub fn new(alloc: Global, wants: &Wants) -> Result<Client, ClientFault>
        requires o_to_t_from { 4 ≤ wants.now.o_to_t_size }
        requires o_to_t_to { wants.now.o_to_t_size ≤ LARGEST_CONNECTION_SIZE }
        requires t_to_o_from { 10 ≤ wants.now.t_to_o_size }
        requires t_to_o_to { wants.now.t_to_o_size ≤ LARGEST_CONNECTION_SIZE }
        ensures made { IfOk result (λ client. client ≡ new_client wants.now) }
        ensures memory { IfErr result (λ fault. fault ≡ ClientFault.Memory) }
    {
        let Ok(reader) = FrameReader::new(alloc) else {
            return Err(ClientFault::Memory);
        };
        let Ok(originator) = Originator::new(
            alloc,
            wants.first_count,
            wants.o_to_t_size,
            wants.t_to_o_size,
        ) else {
            return Err(ClientFault::Memory);
        };
        Ok(Client {
            state: State {
                wants: *wants,
                registration: Registration::NotRegistered,
                awaiting: None,
                connection_state: ConnectionState::NotOpened,
                originator,
                frames: 0,
                fault: None,
            },
            reader,
            sent: Sent::new(),
        })
    }

    /// Lends the RegisterSession to send. This is possible once, before all other calls.
    ///
    /// # Errors
    ///
    /// The lasting fault, if any, otherwise `State`. Nothing changes.
    pub fn register(&mut self) -> Result<&[u8], ClientFault>
        ensures held { IsBetween self.old }
        ensures lent { bytes_in result ≡ bytes_lent (registers self.old.state) }
        ensures fits { IfOk result (λ frame. length frame.now ≤ LONGEST_SENT) }
        ensures* after { sem 𝓛 (Rests the_row self.entry (λ new. new
            ≡ with_state self.old (after_lending self.old.state (registers self.old.state)))) }
    {
        self.state.register(&mut self.sent)?;
        Ok(self.sent.as_slice())
    }

    /// Lends the Forward_Open to send. This is possible if the session is registered, no reply is awaited, and no
    /// connection was opened.
    ///
    /// # Errors
    ///
    /// The lasting fault, if any, otherwise `State`. Nothing changes.
    pub fn open(&mut self) -> Result<&[u8], ClientFault>
        ensures lent { bytes_in result ≡ bytes_lent (opens self.old.state) }
        ensures fits { IfOk result (λ frame. length frame.now ≤ LONGEST_SENT) }
        ensures* after { sem 𝓛 (Rests the_row self.entry (λ new. new
            ≡ with_state self.old (after_lending self.old.state (opens self.old.state)))) }
    {
        self.state.open(&mut self.sent)?;
        Ok(self.sent.as_slice())
    }

    /// Lends the frame of an unconnected request. This is possible if the session is registered and no reply is
    /// awaited.
    ///
    /// # Errors
    ///
    /// The lasting fault, if any, otherwise `State`, otherwise `Request` if the request has fewer than 2 or more than
    /// 504 bytes, or a service with bit 7. Nothing changes.
    pub fn unconnected(&mut self, request: &[u8]) -> Result<&[u8], ClientFault>
        ensures lent { bytes_in result ≡ bytes_lent (asks self.old.state request.now) }
        ensures fits { IfOk result (λ frame. length frame.now ≤ LONGEST_SENT) }
        ensures* after { sem 𝓛 (Rests the_row self.entry (λ new. new
            ≡ with_state self.old (after_lending self.old.state (asks self.old.state request.now)))) }
    {
        self.state.unconnected(request, &mut self.sent)?;
        Ok(self.sent.as_slice())
    }

    /// Lends the Forward_Open over a route to send, as `open` does. A route without hops is that of `open`.
    ///
    /// # Errors
    ///
    /// As for `open`.
    pub fn open_over(&mut self, route: &Route) -> Result<&[u8], ClientFault>
        ensures lent { bytes_in result ≡ bytes_lent (opens_over route.now self.old.state) }
        ensures fits { IfOk result (λ frame. length frame.now ≤ LONGEST_SENT) }
        ensures* after { sem 𝓛 (Rests the_row self.entry (λ new. new
            ≡ with_state self.old (after_lending self.old.state (opens_over route.now self.old.state)))) }
    {
        self.state.open_over(route, &mut self.sent)?;
        Ok(self.sent.as_slice())
    }

    /// Lends the frame of an unconnected request over a route, as `unconnected` does. The reply is that of the device at
    /// the end of the route, or `Heard::Refused` if a router did not pass the request on.
    ///
    /// # Errors
    ///
    /// As for `unconnected`. It is `Request` as well if the request is longer than 504 bytes with its route.
    pub fn unconnected_over(&mut self, route: &Route, request: &[u8]) -> Result<&[u8], ClientFault>
        ensures lent { bytes_in result ≡ bytes_lent (asks_over route.now self.old.state request.now) }
        ensures fits { IfOk result (λ frame. length frame.now ≤ LONGEST_SENT) }
        ensures* after { sem 𝓛 (Rests the_row self.entry (λ new. new
            ≡ with_state self.old (after_lending self.old.state (asks_over route.now self.old.state request.now)))) }
    {
        self.state.unconnected_over(route, request, &mut self.sent)?;
        Ok(self.sent.as_slice())
    }

    /// Lends the Forward_Close over the route of the opening to send, as `close` does.
    ///
    /// # Errors
    ///
    /// As for `close`.
    pub fn close_over(&mut self, route: &Route) -> Result<&[u8], ClientFault>
        ensures lent { bytes_in result ≡ bytes_lent (closes_over route.now self.old.state) }
        ensures fits { IfOk result (λ frame. length frame.now ≤ LONGEST_SENT) }
        ensures* after { sem 𝓛 (Rests the_row self.entry (λ new. new
            ≡ with_state self.old (after_lending self.old.state (closes_over route.now self.old.state)))) }
    {
        self.state.close_over(route, &mut self.sent)?;
        Ok(self.sent.as_slice())
    }

    /// Lends the frame of a request on the connection. The request then waits for its reply.
    ///
    /// # Errors
    ///
    /// `Client` with the lasting fault, if any, otherwise with `State` if no connection is open, otherwise `Refused` by
    /// the connection's originator. Nothing changes.
    pub fn submit(&mut self, request: &[u8]) -> Result<&[u8], SubmitFault>
        ensures lent { bytes_in result ≡ bytes_lent (submits self.old.state request.now) }
        ensures fits { IfOk result (λ frame. length frame.now ≤ LONGEST_SENT) }
        ensures* after { sem 𝓛 (Rests the_row self.entry (λ new. new
            ≡ with_state self.old (after_lending self.old.state (submits self.old.state request.now)))) }
    {
        self.state.submit(request, &mut self.sent)?;
        Ok(self.sent.as_slice())
    }

    /// Lends the frame of the waiting request once more. `None` if no request waits, after a lasting fault, and without
    /// a connection.
    pub fn resend(&mut self) -> Option<&[u8]>
        ensures lent { option_map (λ lent. lent.now) result ≡ option_map frame (resends self.old.state) }
        ensures fits { IfSome result (λ frame. length frame.now ≤ LONGEST_SENT) }
        ensures* after { sem 𝓛 (Rests the_row self.entry (λ new. new ≡ self.old)) }
    {
        if self.state.resend(&mut self.sent) {
            Some(self.sent.as_slice())
        } else {
            None
        }
    }

    /// Lends the Forward_Close to send. This is possible if a connection is open and no reply is awaited. The
    /// connection is over at once.
    ///
    /// # Errors
    ///
    /// The lasting fault, if any, otherwise `State`. Nothing changes.
    pub fn close(&mut self) -> Result<&[u8], ClientFault>
        ensures lent { bytes_in result ≡ bytes_lent (closes self.old.state) }
        ensures fits { IfOk result (λ frame. length frame.now ≤ LONGEST_SENT) }
        ensures* after { sem 𝓛 (Rests the_row self.entry (λ new. new
            ≡ with_state self.old (after_lending self.old.state (closes self.old.state)))) }
    {
        self.state.close(&mut self.sent)?;
        Ok(self.sent.as_slice())
    }

    /// Lends the UnRegisterSession to send. This is possible if the session is registered and no reply is awaited. The
    /// session is over at once, and a connection with it. There is no reply.
    ///
    /// # Errors
    ///
    /// The lasting fault, if any, otherwise `State`. Nothing changes.
    pub fn unregister(&mut self) -> Result<&[u8], ClientFault>
        ensures lent { bytes_in result ≡ bytes_lent (unregisters self.old.state) }
        ensures fits { IfOk result (λ frame. length frame.now ≤ LONGEST_SENT) }
        ensures* after { sem 𝓛 (Rests the_row self.entry (λ new. new
            ≡ with_state self.old (after_lending self.old.state (unregisters self.old.state)))) }
    {
        self.state.unregister(&mut self.sent)?;
        Ok(self.sent.as_slice())
    }

    /// Gives up the request that waits on the connection. Returns `false` if none waits, after a lasting fault, and
    /// without a connection.
    pub fn give_up(&mut self) -> bool
        ensures waited { result ≡ gives_up self.old.state }
        ensures state { self.new ≡ with_state self.old (after_giving_up self.old.state) }
    {
        self.state.is_connected() && self.state.originator.give_up()
    }

    /// The stage of the connection's originator. `None` without a connection.
    pub fn stage(&self) -> Option<Stage>
        ensures { result ≡ stage_in self.now.state }
    {
        match self.state.connection_state {
            ConnectionState::Open(_) => Some(self.state.originator.stage()),
            _ => None,
        }
    }

    /// Whether the session is registered.
    pub fn is_registered(&self) -> bool
        ensures { result ≡ is_registered self.now.state.registration }
    {
        matches!(self.state.registration, Registration::Registered(_))
    }

    /// The lasting fault, if any.
    pub fn fault(&self) -> Option<ClientFault>
        ensures { result ≡ self.now.state.fault }
    {
        self.state.fault
    }

    /// Takes bytes of a piece up to the end of one frame, and reports what was heard. Call it again with the rest of
    /// the piece. A reply is lent from the piece, or from the buffer in which its bytes were gathered.
    ///
    /// A piece that is not empty is taken in part at least, unless a fault lasts. Then nothing is taken.
    pub fn feed<'a>(&'a mut self, piece: &'a [u8]) -> Hearing<'a>
        ensures* after { sem 𝓛 (Rests the_row self.entry (λ new. new ≡ (fed self.old piece.now).client)) }
        ensures taken { result.taken ≡ (fed self.old piece.now).taken }
        ensures heard { heard_event_in result.heard ≡ (fed self.old piece.now).heard_event }
        ensures within { result.taken ≤ length piece.now }
        ensures progress { 0 < length piece.now → self.old.state.fault ≡ None → 0 < result.taken }
    {
        let outcome = process(&mut self.state, &mut self.reader, piece);
        if outcome.in_place {
            return Hearing {
                taken: outcome.taken,
                heard: outcome.found.heard(&piece[..outcome.taken]),
            };
        }
        Hearing {
            taken: outcome.taken,
            heard: outcome.found.heard(self.reader.bytes()),
        }
    }
}

/// Takes bytes of a piece up to the end of one frame, and processes the frame, unless a fault lasts.
fn process(state: &mut State, reader: &mut FrameReader, piece: &[u8]) -> PieceOutcome
    requires listening { IsListening state.old reader.old }
    requires bytes { AreBytes reader.old }
    ensures bytes { AreBytes reader.new }
    ensures outcome { IsPieceOutcome state.new reader.new result piece.now (fed (client_in state.old reader.old) piece.now) }
    ensures progress { 0 < length piece.now → state.old.fault ≡ None → 0 < result.taken }
{
    if state.fault.is_some() {
        return PieceOutcome::NOTHING;
    }
    drop_processed(reader);
    process_next(state, reader, piece)
}

/// Takes bytes of a piece up to the end of one frame, and processes the frame.
fn process_next(state: &mut State, reader: &mut FrameReader, piece: &[u8]) -> PieceOutcome
    requires { IsComplete reader.old → ⊥ }
    ensures state { state.new ≡ (hears_parsed state.old (parsed (held_and_taken reader.old piece.now))).state }
    ensures reader { reader.new ≡ held_after_next reader.old piece.now }
    ensures taken { result.taken ≡ bytes_taken reader.old piece.now }
    ensures part { result.taken ≤ length piece.now }
    ensures heard_event { heard_event_at (frame_bytes result.in_place result.taken piece.now reader.new) result.found
        ≡ (hears_parsed state.old (parsed (held_and_taken reader.old piece.now))).heard_event }
    ensures within { IsWithin (length (frame_bytes result.in_place result.taken piece.now reader.new)) result.found }
    ensures progress { 0 < length piece.now → 0 < result.taken }
{
    let in_place = reader.bytes().is_empty();
    let (taken, held) = reader.next(piece);
    let found = match held {
        Held::More => Found::Nothing,
        Held::Frame(frame) => state.process(frame),
        Held::TooLong(_) => state.fail(ClientFault::TooLong),
    };
    PieceOutcome {
        taken,
        in_place,
        found,
    }
}

/// Drops a whole frame that was processed.
fn drop_processed(reader: &mut FrameReader)
    requires { IsTooLong reader.old → ⊥ }
    ensures cleared { reader.new ≡ cleared (parsed reader.old) reader.old }
    ensures waits { IsComplete reader.new → ⊥ }
{
    if let Held::Frame(_) = reader.state() {
        reader.clear();
    }
}
