//! A route: the hops to a device behind one or more routers, as bytes and as text.
//! Text: docs/PROTOCOL.md, "Routes".

ghost use Rattle.std.specs.Prelude.{◌≡◌, ◌↔◌, ◌+◌, ◌^◌, ◌<◌, ◌≤◌, ◌%◌, ◌++◌, ◌==◌, [], length, IsOk, OnOk, OnErr, IfOk};
ghost use Rattle.std.specs.Prelude.{IsTrue};
ghost use Rattle.std.specs.List.{position_or_len, list_all, slice_split};
ghost use Rattle.cip_bytes.specs.Reading.{Gives};
ghost use Rattle.cip_route.specs.Hop.{hop_bytes, view};
ghost use Rattle.cip_route.specs.Route.{route_in, with_text, with_hop, number_in, port_in, link_in, is_address, is_digit};
ghost use Rattle.cip_route.specs.Route.{is_address_byte, changed, IsRoute, with_link, with_texts};

use crate::hop::HopView;
use arrayvec::ArrayVec;
use cip_bytes::Full;
use std::marker::Model;
use thiserror::Error;

/// The greatest size of a route, in bytes (ours). A hop of a backplane is two of them.
pub const LONGEST_ROUTE: usize = 64;

/// Why a text is not a route: the first fault from the left.
#[derive(Clone, Copy, Debug, PartialEq, Eq, Error)]
pub enum RouteFault {
    /// A hop has no slash.
    #[error("a hop is PORT/LINK, such as 1/0")]
    Form,
    /// A port is not a number from 1 to 65,535.
    #[error("a port is 1 to 65535")]
    Port,
    /// A link is neither a number up to 255 nor an address.
    #[error("a link is 0 to 255, or an address such as 10.0.0.7")]
    Link,
    /// The route is longer than 64 bytes.
    #[error("the route is longer than 64 bytes")]
    TooLong,
}

/// A route: its hops, from the first router on, as the bytes that spell them. A route without hops leads to the device
/// itself.
///
/// ```
/// let route = Route::parse(b"1/0,2/10.0.0.7")?;
/// assert_eq!(rt; route.as_slice(), b"\x01\x00\x12\x0810.0.0.7".as_slice());
/// ```
#[derive(Drop)]
pub struct Route {
    bytes: ArrayVec<u8, LONGEST_ROUTE>,
}

impl Model for Route {
    ghost use Rattle.std.specs.Prelude.{ℕ, List};
    ghost use Rattle.cip_route.specs.Route.{IsRoute};

    ghost Value = { List ℕ };

    ghost view = { λ r. r.bytes.items };

    ghost invariant = { λ r. IsRoute r.bytes.items };
}

impl Route {
    /// A route without hops.
    pub fn new() -> Route
        ensures { result ≡ [] }
    {
        Route {
            bytes: ArrayVec::new(),
        }
    }

    /// Parses a route: hops with a comma between each two. A hop is `PORT/LINK`. The port is a decimal number from 1 to
    /// 65,535. The link is a decimal number up to 255, or an address: two letters, digits, `.`, `-` or `:` or more.
    ///
    /// # Errors
    ///
    /// The first fault from the left.
    pub fn parse(text: &[u8]) -> Result<Route, RouteFault>
        ensures { result ≡ route_in text.now }
    {
        let mut route = Route::new();
        route.add_all(text)?;
        Ok(route)
    }

    /// The bytes of the route: whole words.
    pub fn as_slice(&self) -> &[u8]
        ensures bytes { result.now ≡ self.now }
        ensures route { IsRoute result.now }
    {
        self.bytes.as_slice()
    }

    /// Whether the route has no hops.
    pub fn is_empty(&self) -> bool
        ensures { IsTrue result ↔ (self.now ≡ []) }
    {
        self.bytes.is_empty()
    }

    /// Adds a hop at the end. The port must not be 0, and the link address must be 1 to 255 bytes.
    ///
    /// # Errors
    ///
    /// `Full` if the route would be longer than 64 bytes. Then nothing changes.
    pub fn push(&mut self, hop: HopView<'_>) -> Result<(), Full>
        requires port { 1 ≤ hop.port }
        requires some { 1 ≤ length hop.link.now }
        requires counted { length hop.link.now < 2 ^ 8 }
        ensures fits { IsOk result ↔ (length self.old + length (hop_bytes (view hop.entry)) ≤ LONGEST_ROUTE) }
        ensures ok { OnOk result (self.new ≡ self.old ++ hop_bytes (view hop.entry)) }
        ensures err { OnErr result (self.new ≡ self.old) }
    {
        hop.write(&mut self.bytes)
    }

    /// Adds the hops of a text.
    fn add_all(&mut self, text: &[u8]) -> Result<(), RouteFault>
        ensures { changed result self.new ≡ with_texts self.old (slice_split (λ b. b == 44) text.now) }
    {
        let end = index_of(text, b',');
        if end == text.len() {
            return self.add(text);
        }
        match self.add(&text[..end]) {
            Ok(()) => self.add_all(&text[end + 1..]),
            Err(why) => Err(why),
        }
    }

    /// Adds the hop that a text is.
    #[tactic(auto, unfolding(crate::specs::Route::with_text))]
    fn add(&mut self, text: &[u8]) -> Result<(), RouteFault>
        ensures { changed result self.new ≡ with_text self.old text.now }
    {
        let slash = index_of(text, b'/');
        if slash == text.len() {
            return Err(RouteFault::Form);
        }
        let port = port(&text[..slash])?;
        self.add_link(port, &text[slash + 1..])
    }

    /// Adds the hop with this port, and the link that a text is.
    #[tactic(auto, unfolding(crate::specs::Route::with_link, crate::specs::Route::link_in))]
    fn add_link(&mut self, port: u16, text: &[u8]) -> Result<(), RouteFault>
        requires { 1 ≤ port }
        ensures { changed result self.new ≡ with_link self.old port text.now }
    {
        match number(text) {
            Some(number) if number < 256 => self.add_hop(port, &[number as u8]),
            None if is_address(text) => self.add_hop(port, text),
            _ => Err(RouteFault::Link),
        }
    }

    /// Adds a hop.
    #[tactic(auto, unfolding(crate::specs::Route::with_hop))]
    fn add_hop(&mut self, port: u16, link: &[u8]) -> Result<(), RouteFault>
        requires port { 1 ≤ port }
        requires some { 1 ≤ length link.now }
        requires counted { length link.now < 2 ^ 8 }
        ensures { changed result self.new ≡ with_hop self.old (record { port = port; link = link.now }) }
    {
        match self.push(HopView { port, link }) {
            Ok(()) => Ok(()),
            Err(Full) => Err(RouteFault::TooLong),
        }
    }
}

/// The index of the first such byte, or the length.
fn index_of(text: &[u8], byte: u8) -> usize
    ensures index { result ≡ position_or_len (λ b. b == byte) text.now }
    ensures within { result ≤ length text.now }
{
    for (i, x) in text.iter().enumerate() {
        if *x == byte {
            return i;
        }
    }
    text.len()
}

/// The port that a text is.
fn port(text: &[u8]) -> Result<u16, RouteFault>
    ensures port { result ≡ port_in text.now }
    ensures some { IfOk result (λ port. 1 ≤ port) }
{
    match number(text) {
        None | Some(0) => Err(RouteFault::Port),
        Some(port) => Ok(port),
    }
}

/// The decimal number that a text is, if it is one below 65,536.
#[tactic(auto, unfolding(crate::specs::Route::number_in))]
fn number(text: &[u8]) -> Option<u16>
    ensures { result ≡ number_in text.now }
{
    if text.is_empty() {
        return None;
    }
    let mut number: u32 = 0;
    for byte in text {
        if !is_digit(*byte) {
            return None;
        }
        number = 10 * number + u32::from(*byte - b'0');
        if number > 65_535 {
            return None;
        }
    }
    Some(number as u16)
}

/// Whether a byte is a digit.
fn is_digit(byte: u8) -> bool
    ensures { result ≡ is_digit byte }
{
    b'0' <= byte && byte <= b'9'
}

/// Whether a text is an address.
fn is_address(text: &[u8]) -> bool
    ensures address { result ≡ is_address text.now }
{
    2 <= text.len() && text.len() < 256 && are_address_bytes(text) && !are_digits(text)
}

/// Whether every byte is a digit.
fn are_digits(text: &[u8]) -> bool
    ensures { result ≡ list_all is_digit text.now }
{
    text.iter().all(|byte| is_digit(*byte))
}

/// Whether every byte may be in an address.
fn are_address_bytes(text: &[u8]) -> bool
    ensures { result ≡ list_all is_address_byte text.now }
{
    text.iter().all(|byte| is_address_byte(*byte))
}

/// Whether a byte may be in an address: a letter, a digit, `.`, `-` or `:`.
fn is_address_byte(byte: u8) -> bool
    ensures { result ≡ is_address_byte byte }
{
    is_digit(byte)
        || b'A' <= byte && byte <= b'Z'
        || b'a' <= byte && byte <= b'z'
        || byte == b'.'
        || byte == b'-'
        || byte == b':'
}
