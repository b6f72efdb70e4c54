//! The address of a device as an argument gives it, and the timeout of a client.

ghost use Rattle.std.specs.Prelude.{◌≡◌};

use crate::argument_error::{ArgumentError, parse_seconds};
use crate::reason::{CLOCK, CommandError, NamedReason, Reason, SystemError};
use clap::ArgMatches;
use std::io::{self, ErrorKind};
use std::net::{HostAddrs, IpAddr, SocketAddr, TcpListener, TcpStream, ToSocketAddrs, UdpSocket};
use std::rt::Clock;
use std::time::{Duration, Instant};

/// The registered port of EtherNet/IP. (Volume 2, TCP.)
const REGISTERED_PORT: u16 = 44_818;

/// A host, by address or name, and a port.
#[derive(Clone, Copy)]
pub struct HostPort<'a> {
    /// The argument, for messages.
    text: &'a str,
    host: &'a str,
    port: u16,
}

impl<'a> HostPort<'a> {
    /// Parses `HOST` or `HOST:PORT`. An IPv6 address with a port is in brackets.
    pub fn parse(text: &'a str) -> Result<HostPort<'a>, CommandError<'a>> {
        match split_port(text) {
            Some((host, port)) if !host.is_empty() => Ok(HostPort { text, host, port }),
            _ => Err(CommandError::of_reason(Reason::Named(text, NamedReason::NotAnAddress))),
        }
    }

    /// The argument, for messages.
    pub fn text(self) -> &'a str
        ensures { result ≡ self.exit.text }
    {
        self.text
    }

    /// The port, 0 for any.
    pub fn port(self) -> u16
        ensures { result ≡ self.exit.port }
    {
        self.port
    }

    /// The addresses of the host.
    fn addresses(self, rt: &HostRuntime) -> Result<HostAddrs, CommandError<'a>> {
        match (self.host, self.port).to_socket_addrs(rt) {
            Ok(addresses) => Ok(addresses),
            Err(error) if error.kind() == ErrorKind::OutOfMemory => Err(CommandError::of_memory()),
            Err(_) => Err(CommandError::of_reason(Reason::Named(self.text, NamedReason::NoHost))),
        }
    }

    /// The first address of the host, with the port.
    pub fn first_address(self, rt: &HostRuntime) -> Result<SocketAddr, CommandError<'a>> {
        for address in self.addresses(rt)? {
            return Ok(address);
        }
        Err(CommandError::of_reason(Reason::Named(self.text, NamedReason::NoHost)))
    }

    /// Listens at the first address of the host at which that is possible.
    pub fn bind(self, rt: &HostRuntime) -> Result<TcpListener, CommandError<'a>> {
        let mut last = CommandError::of_reason(Reason::Named(self.text, NamedReason::NoHost));
        for address in self.addresses(rt)? {
            match TcpListener::bind(rt, address) {
                Ok(listener) => return Ok(listener),
                Err(error) => last = CommandError::of_system(self.text, error),
            }
        }
        Err(last)
    }

    /// Listens at the first loopback address of the host at which that is possible.
    pub fn bind_loopback(self, rt: &HostRuntime) -> Result<TcpListener, CommandError<'a>> {
        let mut last = CommandError::of_reason(Reason::Named(self.text, NamedReason::NotLoopback));
        for address in self.addresses(rt)? {
            if !address.ip().to_canonical().is_loopback() {
                continue;
            }
            match TcpListener::bind(rt, address) {
                Ok(listener) => return Ok(listener),
                Err(error) => last = CommandError::of_system(self.text, error),
            }
        }
        Err(last)
    }

    /// Connects to the first address of the host at which that is possible. The timeout bounds all attempts together.
    fn connect_to_any(
        self,
        rt: &HostRuntime,
        timeout: Timeout<'a>,
    ) -> Result<TcpStream, CommandError<'a>> {
        let addresses = self.addresses(rt)?;
        let start = Instant::now(rt).map_err(|error| CommandError::of_system(CLOCK, error))?;
        let mut last = Reason::Named(self.text, NamedReason::NoHost);
        for address in addresses {
            match timeout.connect(rt, address, start) {
                Ok(stream) => return Ok(stream),
                Err(error) => last = timeout.reason(self.text, error),
            }
            if let Some(deadline) = timeout.deadline_over(rt) {
                return Err(CommandError::of_reason(Reason::DeadlineOver(self.text, deadline)));
            }
        }
        Err(CommandError::of_reason(last))
    }

    /// Connects for requests, which are small. The timeout bounds each later read too.
    pub fn connect(
        self,
        rt: &HostRuntime,
        timeout: Timeout<'a>,
    ) -> Result<TcpStream, CommandError<'a>> {
        let stream = self.connect_to_any(rt, timeout)?;
        let _ = stream.set_nodelay(true);
        stream
            .set_read_timeout(timeout.limit())
            .map_err(|error| CommandError::of_system(self.text, error))?;
        Ok(stream)
    }

    /// Sends a datagram to the first address of the host, which may be a broadcast address. The answers come to the
    /// socket.
    pub fn send_datagram(
        self,
        rt: &HostRuntime,
        datagram: &[u8],
    ) -> Result<UdpSocket, CommandError<'a>> {
        for address in self.addresses(rt)? {
            return send_datagram_to(rt, address, datagram).map_err(|error| CommandError::of_system(
                self.text, error,
            ));
        }
        Err(CommandError::of_reason(Reason::Named(self.text, NamedReason::NoHost)))
    }
}

/// Sends a datagram to an address.
fn send_datagram_to(
    rt: &HostRuntime,
    address: SocketAddr,
    datagram: &[u8],
) -> io::Result<UdpSocket> {
    let any = match address {
        SocketAddr::V4(_) => "0.0.0.0:0",
        SocketAddr::V6(_) => "[::]:0",
    };
    let socket = UdpSocket::bind(rt, any)?;
    socket.set_broadcast(true)?;
    socket.send_to(datagram, address)?;
    Ok(socket)
}

/// The host and the port of `HOST` or `HOST:PORT`.
fn split_port(text: &str) -> Option<(&str, u16)> {
    if let Some(rest) = text.strip_prefix('[') {
        return match rest.split_once(']')? {
            (host, "") => Some((host, REGISTERED_PORT)),
            (host, port) => Some((host, port.strip_prefix(':')?.parse().ok()?)),
        };
    }
    if text.parse::<IpAddr>().is_ok() {
        return Some((text, REGISTERED_PORT));
    }
    match text.rsplit_once(':') {
        Some((host, port)) => Some((host, port.parse().ok()?)),
        None => Some((text, REGISTERED_PORT)),
    }
}

/// How long a client waits for a device: to connect, and then at each read.
#[derive(Clone, Copy)]
pub struct Timeout<'a> {
    /// The seconds as the argument gives them, for messages.
    text: &'a str,
    /// `None` is no limit.
    limit: Option<Duration>,
    /// `None` if the command has no deadline.
    deadline: Option<Deadline<'a>>,
}

/// The end of the time that a whole command has.
#[derive(Clone, Copy)]
struct Deadline<'a> {
    /// The seconds as the argument gives them, for messages.
    text: &'a str,
    start: Instant,
    limit: Duration,
}

impl<'a> Timeout<'a> {
    /// Parses a decimal number of seconds. 0 is no limit.
    pub fn parse(text: &'a str) -> Result<Timeout<'a>, ArgumentError<'a>> {
        let seconds = parse_seconds("timeout", text)?;
        let limit = if seconds.is_zero() {
            None
        } else {
            Some(seconds)
        };
        Ok(Timeout {
            text,
            limit,
            deadline: None,
        })
    }

    /// The timeout that the arguments give, with the deadline of the command. Its time begins now.
    pub fn from_matches(
        rt: &HostRuntime,
        matches: &ArgMatches<'a>,
    ) -> Result<Timeout<'a>, ArgumentError<'a>> {
        let timeout = Timeout::parse(matches.get_str("timeout").unwrap_or(""))?;
        let Some(text) = matches.get_str("deadline") else {
            return Ok(timeout);
        };
        let limit = parse_seconds("deadline", text)?;
        if limit.is_zero() {
            return Ok(timeout);
        }
        let Ok(start) = Instant::now(rt) else {
            return Err(ArgumentError::Seconds("deadline", text));
        };
        Ok(Timeout {
            deadline: Some(Deadline { text, start, limit }),
            ..timeout
        })
    }

    /// How long the next step may take: the timeout, or less if the deadline is nearer. `Some` of no time once the
    /// deadline is over.
    pub fn next_limit<C: Clock>(self, clock: &C) -> Option<Duration> {
        match (self.limit, self.left(clock)) {
            (Some(limit), Some(left)) => Some(limit.min(left)),
            (limit, left) => limit.or(left),
        }
    }

    /// What is left until the deadline, if there is one. Without a clock it is over.
    pub fn left<C: Clock>(self, clock: &C) -> Option<Duration> {
        let deadline = self.deadline?;
        match deadline.start.elapsed(clock) {
            Ok(elapsed) => Some(deadline.limit.saturating_sub(elapsed)),
            Err(_) => Some(Duration::ZERO),
        }
    }

    /// The seconds of the deadline, for messages, if it is over.
    pub fn deadline_over<C: Clock>(self, clock: &C) -> Option<&'a str> {
        let left = self.left(clock)?;
        if left.is_zero() {
            Some(self.deadline?.text)
        } else {
            None
        }
    }

    /// How long a read may take. `None` is no limit.
    pub fn limit(self) -> Option<Duration>
        ensures { result ≡ self.exit.limit }
    {
        self.limit
    }

    /// Connects to an address, within what is left of the timeout since `start`.
    fn connect(
        self,
        rt: &HostRuntime,
        address: SocketAddr,
        start: Instant,
    ) -> io::Result<TcpStream> {
        let until_timeout = match self.limit {
            Some(limit) => Some(limit.saturating_sub(start.elapsed(rt)?)),
            None => None,
        };
        let left = match (until_timeout, self.left(rt)) {
            (Some(timeout), Some(deadline)) => timeout.min(deadline),
            (Some(left), None) | (None, Some(left)) => left,
            (None, None) => return TcpStream::connect(rt, address),
        };
        if left.is_zero() {
            return Err(io::Error::from(ErrorKind::TimedOut));
        }
        TcpStream::connect_timeout(rt, &address, left)
    }

    /// Whether the command has a deadline.
    pub fn has_deadline(self) -> bool {
        self.deadline.is_some()
    }

    /// Why a connection failed at the deadline.
    pub fn deadline_reason(self, address: &'a str) -> Reason<'a> {
        match self.deadline {
            Some(deadline) => Reason::DeadlineOver(address, deadline.text),
            None => Reason::TimedOut(address, self.text),
        }
    }

    /// Why a connection failed. If the system itself gave up, its error has a number, and this timeout is not over.
    pub fn reason(self, address: &'a str, error: io::Error) -> Reason<'a> {
        match (error.kind(), error.raw_os_error()) {
            (ErrorKind::WouldBlock, _) | (ErrorKind::TimedOut, None) => {
                Reason::TimedOut(address, self.text)
            }
            _ => Reason::System(address, SystemError(error)),
        }
    }
}
