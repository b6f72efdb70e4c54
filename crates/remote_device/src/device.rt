//! The device that the arguments of a command describe.

use crate::connection_options::ConnectionOptions;
use crate::route_option::RouteOption;
use cip_message::ReplyView;
use clap::ArgMatches;
use enip_commands::{ReplyOutcome, Style};
use enip_common::{ArgumentError, CommandError, HostPort, NumberArgument, Timeout, parse_shape};
use std::net::TcpStream;

/// The device that a request goes to, how it is sent, and how the reply is printed.
#[derive(Clone, Copy)]
pub struct Device<'a> {
    /// The argument ADDRESS.
    pub address: &'a str,
    /// Whether requests go over a class 3 connection.
    pub connected: bool,
    /// The hops to the device.
    pub route: RouteOption<'a>,
    /// The connection to open.
    pub connection: ConnectionOptions,
    /// How often a request is sent on the connection if no answer comes. 0 is no limit.
    pub tries: u64,
    /// How the reply is printed.
    pub style: Style,
    /// Whether standard output has only values.
    pub is_quiet: bool,
    /// How long the device has to answer.
    pub timeout: Timeout<'a>,
}

impl<'a> Device<'a> {
    /// The device in the arguments. Its replies are printed as values of the type or the layout that `--as` of a command
    /// that reads, or `--reply-as`, names.
    pub fn from_matches(
        matches: &ArgMatches<'a>,
        timeout: Timeout<'a>,
    ) -> Result<Device<'a>, ArgumentError<'a>> {
        let read_shape = parse_shape("as", matches.get_str("as"))?;
        let reply_shape = parse_shape("reply-as", matches.get_str("reply-as"))?;
        let connected = matches.get_flag("connected");
        let tries = NumberArgument::TRIES.value(matches)?;
        if tries.is_some() && !connected && !matches.contains_id("once") {
            return Err(ArgumentError::Tries);
        }
        Ok(Device {
            address: matches.get_str("ADDRESS").unwrap_or(""),
            connected,
            route: RouteOption::from_matches(matches)?,
            connection: ConnectionOptions::from_matches(matches)?,
            tries: tries.unwrap_or(1),
            style: Style {
                shape: read_shape.or(reply_shape),
                is_json: matches.get_flag("json"),
            },
            is_quiet: matches.get_flag("quiet"),
            timeout,
        })
    }

    /// The device in the arguments of a command, whose time begins now.
    pub fn of_command(
        rt: &HostRuntime,
        matches: &ArgMatches<'a>,
    ) -> Result<Device<'a>, ArgumentError<'a>> {
        let timeout = Timeout::from_matches(rt, matches)?;
        Device::from_matches(matches, timeout)
    }

    /// Connects to the device.
    pub fn connect(self, rt: &HostRuntime) -> Result<TcpStream, CommandError<'a>> {
        HostPort::parse(self.address)?.connect(rt, self.timeout)
    }

    /// How many frames are sent before the request: RegisterSession, and the opening of a connection.
    pub(crate) fn frames_before(self) -> u64 {
        if self.connected { 2 } else { 1 }
    }

    /// The outcome of a reply that is not printed on standard output: with `--quiet` a refusal, and `ok`.
    pub fn quiet_outcome(self, reply: &[u8]) -> Option<ReplyOutcome> {
        if !self.is_quiet {
            return None;
        }
        let reply = ReplyView::read(reply).ok()?;
        if reply.status != 0 {
            let extended = reply.additional_word(0).unwrap_or(0);
            return Some(ReplyOutcome::Refused(reply.status, extended));
        }
        let is_plain = self.style.shape.is_none() && !self.style.is_json;
        let is_ok = reply.data.is_empty() && is_plain;
        if is_ok {
            Some(ReplyOutcome::Done)
        } else {
            None
        }
    }
}
