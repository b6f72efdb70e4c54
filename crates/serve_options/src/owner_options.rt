//! The options of `enip serve` for the owner of the device: where it listens for one, from where one may come, and the
//! token.

ghost use Rattle.std.specs.Prelude.{◌≡◌};

use clap::ArgMatches;
use enip_access::address_number;
use enip_common::{
    ArgumentError, CommandError, HostPort, NamedReason, OsArg, Reason, parse_ip, parse_seconds,
    read_option_file,
};
use enip_owner::{LINE_LIMIT, LineBuffer};
use std::net::TcpListener;
use std::time::Duration;

/// Where a device listens for its owner, and who that may be.
#[derive(Clone, Copy)]
pub struct OwnerOptions<'a> {
    /// Where it listens.
    address: &'a str,
    /// The only address from which an owner may come, as a number. `None`: an owner is on this machine.
    from: Option<u128>,
    /// The file with the token that an owner shows.
    token: Option<&'a str>,
    /// How long an owner has for an answer, in microseconds.
    timeout: u64,
}

impl<'a> OwnerOptions<'a> {
    /// The options in the arguments. `None` if the device has no owner.
    pub(crate) fn from_matches(
        matches: &ArgMatches<'a>,
    ) -> Result<Option<OwnerOptions<'a>>, ArgumentError<'a>> {
        let Some(address) = matches.get_str("owner") else {
            return Ok(None);
        };
        let from = match parse_ip("owner-from", matches.get_str("owner-from"))? {
            Some(address) => Some(address_number(address)),
            None => None,
        };
        Ok(Some(OwnerOptions {
            address,
            from,
            token: matches.get_str("owner-token"),
            timeout: owner_timeout_of(parse_seconds(
                "owner-timeout",
                matches.get_str("owner-timeout").unwrap_or("1"),
            )?),
        }))
    }

    /// How long an owner has for an answer, in microseconds.
    pub fn timeout(self) -> u64
        ensures { result ≡ self.entry.timeout }
    {
        self.timeout
    }

    /// The only address from which an owner may come, as a number.
    pub fn from(self) -> Option<u128>
        ensures { result ≡ self.entry.from }
    {
        self.from
    }

    /// The argument that says where the device listens for its owner, for messages.
    pub fn address(self) -> &'a str
        ensures { result ≡ self.entry.address }
    {
        self.address
    }

    /// Listens for an owner: at a loopback address, unless the options say from where one may come.
    ///
    /// # Errors
    ///
    /// If the argument is not an address, or if the system refuses to listen there.
    pub fn bind(self, rt: &HostRuntime) -> Result<TcpListener, CommandError<'a>> {
        let address = HostPort::parse(self.address)?;
        let listener = match self.from {
            Some(_) => address.bind(rt)?,
            None => address.bind_loopback(rt)?,
        };
        match listener.set_nonblocking(true) {
            Ok(()) => Ok(listener),
            Err(error) => Err(CommandError::of_system(self.address, error)),
        }
    }

    /// The token that an owner shows, if it has to: the first line of the file.
    ///
    /// # Errors
    ///
    /// If the file cannot be read, if its first line is empty, or if memory is refused.
    pub fn read_token(
        self,
        rt: &HostRuntime,
        args: &[OsArg],
    ) -> Result<Option<Vec<u8>>, CommandError<'a>> {
        let Some(name) = self.token else {
            return Ok(None);
        };
        let alloc = rt.alloc();
        // One byte more than a line has, so that a longer one is noticed.
        let bytes = read_option_file(
            alloc,
            args,
            "--owner-token",
            name,
            LINE_LIMIT as u64 + 1,
        ).map_err(|error| CommandError::of_system(name, error))?;
        let mut line = LineBuffer::new(alloc)?;
        line.feed(bytes.as_slice());
        if line.line().is_empty() {
            return Err(CommandError::of_reason(Reason::Named(name, NamedReason::NoToken)));
        }
        let mut token = Vec::new(alloc);
        token.extend_from_slice(line.line())?;
        Ok(Some(token))
    }
}

/// The time that an owner has for an answer, in microseconds. 0 is no limit.
fn owner_timeout_of(time: Duration) -> u64 {
    match u64::try_from(time.as_micros()) {
        Ok(0) | Err(_) => u64::MAX,
        Ok(microseconds) => microseconds,
    }
}
