//! Where discovery reports a device, compared with where it listens.

use enip_adapter::Listen;
use enip_common::{CommandError, HostPort};
use enip_config::Configuration;
use std::fmt;
use std::net::{IpAddr, SocketAddr};

/// The address and the port that a configuration has for discovery.
#[derive(Clone, Copy)]
pub struct ReportedAddress<'a> {
    /// The name of the configuration.
    pub config: &'a str,
    /// The address and the port.
    pub listen: Listen,
}

impl<'a> ReportedAddress<'a> {
    /// The warning that clients which discover the device look for it elsewhere. `None` if they don't, as far as that is
    /// known: the device may listen at all addresses or at any port, and the address 0.0.0.0 reports none.
    pub fn warning(self, asked_port: u16, bound: SocketAddr) -> Option<Elsewhere<'a>> {
        let is_other_port = asked_port != 0 && self.listen.port != bound.port();
        if is_other_port || self.is_other_address(bound.ip()) {
            return Some(Elsewhere {
                reported: self,
                bound,
            });
        }
        None
    }

    /// Whether the address is another one than that at which the device listens. On a loopback address only this machine
    /// reaches the device.
    fn is_other_address(self, bound: IpAddr) -> bool {
        let IpAddr::V4(bound) = bound.to_canonical() else {
            return false;
        };
        let reported = self.listen.address;
        let is_reachable = !bound.is_unspecified() && !bound.is_loopback();
        is_reachable && reported != [0; 4] && reported != bound.octets()
    }
}

/// A device that discovery reports elsewhere than where it listens. It prints as a line for standard error.
#[derive(Clone, Copy)]
pub struct Elsewhere<'a> {
    reported: ReportedAddress<'a>,
    bound: SocketAddr,
}

impl fmt::Display for Elsewhere<'_> {
    fn fmt<W: fmt::Write>(&self, f: &mut fmt::Formatter<W>) -> fmt::Result {
        let [first, second, third, last] = self.reported.listen.address;
        let (port, config, bound) = (self.reported.listen.port, self.reported.config, self.bound);
        write!(
            f,
            "enip: warning: discovery reports {first}.{second}.{third}.{last}:{port} ({config}), but the device listens on {bound}"
        )
    }
}

/// The address and the port that a configuration has for discovery.
pub fn listen_of(configuration: &Configuration) -> Listen {
    Listen {
        address: configuration.address,
        port: configuration.port,
    }
}

/// Prints a warning if discovery reports a device elsewhere than at the address where it is to be served.
pub fn warn_of_address<'a>(
    rt: &HostRuntime,
    reported: ReportedAddress<'a>,
    address: &'a str,
) -> Result<(), CommandError<'a>> {
    let address = HostPort::parse(address)?;
    let bound = address.first_address(rt)?;
    if let Some(warning) = reported.warning(address.port(), bound) {
        let _ = eprintln!(rt; "{warning}");
    }
    Ok(())
}
