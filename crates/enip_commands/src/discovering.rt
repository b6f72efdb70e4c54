//! `enip discover --verbose`: where each answer came from, and what answers have in common.

ghost use Rattle.std.specs.Prelude.{◌≡◌, ◌&&◌, not, IfErr, OnOk};
ghost use Rattle.std.specs.Io.KnownBytes.{Appends};
ghost use Rattle.enip_client.specs.Identity.{identity_in};
ghost use Rattle.enip_commands.specs.Discovering.{is_same_host, are_loopback, has_address, is_elsewhere, has_same_address, has_same_serial};
ghost use Rattle.enip_commands.specs.Discovering.{answer_line, answer_object_line};
ghost use Rattle.enip_faults.specs.Statuses.{IsOfDevices};

use crate::json_text::answer_object;
use crate::listing::DeviceLine;
use enip_client::IdentityView;
use enip_faults::ProgramFault;
use std::alloc::Global;
use std::io::Write;
use std::net::{IpAddr, SocketAddr};

/// The first octet of loopback addresses.
const LOOPBACK: u8 = 127;

/// An answer to a discovery: where it came from, and what the device reports of itself.
#[derive(Clone, Copy, Debug, PartialEq, Eq)]
pub struct DiscoveryAnswer {
    /// Where the datagram came from.
    pub source: SocketAddr,
    /// The IPv4 address of the device. 0.0.0.0 is none.
    pub address: [u8; 4],
    /// The TCP port of the device.
    pub port: u16,
    /// The vendor ID.
    pub vendor: u16,
    /// The serial number, which is unique for the vendor.
    pub serial: u32,
}

/// What was noticed at an answer to a discovery.
#[derive(Clone, Copy, Debug, PartialEq, Eq)]
pub struct Remarks {
    /// The answer came from another address than the device reports.
    pub other_address: bool,
    /// Another answer reports the same address and port.
    pub same_address: bool,
    /// Another answer reports the same serial number of the same vendor.
    pub same_serial: bool,
}

impl DiscoveryAnswer {
    /// Whether the answer came from another address than the device reports. Two loopback addresses are not told apart,
    /// and an IPv6 address can't be compared: an identity has an IPv4 address.
    ///
    /// ```
    /// if answer.is_elsewhere() {
    ///     // answer.source.ip() answered for answer.address
    /// }
    /// ```
    pub fn is_elsewhere(&self) -> bool
        ensures { result ≡ is_elsewhere self.now }
    {
        match self.source.ip() {
            IpAddr::V4(ip) => is_other_host(ip.octets(), self.address) && self.has_address(),
            IpAddr::V6(_) => false,
        }
    }

    /// Whether both devices report the same address and port.
    ///
    /// ```
    /// let other = answers.iter().find(|other| other.has_same_address(&answer));
    /// ```
    pub fn has_same_address(&self, other: &DiscoveryAnswer) -> bool
        ensures { result ≡ has_same_address self.now other.now }
    {
        self.has_address() && is_same_host(self.address, other.address) && self.port == other.port
    }

    /// Whether both devices report the same serial number of the same vendor.
    ///
    /// ```
    /// let other = answers.iter().find(|other| other.has_same_serial(&answer));
    /// ```
    pub fn has_same_serial(&self, other: &DiscoveryAnswer) -> bool
        ensures { result ≡ has_same_serial self.now other.now }
    {
        self.vendor == other.vendor && self.serial == other.serial
    }

    /// Whether the device reports an address.
    fn has_address(&self) -> bool
        ensures { result ≡ has_address self.now }
    {
        !is_same_host(self.address, [0, 0, 0, 0])
    }
}

/// Whether an answer from an address reports another one. All loopback addresses are of this machine.
fn is_other_host(source: [u8; 4], reported: [u8; 4]) -> bool
    ensures { result ≡ (not (is_same_host source reported) && not (are_loopback source reported)) }
{
    !is_same_host(source, reported) && !(source[0] == LOOPBACK && reported[0] == LOOPBACK)
}

/// Whether two addresses are the same.
fn is_same_host(one: [u8; 4], other: [u8; 4]) -> bool
    ensures { result ≡ is_same_host one other }
{
    one[0] == other[0] && one[1] == other[1] && one[2] == other[2] && one[3] == other[3]
}

/// Prints the line of a device, with the address that its answer came from.
///
/// # Errors
///
/// `Device` or `Memory` if the output failed.
pub fn print_answer<O: Write>(
    output: &mut O,
    source: SocketAddr,
    identity: &IdentityView<'_>,
) -> Result<(), ProgramFault>
    ensures printed { OnOk result (Appends (O.contents output.old) (O.contents output.new)
        (answer_line source (identity_in identity.now))) }
    ensures refused { IfErr result IsOfDevices }
{
    writeln!(output, "{} from {source}", DeviceLine(identity))?;
    Ok(())
}

/// Prints a device as a JSON object on one line: its identity, the address that its answer came from, and what was
/// noticed.
///
/// # Errors
///
/// `Device` if the output failed. `Memory` if memory was refused.
pub fn print_answer_object<O: Write>(
    alloc: Global,
    output: &mut O,
    source: SocketAddr,
    remarks: Remarks,
    identity: &IdentityView<'_>,
) -> Result<(), ProgramFault>
    ensures printed { OnOk result (Appends (O.contents output.old) (O.contents output.new)
        (answer_object_line source remarks (identity_in identity.now))) }
    ensures refused { IfErr result IsOfDevices }
{
    writeln!(
        output,
        "{}",
        answer_object(alloc, source, remarks, identity)?
    )?;
    Ok(())
}
