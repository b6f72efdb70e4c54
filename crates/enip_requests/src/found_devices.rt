//! The devices that a discovery finds: how they are printed, and warnings about addresses and serial numbers.

use enip_client::{IdentityView, ListCommand, ListEntry, read_list};
use enip_commands::{
    DiscoveryAnswer, ProgramFault, Remarks, print_answer, print_answer_object,
    print_device_objects, print_devices,
};
use std::alloc::{AllocError, Global};
use std::fmt;
use std::io::Write;
use std::net::{IpAddr, Ipv4Addr, SocketAddr};

/// Our own limit: how many answers are compared with later ones.
const MAX_COMPARED: usize = 1_024;

/// How devices are printed.
#[derive(Clone, Copy)]
pub(crate) struct DeviceForm {
    /// As a JSON object.
    pub(crate) is_json: bool,
    /// With the address that the answer came from.
    pub(crate) is_verbose: bool,
}

/// The answers to a discovery so far, each once.
#[derive(Drop)]
pub(crate) struct FoundDevices {
    alloc: Global,
    form: DeviceForm,
    answers: Vec<DiscoveryAnswer>,
}

impl FoundDevices {
    pub(crate) fn new(alloc: Global, form: DeviceForm) -> FoundDevices {
        FoundDevices {
            alloc,
            form,
            answers: Vec::new(alloc),
        }
    }

    /// Prints the devices in a datagram, and warnings about them on standard error.
    pub(crate) fn take<O: Write, E: Eprint>(
        &mut self,
        rt: &E,
        output: &mut O,
        datagram: &[u8],
        source: SocketAddr,
    ) -> Result<(), ProgramFault> {
        if !self.form.is_verbose {
            self.print(output, datagram)?;
        }
        let Ok(entries) = read_list(ListCommand::Identity, datagram) else {
            return Ok(());
        };
        for entry in entries {
            if let ListEntry::Identity(identity) = &entry {
                self.take_device(rt, output, identity, source)?;
            }
        }
        Ok(())
    }

    /// Prints the devices in a datagram, without the address that it came from.
    fn print<O: Write>(&self, output: &mut O, datagram: &[u8]) -> Result<(), ProgramFault> {
        if self.form.is_json {
            print_device_objects(self.alloc, output, datagram)
        } else {
            print_devices(output, datagram)
        }
    }

    /// Notes a device, and prints what is new about it.
    fn take_device<O: Write, E: Eprint>(
        &mut self,
        rt: &E,
        output: &mut O,
        identity: &IdentityView<'_>,
        source: SocketAddr,
    ) -> Result<(), ProgramFault> {
        let answer = DiscoveryAnswer {
            source,
            address: identity.address,
            port: identity.port,
            vendor: identity.vendor,
            serial: identity.serial,
        };
        let seen = self.compare(&answer);
        if self.form.is_verbose {
            self.print_verbose(output, identity, source, seen.remarks(&answer))?;
        }
        if !seen.is_repeated {
            seen.warn(rt, &answer);
            self.add(answer)?;
        }
        Ok(())
    }

    /// Prints a device with the address that its answer came from.
    fn print_verbose<O: Write>(
        &self,
        output: &mut O,
        identity: &IdentityView<'_>,
        source: SocketAddr,
        remarks: Remarks,
    ) -> Result<(), ProgramFault> {
        if self.form.is_json {
            print_answer_object(self.alloc, output, source, remarks, identity)
        } else {
            print_answer(output, source, identity)
        }
    }

    /// What earlier answers have in common with this one.
    fn compare(&self, answer: &DiscoveryAnswer) -> Seen {
        let mut seen = Seen {
            is_repeated: false,
            same_address: None,
            same_serial: None,
        };
        for earlier in &self.answers {
            if earlier == answer {
                seen.is_repeated = true;
                continue;
            }
            if seen.same_address.is_none() && earlier.has_same_address(answer) {
                seen.same_address = Some(earlier.source);
            }
            if seen.same_serial.is_none() && earlier.has_same_serial(answer) {
                seen.same_serial = Some(earlier.source);
            }
        }
        seen
    }

    /// Keeps an answer for comparison with later ones.
    fn add(&mut self, answer: DiscoveryAnswer) -> Result<(), AllocError> {
        if self.answers.len() < MAX_COMPARED {
            self.answers.push(answer)?;
        }
        Ok(())
    }
}

/// What earlier answers have in common with an answer.
#[derive(Clone, Copy)]
struct Seen {
    /// One is the same.
    is_repeated: bool,
    /// Where the first other one came from that reports the same address.
    same_address: Option<SocketAddr>,
    /// Where the first other one came from that reports the same serial number.
    same_serial: Option<SocketAddr>,
}

impl Seen {
    /// The members of the JSON object.
    fn remarks(self, answer: &DiscoveryAnswer) -> Remarks {
        Remarks {
            other_address: answer.is_elsewhere(),
            same_address: self.same_address.is_some(),
            same_serial: self.same_serial.is_some(),
        }
    }

    /// Prints the warnings about an answer on standard error.
    fn warn<E: Eprint>(self, rt: &E, answer: &DiscoveryAnswer) {
        let source = answer.source;
        let address = IpAddr::V4(Ipv4Addr::from_octets(answer.address));
        if answer.is_elsewhere() {
            warn(rt, Warning::Elsewhere(source.ip(), address));
        }
        if let Some(earlier) = self.same_address {
            let listen = SocketAddr::new(address, answer.port);
            warn(rt, Warning::SameAddress(listen, earlier, source));
        }
        if let Some(earlier) = self.same_serial {
            warn(
                rt,
                Warning::SameSerial(answer.vendor, answer.serial, earlier, source),
            );
        }
    }
}

/// What is odd about an answer.
#[derive(Clone, Copy)]
enum Warning {
    /// It came from the first address, and reports the second.
    Elsewhere(IpAddr, IpAddr),
    /// The answers from the last two addresses report the first.
    SameAddress(SocketAddr, SocketAddr, SocketAddr),
    /// The answers from both addresses report this vendor and this serial number.
    SameSerial(u16, u32, SocketAddr, SocketAddr),
}

impl fmt::Display for Warning {
    fn fmt<W: fmt::Write>(&self, f: &mut fmt::Formatter<W>) -> fmt::Result {
        match self {
            Warning::Elsewhere(source, address) => write!(f, "{source} answered for {address}"),
            Warning::SameAddress(address, earlier, later) => write!(
                f,
                "two devices have the address {address} (answers from {earlier} and {later})"
            ),
            Warning::SameSerial(vendor, serial, earlier, later) => write!(
                f,
                "two devices have serial number {serial:#010x} of vendor {vendor} (answers from {earlier} and {later})"
            ),
        }
    }
}

/// Prints a warning on standard error.
fn warn<E: Eprint>(rt: &E, warning: Warning) {
    let _ = eprintln!(rt; "enip: warning: {warning}");
}
