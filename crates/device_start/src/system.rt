//! The values that a configuration leaves to network interfaces of this computer.

use config_file::ConfigFile;
use enip_common::{CommandError, ConfigurationReason, Reason};
use enip_config::Configuration;
use std::alloc::Global;
use std::fs::read_to_string;
use system_interface::{Link, LinkTexts, Network, fill_ethernet_link, fill_tcp_ip};

/// The routes of the system.
const ROUTES: &str = "/proc/self/net/route";

/// The addresses of the system.
const ADDRESSES: &str = "/proc/self/net/fib_trie";

/// The name of the computer.
const HOST_NAME: &str = "/proc/sys/kernel/hostname";

/// Reads the values of the interfaces that the tables `tcp_ip` and `ethernet_link` name, and puts them into the objects.
///
/// # Errors
///
/// A fault of the device, if there is no such interface, or if that of `tcp_ip` has no IPv4 address.
pub fn fill_from_system<'a>(
    rt: &HostRuntime,
    config: &ConfigFile<'a>,
    configuration: &mut Configuration,
) -> Result<(), CommandError<'a>> {
    let Configuration {
        objects,
        interfaces,
        ..
    } = configuration;
    let objects = objects.objects.as_mut_slice();
    if let Some(name) = &interfaces.tcp_ip {
        let name = name.as_str();
        let network = network_of(rt, config, name)?;
        let host = text_of(rt, HOST_NAME);
        fill_tcp_ip(rt.alloc(), objects, network, host.trim())?;
    }
    if let Some(name) = &interfaces.ethernet_link {
        let name = name.as_str();
        let link = link_of(rt, config, name)?;
        fill_ethernet_link(rt.alloc(), objects, link, name)?;
    }
    Ok(())
}

/// The address of an interface.
fn network_of<'a>(
    rt: &HostRuntime,
    config: &ConfigFile<'a>,
    name: &str,
) -> Result<Network, CommandError<'a>> {
    let routes = text_of(rt, ROUTES);
    let addresses = text_of(rt, ADDRESSES);
    match Network::of(name, routes.as_str(), addresses.as_str()) {
        Some(network) => Ok(network),
        None => {
            let text = format!(in rt.alloc();
                "tcp_ip: no interface {name} with an IPv4 address in a network"
            )?;
            Err(missing(config, text))
        }
    }
}

/// The state of an interface.
fn link_of<'a>(
    rt: &HostRuntime,
    config: &ConfigFile<'a>,
    name: &str,
) -> Result<Link, CommandError<'a>> {
    let address = file_of(rt, name, "address")?;
    if address.is_empty() {
        return no_link(rt, config, name);
    }
    link_with_address(rt, name, address.as_str())
}

/// Refuses a configuration whose table `ethernet_link` names an interface that the system does not have.
fn no_link<'a>(
    rt: &HostRuntime,
    config: &ConfigFile<'a>,
    name: &str,
) -> Result<Link, CommandError<'a>> {
    let text = format!(in rt.alloc(); "ethernet_link: no interface {name}")?;
    Err(missing(config, text))
}

/// The state of an interface with this address.
fn link_with_address<'a>(
    rt: &HostRuntime,
    name: &str,
    address: &str,
) -> Result<Link, CommandError<'a>> {
    let mut files = LinkFiles::new(rt.alloc());
    files.read(rt, name)?;
    Ok(Link::from_texts(LinkTexts {
        address,
        flags: files.flags.as_str(),
        carrier: files.carrier.as_str(),
        speed: files.speed.as_str(),
        duplex: files.duplex.as_str(),
    }))
}

/// The texts of the files of an interface.
struct LinkFiles {
    flags: String,
    carrier: String,
    speed: String,
    duplex: String,
}

// Written out, so that each exit of a function that owns one calls it, and has no drop of every part.
impl Drop for LinkFiles {
    fn drop(self) {
        let LinkFiles {
            flags: _,
            carrier: _,
            speed: _,
            duplex: _,
        } = self;
    }
}

impl LinkFiles {
    fn new(alloc: Global) -> LinkFiles {
        LinkFiles {
            flags: String::new(alloc),
            carrier: String::new(alloc),
            speed: String::new(alloc),
            duplex: String::new(alloc),
        }
    }

    /// Reads the files of this interface.
    fn read<'a>(&mut self, rt: &HostRuntime, name: &str) -> Result<(), CommandError<'a>> {
        self.flags = file_of(rt, name, "flags")?;
        self.carrier = file_of(rt, name, "carrier")?;
        self.speed = file_of(rt, name, "speed")?;
        self.duplex = file_of(rt, name, "duplex")?;
        Ok(())
    }
}

/// The text of a file of an interface. Nothing if it cannot be read.
fn file_of<'a>(rt: &HostRuntime, name: &str, file: &str) -> Result<String, CommandError<'a>> {
    let path = format!(in rt.alloc(); "/sys/class/net/{name}/{file}")?;
    Ok(text_of(rt, path.as_str()))
}

/// The text of a file. Nothing if it cannot be read.
fn text_of(rt: &HostRuntime, path: &str) -> String {
    match read_to_string(rt, path) {
        Ok(text) => text,
        Err(_) => String::new(rt.alloc()),
    }
}

/// The error of a configuration that names an interface which the system does not have.
fn missing<'a>(config: &ConfigFile<'a>, text: String) -> CommandError<'a> {
    CommandError::of_reason(Reason::Configuration(config.name(), ConfigurationReason::Check(text)))
}
