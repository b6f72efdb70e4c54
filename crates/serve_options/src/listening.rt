//! The sockets on which a device listens.

use crate::options::ServeOptions;
use enip_common::{CommandError, ERRORS, HostPort};
use mio::net::{TcpListener, UdpSocket};
use std::io;
use std::net::SocketAddr;

/// Binds the sockets of a device to its address, and prints where it listens. Returns the address of the arguments, the
/// listener, and with discovery the socket for datagrams.
///
/// # Errors
///
/// If the argument is not an address, if the system refuses to listen there, or if standard error cannot be written.
pub fn listen<'a>(
    rt: &HostRuntime,
    options: ServeOptions<'a>,
) -> Result<(HostPort<'a>, TcpListener, Option<UdpSocket>), CommandError<'a>> {
    let address = HostPort::parse(options.address())?;
    let listener = address.bind(rt)?;
    match open_sockets(rt, listener, options.discovery()) {
        Err(error) => Err(CommandError::of_system(address.text(), error)),
        Ok((bound, listener, datagrams)) => match print_listening(
            rt,
            bound,
            options,
            address.port(),
        ) {
            Ok(()) => Ok((address, listener, datagrams)),
            Err(error) => Err(CommandError::of_system(ERRORS, error)),
        },
    }
}

/// The sockets of a device that listens, with discovery one for datagrams at the same address too, and that address.
fn open_sockets(
    rt: &HostRuntime,
    listener: std::net::TcpListener,
    discovery: bool,
) -> io::Result<(SocketAddr, TcpListener, Option<UdpSocket>)> {
    listener.set_nonblocking(true)?;
    let bound = listener.local_addr()?;
    let mut datagrams = None;
    if discovery {
        datagrams = Some(UdpSocket::bind(rt, bound)?);
    }
    Ok((bound, TcpListener::from_std(listener), datagrams))
}

/// Prints the address at which the device listens, a warning if discovery reports another one, and the address at which it
/// listens for its owner. `asked_port` is the port in the arguments, 0 for any.
fn print_listening(
    rt: &HostRuntime,
    bound: SocketAddr,
    options: ServeOptions<'_>,
    asked_port: u16,
) -> io::Result<()> {
    eprintln!(rt; "listening on {bound}")?;
    if let Some(warning) = options
        .reported()
        .and_then(|reported| reported.warning(asked_port, bound))
    {
        eprintln!(rt; "{warning}")?;
    }
    match options.owner_at() {
        Some(address) => eprintln!(rt; "owner at {address}"),
        None => Ok(()),
    }
}
