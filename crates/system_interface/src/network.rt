//! The IPv4 address of an interface.

use std::net::Ipv4Addr;

/// The IPv4 address of an interface, its mask, and the gateway of its default route, or zeros if it has none. Each is in the
/// order in which it is written: 10.0.0.9 is `[10, 0, 0, 9]`.
#[derive(Clone, Copy, Debug)]
pub struct Network {
    /// The address.
    pub address: [u8; 4],
    /// The mask.
    pub mask: [u8; 4],
    /// The gateway.
    pub gateway: [u8; 4],
}

impl Network {
    /// The network of the interface of this name. `routes` is the text of `/proc/net/route`, and `addresses` that of
    /// `/proc/net/fib_trie`. An interface can have several addresses: the first route to a network without a gateway counts,
    /// and in that network the lowest address. `None` if the interface has no address in such a network.
    ///
    /// ```
    /// let network = Network::of("eth0", routes.as_str(), addresses.as_str()); // 192.0.2.2, 255.255.255.0, 192.0.2.1
    /// ```
    pub fn of(name: &str, routes: &str, addresses: &str) -> Option<Network> {
        for line in routes.lines() {
            let Some(route) = Route::in_line(name, line) else {
                continue;
            };
            let Some(address) = route.address_of_this_host(addresses) else {
                continue;
            };
            return Some(Network {
                address,
                mask: route.mask.to_be_bytes(),
                gateway: gateway_in(name, routes),
            });
        }
        None
    }
}

/// The gateway of the default route over an interface, or zeros.
fn gateway_in(name: &str, routes: &str) -> [u8; 4] {
    for line in routes.lines() {
        if let Some(route) = Route::in_line(name, line) {
            if route.destination == 0 && route.mask == 0 {
                return route.gateway.to_be_bytes();
            }
        }
    }
    [0; 4]
}

/// A route of the system. The first byte of an address is the most significant one of its number.
#[derive(Clone, Copy)]
struct Route {
    destination: u32,
    gateway: u32,
    mask: u32,
}

impl Route {
    /// The route in a line of `/proc/net/route`, if it leads over the interface of this name. The fields are the interface, the
    /// destination, the gateway, flags, the numbers of references and uses, the metric, and the mask.
    fn in_line(name: &str, line: &str) -> Option<Route> {
        let mut fields = line.split_ascii_whitespace();
        if fields.next()? != name {
            return None;
        }
        let destination = address_in(fields.next()?)?;
        let gateway = address_in(fields.next()?)?;
        let mask = address_in(fields.nth(4)?)?;
        Some(Route {
            destination,
            gateway,
            mask,
        })
    }

    /// The lowest address of this host in the network to which the route leads, by the text of `/proc/net/fib_trie`. There
    /// a line `|-- ADDRESS` has lines below it with what the address is. `None` for a route with a gateway.
    fn address_of_this_host(self, addresses: &str) -> Option<[u8; 4]> {
        if self.gateway != 0 || self.mask == 0 {
            return None;
        }
        let mut leaf = None;
        for line in addresses.lines() {
            let line = line.trim();
            if let Some(text) = line.strip_prefix("|-- ") {
                leaf = text.parse::<Ipv4Addr>().ok();
            } else if line == "/32 host LOCAL" {
                if let Some(address) = leaf {
                    if self.leads_to(address.octets()) {
                        return Some(address.octets());
                    }
                }
            }
        }
        None
    }

    /// Whether an address is in the network to which the route leads.
    fn leads_to(self, address: [u8; 4]) -> bool {
        u32::from_be_bytes(address) & self.mask == self.destination
    }
}

/// An address as `/proc/net/route` has it: the number, in hexadecimal, whose least significant byte is the first one of the
/// address.
fn address_in(field: &str) -> Option<u32> {
    match u32::from_str_radix(field, 16) {
        Ok(number) => Some(number.swap_bytes()),
        Err(_) => None,
    }
}
