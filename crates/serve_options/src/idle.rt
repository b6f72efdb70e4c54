//! How long a client of a device may be silent: the option `--idle`.

ghost use Rattle.std.specs.Prelude.{◌≡◌, ◌<◌, ◌*◌, ◌-◌, ◌^◌, IfSome, IfNone};

use cip_application::{AttributeConfig, ObjectConfig, TCP_IP_INTERFACE};
use clap::ArgMatches;
use enip_common::{ArgumentError, NumberArgument, u16_of};
use enip_server::NO_IDLE_TIMEOUT;

/// The microseconds of a second.
const SECOND: u64 = 1_000_000;

/// How many seconds a client may be silent without `--idle`. (Volume 2, Encapsulation Inactivity Timeout.)
const DEFAULT_SECONDS: u16 = 120;

/// The attribute of the TCP/IP Interface with the encapsulation inactivity timeout. (Volume 2, TCP/IP Interface object.)
const INACTIVITY_TIMEOUT: u16 = 13;

/// The seconds of `--idle`, if it is given. They are the first value of the encapsulation inactivity timeout, if the device
/// has a TCP/IP Interface. From then on that attribute counts.
#[derive(Clone, Copy)]
pub(crate) struct IdleOption {
    seconds: Option<u16>,
}

impl IdleOption {
    /// The option in the arguments.
    pub(crate) fn from_matches<'a>(
        matches: &ArgMatches<'a>,
    ) -> Result<IdleOption, ArgumentError<'a>> {
        let seconds = match NumberArgument::IDLE.value(matches)? {
            Some(seconds) => Some(u16_of(seconds)),
            None => None,
        };
        Ok(IdleOption { seconds })
    }

    /// How long a client may be silent, in microseconds, if the device has no TCP/IP Interface.
    pub(crate) fn timeout(self) -> u64
        ensures by_default { IfNone self.seconds (result ≡ 120_000_000) }
        ensures given { IfSome self.seconds (λ s. 0 < s → result ≡ s * 1_000_000) }
        ensures no_limit { IfSome self.seconds (λ s. s ≡ 0 → result ≡ 2 ^ 64 - 1) }
    {
        match self.seconds {
            Some(seconds) => idle_timeout_of(seconds),
            None => idle_timeout_of(DEFAULT_SECONDS),
        }
    }

    /// Makes the seconds the first value of the TCP/IP Interface, if one of the objects is that.
    pub(crate) fn set_in(self, objects: &mut [ObjectConfig]) {
        let Some(seconds) = self.seconds else {
            return;
        };
        for object in objects.iter_mut() {
            if object.class == TCP_IP_INTERFACE {
                set_timeout(&mut object.attributes, seconds);
            }
        }
    }
}

/// Sets the first value of the encapsulation inactivity timeout among the attributes of the TCP/IP Interface.
fn set_timeout(attributes: &mut [AttributeConfig], seconds: u16) {
    let value = seconds.to_le_bytes();
    for attribute in attributes.iter_mut() {
        if attribute.number == INACTIVITY_TIMEOUT && attribute.value.len() == value.len() {
            attribute.value.as_mut_slice().copy_from_slice(&value);
        }
    }
}

/// The idle timeout of so many seconds, in microseconds. 0 is no limit.
fn idle_timeout_of(seconds: u16) -> u64
    ensures limit { 0 < seconds → result ≡ seconds * 1_000_000 }
    ensures no_limit { seconds ≡ 0 → result ≡ 2 ^ 64 - 1 }
{
    match seconds {
        0 => NO_IDLE_TIMEOUT,
        _ => u64::from(seconds) * SECOND,
    }
}
