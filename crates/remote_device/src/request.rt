//! The request that the arguments of `enip get`, `enip set` and `enip call` describe.

use crate::device::Device;
use crate::failure::error_of_failure;
use cip_layouts::{FieldsFault, Layout, ValueShape};
use cip_message::Path;
use cip_values::{ValueFault, ValueType};
use clap::ArgMatches;
use enip_commands::{DeviceRequest, LayoutRequest, RequestFailure, TypedRequest};
use enip_common::{ArgumentError, CommandError, Fault, Reason, Timeout, parse_shape, path_of};
use std::alloc::Global;

/// Common services. (Volume 1, common services.)
const GET_ATTRIBUTES_ALL: u8 = 0x01;

/// The service that reads an attribute. (Volume 1, common services.)
pub const GET_ATTRIBUTE_SINGLE: u8 = 0x0e;

const SET_ATTRIBUTE_SINGLE: u8 = 0x10;

const GET_MEMBER: u8 = 0x18;

const SET_MEMBER: u8 = 0x19;

/// The service of `enip get`: with `--member` that of a member, without ATTRIBUTE that of all attributes.
pub fn service_of_get(matches: &ArgMatches<'_>) -> u8 {
    if matches.contains_id("member") {
        GET_MEMBER
    } else if matches.contains_id("ATTRIBUTE") {
        GET_ATTRIBUTE_SINGLE
    } else {
        GET_ATTRIBUTES_ALL
    }
}

/// The service of `enip set`: with `--member` that of a member.
pub fn service_of_set(matches: &ArgMatches<'_>) -> u8 {
    if matches.contains_id("member") {
        SET_MEMBER
    } else {
        SET_ATTRIBUTE_SINGLE
    }
}

/// The data of a request as the arguments give them.
#[derive(Clone, Copy)]
enum RequestData<'a, 'm> {
    /// Hexadecimal digits.
    Hex(&'a str),
    /// Values of a type, one in each argument.
    Values(ValueType, &'m [&'a str]),
    /// Values of the fields of a layout, one in each argument.
    Fields(Layout, &'m [&'a str]),
}

/// A request as the arguments describe it: to which device, which service, and with which data.
#[derive(Clone, Copy)]
pub struct Request<'a, 'm> {
    /// The device.
    pub device: Device<'a>,
    service: u8,
    path: Path,
    data: RequestData<'a, 'm>,
}

impl<'a: 'm, 'm> Request<'a, 'm> {
    /// The request for a service that the arguments describe.
    pub fn from_matches(
        service: Option<u8>,
        matches: &'m ArgMatches<'a>,
        timeout: Timeout<'a>,
    ) -> Result<Request<'a, 'm>, ArgumentError<'a>> {
        let shape = parse_shape("as", matches.get_str("data-as"))?;
        let data = match matches.get_strs("HEX") {
            Some(arguments) => data_of(shape, arguments)?,
            None if is_set(service) && !is_call(matches) => return Err(ArgumentError::Missing),
            None => data_of(shape, &[])?,
        };
        let path = path_of(matches)?;
        if path.member.is_some() && path.attribute.is_none() && !is_call(matches) {
            return Err(ArgumentError::MemberAlone);
        }
        Ok(Request {
            device: Device::from_matches(matches, timeout)?,
            service: service.ok_or(ArgumentError::Missing)?,
            path,
            data,
        })
    }

    /// The error of a request that was not made of these digits.
    fn error_of_digits(self, failure: RequestFailure, digits: &'a str) -> CommandError<'a> {
        match failure {
            RequestFailure::Hex => CommandError::new(Fault::Hex, Reason::Hex(digits)),
            failure => error_of_failure(failure, self.device.address, None),
        }
    }

    /// The bytes of the router request.
    pub fn bytes(self, alloc: Global) -> Result<Vec<u8>, CommandError<'a>> {
        match self.data {
            RequestData::Hex(digits) => {
                let request = DeviceRequest {
                    service: self.service,
                    path: self.path,
                    digits,
                };
                match request.request(alloc) {
                    Ok(request) => Ok(request),
                    Err(failure) => Err(self.error_of_digits(failure, digits)),
                }
            }
            RequestData::Values(value_type, words) => {
                let request = TypedRequest {
                    service: self.service,
                    path: self.path,
                    value_type,
                    words,
                };
                request.request(alloc).map_err(error_of_value)
            }
            RequestData::Fields(layout, words) => {
                let request = LayoutRequest {
                    service: self.service,
                    path: self.path,
                    layout,
                    words,
                };
                request.request(alloc).map_err(error_of_fields)
            }
        }
    }
}

/// The data that the arguments give: values if there is a type or a layout, otherwise the digits of one argument.
fn data_of<'a: 'm, 'm>(
    shape: Option<ValueShape>,
    arguments: &'m [&'a str],
) -> Result<RequestData<'a, 'm>, ArgumentError<'a>> {
    match (shape, arguments) {
        (Some(ValueShape::Type(value_type)), words) => Ok(RequestData::Values(value_type, words)),
        (Some(ValueShape::Layout(layout)), words) => Ok(RequestData::Fields(layout, words)),
        (None, [_, second, ..]) => Err(ArgumentError::ExtraHex(*second)),
        (None, [digits]) => Ok(RequestData::Hex(*digits)),
        (None, []) => Ok(RequestData::Hex("")),
    }
}

/// Whether the arguments have a service, as those of `enip call` do.
fn is_call(matches: &ArgMatches<'_>) -> bool {
    matches.contains_id("SERVICE")
}

/// Whether a request only reads attributes or a member.
pub(crate) fn is_read(request: &[u8]) -> bool {
    matches!(
        request.first().copied(),
        Some(GET_ATTRIBUTES_ALL | GET_ATTRIBUTE_SINGLE | GET_MEMBER)
    )
}

/// Whether the service is one of `enip set`.
fn is_set(service: Option<u8>) -> bool {
    matches!(service, Some(SET_ATTRIBUTE_SINGLE | SET_MEMBER))
}

/// The error of an argument that is not a value of the type.
fn error_of_value<'a>(fault: ValueFault<'a>) -> CommandError<'a> {
    match fault {
        ValueFault::Memory => CommandError::of_memory(),
        fault => CommandError::new(Fault::Value, Reason::Value(0, fault)),
    }
}

/// The error of arguments that are not the values of a layout.
fn error_of_fields<'a>(fault: FieldsFault<'a>) -> CommandError<'a> {
    let reason = match fault {
        FieldsFault::Memory => return CommandError::of_memory(),
        FieldsFault::Field(number, fault) => Reason::Value(number, fault),
        FieldsFault::Trailing(size) => Reason::Value(0, ValueFault::Trailing(size)),
        FieldsFault::Count(wanted, given) => Reason::Values(wanted, given),
    };
    CommandError::new(Fault::Value, reason)
}
