//! `enip inspect`: reads what a device says of itself.

use crate::inspected::{Form, INSPECTED, InspectedObject, Meaning};
use cip_layouts::ValueShape;
use cip_message::{Path, ReplyView};
use cip_values::{ElementaryType, Value, ValueType, ValuesText};
use clap::ArgMatches;
use enip_commands::{
    DIGITS, DeviceRequest, InterfaceConfiguration, InterfaceFlags, PhysicalLink, RequestFailure,
    Style, interface_object, interface_state_name, interface_type_name, link_object, name_object,
    padded_name, show_refusal, show_reply,
};
use enip_common::{CommandError, ErrorKeeping, NamedReason, OUTPUT, Reason, print_argument_error};
use remote_device::{Device, GET_ATTRIBUTE_SINGLE, OpenSession, SessionFailure, error_of_failure};
use std::alloc::{AllocError, Global};
use std::io::Write;

/// The class of assemblies, and the attribute with their data. (Volume 1, Assembly.)
const ASSEMBLY: u16 = 4;

const DATA: u16 = 3;

/// The class attribute with the greatest instance number. (Volume 1, class attributes.)
const MAX_INSTANCE: u16 = 2;

/// The instances that are tried: all up to the greatest one, but at most so many; or if the device does not say, so many.
const MOST_INSTANCES: u32 = 1_000;

const TRIED_INSTANCES: u32 = 255;

/// The state of an inspection.
struct Inspection<'a, 'r> {
    rt: &'r HostRuntime,
    device: Device<'a>,
    /// Whether refusals are printed, too.
    is_verbose: bool,
    session: OpenSession<'a, 'r>,
    /// The report so far.
    report: String,
    /// Whether the report has an object already.
    has_object: bool,
}

// Written out, so that each exit of a function that owns one calls it, and has no drop of every part.
impl Drop for Inspection<'_, '_> {
    fn drop(self) {
        let Inspection {
            rt: _,
            device: _,
            is_verbose: _,
            session: _,
            report: _,
            has_object: _,
        } = self;
    }
}

/// `enip inspect`.
pub fn run_inspect<'a>(rt: &HostRuntime, matches: &ArgMatches<'a>) -> Result<u8, CommandError<'a>> {
    let device = match Device::of_command(rt, matches) {
        Ok(device) => device,
        Err(error) => return Ok(print_argument_error(rt, error)),
    };
    let stream = device.connect(rt)?;
    let session = OpenSession::open(rt, device, &stream)?;
    let mut inspection = Inspection {
        rt,
        device,
        is_verbose: matches.get_flag("verbose"),
        session,
        report: String::new(rt.alloc()),
        has_object: false,
    };
    inspection.run()
}

impl<'a> Inspection<'a, '_> {
    /// Reads all objects, and prints the report. Returns the exit status.
    fn run(&mut self) -> Result<u8, CommandError<'a>> {
        for object in &INSPECTED {
            self.read_object(object)?;
        }
        self.read_assemblies()?;
        let _ = self.session.end();
        if self.device.style.is_json {
            let end = if self.has_object { "}\n" } else { "{}\n" };
            self.report.push_str(end)?;
        }
        let mut output = ErrorKeeping::new(self.rt.stdout());
        match output.write_all(self.report.as_str().as_bytes()) {
            Ok(()) => Ok(0),
            Err(_) => {
                let reason = output
                    .reason(OUTPUT)
                    .unwrap_or(Reason::Named(OUTPUT, NamedReason::Failed));
                Err(CommandError::of_reason(reason))
            }
        }
    }

    /// Reads the attributes of an object that the standard describes.
    fn read_object(&mut self, object: &InspectedObject) -> Result<(), CommandError<'a>> {
        let mut lines = String::new(self.rt.alloc());
        for (number, name, form) in object.attributes {
            let path = Path {
                class: object.class,
                instance: 1,
                attribute: Some(*number),
                member: None,
            };
            self.read_attribute(path, *name, *form, self.is_verbose, &mut lines)?;
        }
        self.add_object(object.name, lines.as_str())
    }

    /// Reads the data of each assembly.
    fn read_assemblies(&mut self) -> Result<(), CommandError<'a>> {
        let last = match self.read_number(ASSEMBLY, MAX_INSTANCE)? {
            Some(last) => u32::from(last).min(MOST_INSTANCES),
            None => TRIED_INSTANCES,
        };
        for instance in 1..last.saturating_add(1) {
            let mut lines = String::new(self.rt.alloc());
            let path = Path {
                class: ASSEMBLY,
                instance,
                attribute: Some(DATA),
                member: None,
            };
            self.read_attribute(path, "data", Form::Bytes, false, &mut lines)?;
            let name = format!(in self.rt.alloc(); "assembly {instance}")?;
            self.add_object(name.as_str(), lines.as_str())?;
        }
        Ok(())
    }

    /// Reads an attribute of a class that is a number of two bytes. `None` if the device does not have it.
    fn read_number(&mut self, class: u16, number: u16) -> Result<Option<u16>, CommandError<'a>> {
        let path = Path {
            class,
            instance: 0,
            attribute: Some(number),
            member: None,
        };
        if self.ask(path)?.is_some() {
            return Ok(None);
        }
        match ReplyView::read(self.session.reply()) {
            Ok(reply) if reply.status == 0 => match reply.data {
                [low, high] => Ok(Some(u16::from_le_bytes([*low, *high]))),
                _ => Ok(None),
            },
            _ => Ok(None),
        }
    }

    /// Reads an attribute, and adds a line with its name and value. One that the device refuses is left out, unless
    /// `shows_refusals` is set.
    fn read_attribute(
        &mut self,
        path: Path,
        name: &str,
        form: Form,
        shows_refusals: bool,
        lines: &mut String,
    ) -> Result<(), CommandError<'a>> {
        let alloc = self.rt.alloc();
        let refused = self.ask(path)?;
        let is_refused = refused.is_some()
            || matches!(ReplyView::read(self.session.reply()), Ok(view) if view.status != 0);
        if is_refused && !shows_refusals {
            return Ok(());
        }
        let text = match refused {
            Some((status, extended)) => self.refusal_text(status, extended)?,
            None => self.reply_text(form)?,
        };
        let value = text.as_str().trim_end();
        let line = if self.device.style.is_json {
            let comma = if lines.is_empty() { "" } else { "," };
            format!(in alloc; "{comma}\"{name}\":{value}")?
        } else if value.starts_with('\n') {
            // the value has lines of its own
            format!(in alloc; "  {name}:{value}\n")?
        } else {
            format!(in alloc; "  {name}: {value}\n")?
        };
        lines.push_str(line.as_str())?;
        Ok(())
    }

    /// What is printed of a refusal by a router.
    fn refusal_text(&self, status: u8, extended: u16) -> Result<String, CommandError<'a>> {
        let alloc = self.rt.alloc();
        let style = Style {
            is_json: self.device.style.is_json,
            ..DIGITS
        };
        let mut text = Vec::new(alloc);
        match show_refusal(alloc, &mut text, style, status, extended) {
            Ok(_) => Ok(String::from_utf8_lossy(alloc, text.as_slice())?),
            Err(failure) => Err(error_of_failure(failure, self.device.address, None)),
        }
    }

    /// What is printed of the reply: its data in a form, or in hexadecimal if they have another one.
    fn reply_text(&self, form: Form) -> Result<String, CommandError<'a>> {
        let alloc = self.rt.alloc();
        let (reply, is_json) = (self.session.reply(), self.device.style.is_json);
        if let Some(text) = network_text(alloc, form, reply, is_json)? {
            return Ok(text);
        }
        let style = Style {
            shape: form.value_type().map(ValueShape::Type),
            is_json,
        };
        let mut text = Vec::new(alloc);
        let mut shown = show_reply(alloc, &mut text, style, reply);
        if let Err(RequestFailure::Shape(..)) = shown {
            // the device has the attribute in another form
            text.clear();
            let digits = Style { is_json, ..DIGITS };
            shown = show_reply(alloc, &mut text, digits, reply);
        }
        match shown {
            Ok(_) => Ok(String::from_utf8_lossy(alloc, text.as_slice())?),
            Err(failure) => Err(error_of_failure(failure, self.device.address, None)),
        }
    }

    /// Adds an object with these lines to the report, if there are any.
    fn add_object(&mut self, name: &str, lines: &str) -> Result<(), CommandError<'a>> {
        if lines.is_empty() {
            return Ok(());
        }
        let alloc = self.rt.alloc();
        let text = if self.device.style.is_json {
            let begin = if self.has_object { "," } else { "{" };
            format!(in alloc; "{begin}\"{name}\":{{{lines}}}")?
        } else {
            format!(in alloc; "{name}\n{lines}")?
        };
        self.report.push_str(text.as_str())?;
        self.has_object = true;
        Ok(())
    }

    /// Reads an attribute. Returns the status with which a router refused to pass the request on.
    fn ask(&mut self, path: Path) -> Result<Option<(u8, u16)>, CommandError<'a>> {
        let bytes = request_of(self.rt, self.device, path)?;
        match self.session.ask(bytes.as_slice()) {
            Ok(()) => Ok(None),
            Err(SessionFailure::Refused(status, extended)) => Ok(Some((status, extended))),
            Err(failure) => Err(CommandError::from(failure)),
        }
    }
}

/// What is printed of a reply in a form of the network's objects. `None` for another form, and for another reply.
fn network_text(
    alloc: Global,
    form: Form,
    reply: &[u8],
    is_json: bool,
) -> Result<Option<String>, AllocError> {
    let data = match ReplyView::read(reply) {
        Ok(view) if view.status == 0 => view.data,
        _ => return Ok(None),
    };
    match form {
        Form::PhysicalLink => link_text(alloc, data, is_json),
        Form::InterfaceConfiguration => interface_text(alloc, data, is_json),
        Form::PaddedString => padded_text(alloc, data, is_json),
        Form::Meant(_, meaning) if !is_json => meant_text(alloc, meaning, data),
        Form::Meant(..) | Form::One(_) | Form::List(_) | Form::Bytes => Ok(None),
    }
}

/// What is printed of a physical link. `None` for other data.
fn link_text(alloc: Global, data: &[u8], is_json: bool) -> Result<Option<String>, AllocError> {
    let Some(link) = PhysicalLink::read(data) else {
        return Ok(None);
    };
    let text = if is_json {
        link_object(alloc, data, &link)?
    } else {
        format!(in alloc; "{link}")?
    };
    Ok(Some(text))
}

/// What is printed of an interface configuration. `None` for other data.
fn interface_text(alloc: Global, data: &[u8], is_json: bool) -> Result<Option<String>, AllocError> {
    let Some(configuration) = InterfaceConfiguration::read(data) else {
        return Ok(None);
    };
    let text = if is_json {
        interface_object(alloc, data, &configuration)?
    } else {
        format!(in alloc; "{configuration}")?
    };
    Ok(Some(text))
}

/// What is printed of a STRING with a byte of padding. `None` for other data.
fn padded_text(alloc: Global, data: &[u8], is_json: bool) -> Result<Option<String>, AllocError> {
    let Some(name) = padded_name(data) else {
        return Ok(None);
    };
    let text = if is_json {
        name_object(alloc, data, name)?
    } else {
        let value_type = ValueType {
            element: ElementaryType::String,
            is_list: false,
        };
        let values = &[Value::Text(name)];
        format!(in alloc; "{}", ValuesText { value_type, values })?
    };
    Ok(Some(text))
}

/// What is printed of a number of Ethernet Link: its value, and what it means. `None` for other data.
fn meant_text(alloc: Global, meaning: Meaning, data: &[u8]) -> Result<Option<String>, AllocError> {
    let text = match (meaning, data) {
        (Meaning::Speed, [first, second, third, last]) => {
            let speed = u32::from_le_bytes([*first, *second, *third, *last]);
            format!(in alloc; "{speed} Mbit/s")?
        }
        (Meaning::Flags, [first, second, third, last]) => {
            let flags = u32::from_le_bytes([*first, *second, *third, *last]);
            let named = InterfaceFlags(flags);
            format!(in alloc; "{flags:#010x} ({named})")?
        }
        (Meaning::Type, [number]) => named_text(alloc, *number, interface_type_name(*number))?,
        (Meaning::State, [number]) => named_text(alloc, *number, interface_state_name(*number))?,
        _ => return Ok(None),
    };
    Ok(Some(text))
}

/// A number, and its name if it has one.
fn named_text(alloc: Global, number: u8, name: Option<&str>) -> Result<String, AllocError> {
    match name {
        Some(name) => format!(in alloc; "{number} ({name})"),
        None => format!(in alloc; "{number}"),
    }
}

/// The request that reads an attribute.
fn request_of<'a>(
    rt: &HostRuntime,
    device: Device<'a>,
    path: Path,
) -> Result<Vec<u8>, CommandError<'a>> {
    let request = DeviceRequest {
        service: GET_ATTRIBUTE_SINGLE,
        path,
        digits: "",
    };
    match request.request(rt.alloc()) {
        Ok(bytes) => Ok(bytes),
        Err(failure) => Err(error_of_failure(failure, device.address, None)),
    }
}
