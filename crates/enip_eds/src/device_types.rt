//! The device types that have a profile, and their names. (Volume 1, device profiles.)

ghost use Rattle.std.specs.Prelude.{◌≡◌};
ghost use Rattle.enip_eds.specs.DeviceTypes.{name_below_10, name_below_20, name_below_2a, name_from_2a, type_name_of};
ghost use Rattle.enip_eds.specs.Texts.{text_in};

use std::fmt;

/// The name of a device type that has a profile.
///
/// ```
/// device_type_name(43) // Some("Generic Device (keyable)")
/// device_type_name(1) // None
/// ```
pub fn device_type_name(device_type: u16) -> Option<&'static str>
    ensures { text_in result ≡ type_name_of device_type }
{
    if device_type < 0x10 {
        return name_below_10(device_type);
    }
    if device_type < 0x20 {
        return name_below_20(device_type);
    }
    if device_type < 0x2a {
        return name_below_2a(device_type);
    }
    name_from_2a(device_type)
}

/// The name of a device type below 0x10.
fn name_below_10(device_type: u16) -> Option<&'static str>
    ensures { text_in result ≡ name_below_10 device_type }
{
    match device_type {
        0x00 => Some("Generic Device"),
        0x02 => Some("AC Drive"),
        0x03 => Some("Motor Overload"),
        0x04 => Some("Limit Switch"),
        0x05 => Some("Inductive Proximity Switch"),
        0x06 => Some("Photoelectric Sensor"),
        0x07 => Some("General Purpose Discrete I/O"),
        0x09 => Some("Resolver"),
        0x0c => Some("Communications Adapter"),
        0x0e => Some("Programmable Logic Controller"),
        _ => None,
    }
}

/// The name of a device type from 0x10 to 0x1f.
fn name_below_20(device_type: u16) -> Option<&'static str>
    ensures { text_in result ≡ name_below_20 device_type }
{
    match device_type {
        0x10 => Some("Position Controller"),
        0x13 => Some("DC Drive"),
        0x15 => Some("Contactor"),
        0x16 => Some("Motor Starter"),
        0x17 => Some("Softstart Starter"),
        0x18 => Some("Human-Machine Interface"),
        0x1a => Some("Mass Flow Controller"),
        0x1b => Some("Pneumatic Valve"),
        0x1c => Some("Vacuum Pressure Gauge"),
        0x1d => Some("Process Control Value"),
        0x1e => Some("Residual Gas Analyzer"),
        0x1f => Some("DC Power Generator"),
        _ => None,
    }
}

/// The name of a device type from 0x20 to 0x29.
fn name_below_2a(device_type: u16) -> Option<&'static str>
    ensures { text_in result ≡ name_below_2a device_type }
{
    match device_type {
        0x20 => Some("RF Power Generator"),
        0x21 => Some("Turbomolecular Vacuum Pump"),
        0x22 => Some("Encoder"),
        0x23 => Some("Safety Discrete I/O Device"),
        0x24 => Some("Fluid Flow Controller"),
        0x25 => Some("CIP Motion Drive"),
        0x26 => Some("CompoNet Repeater"),
        0x27 => Some("Mass Flow Controller, Enhanced"),
        0x28 => Some("CIP Modbus Device"),
        0x29 => Some("CIP Modbus Translator"),
        _ => None,
    }
}

/// The name of a device type from 0x2a on.
fn name_from_2a(device_type: u16) -> Option<&'static str>
    ensures { text_in result ≡ name_from_2a device_type }
{
    match device_type {
        0x2a => Some("Safety Analog I/O Device"),
        0x2b => Some("Generic Device (keyable)"),
        0x2c => Some("Managed Ethernet Switch"),
        0x2d => Some("CIP Motion Safety Drive"),
        0x2e => Some("Safety Drive"),
        0x2f => Some("CIP Motion Encoder"),
        0x30 => Some("CIP Motion Converter"),
        0x31 => Some("CIP Motion I/O"),
        0x32 => Some("ControlNet Physical Layer Component"),
        0x33 => Some("Circuit Breaker"),
        0x34 => Some("HART Device"),
        0x35 => Some("CIP-HART Translator"),
        0xc8 => Some("Embedded Component"),
        _ => None,
    }
}

/// The name of a device type in quotes, or its number if it has no name.
#[derive(Clone, Copy)]
pub(crate) struct DeviceTypeField {
    pub(crate) name: Option<&'static str>,
    pub(crate) device_type: u16,
}

impl fmt::Display for DeviceTypeField {
    ghost use Rattle.std.specs.Prelude.{Some};
    ghost use Rattle.enip_eds.specs.DeviceTypes.{device_type_field};
    ghost use Rattle.enip_eds.specs.Texts.{text_in};

    ghost output = { λ t. Some (device_type_field (text_in t.name) t.device_type) };

    fn fmt<W: fmt::Write>(&self, f: &mut fmt::Formatter<W>) -> fmt::Result {
        match self.name {
            Some(name) => write!(f, "\"{name}\""),
            None => write!(f, "\"Device type {}\"", self.device_type),
        }
    }
}
