//! The services of the objects.
ghost use Rattle.std.specs.Prelude.{◌≡◌};

/// A service of some object (Volume 1, common services; Add and Clear are the counter's own).
#[derive(Clone, Copy)]
pub(crate) enum Service {
    /// Reads all attributes, joined. Of Identity it reads 1 to 7.
    GetAttributesAll,
    /// Reads a list of attributes, each with its status.
    GetAttributeList,
    /// Sets a list of attributes.
    SetAttributeList,
    /// Reads one attribute.
    GetAttributeSingle,
    /// Sets one attribute.
    SetAttributeSingle,
    /// Reads one member of the data of an assembly.
    GetMember,
    /// Sets one member of the data of an assembly.
    SetMember,
    /// Adds to the counter.
    Add,
    /// Sets the counter to 0.
    Clear,
}

impl Service {
    ghost use Rattle.cip_objects.specs.Service.{service_code};

    /// The service's code in a request.
    pub(crate) fn code(self) -> u8
        ensures { result ≡ service_code self }
    {
        match self {
            Service::GetAttributesAll => 0x01,
            Service::GetAttributeList => 0x03,
            Service::SetAttributeList => 0x04,
            Service::GetAttributeSingle => 0x0e,
            Service::SetAttributeSingle => 0x10,
            Service::GetMember => 0x18,
            Service::SetMember => 0x19,
            Service::Add => 0x32,
            Service::Clear => 0x33,
        }
    }
}
