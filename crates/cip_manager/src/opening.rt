//! What a Forward_Open or a Large_Forward_Open asks for, and its checks (Volume 1, Connection Manager).
//! Text: docs/PROTOCOL.md, "Connections: opened, closed, timed out".
ghost use Rattle.std.specs.Prelude.{◌≡◌, ℕ, OnOk};
ghost use Rattle.cip_message.specs.Open.{view, large_view, view_by};
ghost use Rattle.cip_manager.specs.Check.{first_failure};
ghost use Rattle.cip_manager.specs.Opening.{direction_of, large_direction_of, opening_of, large_opening_of};
ghost use Rattle.cip_manager.specs.Opening.{opening_with, is_point_to_point, is_size, key_refusal, is_message_router};
ghost use Rattle.cip_manager.specs.Opening.{path_checks, field_checks, CanBeOpened};

use crate::connection::Triad;
use cip_bytes::protocol::{
    ExtendedStatus, LARGEST_CONNECTION_SIZE, MESSAGE_ROUTER, SMALLEST_O_TO_T_SIZE,
    SMALLEST_T_TO_O_SIZE,
};
use cip_message::{
    Device, Key, LargeParameters, OpenPath, OpenRequest, Parameters, Path, read_open_path,
};

/// The greatest timeout multiplier: 512 times the RPI.
const GREATEST_TIMEOUT_MULTIPLIER: u8 = 7;

/// What an opening asks for in one direction.
#[derive(Clone, Copy)]
pub struct Direction {
    /// The requested packet interval (RPI), in microseconds.
    pub rpi: u32,
    /// The connection type. 2 is point to point.
    pub connection_type: u8,
    /// The connection size: the most bytes of an item, including its sequence count.
    pub size: u16,
}

impl Direction {
    fn of(rpi: u32, parameters: Parameters) -> Direction
        ensures { result ≡ direction_of rpi parameters.bits }
    {
        Direction {
            rpi,
            connection_type: parameters.connection_type(),
            size: parameters.size(),
        }
    }

    fn of_large(rpi: u32, parameters: LargeParameters) -> Direction
        ensures { result ≡ large_direction_of rpi parameters.bits }
    {
        Direction {
            rpi,
            connection_type: parameters.connection_type(),
            size: parameters.size(),
        }
    }

    fn is_point_to_point(self) -> bool
        ensures { result ≡ is_point_to_point self }
    {
        self.connection_type == 2
    }

    fn has_size_from(self, least: u16) -> bool
        ensures { result ≡ is_size least LARGEST_CONNECTION_SIZE self }
    {
        least <= self.size && usize::from(self.size) <= LARGEST_CONNECTION_SIZE
    }
}

/// What an opening asks for, in either layout.
#[derive(Clone, Copy)]
pub struct Opening {
    pub t_to_o_id: u32,
    pub triad: Triad,
    /// The timeout is O->T RPI x 4 x 2^multiplier.
    pub timeout_multiplier: u8,
    pub o_to_t: Direction,
    pub t_to_o: Direction,
    /// Whether the target is the server.
    pub is_server: bool,
    pub transport_class: u8,
    /// The optional key and the path, or `None` if the bytes are anything else.
    pub path: Option<OpenPath>,
}

impl Opening {
    /// What a Forward_Open asks for.
    pub fn of(request: &OpenRequest<'_>) -> Opening
        ensures { result ≡ opening_of (view request.now) }
    {
        let o_to_t = Direction::of(request.o_to_t_rpi, request.o_to_t_parameters);
        let t_to_o = Direction::of(request.t_to_o_rpi, request.t_to_o_parameters);
        Opening::with_directions(o_to_t, t_to_o, request)
    }

    /// What a Large_Forward_Open asks for.
    pub fn of_large(request: &OpenRequest<'_, LargeParameters>) -> Opening
        ensures { result ≡ large_opening_of (large_view request.now) }
    {
        let o_to_t = Direction::of_large(request.o_to_t_rpi, request.o_to_t_parameters);
        let t_to_o = Direction::of_large(request.t_to_o_rpi, request.t_to_o_parameters);
        Opening::with_directions(o_to_t, t_to_o, request)
    }

    /// What a request asks for, with these two directions.
    fn with_directions<P>(
        o_to_t: Direction,
        t_to_o: Direction,
        request: &OpenRequest<'_, P>,
    ) -> Opening
        ensures { (bits : P → ℕ) → result ≡ opening_with o_to_t t_to_o (view_by bits request.now) }
    {
        Opening {
            t_to_o_id: request.t_to_o_id,
            triad: Triad {
                connection_serial: request.connection_serial,
                originator_vendor: request.originator_vendor,
                originator_serial: request.originator_serial,
            },
            timeout_multiplier: request.timeout_multiplier,
            o_to_t,
            t_to_o,
            is_server: request.transport.is_server(),
            transport_class: request.transport.class(),
            path: read_open_path(request.path),
        }
    }

    /// Checks the path: the key accepts this device, and the path leads to its Message Router.
    pub fn check_path(&self, device: &Device) -> Result<(), ExtendedStatus>
        ensures { result ≡ first_failure (path_checks device.now self.now) }
    {
        let Some(open_path) = &self.path else {
            return Err(ExtendedStatus::PathSegment);
        };
        if let Some(extended) = key_refusal(device, open_path.key) {
            return Err(extended);
        }
        if !is_message_router(&open_path.path) {
            return Err(ExtendedStatus::ApplicationPath);
        }
        Ok(())
    }

    /// Checks the other fields, which do not depend on the open connections.
    pub fn check_fields(&self) -> Result<(), ExtendedStatus>
        ensures check { result ≡ first_failure (field_checks self.now) }
        ensures can_be { OnOk result (CanBeOpened self.now) }
    {
        if !self.is_server || self.transport_class != 3 {
            return Err(ExtendedStatus::Transport);
        }
        if !self.o_to_t.is_point_to_point()
            || !self.t_to_o.is_point_to_point()
            || self.timeout_multiplier > GREATEST_TIMEOUT_MULTIPLIER
        {
            return Err(ExtendedStatus::ConnectionParameter);
        }
        if !self.o_to_t.has_size_from(SMALLEST_O_TO_T_SIZE)
            || !self.t_to_o.has_size_from(SMALLEST_T_TO_O_SIZE)
        {
            return Err(ExtendedStatus::ConnectionSize);
        }
        if self.o_to_t.rpi == 0 {
            return Err(ExtendedStatus::Rpi);
        }
        Ok(())
    }
}

/// The extended status with which the device refuses the key, if it does.
fn key_refusal(device: &Device, key: Option<Key>) -> Option<ExtendedStatus>
    ensures { result ≡ key_refusal device.now key }
{
    match key {
        Some(key) => device.accepts(&key),
        None => None,
    }
}

/// Whether the path leads to the Message Router: instance 1, with no attribute and no member.
fn is_message_router(path: &Path) -> bool
    ensures { result ≡ is_message_router path.now }
{
    path.class == MESSAGE_ROUTER
        && path.instance == 1
        && path.attribute.is_none()
        && path.member.is_none()
}
