//! The connection that a client opens.

/// The parameters of the connection that a client opens. (Volume 1, Forward_Open.)
///
/// ```
/// let wants = Wants { connection_serial: 2, ..USUAL_WANTS };
/// ```
#[derive(Clone, Copy, Debug)]
pub struct Wants {
    /// The originator's vendor ID.
    pub originator_vendor: u16,
    /// The originator's serial number.
    pub originator_serial: u32,
    /// The connection serial number, which the originator chooses.
    pub connection_serial: u16,
    /// The connection ID from target to originator.
    pub t_to_o_id: u32,
    /// The requested packet interval (RPI) of both directions, in microseconds.
    pub rpi: u32,
    /// The timeout multiplier: the timeout is RPI x 4 x 2^multiplier.
    pub timeout_multiplier: u8,
    /// The size of an item from originator to target in bytes, including its sequence count: 4 to 4,002.
    pub o_to_t_size: u16,
    /// The size of an item from target to originator in bytes, including its sequence count: 10 to 4,002.
    pub t_to_o_size: u16,
    /// The sequence count of the first request.
    pub first_count: u16,
}

/// The usual connection: items of 500 bytes both ways, an interval of 2 s, and a timeout of 8 s. (Volume 1, Forward_Open.)
pub const USUAL_WANTS: Wants = Wants {
    originator_vendor: 66,
    originator_serial: 305_419_896,
    connection_serial: 1,
    t_to_o_id: 287_454_020,
    rpi: 2_000_000,
    timeout_multiplier: 0,
    o_to_t_size: 500,
    t_to_o_size: 500,
    first_count: 1,
};
