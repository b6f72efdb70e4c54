//! The class and the services of the command ledger, which a device and its clients share.

/// The class of the ledger, in the range of the vendor's own (ours).
pub const LEDGER: u16 = 0x65;

/// The most originators that a ledger has slots for.
pub const MOST_ORIGINATORS: u16 = 64;

/// Do_Once (ours): executes the embedded request, unless a command with this number was executed before.
pub const DO_ONCE: u8 = 0x4b;

/// Get_Last (ours): the number of an originator's last command, and its reply.
pub const GET_LAST: u8 = 0x4c;

/// Forget (ours): frees an originator's slot.
pub const FORGET: u8 = 0x4d;

/// Withdraw (ours): takes a pending command out of the queue of the router, if no owner was handed it, or uses a number up
/// that was not used.
pub const WITHDRAW: u8 = 0x4f;

/// Get_Slots (ours): whose slots are taken, and the number and the state of the last command in each.
pub const GET_SLOTS: u8 = 0x50;
