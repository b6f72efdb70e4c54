//! The rules of a device: who may connect, who may change something, and how much one address may take.
//! Text: docs/PROGRAM.md, "Who may read, who may write".

ghost use Rattle.std.specs.Prelude.{◌≡◌};
ghost use Rattle.enip_access.specs.Access.{is_listed, is_allowed, list_seen, permission_of, share_or};

use crate::prefix::Prefix;
use arrayvec::ArrayVec;

/// How many rules a list has at most.
pub const LONGEST_LIST: usize = 64;

/// A list of rules.
pub type PrefixList = ArrayVec<Prefix, LONGEST_LIST>;

/// What an address that may connect may do.
#[derive(Clone, Copy, Debug, PartialEq, Eq)]
pub enum Permission {
    /// Whatever changes nothing.
    Read,
    /// Everything.
    Write,
}

/// The rules of a device.
///
/// ```
/// let access = Access { read: None, write: None, per_address: None, connections_per_address: None };
/// access.permission_of(1) // Some(Permission::Write): without lists, everybody may do everything
/// ```
#[derive(Debug, Drop)]
pub struct Access {
    /// Who may connect. `None` is everybody, and an empty list nobody.
    pub read: Option<PrefixList>,
    /// Who may connect and also change something. `None` is whoever may connect, and an empty list nobody.
    pub write: Option<PrefixList>,
    /// How many peers one address may have at a time, 1 to 16. `None` is no limit.
    pub per_address: Option<u16>,
    /// How many class 3 connections one address may have at a time, 1 to 64. `None` is no limit.
    pub connections_per_address: Option<u16>,
}

impl Access {
    /// What an address may do, given as a number. `None` if it may not connect.
    ///
    /// Without a list `write`, whoever may connect may change something. An address of the list `write` may connect,
    /// whether or not it is in the list `read` too.
    ///
    /// ```
    /// access.permission_of(address_number(address)) // Some(Permission::Read)
    /// ```
    pub fn permission_of(&self, address: u128) -> Option<Permission>
        ensures { result ≡ permission_of self.now address }
    {
        match &self.write {
            Some(write) if is_listed(write.as_slice(), address) => return Some(Permission::Write),
            _ => {}
        }
        if !is_allowed(&self.read, address) {
            return None;
        }
        match &self.write {
            Some(_) => Some(Permission::Read),
            None => Some(Permission::Write),
        }
    }

    /// How many peers one address may have at a time: 16 without a limit, as many as any device serves.
    pub fn peers_per_address(&self) -> u16
        ensures { result ≡ share_or 16 self.now.per_address }
    {
        match self.per_address {
            Some(share) => share,
            None => 16,
        }
    }

    /// How many class 3 connections one address may have at a time: 64 without a limit, as many as any device has.
    pub fn most_connections_per_address(&self) -> u16
        ensures { result ≡ share_or 64 self.now.connections_per_address }
    {
        match self.connections_per_address {
            Some(share) => share,
            None => 64,
        }
    }
}

/// Whether one of the rules has the address.
fn is_listed(rules: &[Prefix], address: u128) -> bool
    ensures { result ≡ is_listed rules.now address }
{
    rules.iter().any(|rule| rule.matches(address))
}

/// Whether a list, or a list that is left out, has the address.
fn is_allowed(list: &Option<PrefixList>, address: u128) -> bool
    ensures { result ≡ is_allowed (list_seen list.now) address }
{
    match list {
        Some(rules) => is_listed(rules.as_slice(), address),
        None => true,
    }
}
