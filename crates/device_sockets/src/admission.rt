//! What the address of a client decides: whether it may connect, what it may do, and for whom the shares count.
//! Text: docs/PROGRAM.md, "Who may read, who may write".

ghost use Rattle.std.specs.Prelude.{◌≡◌};
ghost use Rattle.device_sockets.specs.Admission.{admitted, rights_for};

use enip_access::{Access, Permission};
use enip_adapter::Rights;

/// What a client that is admitted may do.
#[derive(Clone, Copy)]
pub struct Admission {
    /// What it may do.
    pub rights: Rights,
    /// For whom the shares count. `None` without the table `access`.
    pub group: Option<u128>,
}

/// What a client at this address may do, given as a number. `None` if it may not connect. Without rules, everybody may
/// write and nobody has a share.
pub fn admit(rules: &Option<Access>, address: u128) -> Option<Admission>
    ensures { result ≡ admitted rules.now address }
{
    let Some(rules) = rules else {
        return Some(Admission {
            rights: Rights::Write,
            group: None,
        });
    };
    match rules.permission_of(address) {
        Some(permission) => Some(Admission {
            rights: rights_for(permission),
            group: Some(address),
        }),
        None => None,
    }
}

/// The rights of a permission.
fn rights_for(permission: Permission) -> Rights
    ensures { result ≡ rights_for permission }
{
    match permission {
        Permission::Read => Rights::Read,
        Permission::Write => Rights::Write,
    }
}
