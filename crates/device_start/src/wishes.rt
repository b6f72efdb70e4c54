//! What the one who starts a device wants of what is kept.

use cip_names::{CLASSES, number_or_name, parse_number};
use std::alloc::{AllocError, Global};

/// What the one who starts a device wants of what FILE of `--keep` has.
#[derive(Clone, Copy, Debug)]
pub struct StartWishes<'a> {
    /// The command ledger and the queue are emptied.
    pub drops_commands: bool,
    /// Each value that the configuration does not allow any more becomes the configured one.
    pub accepts_config: bool,
    /// The attributes that become the configured ones: class, instance and attribute with `/` between them, and a comma
    /// between several.
    pub resets: Option<&'a str>,
}

impl StartWishes<'_> {
    /// Nobody wants anything, as if FILE is only read.
    pub(crate) const NONE: StartWishes<'static> = StartWishes {
        drops_commands: false,
        accepts_config: false,
        resets: None,
    };

    /// The keys of the values that are put back.
    pub(crate) fn reset_keys(&self, alloc: Global) -> Result<Vec<u64>, AllocError> {
        let mut keys = Vec::new(alloc);
        if let Some(text) = self.resets {
            for name in text.split(',') {
                if let Some(key) = key_of_attribute(name) {
                    keys.push(key)?;
                }
            }
        }
        Ok(keys)
    }
}

/// Whether a text names attributes, as `--reset-value` takes them.
///
/// ```
/// assert!(are_attributes("0x300/1/1,768/1/2"));
/// assert!(!are_attributes("768/1"));
/// ```
pub fn are_attributes(text: &str) -> bool {
    text.split(',').all(|name| key_of_attribute(name).is_some())
}

/// The key of the value of an attribute that a text such as `768/1/2` names.
fn key_of_attribute(text: &str) -> Option<u64> {
    let mut parts = text.split('/');
    let class = number_or_name(parts.next()?, 0xffff, &CLASSES)?;
    let instance = parse_number(parts.next()?, 0, 0xffff)?;
    let attribute = parse_number(parts.next()?, 0, 0xffff)?;
    if parts.next().is_some() {
        return None;
    }
    let (class, instance, attribute) = (
        u16::try_from(class).ok()?,
        u16::try_from(instance).ok()?,
        u16::try_from(attribute).ok()?,
    );
    Some(u64::from(class) * 0x1_0000_0000 + u64::from(instance) * 0x1_0000 + u64::from(attribute))
}
