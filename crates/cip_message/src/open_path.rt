//! The path of a Forward_Open request (Volume 1, Connection Manager).

ghost use Rattle.std.specs.Prelude.{◌≡◌, ◌↔◌, Some};
ghost use Rattle.cip_message.specs.declared.open_path.OpenPath.{OpenPath};
ghost use Rattle.cip_message.specs.OpenPath.{IsOpenPath, open_path_of, with_key as with_key_by};
ghost use Rattle.cip_message.specs.PathReading.{path_of};

use crate::key::{KEY_SEGMENT, KEY_SIZE, Key, read_key};
use crate::path::{Path, read_path};

/// The path of an open request: which device it expects, if a key says so, and which object it opens.
#[derive(Clone, Copy, Debug, PartialEq, Eq)]
pub struct OpenPath {
    /// The electronic key, if one comes before the path.
    pub key: Option<Key>,
    /// The path of the object.
    pub path: Path,
}

/// Reads all of the bytes as an optional key followed by a path. `None` if they are anything else.
pub fn read_open_path(bytes: &[u8]) -> Option<OpenPath>
    // An open path is read if and only if the bytes spell it.
    ensures open_path { (o : OpenPath) → (result ≡ Some o) ↔ IsOpenPath o bytes.now }
    ensures exact { result ≡ open_path_of bytes.now }
{
    open_path_at(bytes)
}

/// Reads an optional key and a path: the computation.
#[tactic(auto, unfolding(crate::specs::OpenPath::open_path_of))]
fn open_path_at(bytes: &[u8]) -> Option<OpenPath>
    ensures { result ≡ open_path_of bytes.now }
{
    // Only a key may come before the path.
    if bytes.is_empty() || bytes[0] != KEY_SEGMENT[0] {
        return with_key(None, bytes);
    }
    if bytes.len() < KEY_SIZE {
        return None;
    }
    let key = read_key(&bytes[..KEY_SIZE])?;
    with_key(Some(key), &bytes[KEY_SIZE..])
}

/// The key, if any, with the path that the bytes spell.
fn with_key(key: Option<Key>, bytes: &[u8]) -> Option<OpenPath>
    ensures { result ≡ with_key_by key (path_of bytes.now) }
{
    match read_path(bytes) {
        Ok(path) => Some(OpenPath { key, path }),
        Err(_) => None,
    }
}
