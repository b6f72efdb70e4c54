//! The icon of a device.

ghost use Rattle.std.specs.Prelude.{◌≡◌, ◌∷◌, ◌↔◌, IsTrue};
ghost use Rattle.enip_eds.specs.Icons.{IsIcon};

/// The most bytes of an icon (our choice).
pub const ICON_LIMIT: usize = 65_536;

/// The fewest bytes of an icon: its head and an entry of its list of images.
const SMALLEST_ICON: usize = 22;

/// An icon: the name of its file, without folders, and the bytes of the file.
///
/// ```
/// let icon = Icon { name: b"demo.ico", bytes };
/// ```
#[derive(Clone, Copy, Debug)]
pub struct Icon<'a> {
    /// The name of its file.
    pub name: &'a [u8],
    /// The bytes of its file.
    pub bytes: &'a [u8],
}

/// Whether these are the bytes of an .ico file: at most 64 KiB that begin with the head of one, with at least one image.
///
/// ```
/// is_icon(b"GIF89a") // false
/// ```
pub fn is_icon(bytes: &[u8]) -> bool
    ensures { IsTrue result ↔ IsIcon bytes.now }
{
    match bytes {
        [0, 0, 1, 0, low, high, ..] => {
            (*low != 0 || *high != 0) && SMALLEST_ICON <= bytes.len() && bytes.len() <= ICON_LIMIT
        }
        _ => false,
    }
}
