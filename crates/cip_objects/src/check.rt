//! Checks that several services share.
ghost use Rattle.std.specs.Prelude.{◌≡◌};
ghost use Rattle.cip_objects.specs.Check.{check_size};

use crate::status::Refusal;

/// Checks that a service's data have exactly this many bytes.
pub(crate) fn check_size(size: usize, content: &[u8]) -> Result<(), Refusal>
    ensures { result ≡ check_size size content.now }
{
    // Not enough data: 0x13. Too much data: 0x15.
    if content.len() < size {
        return Err(Refusal::NotEnoughData);
    }
    if size < content.len() {
        return Err(Refusal::TooMuchData);
    }
    Ok(())
}
