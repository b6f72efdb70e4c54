//! Wires that give out a frame only once it is admitted.

ghost use Rattle.std.specs.Prelude.{ℕ, List, Option, ◌≡◌, option_map};

use crate::wire::Wire;

/// A wire that gives out a frame only once it is admitted (`Peers::admit_frames`): a `FrameWire`, or one inside a
/// `HeldWire`.
///
/// ```
/// if wire.frame_waiting() == Some(frame) {
///     wire.admit(); // the next reads give out the frame
/// }
/// ```
pub trait GatedWire: Wire {
    // The bytes up to the end of the frame that waits, if one does.
    ghost waiting: { Self → Option (List ℕ) };

    // The wire once the frame that waits is admitted.
    ghost admitted: { Self → Self };

    /// The bytes up to the end of the frame that waits, if one does and could be read at once if it were admitted.
    fn frame_waiting(&self) -> Option<&[u8]>
        ensures { option_map (λ bytes. bytes.now) result ≡ waiting self.now };

    /// Admits the frame that waits: reads give it out.
    fn admit(&mut self)
        ensures { self.new ≡ admitted self.old };

    // Nothing is read by that, and nothing written.
    ghost unread: { (w : Self) → Self.left (admitted w) ≡ Self.left w };

    ghost unwritten: { (w : Self) → Self.written (admitted w) ≡ Self.written w };
}
