//! Who sees the device after each frame of a peer.

ghost use Rattle.cip_ledger.specs.Device.{Device};
ghost use Rattle.enip_server.specs.Watching.{IsAfterFrame};

use enip_adapter::Adapter;

/// Sees the device after each frame of a peer, before the next one is fed. So it can report each change on its own, and
/// on whose wire the frame arrived.
///
/// ```
/// impl<W: HasAddress> Watcher<W> for SetLog {
///     // each set of assembly 101 has an entry
///     ghost has_seen = { λ log device. log.count ≡ sets_in device };
///
///     fn served(&mut self, wire: &W, adapter: &Adapter) {
///         let count = adapter.changes(101);
///         if count != self.count {
///             self.count = count;
///             self.add(wire.address(), adapter.objects().attribute(4, 101, 3));
///         }
///     }
/// }
/// ```
pub trait Watcher<W> {
    // Whether all that led to this device was seen.
    ghost has_seen: { Self → Device → Type 0 };

    /// Bytes of the peer on this wire were fed, up to the end of one frame. `adapter` is what they left. If they
    /// completed a frame, it was served, and its answer was written, as far as the wire took it.
    ///
    /// If the watcher had seen all that led to the device before this one frame, it has seen all that led to the device
    /// after it. So a server has to call it after each frame: two frames at once may be too much for a watcher.
    fn served(&mut self, wire: &W, adapter: &Adapter)
        ensures { (before : Device) → IsAfterFrame before adapter.now.state.shared.objects →
            has_seen self.old before → has_seen self.new adapter.now.state.shared.objects };
}

/// Nobody watches the device.
#[derive(Clone, Copy, Debug)]
pub struct NoWatcher;

impl<W> Watcher<W> for NoWatcher {
    ghost use Rattle.std.specs.Prelude.{⊤};

    ghost has_seen = { λ watcher device. ⊤ };

    fn served(&mut self, wire: &W, adapter: &Adapter) {
        let _ = wire;
        let _ = adapter;
    }
}
