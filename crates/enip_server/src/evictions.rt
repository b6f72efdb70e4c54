//! Which peer gives way to a new client if all slots are taken.
//! Text: docs/PROGRAM.md, "`enip serve`".

ghost use Rattle.std.specs.Prelude.{◌≡◌, ◌<◌, length, IfSome};
ghost use Rattle.enip_server.specs.Evictions.{longer, longest_silent, silent_in};

use crate::peer_io::PeerIo;
use crate::wire::Wire;
use enip_adapter::Adapter;

/// For how long a peer without a session has sent nothing when it may give way, in microseconds.
pub const EVICTION_SILENCE: u64 = 10_000_000;

/// A slot whose peer may give way.
#[derive(Clone, Copy)]
pub(crate) struct Silent {
    /// The index of the slot.
    pub(crate) slot: usize,
    /// When the last byte of its peer arrived, or when the peer began.
    pub(crate) since: u64,
}

/// Of these slots, the one whose peer may give way and has been silent longest.
pub(crate) fn longest_silent<W: Wire>(
    slots: &[Option<PeerIo<W>>],
    adapter: &Adapter,
    now: u64,
) -> Option<Silent>
    ensures found { result ≡ longest_silent adapter.now now slots.now }
    ensures within { IfSome result (λ silent. silent.slot < length slots.now) }
{
    let Some((slot, others)) = slots.split_first() else {
        return None;
    };
    let first = silent_in(slot, adapter, now);
    match longest_silent(others, adapter, now) {
        Some(silent) => longer(
            first,
            Silent {
                slot: silent.slot + 1,
                since: silent.since,
            },
        ),
        None => first,
    }
}

/// The first of some slots, if its peer may give way.
fn silent_in<W: Wire>(slot: &Option<PeerIo<W>>, adapter: &Adapter, now: u64) -> Option<Silent>
    ensures found { result ≡ silent_in adapter.now now slot.now }
    ensures first { IfSome result (λ silent. silent.slot ≡ 0) }
{
    match slot {
        Some(io) if io.may_give_way(adapter, now) => Some(Silent {
            slot: 0,
            since: io.last_byte_at(),
        }),
        _ => None,
    }
}

/// Of a slot, if there is one, and another: the one that is silent longer, the first if both are for as long.
fn longer(first: Option<Silent>, other: Silent) -> Option<Silent>
    ensures { result ≡ longer first (Some other) }
{
    match first {
        Some(first) if first.since <= other.since => Some(first),
        _ => Some(other),
    }
}
