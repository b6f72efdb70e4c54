//! How long a command waits before it asks again for the result of a queued command.

ghost use Rattle.std.specs.Prelude.{◌≤◌};

/// The first pause, in milliseconds (ours).
const FIRST_PAUSE: u64 = 10;

/// The longest pause, in milliseconds (ours).
const LONGEST_PAUSE: u64 = 1_000;

/// The pause after the last one, in milliseconds: the first one, or twice the last one, up to a second.
pub(crate) fn next_pause(last: Option<u64>) -> u64
    ensures least { 10 ≤ result }
    ensures most { result ≤ 1000 }
{
    match last {
        Some(last) => last.saturating_add(last).clamp(FIRST_PAUSE, LONGEST_PAUSE),
        None => FIRST_PAUSE,
    }
}
