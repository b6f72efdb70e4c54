//! Times of which either may be missing.

ghost use Rattle.std.specs.Prelude.{◌≡◌, ◌≤◌, ◌⊎◌, Some, IfSome, IsSomeAnd};

/// The earlier of two times, either of which may be missing.
pub fn earlier(first: Option<u64>, second: Option<u64>) -> Option<u64>
    ensures first { IfSome first (λ time. IsSomeAnd result (λ t. t ≤ time)) }
    ensures second { IfSome second (λ time. IsSomeAnd result (λ t. t ≤ time)) }
    ensures either { IfSome result (λ t. (first ≡ Some t) ⊎ (second ≡ Some t)) }
{
    match (first, second) {
        (Some(first), Some(second)) => Some(first.min(second)),
        (Some(time), None) | (None, Some(time)) => Some(time),
        (None, None) => None,
    }
}
