//! Seconds as an argument gives them.

ghost use Rattle.std.specs.Prelude.{◌≤◌, IfSome};

/// Our own limit, in microseconds: an hour.
const MAX: u64 = 3_600_000_000;

/// The most digits after the point: those of a microsecond.
const MAX_DECIMALS: usize = 6;

/// The microseconds of a decimal number of seconds, up to an hour. The number may have a point with up to six digits
/// after it. `None` if the text is not such a number.
pub fn microseconds_of(text: &str) -> Option<u64>
    ensures { IfSome result (λ n. n ≤ 3_600_000_000) }
{
    let (whole, fraction) = match text.split_once('.') {
        Some(parts) => parts,
        None => (text, "0"),
    };
    if fraction.len() > MAX_DECIMALS {
        return None;
    }
    let mut microseconds = number_of(fraction)?;
    for _ in fraction.len()..MAX_DECIMALS {
        microseconds = microseconds.checked_mul(10)?;
    }
    let sum = number_of(whole)?
        .checked_mul(1_000_000)?
        .checked_add(microseconds)?;
    if sum <= MAX { Some(sum) } else { None }
}

/// The number that one or more decimal digits spell.
fn number_of(digits: &str) -> Option<u64> {
    if digits.is_empty() || !digits.bytes().all(|byte| byte.is_ascii_digit()) {
        return None;
    }
    digits.parse().ok()
}
