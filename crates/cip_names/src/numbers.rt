//! Numbers as arguments give them.

ghost use Rattle.std.specs.Prelude.{◌≡◌, ◌≤◌, ◌<◌, ◌^◌, ◌↔◌, IsTrue, MatchOption, ℕ};
ghost use Rattle.std.specs.Char.{is_digit};
ghost use Rattle.std.specs.List.{list_all};
ghost use Rattle.std.specs.Str.Parse.{IsNumeral, digits_value, without_leading_plus};
ghost use Rattle.cip_names.specs.Numbers.{Gives, IsGiven};

/// The number that a text gives, if it is from `least` to `most`: decimal digits, or `0x` and hexadecimal digits.
///
/// ```
/// parse_number("0x64", 0, 255) // Some(100)
/// parse_number("100", 0, 99) // None
/// ```
pub fn parse_number(text: &str, least: u64, most: u64) -> Option<u64>
    ensures { IsGiven least most text.now result }
{
    let Some(number) = number_of(text) else {
        return None;
    };
    if number < least || most < number {
        return None;
    }
    Some(number)
}

/// The number that a text gives, if it has 64 bits.
fn number_of(text: &str) -> Option<u64>
    ensures { MatchOption result ((number : ℕ) → Gives text.now number → number < 2 ^ 64 → ⊥)
        (λ number. Gives text.now number) }
{
    match text.strip_prefix("0x") {
        Some(digits) => hexadecimal(digits),
        None => decimal(text),
    }
}

/// The number that hexadecimal digits give.
fn hexadecimal(digits: &str) -> Option<u64>
    ensures { MatchOption result (IsNumeral 16 digits.now → digits_value 16 digits.now < 2 ^ 64 → ⊥)
        (λ number. IsNumeral 16 digits.now × (number ≡ digits_value 16 digits.now)) }
{
    if !are_digits(digits.as_bytes()) {
        return None;
    }
    u64::from_str_radix(digits, 16).ok()
}

/// The number that decimal digits give, perhaps after a plus sign.
fn decimal(text: &str) -> Option<u64>
    ensures { MatchOption result (IsNumeral 10 (without_leading_plus text.now)
        → digits_value 10 (without_leading_plus text.now) < 2 ^ 64 → ⊥)
        (λ number. IsNumeral 10 (without_leading_plus text.now) × (number ≡ digits_value 10 (without_leading_plus text.now))) }
{
    u64::from_str_radix(text, 10).ok()
}

/// Whether every byte is a hexadecimal digit.
fn are_digits(bytes: &[u8]) -> bool
    ensures { result ≡ list_all (λ byte. is_digit byte 16) bytes.now }
{
    bytes.iter().all(|byte| is_digit(*byte))
}

/// Whether a byte is a hexadecimal digit.
fn is_digit(byte: u8) -> bool
    ensures { result ≡ is_digit byte 16 }
{
    char::from(byte).is_digit(16)
}
