//! Hexadecimal digits, with spaces anywhere.

ghost use Rattle.std.specs.Prelude.{◌≡◌, true, is_some, IfOk, IfErr, OnOk, Some};
ghost use Rattle.std.specs.Result.{result_ok};
ghost use Rattle.hex.specs.Hex.{decode_of};
ghost use Rattle.enip_lines.specs.Digits.{without_spaces, bytes_spelled};
ghost use Rattle.enip_faults.specs.Statuses.{IsOfDevices};

use enip_faults::ProgramFault;

/// Decodes hexadecimal digits, two per byte, and replaces the contents of `bytes` with the result. Spaces are ignored
/// anywhere. Returns false if `text` is not hexadecimal; `bytes` is then unspecified. An empty text is hexadecimal.
///
/// `digits` is a scratch buffer for the text without its spaces.
///
/// # Errors
///
/// `Memory` if memory is refused.
pub fn decode(text: &[u8], digits: &mut Vec<u8>, bytes: &mut Vec<u8>) -> Result<bool, ProgramFault>
    ensures read { IfOk result (λ spelled. spelled ≡ is_some (bytes_spelled text.now)) }
    ensures bytes { IfOk result (λ spelled. spelled ≡ true → bytes_spelled text.now ≡ Some bytes.new.items) }
    ensures refused { IfErr result IsOfDevices }
    ensures memory { IfErr result (λ fault. fault ≡ ProgramFault.Memory) }
{
    if !text.contains(&b' ') {
        return decode_digits(text, bytes);
    }
    copy_digits(text, digits)?;
    decode_digits(digits.as_slice(), bytes)
}

/// Copies a text without its spaces into `digits`.
fn copy_digits(text: &[u8], digits: &mut Vec<u8>) -> Result<(), ProgramFault>
    ensures copied { OnOk result (digits.new.items ≡ without_spaces text.now) }
    ensures refused { IfErr result IsOfDevices }
    ensures memory { IfErr result (λ fault. fault ≡ ProgramFault.Memory) }
{
    digits.clear();
    for byte in text {
        if *byte != b' ' {
            digits.push(*byte)?;
        }
    }
    Ok(())
}

/// Decodes hexadecimal digits without spaces. Returns false if the text is not hexadecimal.
fn decode_digits(digits: &[u8], bytes: &mut Vec<u8>) -> Result<bool, ProgramFault>
    ensures read { IfOk result (λ spelled. spelled ≡ is_some (result_ok (decode_of digits.now))) }
    ensures bytes { IfOk result (λ spelled. spelled ≡ true → result_ok (decode_of digits.now) ≡ Some bytes.new.items) }
    ensures refused { IfErr result IsOfDevices }
    ensures memory { IfErr result (λ fault. fault ≡ ProgramFault.Memory) }
{
    if digits.len() % 2 != 0 {
        return Ok(false);
    }
    bytes.resize(digits.len() / 2, 0)?;
    Ok(hex::decode_to_slice(digits, bytes.as_mut_slice()).is_ok())
}
