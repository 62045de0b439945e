//! Words that write numbers.
ghost use Rattle.std.specs.Prelude.{[], ◌∷◌, ◌≡◌, ◌-◌, ◌^◌, false, min, true, MatchOption};
ghost use Rattle.std.specs.Str.{all_ascii_digits};
ghost use Rattle.std.specs.Str.Parse.{digits_value};
ghost use Rattle.tcc_cert.specs.Reading.{is_decimal, number_of};

use crate::CertFaultKind;

/// The number that some digits write, or the greatest of 64 bits where it is above that.
fn saturated(digits: &[u8]) -> Option<u64>
    ensures { MatchOption result (all_ascii_digits digits.now ≡ false)
        (λ value. (all_ascii_digits digits.now ≡ true) × (value ≡ min (digits_value 10 digits.now) (2 ^ 64 - 1))) }
{
    let mut value: u64 = 0;
    for digit in digits {
        if !digit.is_ascii_digit() {
            return None;
        }
        value = value
            .saturating_mul(10)
            .saturating_add(u64::from(*digit - b'0'));
    }
    Some(value)
}

/// The value of one digit, where it is one.
fn one_digit(digit: u8) -> Option<u64>
    ensures { MatchOption result (all_ascii_digits (digit ∷ []) ≡ false)
        (λ value. (all_ascii_digits (digit ∷ []) ≡ true) × (value ≡ min (digits_value 10 (digit ∷ [])) (2 ^ 64 - 1))) }
{
    if digit.is_ascii_digit() {
        Some(u64::from(digit - b'0'))
    } else {
        None
    }
}

/// The value of two digits, where both are digits.
fn two_digits(tens: u8, ones: u8) -> Option<u64>
    ensures { MatchOption result (all_ascii_digits (tens ∷ ones ∷ []) ≡ false)
        (λ value. (all_ascii_digits (tens ∷ ones ∷ []) ≡ true) × (value ≡ min (digits_value 10 (tens ∷ ones ∷ [])) (2 ^ 64 - 1))) }
{
    if tens.is_ascii_digit() && ones.is_ascii_digit() {
        Some(u64::from(tens - b'0') * 10 + u64::from(ones - b'0'))
    } else {
        None
    }
}

/// The value of digits without leading zeros, or the greatest number where it has no room.
fn decimal(word: &[u8]) -> Option<u64>
    ensures { MatchOption result (is_decimal word.now ≡ false)
        (λ value. (is_decimal word.now ≡ true) × (value ≡ min (digits_value 10 word.now) (2 ^ 64 - 1))) }
{
    match word {
        [] | [b'0', _, ..] => None,
        [digit] => one_digit(*digit),
        [tens, ones] => two_digits(*tens, *ones),
        _ => saturated(word),
    }
}

/// A number from `least` to `most`.
pub(crate) fn number_of(word: &[u8], least: u32, most: u32) -> Result<u32, CertFaultKind>
    ensures { result ≡ number_of least most word.now }
{
    let Some(value) = decimal(word) else {
        return Err(CertFaultKind::Number);
    };
    if value < u64::from(least) {
        Err(CertFaultKind::Number)
    } else if value > u64::from(most) {
        Err(CertFaultKind::TooLarge)
    } else {
        Ok(value as u32)
    }
}
