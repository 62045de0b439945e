//! The lengths that a header line begins with.
ghost use Rattle.std.specs.Prelude.{◌≡◌, ◌==◌, ◌-◌, ◌^◌, MatchOption, false, min, position, true};
ghost use Rattle.std.specs.Option.{option_copied};
ghost use Rattle.std.specs.Str.{all_ascii_digits};
ghost use Rattle.std.specs.Str.Parse.{digits_value};
ghost use Rattle.tcc_requests.specs.Headers.{cut, length_of, lengths_in, total};

/// The most bytes of a body.
pub const MAX_BODY_BYTES: u64 = 1_073_741_824;

/// How many bytes a body has.
#[derive(Clone, Copy)]
pub(crate) struct Lengths {
    /// Those of the records.
    pub records: u32,
    /// Those of the certificate after them, where there is one.
    pub certificate: Option<u32>,
}

impl Lengths {
    /// How many these are together.
    pub(crate) fn total(&self) -> u64
        ensures { result ≡ total self.now }
    {
        u64::from(self.records) + u64::from(self.certificate.unwrap_or(0))
    }
}

/// Where the first of this byte is.
fn first_at(bytes: &[u8], byte: u8) -> Option<usize>
    ensures { result ≡ position (λ other. other == byte) bytes.now }
{
    bytes.iter().position(|other| *other == byte)
}

/// The bytes before the first of this byte, and those after it.
pub(crate) fn cut(bytes: &[u8], byte: u8) -> (&[u8], Option<&[u8]>)
    ensures front { result.0.now ≡ (cut byte bytes.now).0 }
    ensures back { option_copied result.1 ≡ (cut byte bytes.now).1 }
{
    match first_at(bytes, byte) {
        Some(at) => (&bytes[..at], Some(&bytes[at + 1..])),
        None => (bytes, None),
    }
}

/// The number that some digits write, or the greatest of 64 bits where it is above that.
fn saturated(digits: &[u8]) -> Option<u64>
    ensures { MatchOption result (all_ascii_digits digits.now ≡ false)
        (λ value. (all_ascii_digits digits.now ≡ true) × (value ≡ min (digits_value 10 digits.now) (2 ^ 64 - 1))) }
{
    let mut value: u64 = 0;
    for digit in digits {
        if !digit.is_ascii_digit() {
            return None;
        }
        value = value
            .saturating_mul(10)
            .saturating_add(u64::from(*digit - b'0'));
    }
    Some(value)
}

/// The length that a word writes.
fn length_of(word: &[u8]) -> Option<u32>
    ensures { result ≡ length_of word.now }
{
    match word {
        [] | [b'0', _, ..] => None,
        _ => match saturated(word) {
            Some(value) => u32::try_from(value).ok(),
            None => None,
        },
    }
}

/// The lengths that a word writes: that of the records, and after a plus that of a certificate.
pub(crate) fn lengths_of(word: &[u8]) -> Option<Lengths>
    ensures { result ≡ lengths_in (cut 43 word.now) }
{
    let (records, certificate) = cut(word, b'+');
    let records = length_of(records)?;
    match certificate {
        Some(certificate) => {
            let certificate = Some(length_of(certificate)?);
            Some(Lengths {
                records,
                certificate,
            })
        }
        None => Some(Lengths {
            records,
            certificate: None,
        }),
    }
}
