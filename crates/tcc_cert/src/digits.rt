//! Numbers as a line has them, each after a space, set into bytes that have room for them.
ghost use Rattle.std.specs.Prelude.{◌≡◌, ◌≤◌, ◌+◌, ◌*◌, ◌++◌, codes, decimal, flat_map, length, take};
ghost use Rattle.tcc_cert.specs.declared.digits.TheConstants.{NUMBER_BYTES};

use itoa::Buffer;

/// The most bytes that a number of 32 bits takes, with the space before it.
pub(crate) const NUMBER_BYTES: usize = 11;

/// Sets these bytes, and returns where they end.
fn set(bytes: &mut [u8], at: usize, piece: &[u8]) -> usize
    requires { at + length piece.now ≤ length bytes.old }
    ensures end { result ≡ at + length piece.now }
    ensures long { length bytes.new ≡ length bytes.old }
    ensures text { take result bytes.new ≡ take at bytes.old ++ piece.now }
{
    let end = at + piece.len();
    bytes[at..end].copy_from_slice(piece);
    end
}

/// Sets a number after a space, and returns where it ends. Most numbers of a row have one digit or two.
fn set_number(bytes: &mut [u8], at: usize, number: u32) -> usize
    requires { at + NUMBER_BYTES ≤ length bytes.old }
    ensures end { result ≤ at + NUMBER_BYTES }
    ensures long { length bytes.new ≡ length bytes.old }
    ensures text { take result bytes.new ≡ take at bytes.old ++ (codes " " ++ decimal number) }
{
    if number < 10 {
        set(bytes, at, &[b' ', b'0' + number as u8])
    } else if number < 100 {
        let tens = b'0' + (number / 10) as u8;
        set(bytes, at, &[b' ', tens, b'0' + (number % 10) as u8])
    } else if number < 1000 {
        let front = number / 10;
        let tens = b'0' + (front % 10) as u8;
        set(
            bytes,
            at,
            &[
                b' ',
                b'0' + (front / 10) as u8,
                tens,
                b'0' + (number % 10) as u8,
            ],
        )
    } else {
        let begun = set(bytes, at, b" ");
        set(bytes, begun, Buffer::new().format(number).as_bytes())
    }
}

/// Sets numbers, each after a space, and returns where they end.
pub(crate) fn set_numbers(bytes: &mut [u8], at: usize, numbers: &[u32]) -> usize
    requires { at + NUMBER_BYTES * length numbers.now ≤ length bytes.old }
    ensures end { result ≤ at + NUMBER_BYTES * length numbers.now }
    ensures long { length bytes.new ≡ length bytes.old }
    ensures text { take result bytes.new ≡ take at bytes.old ++ flat_map (λ number. codes " " ++ decimal number) numbers.now }
{
    let mut end = at;
    for number in numbers {
        end = set_number(bytes, end, *number);
    }
    end
}
