//! Bytes of an input as they are shown.
ghost use Rattle.std.specs.Prelude.{◌≡◌, ◌++◌, OnOk, take};
ghost use Rattle.tcc_print.specs.RowNotes.{byte_shown, is_plain, quoted};

use tcc_answer::pieces::push;
use tcc_txn::NoMemory;

/// How many bytes are shown.
const MOST_SHOWN: usize = 48;

/// The digits of a byte's value.
const DIGITS: &[u8; 16] = b"0123456789abcdef";

/// The first bytes, at most this many.
fn first_bytes(bytes: &[u8], most: usize) -> &[u8]
    ensures { result.now ≡ take most bytes.now }
{
    if bytes.len() > most {
        &bytes[..most]
    } else {
        bytes
    }
}

/// The bytes that are shown, and one more, where there is one, by which it shows that there are more.
pub(super) fn shown_and_more(bytes: &[u8]) -> &[u8]
    ensures { result.now ≡ take 49 bytes.now }
{
    first_bytes(bytes, MOST_SHOWN + 1)
}

/// Whether a byte is shown as it is: a printable one that means nothing between quotes.
fn is_plain(byte: u8) -> bool
    ensures { result ≡ is_plain byte }
{
    b' ' <= byte && byte <= b'~' && byte != b'"' && byte != b'\\'
}

/// Adds a byte: a plain one as it is, any other by its value.
fn push_byte(text: &mut Vec<u8>, byte: u8) -> Result<(), NoMemory>
    ensures { OnOk result (text.new.items ≡ text.old.items ++ byte_shown byte) }
{
    if is_plain(byte) {
        return push(text, &[&[byte]]);
    }
    let high = DIGITS[(byte / 16) as usize];
    let low = DIGITS[(byte % 16) as usize];
    push(text, &[b"\\x", &[high, low]])
}

/// Adds the bytes between quotes, the first of them if they are many.
pub(super) fn push_quoted(text: &mut Vec<u8>, bytes: &[u8]) -> Result<(), NoMemory>
    ensures { OnOk result (text.new.items ≡ text.old.items ++ quoted bytes.now) }
{
    push(text, &[b"\""])?;
    for byte in first_bytes(bytes, MOST_SHOWN) {
        push_byte(text, *byte)?;
    }
    let end: &[u8] = if bytes.len() > MOST_SHOWN {
        b"\" .."
    } else {
        b"\""
    };
    push(text, &[end])
}
