//! The body of a request, read through a buffer, so that it can be passed over without memory.
ghost use Rattle.std.specs.Prelude.{◌≡◌, ◌<◌, ◌≤◌, IfOk, length, option_map, take};
ghost use Rattle.std.specs.Io.KnownBytes.{Consumes, IsAtEnd};
ghost use Rattle.tcc_requests.specs.private.Reading.{HasRead, IsHeld};

use std::io::{self, Read};

/// How many bytes are read at a time.
const PART_BYTES: usize = 8192;

/// Bytes of a body that were read.
#[derive(Drop)]
pub(crate) enum Part {
    /// All of them.
    Held(Vec<u8>),
    /// All of them came, but aren't held: they aren't wanted, or memory is out.
    Passed,
    /// The stream ended before.
    Cut,
}

/// Holds more bytes after those that are held. Once memory is refused none are.
fn hold(held: Option<Vec<u8>>, more: &[u8]) -> Option<Vec<u8>>
    ensures { IsHeld (option_map (λ bytes. bytes.items) held) more.now (option_map (λ bytes. bytes.items) result) }
{
    let mut bytes = held?;
    match bytes.extend_from_slice(more) {
        Ok(()) => Some(bytes),
        Err(_) => None,
    }
}

/// Reads at most `most` bytes to the front of the buffer.
fn read_some<R: Read>(reader: &mut R, buffer: &mut [u8], most: u64) -> io::Result<usize>
    requires wanted { 0 < most }
    requires room { 0 < length buffer.old }
    ensures bound { IfOk result (λ count. (count ≤ most) × (count ≤ length buffer.new)) }
    ensures bytes { IfOk result (λ count. Consumes (R.remaining reader.old) (R.remaining reader.new) (take count buffer.new)) }
    ensures end { IfOk result (λ count. count ≡ 0 → IsAtEnd (R.remaining reader.new)) }
{
    let count = (buffer.len() as u64).min(most) as usize;
    reader.read(&mut buffer[..count])
}

/// Reads the next `count` bytes, and holds them after those that are held.
pub(crate) fn read_part<R: Read>(
    reader: &mut R,
    count: u64,
    held: Option<Vec<u8>>,
) -> io::Result<Part>
    ensures { IfOk result (λ part. HasRead (R.remaining reader.old) (R.remaining reader.new) count (option_map (λ bytes. bytes.items) held) part) }
{
    let mut buffer = [0; PART_BYTES];
    let mut held = held;
    let mut left = count;
    while left > 0 {
        let taken = read_some(reader, &mut buffer, left)?;
        if taken == 0 {
            return Ok(Part::Cut);
        }
        held = hold(held, &buffer[..taken]);
        left -= taken as u64;
    }
    match held {
        Some(bytes) => Ok(Part::Held(bytes)),
        None => Ok(Part::Passed),
    }
}
