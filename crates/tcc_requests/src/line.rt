//! The header line of a request.
ghost use Rattle.std.specs.Prelude.{IfOk};
ghost use Rattle.tcc_requests.specs.private.Reading.{EndsLine, IsByte};

use std::io::{self, Read};

/// A header line has fewer bytes than this, without its line feed.
pub const MAX_HEADER_BYTES: usize = 256;

/// How a line ends.
#[derive(Clone, Copy)]
pub(crate) enum LineEnd {
    /// By a line feed, after this many bytes.
    Feed(usize),
    /// The stream has ended before it.
    Nothing,
    /// The stream ends within it, or it is too long.
    Unfinished,
}

/// The next byte, if there is one.
fn read_byte<R: Read>(reader: &mut R) -> io::Result<Option<u8>>
    ensures { IfOk result (λ byte. IsByte (R.remaining reader.old) (R.remaining reader.new) byte) }
{
    let mut byte = [0; 1];
    if reader.read(&mut byte)? == 0 {
        Ok(None)
    } else {
        Ok(Some(byte[0]))
    }
}

/// Reads the bytes of a line to the front of `line`, and the line feed.
pub(crate) fn read_line<R: Read>(reader: &mut R, line: &mut [u8]) -> io::Result<LineEnd>
    ensures { IfOk result (λ end. EndsLine (R.remaining reader.old) (R.remaining reader.new) line.new end) }
{
    for at in 0..line.len() {
        match read_byte(reader)? {
            None if at == 0 => return Ok(LineEnd::Nothing),
            None => return Ok(LineEnd::Unfinished),
            Some(b'\n') => return Ok(LineEnd::Feed(at)),
            Some(byte) => line[at] = byte,
        }
    }
    Ok(LineEnd::Unfinished)
}
