//! How a text is written: the one loop that writes.
ghost use Rattle.std.specs.Prelude.{ℕ, OnOk, OnErr, take};
ghost use Rattle.std.specs.Io.KnownBytes.{Appends};

use std::io::{self, ErrorKind, Write};

/// Writes all bytes, and leaves the flush to the caller. It fails where `send` does.
pub fn write_out<W: Write>(out: &mut W, text: &[u8]) -> io::Result<()>
    ensures whole { OnOk result (Appends (W.contents out.old) (W.contents out.new) text.now) }
    ensures part { OnErr result ((n : ℕ) × Appends (W.contents out.old) (W.contents out.new) (take n text.now)) }
{
    let mut sent = 0;
    while sent < text.len() {
        match out.write(&text[sent..])? {
            0 => return Err(io::Error::from(ErrorKind::WriteZero)),
            taken => sent += taken,
        }
    }
    Ok(())
}

/// Sends the whole text. An interrupted write and one that takes no bytes are failures too. At a failure a prefix of the text
/// has been written.
pub fn send<W: Write>(out: &mut W, text: &[u8]) -> io::Result<()>
    ensures whole { OnOk result (Appends (W.contents out.old) (W.contents out.new) text.now) }
    ensures part { OnErr result ((n : ℕ) × Appends (W.contents out.old) (W.contents out.new) (take n text.now)) }
{
    write_out(out, text)?;
    out.flush()
}
