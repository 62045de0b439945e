//! The one line of what a run writes that says most: the first line of its last answer.
ghost use Rattle.std.specs.Prelude.{◌≡◌, IfOk, map};
ghost use Rattle.std.specs.String.{string_bytes};
ghost use Rattle.tcc_batch.specs.Headlines.{begins_answer, headline, last_beginning, lines_of};

use std::alloc::{AllocError, Global};
use tcc_txn::NoMemory;

/// Whether a line is the first one of an answer, or the line of what comes in the place of one.
fn begins_answer(line: &[u8]) -> bool
    ensures { result ≡ begins_answer line.now }
{
    line.starts_with(b"consistent: ")
        || line.starts_with(b"anomaly: ")
        || line.starts_with(b"unresolved: ")
        || line.starts_with(b"row ")
        || line.starts_with(b"memory")
}

/// What is between the line feeds of a text.
fn lines_of(alloc: Global, text: &[u8]) -> Result<Vec<&[u8]>, AllocError>
    ensures { IfOk result (λ lines. map (λ line. line.now) lines.items ≡ lines_of text.now) }
{
    text.split(|byte| *byte == b'\n').collect(alloc)
}

/// The last of the lines that begins an answer.
fn last_beginning<'a>(lines: &[&'a [u8]]) -> &'a [u8]
    ensures { result.now ≡ last_beginning (map (λ line. line.now) lines.now) }
{
    let mut found: &'a [u8] = b"";
    for line in lines {
        if begins_answer(line) {
            found = line;
        }
    }
    found
}

/// The last line of the text that begins an answer.
pub(crate) fn headline(alloc: Global, text: &[u8]) -> Result<String, NoMemory>
    ensures { IfOk result (λ line. string_bytes line ≡ headline text.now) }
{
    let lines = lines_of(alloc, text)?;
    let line = Vec::from_slice(alloc, last_beginning(&lines))?;
    match String::from_utf8(line) {
        Ok(line) => Ok(line),
        // What a run writes is ASCII.
        Err(_) => Err(NoMemory),
    }
}
