//! The replies to requests: a line with the status and the lengths of four texts, and then the texts.
ghost use Rattle.std.specs.Prelude.{◌≡◌, IfOk};
ghost use Rattle.std.specs.Vec.{vec_len};
ghost use Rattle.tcc_requests.specs.Replies.{refusal_reply, reply_head, reply_text};

use crate::request::Refusal;
use std::alloc::{AllocError, Global};

/// What is replied to a request: how its run ended, and what it wrote.
#[derive(Drop)]
pub struct Reply {
    pub status: u8,
    pub answer: Vec<u8>,
    pub certificate: Vec<u8>,
    pub slice: Vec<u8>,
    /// What the run noted for a person who reads it.
    pub notes: Vec<u8>,
}

/// The first line of a reply.
fn head(alloc: Global, reply: &Reply) -> Result<Vec<u8>, AllocError>
    ensures { IfOk result (λ line. line.items ≡ reply_head reply.now.status (vec_len reply.now.answer) (vec_len reply.now.certificate)
        (vec_len reply.now.slice) (vec_len reply.now.notes)) }
{
    let status = reply.status;
    let answer = reply.answer.len();
    let certificate = reply.certificate.len();
    let slice = reply.slice.len();
    let notes = reply.notes.len();
    let line = format!(in alloc; "{status} {answer} {certificate} {slice} {notes}\n")?;
    Ok(line.into_bytes())
}

/// A reply as it is written.
pub fn reply_text(alloc: Global, reply: &Reply) -> Result<Vec<u8>, AllocError>
    ensures { IfOk result (λ text. text.items ≡ reply_text reply.now.status reply.now.answer.items reply.now.certificate.items
        reply.now.slice.items reply.now.notes.items) }
{
    let mut text = head(alloc, reply)?;
    text.extend_from_slice(&reply.answer)?;
    text.extend_from_slice(&reply.certificate)?;
    text.extend_from_slice(&reply.slice)?;
    text.extend_from_slice(&reply.notes)?;
    Ok(text)
}

/// The reply to a request that is refused, as it is written.
pub fn refusal_reply(why: Refusal) -> &'static [u8]
    ensures { result.now ≡ refusal_reply why }
{
    match why {
        Refusal::Header => b"64 16 0 0 0\nrefused: header\n",
        Refusal::Cut => b"64 13 0 0 0\nrefused: cut\n",
        Refusal::TooLong => b"64 18 0 0 0\nrefused: too long\n",
        Refusal::Unknown => b"64 17 0 0 0\nrefused: unknown\n",
        Refusal::Memory => b"5 7 0 0 0\nmemory\n",
    }
}
