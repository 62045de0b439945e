//! The next request of a stream.
ghost use Rattle.std.specs.Prelude.{◌≡◌, ◌≤◌, Option, IfOk, IfSome};
ghost use Rattle.tcc_requests.specs.declared.question.Question.{Question};
ghost use Rattle.tcc_requests.specs.declared.header.TheConstants.{MAX_BODY_BYTES};
ghost use Rattle.tcc_requests.specs.{Headers.total, Requests.IsNext, Requests.IsTurn, Requests.next_of_line, Requests.with_body, private.Reading.HasCertificate, private.Reading.IsPassed};

use crate::body::{Part, read_part};
use crate::header::{Lengths, MAX_BODY_BYTES, cut, lengths_of};
use crate::line::{LineEnd, MAX_HEADER_BYTES, read_line};
use crate::question::{Question, asked_of};
use crate::request::{Refusal, Request, Turn};
use std::alloc::{AllocError, Global};
use std::io::{self, Read};

/// Passes over the next `count` bytes, and says why: for this reason, or since the stream ended before.
fn refuse<R: Read>(reader: &mut R, count: u64, why: Refusal) -> io::Result<Refusal>
    ensures { IfOk result (λ said. IfSome (R.remaining reader.old) (λ bytes. IsPassed count bytes why said (R.remaining reader.new))) }
{
    match read_part(reader, count, None)? {
        Part::Cut => Ok(Refusal::Cut),
        Part::Held(_) | Part::Passed => Ok(why),
    }
}

/// Reads the certificate of a request after its records.
fn take_certificate<R: Read>(
    alloc: Global,
    reader: &mut R,
    count: u64,
    question: Question,
    records: Vec<u8>,
) -> io::Result<Turn>
    ensures { IfOk result (λ turn. IfSome (R.remaining reader.old) (λ bytes. HasCertificate question records.items count bytes turn (R.remaining reader.new))) }
{
    match read_part(reader, count, Some(Vec::new(alloc)))? {
        Part::Held(certificate) => Ok(Turn::Asked(Request {
            question,
            records,
            certificate,
        })),
        Part::Passed => Ok(Turn::Refused(Refusal::Memory)),
        Part::Cut => Ok(Turn::Refused(Refusal::Cut)),
    }
}

/// Reads a request of a known question, whose body isn't too long.
fn take<R: Read>(
    alloc: Global,
    reader: &mut R,
    lengths: Lengths,
    question: Question,
) -> io::Result<Turn>
    requires { total lengths ≤ MAX_BODY_BYTES }
    ensures { IfOk result (λ turn. IfSome (R.remaining reader.old) (λ bytes. IsTurn (with_body lengths (Some question) bytes) turn (R.remaining reader.new))) }
{
    let certificate = u64::from(lengths.certificate.unwrap_or(0));
    match read_part(reader, u64::from(lengths.records), Some(Vec::new(alloc)))? {
        Part::Held(records) => take_certificate(alloc, reader, certificate, question, records),
        Part::Passed => Ok(Turn::Refused(refuse(reader, certificate, Refusal::Memory)?)),
        Part::Cut => Ok(Turn::Refused(Refusal::Cut)),
    }
}

/// Reads the body of a request, or passes over it.
fn take_asked<R: Read>(
    alloc: Global,
    reader: &mut R,
    lengths: Lengths,
    asked: Result<Option<Question>, AllocError>,
) -> io::Result<Turn>
    ensures { IfOk result (λ turn. IfSome (R.remaining reader.old) (λ bytes. (question : Option Question) → IfOk asked (λ known. known ≡ question)
        → IsTurn (with_body lengths question bytes) turn (R.remaining reader.new))) }
{
    let count = lengths.total();
    if count > MAX_BODY_BYTES {
        refuse(reader, count, Refusal::TooLong)?;
        return Ok(Turn::Refused(Refusal::TooLong));
    }
    match asked {
        Ok(Some(question)) => take(alloc, reader, lengths, question),
        Ok(None) => Ok(Turn::Refused(refuse(reader, count, Refusal::Unknown)?)),
        Err(_) => Ok(Turn::Refused(refuse(reader, count, Refusal::Memory)?)),
    }
}

/// Reads the body that a header line announces, if it can be read.
fn take_line<R: Read>(alloc: Global, reader: &mut R, line: &[u8]) -> io::Result<Turn>
    ensures { IfOk result (λ turn. IfSome (R.remaining reader.old) (λ bytes. IsTurn (next_of_line line.now bytes) turn (R.remaining reader.new))) }
{
    let (word, words) = cut(line, b' ');
    match lengths_of(word) {
        Some(lengths) => {
            let asked = asked_of(alloc, lengths.certificate.is_some(), words);
            take_asked(alloc, reader, lengths, asked)
        }
        None => Ok(Turn::Refused(Refusal::Header)),
    }
}

/// Takes the next request of the reader. There is none where its bytes have ended before it. A request that is refused is passed over,
/// where its header line has the lengths of its body.
pub fn next_turn<R: Read>(alloc: Global, reader: &mut R) -> io::Result<Option<Turn>>
    ensures { IfOk result (λ turn. IfSome (R.remaining reader.old) (λ bytes. IsNext bytes turn (R.remaining reader.new))) }
{
    let mut line = [0; MAX_HEADER_BYTES];
    let end = read_line(reader, &mut line)?;
    match end {
        LineEnd::Feed(count) => Ok(Some(take_line(alloc, reader, &line[..count])?)),
        LineEnd::Nothing => Ok(None),
        LineEnd::Unfinished => Ok(Some(Turn::Refused(Refusal::Header))),
    }
}
