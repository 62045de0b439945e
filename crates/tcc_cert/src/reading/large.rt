//! How the text of version 3 is read.
ghost use Rattle.std.specs.Prelude.{◌≡◌, IfSome, OnOk, is_ok};
ghost use Rattle.tcc_cert.specs.{private.Inputs.AsBefore, private.Inputs.Gives, private.Inputs.GivesSuch, InputBytes.IsAt, Outcomes.IsLargeReading, Taken.IsClaimTaken, declared.ranges.TheConstants.MAX_HEADER_BYTES};
ghost use Rattle.tcc_cert.specs.Reading.{Position, next};
ghost use Rattle.tcc_reads.specs.History.{History};
ghost use Rattle.tcc_cert.specs.LargeReading.{large_behind_header, large_certificate_at, large_header_line, least_at, links_claim_at, runs_at};

use super::forms::{CycleSizes, Sizes};
use super::input::{Input, at_line};
use super::large_forms::{FooterLine, LargeOrderSizes};
use super::large_reader::LargeReader;
use super::links::entries;
use super::mark;
use super::taking::give_links;
use super::words::next_line;
use crate::ranges::{MAX_HEADER_BYTES, TextFormat};
use crate::{
    CertFault, CertFaultKind, LargeCertificate, LargeHead, LinksHead, LinksSizes, Run, Runs,
    RunsClaim, TakesLinks,
};
use std::alloc::Global;
use std::io::Read;
use tcc_graph::Level;

/// `count` runs, and the last line.
fn runs<R: Read>(alloc: Global, input: &mut Input<R>, count: u32) -> Result<Runs, CertFault>
    ensures works { OnOk result (AsBefore input.old input.new) }
    ensures gives { (at : Position) → IsAt R.remaining input.old at → Gives R.remaining at (runs_at count at) result input.new }
{
    let runs = entries::<Run, R>(alloc, input, TextFormat::Large, count)?;
    mark(alloc, input, TextFormat::Large, b"end")?;
    Ok(runs)
}

/// What comes after the line that follows the last link.
fn least<R: Read>(
    alloc: Global,
    input: &mut Input<R>,
    tail: FooterLine,
) -> Result<Option<Runs>, CertFault>
    ensures works { OnOk result (AsBefore input.old input.new) }
    ensures gives { (at : Position) → IsAt R.remaining input.old at → Gives R.remaining at (least_at tail at) result input.new }
{
    match tail {
        FooterLine::Least { runs: count } => Ok(Some(runs(alloc, input, count)?)),
        FooterLine::End => Ok(None),
    }
}

/// The claim of a cycle, after its sizes, whose links are taken.
fn cycle<S: TakesLinks, R: Read>(
    alloc: Global,
    input: &mut Input<R>,
    sizes: LinksSizes,
    taker: &mut S,
) -> Result<LargeHead, CertFault>
    ensures works { OnOk result (AsBefore input.old input.new) }
    ensures gives { (at : Position) (h : History) → IsAt R.remaining input.old at → S.ready taker.old h
        → GivesSuch R.remaining at (links_claim_at sizes.level sizes.transactions sizes.links sizes.cost at) (IsClaimTaken (S.took taker.new h)) result input.new }
    ensures ready { (h : History) → S.ready taker.old h → S.ready taker.new h }
{
    taker.start(sizes);
    give_links(alloc, input, sizes.links, taker)?;
    let tail = next_line::<FooterLine, R>(alloc, input, TextFormat::Large)?;
    let least = least(alloc, input, tail)?;
    Ok(LargeHead::Cycle(LinksHead { sizes, least }))
}

/// What comes after the first line.
fn claim<S: TakesLinks, R: Read>(
    alloc: Global,
    input: &mut Input<R>,
    level: Level,
    taker: &mut S,
) -> Result<LargeHead, CertFault>
    ensures works { OnOk result (AsBefore input.old input.new) }
    ensures gives { (at : Position) (h : History) → IsAt R.remaining input.old at → S.ready taker.old h
        → GivesSuch R.remaining at (large_behind_header (level, at)) (IsClaimTaken (S.took taker.new h)) result input.new }
    ensures ready { (h : History) → S.ready taker.old h → S.ready taker.new h }
{
    match next_line::<Sizes<LargeOrderSizes>, R>(alloc, input, TextFormat::Large)? {
        Sizes::Order(sizes) => {
            let runs = runs(alloc, input, sizes.runs)?;
            Ok(LargeHead::Order(RunsClaim {
                level,
                transactions: sizes.transactions,
                sessions: sizes.sessions,
                runs,
            }))
        }
        Sizes::Cycle(sizes) => {
            let sizes = LinksSizes {
                level,
                transactions: sizes.transactions,
                links: sizes.links,
                cost: sizes.cost,
            };
            cycle(alloc, input, sizes, taker)
        }
    }
}

/// The level that the first line says.
fn header_line(line: &[u8]) -> Result<Level, CertFaultKind>
    ensures { result ≡ large_header_line line.now }
{
    if line == b"tcc-certificate 3 causal".as_slice() {
        Ok(Level::Causal)
    } else if line == b"tcc-certificate 3 atomic".as_slice() {
        Ok(Level::Atomic)
    } else {
        Err(CertFaultKind::Header)
    }
}

/// Whether this is a first line of version 3.
pub(crate) fn is_header(line: &[u8]) -> bool
    ensures { result ≡ is_ok (large_header_line line.now) }
{
    header_line(line).is_ok()
}

/// The first line.
fn header<R: Read>(input: &mut Input<R>) -> Result<Level, CertFault>
    ensures works { OnOk result (AsBefore input.old input.new) }
    ensures gives { (at : Position) → IsAt R.remaining input.old at → Gives R.remaining at (next MAX_HEADER_BYTES large_header_line at) result input.new }
{
    let line = input.next(MAX_HEADER_BYTES)?;
    at_line(line, header_line(input.line()))
}

/// A certificate, up to its last line, whose links are taken.
pub(crate) fn certificate<S: TakesLinks, R: Read>(
    alloc: Global,
    input: &mut Input<R>,
    taker: &mut S,
) -> Result<LargeHead, CertFault>
    ensures works { OnOk result (AsBefore input.old input.new) }
    ensures gives { (at : Position) (h : History) → IsAt R.remaining input.old at → S.ready taker.old h
        → GivesSuch R.remaining at (large_certificate_at at) (IsClaimTaken (S.took taker.new h)) result input.new }
    ensures ready { (h : History) → S.ready taker.old h → S.ready taker.new h }
{
    let level = header(input)?;
    claim(alloc, input, level, taker)
}

/// Reads the certificate of version 3 whose text the reader gives, with nothing after it, or returns the first line with a
/// fault. The first line has at most 8,191 bytes and a line feed, each other at most 127. Where the reader fails, the fault
/// is `Read` at the line that was wanted then, unless a line before it has another. A text may have any number of bytes. It
/// is for callers that want the certificate as a value. To go through its links once, use a `LargeReader`.
pub fn read_large<R: Read + Drop>(alloc: Global, reader: R) -> Result<LargeCertificate, CertFault>
    ensures { IfSome (R.remaining reader) (λ bytes. IsLargeReading bytes result) }
{
    LargeReader::over(Input::new(reader)).read(alloc)
}
