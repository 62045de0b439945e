//! How the text of version 3 is written.
ghost use Rattle.std.specs.Prelude.{◌≡◌, ℕ, List, [], ◌∷◌, OnOk, OnErr, take, map, codes, decimal, length};
ghost use Rattle.std.specs.Io.KnownBytes.{Appends};
ghost use Rattle.tcc_cert.specs.{private.Writing.IsSent, Texts.line_text, Texts.lines_text};
ghost use Rattle.tcc_cert.specs.LargeTexts.{large_certificate_text, large_claim_lines, large_header_of, large_header_words, least_lines, links_claim_lines, run_words, runs_claim_lines, runs_lines};

use crate::lines::{Word, line, number_line};
use crate::outgoing::Outgoing;
use crate::writing::{cycle_sizes, link_lines};
use crate::{CertWriteFault, LargeCertificate, LinksClaim, Run, Runs, RunsClaim};
use std::io::{self, Write};
use tcc_graph::Level;

/// `s k`
fn run_line<W: Write>(outgoing: &mut Outgoing, out: &mut W, run: &Run) -> io::Result<()>
    ensures { IsSent result (W.contents out.old) outgoing.old (W.contents out.new) outgoing.new (line_text (run_words run.now)) }
{
    number_line(outgoing, out, &[run.session, run.count])
}

/// A line for each run.
fn run_lines<W: Write>(outgoing: &mut Outgoing, out: &mut W, runs: &[Run]) -> io::Result<()>
    ensures { IsSent result (W.contents out.old) outgoing.old (W.contents out.new) outgoing.new (lines_text (map run_words runs.now)) }
{
    for run in runs {
        run_line(outgoing, out, run)?;
    }
    Ok(())
}

/// A line for each run, and the last line.
fn runs_to_end<W: Write>(outgoing: &mut Outgoing, out: &mut W, runs: &Runs) -> io::Result<()>
    ensures { IsSent result (W.contents out.old) outgoing.old (W.contents out.new) outgoing.new (lines_text (runs_lines runs.now)) }
{
    run_lines(outgoing, out, runs.as_slice())?;
    line(outgoing, out, b"end", &[])
}

/// What a claim of an order says after the first line.
fn order<W: Write>(outgoing: &mut Outgoing, out: &mut W, claim: &RunsClaim) -> io::Result<()>
    ensures { IsSent result (W.contents out.old) outgoing.old (W.contents out.new) outgoing.new (lines_text (runs_claim_lines claim.now)) }
{
    let sizes = [
        Word::Number(claim.transactions as usize),
        Word::Number(claim.sessions as usize),
        Word::Number(claim.runs.as_slice().len()),
    ];
    line(outgoing, out, b"order", &sizes)?;
    runs_to_end(outgoing, out, &claim.runs)
}

/// What is claimed of leastness, and the last line.
fn least<W: Write>(outgoing: &mut Outgoing, out: &mut W, least: &Option<Runs>) -> io::Result<()>
    ensures { IsSent result (W.contents out.old) outgoing.old (W.contents out.new) outgoing.new (lines_text (least_lines least.now)) }
{
    match least {
        None => line(outgoing, out, b"end", &[]),
        Some(runs) => {
            let many = Word::Number(runs.as_slice().len());
            line(outgoing, out, b"least", &[many])?;
            runs_to_end(outgoing, out, runs)
        }
    }
}

/// What a claim of a cycle says after the first line.
fn cycle<W: Write>(outgoing: &mut Outgoing, out: &mut W, claim: &LinksClaim) -> io::Result<()>
    ensures { IsSent result (W.contents out.old) outgoing.old (W.contents out.new) outgoing.new (lines_text (links_claim_lines claim.now)) }
{
    let many = claim.links.as_slice().len();
    cycle_sizes(outgoing, out, claim.transactions as usize, many, claim.cost)?;
    link_lines(outgoing, out, &claim.links)?;
    least(outgoing, out, &claim.least)
}

/// The line that names the version and the level.
fn header_line<W: Write>(outgoing: &mut Outgoing, out: &mut W, level: Level) -> io::Result<()>
    ensures { IsSent result (W.contents out.old) outgoing.old (W.contents out.new) outgoing.new (line_text (large_header_words level)) }
{
    let level = match level {
        Level::Causal => Word::Text(b"causal"),
        Level::Atomic => Word::Text(b"atomic"),
    };
    line(
        outgoing,
        out,
        b"tcc-certificate",
        &[Word::Text(b"3"), level],
    )
}

/// The level of a claim.
fn level_of(certificate: &LargeCertificate) -> Level
    ensures { large_header_words result ≡ large_header_of certificate.now }
{
    match certificate {
        LargeCertificate::Order(claim) => claim.level,
        LargeCertificate::Cycle(claim) => claim.level,
    }
}

/// What a claim says after the first line.
fn claim<W: Write>(
    outgoing: &mut Outgoing,
    out: &mut W,
    certificate: &LargeCertificate,
) -> io::Result<()>
    ensures { IsSent result (W.contents out.old) outgoing.old (W.contents out.new) outgoing.new (lines_text (large_claim_lines certificate.now)) }
{
    match certificate {
        LargeCertificate::Order(claim) => order(outgoing, out, claim),
        LargeCertificate::Cycle(claim) => cycle(outgoing, out, claim),
    }
}

/// The whole text.
fn whole<W: Write>(out: &mut W, certificate: &LargeCertificate) -> io::Result<()>
    ensures whole { OnOk result (Appends (W.contents out.old) (W.contents out.new) (large_certificate_text certificate.now)) }
    ensures part { OnErr result ((n : ℕ) × Appends (W.contents out.old) (W.contents out.new) (take n (large_certificate_text certificate.now))) }
{
    let mut outgoing = Outgoing::new();
    header_line(&mut outgoing, out, level_of(certificate))?;
    claim(&mut outgoing, out, certificate)?;
    outgoing.finish(out)
}

/// Writes the text of a certificate in version 3. Where a write fails, a part of the text was written, from its front. An
/// interrupted write and one that takes no bytes are failures too.
pub fn write_large<W: Write>(
    certificate: &LargeCertificate,
    out: &mut W,
) -> Result<(), CertWriteFault>
    ensures whole { OnOk result (Appends (W.contents out.old) (W.contents out.new) (large_certificate_text certificate.now)) }
    ensures part { OnErr result ((n : ℕ) × Appends (W.contents out.old) (W.contents out.new) (take n (large_certificate_text certificate.now))) }
{
    whole(out, certificate)?;
    Ok(())
}
