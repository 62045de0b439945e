//! How a certificate's text is written.
ghost use Rattle.std.specs.Prelude.{◌≡◌, ℕ, List, [], ◌∷◌, ◌++◌, OnOk, OnErr, take, map, flat_map, codes, decimal, length};
ghost use Rattle.std.specs.Io.KnownBytes.{Appends};
ghost use Rattle.tcc_graph.specs.declared.step.Step.TheVariants as step;
ghost use Rattle.tcc_graph.specs.declared.link.Link.TheVariants as link;
ghost use Rattle.tcc_cert.specs.{declared.certificate.Certificate.TheVariants.Order, private.Writing.IsSent};
ghost use Rattle.tcc_cert.specs.Texts.{line_text, lines_text, step_words, link_lines, header_words, clocks_lines, order_lines, certificate_text};

use crate::cycle_writer::write_cycle;
use crate::lines::{Word, line, number_line, table};
use crate::outgoing::Outgoing;
use crate::{CertWriteFault, Certificate, Links, OrderClaim, Version};
use std::io::{self, Write};
use tcc_graph::{Level, Link, Step};
use tcc_txn::Name;

/// `S u v`
fn session<W: Write>(outgoing: &mut Outgoing, out: &mut W, from: u32, to: u32) -> io::Result<()>
    ensures { IsSent result (W.contents out.old) outgoing.old (W.contents out.new) outgoing.new (line_text (step_words (step.Session from to))) }
{
    let words = [Word::Number(from as usize), Word::Number(to as usize)];
    line(outgoing, out, b"S", &words)
}

/// `R u v KEY`
fn reads<W: Write>(
    outgoing: &mut Outgoing,
    out: &mut W,
    from: u32,
    to: u32,
    key: &Name,
) -> io::Result<()>
    ensures { IsSent result (W.contents out.old) outgoing.old (W.contents out.new) outgoing.new (line_text (step_words (step.Reads from to key.now))) }
{
    let words = [
        Word::Number(from as usize),
        Word::Number(to as usize),
        Word::Text(key.bytes()),
    ];
    line(outgoing, out, b"R", &words)
}

fn step<W: Write>(outgoing: &mut Outgoing, out: &mut W, step: &Step) -> io::Result<()>
    ensures { IsSent result (W.contents out.old) outgoing.old (W.contents out.new) outgoing.new (line_text (step_words step.now)) }
{
    match step {
        Step::Session { from, to } => session(outgoing, out, *from, *to),
        Step::Reads { from, to, key } => reads(outgoing, out, *from, *to, key),
    }
}

/// A line for each step.
fn steps<W: Write>(outgoing: &mut Outgoing, out: &mut W, steps: &[Step]) -> io::Result<()>
    ensures { IsSent result (W.contents out.old) outgoing.old (W.contents out.new) outgoing.new (lines_text (map step_words steps.now)) }
{
    for one in steps {
        step(outgoing, out, one)?;
    }
    Ok(())
}

/// `D b a KEY c W`, and a line for each of the W steps.
fn derived<W: Write>(
    outgoing: &mut Outgoing,
    out: &mut W,
    from: u32,
    to: u32,
    key: &Name,
    reader: u32,
    walk: &[Step],
) -> io::Result<()>
    ensures { IsSent result (W.contents out.old) outgoing.old (W.contents out.new) outgoing.new
        (lines_text (link_lines (link.Derived from to key.now reader walk.now))) }
{
    let words = [
        Word::Number(from as usize),
        Word::Number(to as usize),
        Word::Text(key.bytes()),
        Word::Number(reader as usize),
        Word::Number(walk.len()),
    ];
    line(outgoing, out, b"D", &words)?;
    steps(outgoing, out, walk)
}

fn link<W: Write>(outgoing: &mut Outgoing, out: &mut W, link: &Link) -> io::Result<()>
    ensures { IsSent result (W.contents out.old) outgoing.old (W.contents out.new) outgoing.new (lines_text (link_lines link.now)) }
{
    match link {
        Link::Session { from, to } => session(outgoing, out, *from, *to),
        Link::Reads { from, to, key } => reads(outgoing, out, *from, *to, key),
        Link::Derived {
            from,
            to,
            key,
            reader,
            walk,
        } => derived(outgoing, out, *from, *to, key, *reader, walk.as_slice()),
    }
}

/// The lines of each link.
pub(crate) fn link_lines<W: Write>(
    outgoing: &mut Outgoing,
    out: &mut W,
    links: &Links,
) -> io::Result<()>
    ensures { IsSent result (W.contents out.old) outgoing.old (W.contents out.new) outgoing.new (lines_text (flat_map link_lines links.now)) }
{
    for one in links.as_slice() {
        link(outgoing, out, one)?;
    }
    Ok(())
}

/// The clocks after their mark, and nothing where the level has none.
fn clocks<W: Write>(outgoing: &mut Outgoing, out: &mut W, claim: &OrderClaim) -> io::Result<()>
    ensures { IsSent result (W.contents out.old) outgoing.old (W.contents out.new) outgoing.new (lines_text (clocks_lines claim.now.level claim.now.clocks)) }
{
    match claim.level {
        Level::Causal => {
            line(outgoing, out, b"clocks", &[])?;
            table(outgoing, out, &claim.clocks)
        }
        Level::Atomic => Ok(()),
    }
}

/// What a claim of an order says after the first line.
fn order<W: Write>(outgoing: &mut Outgoing, out: &mut W, claim: &OrderClaim) -> io::Result<()>
    ensures { IsSent result (W.contents out.old) outgoing.old (W.contents out.new) outgoing.new (lines_text (order_lines claim.now)) }
{
    let order = claim.order.as_slice();
    let sizes = [
        Word::Number(order.len()),
        Word::Number(claim.sessions as usize),
    ];
    line(outgoing, out, b"order", &sizes)?;
    number_line(outgoing, out, order)?;
    clocks(outgoing, out, claim)?;
    line(outgoing, out, b"end", &[])
}

/// `cycle N M L`
pub(crate) fn cycle_sizes<W: Write>(
    outgoing: &mut Outgoing,
    out: &mut W,
    transactions: usize,
    links: usize,
    least: u32,
) -> io::Result<()>
    ensures { IsSent result (W.contents out.old) outgoing.old (W.contents out.new) outgoing.new
        (line_text (codes "cycle" ∷ decimal transactions ∷ decimal links ∷ decimal least ∷ [])) }
{
    let sizes = [
        Word::Number(transactions),
        Word::Number(links),
        Word::Number(least as usize),
    ];
    line(outgoing, out, b"cycle", &sizes)
}

/// The line that names the version and the level.
pub(crate) fn header_line<W: Write>(
    outgoing: &mut Outgoing,
    out: &mut W,
    version: Version,
    level: Level,
) -> io::Result<()>
    ensures { IsSent result (W.contents out.old) outgoing.old (W.contents out.new) outgoing.new (line_text (header_words version level)) }
{
    match (version, level) {
        (Version::One, Level::Causal) => line(
            outgoing,
            out,
            b"tcc-certificate",
            &[Word::Text(b"1")],
        ),
        (Version::One, Level::Atomic) => line(
            outgoing,
            out,
            b"tcc-certificate",
            &[Word::Text(b"1"), Word::Text(b"atomic")],
        ),
        (Version::Two, Level::Causal) => line(
            outgoing,
            out,
            b"tcc-certificate",
            &[Word::Text(b"2"), Word::Text(b"causal")],
        ),
        (Version::Two, Level::Atomic) => line(
            outgoing,
            out,
            b"tcc-certificate",
            &[Word::Text(b"2"), Word::Text(b"atomic")],
        ),
    }
}

/// Writes a claim of an order.
fn write_order<W: Write>(out: &mut W, claim: &OrderClaim) -> io::Result<()>
    ensures whole { OnOk result (Appends (W.contents out.old) (W.contents out.new) (certificate_text (Order claim.now))) }
    ensures part { OnErr result ((n : ℕ) × Appends (W.contents out.old) (W.contents out.new) (take n (certificate_text (Order claim.now)))) }
{
    let mut outgoing = Outgoing::new();
    header_line(&mut outgoing, out, claim.version, claim.level)?;
    order(&mut outgoing, out, claim)?;
    outgoing.finish(out)
}

/// Writes the text of the certificate. Where a write fails, a part of the text was written, from its front. An interrupted
/// write and one that takes no bytes are failures too.
pub fn write<W: Write>(certificate: &Certificate, out: &mut W) -> Result<(), CertWriteFault>
    ensures whole { OnOk result (Appends (W.contents out.old) (W.contents out.new) (certificate_text certificate.now)) }
    ensures part { OnErr result ((n : ℕ) × Appends (W.contents out.old) (W.contents out.new) (take n (certificate_text certificate.now))) }
{
    match certificate {
        Certificate::Order(claim) => {
            write_order(out, claim)?;
            Ok(())
        }
        Certificate::Cycle(claim) => write_cycle(out, claim),
    }
}
