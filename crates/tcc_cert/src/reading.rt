//! How a certificate's text is read.
ghost use Rattle.std.specs.Prelude.{◌≡◌, ◌<◌, ◌++◌, ◌∷◌, ℕ, [], IfErr, IfSome, List, OnOk, false, true};
ghost use Rattle.tcc_cert.specs.{private.Collecting.Collects, private.Collecting.HasRow, private.Inputs.AsBefore, private.Inputs.Gives, InputBytes.IsAt, declared.ranges.TheConstants.MAX_HEADER_BYTES, Outcomes.IsReading, private.Showing.Shows, Parts.Parts, Parts.parts_read};
ghost use Rattle.tcc_cert.specs.Ahead.{IsAhead, is_new, line_wanted};
ghost use Rattle.tcc_cert.specs.Reading.{Position, header_line, next, word_line, words, words_of};

mod decimals;
mod forms;
mod held;
mod input;
mod large;
mod large_forms;
mod large_reader;
mod links;
mod parts;
mod rows;
mod shape;
mod source;
mod stages;
mod taking;
mod versions;
mod window;
mod words;

use crate::ranges::{MAX_HEADER_BYTES, TextFormat};
use crate::{CertFault, CertFaultKind, Certificate, Links, Numbers, Part, Table, Version};
use input::{Input, at_line};
pub use large::read_large;
pub use large_reader::LargeReader;
pub use links::with_walk;
pub use parts::CertReader;
use std::alloc::Global;
use std::io::Read;
use tcc_graph::{Level, Link};
pub use versions::{VersionReader, reader_of};
use words::words_of;

/// Whether a line is this word alone.
fn word_line(alloc: Global, line: &[u8], wanted: &[u8]) -> Result<(), CertFaultKind>
    ensures { Shows result (word_line wanted.now (words_of line.now)) }
{
    let words = words_of(alloc, line)?;
    let Some((word, fields)) = words.as_slice().split_first() else {
        return Err(CertFaultKind::Word);
    };
    if *word != wanted {
        Err(CertFaultKind::Word)
    } else if fields.is_empty() {
        Ok(())
    } else {
        Err(CertFaultKind::Count)
    }
}

/// The next line, of this word alone.
fn mark<R: Read>(
    alloc: Global,
    input: &mut Input<R>,
    scale: TextFormat,
    wanted: &[u8],
) -> Result<(), CertFault>
    ensures works { OnOk result (AsBefore input.old input.new) }
    ensures gives { (at : Position) → IsAt R.remaining input.old at → Gives R.remaining at (words scale (word_line wanted.now) at) result input.new }
{
    let line = input.next_of(scale)?;
    at_line(line, word_line(alloc, input.line(), wanted))
}

/// The version and the level that the first line says.
fn header_line(line: &[u8]) -> Result<(Version, Level), CertFaultKind>
    ensures { result ≡ header_line line.now }
{
    if line == b"tcc-certificate 1".as_slice() {
        Ok((Version::One, Level::Causal))
    } else if line == b"tcc-certificate 1 atomic".as_slice() {
        Ok((Version::One, Level::Atomic))
    } else if line == b"tcc-certificate 2 causal".as_slice() {
        Ok((Version::Two, Level::Causal))
    } else if line == b"tcc-certificate 2 atomic".as_slice() {
        Ok((Version::Two, Level::Atomic))
    } else {
        Err(CertFaultKind::Header)
    }
}

/// The first line.
fn header<R: Read>(input: &mut Input<R>) -> Result<(Version, Level), CertFault>
    ensures works { OnOk result (AsBefore input.old input.new) }
    ensures gives { (at : Position) → IsAt R.remaining input.old at → Gives R.remaining at (next MAX_HEADER_BYTES header_line at) result input.new }
{
    let line = input.next(MAX_HEADER_BYTES)?;
    at_line(line, header_line(input.line()))
}

/// The links of a claim, and the rows of its tables.
#[derive(Drop)]
struct ReadTables {
    links: Vec<Link>,
    clocks: Vec<Numbers>,
    near: Vec<Numbers>,
    far: Vec<Numbers>,
}

/// One more link, or one more row of a table.
fn push<R: Read, T: Drop>(
    parts: &CertReader<R>,
    list: &mut Vec<T>,
    item: T,
) -> Result<(), CertFault>
    ensures kept { OnOk result (list.new.items ≡ list.old.items ++ item ∷ []) }
    ensures refused { IfErr result (λ fault. fault ≡ record { line = line_wanted parts.now; kind = CertFaultKind.NoMemory }) }
    ensures counted { IfErr result (λ fault. 0 < fault.line) }
{
    match list.push(item) {
        Ok(()) => Ok(()),
        Err(_) => Err(parts.fault(CertFaultKind::NoMemory)),
    }
}

/// One more link, or one more row of the table that the part is of. A claim and the end are neither.
fn keep<R: Read>(
    parts: &CertReader<R>,
    tables: &mut ReadTables,
    part: Part,
) -> Result<(), CertFault>
    ensures kept { OnOk result (HasRow part tables.old tables.new) }
    ensures refused { IfErr result (λ fault. fault ≡ record { line = line_wanted parts.now; kind = CertFaultKind.NoMemory }) }
    ensures counted { IfErr result (λ fault. 0 < fault.line) }
{
    match part {
        Part::Link(link) => push(parts, &mut tables.links, link),
        Part::Clocks(row) => push(parts, &mut tables.clocks, row),
        Part::Near(row) => push(parts, &mut tables.near, row),
        Part::Far(row) => push(parts, &mut tables.far, row),
        Part::Order(_) | Part::Cycle(_) | Part::End => Ok(()),
    }
}

/// The links and rows that come after the claim.
fn collect<R: Read>(alloc: Global, parts: &mut CertReader<R>) -> Result<ReadTables, CertFault>
    requires { is_new parts.old ≡ false }
    ensures { (ahead : Parts) → IsAhead R.remaining parts.old ahead → Collects ahead result }
{
    let mut tables = ReadTables {
        links: Vec::new(alloc),
        clocks: Vec::new(alloc),
        near: Vec::new(alloc),
        far: Vec::new(alloc),
    };
    'parts: loop {
        let part = parts.next(alloc)?;
        if let Part::End = part {
            return Ok(tables);
        }
        keep(parts, &mut tables, part)?;
    }
}

/// The certificate that all parts are of.
fn whole<R: Read>(alloc: Global, parts: &mut CertReader<R>) -> Result<Certificate, CertFault>
    requires { is_new parts.old ≡ true }
    ensures { (bytes : List ℕ) → IsAhead R.remaining parts.old (parts_read bytes) → IsReading bytes result }
{
    match parts.next(alloc)? {
        Part::Order(head) => {
            let tables = collect(alloc, parts)?;
            Ok(Certificate::Order(head.with_clocks(Table::new(tables.clocks))))
        }
        Part::Cycle(head) => {
            let tables = collect(alloc, parts)?;
            let links = Links::new(tables.links);
            let near = Table::new(tables.near);
            let far = Table::new(tables.far);
            Ok(Certificate::Cycle(head.with_tables(links, near, far)))
        }
        Part::Link(_) | Part::Clocks(_) | Part::Near(_) | Part::Far(_) | Part::End => {
            unreachable!()
        }
    }
}

/// Reads the certificate whose text the reader gives, with nothing after it, or returns the first line with a fault. A line
/// has at most 8,191 bytes and a line feed, in version 2 after the first at most 36,863 bytes. Where the reader fails, the
/// fault is `Read` at the line that was wanted then, unless a line before it has another. It is for callers that want the
/// certificate as a value, as `tcc_check::check` takes it. To go through it once, use a `CertReader`, which holds none of
/// it.
pub fn read<R: Read + Drop>(alloc: Global, reader: R) -> Result<Certificate, CertFault>
    ensures { IfSome (R.remaining reader) (λ bytes. IsReading bytes result) }
{
    whole(alloc, &mut CertReader::new(reader))
}
