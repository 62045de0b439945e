//! Closings are the derived links of two steps that close a cycle of four steps, together with two pairs or another such link. They are
//! looked for at each reader. This takes O(R * r) for R reads, of which a transaction has at most r.
use crate::finder::pairs::{PairSpans, span};
use crate::finder::trimming::Trimmed;
use crate::finder::work::{SearchError, Work};
use std::alloc::{AllocError, Global};

/// The ends of such links between marked transactions, ascending. They lead to what is read, from the last earlier writer of the key in the
/// reader's session, and from each source of the reader that writes it.
pub(crate) fn closings(
    alloc: Global,
    work: &mut Work,
    among: &Trimmed<'_>,
) -> Result<Vec<(u32, u32)>, SearchError> {
    let mut found = Vec::new(alloc);
    for reader in 1..among.pairs().count() {
        let reads = among.pairs().reads(reader);
        work.take(reads.len().saturating_mul(reads.len()))?;
        add_own(&mut found, among, reader)?;
        add_sources(&mut found, among, reader)?;
    }
    work.take(found.len())?;
    found.sort_unstable();
    Ok(found)
}

/// Adds those from the reader's own session.
fn add_own(
    found: &mut Vec<(u32, u32)>,
    among: &Trimmed<'_>,
    reader: u32,
) -> Result<(), AllocError> {
    let pairs = among.pairs();
    let first = pairs.first(pairs.owner(reader));
    for (key_index, source) in pairs.reads(reader) {
        if among.has(*source) {
            let own = span(pairs.writers(*key_index), first, reader).last();
            add(found, among, own.copied(), *source)?;
        }
    }
    Ok(())
}

/// Adds those from the reader's sources.
fn add_sources(
    found: &mut Vec<(u32, u32)>,
    among: &Trimmed<'_>,
    reader: u32,
) -> Result<(), AllocError> {
    let reads = among.pairs().reads(reader);
    for (key_index, source) in reads {
        if among.has(*source) {
            for (_key_index, other) in reads {
                if among
                    .pairs()
                    .writes(*other)
                    .binary_search(key_index)
                    .is_ok()
                {
                    add(found, among, Some(*other), *source)?;
                }
            }
        }
    }
    Ok(())
}

/// Adds the link from one marked transaction, if it is one, to another.
fn add(
    found: &mut Vec<(u32, u32)>,
    among: &Trimmed<'_>,
    from: Option<u32>,
    to: u32,
) -> Result<(), AllocError> {
    if let Some(from) = from {
        if from != to && among.has(from) {
            found.push((from, to))?;
        }
    }
    Ok(())
}

/// A transaction by which two pairs lead from one to another.
pub(crate) fn between(pairs: &PairSpans<'_>, from: u32, to: u32) -> Option<u32> {
    let first = pairs.first(pairs.owner(to));
    if let Some(reader) = span(pairs.readings(from).0, first, to).first() {
        return Some(*reader);
    }
    for (_key_index, source) in pairs.reads(to) {
        if pairs.is_session(from, *source) || !pairs.reads_from(from, *source).is_empty() {
            return Some(*source);
        }
    }
    None
}
