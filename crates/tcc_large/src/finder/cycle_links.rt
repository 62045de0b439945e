//! From transactions in a circle to the links between them. Between each two it is a pair where there is one, else a derived link with a
//! shortest walk, which takes a search (`shortest_walks`).
use crate::finder::pairs::PairSpans;
use crate::finder::shortest_walks::{ShortestWalks, Sought};
use crate::finder::work::{SearchError, Work};
use std::alloc::{AllocError, Global};
use tcc_graph::{Level, Link, Step, Walk};
use tcc_txn::{Name, NoMemory};

/// Finds the link between two transactions.
#[derive(Drop)]
pub(crate) struct Linker {
    longest: usize,
    walks: ShortestWalks,
}

/// The number after an index of a circle.
fn following(circle: &[u32], index: usize) -> Option<u32> {
    match circle.get(index.saturating_add(1)) {
        Some(next) => Some(*next),
        None => circle.first().copied(),
    }
}

/// The circle without those between two others of their session.
fn without_runs(
    alloc: Global,
    pairs: &PairSpans<'_>,
    circle: &[u32],
) -> Result<Vec<u32>, AllocError> {
    let mut kept = Vec::new(alloc);
    let mut before = circle.last().copied().unwrap_or(0);
    for (index, number) in circle.iter().enumerate() {
        let next = following(circle, index).unwrap_or(0);
        if !(pairs.is_session(before, *number) && pairs.is_session(*number, next)) {
            kept.push(*number)?;
        }
        before = *number;
    }
    Ok(kept)
}

/// The readers of a transaction's keys that the other writes too, each with the index of the key.
fn contradicted(
    alloc: Global,
    work: &mut Work,
    pairs: &PairSpans<'_>,
    from: u32,
    to: u32,
) -> Result<Vec<(u32, u32)>, SearchError> {
    let mut found = Vec::new(alloc);
    for key_index in pairs.writes(from) {
        let readers = pairs.readers(to, *key_index);
        work.take(readers.len())?;
        work.take(1)?;
        add_readers(&mut found, readers, *key_index)?;
    }
    Ok(found)
}

/// Adds readers of the key at an index.
fn add_readers(
    found: &mut Vec<(u32, u32)>,
    readers: &[u32],
    key_index: u32,
) -> Result<(), AllocError> {
    for reader in readers {
        found.push((*reader, key_index))?;
    }
    Ok(())
}

/// The step from one transaction to another by a pair, where there is one.
fn step(pairs: &PairSpans<'_>, from: u32, to: u32) -> Option<Step> {
    if pairs.is_session(from, to) {
        return Some(Step::Session { from, to });
    }
    let key = pairs.key(*pairs.reads_from(from, to).first()?)?;
    Some(Step::Reads { from, to, key })
}

/// The key that is listed beside a reader.
fn key_of(pairs: &PairSpans<'_>, readers: &[(u32, u32)], wanted: u32) -> Option<Name> {
    for (reader, key_index) in readers {
        if *reader == wanted {
            return pairs.key(*key_index);
        }
    }
    None
}

/// The derived link to a transaction by a walk to one of the readers of what it writes.
fn derived_by(pairs: &PairSpans<'_>, walk: Walk, to: u32, readers: &[(u32, u32)]) -> Option<Link> {
    let from = walk.as_slice().first()?.from();
    let reader = walk.as_slice().last()?.to();
    let key = key_of(pairs, readers, reader)?;
    Some(Link::Derived {
        from,
        to,
        key,
        reader,
        walk,
    })
}

impl Linker {
    /// A finder for a history at a level.
    pub(crate) fn new(
        alloc: Global,
        pairs: &PairSpans<'_>,
        level: Level,
    ) -> Result<Linker, NoMemory> {
        let longest = match level {
            Level::Atomic => 1,
            Level::Causal => usize::MAX,
        };
        let walks = ShortestWalks::new(alloc, pairs)?;
        Ok(Linker { longest, walks })
    }

    /// A derived link to a transaction from one of these writers of what the readers read from it, by a shortest walk; none where it costs
    /// more than `most` steps.
    pub(crate) fn derived(
        &mut self,
        alloc: Global,
        work: &mut Work,
        pairs: &PairSpans<'_>,
        wanted: &[u32],
        to: u32,
        readers: &[(u32, u32)],
        most: usize,
    ) -> Result<Option<Link>, SearchError> {
        let mut ends = Vec::new(alloc);
        for (reader, _key_index) in readers {
            ends.push(*reader)?;
        }
        let sought = Sought {
            starts: wanted,
            ends: &ends,
            most: most.saturating_sub(1).min(self.longest),
        };
        match self.walks.walk(alloc, work, pairs, &sought)? {
            Some(steps) => Ok(derived_by(pairs, Walk::new(steps), to, readers)),
            None => Ok(None),
        }
    }

    /// The link from one transaction to another, where it costs at most `most` steps.
    pub(crate) fn link(
        &mut self,
        alloc: Global,
        work: &mut Work,
        pairs: &PairSpans<'_>,
        from: u32,
        to: u32,
        most: usize,
    ) -> Result<Option<Link>, SearchError> {
        if let Some(step) = step(pairs, from, to) {
            return Ok(Some(Link::of(step)));
        }
        let readers = contradicted(alloc, work, pairs, from, to)?;
        self.derived(alloc, work, pairs, &[from], to, &readers, most)
    }

    /// The links along a circle, where together they cost less than `below` steps; none where two neighbours have none.
    pub(crate) fn links(
        &mut self,
        alloc: Global,
        work: &mut Work,
        pairs: &PairSpans<'_>,
        circle: &[u32],
        below: usize,
    ) -> Result<Option<Vec<Link>>, SearchError> {
        let circle = without_runs(alloc, pairs, circle)?;
        let mut links = Vec::new(alloc);
        // each link that is not there yet costs at least one step
        let mut most = below.saturating_sub(circle.len());
        for (index, from) in circle.iter().enumerate() {
            let Some(to) = following(&circle, index) else {
                return Ok(None);
            };
            let Some(link) = self.link(alloc, work, pairs, *from, to, most)? else {
                return Ok(None);
            };
            let more = (link.cost() as usize).saturating_sub(1);
            if more >= most {
                return Ok(None);
            }
            most = most.saturating_sub(more);
            links.push(link)?;
        }
        Ok(Some(links))
    }
}
