//! A search for a short cycle, by the links that an order kept until it stopped. What it finds need not be trusted, and is not always a
//! least one. With N transactions, R reads and E kept links it takes O(N + R + E) steps. The passes over all transactions go over them
//! once, and each search stops at a limit of work.
use crate::finder::adjacency::Adjacency;
use crate::finder::back_edges::back_edges;
use crate::finder::breadth_first::BreadthFirst;
use crate::finder::cycle_links::Linker;
use crate::finder::pairs::{Pair, PairSpans, span};
use crate::finder::trimming::Trimmed;
use crate::finder::two_step_back_links::{between, closings};
use crate::finder::work::{SearchError, Work, unless_spent};
use std::alloc::{AllocError, Global};
use tcc_graph::{LargeGraph, Level, Link};
use tcc_order::Stuck;
use tcc_reads::FlatRows;
use tcc_txn::NoMemory;

/// At most this many links of each kind are tried.
const TRIES: usize = 64;

/// At most this many transactions of a cycle are checked for whether it is cheaper without them.
const SHORTCUTS: usize = 256;

/// A search may look at this much, and at `WORK_EACH` more for each transaction and read.
const WORK: u64 = 1 << 21;

const WORK_EACH: u64 = 4;

/// The search ends at a cycle of this many steps: cheaper ones are not looked for here.
const CHEAP: usize = 4;

/// The cheapest links so far, and the number of steps below which others have to stay.
#[derive(Drop)]
struct Cheapest {
    links: Option<Vec<Link>>,
    below: usize,
}

/// What links cost together.
fn cost(links: &[Link]) -> usize {
    let mut steps = 0usize;
    for link in links {
        steps = steps.saturating_add(link.cost());
    }
    steps
}

impl Cheapest {
    /// Keeps these links if they cost less than those so far.
    fn offer(&mut self, links: Vec<Link>) {
        let cost = cost(&links);
        if cost < self.below {
            self.links = Some(links);
            self.below = cost;
        }
    }
}

/// Where a search for cycles goes on.
#[derive(Drop)]
struct Finder<'a> {
    pairs: &'a PairSpans<'a>,
    linker: Linker,
    breadth_first: BreadthFirst,
    work: Work,
    cheapest: Cheapest,
}

/// Whether this one of `count` is tried, so that no more than `TRIES` are.
fn is_tried(index: usize, count: usize) -> bool {
    index % (count / TRIES + 1) == 0
}

/// Whether any link was kept.
fn has_links(kept: &FlatRows<u32>) -> bool {
    for to in 0..kept.len() {
        if !kept.row(to).is_empty() {
            return true;
        }
    }
    false
}

/// The transactions at which the links begin.
fn starts(alloc: Global, links: &[Link]) -> Result<Vec<u32>, AllocError> {
    let mut found = Vec::new(alloc);
    for link in links {
        found.push(link.from())?;
    }
    Ok(found)
}

/// The index after one of `count`, of which the first comes after the last.
fn following(count: usize, index: usize) -> usize {
    let next = index.saturating_add(1);
    if next < count { next } else { 0 }
}

/// All of these numbers but the one at an index.
fn without(alloc: Global, numbers: &[u32], index: usize) -> Result<Vec<u32>, AllocError> {
    let mut kept = Vec::new(alloc);
    for (at, number) in numbers.iter().enumerate() {
        if at != index {
            kept.push(*number)?;
        }
    }
    Ok(kept)
}

impl<'a> Finder<'a> {
    fn new(alloc: Global, pairs: &'a PairSpans<'a>, level: Level) -> Result<Finder<'a>, NoMemory> {
        Ok(Finder {
            pairs,
            linker: Linker::new(alloc, pairs, level)?,
            breadth_first: BreadthFirst::new(alloc, pairs)?,
            work: Work::new(0),
            cheapest: Cheapest {
                links: None,
                below: usize::MAX,
            },
        })
    }

    /// Allows the work of one more search.
    fn allow(&mut self) {
        let more = self.pairs.size().saturating_mul(WORK_EACH);
        self.work = Work::new(more.saturating_add(WORK));
    }

    /// Whether a cheaper cycle is worth a search.
    fn goes_on(&self) -> bool {
        self.cheapest.below > CHEAP
    }

    /// The links along transactions that form a circle.
    fn along(&mut self, alloc: Global, circle: &[u32]) -> Result<(), SearchError> {
        let below = self.cheapest.below;
        let links = self
            .linker
            .links(alloc, &mut self.work, self.pairs, circle, below)?;
        if let Some(links) = links {
            self.cheapest.offer(links);
        }
        Ok(())
    }

    /// Offers the cycle of a session pair from a transaction and of a link back.
    fn offer_back(&mut self, alloc: Global, source: u32, back: Link) -> Result<(), AllocError> {
        let from = back.from();
        let mut links = Vec::new(alloc);
        links.push(Link::Session {
            from: source,
            to: from,
        })?;
        links.push(back)?;
        self.cheapest.offer(links);
        Ok(())
    }

    /// A cycle of two links, from a transaction to a later one in session order and back by the key at an index.
    fn try_key(&mut self, alloc: Global, source: u32, key_index: u32) -> Result<(), SearchError> {
        let (low, high) = self.pairs.later(source);
        let wanted = span(self.pairs.writers(key_index), low, high);
        let mut readers = Vec::new(alloc);
        for reader in self.pairs.readers(source, key_index) {
            readers.push((*reader, key_index))?;
        }
        if wanted.is_empty() || readers.is_empty() {
            return Ok(());
        }
        let most = self.cheapest.below.saturating_sub(2);
        let work = &mut self.work;
        let back = self
            .linker
            .derived(alloc, work, self.pairs, wanted, source, &readers, most)?;
        if let Some(back) = back {
            self.offer_back(alloc, source, back)?;
        }
        Ok(())
    }

    /// Such cycles by each of these keys.
    fn try_keys(
        &mut self,
        alloc: Global,
        source: u32,
        key_indices: &[u32],
    ) -> Result<(), SearchError> {
        self.work.take(key_indices.len())?;
        for key_index in key_indices {
            if self.goes_on() {
                self.try_key(alloc, source, *key_index)?;
            }
        }
        Ok(())
    }

    /// Cycles through `init`, by keys of some of these writers, from each of which a link leads there.
    fn through_init(&mut self, alloc: Global, writers: &[u32]) -> Result<(), SearchError> {
        for (index, writer) in writers.iter().enumerate() {
            if is_tried(index, writers.len()) && self.goes_on() {
                self.along(alloc, &[0, *writer])?;
                self.try_keys(alloc, 0, self.pairs.writes(*writer))?;
            }
        }
        Ok(())
    }

    /// Cycles of a session pair and a link, for some of the links against such a pair.
    fn through_sessions(&mut self, alloc: Global, links: &[(u32, u32)]) -> Result<(), SearchError> {
        for (index, (from, to)) in links.iter().enumerate() {
            if is_tried(index, links.len()) && self.goes_on() {
                self.along(alloc, &[*to, *from])?;
                self.try_keys(alloc, *to, self.pairs.writes(*to))?;
            }
        }
        Ok(())
    }

    /// Cycles of two links, for some of those against a reads-from pair.
    fn through_reads(&mut self, alloc: Global, links: &[(u32, u32)]) -> Result<(), SearchError> {
        for (index, (from, to)) in links.iter().enumerate() {
            if is_tried(index, links.len()) && self.goes_on() {
                self.along(alloc, &[*to, *from])?;
            }
        }
        Ok(())
    }

    /// A cycle of fewest links through a pair or link with these ends, which are marked.
    fn through_one(
        &mut self,
        alloc: Global,
        among: &Trimmed<'_>,
        ends: (u32, u32),
    ) -> Result<(), SearchError> {
        let most = self.cheapest.below.saturating_sub(2);
        let ends = (ends.1, ends.0);
        let circle = self
            .breadth_first
            .way(alloc, &mut self.work, among, ends, most)?;
        if let Some(circle) = circle {
            self.along(alloc, &circle)?;
        }
        Ok(())
    }

    /// Such cycles through some of these pairs or links.
    fn through(
        &mut self,
        alloc: Global,
        among: &Trimmed<'_>,
        ends: &[(u32, u32)],
    ) -> Result<(), SearchError> {
        for (index, one) in ends.iter().enumerate() {
            if is_tried(index, ends.len()) && self.goes_on() {
                self.through_one(alloc, among, *one)?;
            }
        }
        Ok(())
    }

    /// The cycle of a closing and of two pairs, or of two closings.
    fn try_closing(
        &mut self,
        alloc: Global,
        closings: &[(u32, u32)],
        closing: (u32, u32),
    ) -> Result<(), SearchError> {
        let (from, to) = closing;
        self.work.take(self.pairs.reads(from).len())?;
        if let Some(middle) = between(self.pairs, to, from) {
            return self.along(alloc, &[to, middle, from]);
        }
        if closings.binary_search(&(to, from)).is_ok() {
            self.along(alloc, &[to, from])?;
        }
        Ok(())
    }

    /// Such cycles.
    fn through_closings(&mut self, alloc: Global, among: &Trimmed<'_>) -> Result<(), SearchError> {
        let closings = closings(alloc, &mut self.work, among)?;
        for closing in &closings {
            if !self.goes_on() {
                break;
            }
            self.try_closing(alloc, &closings, *closing)?;
        }
        Ok(())
    }

    /// Leaves out the transaction after a link of the cheapest cycle, where a link past it costs less than the two that lead through it,
    /// and returns whether it did so.
    fn shortcut(&mut self, alloc: Global, index: usize) -> Result<bool, SearchError> {
        let Some(links) = &self.cheapest.links else {
            return Ok(false);
        };
        let next = following(links.len(), index);
        let (Some(before), Some(behind)) = (links.get(index), links.get(next)) else {
            return Ok(false);
        };
        let circle = without(alloc, &starts(alloc, links)?, next)?;
        if circle.len() < 2 {
            return Ok(false);
        }
        let most = before
            .cost()
            .saturating_add(behind.cost())
            .saturating_sub(1);
        let (from, to) = (before.from(), behind.to());
        let work = &mut self.work;
        let link = self.linker.link(alloc, work, self.pairs, from, to, most)?;
        if link.is_none() {
            return Ok(false);
        }
        let below = self.cheapest.below;
        self.along(alloc, &circle)?;
        Ok(self.cheapest.below < below)
    }

    /// Shortens the cheapest cycle by such links.
    fn shorten(&mut self, alloc: Global) -> Result<(), SearchError> {
        let mut index = 0;
        for _turn in 0..SHORTCUTS {
            if !self.shortcut(alloc, index)? {
                index = index.saturating_add(1);
            }
        }
        Ok(())
    }

    /// Cycles of pairs.
    fn by_pairs(&mut self, alloc: Global, placed: &[u64]) -> Result<(), NoMemory> {
        let none = FlatRows::new(alloc);
        let adjacency = Adjacency::of(alloc, self.pairs, &none)?;
        let among = Trimmed::of(alloc, &adjacency, placed)?;
        let reads = among.reads(alloc)?;
        self.allow();
        unless_spent(self.through(alloc, &among, &reads))
    }

    /// Cycles of pairs and links that don't pass `init`.
    fn around(&mut self, alloc: Global, among: &Trimmed<'_>) -> Result<(), NoMemory> {
        let sessions = among.links_against(alloc, Pair::Session)?;
        self.allow();
        unless_spent(self.through_sessions(alloc, &sessions))?;
        let reads = among.links_against(alloc, Pair::Read)?;
        self.allow();
        unless_spent(self.through_reads(alloc, &reads))?;
        let back = back_edges(alloc, among)?;
        self.allow();
        unless_spent(self.through(alloc, among, &back))?;
        self.allow();
        unless_spent(self.shorten(alloc))?;
        self.allow();
        if self.goes_on() {
            unless_spent(self.through_closings(alloc, among))?;
        }
        Ok(())
    }

    /// Cycles of pairs and kept links, where pairs alone form no cycle.
    fn by_links(&mut self, alloc: Global, stuck: &Stuck) -> Result<(), NoMemory> {
        let adjacency = Adjacency::of(alloc, self.pairs, &stuck.kept)?;
        self.allow();
        unless_spent(self.through_init(alloc, adjacency.links_into(0)))?;
        if self.goes_on() {
            let among = Trimmed::of(alloc, &adjacency, &stuck.placed)?;
            self.around(alloc, &among)?;
        }
        Ok(())
    }

    /// Cycles of pairs, and others where there are none. At `Causal` no link was kept if there are some.
    fn find(&mut self, alloc: Global, level: Level, stuck: &Stuck) -> Result<(), NoMemory> {
        let has_links = has_links(&stuck.kept);
        if level == Level::Atomic || !has_links {
            self.by_pairs(alloc, &stuck.placed)?;
        }
        if has_links && self.cheapest.links.is_none() {
            self.by_links(alloc, stuck)?;
        }
        Ok(())
    }
}

/// The links of a short cycle of a history at a level in which an order stops, where no cycle costs less than four steps. It is not always
/// a least one, and there is none where none was found. A cycle of pairs is looked for first. Else it is the cheapest of three kinds: those
/// through `init`, those of a pair and a link, and shortest ones, by links, through some that lead back in an order of all pairs.
pub(crate) fn found_cycle(
    alloc: Global,
    graph: &LargeGraph,
    level: Level,
    stuck: &Stuck,
) -> Result<Option<Vec<Link>>, NoMemory> {
    let pairs = PairSpans::of(alloc, graph)?;
    let mut finder = Finder::new(alloc, &pairs, level)?;
    finder.find(alloc, level, stuck)?;
    Ok(finder.cheapest.links.take())
}
