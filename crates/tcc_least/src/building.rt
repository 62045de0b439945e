//! A least cycle, with its links, if one costs at most three steps.
ghost use Rattle.std.specs.Prelude.{◌≡◌, ◌≤◌, ◌<◌, ◌↔◌, ℕ, List, min, length, IsTrue, IfOk, MatchOption};
ghost use Rattle.tcc_reads.specs.History.{count};
ghost use Rattle.tcc_graph.specs.{Relations.IsReadsPair, Relations.IsCausalPair, Keys.IsWriter, Levels.Judged, Levels.judged, Links.MayContradict, Links.cost, Routes.IsLeastCycle, declared.level.Level.Level};
ghost use Rattle.tcc_least.specs.Shapes.{NoneBelow, IsRead, IsRound, IsReturn, IsFirstShort, IsShortLink, AreLeast};
ghost use Rattle.tcc_least.specs.private.Building.{IsShortCycle, Overwrites};

use crate::short::{ShortCycle, short_cycle, up_to_four};
use std::alloc::Global;
use tcc_graph::{LargeGraph, Link, Walk};
use tcc_txn::{Name, NoMemory};

/// The link from one transaction to another by a pair.
fn pair_link(graph: &LargeGraph, from: u32, to: u32) -> Link
    requires { IsCausalPair graph.now from to }
    ensures { IsShortLink graph.now from to 1 result }
{
    Link::of(graph.step(from, to))
}

/// A source of a transaction to which a pair leads from its reader.
fn source_of_source(graph: &LargeGraph, source: u32, reader: u32) -> u32
    requires source { source < count graph.now }
    requires reader { reader < count graph.now }
    requires there { (d : ℕ) × IsRead graph.now d source × IsCausalPair graph.now reader d }
    ensures { IsRead graph.now result source × IsCausalPair graph.now reader result }
{
    for read in graph.reads_at(source) {
        if graph.causal(reader, read.1) {
            return read.1;
        }
    }
    unreachable!()
}

/// The links of a round of pairs.
fn round_links(
    alloc: Global,
    graph: &LargeGraph,
    source: u32,
    reader: u32,
) -> Result<Vec<Link>, NoMemory>
    requires { (n : ℕ) × IsRound graph.now n source reader }
    ensures { IfOk result (λ links. (n : ℕ) → n ≤ 4 → IsRound graph.now n source reader → IsShortCycle graph.now n links.items) }
{
    let mut links = Vec::new(alloc);
    if reader == source {
        links.push(pair_link(graph, source, reader))?;
        return Ok(links);
    }
    if graph.causal(reader, source) {
        links.push(pair_link(graph, source, reader))?;
        links.push(pair_link(graph, reader, source))?;
        return Ok(links);
    }
    let first = source_of_source(graph, source, reader);
    links.push(pair_link(graph, first, source))?;
    links.push(pair_link(graph, source, reader))?;
    links.push(pair_link(graph, reader, first))?;
    Ok(links)
}

/// Whether a transaction overwrites what a reader of the key reads, and a pair leads to the reader.
fn overwrites(graph: &LargeGraph, from: u32, reader: u32, key: &Name) -> bool
    requires from { from < count graph.now }
    requires reader { reader < count graph.now }
    ensures { IsTrue result ↔ Overwrites graph.now from reader key.now }
{
    graph.is_writer(from, key) && graph.causal(from, reader)
}

/// A reader of a transaction, and a key that it reads there which another transaction overwrites. A pair leads from that one
/// to the reader.
fn overwritten(graph: &LargeGraph, from: u32, to: u32) -> (u32, Name)
    requires { (x : List ℕ) × (c : ℕ) × MayContradict graph.now from to x c × IsCausalPair graph.now from c }
    ensures read { IsReadsPair graph.now to result.0 result.1 }
    ensures writer { IsWriter graph.now from result.1 }
    ensures pair { IsCausalPair graph.now from result.0 }
{
    let keys = graph.keys();
    let (readers, key_indices) = graph.readings_at(to);
    for index in 0..readers.len() {
        let key = keys[key_indices[index] as usize];
        if overwrites(graph, from, readers[index], &key) {
            return (readers[index], key);
        }
    }
    unreachable!()
}

/// The derived link of two steps from one transaction to another: the first overwrites what is read from the second, and a pair leads
/// to the reader.
pub fn two_step_link(
    alloc: Global,
    graph: &LargeGraph,
    from: u32,
    to: u32,
) -> Result<Link, NoMemory>
    requires { (x : List ℕ) × (c : ℕ) × MayContradict graph.now from to x c × IsCausalPair graph.now from c }
    ensures { IfOk result (IsShortLink graph.now from to 2) }
{
    let (reader, key) = overwritten(graph, from, to);
    let mut steps = Vec::new(alloc);
    steps.push(graph.step(from, reader))?;
    Ok(Link::Derived {
        from,
        to,
        key,
        reader,
        walk: Walk::new(steps),
    })
}

/// A derived link of two steps, and the link of a pair back.
fn return_links(
    alloc: Global,
    graph: &LargeGraph,
    from: u32,
    to: u32,
) -> Result<Vec<Link>, NoMemory>
    requires { IsReturn graph.now from to }
    ensures { IfOk result (λ links. IsShortCycle graph.now 4 links.items) }
{
    let mut links = Vec::new(alloc);
    links.push(two_step_link(alloc, graph, from, to)?)?;
    links.push(pair_link(graph, to, from))?;
    Ok(links)
}

/// The links of the cycle at a place.
fn links_at(alloc: Global, graph: &LargeGraph, place: ShortCycle) -> Result<Vec<Link>, NoMemory>
    requires { (n : ℕ) × IsFirstShort graph.now n place }
    ensures { IfOk result (λ links. (n : ℕ) → n ≤ 4 → IsFirstShort graph.now n place → IsShortCycle graph.now n links.items) }
{
    match place {
        ShortCycle::Round { from, to } => round_links(alloc, graph, from, to),
        ShortCycle::Return { from, to } => return_links(alloc, graph, from, to),
    }
}

/// The links of a least cycle, if one costs less than `cost` steps, or less than 4 if `cost` is greater. There are none
/// exactly if no cycle costs less than that. The cycle is a least one at each level.
pub fn least_short(
    alloc: Global,
    graph: &LargeGraph,
    cost: u64,
) -> Result<Option<Vec<Link>>, NoMemory>
    ensures { IfOk result (λ found. (level : Level) → MatchOption found (NoneBelow (judged graph.now level) (min cost 4))
        (λ links. AreLeast (judged graph.now level) links.items × (Rattle.tcc_graph.specs.Links.cost links.items < min cost 4))) }
{
    let Some(place) = short_cycle(graph, cost) else {
        return Ok(None);
    };
    for below in 2..up_to_four(cost) {
        if let Some(shorter) = short_cycle(graph, below) {
            return Ok(Some(links_at(alloc, graph, shorter)?));
        }
    }
    Ok(Some(links_at(alloc, graph, place)?))
}
