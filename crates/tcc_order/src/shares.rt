//! The links at `Causal` that are kept, found side by side: the blocks of sessions are divided into shares, a thread for each.
//! No block depends on another. The results of the shares are joined in the order of the blocks, as one thread would add them.
//! Each share has tables of its own: at most a row of 64 numbers for each transaction, and 32 MiB for keys. So there are at
//! most as many shares as fit into `ROWS_AT_ONCE` rows.
ghost use Rattle.std.specs.Prelude.{◌≡◌, ◌<◌, ◌≤◌, ◌+◌, ◌*◌, ◌⊎◌, length, IfOk};
ghost use Rattle.tcc_reads.specs.History.{count};
ghost use Rattle.tcc_graph.specs.{Levels.causally, Orders.IsNumbering};
ghost use Rattle.tcc_clocks.specs.{Parents.ArePrevious, Clocks.LeadsOnward, declared.latest.TheConstants.WIDE};
ghost use Rattle.tcc_order.specs.private.CausalLinks.{AreJoined, AreLinks, AreLinksFrom};
ghost use Rattle.tcc_order.specs.private.Sweeps.{HaveLinks, IsSweep, start_of};

use crate::causal_links::links_from;
use crate::rows::refill;
use crate::sweep::Sweep;
use rayon::prelude::*;
use std::alloc::Global;
use std::thread::Threads;
use tcc_base::Workers;
use tcc_clocks::WIDE;
use tcc_graph::LargeGraph;
use tcc_reads::FlatRows;
use tcc_txn::NoMemory;

/// How many rows the tables of all shares have at most, if there is more than one share: 1 GiB.
const ROWS_AT_ONCE: u32 = 4_194_304;

/// The blocks of sessions in shares.
#[derive(Clone, Copy)]
pub(crate) struct Shares {
    pub(crate) count: u32,
    /// How many blocks each share has; the last ones have fewer.
    pub(crate) size: usize,
    pub(crate) blocks: usize,
}

/// The number of shares for this many blocks: one for each worker, as far as there are blocks, and memory for their tables.
fn shares_for(workers: u32, blocks: u32, count: u32) -> u32
    ensures some { 0 < result }
    ensures few { (result ≡ 1) ⊎ ((result ≤ workers) × (result ≤ blocks)) }
    ensures room { (result ≡ 1) ⊎ (result * count ≤ ROWS_AT_ONCE) }
{
    let room = ROWS_AT_ONCE / count.max(1);
    workers.min(blocks).min(room).max(1)
}

impl Shares {
    /// The block at which a share begins.
    fn start(&self, share: usize) -> usize
        ensures { result ≡ start_of self.now share }
    {
        self.size.saturating_mul(share).min(self.blocks)
    }
}

/// The links of each share, a thread for each.
fn all_shares(
    rt: &(impl Threads + Sync),
    alloc: Global,
    sweep: &Sweep<'_>,
    shares: &Shares,
) -> Result<Vec<FlatRows<u32>>, NoMemory>
    requires { IsSweep sweep.now }
    ensures { IfOk result (λ parts. HaveLinks sweep.now.graph.now shares.now parts.items) }
{
    (0..shares.count)
        .into_par_iter()
        .map(
            |share: u32| -> Result<FlatRows<u32>, NoMemory>
                requires sweep { IsSweep sweep.now }
                requires share { share < shares.now.count }
                ensures { IfOk result (AreLinksFrom sweep.entry.now.graph.now (start_of shares.entry.now share * WIDE) (start_of shares.entry.now (share + 1) * WIDE)) }
            {
                let first = shares.start(share as usize);
                let end = shares.start(share as usize + 1);
                links_from(alloc, sweep, first, end)
            },
        )
        .with_min_len(1)
        .collect::<Result<Vec<FlatRows<u32>>, NoMemory>>(rt, alloc)?
}

/// The links of a share after those of the shares before it.
fn join(
    alloc: Global,
    count: u32,
    kept: &FlatRows<u32>,
    part: &FlatRows<u32>,
) -> Result<FlatRows<u32>, NoMemory>
    requires long { length kept.now ≡ count }
    requires same { length part.now ≡ count }
    ensures same { IfOk result (λ joined. length joined ≡ count) }
    ensures joined { IfOk result (AreJoined kept.now part.now) }
{
    let mut row = Vec::new(alloc);
    let mut joined = FlatRows::with_room(alloc, count)?;
    for number in 0..count {
        let before = kept.row(number as usize);
        let more = part.row(number as usize);
        refill(&mut row, before)?;
        row.extend_from_slice(more)?;
        joined.push(&row)?;
    }
    Ok(joined)
}

/// The links of all shares, in their order.
fn joined(
    alloc: Global,
    graph: &LargeGraph,
    shares: &Shares,
    parts: &[FlatRows<u32>],
) -> Result<FlatRows<u32>, NoMemory>
    requires { HaveLinks graph.now shares.now parts.now }
    ensures { IfOk result (AreLinksFrom graph.now 0 (start_of shares.now (length parts.now) * WIDE)) }
{
    let mut kept = FlatRows::empty(alloc, graph.count())?;
    for part in parts {
        kept = join(alloc, graph.count(), &kept, part)?;
    }
    Ok(kept)
}

/// The links at `Causal` that are kept, by an order in which causal pairs lead onward and by at most this many workers.
pub(crate) fn causal_links_by(
    rt: &(impl Threads + Sync),
    alloc: Global,
    graph: &LargeGraph,
    parents: &[u32],
    order: &[u32],
    workers: Workers,
) -> Result<FlatRows<u32>, NoMemory>
    requires parents { ArePrevious graph.now parents.now }
    requires numbering { IsNumbering (count graph.now) order.now }
    requires onward { LeadsOnward graph.now order.now }
    ensures { IfOk result (AreLinks (causally graph.now)) }
{
    let sweep = Sweep::new(alloc, graph, parents, order)?;
    let blocks = graph.sessions().len().div_ceil(WIDE);
    let count = shares_for(workers.count(), blocks as u32, graph.count());
    let shares = Shares {
        count,
        size: blocks.div_ceil(count as usize),
        blocks,
    };
    let parts = all_shares(rt, alloc, &sweep, &shares)?;
    joined(alloc, graph, &shares, &parts)
}
