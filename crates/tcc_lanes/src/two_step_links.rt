//! The derived links that lead back in an order: where they begin and at what price, and how far back they lead. They are found from 64
//! sources at a time (`pricing`). For S sources, T targets, N transactions and R reads this takes S / 64 rounds of sweeps of N + R, one
//! sweep for each length of walks that leads to anything new. It also takes at most S * T steps.
ghost use Rattle.std.specs.Prelude.{◌≡◌, ◌≤◌, ◌<◌, ◌+◌, ◌*◌, ◌↔◌, ℕ, min, max, length, set, slice_index, replicate, All, AllPairs, IfOk, IsTrue};
ghost use Rattle.tcc_reads.specs.History.{count};
ghost use Rattle.tcc_graph.specs.Levels.{judged};
ghost use Rattle.tcc_lanes.specs.{declared.pricing.TheConstants.NONE, declared.words.TheConstants.LANES};
ghost use Rattle.tcc_lanes.specs.private.{Marks.HasLane, Pricing.AreMarked, Pricing.cell};
ghost use Rattle.tcc_lanes.specs.private.Closings.{AreOffered, IsFromFirst, IsInColumn, IsInColumns};

use crate::hits::columns_of;
use crate::price_rows::longest_walk;
use crate::pricing::{LanePrices, NONE, prices_from};
use crate::tiles::tile_at;
use crate::words::LANES;
use std::alloc::Global;
use tcc_clocks::previous_of_each;
use tcc_graph::{LargeGraph, Level};
use tcc_txn::NoMemory;

/// The derived links that lead back, by where they begin and where they end.
#[derive(Drop)]
pub(crate) struct Closings {
    /// For each transaction the least price of one that begins there; `NONE` where none does.
    pub(crate) prices: Vec<u32>,
    /// For each transaction the last position from which one leads to it; 0 where none does.
    pub(crate) lasts: Vec<u32>,
}

impl Closings {
    /// None yet, of `count` transactions.
    fn new(alloc: Global, count: u32) -> Result<Closings, NoMemory>
        ensures prices { IfOk result (λ found. found.prices.items ≡ replicate count NONE) }
        ensures lasts { IfOk result (λ found. found.lasts.items ≡ replicate count 0) }
    {
        let prices = vec![in alloc; NONE; count as usize]?;
        let lasts = vec![in alloc; 0; count as usize]?;
        Ok(Closings { prices, lasts })
    }

    /// Takes in a link of a price, from a transaction at a position to another.
    fn offer(&mut self, from: u32, position: u32, to: u32, price: u32)
        requires from { from < length self.old.prices.items }
        requires to { to < length self.old.lasts.items }
        ensures prices { self.new.prices.items ≡ set self.old.prices.items from (min price (slice_index self.old.prices.items from)) }
        ensures lasts { self.new.lasts.items ≡ set self.old.lasts.items to (max position (slice_index self.old.lasts.items to)) }
    {
        self.prices[from as usize] = price.min(self.prices[from as usize]);
        self.lasts[to as usize] = position.max(self.lasts[to as usize]);
    }
}

/// Whether a link of a price leads back, and is so cheap that a cycle of fewer than `most` steps can have another besides it.
fn is_closing(price: u32, most: u32, from: u32, to: u32) -> bool
    ensures { IsTrue result ↔ ((price + 1 < most) × (to ≤ from)) }
{
    u64::from(price) + 1 < u64::from(most) && to <= from
}

/// Takes in the links that the table has in one column, whose word has the lanes with a price there.
fn offer_column(
    found: &mut Closings,
    positions: &[u32],
    most: u32,
    starts: &[u32],
    members: &[u32],
    table: &[u32],
    word: u64,
    column: usize,
)
    requires starts { All (λ b. b < length positions.now) starts.now }
    requires members { All (λ a. a < length positions.now) members.now }
    requires prices { length found.old.prices.items ≡ length positions.now }
    requires lasts { length found.old.lasts.items ≡ length positions.now }
    requires lanes { length starts.now ≤ LANES }
    requires inside { column < length members.now }
    requires long { length table.now ≡ length members.now * LANES }
    requires blank { (i : ℕ) → i < length starts.now → (HasLane word i → ⊥) → slice_index table.now (cell column i) ≡ NONE }
    ensures { AreOffered (IsInColumn positions.now most starts.now members.now table.now column (length starts.now)) (λ v. slice_index positions.now v)
        found.old.prices.items found.old.lasts.items found.new.prices.items found.new.lasts.items }
{
    if word == 0 {
        return;
    }
    let to = members[column];
    for (lane, from) in starts.iter().enumerate() {
        let price = table[column * LANES + lane];
        let position = positions[*from as usize];
        if is_closing(price, most, position, positions[to as usize]) {
            found.offer(*from, position, to, price);
        }
    }
}

/// Takes in the links that the table has.
fn offer_table(
    found: &mut Closings,
    positions: &[u32],
    most: u32,
    starts: &[u32],
    members: &[u32],
    prices: &LanePrices,
)
    requires starts { All (λ b. b < length positions.now) starts.now }
    requires members { All (λ a. a < length positions.now) members.now }
    requires prices { length found.old.prices.items ≡ length positions.now }
    requires lasts { length found.old.lasts.items ≡ length positions.now }
    requires lanes { length starts.now ≤ LANES }
    requires long { length prices.now.table.items ≡ length members.now * LANES }
    requires marked { AreMarked members.now starts.now prices.now.lanes.items prices.now.table.items }
    ensures { AreOffered (IsInColumns positions.now most starts.now members.now prices.now.table.items (length members.now)) (λ v. slice_index positions.now v)
        found.old.prices.items found.old.lasts.items found.new.prices.items found.new.lasts.items }
{
    for column in 0..members.len() {
        let word = prices.lanes[column];
        offer_column(
            found,
            positions,
            most,
            starts,
            members,
            &prices.table,
            word,
            column,
        );
    }
}

/// The derived links of fewer than `most - 1` steps that lead from one of these sources back to one of these targets, by the positions
/// of an order. The targets ascend, and `init` isn't among them.
#[tactic(auto, using(crate::proofs::TileLemmas::all_in_tile))]
pub(crate) fn find_closings(
    alloc: Global,
    graph: &LargeGraph,
    level: Level,
    most: u32,
    positions: &[u32],
    sources: &[u32],
    targets: &[u32],
) -> Result<Closings, NoMemory>
    requires positions { length positions.now ≡ count graph.now }
    requires sources { All (λ b. b < count graph.now) sources.now }
    requires committed { All (λ b. 0 < b) sources.now }
    requires targets { All (λ a. a < count graph.now) targets.now }
    requires some { All (λ a. 0 < a) targets.now }
    requires ascending { AllPairs (λ u v. u < v) targets.now }
    ensures { IfOk result (λ found. AreOffered (IsFromFirst (judged graph.now level) positions.now most sources.now targets.now (length sources.now))
        (λ v. slice_index positions.now v) (replicate (count graph.now) NONE) (replicate (count graph.now) 0) found.prices.items found.lasts.items) }
{
    // this call ensures that transactions are ordered by session and place
    graph.sessions();
    let parent_of = previous_of_each(alloc, graph)?;
    let columns = columns_of(alloc, graph, targets)?;
    // of a link that leaves one step besides it
    let longest = longest_walk(level, most.saturating_sub(1));
    let mut found = Closings::new(alloc, graph.count())?;
    for block in 0..sources.len().div_ceil(LANES) {
        let starts = tile_at(sources, block);
        let prices = prices_from(
            alloc, graph, level, &parent_of, &columns, targets, starts, longest,
        )?;
        offer_table(&mut found, positions, most, starts, targets, &prices);
    }
    Ok(found)
}
