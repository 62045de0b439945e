//! Rounds of up to three pairs, by a test of each reads-from pair: whether one or two pairs lead back from the reader. With R
//! reads, each with at most D sources, it takes R * D look-ups by binary search.
ghost use Rattle.std.specs.Prelude.{◌≡◌, ◌≤◌, ◌<◌, ◌↔◌, ℕ, IsTrue, MatchOption};
ghost use Rattle.tcc_reads.specs.History.{count};
ghost use Rattle.tcc_graph.specs.Relations.{IsCausalPair};
ghost use Rattle.tcc_least.specs.Shapes.{IsRead, IsRound, IsFirstPlace};
ghost use Rattle.tcc_least.specs.private.Rounds.{IsBack};

use tcc_graph::LargeGraph;

/// Whether a pair leads from one transaction to a source of the other.
fn leads_to_source(graph: &LargeGraph, from: u32, to: u32) -> bool
    requires from { from < count graph.now }
    requires to { to < count graph.now }
    ensures { IsTrue result ↔ ((d : ℕ) × IsRead graph.now d to × IsCausalPair graph.now from d) }
{
    for read in graph.reads_at(to) {
        if graph.causal(from, read.1) {
            return true;
        }
    }
    false
}

/// Whether a transaction and a reader of it are in a round of fewer than `below` pairs.
fn is_back(graph: &LargeGraph, below: u64, source: u32, reader: u32) -> bool
    requires source { source < count graph.now }
    requires reader { reader < count graph.now }
    ensures { IsTrue result ↔ IsBack graph.now below source reader }
{
    if below <= 1 {
        return false;
    }
    if reader == source {
        return true;
    }
    if below <= 2 {
        return false;
    }
    if graph.causal(reader, source) {
        return true;
    }
    below > 3 && leads_to_source(graph, reader, source)
}

/// The first reader of a transaction that is in a round of fewer than `below` pairs with it.
fn first_reader(graph: &LargeGraph, below: u64, source: u32) -> Option<u32>
    requires { source < count graph.now }
    ensures { MatchOption result ((c : ℕ) → IsRound graph.now below source c → ⊥)
        (λ c. IsRound graph.now below source c × ((d : ℕ) → IsRound graph.now below source d → c ≤ d)) }
{
    for reader in graph.readings_at(source).0 {
        if is_back(graph, below, source, *reader) {
            return Some(*reader);
        }
    }
    None
}

/// The first reads-from pair in a round of fewer than `below` pairs.
pub(crate) fn first_round(graph: &LargeGraph, below: u64) -> Option<(u32, u32)>
    ensures { MatchOption result ((a : ℕ) (c : ℕ) → IsRound graph.now below a c → ⊥)
        (λ place. IsFirstPlace (IsRound graph.now below) place.0 place.1) }
{
    for source in 0..graph.count() {
        if let Some(reader) = first_reader(graph, below, source) {
            return Some((source, reader));
        }
    }
    None
}
