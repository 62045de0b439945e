//! One level of the search: each lane goes on along the pairs from where it is marked.
ghost use Rattle.std.specs.Prelude.{◌≡◌, ◌<◌, ◌↔◌, ℕ, false, length, slice_index};
ghost use Rattle.tcc_reads.specs.History.{IsBySession, count};
ghost use Rattle.tcc_clocks.specs.Parents.{ArePrevious};
ghost use Rattle.tcc_lanes.specs.declared.words.TheConstants.{LANES};
ghost use Rattle.tcc_lanes.specs.private.Marks.{HasLane, IsAt, IsLedTo, IsReadFrom, run_on};

use tcc_graph::LargeGraph;

/// The lanes that are marked at a source of a transaction.
fn at_sources(graph: &LargeGraph, marks: &[u64], v: u32) -> u64
    requires below { v < count graph.now }
    requires long { length marks.now ≡ count graph.now }
    ensures { (i : ℕ) → i < LANES → HasLane result i ↔ IsReadFrom graph.now marks.now v i }
{
    let mut word = 0;
    for read in graph.reads_at(v) {
        word |= marks[read.1 as usize];
    }
    word
}

/// The lanes that are marked at a transaction before this one in session order, from those of the previous index.
fn before(parent_of: &[u32], marks: &[u64], run: u64, v: u32) -> u64
    requires v { v < length parent_of.now }
    requires parents { (p : ℕ) → p < length parent_of.now → slice_index parent_of.now p < length marks.now }
    ensures { result ≡ run_on parent_of.now marks.now run v }
{
    if v == 0 {
        return 0;
    }
    let parent = parent_of[v as usize];
    if parent == 0 {
        marks[0]
    } else {
        run | marks[parent as usize]
    }
}

/// Whether anything is new: something was before, or this word has changed.
fn is_new_by(is_new: bool, old: u64, word: u64) -> bool
    ensures { result ≡ false → (is_new ≡ false) × (word ≡ old) }
{
    is_new || word != old
}

/// Marks each lane where a pair leads from where it is marked, and nowhere else. It returns whether any word has changed.
pub(crate) fn spread(
    graph: &LargeGraph,
    parent_of: &[u32],
    marks: &[u64],
    found: &mut [u64],
) -> bool
    requires numbered { IsBySession graph.now.entries }
    requires parents { ArePrevious graph.now parent_of.now }
    requires long { length marks.now ≡ count graph.now }
    requires room { length found.old ≡ count graph.now }
    ensures same { length found.new ≡ count graph.now }
    ensures each { (v : ℕ) (i : ℕ) → v < count graph.now → i < LANES → IsAt found.new v i ↔ IsLedTo graph.now marks.now v i }
    ensures still { result ≡ false → (v : ℕ) → v < count graph.now → slice_index found.new v ≡ slice_index found.old v }
{
    let mut run = 0;
    let mut is_new = false;
    for v in 0..graph.count() {
        run = before(parent_of, marks, run, v);
        let word = run | at_sources(graph, marks, v);
        is_new = is_new_by(is_new, found[v as usize], word);
        found[v as usize] = word;
    }
    is_new
}
