//! The choice of a key and a reader for a reason, by linear search. After each key and reader the best is the first of the
//! nearest so far, since another replaces it only if it is nearer. For K keys it takes K look-ups, and a step for each of
//! their writers and for each read from the one transaction.
ghost use Rattle.std.specs.Prelude.{◌≡◌, ◌<◌, ℕ, List, length, All, Contains, MatchOption, slice_index};
ghost use Rattle.std.specs.List.Sorted.{IsStrictlySortedBy};
ghost use Rattle.std.specs.Ordering.{nat_cmp};
ghost use Rattle.tcc_reads.specs.History.{count};
ghost use Rattle.tcc_graph.specs.Links.{MayContradict};
ghost use Rattle.tcc_derive.specs.private.Choices.{IsNearest, IsNearestReader, IsChoice};
ghost use Rattle.tcc_near.specs.declared.walk_lengths.TheConstants.{NONE};

use tcc_graph::LargeGraph;
use tcc_near::NONE;
use tcc_txn::Name;

/// The first of the readers, which ascend, to which the fewest steps lead; none if no steps lead to any.
fn nearest(readers: &[u32], steps: &[u16]) -> Option<u32>
    requires order { IsStrictlySortedBy nat_cmp readers.now }
    requires below { All (λ c. c < length steps.now) readers.now }
    ensures { MatchOption result ((d : ℕ) → Contains readers.now d → slice_index steps.now d ≡ NONE) (IsNearest readers.now steps.now) }
{
    let mut least = NONE;
    let mut best = None;
    for reader in readers {
        let count = steps[*reader as usize];
        if count < least {
            least = count;
            best = Some(*reader);
        }
    }
    best
}

/// The first of the readers of the key that `b` may contradict to which the fewest steps lead.
fn nearest_reader(graph: &LargeGraph, steps: &[u16], b: u32, a: u32, key: &Name) -> Option<u32>
    requires from { b < count graph.now }
    requires to { a < count graph.now }
    requires long { length steps.now ≡ count graph.now }
    ensures { MatchOption result ((d : ℕ) → MayContradict graph.now b a key.now d → slice_index steps.now d ≡ NONE)
        (IsNearestReader graph.now steps.now b a key.now) }
{
    if b == a || !graph.writers(key).contains(&b) {
        return None;
    }
    nearest(graph.readers(a, key), steps)
}

/// The first, by key and by reader, of all keys and readers that `b` may contradict to which the fewest steps lead.
pub(crate) fn choice(graph: &LargeGraph, steps: &[u16], b: u32, a: u32) -> Option<(Name, u32)>
    requires from { b < count graph.now }
    requires to { a < count graph.now }
    requires long { length steps.now ≡ count graph.now }
    ensures { MatchOption result ((x : List ℕ) (d : ℕ) → MayContradict graph.now b a x d → slice_index steps.now d ≡ NONE)
        (λ found. IsChoice graph.now steps.now b a found.0 found.1) }
{
    let mut least = NONE;
    let mut best = None;
    for key in graph.keys() {
        if let Some(reader) = nearest_reader(graph, steps, b, a, key) {
            let distance = steps[reader as usize];
            if distance < least {
                least = distance;
                best = Some((*key, reader));
            }
        }
    }
    best
}
