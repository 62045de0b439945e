//! Whether a map of numbers carries the links of a small history into a large one.
ghost use Rattle.std.specs.Prelude.{◌≡◌, ◌↔◌, ◌<◌, ◌^◌, ℕ, List, IsTrue, length, slice_index};
ghost use Rattle.tcc_reads.specs.History.{count};
ghost use Rattle.tcc_graph.specs.Relations.{IsReadsPair, IsSessionPair};
ghost use Rattle.tcc_slices.specs.Slices.{IsCarried};
ghost use Rattle.tcc_slices.specs.private.Carrying.{carry, Fits, Keeps, KeepsReads, KeepsSessions, KeepsWrites, IsRising};

use tcc_graph::{Graph, LargeGraph, Level, Link};

/// The number that one has in the large history; 0 where it has none.
pub(crate) fn carried(numbers: &[u32], number: u32) -> u32
    ensures { result ≡ carry numbers.now number }
{
    match numbers.get(number as usize) {
        Some(found) => *found,
        None => 0,
    }
}

/// Whether all that is read from a transaction is read from it in the large history too.
fn keeps_reads(small: &Graph, large: &LargeGraph, numbers: &[u32], source: u32) -> bool
    requires { source < count small.now }
    ensures { IsTrue result ↔ KeepsReads numbers.now small.now large.now source }
{
    let (readers, keys) = small.readings(source);
    for (index, reader) in readers.iter().enumerate() {
        let link = Link::Reads {
            from: carried(numbers, source),
            to: carried(numbers, *reader),
            key: keys[index],
        };
        if !large.is_link(Level::Causal, &link) {
            return false;
        }
    }
    true
}

/// Whether a transaction comes before all those in the large history too that it comes before in session order.
fn keeps_sessions(small: &Graph, large: &LargeGraph, numbers: &[u32], first: u32) -> bool
    requires { first < count small.now }
    ensures { IsTrue result ↔ KeepsSessions numbers.now small.now large.now first }
{
    let from = carried(numbers, first);
    let (low, high) = small.later(first);
    for later in low..high {
        let to = carried(numbers, later);
        if !large.is_link(Level::Causal, &Link::Session { from, to }) {
            return false;
        }
    }
    true
}

/// Whether all that a transaction writes it writes in the large history too.
fn keeps_writes(small: &Graph, large: &LargeGraph, numbers: &[u32], writer: u32) -> bool
    requires { writer < count small.now }
    ensures { IsTrue result ↔ KeepsWrites numbers.now small.now large.now writer }
{
    for key in small.writes(writer) {
        if !large.is_writer(carried(numbers, writer), key) {
            return false;
        }
    }
    true
}

/// Whether all three are so of a transaction.
fn keeps(small: &Graph, large: &LargeGraph, numbers: &[u32], number: u32) -> bool
    requires { number < count small.now }
    ensures { IsTrue result ↔ Keeps numbers.now small.now large.now number }
{
    keeps_reads(small, large, numbers, number)
        && keeps_sessions(small, large, numbers, number)
        && keeps_writes(small, large, numbers, number)
}

/// Whether the numbers, which rise, are one for each transaction of the small history, from 0 on.
pub(crate) fn fits(small: &Graph, large: &LargeGraph, numbers: &[u32]) -> bool
    requires { IsRising numbers.now }
    ensures fits { IsTrue result → Fits numbers.now small.now large.now }
    ensures few { IsTrue result → length numbers.now < 2 ^ 32 }
    ensures kept { length numbers.now ≡ count small.now → slice_index numbers.now 0 ≡ 0 → IsTrue result }
{
    // The large history has `init` at least.
    large.count() > 0 && numbers.len() == small.count() as usize && numbers[0] == 0
}

/// Whether by these numbers, one for each transaction of the small history, each of its links is a link of the large one.
pub(crate) fn is_carried(small: &Graph, large: &LargeGraph, numbers: &[u32]) -> bool
    requires { Fits numbers.now small.now large.now }
    ensures told { IsTrue result → IsCarried (carry numbers.now) small.now large.now }
    ensures kept { ((n : ℕ) → n < count small.now → Keeps numbers.now small.now large.now n) → IsTrue result }
{
    for number in 0..small.count() {
        if !keeps(small, large, numbers, number) {
            return false;
        }
    }
    true
}
