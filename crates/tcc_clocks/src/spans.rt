//! The ranges of the transactions of a block of sessions among all, and among the writers of each key, by binary search.
ghost use Rattle.std.specs.Prelude.{◌<◌, ◌+◌, ℕ, length, OnOk};
ghost use Rattle.std.specs.List.Sorted.{IsNonDecreasing};
ghost use Rattle.tcc_graph.specs.Keys.{keys};
ghost use Rattle.tcc_clocks.specs.Spans.{IsCountBelow, IsSpan, AreSpans, AreBounds};

use crate::latest::WIDE;
use tcc_graph::LargeGraph;
use tcc_txn::NoMemory;

/// How many of these numbers, which ascend, are less than `bound`.
fn count_below(numbers: &[u32], bound: usize) -> usize
    requires { IsNonDecreasing numbers.now }
    ensures { IsCountBelow numbers.now bound result }
{
    numbers.partition_point(|number| (*number as usize) < bound)
}

/// Where those of these numbers, which ascend, from `low` to below `high` begin and end.
pub fn span_of(numbers: &[u32], low: usize, high: usize) -> (usize, usize)
    requires { IsNonDecreasing numbers.now }
    ensures { IsSpan numbers.now low high result.0 result.1 }
{
    let start = count_below(numbers, low);
    let end = count_below(numbers, high);
    (start, end)
}

/// Where the transactions from `low` to below `high` begin and end among the writers of each key.
pub fn find_spans(
    spans: &mut Vec<(usize, usize)>,
    graph: &LargeGraph,
    bounds: (usize, usize),
) -> Result<(), NoMemory>
    ensures { OnOk result (AreSpans graph.now bounds.0 bounds.1 spans.new.items (length (keys graph.now))) }
{
    spans.clear();
    for (index, _key) in graph.keys().iter().enumerate() {
        let Ok(key_index) = u32::try_from(index) else {
            return Err(NoMemory);
        };
        spans.push(span_of(graph.writers_at(key_index), bounds.0, bounds.1))?;
    }
    Ok(())
}

/// The range of the transactions of a block of sessions: from the first number to below the second.
pub fn block_bounds(owners: &[u32], from: u32) -> (usize, usize)
    requires { IsNonDecreasing owners.now }
    ensures { AreBounds owners.now from result.0 result.1 }
{
    (
        count_below(owners, from as usize),
        count_below(owners, from as usize + WIDE),
    )
}
