//! Ascending numbers, searched by halving.
ghost use Rattle.std.specs.Prelude.{◌≡◌, ◌≤◌, ◌<◌, ◌↔◌, ℕ, length, Contains, IsTrue, MatchOption, nat_lt, nat_le, true, false, zip};
ghost use Rattle.std.specs.List.Sorted.{IsNonDecreasing, IsPartitionPoint};
ghost use Rattle.std.specs.Ordering.{nat_cmp};
ghost use Rattle.tcc_graph.specs.Relations.{AreInOrder};

/// How many of ascending numbers are less than `high`.
fn count_below(numbers: &[u32], high: u32) -> usize
    requires { IsNonDecreasing numbers.now }
    ensures bound { result ≤ length numbers.now }
    ensures point { IsPartitionPoint (λ n. nat_lt n high ≡ true) (λ n. nat_lt n high ≡ false) numbers.now result }
{
    numbers.partition_point(|number| *number < high)
}

/// How many of ascending numbers are no greater than `high`.
fn count_up_to(numbers: &[u32], high: u32) -> usize
    requires { IsNonDecreasing numbers.now }
    ensures bound { result ≤ length numbers.now }
    ensures point { IsPartitionPoint (λ n. nat_le n high ≡ true) (λ n. nat_le n high ≡ false) numbers.now result }
{
    numbers.partition_point(|number| *number <= high)
}

/// The last of ascending numbers below `high`.
pub(crate) fn last_below(numbers: &[u32], high: u32) -> Option<u32>
    requires { IsNonDecreasing numbers.now }
    ensures { MatchOption result ((n : ℕ) → Contains numbers.now n → high ≤ n)
        (λ last. Contains numbers.now last × (last < high) × ((n : ℕ) → Contains numbers.now n → n < high → n ≤ last)) }
{
    let count = count_below(numbers, high);
    if count == 0 {
        return None;
    }
    Some(numbers[count - 1])
}

/// The first of ascending numbers above `low`.
pub(crate) fn first_above(numbers: &[u32], low: u32) -> Option<u32>
    requires { IsNonDecreasing numbers.now }
    ensures { MatchOption result ((n : ℕ) → Contains numbers.now n → n ≤ low)
        (λ first. Contains numbers.now first × (low < first) × ((n : ℕ) → Contains numbers.now n → low < n → first ≤ n)) }
{
    let index = count_up_to(numbers, low);
    if index >= numbers.len() {
        return None;
    }
    Some(numbers[index])
}

/// Whether one of ascending numbers is at least `low` and less than `high`.
pub(crate) fn has_within(numbers: &[u32], low: u32, high: u32) -> bool
    requires { IsNonDecreasing numbers.now }
    ensures { IsTrue result ↔ ((n : ℕ) × Contains numbers.now n × (low ≤ n) × (n < high)) }
{
    let index = count_below(numbers, low);
    if index >= numbers.len() {
        return false;
    }
    numbers[index] < high
}

/// Whether a number is one of these, which ascend.
pub(crate) fn has_number(numbers: &[u32], number: u32) -> bool
    requires { IsNonDecreasing numbers.now }
    ensures { IsTrue result ↔ Contains numbers.now number }
{
    numbers.binary_search(&number).is_ok()
}

/// Of readers, each beside its source, those of one source.
pub(crate) fn readers_of<'a>(sources: &[u32], readers: &'a [u32], source: u32) -> &'a [u32]
    requires long { length sources.now ≡ length readers.now }
    requires order { AreInOrder nat_cmp sources.now readers.now }
    ensures rising { IsNonDecreasing result.now }
    ensures each { (c : ℕ) → Contains result.now c ↔ Contains (zip sources.now readers.now) (source, c) }
{
    let start = count_below(sources, source);
    let stop = count_up_to(sources, source);
    &readers[start..stop]
}
