//! Values in groups that are numbered.
ghost use Rattle.std.specs.Prelude.{◌≡◌, length, map, zip, IfOk};
ghost use Rattle.std.specs.List.Sorted.{IsNonDecreasing};
ghost use Rattle.tcc_graph.specs.{private.Grouped.of_group, private.Grouped.IsSpan, Relations.has_items};

use std::alloc::Global;
use std::marker::Model;
use tcc_txn::NoMemory;

/// Values, each with the number of its group, by ascending groups.
#[derive(Drop)]
pub(crate) struct Grouped<T: Copy> {
    groups: Vec<u32>,
    values: Vec<T>,
}

impl<T: Copy> Model for Grouped<T> {
    ghost use Rattle.std.specs.Prelude.{◌≡◌, ℕ, List, length, zip};
    ghost use Rattle.std.specs.List.Sorted.{IsNonDecreasing};

    ghost Value = { List (ℕ × T) };

    ghost view = { λ g. zip g.groups.items g.values.items };

    ghost invariant = { λ g. (length g.values.items ≡ length g.groups.items) × IsNonDecreasing g.groups.items };
}

/// Where the span of a group begins and ends.
pub(crate) fn span(numbers: &[u32], group: u32) -> (usize, usize)
    requires { IsNonDecreasing numbers.now }
    ensures { IsSpan numbers.now group result.0 result.1 }
{
    let start = numbers.partition_point(|number| *number < group);
    let end = numbers.partition_point(|number| *number <= group);
    (start, end)
}

impl<T: Copy> Grouped<T> {
    /// Values in these groups.
    pub(crate) fn in_groups(
        alloc: Global,
        groups: &[u32],
        values: Vec<T>,
    ) -> Result<Grouped<T>, NoMemory>
        requires long { length values.items ≡ length groups.now }
        requires order { IsNonDecreasing groups.now }
        ensures { IfOk result (λ grouped. grouped ≡ zip groups.now values.items) }
    {
        let mut copied = Vec::with_capacity(alloc, groups.len())?;
        copied.extend_from_slice(groups)?;
        Ok(Grouped {
            groups: copied,
            values,
        })
    }

    /// The group of each value.
    pub(crate) fn groups(&self) -> &[u32]
        ensures { result.now ≡ map (λ p. p.0) self.now }
    {
        &self.groups
    }

    /// The values, in the order in which they were added.
    pub(crate) fn values(&self) -> &[T]
        ensures { result.now ≡ map (λ p. p.1) self.now }
    {
        &self.values
    }

    /// Whether the group has values.
    pub(crate) fn has(&self, group: u32) -> bool
        ensures { result ≡ has_items (of_group self.now group) }
    {
        let (start, end) = span(&self.groups, group);
        start < end
    }

    /// The values of a group, in the order in which they were added.
    pub(crate) fn get(&self, group: u32) -> &[T]
        ensures { result.now ≡ of_group self.now group }
    {
        let (start, end) = span(&self.groups, group);
        &self.values[start..end]
    }
}
