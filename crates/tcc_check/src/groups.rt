//! Transactions in groups: the ends of links by their weights, readers by their sources.
ghost use Rattle.std.specs.Prelude.{◌≡◌, ◌<◌, ◌-◌, ◌^◌, ◌++◌, ◌∷◌, ◌↔◌, [], All, IfOk, IsTrue, OnOk};

use std::alloc::{AllocError, Global};
use std::marker::Model;

/// Transactions, each with what it is grouped by: an end of a link with the link's weight, or a reader with its source.
/// Neighbours with the same value are a group: that value, and how many they are.
#[derive(Drop)]
pub(crate) struct Groups {
    members: Vec<u16>,
    groups: Vec<(u32, u32)>,
}

impl Model for Groups {
    ghost use Rattle.std.specs.Prelude.{ℕ, List};
    ghost use Rattle.tcc_check.specs.private.Groups.{AreGroupsOf, links_by};

    ghost Value = { List (ℕ × ℕ) };

    ghost view = { λ e. links_by e.groups.items e.members.items };

    ghost invariant = { λ e. AreGroupsOf e.groups.items e.members.items };
}

/// Closes the group that is open, if any end is in it.
fn close_group(groups: &mut Vec<(u32, u32)>, by: u32, count: u32) -> Result<(), AllocError>
    ensures some { OnOk result (0 < count → groups.new.items ≡ groups.old.items ++ (by, count) ∷ []) }
    ensures none { OnOk result (count ≡ 0 → groups.new.items ≡ groups.old.items) }
{
    if count > 0 {
        groups.push((by, count))?;
    }
    Ok(())
}

/// Whether the group that is open goes on with the next: it has the same, and one more can be counted.
fn goes_on(by: u32, next: u32, count: u32) -> bool
    ensures { IsTrue result ↔ ((next ≡ by) × (count < 2 ^ 32 - 1)) }
{
    next == by && count < u32::MAX
}

impl Groups {
    ghost use Rattle.tcc_check.specs.private.Groups.{AreGroupsOf, links_by};

    /// These transactions, each with what it is grouped by.
    pub(crate) fn new(alloc: Global, all: &[(u32, u32)]) -> Result<Groups, AllocError>
        requires inside { All (λ one. one.0 < 2 ^ 16) all.now }
        ensures { IfOk result (λ e. e ≡ all.now) }
    {
        let mut members = Vec::with_capacity(alloc, all.len())?;
        let mut groups = Vec::new(alloc);
        let mut by = 0;
        let mut count = 0;
        for (member, next) in all {
            if !goes_on(by, *next, count) {
                close_group(&mut groups, by, count)?;
                count = 0;
            }
            by = *next;
            count += 1;
            members.push(*member as u16)?;
        }
        close_group(&mut groups, by, count)?;
        Ok(Groups { members, groups })
    }

    /// Whether a group has more than `many` members on average.
    pub(crate) fn are_wide(&self, many: usize) -> bool {
        self.groups.len() < self.members.len() / many.max(1)
    }

    /// The transactions, and the groups that they are in.
    pub(crate) fn parts(&self) -> (&[u16], &[(u32, u32)])
        ensures all { links_by result.1.now result.0.now ≡ self.now }
        ensures groups { AreGroupsOf result.1.now result.0.now }
    {
        (&self.members, &self.groups)
    }
}
