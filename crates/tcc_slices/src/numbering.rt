//! The numbers that the transactions of a slice have in the whole, and those of the whole in the slice: by halving, one for each look.
ghost use Rattle.std.specs.Prelude.{◌≡◌, ◌<◌, ◌≤◌, ◌^◌, ℕ, Contains, IfOk, length, map, slice_index};
ghost use Rattle.tcc_graph.specs.Renumbered.{link_by};
ghost use Rattle.tcc_slices.specs.{private.Carrying.IsRising, private.Carrying.place, private.Needing.AreByNumber};

use crate::needs::Need;
use std::alloc::Global;
use tcc_graph::{Link, Renumbering};
use tcc_txn::NoMemory;

/// The numbers of the transactions that have a need, ascending, and before them that of `init`.
pub(crate) fn numbers_of(alloc: Global, needs: &[(u32, Need)]) -> Result<Vec<u32>, NoMemory>
    requires { AreByNumber needs.now }
    ensures some { IfOk result (λ numbers. 0 < length numbers.items) }
    ensures first { IfOk result (λ numbers. slice_index numbers.items 0 ≡ 0) }
    ensures rising { IfOk result (λ numbers. IsRising numbers.items) }
    ensures all { IfOk result (λ numbers. (n : ℕ) → Contains (map (λ one. one.0) needs.now) n → Contains numbers.items n) }
    ensures only { IfOk result (λ numbers. (k : ℕ) → 0 < k → k < length numbers.items
        → Contains (map (λ one. one.0) needs.now) (slice_index numbers.items k)) }
{
    let mut last = 0;
    let mut numbers = Vec::new(alloc);
    numbers.push(last)?;
    for one in needs {
        if one.0 > last {
            last = one.0;
            numbers.push(last)?;
        }
    }
    Ok(numbers)
}

/// Where a number stands among numbers that rise; past the last where it is none of them.
fn place(numbers: &[u32], number: u32) -> usize
    requires { IsRising numbers.now }
    ensures value { result ≡ place numbers.now number }
    ensures low { result ≤ length numbers.now }
{
    match numbers.binary_search(&number) {
        Ok(index) => index,
        Err(_) => numbers.len(),
    }
}

/// The numbers that transactions of a whole have in a slice, by those that the slice's transactions have in the whole.
#[derive(Drop)]
struct InSlice<'a> {
    numbers: &'a [u32],
    ghost rising: { IsRising numbers.now },
    ghost few: { length numbers.now < 2 ^ 32 },
}

impl Renumbering for InSlice<'_> {
    ghost by = { λ slice. place slice.numbers.now };

    fn number(&self, number: u32) -> u32 {
        place(self.numbers, number) as u32
    }
}

/// Links of a whole in the numbers of a slice of it.
pub(crate) fn in_slice(
    alloc: Global,
    numbers: &[u32],
    links: &[Link],
) -> Result<Vec<Link>, NoMemory>
    requires rising { IsRising numbers.now }
    requires few { length numbers.now < 2 ^ 32 }
    ensures { IfOk result (λ own. own.items ≡ map (link_by (place numbers.now)) links.now) }
{
    let slice = InSlice { numbers };
    let mut own = Vec::new(alloc);
    for link in links {
        own.push(link.renumbered(alloc, &slice)?)?;
    }
    Ok(own)
}
