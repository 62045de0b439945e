//! Numbers of which the least is taken out next: a binary heap, with log N steps for each that is added to or taken out of N.
ghost use Rattle.std.specs.Prelude.{◌≡◌, ◌⊎◌, ◌↔◌, ℕ, Contains, OnOk, MatchOption};
ghost use Rattle.tcc_order.specs.private.Queued.{IsPopped};

use std::alloc::{AllocError, Global};
use std::cmp::Reverse;
use std::collections::BinaryHeap;
use std::marker::Model;

/// Numbers in a heap, which contracts see as a list in no order.
#[derive(Drop)]
pub(crate) struct Ready {
    heap: BinaryHeap<Reverse<u32>>,
}

impl Model for Ready {
    ghost use Rattle.std.specs.Prelude.{ℕ, List, map};
    ghost use Rattle.std.specs.BinaryHeap.{IsHeap, heap_items};
    ghost use Rattle.std.specs.Ordering.{nat_cmp};

    ghost Value = { List ℕ };

    ghost view = { λ t. map (λ r. r.0) (heap_items t.heap) };

    ghost invariant = { λ t. IsHeap (λ x y. nat_cmp y.0 x.0) (heap_items t.heap) };
}

impl Ready {
    /// No numbers.
    pub(crate) fn new(alloc: Global) -> Ready
        ensures { (x : ℕ) → Contains result x → ⊥ }
    {
        let heap = BinaryHeap::new(alloc);
        Ready { heap }
    }

    /// One more number.
    pub(crate) fn push(&mut self, number: u32) -> Result<(), AllocError>
        ensures { OnOk result ((x : ℕ) → Contains self.new x ↔ (Contains self.old x ⊎ (x ≡ number))) }
    {
        self.heap.push(Reverse(number))?;
        Ok(())
    }

    /// Takes the least number out.
    pub(crate) fn pop(&mut self) -> Option<u32>
        ensures { MatchOption result ((x : ℕ) → Contains self.old x → ⊥) (λ x. IsPopped self.old x self.new) }
    {
        let top = self.heap.pop()?;
        Some(top.0)
    }
}
