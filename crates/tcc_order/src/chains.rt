//! Chains of items, which are singly linked lists in one array. Each link has an item, and leads to an earlier link or to none.
//! So one more item takes one link, and a chain no list of its own.
ghost use Rattle.std.specs.Prelude.{◌≡◌, ◌<◌, ◌∷◌, ◌++◌, length, set, IfOk, OnOk};
ghost use Rattle.tcc_graph.specs.Tables.{row_of};
ghost use Rattle.tcc_order.specs.private.CausalLinks.{HasNone};

use std::alloc::{AllocError, Global};
use std::marker::Model;
use tcc_txn::NoMemory;

/// Chains, which contracts see as a list of lists.
#[derive(Drop)]
pub(crate) struct Chains<T> {
    /// Where each chain begins: one past the index of a link, or 0 if the chain is empty.
    starts: Vec<u32>,
    /// An item, and where its chain goes on.
    links: Vec<(T, u32)>,
}

impl<T> Model for Chains<T> {
    ghost use Rattle.std.specs.Prelude.{◌≤◌, List, length, map, reverse, All};
    ghost use Rattle.tcc_order.specs.private.Chains.{chain, LeadBack};

    ghost Value = { List (List T) };

    ghost view = { λ c. map (chain (reverse c.links.items)) c.starts.items };

    ghost invariant = { λ c. LeadBack (reverse c.links.items) × All (λ start. start ≤ length c.links.items) c.starts.items };
}

impl<T: Copy> Chains<T> {
    /// This many empty chains.
    pub(crate) fn new(alloc: Global, count: u32) -> Result<Chains<T>, AllocError>
        ensures long { IfOk result (λ chains. length chains ≡ count) }
        ensures none { IfOk result (λ chains. HasNone chains) }
    {
        let starts = vec![in alloc; 0; count as usize]?;
        Ok(Chains {
            starts,
            links: Vec::new(alloc),
        })
    }

    /// One more item at the front of a chain.
    pub(crate) fn push(&mut self, number: u32, item: T) -> Result<(), NoMemory>
        requires { number < length self.old }
        ensures same { length self.new ≡ length self.old }
        ensures value { OnOk result (self.new ≡ set self.old number (item ∷ row_of self.old number)) }
    {
        let next = self.starts[number as usize];
        self.links.push((item, next))?;
        let Ok(start) = u32::try_from(self.links.len()) else {
            return Err(NoMemory);
        };
        self.starts[number as usize] = start;
        Ok(())
    }

    /// Appends the items of a chain to a list.
    pub(crate) fn append_to(&self, list: &mut Vec<T>, number: u32) -> Result<(), AllocError>
        requires { number < length self.now }
        ensures { OnOk result (list.new.items ≡ list.old.items ++ row_of self.now number) }
    {
        let mut start = self.starts[number as usize];
        while start > 0 {
            let (item, next) = self.links[(start - 1) as usize];
            list.push(item)?;
            start = next;
        }
        Ok(())
    }
}
