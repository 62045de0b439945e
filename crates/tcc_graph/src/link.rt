//! One link of a cycle.
ghost use Rattle.std.specs.Prelude.{◌↔◌, All, IsTrue};
ghost use Rattle.tcc_graph.specs.Walks.{IsStepBelow};

use crate::renumbering::Same;
use crate::{Step, Walk};
use std::alloc::Global;
use tcc_txn::{Name, NoMemory};

/// A pair of transactions that every commit order keeps.
#[derive(Drop)]
pub enum Link {
    /// `from` is before `to` in session order, adjacent or not.
    Session {
        from: u32,
        to: u32,
    },
    /// `to` reads `key` from `from`.
    Reads {
        from: u32,
        to: u32,
        key: Name,
    },
    /// `reader` reads `key` from `to`, and `from`, which writes `key` too, reaches `reader` by `walk`.
    Derived {
        from: u32,
        to: u32,
        key: Name,
        reader: u32,
        walk: Walk,
    },
}

/// Whether both ends of each step are numbers below the count.
fn are_steps_below(steps: &[Step], count: u32) -> bool
    ensures { IsTrue result ↔ All (IsStepBelow count) steps.now }
{
    steps.iter().all(|step| step.is_below(count))
}

impl Link {
    ghost use Rattle.std.specs.Prelude.{◌≡◌, ◌↔◌, IfOk, IsTrue};
    ghost use Rattle.tcc_graph.specs.Levels.{Judged};
    ghost use Rattle.tcc_graph.specs.Walks.{IsStep, step_from, step_to};
    ghost use Rattle.tcc_graph.specs.Links.{IsLink, IsLinkBelow, link_cost, link_from, link_of, link_to};

    /// The link of a pair that is one step.
    pub fn of(step: Step) -> Link
        ensures value { result ≡ link_of step }
        ensures from { link_from result ≡ step_from step }
        ensures to { link_to result ≡ step_to step }
        ensures link { (j : Judged) → IsStep j.history step → IsLink j result }
    {
        match step {
            Step::Session { from, to } => Link::Session { from, to },
            Step::Reads { from, to, key } => Link::Reads { from, to, key },
        }
    }

    /// Where it begins.
    pub fn from(&self) -> u32
        ensures { result ≡ link_from self.now }
    {
        match self {
            Link::Session { from, .. } | Link::Reads { from, .. } | Link::Derived { from, .. } =>
                *from,
        }
    }

    /// Where it ends.
    pub fn to(&self) -> u32
        ensures { result ≡ link_to self.now }
    {
        match self {
            Link::Session { to, .. } | Link::Reads { to, .. } | Link::Derived { to, .. } => *to,
        }
    }

    /// How many steps it unfolds to. For a derived link these are the steps of its walk, and the read that it contradicts.
    pub fn cost(&self) -> usize
        ensures { result ≡ link_cost self.now }
    {
        match self {
            Link::Session { .. } | Link::Reads { .. } => 1,
            Link::Derived { walk, .. } => walk.as_slice().len() + 1,
        }
    }

    /// Whether all numbers in it, the reader and the walk among them, are below the count.
    pub fn is_below(&self, count: u32) -> bool
        ensures { IsTrue result ↔ IsLinkBelow count self.now }
    {
        match self {
            Link::Session { from, to } | Link::Reads { from, to, .. } => {
                *from < count && *to < count
            }
            Link::Derived {
                from,
                to,
                reader,
                walk,
                ..
            } => {
                *from < count
                    && *to < count
                    && *reader < count
                    && are_steps_below(walk.as_slice(), count)
            }
        }
    }

    /// An equal link.
    pub fn copy(&self, alloc: Global) -> Result<Link, NoMemory>
        ensures { IfOk result (λ copy. copy ≡ self.now) }
    {
        self.renumbered(alloc, &Same)
    }
}
