//! Steps, walks and links in the numbers of another history.
ghost use Rattle.std.specs.Prelude.{◌≡◌, ℕ, map, IfOk};
ghost use Rattle.tcc_graph.specs.Renumbered.{link_by, step_by};

use crate::{Link, Step, Walk};
use std::alloc::Global;
use tcc_txn::NoMemory;

/// The numbers that the transactions of a history have in another one.
pub trait Renumbering {
    ghost use Rattle.std.specs.Prelude.{◌≡◌, ℕ};

    ghost by: { Self → ℕ → ℕ };

    /// The number there of a transaction with this number.
    fn number(&self, number: u32) -> u32
        ensures { result ≡ by self.now number };
}

/// The numbers as they are.
pub(crate) struct Same;

impl Renumbering for Same {
    ghost by = { λ same number. number };

    fn number(&self, number: u32) -> u32 {
        number
    }
}

impl Step {
    /// The step in other numbers.
    fn renumbered<N: Renumbering>(&self, numbers: &N) -> Step
        ensures { result ≡ step_by (N.by numbers.now) self.now }
    {
        let from = numbers.number(self.from());
        let to = numbers.number(self.to());
        match self {
            Step::Session { .. } => Step::Session { from, to },
            Step::Reads { key, .. } => Step::Reads {
                from,
                to,
                key: *key,
            },
        }
    }
}

/// The walk in other numbers.
fn renumbered_walk<N: Renumbering>(
    alloc: Global,
    walk: &Walk,
    numbers: &N,
) -> Result<Walk, NoMemory>
    ensures { IfOk result (λ other. other ≡ map (step_by (N.by numbers.now)) walk.now) }
{
    let mut steps = Vec::new(alloc);
    for step in walk.as_slice() {
        steps.push(step.renumbered(numbers))?;
    }
    Ok(Walk::new(steps))
}

impl Link {
    /// The link in other numbers.
    pub fn renumbered<N: Renumbering>(&self, alloc: Global, numbers: &N) -> Result<Link, NoMemory>
        ensures { IfOk result (λ link. link ≡ link_by (N.by numbers.now) self.now) }
    {
        let from = numbers.number(self.from());
        let to = numbers.number(self.to());
        match self {
            Link::Session { .. } => Ok(Link::Session { from, to }),
            Link::Reads { key, .. } => Ok(Link::Reads {
                from,
                to,
                key: *key,
            }),
            Link::Derived {
                key,
                reader,
                walk,
                ..
            } => Ok(Link::Derived {
                from,
                to,
                key: *key,
                reader: numbers.number(*reader),
                walk: renumbered_walk(alloc, walk, numbers)?,
            }),
        }
    }
}
