//! What the links of a cycle need of their transactions.
ghost use Rattle.std.specs.Prelude.{IfOk, OnOk, ◌≡◌, ◌++◌, flat_map};
ghost use Rattle.std.specs.List.Sorted.{IsPermutation};
ghost use Rattle.tcc_graph.specs.declared.step.Step.TheVariants as step;
ghost use Rattle.tcc_slices.specs.private.Needing.{AreByNumber, AreNeeds, need_at, needs_of_link, needs_of_step};

use std::alloc::{AllocError, Global};
use tcc_graph::{Link, Step};
use tcc_txn::Name;

/// What of a transaction is needed.
#[derive(Clone, Copy, PartialEq, Eq)]
pub(crate) enum Need {
    /// That it is there.
    There,
    /// Its visible write of a key.
    Write { key: Name },
    /// Its read of a key from this source.
    Read { key: Name, source: u32 },
}

/// What is needed of each transaction but `init`, by number; some of it more than once.
#[derive(Drop)]
pub(crate) struct Needs {
    each: Vec<(u32, Need)>,
}

impl Needs {
    /// What these links need.
    pub(crate) fn of(alloc: Global, links: &[Link]) -> Result<Needs, AllocError>
        ensures all { IfOk result (λ needs. IsPermutation (flat_map needs_of_link links.now) needs.each.items) }
        ensures sorted { IfOk result (λ needs. AreByNumber needs.each.items) }
        ensures theirs { IfOk result (λ needs. AreNeeds links.now needs.each.items) }
    {
        let mut needs = Needs {
            each: Vec::new(alloc),
        };
        for link in links {
            needs.add_link(link)?;
        }
        needs.each.sort_unstable_by_key(|need| need.0);
        Ok(needs)
    }

    /// All of it, by number.
    pub(crate) fn each(&self) -> &[(u32, Need)]
        ensures { result.now ≡ self.now.each.items }
    {
        &self.each
    }

    fn add(&mut self, number: u32, need: Need) -> Result<(), AllocError>
        ensures { OnOk result (self.new.each.items ≡ self.old.each.items ++ need_at number need) }
    {
        if number != 0 {
            self.each.push((number, need))?;
        }
        Ok(())
    }

    fn add_session(&mut self, from: u32, to: u32) -> Result<(), AllocError>
        ensures { OnOk result (self.new.each.items ≡ self.old.each.items ++ needs_of_step (step.Session from to)) }
    {
        self.add(from, Need::There)?;
        self.add(to, Need::There)
    }

    fn add_read(&mut self, source: u32, reader: u32, key: Name) -> Result<(), AllocError>
        ensures { OnOk result (self.new.each.items ≡ self.old.each.items ++ needs_of_step (step.Reads source reader key)) }
    {
        self.add(source, Need::Write { key })?;
        self.add(reader, Need::Read { key, source })
    }

    fn add_step(&mut self, step: &Step) -> Result<(), AllocError>
        ensures { OnOk result (self.new.each.items ≡ self.old.each.items ++ needs_of_step step.now) }
    {
        match step {
            Step::Session { from, to } => self.add_session(*from, *to),
            Step::Reads { from, to, key } => self.add_read(*from, *to, *key),
        }
    }

    fn add_steps(&mut self, steps: &[Step]) -> Result<(), AllocError>
        ensures { OnOk result (self.new.each.items ≡ self.old.each.items ++ flat_map needs_of_step steps.now) }
    {
        for step in steps {
            self.add_step(step)?;
        }
        Ok(())
    }

    fn add_link(&mut self, link: &Link) -> Result<(), AllocError>
        ensures { OnOk result (self.new.each.items ≡ self.old.each.items ++ needs_of_link link.now) }
    {
        let (from, to) = (link.from(), link.to());
        match link {
            Link::Session { .. } => self.add_session(from, to),
            Link::Reads { key, .. } => self.add_read(from, to, *key),
            Link::Derived {
                key,
                reader,
                walk,
                ..
            } => {
                self.add(from, Need::Write { key: *key })?;
                self.add_read(to, *reader, *key)?;
                self.add_steps(walk.as_slice())
            }
        }
    }
}
