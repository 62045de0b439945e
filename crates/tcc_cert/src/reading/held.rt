//! The links of a claim, held as they come.
ghost use Rattle.std.specs.Prelude.{◌≡◌, [], Some};

use super::links::with_walk;
use crate::{Links, LinksSizes, TakesLinks};
use std::alloc::Global;
use tcc_graph::{Link, Step, Walk};
use tcc_txn::NoMemory;

/// The links so far, the link that has its steps still to come, and those that came.
#[derive(Drop)]
pub(crate) struct Held {
    alloc: Global,
    links: Vec<Link>,
    head: Option<Link>,
    steps: Vec<Step>,
}

impl Held {
    pub(crate) fn new(alloc: Global) -> Held
        ensures { result.links.items ≡ [] }
    {
        Held {
            alloc,
            links: Vec::new(alloc),
            head: None,
            steps: Vec::new(alloc),
        }
    }

    pub(crate) fn into_links(self) -> Links
        ensures { result ≡ self.links.items }
    {
        let Held { links, .. } = self;
        Links::new(links)
    }
}

impl TakesLinks for Held {
    ghost ready = { λ held h. Unit {0} };

    ghost took = { λ held h sizes links. held.links.items ≡ links };

    ghost takes = { λ held h sizes links head walk. (held.links.items ≡ links) × (held.head ≡ Some head) × (held.steps.items ≡ walk) };

    fn start(&mut self, _sizes: LinksSizes) {
        self.links = Vec::new(self.alloc);
    }

    fn begin(&mut self, head: Link) -> Result<(), NoMemory> {
        self.head = Some(head);
        self.steps = Vec::new(self.alloc);
        Ok(())
    }

    fn step(&mut self, step: Step) -> Result<(), NoMemory> {
        self.steps.push(step)?;
        Ok(())
    }

    fn end(&mut self) -> Result<(), NoMemory> {
        let steps = std::mem::replace(&mut self.steps, Vec::new(self.alloc));
        if let Some(head) = self.head.take() {
            self.links.push(with_walk(head, Walk::new(steps)))?;
        }
        Ok(())
    }
}
