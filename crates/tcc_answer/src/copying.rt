//! The certificate of an answer as a value of its own, for those who want it in memory: its tables have the square of the number
//! of transactions. Who only writes it takes `write_certificate`, which takes no memory.
ghost use Rattle.std.specs.Prelude.{◌≡◌, IfOk};
ghost use Rattle.tcc_cert.specs.declared.certificate.Certificate.TheVariants as claim;
ghost use Rattle.tcc_answer.specs.Claims.{certificate_of, cycle_claim, order_claim};

use crate::{Anomaly, Answer, Commit};
use std::alloc::Global;
use tcc_cert::{Certificate, CycleClaim, Numbers, OrderClaim, Version};
use tcc_graph::Link;
use tcc_txn::{ListOf, NoMemory};

/// What can be copied, if there is memory for it.
trait Copyable: Drop {
    ghost use Rattle.std.specs.Prelude.{◌≡◌, IfOk};

    /// An equal value.
    fn copied(&self, alloc: Global) -> Result<Self, NoMemory>
        ensures { IfOk result (λ copy. copy ≡ self.now) };
}

impl Copyable for Link {
    fn copied(&self, alloc: Global) -> Result<Link, NoMemory> {
        self.copy(alloc)
    }
}

impl Copyable for Numbers {
    fn copied(&self, alloc: Global) -> Result<Numbers, NoMemory> {
        self.copy(alloc)
    }
}

/// An equal list.
fn copied_list<T: Copyable>(alloc: Global, items: &[T]) -> Result<ListOf<T>, NoMemory>
    ensures { IfOk result (λ copy. copy ≡ items.now) }
{
    let mut copy = Vec::new(alloc);
    for item in items {
        copy.push(item.copied(alloc)?)?;
    }
    Ok(ListOf::new(copy))
}

/// An equal claim of an order.
fn copied_order(alloc: Global, claim: &OrderClaim) -> Result<OrderClaim, NoMemory>
    ensures { IfOk result (λ copy. copy ≡ claim.now) }
{
    let order = claim.order.copy(alloc)?;
    let clocks = copied_list(alloc, claim.clocks.as_slice())?;
    Ok(OrderClaim {
        version: claim.version,
        level: claim.level,
        order,
        sessions: claim.sessions,
        clocks,
    })
}

impl Anomaly {
    /// The certificate, with the answer's own level and links, as a value of its own.
    pub fn certificate(&self, alloc: Global) -> Result<Certificate, NoMemory>
        ensures { IfOk result (λ certificate. certificate ≡ claim.Cycle (cycle_claim self.now)) }
    {
        let links = copied_list(alloc, self.links())?;
        let near = self.near().table(alloc)?;
        let far = self.far().table(alloc)?;
        Ok(Certificate::Cycle(CycleClaim {
            version: Version::Two,
            level: self.level(),
            links,
            least: self.cost(),
            near,
            far,
        }))
    }
}

impl Answer {
    /// The certificate, with the answer's own level, order or links, as a value of its own. That of an order is borrowed by
    /// `Commit::certificate`.
    pub fn certificate(&self, alloc: Global) -> Result<Certificate, NoMemory>
        ensures { IfOk result (λ certificate. certificate ≡ certificate_of self.now) }
    {
        match self {
            Answer::Commit(commit) => copied(alloc, commit),
            Answer::Anomaly(anomaly) => anomaly.certificate(alloc),
        }
    }
}

/// The certificate of an order.
fn copied(alloc: Global, commit: &Commit) -> Result<Certificate, NoMemory>
    ensures { IfOk result (λ certificate. certificate ≡ claim.Order (order_claim commit.now)) }
{
    match commit.certificate() {
        Certificate::Order(claim) => Ok(Certificate::Order(copied_order(alloc, claim)?)),
        Certificate::Cycle(_) => unreachable!(),
    }
}
