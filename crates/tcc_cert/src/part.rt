//! A certificate in parts.
ghost use Rattle.std.specs.Prelude.{◌≡◌};
ghost use Rattle.tcc_cert.specs.Parts.{with_clocks, with_tables};

use crate::{CycleClaim, Links, Numbers, OrderClaim, Table, Version};
use tcc_graph::{Level, Link};

/// A claim of an order, without its clocks.
#[derive(Drop)]
pub struct OrderHead {
    pub version: Version,
    pub level: Level,
    /// The numbers of all transactions in the order.
    pub order: Numbers,
    /// How many sessions there are.
    pub sessions: u32,
}

impl OrderHead {
    /// The claim with these clocks.
    pub fn with_clocks(self, clocks: Table) -> OrderClaim
        ensures { result ≡ with_clocks self clocks }
    {
        OrderClaim {
            version: self.version,
            level: self.level,
            order: self.order,
            sessions: self.sessions,
            clocks,
        }
    }
}

/// A claim of a cycle, without its links and its tables.
#[derive(Clone, Copy)]
pub struct CycleHead {
    pub version: Version,
    pub level: Level,
    /// How many rows each of its tables has.
    pub count: u32,
    /// How many links there are.
    pub links: u32,
    /// What they cost.
    pub least: u32,
}

impl CycleHead {
    /// The claim with these links and tables.
    pub fn with_tables(self, links: Links, near: Table, far: Table) -> CycleClaim
        ensures { result ≡ with_tables self links near far }
    {
        CycleClaim {
            version: self.version,
            level: self.level,
            links,
            least: self.least,
            near,
            far,
        }
    }
}

/// What a certificate's text gives at a time.
#[derive(Drop)]
pub enum Part {
    /// What comes before the clocks of a claim of an order.
    Order(OrderHead),
    /// What comes before the links of a claim of a cycle.
    Cycle(CycleHead),
    /// The next link of the cycle.
    Link(Link),
    /// The next row of the clocks.
    Clocks(Numbers),
    /// The next row of `near`.
    Near(Numbers),
    /// The next row of `far`.
    Far(Numbers),
    /// There are no more parts, and the text ends.
    End,
}
