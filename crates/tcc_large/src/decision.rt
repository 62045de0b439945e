//! What is decided about a history.
use tcc_graph::Link;

/// What is decided about a history of any size at a level.
#[derive(Drop)]
pub enum Decision {
    /// The numbers of all transactions in the first commit order.
    Order(Vec<u32>),
    /// The links of a least cycle, in order; of the first by the rule of ties where it costs at most three steps.
    Least(Vec<Link>),
    /// The links of a cycle that costs more than four steps and passes no transaction twice, in order, where none costs less than
    /// four.
    Cycle(Vec<Link>),
}

impl Decision {
    ghost use Rattle.std.specs.Prelude.{MatchOption};
    ghost use Rattle.tcc_large.specs.Decisions.{HasLinks, HasNone};

    /// The links of the cycle, where it has one.
    pub fn links(&self) -> Option<&[Link]>
        ensures { MatchOption result (HasNone self.now) (λ links. HasLinks self.now links.now) }
    {
        match self {
            Decision::Least(links) | Decision::Cycle(links) => Some(links),
            Decision::Order(_) => None,
        }
    }
}
