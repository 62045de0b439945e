//! What an answer about a history of any size claims.
use crate::Links;
use tcc_graph::{Level, Link, Step};
use tcc_txn::{ListOf, NoMemory};

/// The next `count` committed transactions of a session, in an order that keeps the order of each session.
#[derive(Clone, Copy)]
pub struct Run {
    /// The index of the session, counted from 0 as the history has them.
    pub session: u32,
    /// How many transactions. In a certificate's text it is at least 1.
    pub count: u32,
}

/// An order of all transactions but `init`, which comes first: run by run.
pub type Runs = ListOf<Run>;

/// A claim that an order, given as runs, is a commit order of a history at a level. Nothing else is needed to check it.
#[derive(Drop)]
pub struct RunsClaim {
    pub level: Level,
    /// How many transactions there are, `init` among them.
    pub transactions: u32,
    /// How many sessions there are.
    pub sessions: u32,
    pub runs: Runs,
}

/// A claim that some links are a cycle of a history at a level, and perhaps that it is a least one.
#[derive(Drop)]
pub struct LinksClaim {
    pub level: Level,
    /// How many transactions there are, `init` among them.
    pub transactions: u32,
    /// The links of the cycle.
    pub links: Links,
    /// What they cost.
    pub cost: u32,
    /// Where it is claimed that no cycle costs less: the runs of an order that keeps all session and reads-from pairs. Up
    /// to cost 4 none are needed.
    pub least: Option<Runs>,
}

/// A claim about a history of any size at a level, as version 3 of the certificate's text has it.
#[derive(Drop)]
pub enum LargeCertificate {
    /// An order is a commit order.
    Order(RunsClaim),
    /// Links are a cycle, and perhaps a least one.
    Cycle(LinksClaim),
}

/// What a claim of a cycle says before its links.
#[derive(Clone, Copy)]
pub struct LinksSizes {
    pub level: Level,
    /// How many transactions there are, `init` among them.
    pub transactions: u32,
    /// How many links there are.
    pub links: u32,
    /// What they cost.
    pub cost: u32,
}

/// A claim of a cycle without its links.
#[derive(Drop)]
pub struct LinksHead {
    pub sizes: LinksSizes,
    /// As a `LinksClaim` has it.
    pub least: Option<Runs>,
}

/// A claim about a history of any size whose links, where it has some, were given to a taker.
#[derive(Drop)]
pub enum LargeHead {
    /// An order is a commit order.
    Order(RunsClaim),
    /// Links are a cycle, and perhaps a least one.
    Cycle(LinksHead),
}

/// A taker of a claim's links: it takes them one by one, as a text gives them, and the walks of these step by step. Whatever a
/// call returns, the taker stays ready for another claim.
pub trait TakesLinks {
    ghost use Rattle.std.specs.Prelude.{◌++◌, ◌∷◌, [], List, OnOk};
    ghost use Rattle.tcc_reads.specs.History.{History};
    ghost use Rattle.tcc_graph.specs.declared.{link.Link.Link, step.Step.Step};
    ghost use Rattle.tcc_cert.specs.Reading.{with_walk};
    ghost use Rattle.tcc_cert.specs.declared.large.LinksSizes.{LinksSizes};

    /// It is ready to take links of this history.
    ghost ready: { Self → History → Type 0 };

    /// For this history, these links were taken of a claim of these sizes.
    ghost took: { Self → History → LinksSizes → List Link → Type 0 };

    /// And then a link without its walk, and these steps of that walk.
    ghost takes: { Self → History → LinksSizes → List Link → Link → List Step → Type 0 };

    /// A claim begins.
    fn start(&mut self, sizes: LinksSizes)
        ensures start { (h : History) → ready self.old h → took self.new h sizes [] }
        ensures ready { (h : History) → ready self.old h → ready self.new h };

    /// A link begins, whose steps come next where it is derived.
    fn begin(&mut self, head: Link) -> Result<(), NoMemory>
        ensures head { OnOk result ((h : History) (sizes : LinksSizes) (links : List Link) → took self.old h sizes links → takes self.new h sizes links head []) }
        ensures ready { (h : History) → ready self.old h → ready self.new h };

    /// The next step of its walk.
    fn step(&mut self, step: Step) -> Result<(), NoMemory>
        ensures step { OnOk result ((h : History) (sizes : LinksSizes) (links : List Link) (head : Link) (walk : List Step) → takes self.old h sizes links head walk
            → takes self.new h sizes links head (walk ++ step ∷ [])) }
        ensures ready { (h : History) → ready self.old h → ready self.new h };

    /// The link has all its steps.
    fn end(&mut self) -> Result<(), NoMemory>
        ensures link { OnOk result ((h : History) (sizes : LinksSizes) (links : List Link) (head : Link) (walk : List Step) → takes self.old h sizes links head walk
            → took self.new h sizes (links ++ with_walk head walk ∷ [])) }
        ensures ready { (h : History) → ready self.old h → ready self.new h };
}
