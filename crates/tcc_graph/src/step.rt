//! Causal walks, step by step.
use tcc_txn::{ListOf, Name};

/// A pair of session order or of reads-from, as a step of a walk.
#[derive(Clone, Copy)]
pub enum Step {
    /// `from` is before `to` in session order, adjacent or not.
    Session { from: u32, to: u32 },
    /// `to` reads `key` from `from`.
    Reads { from: u32, to: u32, key: Name },
}

impl Step {
    ghost use Rattle.std.specs.Prelude.{◌≡◌, ◌↔◌, IsTrue};
    ghost use Rattle.tcc_graph.specs.Walks.{IsStepBelow, step_from, step_to};

    /// Where it starts, and where it ends.
    fn ends(&self) -> (u32, u32)
        ensures from { result.0 ≡ step_from self.now }
        ensures to { result.1 ≡ step_to self.now }
    {
        match self {
            Step::Session { from, to } | Step::Reads { from, to, .. } => (*from, *to),
        }
    }

    /// Where it starts.
    pub fn from(&self) -> u32
        ensures { result ≡ step_from self.now }
    {
        self.ends().0
    }

    /// Where it ends.
    pub fn to(&self) -> u32
        ensures { result ≡ step_to self.now }
    {
        self.ends().1
    }

    /// Whether both ends are numbers below the count.
    pub fn is_below(&self, count: u32) -> bool
        ensures { IsTrue result ↔ IsStepBelow count self.now }
    {
        let (from, to) = self.ends();
        from < count && to < count
    }
}

/// Steps in order. The contracts on walks say that each begins where the one before it ends.
pub type Walk = ListOf<Step>;
