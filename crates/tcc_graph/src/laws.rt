//! The law of levels: a history that is causally consistent keeps Read Atomic.
ghost use Rattle.std.specs.Prelude.{ℕ, List};
ghost use Rattle.tcc_reads.specs.History.{History};
ghost use Rattle.tcc_graph.specs.{Levels.causally, Levels.atomically, Orders.IsCommitOrder, Routes.IsCycle, declared.link.Link.Link};

/// Every commit order at `Causal` is one at `Atomic`, and every cycle at `Atomic` is one at `Causal`. It costs the same there,
/// since the cost of links doesn't depend on a level.
pub fn levels()
    ensures orders { (h : History) (order : List ℕ) → IsCommitOrder (causally h) order → IsCommitOrder (atomically h) order }
    ensures cycles { (h : History) (s : ℕ) (links : List Link) → IsCycle (atomically h) s links → IsCycle (causally h) s links }
{}
