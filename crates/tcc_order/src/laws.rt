//! The law that a commit order exists exactly if there is no cycle.
ghost use Rattle.std.specs.Prelude.{◌↔◌, ℕ, List};
ghost use Rattle.tcc_graph.specs.{Levels.Judged, Orders.IsCommitOrder, Routes.HasCycle};

/// At each level a history has a commit order exactly if no links make a cycle.
pub fn order_or_cycle()
    ensures { (j : Judged) → (((order : List ℕ) × IsCommitOrder j order) ↔ (HasCycle j → ⊥)) }
{}
