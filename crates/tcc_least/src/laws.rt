//! The law of short cycles: a cycle that costs at most three steps has one of few shapes. And two laws of longer ones: if all
//! pairs rise, each has a derived link that doesn't. Those from `init` follow from the reasons against it.
ghost use Rattle.std.specs.Prelude.{◌≡◌, ◌≤◌, ◌<◌, ◌+◌, ◌↔◌, ℕ, List};
ghost use Rattle.tcc_reads.specs.History.{count};
ghost use Rattle.tcc_graph.specs.{Levels.Judged, Links.cost, Routes.IsCycle, Routes.IsLeastCycle, declared.link.Link.Link};
ghost use Rattle.tcc_least.specs.LeadingBack.{Rises, HasLinkBack, NoneIntoInit, HasReasonAgainstInit};
ghost use Rattle.tcc_least.specs.Shapes.{IsRound, IsReturn, NoneBelow};

/// At each level, for a cost of up to 4: no cycle costs less exactly if there is no round of fewer pairs. For a cost of 4
/// there must also be no derived link of two steps with a pair back.
pub fn shapes()
    ensures { (j : Judged) (n : ℕ) → n ≤ 4 → NoneBelow j n
        ↔ (((a : ℕ) (c : ℕ) → IsRound j.history n a c → ⊥) × (3 < n → (b : ℕ) (a : ℕ) → IsReturn j.history b a → ⊥)) }
{}

/// A cycle is a least one exactly if no cycle costs less.
pub fn least()
    ensures { (j : Judged) (s : ℕ) (links : List Link) → IsCycle j s links → IsLeastCycle j s links ↔ NoneBelow j (cost links) }
{}

/// At each level, if each pair leads to a greater rank, each cycle has a derived link that doesn't. Such a rank is the
/// position in an order that keeps all pairs.
pub fn back()
    ensures { (j : Judged) (rank : ℕ → ℕ) → Rises j.history rank → (s : ℕ) (links : List Link) → IsCycle j s links → HasLinkBack rank links }
{}

/// At each level, if no pair leads into `init`: some cycle from it costs at most n + 2 steps exactly if a reason against it
/// has a walk of at most n steps.
pub fn from_init()
    ensures { (j : Judged) → 0 < count j.history → NoneIntoInit j.history → (n : ℕ)
        → ((links : List Link) × IsCycle j 0 links × (cost links ≤ n + 2)) ↔ HasReasonAgainstInit j n }
{}
