//! The laws of cycles where all pairs rise, as they do in the places of an order that keeps them: which readings to look at, and which
//! transactions.
ghost use Rattle.std.specs.Prelude.{◌≢◌, ◌<◌, ◌↔◌, ℕ, List, All};
ghost use Rattle.tcc_graph.specs.{Links.cost, Links.link_from, Links.link_to, Levels.Judged, Routes.IsCycle, declared.link.Link.Link};
ghost use Rattle.tcc_least.specs.{LeadingBack.Rises, Shapes.NoneBelow};
ghost use Rattle.tcc_lanes.specs.Nearness.{IsNear};
ghost use Rattle.tcc_lanes.specs.Contradicted.{HasCheaper, IsAgainstRanks, IsRankSpanned, IsSpannedAside};

/// No cycle costs less than n exactly where none does that returns by a reading that the ranks contradict.
pub fn contradicted()
    ensures { (j : Judged) (rank : ℕ → ℕ) → Rises j.history rank → (n : ℕ) → NoneBelow j n
        ↔ ((a : ℕ) (x : List ℕ) (c : ℕ) → IsAgainstRanks j rank a x c → HasCheaper j n a x c → ⊥) }
{}

/// Each transaction of a cycle is where a derived link leads back over it.
pub fn spanned()
    ensures { (j : Judged) (rank : ℕ → ℕ) → Rises j.history rank → (v : ℕ) (links : List Link) → IsCycle j v links → IsRankSpanned j rank v }
{}

/// In a cycle that never comes to `init`, each link begins and ends where a derived link leads back over it that doesn't lead into `init`
/// either.
pub fn spanned_aside()
    ensures { (j : Judged) (rank : ℕ → ℕ) → Rises j.history rank → (v : ℕ) (links : List Link) → IsCycle j v links
        → All (λ l. link_to l ≢ 0) links
        → All (λ l. IsSpannedAside j rank (link_from l) × IsSpannedAside j rank (link_to l)) links }
{}

/// In a cycle that costs less than n and never comes to `init`, each link begins and ends near to the links that lead back.
pub fn near_cycle()
    ensures { (j : Judged) (rank : ℕ → ℕ) → Rises j.history rank → (n : ℕ) (v : ℕ) (links : List Link) → IsCycle j v links
        → All (λ l. link_to l ≢ 0) links → cost links < n
        → All (λ l. IsNear j rank n (link_from l) × IsNear j rank n (link_to l)) links }
{}
