//! The law of slices: an anomaly of a part of a snapshot is one of the whole. The law of growth is a case of it: where a snapshot
//! goes on, its anomalies stay, and the least never costs more. The law of cuts: what the links of a cycle need is a slice.
ghost use Rattle.std.specs.Prelude.{ℕ, ◌<◌, ◌≡◌, [], length, List, map, All};
ghost use Rattle.tcc_txn.specs.Snapshots.{Sessions};
ghost use Rattle.tcc_reads.specs.{Faults.read_faults, History.count, Sources.history};
ghost use Rattle.tcc_graph.specs.{Levels.Judged, Levels.judged, Links.IsLink, Links.cost, Renumbered.LeadOn, Renumbered.link_by, Routes.AreCycle, Routes.IsCycle, declared.level.Level.Level, declared.link.Link.Link};
ghost use Rattle.tcc_slices.specs.Growth.{Grows, IsFirstMissing, number_in, link_in, CarriesLinks, CarriesCycles, KeepsLabels, KeepsLinks, KeepsCycles, KeepsAnomalies, CostsNoMore};
ghost use Rattle.tcc_slices.specs.{Parts.IsSlice, declared.needs.Need.Need, private.Carrying.Keeps, private.Carrying.place, private.Fitting.IsFit};

/// Of two resolved snapshots each committed transaction of the first is a part of one of the second, by a map of numbers that only
/// rises in a session. That is one of the same session, with the part's external reads among its own, and which writes visibly
/// what the part does. Then each link of the first is, in those numbers, a link of the second at the same cost. So each cycle of
/// the first is one of the second, at each level, and a least cycle of the second costs no more.
pub fn slices()
    ensures links { (f : ℕ → ℕ) (small large : Sessions) → IsSlice f small large → CarriesLinks f small large }
    ensures cycles { (f : ℕ → ℕ) (small large : Sessions) → IsSlice f small large → CarriesCycles f small large }
    ensures anomalies { (f : ℕ → ℕ) (small large : Sessions) → IsSlice f small large → KeepsAnomalies small large }
    ensures costs { (f : ℕ → ℕ) (small large : Sessions) → IsSlice f small large → CostsNoMore small large }
{}

/// If every list of one resolved snapshot is a prefix of the list of that session in another resolved one, the first is a slice
/// of the second, by labels. Each transaction of the first has a number in the second, that of its label, and each link of the
/// first is, by its labels, a link of the second at the same cost. So each cycle of the first is one of the second, at each level.
/// A least cycle of the second costs no more than one of the first, and no link of a cycle of the first is missed in the second.
pub fn growth()
    ensures slice { (small large : Sessions) → Grows small large → IsSlice (number_in small large) small large }
    ensures labels { (small large : Sessions) → Grows small large → KeepsLabels small large }
    ensures links { (small large : Sessions) → Grows small large → KeepsLinks small large }
    ensures cycles { (small large : Sessions) → Grows small large → KeepsCycles small large }
    ensures anomalies { (small large : Sessions) → Grows small large → KeepsAnomalies small large }
    ensures costs { (small large : Sessions) → Grows small large → CostsNoMore small large }
    ensures missed { (small large : Sessions) (level : Level) (s : ℕ) (links : List Link) (n : ℕ) → Grows small large
        → IsCycle (judged (history small) level) s links → IsFirstMissing (judged (history large) level) (map (link_in small large) links) n → ⊥ }
{}

/// Links that lead back to their start are, in other numbers, a cycle wherever each of them is a link, and cost the same. So it is
/// whatever becomes of the numbers, and whether or not one snapshot continues another.
pub fn cycles()
    ensures { (j : Judged) (f : ℕ → ℕ) (s : ℕ) (links : List Link) → 0 < length links → LeadOn s s links
        → All (IsLink j) (map (link_by f) links)
        → IsCycle j (f s) (map (link_by f) links) × (cost (map (link_by f) links) ≡ cost links) }
{}

/// In a cut of a resolved snapshot by the needs of links of its history no read has a fault, and what is read, written and ordered
/// is so in the whole. Where the links are a cycle of the whole, at a level, they are one of the cut, in its own numbers.
pub(crate) fn cuts()
    ensures resolved { (s slice : Sessions) (links : List Link) (needs : List (ℕ × Need)) (numbers : List ℕ) → IsFit s slice links needs numbers
        → read_faults slice ≡ [] }
    ensures kept { (s slice : Sessions) (links : List Link) (needs : List (ℕ × Need)) (numbers : List ℕ) → IsFit s slice links needs numbers
        → (a : ℕ) → a < count (history slice) → Keeps numbers (history slice) (history s) a }
    ensures cycles { (s slice : Sessions) (links : List Link) (needs : List (ℕ × Need)) (numbers : List ℕ) → IsFit s slice links needs numbers
        → (level : Level) → AreCycle (judged (history s) level) links → AreCycle (judged (history slice) level) (map (link_by (place numbers)) links) }
{}
