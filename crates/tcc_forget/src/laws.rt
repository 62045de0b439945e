//! The laws of forgetting.
ghost use Rattle.std.specs.Prelude.{ℕ, ◌<◌, ◌≡◌, ◌⊎◌, ◌↔◌, List, [], None, Contains};
ghost use Rattle.tcc_reads.specs.History.{Entry, History, count};
ghost use Rattle.tcc_graph.specs.{Levels.causally, Routes.HasCycle};
ghost use Rattle.tcc_watch.specs.Delivered.{IsDelivered, with_last};
ghost use Rattle.tcc_forget.specs.Covers.{ComesOn, Cover, Covers, HasObserved, IsCover, IsKnown, LeadsTo, Readable, with_listed};
ghost use Rattle.tcc_forget.specs.Cases.{ClosesCircle, IsOutdated, IsRightBefore, LeadsBy, Observes, ReadsOutdated};
ghost use Rattle.tcc_forget.specs.Sweeps.{DropsTop, MakesTop, Unlists};

/// Let a cover say which writers may still be read. Then a transaction of a live session brings a cycle in two cases alone: one of its
/// reads contradicts the cover, or the links that it makes between listed writers lead round. All other links that it brings follow from
/// these, from its pairs, and from routes that were there.
pub fn forgetting()
    ensures contradicts { (h : History) (live : List ℕ) (cover : Cover) (e : Entry) (x : List ℕ) (a : ℕ) → IsDelivered h → Covers h live cover
        → ComesOn h live e → Contains e.reads (x, a) → IsOutdated h e (cover x) a → HasCycle (causally (with_last h e)) }
    ensures decides { (h : History) (live : List ℕ) (cover : Cover) (e : Entry) → IsDelivered h → (HasCycle (causally h) → ⊥)
        → Covers h live cover → ComesOn h live e
        → HasCycle (causally (with_last h e)) ↔ (ReadsOutdated h e cover ⊎ ClosesCircle h e cover) }
    ensures leads { (h : History) (live : List ℕ) (cover : Cover) (e : Entry) (u v : ℕ) → IsDelivered h → Covers h live cover → ComesOn h live e
        → v < count h → LeadsTo (with_last h e) u v → ReadsOutdated h e cover ⊎ ((made : List (ℕ × ℕ)) × LeadsBy h e cover u v made) }
    ensures made { (h : History) (live : List ℕ) (cover : Cover) (e : Entry) (u v : ℕ) (made : List (ℕ × ℕ)) → IsDelivered h
        → Covers h live cover → ComesOn h live e → LeadsBy h e cover u v made → LeadsTo (with_last h e) u v }
{}

/// What all live sessions have observed is observed by each transaction that comes later. What else a transaction has observed, and what
/// leads to it, goes through the last one of its session or through a listed writer that it reads from.
pub fn observing()
    ensures known { (h : History) (live : List ℕ) (e : Entry) (w : ℕ) → IsDelivered h → ComesOn h live e → IsKnown h live w
        → Observes h e w × IsKnown (with_last h e) live w }
    ensures observes { (h : History) (live : List ℕ) (cover : Cover) (e : Entry) (u : ℕ) → IsDelivered h → Covers h live cover
        → ComesOn h live e → 0 < u → Observes h e u
        → ReadsOutdated h e cover ⊎ ((p : ℕ) × IsRightBefore h e cover p × HasObserved h u p) }
    ensures right_before { (h : History) (live : List ℕ) (cover : Cover) (e : Entry) (u p : ℕ) → IsDelivered h → Covers h live cover
        → ComesOn h live e → IsRightBefore h e cover p → HasObserved h u p → Observes h e u }
    ensures leads { (h : History) (live : List ℕ) (cover : Cover) (e : Entry) (u : ℕ) → IsDelivered h → (HasCycle (causally h) → ⊥)
        → Covers h live cover → ComesOn h live e → 0 < u → u < count h → LeadsTo (with_last h e) u (count h)
        → ReadsOutdated h e cover ⊎ ((p : ℕ) × IsRightBefore h e cover p × LeadsTo (with_last h e) u p) }
{}

/// A cover begins with nothing. It stays one as a transaction of a live session comes, as a writer becomes unreadable, and as a session
/// leaves.
pub fn covering()
    ensures begins { (h : History) (live : List ℕ) → count h ≡ 1 → Covers h live (λ x. record { listed = []; top = None }) }
    ensures comes { (h : History) (live : List ℕ) (cover : Cover) (e : Entry) → IsDelivered h → Covers h live cover → ComesOn h live e
        → Covers (with_last h e) live (with_listed h e cover) }
    ensures unlists { (h : History) (live : List ℕ) (x : List ℕ) (old new : Readable) → IsCover h live x old → Unlists h live old new
        → IsCover h live x new }
    ensures drops_top { (h : History) (live : List ℕ) (x : List ℕ) (old new : Readable) → IsCover h live x old → DropsTop h live old new
        → IsCover h live x new }
    ensures makes_top { (h : History) (live : List ℕ) (x : List ℕ) (old new : Readable) → IsCover h live x old → MakesTop h live old new
        → IsCover h live x new }
    ensures leaves { (h : History) (live others : List ℕ) (cover : Cover) → ((session : ℕ) → Contains others session → Contains live session)
        → Covers h live cover → Covers h others cover }
{}
