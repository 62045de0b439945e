//! The law of usual names: they don't depend on how transactions are numbered, and so on what sessions are called.
ghost use Rattle.std.specs.Prelude.{◌≡◌, ◌<◌, ◌↔◌, ℕ, List};
ghost use Rattle.tcc_reads.specs.History.{History, count};
ghost use Rattle.tcc_graph.specs.{Levels.judged, declared.level.Level.Level};
ghost use Rattle.tcc_survey.specs.{Contradictions.IsCalled, Contradictions.IsUsualName, Renamings.AreAlike, declared.usual_name.UsualName.UsualName};

/// Of two histories that differ in the numbers of their transactions alone, what fits a read of the one fits that read of the
/// other, and so they have one usual name.
pub fn renamed()
    ensures called { (h : History) → (g : History) → (to : ℕ → ℕ) → (back : ℕ → ℕ) → AreAlike h g to back → (level : Level)
        → (c : ℕ) → (x : List ℕ) → (a : ℕ) → c < count h → a < count h
        → (it : UsualName) → IsCalled (judged h level) c x a it ↔ IsCalled (judged g level) (to c) x (to a) it }
    ensures names { (h : History) → (g : History) → (to : ℕ → ℕ) → (back : ℕ → ℕ) → AreAlike h g to back → (level : Level)
        → (c : ℕ) → (x : List ℕ) → (a : ℕ) → c < count h → a < count h
        → (n : UsualName) → (m : UsualName) → IsUsualName (judged h level) c x a n → IsUsualName (judged g level) (to c) x (to a) m → n ≡ m }
{}
