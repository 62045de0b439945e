//! The law that what a certificate claims is true where it keeps the rules.
ghost use Rattle.std.specs.Prelude.{ℕ, ◌≡◌, ◌↔◌};
ghost use Rattle.tcc_reads.specs.History.{History};
ghost use Rattle.tcc_graph.specs.{Levels.Judged, Levels.judged, Links.cost, Routes.IsLeastCycle, Orders.IsCommitOrder};
ghost use Rattle.tcc_cert.specs.{declared.certificate.Certificate.Certificate, declared.certificate.CycleClaim.CycleClaim, declared.certificate.OrderClaim.OrderClaim};
ghost use Rattle.tcc_cert.specs.Rules.{CertifiesCycle, CertifiesOrder, Certifies};
ghost use Rattle.tcc_rules.specs.{Asked.AllHold, declared.verdict.Rule.Rule};
ghost use Rattle.tcc_check.specs.Verdicts.{IsRejected, IsTrueClaim, rules_of};

/// The links of a certified cycle are a least cycle at the level of the claim, and cost what is claimed.
pub fn certified_cycle()
    ensures { (h : History) (k : CycleClaim) → CertifiesCycle h k → ((s : ℕ) × IsLeastCycle (judged h k.level) s k.links) × (cost k.links ≡ k.least) }
{}

/// A certified order is a commit order at the level of the claim.
pub fn certified_order()
    ensures { (h : History) (k : OrderClaim) → CertifiesOrder h k → IsCommitOrder (judged h k.level) k.order }
{}

/// The claim of a certificate, of whatever version and level, is true where it keeps the rules.
pub fn certified()
    ensures { (h : History) (k : Certificate) → Certifies h k → IsTrueClaim h k }
{}

/// A certificate keeps the rules exactly where each rule of the list for its claim holds.
pub fn rules_in_turn()
    ensures { (h : History) (k : Certificate) → Certifies h k ↔ AllHold (rules_of h k) }
{}

/// A certificate of which a rule is named as broken does not keep them all.
pub fn rejected()
    ensures { (h : History) (k : Certificate) (rule : Rule) (at : ℕ × ℕ) → IsRejected h k rule at → Certifies h k → ⊥ }
{}
