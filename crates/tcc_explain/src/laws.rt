//! The laws of answers. Their certificates keep the rules and have texts, a history has at most one first answer at a
//! level, and an anomaly stays one where a snapshot goes on.
ghost use Rattle.std.specs.Prelude.{◌≡◌, ◌≤◌, ℕ, List, Ok, length, take};
ghost use Rattle.tcc_rows.specs.{Answers.answers_of, Items.finished_in};
ghost use Rattle.tcc_txn.specs.{Finished.KeepsLimits, Snapshots.Sessions};
ghost use Rattle.tcc_reads.specs.Sources.{history};
ghost use Rattle.tcc_graph.specs.{Levels.Judged, Levels.judged, Links.cost, Routes.IsLeastCycle, Orders.IsCommitOrder, Orders.IsFirstOrder, declared.level.Level.Level, declared.link.Link.Link};
ghost use Rattle.tcc_graph.specs.Answers as first;
ghost use Rattle.tcc_cert.specs.{Texts.HasText, Texts.certificate_text, Reading.certificate_read, declared.version.Version.TheVariants.Two};
ghost use Rattle.tcc_cert.specs.Rules.{Certifies, CertifiesCycle, CertifiesOrder};
ghost use Rattle.tcc_answer.specs.{Answers.LabelledCycle, Claims.certificate_of, Texts.answer_text, Json.answer_json, declared.answer.Answer.Answer};
ghost use Rattle.tcc_answer.specs.declared.answer.Answer.TheVariants as answer;
ghost use Rattle.tcc_slices.specs.Growth.{Grows};
ghost use Rattle.tcc_explain.specs.{Explained.IsAnswerOfHistory, Explained.IsBareAnswer, Keys.HasNames, Next.IsAnomalyOf, Next.IsNextRefusal, Tabled.with_tables};
ghost use Rattle.tcc_explain.specs.Certificates.{IsNearTable, IsFarTable, IsClocksAt, IsNumbered};
ghost use Rattle.tcc_explain.specs.declared.fault.NextFault.TheVariants as refusal;

/// A least cycle with the distances, capped at its cost, is certified. So is a commit order with the clocks of the level,
/// where transactions are numbered as in each snapshot's history.
pub fn certificates()
    ensures cycle { (j : Judged) (s : ℕ) (links : List Link) (near far : List (List ℕ)) → IsLeastCycle j s links
        → IsNearTable j (cost links) near → IsFarTable j (cost links) far
        → CertifiesCycle j.history (record { version = Two; level = j.level; links = links; least = cost links; near = near; far = far }) }
    ensures order { (j : Judged) (order : List ℕ) (clocks : List (List ℕ)) → IsNumbered j.history → IsCommitOrder j order
        → IsClocksAt j.level j.history clocks
        → CertifiesOrder j.history (record { version = Two; level = j.level; order = order; sessions = length j.history.sessions; clocks = clocks }) }
    ensures numbered { (s : Sessions) → IsNumbered (history s) }
{}

/// The certificate of the answer for a snapshot at a level keeps all rules.
pub fn certified()
    ensures { (s : Sessions) (level : Level) (a : Answer) → IsAnswerOfHistory (judged (history s) level) a
        → Certifies (history s) (certificate_of a) }
{}

/// The certificate of the answer for a snapshot has a text, and that text is read as this certificate, where the snapshot
/// keeps the limits and its keys are names.
pub fn written()
    ensures text { (s : Sessions) (level : Level) (a : Answer) → KeepsLimits s → HasNames s
        → IsAnswerOfHistory (judged (history s) level) a → HasText (certificate_of a) }
    ensures read { (s : Sessions) (level : Level) (a : Answer) → KeepsLimits s → HasNames s
        → IsAnswerOfHistory (judged (history s) level) a
        → certificate_read (certificate_text (certificate_of a)) ≡ Ok (certificate_of a) }
{}

/// What the first items of a text finish, however many, has names for keys. That it keeps the limits is said by
/// `tcc_rows::laws::finished_is_snapshot`.
pub fn recorded()
    ensures { (text : List ℕ) (n : ℕ) → HasNames (finished_in (take n (answers_of text).items)) }
{}

/// A history has at most one first commit order at a level, and at most one first answer: either that order or its first
/// cycle. So there is at most one whole answer, with its labels and its certificate. It is the same whatever the number of
/// workers, the order in which they search and the order in which records came.
pub fn one_answer()
    ensures order { (j : Judged) (order other : List ℕ) → IsFirstOrder j order → IsFirstOrder j other → order ≡ other }
    ensures answer { (j : Judged) (some other : first.Answer) → first.IsFirstAnswer j some → first.IsFirstAnswer j other → some ≡ other }
    ensures whole { (j : Judged) (some other : Answer) → IsAnswerOfHistory j some → IsAnswerOfHistory j other → some ≡ other }
    ensures text { (j : Judged) (some other : Answer) → IsAnswerOfHistory j some → IsAnswerOfHistory j other → answer_text some ≡ answer_text other }
    ensures json { (j : Judged) (some other : Answer) → IsAnswerOfHistory j some → IsAnswerOfHistory j other → answer_json some ≡ answer_json other }
    ensures certificate { (j : Judged) (some other : Answer) → IsAnswerOfHistory j some → IsAnswerOfHistory j other
        → certificate_of some ≡ certificate_of other }
{}

/// Each first answer has its tables, whether or not they were worked out: with those that its history determines it is the
/// whole answer. And a whole answer is one without them too.
pub fn tabled()
    ensures whole { (j : Judged) (a : Answer) → IsBareAnswer j a → IsAnswerOfHistory j (with_tables j.history a) }
    ensures bare { (j : Judged) (a : Answer) → IsAnswerOfHistory j a → IsBareAnswer j a }
{}

/// Take two resolved snapshots, where the second continues the first. No link of the first one's anomaly is missing in the
/// second. At the level of that anomaly the second has an anomaly too, which has at most as many steps.
pub fn grown()
    ensures nested { (small large : Sessions) (level : Level) (a : LabelledCycle) (n : ℕ) → Grows small large
        → IsAnomalyOf (judged (history small) level) a → IsNextRefusal large a (refusal.NotNested n) → ⊥ }
    ensures steps { (small large : Sessions) (level : Level) (a : LabelledCycle) (b : Answer) → Grows small large
        → IsAnswerOfHistory (judged (history small) level) (answer.Anomaly a) → IsAnswerOfHistory (judged (history large) level) b
        → (c : LabelledCycle) × (b ≡ answer.Anomaly c) × (cost c.links ≤ cost a.links) }
{}
