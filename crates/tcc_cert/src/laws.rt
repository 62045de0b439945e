//! What the definitions of a certificate's text say by themselves.
ghost use Rattle.std.specs.Prelude.{◌≡◌, ◌≤◌, ◌<◌, ◌+◌, ◌∷◌, length, ℕ, List, Err, None, Ok, Some};
ghost use Rattle.tcc_cert.specs.{Texts.HasText, Texts.certificate_text, RunsTold.order_claim_of, declared.version_3.TheConstants.V3_MAX_COUNT, declared.version_3.TheConstants.V3_MAX_SESSIONS, LargeReading.large_certificate_read, Outcomes.IsLargeReading, Outcomes.IsReading, Versions.HasNoFirstLine, Parts.parts_of, Parts.parts_read, Reading.certificate_read, declared.certificate.Certificate.Certificate, declared.fault.CertFault.CertFault, declared.large.LargeCertificate.LargeCertificate};
ghost use Rattle.tcc_cert.specs.LargeTexts.{HasLargeText, HasRunsClaimText, large_certificate_text};
ghost use Rattle.tcc_graph.specs.declared.level.Level.{Level};
ghost use Rattle.tcc_reads.specs.History.{History, count, owner};

/// The text of a certificate that has one is read as that certificate, and so as no other.
pub fn text_is_read()
    ensures { (c : Certificate) → HasText c → certificate_read (certificate_text c) ≡ Ok c }
{}

/// What is read has a text, and was read from that text and nothing else.
pub fn read_text_is_one()
    ensures { (bytes : List ℕ) (c : Certificate) → certificate_read bytes ≡ Ok c → HasText c × (bytes ≡ certificate_text c) }
{}

/// The parts that the text of a certificate gives are those of the certificate, and then it ends.
pub fn parts_of_what_is_read()
    ensures { (bytes : List ℕ) (c : Certificate) → certificate_read bytes ≡ Ok c → ((parts_read bytes).parts ≡ parts_of c) × ((parts_read bytes).fault ≡ None) }
{}

/// The parts of any other text end in its first fault.
pub fn parts_before_the_fault()
    ensures { (bytes : List ℕ) (f : CertFault) → certificate_read bytes ≡ Err f
        → ((parts_read bytes).fault ≡ Some f.kind) × ((parts_read bytes).line ≡ f.line) }
{}

/// Whatever fault is returned for a text, also that of a failed reader or of refused memory: no line before it has a fault.
pub fn no_fault_before()
    ensures { (bytes : List ℕ) (answered first : CertFault) → IsReading bytes (Err answered) → certificate_read bytes ≡ Err first
        → answered.line ≤ first.line }
{}

/// The text of a certificate of version 3 that has one is read as that certificate, and so as no other.
pub fn large_text_is_read()
    ensures { (c : LargeCertificate) → HasLargeText c → large_certificate_read (large_certificate_text c) ≡ Ok c }
{}

/// What is read of version 3 has a text, and was read from that text and nothing else.
pub fn large_read_text_is_one()
    ensures { (bytes : List ℕ) (c : LargeCertificate) → large_certificate_read bytes ≡ Ok c → HasLargeText c × (bytes ≡ large_certificate_text c) }
{}

/// A text without a first line has that fault whatever its version.
pub fn no_first_line()
    ensures { (bytes : List ℕ) (fault : CertFault) → HasNoFirstLine bytes fault → IsReading bytes (Err fault) × IsLargeReading bytes (Err fault) }
{}

/// The claim that an order is a commit order has a text, where the order begins with `init` and the history is within the
/// large limits.
pub fn order_has_text()
    ensures { (level : Level) (h : History) (order : List ℕ) → 0 < count h → count h ≤ V3_MAX_COUNT → length h.sessions ≤ V3_MAX_SESSIONS
        → ((n : ℕ) → 0 < n → n < count h → owner h n < length h.sessions) → 1 + length order ≡ count h
        → HasRunsClaimText (order_claim_of level h (0 ∷ order)) }
{}
