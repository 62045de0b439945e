//! The law that what is accepted is true.
ghost use Rattle.tcc_cert.specs.declared.large.LargeCertificate.{LargeCertificate};
ghost use Rattle.tcc_judge.specs.Verdicts.{rules_of};
ghost use Rattle.tcc_verdict.specs.LargeChecks.{IsTrueLargeClaim};
ghost use Rattle.tcc_reads.specs.Sources.{history};
ghost use Rattle.tcc_txn.specs.Snapshots.{Sessions};
ghost use Rattle.tcc_rules.specs.Asked.{AllHold};

/// What a certificate of version 3 claims is true of every snapshot for whose history it keeps all rules.
pub fn accepted()
    ensures { (s : Sessions) (k : LargeCertificate) → AllHold (rules_of (history s) k) → IsTrueLargeClaim (history s) k }
{}
