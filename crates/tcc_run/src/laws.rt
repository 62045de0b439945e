//! The laws of runs: `check` accepts what `explain` writes, and what is said depends only on the records of each session, the level and the
//! form.
ghost use Rattle.std.specs.Prelude.{◌≡◌, ◌≢◌, ◌⊎◌, ℕ, List, Option, Result, None, Some, IfOk, []};
ghost use Rattle.std.specs.List.{last_or};
ghost use Rattle.tcc_rows.specs.{Answers.answers_of, Items.finished_in};
ghost use Rattle.tcc_txn.specs.{Snapshots.Sessions, declared.memory.NoMemory.NoMemory};
ghost use Rattle.tcc_reads.specs.{Faults.read_faults, Sources.history};
ghost use Rattle.tcc_graph.specs.{Levels.judged, declared.level.Level.Level};
ghost use Rattle.tcc_cert.specs.{Texts.certificate_text, declared.certificate.Certificate.Certificate};
ghost use Rattle.tcc_rules.specs.{declared.judgement.Judgement.Judgement, declared.verdict.Rule.Rule, declared.verdict.Verdict.Verdict, declared.verdict.Verdict.TheVariants.Accepted};
ghost use Rattle.tcc_check.specs.Verdicts.{IsVerdict};
ghost use Rattle.tcc_answer.specs.{Claims.certificate_of, declared.answer.Answer.Answer};
ghost use Rattle.tcc_explain.specs.Explained.{IsAnswerOfSnapshot, IsAnswerOfHistory};
ghost use Rattle.tcc_verdict.specs.Checks.{IsCheck, MayBeCheck};
ghost use Rattle.tcc_run.specs.{Closing.IsAcceptance, Closing.acceptance, Headline.IsExplained, Interleaved.AreInterleaved};
ghost use Rattle.tcc_run.specs.HeadlineRuns.{PrintsExplained, SaysExplained, finished_by};
ghost use Rattle.tcc_run.specs.Runs.{AreAnswersOfRun, AreFront, AskAlike, IsSaidOfSnapshot, IsEndedRun, IsExplainRun, IsStopped, IsWholeRun};
ghost use Rattle.tcc_print.specs.{Courses.Contents, Courses.Said, Statuses.code_of, declared.options.Options.Options, declared.status.Status.TheVariants.Device, declared.status.Status.TheVariants.Memory, declared.run_error.RunError.RunError};

use tcc_check::laws::certified as certified_claim;
use tcc_explain::laws::{certified, one_answer};
use tcc_rows::laws;
use tcc_rows::laws::finished_is_snapshot;
use tcc_txn::NoMemory;

/// The answer of `explain` for a snapshot at a level is what the main theorem says about it: a commit order, or a cycle such that no other
/// has fewer steps. The checker accepts its certificate, and that alone implies what the certificate claims.
pub fn explained()
    ensures { (s : Sessions) (level : Level) (a : Answer) → IsAnswerOfSnapshot s level a → IsExplained s level a }
{
    certified();
    certified_claim();
}

/// The main theorem in bytes. Whatever a run of `explain` says about a snapshot, it is an answer for which that theorem holds, or all read
/// faults. Take records without a fault, whose reads all have sources. A run that doesn't end by a device that failed nor out of memory
/// prints such an answer last, and its certificate, which the check of the same records accepts.
pub fn headline()
    ensures each { (options : Options) (s : Sessions) (said : Said) → IsSaidOfSnapshot options s said → SaysExplained options s said }
    ensures last { (options : Options) (records : List ℕ) (before after : Option (List ℕ)) (file file' : Contents) (code : ℕ)
        → (answers_of records).fault ≡ None → read_faults (finished_by records) ≡ []
        → IsExplainRun options records before after file file' code → code ≢ code_of Device → code ≢ code_of Memory
        → PrintsExplained options records before after file file' code }
{
    explained();
    finished_is_snapshot();
}

/// For records without a fault, whose reads all have sources: the text of the certificate of their answer is accepted by the check of the
/// same records. That check has no other result, unless a reader fails or memory is refused.
pub fn accepted()
    ensures accepted { (records : List ℕ) (level : Level) (a : Answer) → (answers_of records).fault ≡ None
        → read_faults (finished_in (answers_of records).items) ≡ []
        → IsAnswerOfHistory (judged (history (finished_in (answers_of records).items)) level) a
        → IsCheck records (certificate_text (certificate_of a)) (acceptance (certificate_of a)) }
    ensures only { (records : List ℕ) (level : Level) (a : Answer) → (answers_of records).fault ≡ None
        → read_faults (finished_in (answers_of records).items) ≡ []
        → IsAnswerOfHistory (judged (history (finished_in (answers_of records).items)) level) a
        → (o : Result Judgement RunError) → MayBeCheck records (certificate_text (certificate_of a)) o
        → IsAcceptance (certificate_of a) o }
{
    finished_is_snapshot();
}

/// What a run of `explain` keeps as the certificate of its last answer is accepted by the check of the same records, which has no other
/// result, unless a reader fails or memory is refused.
pub fn closes()
    ensures { (options : Options) (records text : List ℕ) (said : List Said) (last : Said)
        → IsWholeRun options (answers_of records) said ⊎ IsEndedRun options records said
        → last_or None said ≡ Some last → last.certificate ≡ Some text
        → (c : Certificate) × IsCheck records text (acceptance c)
        × ((o : Result Judgement RunError) → MayBeCheck records text o → IsAcceptance c o) }
{
    finished_is_snapshot();
}

/// The verdict on an answer's own certificate is `Accepted`; so the result of its check is that, or `NoMemory`.
pub fn own_certificate()
    ensures { (s : Sessions) (level : Level) (a : Answer) (checked : Result (Verdict Rule) NoMemory)
        → IsAnswerOfHistory (judged (history s) level) a
        → IfOk checked (IsVerdict (history s) (certificate_of a)) → IfOk checked (λ verdict. verdict ≡ Accepted) }
{
    certified();
}

/// Take what a run of `explain` leaves in a file that was empty, and is not empty then. The check of the same records accepts it, unless a
/// reader fails or memory is refused, where the status doesn't say that a device failed.
pub fn left()
    ensures { (options : Options) (records text : List ℕ) (before after : Option (List ℕ)) (code : ℕ)
        → IsExplainRun options records before after (Some (Some [])) (Some (Some text)) code → text ≢ [] → code ≢ code_of Device
        → (c : Certificate) × IsCheck records text (acceptance c)
        × ((o : Result Judgement RunError) → MayBeCheck records text o → IsAcceptance c o) }
{
    finished_is_snapshot();
}

/// Runs on the same bytes end alike, for every number of workers, and every order in which they search. Those that no reader and no refused
/// memory ends say the same, to the end or to the fault of a record. Wherever two others end, the answers of one are the first of the
/// other's.
pub fn one_run()
    ensures whole { (options others : Options) (records : List ℕ) (said again : List Said) → AskAlike options others
        → IsWholeRun options (answers_of records) said → IsWholeRun others (answers_of records) again
        → said ≡ again }
    ensures stopped { (options others : Options) (records : List ℕ) (said again : List Said) → AskAlike options others
        → IsStopped options (answers_of records) said → IsStopped others (answers_of records) again
        → said ≡ again }
    ensures front { (options others : Options) (records : List ℕ) (said again answers more : List Said) → AskAlike options others
        → AreAnswersOfRun options records said answers → AreAnswersOfRun others records again more
        → AreFront answers more ⊎ AreFront more answers }
{
    one_answer();
}

/// Take two inputs with the same records of each session, interleaved anyhow, and the seals after the same records of each session. What a
/// whole run says for the one, a whole run says for the other, and nothing else, for every number of workers.
pub fn interleaved()
    ensures same { (options others : Options) (records other : List ℕ) (said again : List Said) → AskAlike options others → AreInterleaved records other → IsWholeRun options (answers_of records) said
        → IsWholeRun others (answers_of other) again → said ≡ again }
    ensures whole { (options : Options) (records other : List ℕ) (said : List Said) → AreInterleaved records other
        → IsWholeRun options (answers_of records) said → IsWholeRun options (answers_of other) said }
{
    one_answer();
    laws::sealed_alike();
}
