//! The laws of runs of `explain --large`. What is claimed is accepted, and the check accepts what was written, in bytes. What is within the
//! small limits is answered as without `--large`.
ghost use Rattle.std.specs.Prelude.{◌≡◌, ◌≢◌, ◌↔◌, ℕ, List, Option, None, Some, []};
ghost use Rattle.tcc_txn.specs.{Finished.KeepsLimits, Snapshots.Sessions, declared.limits.Limits.TheVariants.Small, declared.limits.Limits.TheVariants.Large};
ghost use Rattle.tcc_rows.specs.{Answers.answers_within, BothLimits.KeepsSmall};
ghost use Rattle.tcc_reads.specs.Faults.{read_faults};
ghost use Rattle.tcc_cert.specs.declared.large.LargeCertificate.{LargeCertificate};
ghost use Rattle.tcc_print.specs.{Statuses.code_of, declared.options.Options.Options, declared.status.Status.TheVariants.Device, declared.status.Status.TheVariants.Memory};
ghost use Rattle.tcc_print.specs.Courses.{Contents, IsEndedCourse, IsWholeCourse, Said, texts};
ghost use Rattle.tcc_run.specs.{LargeClosing.IsAcceptedWith, LargeClosing.PrintsDecided, private.Laws.Laws};
ghost use Rattle.tcc_run.specs.LargeRuns.{Files, IsAcceptedOf, IsClaimedOf, IsLargeRun, IsSaidWithLarge, answers_of, finished};
ghost use Rattle.tcc_run.specs.Runs.{AskAlike, IsExplainRun, IsSaidOfSnapshot};

use crate::laws::one_run;
use tcc_cert::laws::large_text_is_read;
use tcc_check::laws::certified;
use tcc_explain::laws::one_answer;
use tcc_graph::LargeGraph;
use tcc_judge::laws::{kept, own_cycle, own_order, own_short};
use tcc_rows::laws::finished_is_snapshot;
use tcc_verdict::large::laws::accepted;

/// Whatever a run says about a large history, its certificate is the text of a claim that keeps all rules: so the verdict on it is
/// `Accepted`, and no other.
pub fn own_certificate(graph: &LargeGraph)
    ensures { (options : Options) (claim : LargeCertificate) (said : Said) → IsClaimedOf options graph.now claim said → IsAcceptedOf graph.now said }
{
    own_order(graph);
    own_cycle();
    own_short();
    kept();
}

/// What is claimed by a text that a check accepts is true, what keeps all rules is accepted, and a text that was written is read as it was.
fn checks()
    ensures { Laws }
{
    certified();
    accepted();
    large_text_is_read();
    kept();
    own_cycle();
    own_short();
}

/// The main theorem in bytes, with `--large`. Take records without a fault, whose reads all have sources. A run that ends neither by a
/// device that failed nor out of memory prints last the answer for all that they finish, and its certificate. The check of the same records
/// accepts that certificate: it prints `accepted: ..` and ends with 0, unless a device fails or memory is out. And whatever the records
/// are, take what a run leaves in a file for the certificate that was empty, and is not empty then. The check of the same records accepts
/// it, where the status doesn't say that a device failed.
pub fn headline()
    ensures last { (options : Options) (records : List ℕ) (before after : Option (List ℕ)) (files files' : Files) (code : ℕ)
        → (answers_of records).fault ≡ None → read_faults (finished records) ≡ []
        → IsLargeRun options records before after files files' code → code ≢ code_of Device → code ≢ code_of Memory
        → PrintsDecided options records before after files files' code }
    ensures left { (options : Options) (records text : List ℕ) (before after : Option (List ℕ)) (slice slice' : Contents) (code : ℕ)
        → IsLargeRun options records before after (record { certificate = Some (Some []); slice = slice })
        (record { certificate = Some (Some text); slice = slice' }) code
        → text ≢ [] → code ≢ code_of Device → IsAcceptedWith options records text }
{
    checks();
}

/// What is said about a snapshot of any size is one text with one status, whatever the number of workers, the order in which they search
/// and the memory that there is. So is all that runs say about the same bytes, if no reader and no refused memory ends them.
pub fn one_text()
    ensures snapshot { (options others : Options) (s : Sessions) (said again : Said) → AskAlike options others → IsSaidWithLarge options s said
        → IsSaidWithLarge others s again → (said.text ≡ again.text) × (said.status ≡ again.status) }
    ensures whole { (options others : Options) (records : List ℕ) (said again : List Said) → AskAlike options others
        → IsWholeCourse (IsSaidWithLarge options) (answers_of records) said → IsWholeCourse (IsSaidWithLarge others) (answers_of records) again
        → texts said ≡ texts again }
{
    one_answer();
}

/// About a snapshot that keeps the small limits the same is said with `--large` as without it. The same holds for records that keep them,
/// as each text does that has no fault within them. A run with `--large` says, to the end or to what ended it, only what a run without it
/// may say. What is said to the end is the same in both, for every number of workers. Take a run with `--large` that ends neither by a
/// device that failed nor out of memory. What it prints, writes as a certificate and ends with, a run without it may too. A run with
/// `--large` may do whatever one without it does, where no file is given for a slice.
pub fn within_small()
    ensures snapshot { (options : Options) (s : Sessions) (said : Said) → KeepsLimits s
        → IsSaidWithLarge options s said ↔ IsSaidOfSnapshot options s said }
    ensures whole { (options : Options) (records : List ℕ) → KeepsSmall records → (said : List Said)
        → IsWholeCourse (IsSaidWithLarge options) (answers_of records) said ↔ IsWholeCourse (IsSaidOfSnapshot options) (answers_within Small records) said }
    ensures alike { (options others : Options) (records : List ℕ) → KeepsSmall records → (said again : List Said)
        → AskAlike options others → IsWholeCourse (IsSaidWithLarge options) (answers_of records) said
        → IsWholeCourse (IsSaidOfSnapshot others) (answers_within Small records) again → said ≡ again }
    ensures ended { (options : Options) (records : List ℕ) → KeepsSmall records → (said : List Said)
        → IsEndedCourse Large (IsSaidWithLarge options) options records said ↔ IsEndedCourse Small (IsSaidOfSnapshot options) options records said }
    ensures without_large { (options : Options) (records : List ℕ) → KeepsSmall records
        → (before after : Option (List ℕ)) (files files' : Files) (code : ℕ)
        → IsLargeRun options records before after files files' code → code ≢ code_of Device → code ≢ code_of Memory
        → IsExplainRun options records before after files.certificate files'.certificate code }
    ensures with_large { (options : Options) (records : List ℕ) → KeepsSmall records
        → (before after : Option (List ℕ)) (file file' : Contents) (code : ℕ) → IsExplainRun options records before after file file' code
        → IsLargeRun options records before after (record { certificate = file; slice = None }) (record { certificate = file'; slice = None }) code }
{
    finished_is_snapshot();
    one_run();
}
