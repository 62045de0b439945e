//! What standard error tells a person whose history has no contradicted read.
ghost use Rattle.std.specs.Prelude.{◌≡◌};
ghost use Rattle.tcc_print.specs.Notes.{IsNoted};
ghost use Rattle.tcc_survey_run.specs.Texts.{no_answer_note, nothing_note};

use std::io::Write;
use tcc_base::send;
use tcc_print::Status;

/// Writes a note. What standard error takes of it changes nothing.
fn send_note<N: Write>(text: &[u8], notes: &mut N)
    ensures { IsNoted (N.contents notes.old) (N.contents notes.new) text.now }
{
    let _ = send(notes, text);
}

/// Notes that no contradicted read is no answer.
fn note_nothing<N: Write>(notes: &mut N)
    ensures { IsNoted (N.contents notes.old) (N.contents notes.new) nothing_note }
{
    send_note(
        b"no read is contradicted, which is no answer: ask tcc explain\n",
        notes,
    );
}

/// Notes, where a survey found nothing, that this is no answer: a history without any contradicted read may have a cycle.
pub(crate) fn note_no_answer<N: Write>(code: u8, notes: &mut N)
    ensures { IsNoted (N.contents notes.old) (N.contents notes.new) (no_answer_note code) }
{
    if code == Status::Success.code() {
        note_nothing(notes);
    }
}
