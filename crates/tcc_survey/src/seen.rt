//! From whom a session has read up to one of its transactions: of each other session the last one that it read from. The reads of all
//! sessions are gone through once, a step for each.
ghost use Rattle.std.specs.Prelude.{◌≡◌, ◌<◌, ◌≤◌, ◌+◌, ◌⊎◌, ℕ, length, slice_index};
ghost use Rattle.tcc_survey.specs.private.Seen.{AreMarks, AreUpToReader, HaveRoom, IsUpToMark};
ghost use Rattle.tcc_survey.specs.private.Settled.{reading_of};

use crate::external_reads::Reading;

/// The last session that read from some session so far, and the last transaction there that it read from.
#[derive(Clone, Copy)]
pub(crate) struct Mark {
    pub session: u32,
    pub source: u32,
}

/// The later of two marks: that of the later session, and of one session that of the later transaction.
fn later(old: Mark, new: Mark) -> Mark
    ensures one { (result ≡ old) ⊎ (result ≡ new) }
    ensures old { IsUpToMark old result }
    ensures new { IsUpToMark new result }
{
    if old.session < new.session || (old.session == new.session && old.source <= new.source) {
        new
    } else {
        old
    }
}

/// Notes one read more, unless it is of `init`.
fn mark_read(marks: &mut [Mark], owners: &[u32], reads: &[Reading], index: usize)
    requires inside { index < length reads.now }
    requires room { HaveRoom owners.now (length marks.old) reads.now }
    requires marks { AreMarks owners.now reads.now index marks.old }
    ensures same { length marks.new ≡ length marks.old }
    ensures marks { AreMarks owners.now reads.now (index + 1) marks.new }
{
    let read = reads[index];
    if read.source == 0 {
        return;
    }
    let at = owners[read.source as usize] as usize;
    let new = Mark {
        session: owners[read.reader as usize],
        source: read.source,
    };
    marks[at] = later(marks[at], new);
}

/// Notes the reads of a transaction and of those before it, from the first that wasn't noted on, and gives how many are.
pub(crate) fn mark_reads(
    marks: &mut [Mark],
    owners: &[u32],
    reads: &[Reading],
    from: usize,
    c: u32,
) -> usize
    requires room { HaveRoom owners.now (length marks.old) reads.now }
    requires rising { (k : ℕ) → (l : ℕ) → k ≤ l → l < length reads.now → (reading_of reads.now k).reader ≤ (reading_of reads.now l).reader }
    requires within { from ≤ length reads.now }
    requires early { (k : ℕ) → k < from → (reading_of reads.now k).reader ≤ c }
    requires marks { AreMarks owners.now reads.now from marks.old }
    ensures same { length marks.new ≡ length marks.old }
    ensures upto { AreUpToReader reads.now result c }
    ensures marks { AreMarks owners.now reads.now result marks.new }
{
    for index in from..reads.len() {
        if reads[index].reader > c {
            return index;
        }
        mark_read(marks, owners, reads, index);
    }
    reads.len()
}
