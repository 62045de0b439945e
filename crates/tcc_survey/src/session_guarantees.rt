//! Which of the usual names fits a writer of a key, by what the session of a reader has read so far (`seen`). Those of the session
//! guarantees (Terry et al., Session guarantees for weakly consistent replicated data, 1994) are among them. The first that fits is
//! found by a look at the readers of the key from the writer. The last of them up to the reader is found by binary search, and of each
//! session the first is looked at. With M readers in S sessions that takes S log M steps at most, and S where each session has one. A
//! writer that nobody reads from needs a step alone, unless the session of the reader has read past it, or wrote it.
ghost use Rattle.std.specs.Prelude.{◌≡◌, ◌<◌, ◌≤◌, ◌⊎◌, ◌↔◌, ℕ, false, length, slice_index, All, Contains, IsTrue};
ghost use Rattle.std.specs.List.Sorted.{IsNonDecreasing};
ghost use Rattle.tcc_reads.specs.History.{IsBySession, count};
ghost use Rattle.tcc_graph.specs.Keys.{key_at, readers};
ghost use Rattle.tcc_graph.specs.Relations.{IsSessionPair};
ghost use Rattle.tcc_survey.specs.Names.{Fits, rank};
ghost use Rattle.tcc_survey.specs.declared.usual_name.UsualName.TheVariants.{CausalChain, MonotonicWrites};
ghost use Rattle.tcc_survey.specs.private.Seen.{IsSeen, latest_mark};
ghost use Rattle.tcc_survey.specs.private.Spells.{IsAfterAny, IsFirstName, IsKnowledge, IsSeenAfter, NoneBefore};

use crate::scanning::count_before;
use crate::seen::Mark;
use crate::usual_name::{NAMES, UsualName};
use tcc_graph::LargeGraph;

/// Whether `d` is one of these transactions, which rise, or a later one of its session: the last of them up to `d` is of this session
/// where any is.
fn is_after_any(graph: &LargeGraph, among: &[u32], d: u32) -> bool
    requires numbered { IsBySession graph.now.entries }
    requires rising { IsNonDecreasing among.now }
    requires some { All (λ f. 0 < f) among.now }
    requires inside { All (λ f. f < count graph.now) among.now }
    requires below { d < count graph.now }
    ensures { IsTrue result ↔ IsAfterAny graph.now among.now d }
{
    let early = count_before(among, d);
    if early < among.len() && among[early] == d {
        return true;
    }
    if early == 0 {
        return false;
    }
    graph.session(among[early - 1], d)
}

/// Of some transactions, which rise, a later index than this one, up to which all are of the session of the one there.
fn next_of_other(graph: &LargeGraph, among: &[u32], index: usize) -> usize
    requires rising { IsNonDecreasing among.now }
    requires inside { All (λ f. f < count graph.now) among.now }
    requires within { index < length among.now }
    ensures behind { index < result }
    ensures within { result ≤ length among.now }
    ensures passed { (k : ℕ) → index < k → k < result → (slice_index among.now k ≡ slice_index among.now index)
        ⊎ IsSessionPair graph.now (slice_index among.now index) (slice_index among.now k) }
{
    let next = index + 1;
    if next < among.len() && graph.session(among[index], among[next]) {
        return count_before(among, graph.later(among[index]).1);
    }
    next
}

/// What the reader of a key knows by what its session has read so far.
#[derive(Clone, Copy)]
pub(crate) struct Knowledge<'a> {
    pub graph: &'a LargeGraph,
    /// The index of each transaction's session.
    pub owners: &'a [u32],
    /// Of each session the last transaction there that a session has read from.
    pub marks: &'a [Mark],
    pub reader: u32,
    pub key_index: u32,
}

impl Knowledge<'_> {
    /// The last transaction of a session that the reader's session has read from, or 0.
    pub(crate) fn latest(&self, session: u32) -> u32
        requires session { session < length self.now.marks.now }
        requires reader { self.now.reader < length self.now.owners.now }
        ensures { result ≡ latest_mark self.now.owners.now self.now.marks.now self.now.reader session }
    {
        let mark = self.marks[session as usize];
        if mark.session == self.owners[self.reader as usize] {
            mark.source
        } else {
            0
        }
    }

    /// Whether the reader's session has read from a later transaction of the writer's session.
    fn has_read_past(&self, b: u32) -> bool
        requires knowledge { IsKnowledge self.now }
        requires some { 0 < b }
        requires below { b < count self.now.graph.now }
        ensures { IsTrue result ↔ Fits self.now.graph.now self.now.reader (key_at self.now.graph.now self.now.key_index) b MonotonicWrites }
    {
        b < self.latest(self.owners[b as usize])
    }

    /// Whether the reader's session has read from this transaction, or from a later one of its session.
    fn has_seen(&self, f: u32) -> bool
        requires knowledge { IsKnowledge self.now }
        requires some { 0 < f }
        requires below { f < count self.now.graph.now }
        ensures { IsTrue result ↔ IsSeenAfter self.now.graph.now self.now.reader f }
    {
        f <= self.latest(self.owners[f as usize])
    }

    /// Whether the reader's session has read from one of these, which rise, or from a later one of its session: of each session the
    /// first of them is looked at.
    fn has_seen_any(&self, among: &[u32]) -> bool
        requires knowledge { IsKnowledge self.now }
        requires rising { IsNonDecreasing among.now }
        requires some { All (λ f. 0 < f) among.now }
        requires inside { All (λ f. f < count self.now.graph.now) among.now }
        ensures { IsTrue result ↔ ((f : ℕ) × Contains among.now f × IsSeenAfter self.now.graph.now self.now.reader f) }
    {
        let mut next = 0;
        for _session in 0..among.len() {
            if next == among.len() {
                return false;
            }
            if self.has_seen(among[next]) {
                return true;
            }
            next = next_of_other(self.graph, among, next);
        }
        false
    }

    /// Whether a name fits a writer where none before it does, by the readers of the key from the writer.
    fn is_called(&self, among: &[u32], b: u32, name: UsualName) -> bool
        requires knowledge { IsKnowledge self.now }
        requires some { 0 < b }
        requires below { b < count self.now.graph.now }
        requires readers { among.now ≡ readers self.now.graph.now b (key_at self.now.graph.now self.now.key_index) }
        requires first { NoneBefore self.now.graph.now self.now.reader (key_at self.now.graph.now self.now.key_index) b (rank name) }
        ensures { IsTrue result ↔ Fits self.now.graph.now self.now.reader (key_at self.now.graph.now self.now.key_index) b name }
    {
        match name {
            UsualName::ReadYourWrites => self.graph.session(b, self.reader),
            UsualName::FracturedRead => self.graph.causal(b, self.reader),
            UsualName::MonotonicReads => is_after_any(self.graph, among, self.reader),
            UsualName::MonotonicWrites => self.has_read_past(b),
            UsualName::WritesFollowReads => self.has_seen_any(among),
            UsualName::CausalChain => true,
        }
    }

    /// Whether a closer name than that of a chain may fit a writer. It does only where the writer is of the reader's session, or this
    /// session has read from it or past it, or anybody reads from it.
    pub(crate) fn may_be_closer(&self, b: u32) -> bool
        requires knowledge { IsKnowledge self.now }
        requires some { 0 < b }
        requires below { b < count self.now.graph.now }
        ensures { result ≡ false → NoneBefore self.now.graph.now self.now.reader (key_at self.now.graph.now self.now.key_index) b (rank CausalChain) }
    {
        if self.owners[b as usize] == self.owners[self.reader as usize] || self.has_seen(b) {
            return true;
        }
        let (readers, _) = self.graph.readings_at(b);
        !readers.is_empty()
    }

    /// The first name that fits a writer.
    pub(crate) fn name_of(&self, b: u32) -> UsualName
        requires knowledge { IsKnowledge self.now }
        requires some { 0 < b }
        requires below { b < count self.now.graph.now }
        ensures { IsFirstName self.now.graph.now self.now.reader (key_at self.now.graph.now self.now.key_index) b result }
    {
        let among = self
            .graph
            .readers(b, &self.graph.keys()[self.key_index as usize]);
        for name in &NAMES {
            if self.is_called(among, b, *name) {
                return *name;
            }
        }
        UsualName::CausalChain
    }
}
