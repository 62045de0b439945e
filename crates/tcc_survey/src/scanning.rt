//! Which of the writers in a block of sessions contradict a read: those that its source reaches and that reach its reader. Of few
//! writers each is looked at; of many, in each session the first by binary search, as numbers rise with places in a session. At
//! `Atomic`, where a single pair leads to the reader, those of its own session are, and those that it reads from. A read of a key
//! with W writers in the block takes 32 steps, or 64 log W, and at `Atomic` log W for each read of its reader.
ghost use Rattle.std.specs.Prelude.{◌≡◌, ◌<◌, ◌≤◌, ◌+◌, ◌⊎◌, ◌↔◌, ℕ, true, false, length, slice_index, Contains, IsTrue, OnOk};
ghost use Rattle.std.specs.List.Sorted.{IsNonDecreasing};
ghost use Rattle.tcc_reads.specs.History.{count};
ghost use Rattle.tcc_graph.specs.{Keys.key_at, Levels.judged, declared.level.Level.TheVariants.Atomic};
ghost use Rattle.tcc_clocks.specs.declared.latest.TheConstants.{WIDE};
ghost use Rattle.tcc_survey.specs.private.Settled.{IsLeastOf, IsBlock, MayHit, IsWithin, IsKnown, IsHitOf, IsHitOnLane, IsOwnHit, AreWritersIn, IsReading, IsLeastBefore, AreReads, AreSettled, AreSpansIn};

use crate::block::ClockBlock;
use crate::external_reads::Reading;
use std::alloc::Global;
use tcc_clocks::{SharedRows, WIDE, between, block_bounds, find_spans};
use tcc_graph::Level;
use tcc_txn::NoMemory;

/// Up to so many writers of a key are looked at one by one.
const FEW: usize = 32;

/// How many of these, which rise, are less than `bound`.
pub(crate) fn count_before(numbers: &[u32], bound: u32) -> usize
    requires { IsNonDecreasing numbers.now }
    ensures within { result ≤ length numbers.now }
    ensures less { (k : ℕ) → k < result → slice_index numbers.now k < bound }
    ensures others { (k : ℕ) → result ≤ k → k < length numbers.now → bound ≤ slice_index numbers.now k }
{
    numbers.partition_point(|number| *number < bound)
}

/// Whether these numbers, which rise, have this one.
pub(crate) fn is_among(numbers: &[u32], b: u32) -> bool
    requires { IsNonDecreasing numbers.now }
    ensures { IsTrue result ↔ Contains numbers.now b }
{
    let index = count_before(numbers, b);
    if index < numbers.len() {
        return numbers[index] == b;
    }
    false
}

/// A look at the writers of a read's key in a block of sessions.
#[derive(Clone, Copy)]
struct Scan<'a> {
    level: Level,
    block: ClockBlock<'a>,
    /// Of each session of the block the first number that the source reaches.
    first: &'a [u32],
    /// Of each session of the block the last number that reaches the reader.
    clock: &'a [u32],
    /// The writers, which rise.
    writers: &'a [u32],
    /// The number of the reader.
    reader: u32,
}

impl Scan<'_> {
    /// Whether a writer is of the block, and lies between the rows in its session.
    fn is_within(&self, b: u32) -> bool
        requires may { MayHit self.now }
        requires inside { b < length self.now.block.owners.now }
        ensures { IsTrue result ↔ IsWithin self.now.block.owners.now self.now.block.from self.now.first.now self.now.clock.now b }
    {
        let owner = self.block.owners[b as usize];
        if owner < self.block.from {
            return false;
        }
        let lane = (owner - self.block.from) as usize;
        lane < WIDE && self.first[lane] <= b && b <= self.clock[lane]
    }

    /// Whether a writer that reaches the reader is known to it at the level.
    fn is_known(&self, b: u32) -> bool
        requires may { MayHit self.now }
        requires inside { b < count self.now.block.graph.now }
        ensures { IsTrue result ↔ IsKnown self.now.level self.now.block.graph.now b self.now.reader }
    {
        match self.level {
            Level::Causal => true,
            Level::Atomic => self.block.graph.causal(b, self.reader),
        }
    }

    /// The first of the writers that lies between the rows and is known to the reader, or 0 where there is none: one by one.
    fn hit_of_few(&self) -> u32
        requires { MayHit self.now }
        ensures { IsLeastOf (IsHitOf self.now) result }
    {
        for writer in self.writers {
            let b = *writer;
            if b > 0 && self.is_within(b) && self.is_known(b) {
                return b;
            }
        }
        0
    }

    /// The first of the writers that is of a session of the block, lies between the rows and is known to the reader, or 0.
    fn hit_in_session(&self, lane: usize) -> u32
        requires may { MayHit self.now }
        requires lane { lane < WIDE }
        ensures { IsLeastOf (IsHitOnLane self.now lane) result }
    {
        let session = self.block.from + lane as u32;
        let low = self.first[lane];
        let high = self.clock[lane];
        if low > high {
            return 0;
        }
        for index in count_before(self.writers, low)..self.writers.len() {
            let b = self.writers[index];
            if b > high {
                return 0;
            }
            if b > 0 && b >= low && self.block.owners[b as usize] == session && self.is_known(b) {
                return b;
            }
        }
        0
    }

    /// The first of the writers that lies between the rows and is known to the reader, or 0: session by session.
    fn hit_of_many(&self) -> u32
        requires { MayHit self.now }
        ensures { IsLeastOf (IsHitOf self.now) result }
    {
        for lane in 0..WIDE {
            let found = self.hit_in_session(lane);
            if found > 0 {
                return found;
            }
        }
        0
    }

    /// Whether a transaction is one of the writers.
    fn has(&self, b: u32) -> bool
        requires { MayHit self.now }
        ensures { IsTrue result ↔ Contains self.now.writers.now b }
    {
        is_among(self.writers, b)
    }

    /// Whether a transaction is one of the writers, lies between the rows and is known to the reader.
    fn is_hit(&self, b: u32) -> bool
        requires may { MayHit self.now }
        requires inside { b < count self.now.block.graph.now }
        ensures { IsTrue result ↔ IsHitOf self.now b }
    {
        b > 0 && self.has(b) && self.is_within(b) && self.is_known(b)
    }

    /// The lesser of a hit, or 0 for none, and of a transaction, where that is a hit.
    fn lesser_hit(&self, least: u32, b: u32) -> u32
        requires may { MayHit self.now }
        requires inside { b < count self.now.block.graph.now }
        requires attained { (least ≡ 0) ⊎ IsHitOf self.now least }
        ensures attained { (result ≡ 0) ⊎ IsHitOf self.now result }
        ensures kept { 0 < least → (0 < result) × (result ≤ least) }
        ensures met { IsHitOf self.now b → (0 < result) × (result ≤ b) }
    {
        if (least == 0 || b < least) && self.is_hit(b) {
            b
        } else {
            least
        }
    }

    /// The first of the writers of the reader's session that lies between the rows and is known to the reader, or 0.
    fn hit_of_own(&self) -> u32
        requires { MayHit self.now }
        ensures { IsLeastOf (IsOwnHit self.now) result }
    {
        let owner = self.block.owners[self.reader as usize];
        if owner < self.block.from {
            return 0;
        }
        let lane = (owner - self.block.from) as usize;
        if lane < WIDE {
            self.hit_in_session(lane)
        } else {
            0
        }
    }

    /// The first of the writers that lies between the rows and from which a single pair leads to the reader, or 0: one of the
    /// reader's session, or one that it reads from.
    fn hit_beside(&self) -> u32
        requires may { MayHit self.now }
        requires level { self.now.level ≡ Atomic }
        ensures { IsLeastOf (IsHitOf self.now) result }
    {
        let mut least = self.hit_of_own();
        for read in self.block.graph.reads_at(self.reader) {
            least = self.lesser_hit(least, read.1);
        }
        least
    }

    /// The first of the writers that lies between the rows and is known to the reader, or 0.
    fn first_hit(&self) -> u32
        requires { MayHit self.now }
        ensures { IsLeastOf (IsHitOf self.now) result }
    {
        if self.writers.len() <= FEW {
            return self.hit_of_few();
        }
        match self.level {
            Level::Causal => self.hit_of_many(),
            Level::Atomic => self.hit_beside(),
        }
    }
}

/// A block of sessions at a level, with clocks both ways.
#[derive(Clone, Copy)]
pub(crate) struct ReadSweep<'a> {
    pub level: Level,
    pub block: ClockBlock<'a>,
    /// Of each transaction and each session of the block the first number that it reaches.
    pub firsts: &'a SharedRows,
    /// Of each transaction and each session of the block the last number that reaches it.
    pub clocks: &'a SharedRows,
}

impl ReadSweep<'_> {
    /// Whether no writer of the block can be the least that contradicts a read: one of an earlier block is, or the reader knows no
    /// more of the block than its source does.
    fn is_settled(&self, reading: Reading, known: u32) -> bool
        requires block { IsBlock self.now }
        requires read { IsReading self.now.block.graph.now reading }
        requires known { IsLeastBefore (judged self.now.block.graph.now self.now.level) self.now.block.from reading known }
        ensures yes { result ≡ true → IsLeastBefore (judged self.now.block.graph.now self.now.level) (self.now.block.from + WIDE) reading known }
        ensures no { result ≡ false → known ≡ 0 }
    {
        if known > 0 {
            return true;
        }
        self.clocks.are_same(reading.source, reading.reader)
    }

    /// The least number that contradicts a read, of those up to the block, where none of an earlier one does: of these writers of its
    /// key.
    fn least_up_to(&self, writers: &[u32], reading: Reading) -> u32
        requires block { IsBlock self.now }
        requires writers { AreWritersIn self.now.block.graph.now self.now.block.from (key_at self.now.block.graph.now reading.key_index) writers.now }
        requires read { IsReading self.now.block.graph.now reading }
        requires known { IsLeastBefore (judged self.now.block.graph.now self.now.level) self.now.block.from reading 0 }
        ensures { IsLeastBefore (judged self.now.block.graph.now self.now.level) (self.now.block.from + WIDE) reading result }
    {
        if writers.is_empty() {
            return 0;
        }
        let scan = Scan {
            level: self.level,
            block: self.block,
            first: self.firsts.get(reading.source),
            clock: self.clocks.get(reading.reader),
            writers,
            reader: reading.reader,
        };
        scan.first_hit()
    }

    /// Goes on, for each read, to the writers of its key in the block.
    fn settle_each(&self, found: &mut [u32], spans: &[(usize, usize)], reads: &[Reading])
        requires block { IsBlock self.now }
        requires spans { AreSpansIn self.now.block.graph.now self.now.block.from spans.now }
        requires reads { AreReads self.now.block.graph.now reads.now }
        requires settled { AreSettled (judged self.now.block.graph.now self.now.level) reads.now self.now.block.from found.old }
        ensures { AreSettled (judged self.now.block.graph.now self.now.level) reads.now (self.now.block.from + WIDE) found.new }
    {
        for (index, read) in reads.iter().enumerate() {
            if self.is_settled(*read, found[index]) {
                continue;
            }
            let key_index = read.key_index;
            let among = self.block.graph.writers_at(key_index);
            let writers = between(among, spans[key_index as usize]);
            found[index] = self.least_up_to(writers, *read);
        }
    }

    /// Goes on, for each read, to the writers of the block.
    pub(crate) fn settle(
        &self,
        alloc: Global,
        found: &mut [u32],
        reads: &[Reading],
    ) -> Result<(), NoMemory>
        requires block { IsBlock self.now }
        requires reads { AreReads self.now.block.graph.now reads.now }
        requires settled { AreSettled (judged self.now.block.graph.now self.now.level) reads.now self.now.block.from found.old }
        ensures same { length found.new ≡ length found.old }
        ensures settled { OnOk result (AreSettled (judged self.now.block.graph.now self.now.level) reads.now (self.now.block.from + WIDE) found.new) }
    {
        let bounds = block_bounds(self.block.owners, self.block.from);
        let mut spans = Vec::new(alloc);
        find_spans(&mut spans, self.block.graph, bounds)?;
        self.settle_each(found, &spans, reads);
        Ok(())
    }
}
