//! How each contradicted read is usually called: the first name that fits any writer that contradicts it, and the least such writer.
//! Block by block of sessions, along rows that say what each source reaches (`reverse_clocks`), the writers of a contradicted read's
//! key are looked at. Where they are few, each is: that takes a step, and a look at its readers for one that contradicts the read and may
//! have a closer name than that of a chain. Of W many these are looked at: in each session the first that the source reaches, those that
//! the reader reads from, and those from which anybody reads the key. The last go up to the first that no later one can come before. That
//! takes 64 log W steps, log W for each read of the reader, and log W for each of those writers that the reader's session knows by a chain
//! alone.
ghost use Rattle.std.specs.Prelude.{◌≡◌, ◌<◌, ◌≤◌, ◌+◌, ◌++◌, ◌∷◌, ◌↔◌, [], ℕ, true, List, length, map, slice_index, Contains, IfOk, IsTrue, OnOk};
ghost use Rattle.tcc_reads.specs.History.{count};
ghost use Rattle.tcc_graph.specs.{Keys.key_at, Keys.writers, Levels.judged, Orders.IsNumbering};
ghost use Rattle.tcc_clocks.specs.{Clocks.LeadsOnward, declared.latest.TheConstants.WIDE};
ghost use Rattle.tcc_survey.specs.Names.{rank};
ghost use Rattle.tcc_survey.specs.declared.called.Called.{Called};
ghost use Rattle.tcc_survey.specs.declared.usual_name.UsualName.TheVariants.{CausalChain};
ghost use Rattle.tcc_survey.specs.private.Called.{AreCalled, AreCalledBefore, IsCalledAmong, IsCalledBefore, IsNoLater, as_called};
ghost use Rattle.tcc_survey.specs.private.Calling.{AreChosen, HasContradicted, IsBeforeAll, IsByWriter, IsCalledSoFar, IsCalling, IsCallingBlock, IsCallingSweep, IsFirstOnLane, IsFractured, IsReachedAt, IsReaderFrom, IsReaderOnLane};
ghost use Rattle.tcc_survey.specs.private.Listed.{AreReadsUpTo};
ghost use Rattle.tcc_survey.specs.private.Seen.{AreMarks, AreUpToReader, latest_mark};
ghost use Rattle.tcc_survey.specs.private.Settled.{AreReads, AreWritersIn, IsKnown, IsReading};

use crate::block::ClockBlock;
use crate::called::Called;
use crate::clock_sweep::{find_least, reversed};
use crate::external_reads::Reading;
use crate::needed::needed_blocks;
use crate::reverse_clocks::find_firsts;
use crate::scanning::{count_before, is_among};
use crate::seen::{Mark, mark_reads};
use crate::session_guarantees::Knowledge;
use crate::usual_name::UsualName;
use std::alloc::{AllocError, Global};
use tcc_base::Progress;
use tcc_clocks::{SharedRows, WIDE, between, block_bounds, find_spans, owners};
use tcc_graph::{LargeGraph, Level};
use tcc_txn::NoMemory;

/// Up to so many writers of a key are looked at one by one.
const FEW: usize = 256;

/// The first name that may fit a writer from which somebody reads the key, or a later one of its session. It goes by the last of the
/// session that the reader's session has read from.
fn reader_name(latest: u32, b: u32) -> UsualName
    ensures { (m : Called) → IsReaderFrom latest b m → rank result ≤ rank m.name }
{
    if b <= latest {
        UsualName::MonotonicReads
    } else {
        UsualName::WritesFollowReads
    }
}

/// The next number.
fn following(graph: &LargeGraph, b: u32) -> u32
    requires { b < count graph.now }
    ensures { result ≡ b + 1 }
{
    // The proof reads here how many transactions there are at most.
    let _ = graph.count();
    b + 1
}

/// A look at the writers of a contradicted read's key in a block of sessions.
#[derive(Clone, Copy)]
struct Calling<'a> {
    level: Level,
    /// The first session of the block.
    from: u32,
    /// Of each session of the block the first number that the source of the read reaches.
    first: &'a [u32],
    /// From whom the key is read, by ascending number.
    sources: &'a [u32],
    reading: Reading,
    knowledge: Knowledge<'a>,
}

impl Calling<'_> {
    /// Whether a writer is of the block, and reached from the source.
    fn is_reached(&self, b: u32) -> bool
        requires calling { IsCalling self.now }
        requires inside { b < length self.now.knowledge.owners.now }
        ensures { IsTrue result ↔ IsReachedAt self.now.knowledge.owners.now self.now.from self.now.first.now b }
    {
        let owner = self.knowledge.owners[b as usize];
        if owner < self.from {
            return false;
        }
        let lane = (owner - self.from) as usize;
        lane < WIDE && self.first[lane] <= b
    }

    /// Whether the level lets the reader know about a writer that reaches it.
    fn is_known(&self, b: u32) -> bool
        requires calling { IsCalling self.now }
        requires inside { b < count self.now.knowledge.graph.now }
        ensures { IsTrue result ↔ IsKnown self.now.level self.now.knowledge.graph.now b self.now.reading.reader }
    {
        match self.level {
            Level::Causal => true,
            Level::Atomic => self.knowledge.graph.causal(b, self.reading.reader),
        }
    }

    /// The first of what the read is called so far, and of what it is called by one writer more.
    fn with_writer(&self, one: Called, b: u32) -> Called
        requires calling { IsCalling self.now }
        requires writer { Contains (writers self.now.knowledge.graph.now (key_at self.now.knowledge.graph.now self.now.reading.key_index)) b }
        ensures called { (among : List ℕ) → IsCalledAmong (judged self.now.knowledge.graph.now self.now.level) self.now.from among self.now.reading one
            → IsCalledAmong (judged self.now.knowledge.graph.now self.now.level) self.now.from (among ++ b ∷ []) self.now.reading result }
        ensures kept { IsNoLater result one }
    {
        if b == 0 || !self.is_reached(b) || !self.knowledge.may_be_closer(b) || !self.is_known(b) {
            return one;
        }
        one.first_of(Called {
            name: self.knowledge.name_of(b),
            writer: b,
        })
    }

    /// The first of what the read is called so far, and of what it is called by these writers, one by one.
    fn with_each(&self, one: Called, among: &[u32]) -> Called
        requires calling { IsCalling self.now }
        requires writers { (b : ℕ) → Contains among.now b → Contains (writers self.now.knowledge.graph.now (key_at self.now.knowledge.graph.now self.now.reading.key_index)) b }
        requires one { IsCalledSoFar self.now one }
        ensures { IsCalledAmong (judged self.now.knowledge.graph.now self.now.level) self.now.from among.now self.now.reading result }
    {
        let mut best = one;
        for b in among {
            best = self.with_writer(best, *b);
        }
        best
    }

    /// The first of what the read is called so far, and of what it is called by a transaction, where that is one of these writers.
    fn with_listed(&self, one: Called, among: &[u32], b: u32) -> Called
        requires calling { IsCalling self.now }
        requires among { AreWritersIn self.now.knowledge.graph.now self.now.from (key_at self.now.knowledge.graph.now self.now.reading.key_index) among.now }
        requires one { IsCalledSoFar self.now one }
        ensures called { IsCalledSoFar self.now result }
        ensures kept { IsNoLater result one }
        ensures met { IsBeforeAll self.now (IsByWriter b) result }
    {
        if is_among(among, b) {
            self.with_writer(one, b)
        } else {
            one
        }
    }

    /// The first of what the read is called so far, and of what it is called by those that its reader reads from.
    fn with_read_from(&self, one: Called, among: &[u32]) -> Called
        requires calling { IsCalling self.now }
        requires among { AreWritersIn self.now.knowledge.graph.now self.now.from (key_at self.now.knowledge.graph.now self.now.reading.key_index) among.now }
        requires one { IsCalledSoFar self.now one }
        ensures called { IsCalledSoFar self.now result }
        ensures met { IsBeforeAll self.now IsFractured result }
    {
        let mut best = one;
        for read in self.knowledge.graph.reads_at(self.knowledge.reader) {
            best = self.with_listed(best, among, read.1);
        }
        best
    }

    /// Whether a transaction is of a session of the block.
    fn is_on(&self, b: u32, lane: usize) -> bool
        requires calling { IsCalling self.now }
        requires lane { lane < WIDE }
        requires inside { b < count self.now.knowledge.graph.now }
        ensures { IsTrue result ↔ (slice_index self.now.knowledge.owners.now b ≡ self.now.from + lane) }
    {
        self.knowledge.owners[b as usize] == self.from + lane as u32
    }

    /// Whether a transaction is of a later session than one of the block.
    fn is_beyond(&self, b: u32, lane: usize) -> bool
        requires calling { IsCalling self.now }
        requires lane { lane < WIDE }
        requires inside { b < count self.now.knowledge.graph.now }
        ensures { IsTrue result ↔ (self.now.from + lane < slice_index self.now.knowledge.owners.now b) }
    {
        self.from + (lane as u32) < self.knowledge.owners[b as usize]
    }

    /// Whether a writer is of a session of the block, and reached from the source.
    fn is_reached_on(&self, b: u32, lane: usize) -> bool
        requires calling { IsCalling self.now }
        requires lane { lane < WIDE }
        requires inside { b < count self.now.knowledge.graph.now }
        ensures { IsTrue result ↔ ((0 < b) × (slice_index self.now.first.now lane ≤ b) × (slice_index self.now.knowledge.owners.now b ≡ self.now.from + lane)) }
    {
        b > 0 && self.first[lane] <= b && self.is_on(b, lane)
    }

    /// The first of what the read is called so far, and of what it is called by the first writer of a session of the block that its
    /// source reaches. A later one of the session comes before that only where somebody reads the key from it, or the reader reads from it.
    fn with_first(&self, one: Called, among: &[u32], lane: usize) -> Called
        requires calling { IsCalling self.now }
        requires among { AreWritersIn self.now.knowledge.graph.now self.now.from (key_at self.now.knowledge.graph.now self.now.reading.key_index) among.now }
        requires lane { lane < WIDE }
        requires one { IsCalledSoFar self.now one }
        ensures called { IsCalledSoFar self.now result }
        ensures kept { IsNoLater result one }
        ensures met { IsBeforeAll self.now (IsFirstOnLane self.now lane) result }
    {
        for index in count_before(among, self.first[lane])..among.len() {
            let b = among[index];
            if self.is_reached_on(b, lane) {
                return self.with_writer(one, b);
            }
            if self.is_beyond(b, lane) {
                return one;
            }
        }
        one
    }

    /// Whether no writer of this one's session from it on, from which somebody reads the key, calls the read by something earlier.
    fn is_first_from(&self, best: Called, b: u32) -> bool
        requires calling { IsCalling self.now }
        requires inside { b < count self.now.knowledge.graph.now }
        ensures { result ≡ true → (m : Called) → IsReaderFrom (latest_mark self.now.knowledge.owners.now self.now.knowledge.marks.now self.now.knowledge.reader (slice_index self.now.knowledge.owners.now b)) b m → IsNoLater best m }
    {
        let session = self.knowledge.owners[b as usize];
        let name = reader_name(self.knowledge.latest(session), b);
        best.is_before(&Called { name, writer: b })
    }

    /// The first of what the read is called so far, and of what it is called by some writers of a session of the block. These are the
    /// ones from which somebody reads the key, up to the first that no later one can come before.
    fn with_reader(&self, one: Called, among: &[u32], lane: usize) -> Called
        requires calling { IsCalling self.now }
        requires among { AreWritersIn self.now.knowledge.graph.now self.now.from (key_at self.now.knowledge.graph.now self.now.reading.key_index) among.now }
        requires lane { lane < WIDE }
        requires one { IsCalledSoFar self.now one }
        ensures called { IsCalledSoFar self.now result }
        ensures kept { IsNoLater result one }
        ensures met { IsBeforeAll self.now (IsReaderOnLane self.now lane) result }
    {
        let mut best = one;
        let mut next = count_before(self.sources, self.first[lane]);
        for _source in 0..self.sources.len() {
            if next == self.sources.len() {
                return best;
            }
            let b = self.sources[next];
            if self.is_beyond(b, lane) {
                return best;
            }
            if self.is_on(b, lane) && self.is_first_from(best, b) {
                return best;
            }
            best = self.with_listed(best, among, b);
            next = count_before(self.sources, following(self.knowledge.graph, b));
        }
        best
    }

    /// The first of what the read is called so far, and of what it is called by the first writers of the sessions of the block that its
    /// source reaches.
    fn with_firsts(&self, one: Called, among: &[u32]) -> Called
        requires calling { IsCalling self.now }
        requires among { AreWritersIn self.now.knowledge.graph.now self.now.from (key_at self.now.knowledge.graph.now self.now.reading.key_index) among.now }
        requires one { IsCalledSoFar self.now one }
        ensures called { IsCalledSoFar self.now result }
        ensures kept { IsNoLater result one }
        ensures met { (lane : ℕ) → lane < WIDE → IsBeforeAll self.now (IsFirstOnLane self.now lane) result }
    {
        let mut best = one;
        for lane in 0..WIDE {
            best = self.with_first(best, among, lane);
        }
        best
    }

    /// The first of what the read is called so far, and of what it is called by the writers of the block from which somebody reads the key.
    fn with_readers(&self, one: Called, among: &[u32]) -> Called
        requires calling { IsCalling self.now }
        requires among { AreWritersIn self.now.knowledge.graph.now self.now.from (key_at self.now.knowledge.graph.now self.now.reading.key_index) among.now }
        requires one { IsCalledSoFar self.now one }
        ensures called { IsCalledSoFar self.now result }
        ensures kept { IsNoLater result one }
        ensures met { (lane : ℕ) → lane < WIDE → IsBeforeAll self.now (IsReaderOnLane self.now lane) result }
    {
        let mut best = one;
        for lane in 0..WIDE {
            best = self.with_reader(best, among, lane);
        }
        best
    }

    /// The first of what the read is called so far, and of what it is called by these writers, where they are many.
    fn with_many(&self, one: Called, among: &[u32]) -> Called
        requires calling { IsCalling self.now }
        requires among { AreWritersIn self.now.knowledge.graph.now self.now.from (key_at self.now.knowledge.graph.now self.now.reading.key_index) among.now }
        requires one { IsCalledSoFar self.now one }
        ensures { IsCalledAmong (judged self.now.knowledge.graph.now self.now.level) self.now.from among.now self.now.reading result }
    {
        let fractured = self.with_read_from(one, among);
        let first = self.with_firsts(fractured, among);
        self.with_readers(first, among)
    }

    /// The first of what the read is called so far, and of what it is called by these writers.
    fn with_writers(&self, one: Called, among: &[u32]) -> Called
        requires calling { IsCalling self.now }
        requires among { AreWritersIn self.now.knowledge.graph.now self.now.from (key_at self.now.knowledge.graph.now self.now.reading.key_index) among.now }
        requires one { IsCalledSoFar self.now one }
        ensures { IsCalledAmong (judged self.now.knowledge.graph.now self.now.level) self.now.from among.now self.now.reading result }
    {
        if among.len() <= FEW {
            self.with_each(one, among)
        } else {
            self.with_many(one, among)
        }
    }
}

/// A block of sessions at a level, with the rows of what each transaction reaches.
#[derive(Clone, Copy)]
struct CallingSweep<'a> {
    level: Level,
    block: ClockBlock<'a>,
    /// Of each transaction and each session of the block the first number that it reaches.
    firsts: &'a SharedRows,
    /// Of each key where its writers in the block begin and end.
    spans: &'a [(usize, usize)],
}

impl CallingSweep<'_> {
    /// What a read is called by the writers of the block too, by the marks of what its session has read.
    fn call(&self, marks: &[Mark], reading: Reading, one: Called) -> Called
        requires sweep { IsCallingSweep self.now }
        requires read { IsReading self.now.block.graph.now reading }
        requires room { length marks.now ≡ length self.now.block.graph.now.sessions }
        requires marks { (reads : List Reading) × (n : ℕ) × AreReadsUpTo self.now.block.graph.now (count self.now.block.graph.now) 0 reads × AreUpToReader reads n reading.reader
            × AreMarks self.now.block.owners.now reads n marks.now }
        requires one { IsCalledBefore (judged self.now.block.graph.now self.now.level) self.now.block.from reading one }
        ensures { IsCalledBefore (judged self.now.block.graph.now self.now.level) (self.now.block.from + WIDE) reading result }
    {
        if one.writer == 0 {
            return one;
        }
        let graph = self.block.graph;
        let (sources, _readers) = graph.readings_of(reading.key_index);
        let calling = Calling {
            level: self.level,
            from: self.block.from,
            first: self.firsts.get(reading.source),
            sources,
            reading,
            knowledge: Knowledge {
                graph,
                owners: self.block.owners,
                marks,
                reader: reading.reader,
                key_index: reading.key_index,
            },
        };
        let among = graph.writers_at(reading.key_index);
        calling.with_writers(one, between(among, self.spans[reading.key_index as usize]))
    }

    /// Goes on, for each read, to the writers of the block.
    fn call_each(&self, marks: &mut [Mark], called: &mut [Called], reads: &[Reading])
        requires sweep { IsCallingSweep self.now }
        requires reads { AreReadsUpTo self.now.block.graph.now (count self.now.block.graph.now) 0 reads.now }
        requires room { length marks.old ≡ length self.now.block.graph.now.sessions }
        requires marks { AreMarks self.now.block.owners.now reads.now 0 marks.old }
        requires called { AreCalledBefore (judged self.now.block.graph.now self.now.level) reads.now self.now.block.from called.old }
        ensures { AreCalledBefore (judged self.now.block.graph.now self.now.level) reads.now (self.now.block.from + WIDE) called.new }
    {
        let mut marked = 0;
        for (index, read) in reads.iter().enumerate() {
            marked = mark_reads(marks, self.block.owners, reads, marked, read.reader);
            called[index] = self.call(marks, *read, called[index]);
        }
    }
}

/// Goes on, for each read, to the writers of a block of sessions.
fn call_block(
    alloc: Global,
    level: Level,
    block: &ClockBlock<'_>,
    firsts: &SharedRows,
    called: &mut [Called],
    reads: &[Reading],
) -> Result<(), NoMemory>
    requires block { IsCallingBlock block.now firsts.now }
    requires reads { AreReadsUpTo block.now.graph.now (count block.now.graph.now) 0 reads.now }
    requires called { AreCalledBefore (judged block.now.graph.now level) reads.now block.now.from called.old }
    ensures same { length called.new ≡ length called.old }
    ensures called { OnOk result (AreCalledBefore (judged block.now.graph.now level) reads.now (block.now.from + WIDE) called.new) }
{
    let bounds = block_bounds(block.owners, block.from);
    let mut spans = Vec::new(alloc);
    find_spans(&mut spans, block.graph, bounds)?;
    let sessions = block.graph.sessions().len();
    let mut marks = vec![in alloc; Mark {
        session: 0,
        source: 0
    }; sessions]?;
    let sweep = CallingSweep {
        level,
        block: *block,
        firsts,
        spans: &spans,
    };
    sweep.call_each(&mut marks, called, reads);
    Ok(())
}

/// Goes on, for each read, to the writers of all blocks that have some that may contradict one of those chosen. Before
/// each block `progress` is told how many are done; they are the second half of the work.
fn call_blocks<P: Progress>(
    alloc: Global,
    graph: &LargeGraph,
    level: Level,
    order: &[u32],
    reads: &[Reading],
    chosen: &[Reading],
    called: &mut [Called],
    progress: &P,
) -> Result<(), NoMemory>
    requires numbering { IsNumbering (count graph.now) order.now }
    requires onward { LeadsOnward graph.now order.now }
    requires reads { AreReadsUpTo graph.now (count graph.now) 0 reads.now }
    requires chosen { AreReads graph.now chosen.now }
    requires others { HasContradicted (judged graph.now level) reads.now chosen.now }
    requires called { AreCalledBefore (judged graph.now level) reads.now 0 called.old }
    ensures { OnOk result (AreCalled (judged graph.now level) reads.now called.new) }
{
    let sessions = graph.sessions().len();
    let owners = owners(alloc, graph)?;
    let needed = needed_blocks(alloc, graph, &owners, chosen)?;
    let backward = reversed(alloc, order)?;
    let mut firsts = SharedRows::new(alloc, graph.count())?;
    let blocks = sessions.div_ceil(WIDE);
    for number in 0..blocks {
        progress.done(blocks + number, 2 * blocks);
        if !needed[number] {
            continue;
        }
        let block = ClockBlock {
            graph,
            owners: &owners,
            from: (number * WIDE) as u32,
        };
        find_firsts(alloc, &mut firsts, &block, &backward)?;
        call_block(alloc, level, &block, &firsts, called, reads)?;
    }
    Ok(())
}

/// Those of the reads for which something is found.
fn chosen_reads(alloc: Global, reads: &[Reading], found: &[u32]) -> Result<Vec<Reading>, AllocError>
    requires { length found.now ≡ length reads.now }
    ensures { IfOk result (λ chosen. AreChosen reads.now found.now (length reads.now) chosen.items) }
{
    let mut chosen = Vec::new(alloc);
    for (index, read) in reads.iter().enumerate() {
        if found[index] > 0 {
            chosen.push(*read)?;
        }
    }
    Ok(chosen)
}

/// The least writers, each as the beginning of a chain.
fn as_chains(alloc: Global, found: &[u32]) -> Result<Vec<Called>, AllocError>
    ensures { IfOk result (λ called. called.items ≡ map (as_called CausalChain) found.now) }
{
    let mut called = Vec::new(alloc);
    for writer in found {
        called.push(Called {
            name: UsualName::CausalChain,
            writer: *writer,
        })?;
    }
    Ok(called)
}

/// How each read is called, by an order in which causal pairs lead onward.
pub(crate) fn call_reads<P: Progress>(
    alloc: Global,
    graph: &LargeGraph,
    level: Level,
    order: &[u32],
    reads: &[Reading],
    progress: &P,
) -> Result<Vec<Called>, NoMemory>
    requires numbering { IsNumbering (count graph.now) order.now }
    requires onward { LeadsOnward graph.now order.now }
    requires reads { AreReadsUpTo graph.now (count graph.now) 0 reads.now }
    ensures { IfOk result (λ called. AreCalled (judged graph.now level) reads.now called.items) }
{
    let found = find_least(alloc, graph, level, order, reads, progress)?;
    let chosen = chosen_reads(alloc, reads, &found)?;
    let mut called = as_chains(alloc, &found)?;
    call_blocks(
        alloc,
        graph,
        level,
        order,
        reads,
        &chosen,
        &mut called,
        progress,
    )?;
    Ok(called)
}
