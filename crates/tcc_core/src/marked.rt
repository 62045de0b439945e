//! Relaxation of many links of one cost, 64 in a word: ways that are offered to everything that a row marks. Beside it is a
//! row of what is met at that cost, so that nothing is offered such a way twice. That takes N / 64 steps for N
//! transactions, and one for each that is new.
ghost use Rattle.std.specs.Prelude.{◌≡◌, ◌<◌, ◌≤◌, ◌+◌, ◌-◌, ◌*◌, ◌/◌, ◌%◌, ◌^◌, ℕ, true, length};
ghost use Rattle.std.specs.Int.{bit_at};
ghost use Rattle.tcc_core.specs.{private.Offers.IsOffered, declared.bucket_queue.TheConstants.BUCKETS};
ghost use Rattle.tcc_core.specs.private.Marked.{HasOffered, IsMet, IsMarkWay, IsWordWay, MayOfferMarked};
ghost use Rattle.tcc_txn.specs.declared.limits.TheConstants.{LARGE_COUNT};

use crate::queue::Queue;

/// How many marks a word has.
const WORD: usize = 64;

/// A word that marks all bits from this one upward.
fn from_bit(bit: u32) -> u64
    requires { bit < 64 }
    ensures { result ≡ 2 ^ 64 - 2 ^ bit }
{
    u64::MAX - ((1 << bit) - 1)
}

/// Offers a way at this cost to each number that the word marks; its lowest bit is the number `first`.
fn offer_word(queue: &mut Queue, word: u64, first: u32, cost: u32)
    requires within { (i : ℕ) → i < 64 → bit_at word i ≡ 1 → first + i < length queue.old.costs }
    requires few { first < 2 ^ 31 }
    requires window { cost < queue.old.floor + BUCKETS }
    ensures floor { queue.new.floor ≡ queue.old.floor }
    ensures offered { IsOffered (IsWordWay word first cost) queue.old.floor queue.old.costs queue.new.costs }
{
    let mut left = word;
    while left != 0 {
        let bit = left.trailing_zeros();
        left &= !(1 << bit);
        queue.offer(first + bit, cost);
    }
}

/// Offers a way at this cost to each number that the word at an index of a row marks and that is not met yet. From then on
/// they are met.
fn offer_fresh(queue: &mut Queue, met: &mut [u64], word: u64, index: usize, cost: u32)
    requires index { index < length met.old }
    requires few { length met.old ≤ LARGE_COUNT }
    requires within { (i : ℕ) → i < 64 → bit_at word i ≡ 1 → index * 64 + i < length queue.old.costs }
    requires above { queue.old.floor < cost }
    requires window { cost < queue.old.floor + BUCKETS }
    requires met { IsMet cost met.old queue.old.costs }
    ensures { HasOffered (IsWordWay word (index * 64) cost) cost met.old met.new queue.old queue.new }
{
    let fresh = word & !met[index];
    if fresh != 0 {
        offer_word(queue, fresh, (index * WORD) as u32, cost);
        met[index] |= fresh;
    }
}

/// Offers a way at this cost to each number that is not met yet and that a word of the row from this index on marks.
fn offer_words(queue: &mut Queue, met: &mut [u64], marks: &[u64], from: usize, cost: u32)
    requires { MayOfferMarked cost met.old marks.now queue.old }
    ensures { HasOffered (IsMarkWay marks.now (from * 64) cost) cost met.old met.new queue.old queue.new }
{
    for index in from..marks.len() {
        offer_fresh(queue, met, marks[index], index, cost);
    }
}

/// Offers a way at this cost to each number from the start upward that the row marks and that is not met yet. From then on
/// they are met.
pub(crate) fn offer_marked(queue: &mut Queue, met: &mut [u64], marks: &[u64], start: u32, cost: u32)
    requires { MayOfferMarked cost met.old marks.now queue.old }
    ensures { HasOffered (IsMarkWay marks.now start cost) cost met.old met.new queue.old queue.new }
{
    let first = start as usize / WORD;
    if first >= marks.len() {
        return;
    }
    let upward = marks[first] & from_bit(start % WORD as u32);
    offer_fresh(queue, met, upward, first, cost);
    offer_words(queue, met, marks, first + 1, cost);
}
