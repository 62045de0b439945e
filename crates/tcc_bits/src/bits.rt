//! Bit sets: rows of marks, 64 in a word. Number b is bit b % 64 of word b / 64. To mark a number and to ask for one takes one
//! step. What is marked and not seen yet is found a word at a time, in N / 64 steps and one for each number found.
ghost use Rattle.std.specs.Prelude.{◌≡◌, ◌<◌, ◌≤◌, ◌+◌, ◌/◌, ◌^◌, ◌==◌, ◌||◌, ◌↔◌, ◌⊎◌, ℕ, true, length, All, Contains, OnOk};
ghost use Rattle.std.specs.Int.{bit_at};
ghost use Rattle.std.specs.List.{AllPairs};
ghost use Rattle.tcc_txn.specs.declared.limits.TheConstants.{LARGE_COUNT};
ghost use Rattle.tcc_bits.specs.Bits.{is_marked, words_for, IsFresh};
ghost use Rattle.tcc_bits.specs.private.Ascending.{IsAscendingBelow};

use std::alloc::AllocError;

/// How many marks a word has.
const WORD: usize = 64;

/// How many words hold this many marks.
pub fn words_for(count: usize) -> usize
    ensures { result ≡ words_for count }
{
    count / WORD + 1
}

/// Whether the number is marked.
pub fn is_marked(words: &[u64], number: usize) -> bool
    ensures { result ≡ is_marked words.now number }
{
    match words.get(number / WORD) {
        Some(word) => word >> (number % WORD) & 1 == 1,
        None => false,
    }
}

/// Marks a number.
pub fn mark(words: &mut [u64], number: usize)
    requires { number / 64 < length words.old }
    ensures same { length words.new ≡ length words.old }
    ensures each { (b : ℕ) → is_marked words.new b ≡ (is_marked words.old b || (b == number)) }
{
    words[number / WORD] |= 1 << (number % WORD);
}

/// Marks these numbers.
pub fn mark_each(words: &mut [u64], numbers: &[u32])
    requires { All (λ number. number / 64 < length words.old) numbers.now }
    ensures same { length words.new ≡ length words.old }
    ensures each { (b : ℕ) → (is_marked words.new b ≡ true) ↔ ((is_marked words.old b ≡ true) ⊎ Contains numbers.now b) }
{
    for number in numbers {
        mark(words, *number as usize);
    }
}

/// Appends the numbers that a word marks, in ascending order. Its lowest bit represents `first`.
fn push_marked(numbers: &mut Vec<u32>, word: u64, first: u32) -> Result<(), AllocError>
    requires { first < 2 ^ 31 }
    ensures each { OnOk result ((b : ℕ) → Contains numbers.new.items b
        ↔ (Contains numbers.old.items b ⊎ ((bit : ℕ) × (bit < 64) × (bit_at word bit ≡ 1) × (b ≡ first + bit)))) }
    ensures ascending { OnOk result (IsAscendingBelow first numbers.old.items → IsAscendingBelow (first + 64) numbers.new.items) }
{
    let mut left = word;
    while left != 0 {
        let bit = left.trailing_zeros();
        left &= !(1 << bit);
        numbers.push(first + bit)?;
    }
    Ok(())
}

/// Finds the numbers that are marked and have not been seen, in ascending order. They count as seen from now on.
pub fn take_fresh(fresh: &mut Vec<u32>, seen: &mut [u64], marks: &[u64]) -> Result<(), AllocError>
    requires same { length seen.old ≡ length marks.now }
    requires few { length marks.now ≤ LARGE_COUNT }
    ensures same { length seen.new ≡ length seen.old }
    ensures seen { OnOk result ((b : ℕ) → is_marked seen.new b ≡ (is_marked seen.old b || is_marked marks.now b)) }
    ensures fresh { OnOk result (IsFresh seen.old marks.now fresh.new.items) }
    ensures ascending { OnOk result (AllPairs (λ a b. a < b) fresh.new.items) }
{
    fresh.clear();
    for (place, known) in seen.iter_mut().enumerate() {
        let word = marks[place];
        push_marked(fresh, word & !*known, (place * WORD) as u32)?;
        *known |= word;
    }
    Ok(())
}
