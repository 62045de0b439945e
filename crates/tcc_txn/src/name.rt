//! Names of sessions and keys.
ghost use Rattle.std.specs.Prelude.{◌≡◌, ◌≤◌, ◌<◌, ◌+◌, ℕ, List, length, take, drop, refl, None, Some, Ok, nat_eq, slice_index, position, not};
ghost use Rattle.std.specs.Int.{w64, from_be_bytes};
ghost use Rattle.std.specs.Ordering.{nat_cmp};
ghost use Rattle.std.specs.Hash as fed;
ghost use Rattle.std.specs.Cmp.Lexicographic.{pointwise, slice_cmp, nat_list_eq_equiv, nat_list_cmp_total, texts_ties, texts_po};
ghost use Rattle.std.specs.Cmp.{partial_equiv_from_equiv};
ghost use Rattle.std.specs.Cmp.Rules.{hashing};
ghost use Rattle.std.proofs.Common.{rules};
ghost use Rattle.tcc_txn.specs.Names.{is_name_byte, name_fault, name_of};
ghost use Rattle.tcc_txn.specs.declared.limits.TheConstants.{MAX_NAME_BYTES};

use crate::{MAX_NAME_BYTES, NoMemory};
use std::cmp::Ordering;
use std::fmt;
use std::hash::{Hash, Hasher};
use std::marker::Model;
use thiserror::Error;

/// Why some bytes are not a name.
#[derive(Clone, Copy, Debug, PartialEq, Eq, Error)]
pub enum NameFault {
    /// There are no bytes.
    #[error("a name has at least one byte")]
    Empty,
    /// There are more than `MAX_NAME_BYTES` bytes.
    #[error("the name is too long")]
    TooLong,
    /// The first byte that is in no name, counted from 1.
    #[error("byte {at} cannot stand in a name")]
    BadByte { at: usize },
    /// Out of memory. It is never returned, since a name needs no memory of its own.
    #[error("out of memory")]
    NoMemory,
}

/// The name of a session or a key: 1 to `MAX_NAME_BYTES` bytes out of `A-Z`, `a-z`, `0-9`, `_`, `.` and `-`. Names are ordered
/// by their bytes. Equality, order and hash agree, so a name can be a key of maps and of sorted lists.
pub struct Name {
    len: u8,
    buffer: [u8; MAX_NAME_BYTES],
}

impl Model for Name {
    ghost use Rattle.std.specs.Prelude.{ℕ, List, length, take};
    ghost use Rattle.tcc_txn.specs.private.Stored.{padded, IsStored};

    ghost Value = { List ℕ };

    ghost view = { λ n. take n.len n.buffer };

    ghost invariant = { λ n. IsStored n.len n.buffer };

    ghost inverse = { λ bytes. record { len = length bytes; buffer = padded bytes } };

    ghost use Rattle.tcc_txn.specs.private.Stored.{stored_again};

    ghost inverse_ok = { stored_again };
}

impl Clone for Name {
    fn clone(&self) -> Result<Name, std::alloc::AllocError> {
        Ok(*self)
    }
}

impl Copy for Name {}

fn is_name_byte(byte: u8) -> bool
    ensures { result ≡ is_name_byte byte }
{
    byte.is_ascii_alphanumeric() || byte == b'_' || byte == b'.' || byte == b'-'
}

/// The first byte that is in no name.
fn first_bad_byte(bytes: &[u8]) -> Option<usize>
    ensures { result ≡ position (λ b. not (is_name_byte b)) bytes.now }
{
    bytes.iter().position(|byte| !is_name_byte(*byte))
}

fn fault_of(bytes: &[u8]) -> Option<NameFault>
    ensures { result ≡ name_fault bytes.now }
{
    if bytes.is_empty() {
        return Some(NameFault::Empty);
    }
    if bytes.len() > MAX_NAME_BYTES {
        return Some(NameFault::TooLong);
    }
    let before = first_bad_byte(bytes)?;
    Some(NameFault::BadByte { at: before + 1 })
}

/// The eight bytes from an index on as a number, most significant byte first.
fn word(buffer: &[u8; MAX_NAME_BYTES], at: usize) -> u64
    requires { at + 8 ≤ MAX_NAME_BYTES }
    ensures { result ≡ from_be_bytes w64 (take 8 (drop at buffer.now)) }
{
    u64::from_be_bytes([
        buffer[at],
        buffer[at + 1],
        buffer[at + 2],
        buffer[at + 3],
        buffer[at + 4],
        buffer[at + 5],
        buffer[at + 6],
        buffer[at + 7],
    ])
}

/// The order of the eight bytes from an index on.
fn cmp_word(one: &[u8; MAX_NAME_BYTES], other: &[u8; MAX_NAME_BYTES], at: usize) -> Ordering
    requires { at + 8 ≤ MAX_NAME_BYTES }
    ensures { result ≡ slice_cmp nat_cmp (take 8 (drop at one.now)) (take 8 (drop at other.now)) }
{
    word(one, at).cmp(&word(other, at))
}

/// The order of two buffers, eight bytes at a time.
fn cmp_padded(one: &[u8; MAX_NAME_BYTES], other: &[u8; MAX_NAME_BYTES]) -> Ordering
    ensures { result ≡ slice_cmp nat_cmp one.now other.now }
{
    // Most names differ here, and this test is quicker than a three-way comparison.
    if word(one, 0) != word(other, 0) {
        return cmp_word(one, other, 0);
    }
    cmp_word(one, other, 8)
        .then_with(|| cmp_word(one, other, 16))
        .then_with(|| cmp_word(one, other, 24))
}

impl Name {
    /// The name that the bytes are.
    pub fn read(bytes: &[u8]) -> Result<Name, NameFault>
        ensures { result ≡ name_of bytes.now }
    {
        if let Some(fault) = fault_of(bytes) {
            return Err(fault);
        }
        let mut buffer = [0; MAX_NAME_BYTES];
        buffer[..bytes.len()].copy_from_slice(bytes);
        Ok(Name {
            len: bytes.len() as u8,
            buffer,
        })
    }

    /// The bytes of the name.
    pub fn bytes(&self) -> &[u8]
        ensures value { result.now ≡ self.now }
        ensures some { 0 < length result.now }
        ensures short { length result.now ≤ MAX_NAME_BYTES }
        ensures named { name_fault result.now ≡ None }
    {
        &self.buffer[..self.len as usize]
    }

    /// Whether the bytes are this name.
    pub fn is(&self, bytes: &[u8]) -> bool
        ensures equal { result ≡ pointwise nat_eq bytes.now self.now }
        ensures named { name_fault self.now ≡ None }
    {
        bytes == &self.buffer[..self.len as usize]
    }

    /// A hash of the name, for tables that compare names themselves: its words, each multiplied and added.
    pub(crate) fn mixed(&self) -> u64 {
        let mut hash: u64 = word(&self.buffer, 0).wrapping_mul(0x9E37_79B9_7F4A_7C15);
        for at in 1..4usize {
            hash = (hash ^ (hash >> 29))
                .wrapping_add(word(&self.buffer, 8 * at))
                .wrapping_mul(0x9E37_79B9_7F4A_7C15);
        }
        hash
    }

    /// An equal name.
    pub fn copy(&self) -> Result<Name, NoMemory>
        ensures { result ≡ Ok self.now }
    {
        let name = *self;
        Ok(name)
    }
}

impl PartialEq for Name {
    ghost eq = { pointwise nat_eq };

    ghost laws = { partial_equiv_from_equiv nat_list_eq_equiv };

    fn eq(&self, other: &Name) -> bool {
        self.cmp(other).is_eq()
    }
}

impl Eq for Name {
    ghost laws = { nat_list_eq_equiv };
}

impl PartialOrd for Name {
    ghost partial_cmp = { λ a b. Some (slice_cmp nat_cmp a b) };

    ghost laws = { texts_po };

    fn partial_cmp(&self, other: &Name) -> Option<Ordering> {
        Some(self.cmp(other))
    }
}

impl Ord for Name {
    ghost cmp = { slice_cmp nat_cmp };

    ghost total = { nat_list_cmp_total };

    ghost matches_partial_cmp = { λ a b. refl };

    ghost matches_eq = { texts_ties };

    fn cmp(&self, other: &Name) -> Ordering {
        // The zeros after a name leave the order as it is, since no name has a zero byte.
        cmp_padded(&self.buffer, &other.buffer)
    }
}

impl Hash for Name {
    ghost hash_input = { fed.slice fed.u8 };

    ghost respects_eq = { Prim.search (hashing, rules) };

    fn hash<H: Hasher>(&self, state: &mut H) {
        self.bytes().hash(state);
    }
}

impl fmt::Display for Name {
    ghost output = { λ name. Some name };

    fn fmt<W: fmt::Write>(&self, f: &mut fmt::Formatter<W>) -> fmt::Result {
        match std::str::from_utf8(self.bytes()) {
            Ok(text) => f.pad(text),
            Err(_) => Err(fmt::Error),
        }
    }
}

impl fmt::Debug for Name {
    fn fmt<W: fmt::Write>(&self, f: &mut fmt::Formatter<W>) -> fmt::Result {
        fmt::Display::fmt(self, f)
    }
}
