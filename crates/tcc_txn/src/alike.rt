//! Whether transactions and snapshots are equal.
ghost use Rattle.std.specs.Prelude.{◌≡◌, true, false};

use crate::{Op, Recorded, Txn};

/// Values that can be compared.
pub trait Alike {
    /// Whether the values are equal.
    fn is_same(&self, other: &Self) -> bool
        ensures same { result ≡ true → self.now ≡ other.now }
        ensures other { result ≡ false → self.now ≡ other.now → ⊥ };
}

impl Alike for Op {
    fn is_same(&self, other: &Op) -> bool {
        let same_kind = matches!(self, Op::Get { .. }) == matches!(other, Op::Get { .. });
        same_kind && self.key() == other.key() && self.value() == other.value()
    }
}

impl Alike for Txn {
    fn is_same(&self, other: &Txn) -> bool {
        self.committed() == other.committed() && are_same(self.ops(), other.ops())
    }
}

impl<T: Alike> Alike for Option<T> {
    fn is_same(&self, other: &Option<T>) -> bool {
        match (self, other) {
            (Some(one), Some(other)) => one.is_same(other),
            (None, None) => true,
            _ => false,
        }
    }
}

/// Whether the operations of two transactions are equal.
fn are_same_ops(one: &Recorded<'_>, other: &Recorded<'_>) -> bool
    ensures same { result ≡ true → one.now.ops ≡ other.now.ops }
    ensures other { result ≡ false → one.now.ops ≡ other.now.ops → ⊥ }
{
    if one.len() != other.len() {
        return false;
    }
    for index in 0..one.len() {
        if !one.op(index).is_same(&other.op(index)) {
            return false;
        }
    }
    true
}

impl<'a> Alike for Recorded<'a> {
    fn is_same(&self, other: &Recorded<'a>) -> bool {
        self.committed() == other.committed() && are_same_ops(self, other)
    }
}

/// Whether the lists are equal.
pub fn are_same<T: Alike>(some: &[T], others: &[T]) -> bool
    ensures same { result ≡ true → some.now ≡ others.now }
    ensures other { result ≡ false → some.now ≡ others.now → ⊥ }
{
    if some.len() != others.len() {
        return false;
    }
    for index in 0..some.len() {
        if !some[index].is_same(&others[index]) {
            return false;
        }
    }
    true
}
