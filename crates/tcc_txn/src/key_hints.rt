//! The numbers of keys as the caller has them.
ghost use Rattle.std.specs.Prelude.{◌≡◌, [], drop};

use crate::Name;

/// Names of keys, each at its number, and the numbers that the keys of a transaction's operations have among them, in order.
/// Whoever uses them compares the names: only the running time depends on them.
#[derive(Clone, Copy)]
pub struct KeyHints<'a> {
    /// The names, each at its number.
    pub names: &'a [Name],
    /// The number of the key of each operation, in order.
    pub numbers: &'a [u32],
}

impl<'a> KeyHints<'a> {
    /// No numbers are known.
    pub fn none() -> KeyHints<'a>
        ensures names { result.names.now ≡ [] }
        ensures numbers { result.numbers.now ≡ [] }
    {
        KeyHints {
            names: &[],
            numbers: &[],
        }
    }

    /// The names from a number on.
    pub(crate) fn names_from(&self, number: usize) -> &'a [Name]
        ensures { result.now ≡ drop number self.now.names.now }
    {
        self.names.get(number..).unwrap_or(&[])
    }
}
