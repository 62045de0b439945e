//! Numbers of an earlier history in those of a later one, by the labels of their transactions: label by label, O(N) a look for N
//! transactions.
ghost use Rattle.std.specs.Prelude.{◌≡◌, length, map, string_bytes};
ghost use Rattle.tcc_slices.specs.Moved.{moved, number_among};

use tcc_graph::Renumbering;

/// The number that a label has among so many others; past the last where it is none of them.
fn number_of(label: &str, later: &[String], count: u32) -> u32
    requires { count ≡ length later.now }
    ensures { result ≡ number_among (map string_bytes later.now) label.now }
{
    for number in 0..count {
        if label == later[number as usize].as_str() {
            return number;
        }
    }
    count
}

/// The number that the transaction of a number has by its label; past the last where none has it.
fn moved(earlier: &[String], later: &[String], count: u32, number: u32) -> u32
    requires { count ≡ length later.now }
    ensures { result ≡ moved (map string_bytes earlier.now) (map string_bytes later.now) number }
{
    let index = number as usize;
    if index < earlier.len() {
        number_of(earlier[index].as_str(), later, count)
    } else {
        count
    }
}

/// The numbers that the transactions of an earlier history have in a later one, by the labels of both; and how many the later one has.
#[derive(Drop)]
pub(crate) struct ByLabel<'a> {
    pub earlier: &'a [String],
    pub later: &'a [String],
    pub count: u32,
    ghost counted: { count ≡ length later.now },
}

impl Renumbering for ByLabel<'_> {
    ghost by = { λ labels. moved (map string_bytes labels.earlier.now) (map string_bytes labels.later.now) };

    fn number(&self, number: u32) -> u32 {
        moved(self.earlier, self.later, self.count, number)
    }
}
