//! A row of values.
ghost use Rattle.std.specs.Prelude.{◌≡◌, length, replicate, slice_index, slice_set, IfOk};

use std::alloc::Global;
use std::marker::Model;
use tcc_graph::Renumbering;
use tcc_txn::NoMemory;

/// A value at each index. Past the end each is 0, and what is put there is lost.
#[derive(Drop)]
pub(crate) struct Cells {
    values: Vec<u32>,
}

impl Model for Cells {
    ghost use Rattle.std.specs.Prelude.{ℕ, List};

    ghost Value = { List ℕ };

    ghost view = { λ c. c.values.items };
}

impl Cells {
    /// As many values, all alike.
    pub(crate) fn new(alloc: Global, count: usize, value: u32) -> Result<Cells, NoMemory>
        ensures { IfOk result (λ cells. cells ≡ replicate count value) }
    {
        let values = vec![in alloc; value; count]?;
        Ok(Cells { values })
    }

    /// The value at an index.
    pub(crate) fn get(&self, index: u32) -> u32
        ensures { result ≡ slice_index self.now index }
    {
        match self.values.get(index as usize) {
            Some(value) => *value,
            None => 0,
        }
    }

    /// The values from one index to before another; none where that is past the end.
    pub(crate) fn between(&self, low: u32, high: u32) -> &[u32] {
        let (low, high) = (low as usize, high as usize);
        if low < high && high <= self.values.len() {
            &self.values[low..high]
        } else {
            &[]
        }
    }

    /// Raises the value at an index by one, up to the greatest.
    pub(crate) fn add_one(&mut self, index: u32) {
        self.set(index, self.get(index).saturating_add(1));
    }

    /// Lowers the value at an index by one, and returns whether that made it 0.
    pub(crate) fn less_one(&mut self, index: u32) -> bool {
        let value = self.get(index);
        self.set(index, value.saturating_sub(1));
        value == 1
    }

    /// Puts a value at an index.
    pub(crate) fn set(&mut self, index: u32, value: u32)
        ensures { self.new ≡ slice_set self.old index value }
    {
        let index = index as usize;
        if index < self.values.len() {
            self.values[index] = value;
        }
    }
}

impl Renumbering for Cells {
    ghost use Rattle.std.specs.Prelude.{slice_index};

    ghost by = { λ cells. slice_index cells };

    fn number(&self, number: u32) -> u32 {
        self.get(number)
    }
}
