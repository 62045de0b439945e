//! Searches that have ended.
ghost use Rattle.std.specs.Prelude.{◌≡◌, ◌↔◌, Some, true};

use tcc_bits::PackedRow;

/// A search that has ended: its row from the start upward, none for what is outside, and the worker that made it.
#[derive(Drop)]
pub(crate) struct EndedSearch {
    pub start: u32,
    pub worker: u32,
    pub row: PackedRow,
}

impl EndedSearch {
    ghost use Rattle.std.specs.Prelude.{◌≡◌, ◌↔◌, Some, true};
    ghost use Rattle.tcc_core.specs.Rows.{in_row};

    /// Whether the search came back to its start at this cost.
    pub fn came_back_at(&self, cost: u32) -> bool
        ensures { (result ≡ true) ↔ (in_row self.now.row 0 ≡ Some cost) }
    {
        if self.row.len() == 0 {
            return false;
        }
        match self.row.get(0) {
            Some(back) => back == cost,
            None => false,
        }
    }
}
