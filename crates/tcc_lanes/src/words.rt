//! Words of 64 marks, one for each lane.
ghost use Rattle.std.specs.Prelude.{◌≡◌, ◌<◌, ◌↔◌, ◌⊎◌, ℕ, IsTrue};
ghost use Rattle.tcc_lanes.specs.private.Marks.{HasLane};

/// How many lanes there are.
pub const LANES: usize = 64;

/// Whether a word has the mark of a lane.
pub(crate) fn has_lane(word: u64, lane: usize) -> bool
    requires { lane < LANES }
    ensures { IsTrue result ↔ HasLane word lane }
{
    word >> lane & 1 == 1
}

/// The word with the mark of a lane.
pub(crate) fn with_lane(word: u64, lane: usize) -> u64
    requires { lane < LANES }
    ensures { (i : ℕ) → i < LANES → HasLane result i ↔ (HasLane word i ⊎ (i ≡ lane)) }
{
    word | 1 << lane
}

/// Whether two words have a lane in common.
pub(crate) fn shares(a: u64, b: u64) -> bool
    ensures { IsTrue result ↔ ((i : ℕ) × (i < LANES) × HasLane a i × HasLane b i) }
{
    a & b != 0
}
