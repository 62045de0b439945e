//! A list, 64 items at a time.
ghost use Rattle.std.specs.Prelude.{◌≤◌, ◌+◌, ◌*◌, length};
ghost use Rattle.tcc_lanes.specs.{declared.words.TheConstants.LANES, private.Tiles.IsTile};

use crate::words::LANES;

/// The items of a block of 64; fewer in the last one.
pub(crate) fn tile_at(items: &[u32], block: usize) -> &[u32]
    requires { block * LANES ≤ length items.now }
    ensures few { length result.now ≤ LANES }
    ensures tiled { IsTile items.now (block * LANES) ((block + 1) * LANES) result.now }
{
    let from = block * LANES;
    let end = items.len().min(from + LANES);
    &items[from..end]
}
