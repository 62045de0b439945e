//! Counts records by csv alone.
ghost use Rattle.std.specs.Prelude.{◌≡◌, ◌<◌, ℕ, List, Some, IfOk, length};
ghost use Rattle.csv.specs.Reading.{AreRecords, default_config, strip_bom};
ghost use Rattle.csv.specs.declared.parser.State.TheVariants as st;

use csv::{ByteRecord, Error, ReaderBuilder};
use std::alloc::Global;
use std::io::Read;

/// The number of records that `source` gives; `u64::MAX` also means more.
pub fn count_records<R: Read + Drop>(alloc: Global, source: R) -> Result<u64, Error>
    ensures counts { IfOk result (λ n. (text : List ℕ) → R.remaining source ≡ Some text → n < 18446744073709551615
        → (rows : List (List (List ℕ))) × AreRecords default_config st.StartRecord (strip_bom text) rows × (length rows ≡ n)) }
{
    let mut rows = ReaderBuilder::new()
        .has_headers(false)
        .flexible(true)
        .from_reader(alloc, source);
    let mut row = ByteRecord::new(alloc);
    for count in 0..u64::MAX {
        if !rows.read_byte_record(&mut row)? {
            return Ok(count);
        }
    }
    Ok(u64::MAX)
}
