//! Rows of values in 16 bits each, and of values that have no room there.
use std::process::Abort;
use std::test::Fail;
use tcc_bits::{NO_VALUE, PackedRow};

/// The row has these values, one by one and all together.
fn assert_values(rt: &(impl Abort), row: &PackedRow, all: &[Option<u32>], wanted: &[Option<u32>]) {
    assert_eq!(rt; row.len(), wanted.len());
    for (index, value) in wanted.iter().enumerate() {
        assert!(rt; index < row.len());
        assert!(rt; row.get(index) == *value);
    }
    assert!(rt; all == wanted);
}

/// The greatest number of 16 bits means no value, so it has no room there itself.
#[test]
fn values_read_back(rt: HostRuntime) -> Result<(), Fail> {
    let alloc = rt.alloc();
    let rows: [&[Option<u32>]; 5] = [
        &[],
        &[Some(0), None, Some(65_534)],
        &[Some(65_535)],
        &[None, Some(65_536), Some(7)],
        &[Some(u32::MAX), None],
    ];
    for values in rows {
        let row = PackedRow::of(alloc, values)?;
        assert_values(&rt, &row, &row.unpacked(alloc)?, values);
    }
    let row = PackedRow::narrow(vec![in alloc; 5, NO_VALUE, 0]?);
    assert_values(&rt, &row, &row.unpacked(alloc)?, &[Some(5), None, Some(0)]);
    Ok(())
}

/// A cap replaces a missing value or a greater one, and of two caps the lesser does.
#[test]
fn caps(rt: HostRuntime) -> Result<(), Fail> {
    let alloc = rt.alloc();
    let row = PackedRow::of(alloc, &[Some(3), None, Some(4), Some(9)])?.capped(4);
    assert_values(
        &rt,
        &row,
        &row.unpacked(alloc)?,
        &[Some(3), Some(4), Some(4), Some(4)],
    );
    let row = row.capped(5).capped(3);
    assert_values(
        &rt,
        &row,
        &row.unpacked(alloc)?,
        &[Some(3), Some(3), Some(3), Some(3)],
    );
    let row = PackedRow::of(alloc, &[Some(70_000), None, Some(2)])?.capped(66_000);
    assert_values(
        &rt,
        &row,
        &row.unpacked(alloc)?,
        &[Some(66_000), Some(66_000), Some(2)],
    );
    Ok(())
}

/// Numbers are set capped, also those of a row that has a cap.
#[test]
fn capped_numbers(rt: HostRuntime) -> Result<(), Fail> {
    let alloc = rt.alloc();
    let row = PackedRow::of(alloc, &[Some(3), None, Some(8)])?;
    let mut numbers = [1, 1, 1];
    assert!(&rt; row.len() == 3);
    row.write_capped(5, &mut numbers);
    assert!(&rt; numbers == [3, 5, 5]);
    let row = row.capped(4);
    assert!(&rt; row.len() == 3);
    row.write_capped(6, &mut numbers);
    assert!(&rt; numbers == [3, 4, 4]);
    Ok(())
}
