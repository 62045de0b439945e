//! A row of values, each a number or none: 16 bits a value if all of them fit, else 64.
ghost use Rattle.std.specs.Prelude.{◌≡◌, ◌<◌, length, map, slice_index_or, IfOk, IfSome, None};
ghost use Rattle.tcc_bits.specs.Packed.{at_most, capped_at, value_in};
ghost use Rattle.tcc_bits.specs.private.Values.{capped_by, values_in};

use std::alloc::{AllocError, Global};
use std::marker::Model;

/// The 16 bits that represent none.
pub const NO_VALUE: u16 = u16::MAX;

/// The values of a row.
#[derive(Drop)]
enum PackedValues {
    /// `NO_VALUE` represents none.
    Narrow(Vec<u16>),
    Wide(Vec<Option<u32>>),
}

/// Values in order. If there is a cap, it replaces none and each greater value.
#[derive(Drop)]
pub struct PackedRow {
    values: PackedValues,
    cap: Option<u32>,
}

impl Model for PackedRow {
    ghost use Rattle.std.specs.Prelude.{ℕ, List, Option};
    ghost use Rattle.tcc_bits.specs.private.Values.{capped_by, values_in};

    ghost Value = { List (Option ℕ) };

    ghost view = { λ r. capped_by r.cap (values_in r.values) };
}

/// What 16 bits represent.
fn value_in(bits: u16) -> Option<u32>
    ensures { result ≡ value_in bits }
{
    if bits == NO_VALUE {
        None
    } else {
        Some(bits as u32)
    }
}

/// The 16 bits that represent a value, if there are such.
fn bits_of(value: Option<u32>) -> Option<u16>
    ensures { IfSome result (λ bits. value_in bits ≡ value) }
{
    match value {
        None => Some(NO_VALUE),
        Some(value) if value < NO_VALUE as u32 => Some(value as u16),
        Some(_) => None,
    }
}

/// The 16 bits that represent each of these values, if there are such for all.
fn narrowed(alloc: Global, values: &[Option<u32>]) -> Result<Option<Vec<u16>>, AllocError>
    ensures { IfOk result (λ found. IfSome found (λ narrow. map value_in narrow.items ≡ values.now)) }
{
    let mut narrow = Vec::with_capacity(alloc, values.len())?;
    for value in values {
        let Some(bits) = bits_of(*value) else {
            return Ok(None);
        };
        narrow.push(bits)?;
    }
    Ok(Some(narrow))
}

/// The value at an index, before it is capped.
fn value_at(values: &PackedValues, index: usize) -> Option<u32>
    requires { index < length (values_in values.now) }
    ensures { result ≡ slice_index_or (values_in values.now) index None }
{
    match values {
        PackedValues::Narrow(narrow) => value_in(narrow[index]),
        PackedValues::Wide(wide) => wide[index],
    }
}

/// The value, but at most the cap; the cap if there is no value.
fn at_most(cap: u32, value: Option<u32>) -> u32
    ensures { result ≡ at_most cap value }
{
    match value {
        Some(value) => cap.min(value),
        None => cap,
    }
}

impl PackedRow {
    /// The row of these values, `NO_VALUE` for none.
    pub fn narrow(values: Vec<u16>) -> PackedRow
        ensures { result ≡ map value_in values.items }
    {
        PackedRow {
            values: PackedValues::Narrow(values),
            cap: None,
        }
    }

    /// The row of these values.
    pub fn of(alloc: Global, values: &[Option<u32>]) -> Result<PackedRow, AllocError>
        ensures { IfOk result (λ row. row ≡ values.now) }
    {
        let values = match narrowed(alloc, values)? {
            Some(narrow) => PackedValues::Narrow(narrow),
            None => PackedValues::Wide(Vec::from_slice(alloc, values)?),
        };
        Ok(PackedRow { values, cap: None })
    }

    /// The row with each value capped, and the cap for none. The stored values stay as they are: the cap is applied when one
    /// of them is asked for.
    pub fn capped(self, cap: u32) -> PackedRow
        ensures { result ≡ map (capped_at cap) self }
    {
        let cap = match self.cap {
            Some(earlier) => cap.min(earlier),
            None => cap,
        };
        PackedRow {
            values: self.values,
            cap: Some(cap),
        }
    }

    /// How many values there are.
    pub fn len(&self) -> usize
        ensures { result ≡ length self.now }
    {
        match &self.values {
            PackedValues::Narrow(narrow) => narrow.len(),
            PackedValues::Wide(wide) => wide.len(),
        }
    }

    /// The value at an index.
    pub fn get(&self, index: usize) -> Option<u32>
        requires { index < length self.now }
        ensures { result ≡ slice_index_or self.now index None }
    {
        let value = value_at(&self.values, index);
        match self.cap {
            Some(cap) => Some(at_most(cap, value)),
            None => value,
        }
    }

    /// The values one by one, as a new list.
    pub fn unpacked(&self, alloc: Global) -> Result<Vec<Option<u32>>, AllocError>
        ensures { IfOk result (λ values. values.items ≡ self.now) }
    {
        let mut values = Vec::with_capacity(alloc, self.len())?;
        for index in 0..self.len() {
            values.push(self.get(index))?;
        }
        Ok(values)
    }

    /// Writes the values, each capped, into a slice of the same length.
    pub fn write_capped(&self, cap: u32, values: &mut [u32])
        requires { length values.old ≡ length self.now }
        ensures { values.new ≡ map (at_most cap) self.now }
    {
        for index in 0..values.len() {
            values[index] = at_most(cap, self.get(index));
        }
    }
}
