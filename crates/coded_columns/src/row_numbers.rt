//! The numbers of some rows, which are kept for the next aggregate of the same column.

ghost use Rattle.std.specs.Prelude.{◌≡◌, ◌<◌, ℕ, All, None, OnOk, Some, get_or, length, map, pos};
ghost use Rattle.std.specs.Bool.{OnTrue};
ghost use Rattle.agg_laws.specs.Numbers.{IsWhole};
ghost use Rattle.values.specs.declared.value.Value.TheVariants as value;
ghost use Rattle.group_table.specs.Groups.{number_of};
ghost use Rattle.coded_columns.specs.Coded.{value_in};
ghost use Rattle.coded_columns.specs.IdColumns.{HasIds};
ghost use Rattle.coded_columns.specs.Keyed.{AreNumbersIn, AreOfRows, rows_in};

use crate::coded::Coded;
use crate::placed_rows::PlacedRows;
use std::alloc::Global;
use values::NoMemory;

/// The numbers of some rows, and the column that they are of, if that is told.
#[derive(Drop)]
pub struct RowNumbers {
    pub column: Option<u16>,
    pub numbers: Vec<i64>,
}

impl RowNumbers {
    /// No numbers.
    pub fn new(alloc: Global) -> RowNumbers {
        RowNumbers {
            column: None,
            numbers: Vec::new(alloc),
        }
    }

    /// Tells of no column any more: other rows come.
    pub fn forget(&mut self)
        ensures { self.new.column ≡ None }
    {
        self.column = None;
    }

    /// The numbers of rows in a column, in place of others.
    pub fn read(&mut self, placed: PlacedRows<'_, '_>, column: Option<u16>) -> Result<(), NoMemory>
        requires { AreOfRows (rows_in placed) self.old }
        ensures kept { OnOk result (AreOfRows (rows_in placed.entry) self.new) }
        ensures numbers { OnOk result (AreNumbersIn column (rows_in placed.entry)
            self.new.numbers.items) }
    {
        if is_told(self.column, column) {
            return Ok(());
        }
        self.column = None;
        self.numbers.resize(placed.places.len(), 0)?;
        put_numbers(placed, column, &mut self.numbers);
        self.column = column;
        Ok(())
    }
}

// Whether numbers are of a column.
fn is_told(told: Option<u16>, column: Option<u16>) -> bool
    ensures { OnTrue result ((field : ℕ) × (told ≡ Some field) × (column ≡ Some field)) }
{
    match (told, column) {
        (Some(own), Some(field)) => own == field,
        _ => false,
    }
}

// Puts the numbers of rows in a column, if there is one.
fn put_numbers(placed: PlacedRows<'_, '_>, column: Option<u16>, out: &mut [i64])
    requires { length out.old ≡ length placed.places.now }
    ensures { AreNumbersIn column (rows_in placed.entry) out.new }
{
    match column {
        Some(field) => put_field(placed, field, out),
        None => put_zeros(out),
    }
}

// Puts the numbers of rows in a field.
fn put_field(placed: PlacedRows<'_, '_>, field: u16, out: &mut [i64])
    requires { length out.old ≡ length placed.places.now }
    ensures { AreNumbersIn (Some field) (rows_in placed.entry) out.new }
{
    match placed.segment.column(field) {
        Some(column) => put_coded(placed, column, out),
        None => put_zeros(out),
    }
}

// Puts zeros.
fn put_zeros(out: &mut [i64])
    ensures { All (λ number. number ≡ pos 0) out.new }
{
    for k in 0..out.len() {
        out[k] = 0;
    }
}

// Puts the numbers of rows in a column; a text counts as 0.
fn put_coded(placed: PlacedRows<'_, '_>, column: Coded<'_>, out: &mut [i64])
    requires same { length out.old ≡ length placed.places.now }
    requires ids { HasIds placed.segment.now.count column }
    ensures each { (k : ℕ) → k < length out.new → get_or out.new k (pos 0)
        ≡ number_of (value_in column.entry (get_or placed.entry.places.now k 0)) }
    ensures whole { All IsWhole out.new }
{
    match column.dictionary.numbers() {
        Some(numbers) => put_by_ids(placed, column, numbers, out),
        None => put_zeros(out),
    }
}

// Puts the numbers of rows in a column by their ids.
fn put_by_ids(placed: PlacedRows<'_, '_>, column: Coded<'_>, numbers: &[i64], out: &mut [i64])
    requires same { length out.old ≡ length placed.places.now }
    requires ids { HasIds placed.segment.now.count column }
    requires own { column.dictionary.now.values ≡ map value.Whole numbers.now }
    ensures each { (k : ℕ) → k < length out.new → get_or out.new k (pos 0)
        ≡ number_of (value_in column.entry (get_or placed.entry.places.now k 0)) }
    ensures whole { All IsWhole out.new }
{
    let places = placed.places;
    let ids = column.ids.slices();
    for k in 0..places.len() {
        let id = ids.at(places[k] as usize);
        out[k] = number_at(numbers, id);
    }
}

// The number of an id.
#[inline(always)]
fn number_at(numbers: &[i64], id: u32) -> i64
    requires { id < length numbers.now }
    ensures number { result ≡ get_or numbers.now id (pos 0) }
    ensures whole { IsWhole result }
{
    numbers[id as usize]
}
