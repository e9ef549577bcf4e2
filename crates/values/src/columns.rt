//! Columns of one length.
ghost use Rattle.std.specs.Prelude.{◌≡◌, ◌<◌, length, IfOk, Some, slice_get};
ghost use Rattle.std.specs.List.{All};
ghost use Rattle.values.specs.Columns.{Counts, row_of, rows_in_columns, rows_of};

use crate::{Column, NoMemory, Row, Rows};
use data_types::Seq;
use std::alloc::Global;
use std::marker::Model;

/// Rows that are kept column by column.
#[derive(Drop)]
pub struct Columns {
    columns: Vec<Column>,
    count: usize,
}

impl Model for Columns {
    ghost use Rattle.std.specs.List.{All};
    ghost use Rattle.values.specs.Columns.{ListedColumns, Counts};

    ghost Value = { ListedColumns };

    ghost view = { λ t. record { columns = t.columns.items; count = t.count } };

    ghost invariant = { λ t. All (Counts t.count) t.columns.items };
}

impl Columns {
    pub fn new(columns: Vec<Column>, count: usize) -> Self
        requires { All (Counts count) columns.items }
        ensures { result ≡ record { columns = columns.items; count = count } }
    {
        Columns { columns, count }
    }

    /// How many rows there are.
    pub fn len(&self) -> usize
        ensures count { result ≡ self.now.count }
        ensures each { All (Counts self.now.count) self.now.columns }
    {
        self.count
    }

    /// How many columns there are.
    pub fn width(&self) -> usize
        ensures { result ≡ length self.now.columns }
    {
        self.columns.len()
    }

    /// One column, from 0.
    pub fn column(&self, at: usize) -> &Column
        requires { at < length self.now.columns }
        ensures place { slice_get self.now.columns at ≡ Some result.now }
        ensures count { Counts self.now.count result.now }
    {
        &self.columns[at]
    }

    /// All rows, one list of values each.
    pub fn rows(&self, alloc: Global) -> Result<Rows, NoMemory>
        ensures { IfOk result (λ rows. rows ≡ rows_of self.now) }
    {
        rows_in(alloc, self.columns.as_slice(), self.count)
    }
}

fn row_at(alloc: Global, columns: &[Column], count: usize, at: usize) -> Result<Row, NoMemory>
    requires at { at < count }
    requires counts { All (Counts count) columns.now }
    ensures value { IfOk result (λ row. row ≡ row_of columns.now at) }
    ensures place { IfOk result (λ row. slice_get (rows_in_columns count columns.now) at
        ≡ Some row) }
{
    let mut row = Seq::with_capacity(alloc, columns.len())?;
    for column in columns {
        row.push(column.value(alloc, at)?)?;
    }
    Ok(row)
}

fn rows_in(alloc: Global, columns: &[Column], count: usize) -> Result<Rows, NoMemory>
    requires { All (Counts count) columns.now }
    ensures { IfOk result (λ rows. rows ≡ rows_in_columns count columns.now) }
{
    let mut rows = Seq::with_capacity(alloc, count)?;
    for at in 0..count {
        rows.push(row_at(alloc, columns, count, at)?)?;
    }
    Ok(rows)
}
