//! How the cells of a record become the values of a row.
ghost use Rattle.std.specs.Prelude.{◌≡◌, ◌<◌, ◌+◌, ◌^◌, map, length, IfOk};
ghost use Rattle.std.specs.List.{position_from};
ghost use Rattle.std.specs.Str.{bytes_eq};
ghost use Rattle.csv_row.specs.Columns.{DefaultsFit};
ghost use Rattle.csv_row.specs.Layouts.{IsLayout, header_of};
ghost use Rattle.csv_row.specs.Row.{place_of};

use std::alloc::{AllocError, Global};
use table_schema::{Field, most_rows};

/// The fields of a table over the names of a header, made once for a text.
#[derive(Drop)]
pub struct Layout<'a> {
    pub fields: &'a [Field],
    pub names: &'a [&'a [u8]],
    /// Where each field is in the header, from 1.
    pub places: Vec<Option<usize>>,
    /// How many rows there are at most.
    pub most: u32,
}

impl<'a> Layout<'a> {
    pub fn new(
        alloc: Global,
        fields: &'a [Field],
        names: &'a [&'a [u8]],
    ) -> Result<Layout<'a>, AllocError>
        requires at_most { length names.now < 2 ^ 32 }
        requires defaults { DefaultsFit fields.now }
        ensures is { IfOk result IsLayout }
        ensures fields { IfOk result (λ l. l.fields.now ≡ fields.now) }
        ensures names { IfOk result (λ l. header_of l ≡ map (λ f. f.now) names.now) }
    {
        let places = places_of(alloc, fields, names)?;
        let most = most_rows(fields.len());
        Ok(Layout {
            fields,
            names,
            places,
            most,
        })
    }
}

// The place of a name in a header, from 1.
fn place_in(names: &[&[u8]], name: &[u8]) -> Option<usize>
    ensures { result ≡ position_from (bytes_eq name.now) 1 (map (λ f. f.now) names.now) }
{
    'names: for i in 0..names.len() {
        if name == names[i] {
            return Some(i + 1);
        }
    }
    None
}

// Where each field is in a header.
fn places_of(
    alloc: Global,
    fields: &[Field],
    names: &[&[u8]],
) -> Result<Vec<Option<usize>>, AllocError>
    ensures { IfOk result (λ places. places.items ≡ map (place_of
        (map (λ f. f.now) names.now)) fields.now) }
{
    let mut places = Vec::with_capacity(alloc, fields.len())?;
    for i in 0..fields.len() {
        places.push(place_in(names, fields[i].name.as_slice()))?;
    }
    Ok(places)
}
