//! How much the sections of a column tell.
ghost use Rattle.std.specs.Prelude.{◌≤◌};

/// How many ids or buckets of ids a section has the places of, and how many rows there are.
#[derive(Clone, Copy)]
pub struct ListSize {
    pub count: u32,
    pub rows: u32,
    pub ghost count_at_most: { count ≤ 1048576 },
    pub ghost rows_at_most: { rows ≤ 1048576 },
}
