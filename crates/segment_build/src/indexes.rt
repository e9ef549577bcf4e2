//! The indexes of a column.
ghost use Rattle.std.specs.Prelude.{◌≡◌, ◌<◌, false, get_or, length};
ghost use Rattle.table_schema.specs.NeedIds.{is_the_number};

use table_schema::Settings;

/// Which sections a column has beside its dictionary and its forward index.
#[derive(Clone, Copy)]
pub struct Indexes {
    /// The rows are in the order of the column.
    pub sorted: bool,
    pub inverted: bool,
    pub ranged: bool,
}

/// Those of one column.
pub(crate) fn indexes_at(settings: &Settings, at: usize) -> Indexes
    requires inverted { at < length settings.now.inverted }
    requires ranged { at < length settings.now.ranged }
    ensures sorted { result.sorted ≡ is_the_number at settings.now.sorted }
    ensures inverted { result.inverted ≡ get_or settings.now.inverted at false }
    ensures ranged { result.ranged ≡ get_or settings.now.ranged at false }
{
    Indexes {
        sorted: is_number(settings.sorted, at),
        inverted: settings.inverted.as_slice()[at],
        ranged: settings.ranged.as_slice()[at],
    }
}

// Whether there is a number, and it is this one.
fn is_number(number: Option<u16>, at: usize) -> bool
    ensures { result ≡ is_the_number at number }
{
    match number {
        Some(n) => n as usize == at,
        None => false,
    }
}
