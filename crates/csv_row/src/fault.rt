//! Why a CSV text has no rows.

use std::alloc::AllocError;

/// What is wrong at a place of a CSV text.
#[derive(Clone, Copy, Debug, PartialEq, Eq)]
pub enum CsvKind {
    /// The text has no record at all.
    NoHeader,
    /// A name or a cell is not UTF-8.
    NotUtf8,
    /// A name is no column's.
    BadHeader,
    /// An earlier column has the name.
    DuplicateHeader,
    /// A record has more or fewer cells than the header.
    WrongLength,
    /// A cell of a whole number does not spell one.
    NotANumber,
    /// A whole number does not fit its field.
    OutOfRange,
    /// A text has more than 512 bytes.
    TooLong,
}

impl CsvKind {
    ghost use Rattle.std.specs.Prelude.{◌≡◌};
    ghost use Rattle.csv_row.specs.FaultTexts.{kind_text};

    /// Its name in a note line.
    pub fn text(self) -> &'static [u8]
        ensures { result.now ≡ kind_text self }
    {
        match self {
            CsvKind::NoHeader => b"NoHeader",
            CsvKind::NotUtf8 => b"NotUtf8",
            CsvKind::BadHeader => b"BadHeader",
            CsvKind::DuplicateHeader => b"DuplicateHeader",
            CsvKind::WrongLength => b"WrongLength",
            CsvKind::NotANumber => b"NotANumber",
            CsvKind::OutOfRange => b"OutOfRange",
            CsvKind::TooLong => b"TooLong",
        }
    }
}

/// Why a CSV text has no rows.
#[derive(Clone, Copy, Debug, PartialEq, Eq)]
pub enum CsvFault {
    /// What is wrong, in which record and in which column of the header. The header is record 0,
    /// and the records after it count from 1, as columns do. Column 0 is the record as a whole.
    At(CsvKind, u32, u32),
    /// There are more rows than this, the most that a table of so many fields may have.
    TooManyRows(u32),
    /// The header has more than 64 columns.
    TooManyColumns,
    /// Memory ran out.
    NoMemory,
}

impl From<AllocError> for CsvFault {
    ghost use Rattle.std.specs.Prelude.{◌≡◌};
    ghost use Rattle.csv_row.specs.declared.fault.CsvFault.TheVariants.{NoMemory};

    ghost from_gives = { λ _ fault. fault ≡ NoMemory };

    fn from(_: AllocError) -> Self {
        CsvFault::NoMemory
    }
}
