//! Why a query is not one over a table.

use std::alloc::AllocError;

/// Which check of a query fails.
#[derive(Clone, Copy, Debug, PartialEq, Eq)]
pub enum BindReason {
    /// FROM names another table.
    UnknownTable,
    /// A column that is no field.
    UnknownColumn,
    /// A number beside a field of texts, or a text beside a field of numbers or a call.
    TypeMismatch,
    /// A sum, an extreme or an average of a field of texts.
    NotNumeric,
    /// No aggregate in the select list.
    NoAggregate,
    /// A column of the select list, of HAVING or of ORDER BY that GROUP BY does not name.
    NotGrouped,
    /// More group columns, aggregates or ORDER BY keys than are taken.
    TooMany,
}

impl BindReason {
    ghost use Rattle.std.specs.Prelude.{◌≡◌};
    ghost use Rattle.query_bind.specs.FaultTexts.{bind_text};

    /// Its name in a note line.
    pub fn text(self) -> &'static [u8]
        ensures { result.now ≡ bind_text self }
    {
        match self {
            BindReason::UnknownTable => b"UnknownTable",
            BindReason::UnknownColumn => b"UnknownColumn",
            BindReason::TypeMismatch => b"TypeMismatch",
            BindReason::NotNumeric => b"NotNumeric",
            BindReason::NoAggregate => b"NoAggregate",
            BindReason::NotGrouped => b"NotGrouped",
            BindReason::TooMany => b"TooMany",
        }
    }
}

/// The first check that a query fails, with the byte of its text where it fails.
#[derive(Clone, Copy, Debug, PartialEq, Eq)]
pub enum BindFault {
    At(BindReason, u32),
    NoMemory,
}

impl From<AllocError> for BindFault {
    ghost use Rattle.std.specs.Prelude.{◌≡◌};
    ghost use Rattle.query_bind.specs.declared.fault.BindFault.TheVariants.{NoMemory};

    ghost from_gives = { λ _ e. e ≡ NoMemory };

    fn from(_: AllocError) -> BindFault {
        BindFault::NoMemory
    }
}
