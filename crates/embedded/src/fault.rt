//! Why a call on a store is refused.

use csv_ingest::CsvFault;
use json_keys::{KeyKind, KeyPath, TextFault};
use query_executor::ExecutorFault;
use sql_reply::SqlFault;
use std::alloc::AllocError;
use table_store::StoreFault;

/// Why a call on a store is refused. What comes of devices and of memory is a `StoreFault`.
#[derive(Debug, PartialEq, Drop)]
pub enum Fault {
    /// The text of the schema is refused: for what, and at which key.
    BadSchema(KeyKind, KeyPath),
    /// The text of the settings is refused so.
    BadSettings(KeyKind, KeyPath),
    /// A text has more bytes than this, the most.
    TooLong(u64),
    /// No segment may have the name.
    BadName,
    /// A row is not one of the table's fields, or there are more rows than a segment may have.
    BadRows,
    /// The CSV text has no rows.
    BadCsv(CsvFault),
    /// The query has no reply.
    BadQuery(SqlFault),
    /// The store does not take the call.
    Store(StoreFault),
}

/// A store that was not made or opened: why, and the depot.
#[derive(Drop)]
pub struct Refused<D> {
    pub why: Fault,
    pub depot: D,
}

impl<D: Drop> From<Refused<D>> for Fault {
    ghost use Rattle.std.specs.Prelude.{◌≡◌};

    ghost from_gives = { λ refused why. why ≡ refused.why };

    fn from(refused: Refused<D>) -> Self {
        refused.why
    }
}

impl From<AllocError> for Fault {
    ghost use Rattle.std.specs.Prelude.{◌≡◌};
    ghost use Rattle.embedded.specs.declared.fault.Fault.TheVariants.{Store};
    ghost use Rattle.table_store.specs.declared.fault.StoreFault.TheVariants as store;

    ghost from_gives = { λ _ why. why ≡ Store store.NoMemory };

    fn from(_: AllocError) -> Self {
        Fault::Store(StoreFault::NoMemory)
    }
}

impl From<StoreFault> for Fault {
    ghost use Rattle.std.specs.Prelude.{◌≡◌};
    ghost use Rattle.embedded.specs.declared.fault.Fault.TheVariants.{Store};

    ghost from_gives = { λ fault why. why ≡ Store fault };

    fn from(fault: StoreFault) -> Self {
        Fault::Store(fault)
    }
}

impl From<CsvFault> for Fault {
    ghost use Rattle.std.specs.Prelude.{◌≡◌};
    ghost use Rattle.embedded.specs.Faults.{of_csv};

    ghost from_gives = { λ fault why. why ≡ of_csv fault };

    fn from(fault: CsvFault) -> Self {
        match fault {
            CsvFault::NoMemory => Fault::Store(StoreFault::NoMemory),
            other => Fault::BadCsv(other),
        }
    }
}

impl From<ExecutorFault> for Fault {
    ghost use Rattle.std.specs.Prelude.{◌≡◌};
    ghost use Rattle.embedded.specs.Faults.{of_query};

    ghost from_gives = { λ fault why. why ≡ of_query fault };

    fn from(fault: ExecutorFault) -> Self {
        match fault {
            ExecutorFault::Sql(SqlFault::NoMemory) => Fault::Store(StoreFault::NoMemory),
            ExecutorFault::Sql(other) => Fault::BadQuery(other),
            ExecutorFault::NotASegment(_, part) => Fault::Store(StoreFault::NotASegment(part)),
            ExecutorFault::ReadFault => Fault::Store(StoreFault::ReadFault),
        }
    }
}

impl Fault {
    ghost use Rattle.std.specs.Prelude.{◌≡◌};
    ghost use Rattle.embedded.specs.Faults.{of_schema, of_settings};

    // What the fault of the text of a schema is.
    pub(crate) fn of_schema(fault: TextFault) -> Fault
        ensures { result ≡ of_schema fault }
    {
        match fault {
            TextFault::At(kind, path) => Fault::BadSchema(kind, path),
            TextFault::NoMemory => Fault::Store(StoreFault::NoMemory),
        }
    }

    // What the fault of the text of settings is.
    pub(crate) fn of_settings(fault: TextFault) -> Fault
        ensures { result ≡ of_settings fault }
    {
        match fault {
            TextFault::At(kind, path) => Fault::BadSettings(kind, path),
            TextFault::NoMemory => Fault::Store(StoreFault::NoMemory),
        }
    }
}
