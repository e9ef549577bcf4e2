//! Why a text in JSON is not what it has to be.

use data_types::Name;
use std::alloc::AllocError;

/// What is wrong at a key.
#[derive(Clone, Copy, Debug, PartialEq, Eq)]
pub enum KeyKind {
    NotJson,
    MissingKey,
    WrongKind,
    BadName,
    UnknownType,
    Unsupported,
    DuplicateColumn,
    UnknownColumn,
    BadPair,
    TooMany,
}

impl KeyKind {
    ghost use Rattle.std.specs.Prelude.{◌≡◌};
    ghost use Rattle.json_keys.specs.FaultTexts.{key_text};

    /// Its name in a note line.
    pub fn text(self) -> &'static [u8]
        ensures { result.now ≡ key_text self }
    {
        match self {
            KeyKind::NotJson => b"NotJson",
            KeyKind::MissingKey => b"MissingKey",
            KeyKind::WrongKind => b"WrongKind",
            KeyKind::BadName => b"BadName",
            KeyKind::UnknownType => b"UnknownType",
            KeyKind::Unsupported => b"Unsupported",
            KeyKind::DuplicateColumn => b"DuplicateColumn",
            KeyKind::UnknownColumn => b"UnknownColumn",
            KeyKind::BadPair => b"BadPair",
            KeyKind::TooMany => b"TooMany",
        }
    }
}

/// Names of keys joined by `.`, with places of arrays in brackets, from 0, as in
/// `dimensionFieldSpecs[2].name`. It is empty where the fault is of the whole text.
pub type KeyPath = Name;

/// The first check that fails, with the place in the text.
#[derive(Debug, PartialEq, Drop)]
pub enum TextFault {
    At(KeyKind, KeyPath),
    NoMemory,
}

impl From<AllocError> for TextFault {
    ghost use Rattle.std.specs.Prelude.{◌≡◌};
    ghost use Rattle.json_keys.specs.declared.fault.TextFault.TheVariants.{NoMemory};

    ghost from_gives = { λ e fault. fault ≡ NoMemory };

    fn from(_error: AllocError) -> TextFault {
        TextFault::NoMemory
    }
}
