//! Why bytes are no dictionary.

use std::alloc::AllocError;

/// Why bytes are no dictionary.
#[derive(Clone, Copy, Debug, PartialEq, Eq)]
pub enum DictFault {
    /// The bytes spell no dictionary of the kind.
    BadDictionary,
    NoMemory,
}

impl From<AllocError> for DictFault {
    ghost use Rattle.std.specs.Prelude.{◌≡◌};
    ghost use Rattle.dictionary.specs.declared.fault.DictFault.TheVariants.{NoMemory};

    ghost from_gives = { λ _ fault. fault ≡ NoMemory };

    fn from(_: AllocError) -> Self {
        DictFault::NoMemory
    }
}
