//! Values read from texts.

ghost use Rattle.std.specs.Prelude.{◌≡◌, ◌≢◌, IfOk, IfErr, IsOk};
ghost use Rattle.values.specs.Reading.{value_of};

use crate::Value;
use data_types::{FieldKind, Name, WholeFault, read_whole};
use std::alloc::{AllocError, Global};

/// The most bytes of a text value.
pub const MOST_TEXT_BYTES: usize = 512;

/// Why a text is no value of a field.
#[derive(Clone, Copy, Debug, PartialEq, Eq)]
pub enum ValueFault {
    NotANumber,
    OutOfRange,
    TooLong,
    NoMemory,
}

impl From<AllocError> for ValueFault {
    ghost use Rattle.values.specs.declared.read.ValueFault.TheVariants.{NoMemory};

    ghost from_gives = { λ e fault. fault ≡ NoMemory };

    fn from(_error: AllocError) -> ValueFault {
        ValueFault::NoMemory
    }
}

/// The value that a text is in a field of that kind. A whole number is an optional `+` or `-` and
/// one digit or more; a text is itself, of at most 512 bytes.
pub fn read_value(alloc: Global, kind: FieldKind, text: &str) -> Result<Value, ValueFault>
    ensures ok { IfOk result (λ value. value_of kind text.now ≡ Ok value) }
    ensures err { IfErr result (λ fault. fault ≢ ValueFault.NoMemory
        → value_of kind text.now ≡ Err fault) }

    // Memory is wanted for a text that is a value, and for nothing else.
    ensures memory { result ≡ Err ValueFault.NoMemory → kind ≡ FieldKind.Text }
    ensures no_memory { result ≡ Err ValueFault.NoMemory → IsOk (value_of kind text.now) }
{
    if let FieldKind::Text = kind {
        if text.len() > MOST_TEXT_BYTES {
            return Err(ValueFault::TooLong);
        }
        return Ok(Value::Text(Name::from_text(alloc, text)?));
    }
    match read_whole(kind, text.as_bytes()) {
        Ok(number) => Ok(Value::Whole(number)),
        Err(WholeFault::NotANumber) => Err(ValueFault::NotANumber),
        Err(WholeFault::OutOfRange) => Err(ValueFault::OutOfRange),
    }
}
