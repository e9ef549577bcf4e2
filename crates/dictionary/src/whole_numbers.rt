//! Whole numbers in eight bytes.
ghost use Rattle.std.specs.Prelude.{◌≡◌, true};
ghost use Rattle.data_types.specs.Numbers.{is_in_range};
ghost use Rattle.dictionary.specs.Spelling.{number_bytes};

use data_types::FieldKind;
use values::Value;

/// The number that eight bytes spell.
pub fn number_of(bytes: &[u8; 8]) -> i64
    ensures spelled { number_bytes (Value.Whole result) ≡ bytes.now }
    ensures within { is_in_range FieldKind.Long result ≡ true }
{
    u64::from_be_bytes(*bytes).cast_signed()
}

/// Whether a number is in the range of a field of this kind.
pub fn is_in_range(kind: FieldKind, number: i64) -> bool
    ensures { result ≡ is_in_range kind number }
{
    match kind {
        FieldKind::Int => i64::from(i32::MIN) <= number && number <= i64::from(i32::MAX),
        FieldKind::Long | FieldKind::Text => true,
    }
}
