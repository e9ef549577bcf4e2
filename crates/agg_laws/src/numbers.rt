//! Numbers of eight and sixteen bytes, the highest byte first.

ghost use Rattle.std.specs.Prelude.{◌≡◌, length};
ghost use Rattle.std.specs.Int.{w64, w128, from_be_bytes, cast_signed};

/// The number that eight bytes spell.
pub(crate) fn read_u64(bytes: &[u8]) -> u64
    requires { length bytes.now ≡ 8 }
    ensures { result ≡ from_be_bytes w64 bytes.now }
{
    match bytes.first_chunk::<8>() {
        Some(chunk) => u64::from_be_bytes(*chunk),
        None => unreachable!(),
    }
}

/// The signed number that eight bytes spell.
pub(crate) fn read_i64(bytes: &[u8]) -> i64
    requires { length bytes.now ≡ 8 }
    ensures { result ≡ cast_signed w64 (from_be_bytes w64 bytes.now) }
{
    read_u64(bytes).cast_signed()
}

/// The signed number that sixteen bytes spell.
pub(crate) fn read_i128(bytes: &[u8]) -> i128
    requires { length bytes.now ≡ 16 }
    ensures { result ≡ cast_signed w128 (from_be_bytes w128 bytes.now) }
{
    match bytes.first_chunk::<16>() {
        Some(chunk) => u128::from_be_bytes(*chunk).cast_signed(),
        None => unreachable!(),
    }
}
