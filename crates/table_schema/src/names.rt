//! The names of columns and tables.

ghost use Rattle.std.specs.Prelude.{◌≡◌};
ghost use Rattle.std.specs.List.{list_all};
ghost use Rattle.table_schema.specs.Names as spec;

/// The most bytes of the name of a column.
const MOST_NAME_BYTES: usize = 128;

/// 1 to 128 printable ASCII characters, none of them a space, `"`, `,` or `*`.
pub fn is_column_name(name: &[u8]) -> bool
    ensures { result ≡ spec.is_column_name name.now }
{
    !name.is_empty() && name.len() <= MOST_NAME_BYTES && all_name_bytes(name)
}

fn all_name_bytes(bytes: &[u8]) -> bool
    ensures { result ≡ list_all spec.is_name_byte bytes.now }
{
    bytes.iter().all(|byte| is_name_byte(*byte))
}

fn is_name_byte(byte: u8) -> bool
    ensures { result ≡ spec.is_name_byte byte }
{
    b'!' <= byte && byte <= b'~' && byte != b'"' && byte != b'*' && byte != b','
}
