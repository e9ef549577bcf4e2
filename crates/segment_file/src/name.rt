//! Names of segments.
ghost use Rattle.std.specs.Prelude.{◌≡◌, IfOk, MatchBool, string_bytes};
ghost use Rattle.std.specs.List.{list_all};
ghost use Rattle.segment_file.specs.Names.{IsSegmentName, file_of, is_name_byte, is_segment_name};

use crate::NoMemory;
use std::alloc::Global;

/// The most bytes of the name of a segment.
const MOST_NAME_BYTES: usize = 64;

/// Whether a text is the name of a segment.
pub fn is_segment_name(name: &str) -> bool
    ensures is { result ≡ is_segment_name name.now }
    ensures named { MatchBool result (IsSegmentName name.now) (¬ IsSegmentName name.now) }
{
    0 < name.len() && name.len() <= MOST_NAME_BYTES && has_name_bytes(name.as_bytes())
}

/// The name of the file that a segment of this name is published as.
pub fn segment_file_name(alloc: Global, name: &str) -> Result<String, NoMemory>
    ensures { IfOk result (λ file. string_bytes file ≡ file_of name.now) }
{
    let mut file = String::from_str(alloc, name)?;
    file.push_str(".seg")?;
    Ok(file)
}

fn has_name_bytes(bytes: &[u8]) -> bool
    ensures { result ≡ list_all is_name_byte bytes.now }
{
    bytes.iter().all(|byte| is_name_byte(*byte))
}

// A letter, a digit, `_` or `-`.
fn is_name_byte(byte: u8) -> bool
    ensures { result ≡ is_name_byte byte }
{
    (b'A' <= byte && byte <= b'Z')
        || (b'a' <= byte && byte <= b'z')
        || (b'0' <= byte && byte <= b'9')
        || byte == b'_'
        || byte == b'-'
}
