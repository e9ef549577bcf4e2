//! Numbers as bytes, the most significant first.
ghost use Rattle.std.specs.Prelude.{◌≡◌, ◌≤◌, ◌+◌, ◌++◌, length, take, drop, OnOk};
ghost use Rattle.std.specs.Int.{w32, w64, from_be_bytes};
ghost use Rattle.dictionary.specs.Spelling.{counted};
ghost use Rattle.segment_file.specs.Front.{long, short};

use crate::NoMemory;

/// The number that four bytes spell.
pub fn four_at(bytes: &[u8], at: usize) -> u32
    requires { at + 4 ≤ length bytes.now }
    ensures { result ≡ from_be_bytes w32 (take 4 (drop at bytes.now)) }
{
    u32::from_be_bytes([bytes[at], bytes[at + 1], bytes[at + 2], bytes[at + 3]])
}

/// The number that eight bytes spell.
pub(crate) fn eight_at(bytes: &[u8], at: usize) -> u64
    requires { at + 8 ≤ length bytes.now }
    ensures { result ≡ from_be_bytes w64 (take 8 (drop at bytes.now)) }
{
    u64::from_be_bytes([
        bytes[at],
        bytes[at + 1],
        bytes[at + 2],
        bytes[at + 3],
        bytes[at + 4],
        bytes[at + 5],
        bytes[at + 6],
        bytes[at + 7],
    ])
}

/// Appends a number of two bytes.
#[tactic(auto, unfolding(crate::specs::Front::short))]
pub(crate) fn push_two(number: u16, out: &mut Vec<u8>) -> Result<(), NoMemory>
    ensures { OnOk result (out.new.items ≡ out.old.items ++ short number) }
{
    out.extend_from_slice(&number.to_be_bytes())
}

/// Appends a number of four bytes.
#[tactic(auto, unfolding(dictionary::specs::Spelling::counted))]
pub(crate) fn push_four(number: u32, out: &mut Vec<u8>) -> Result<(), NoMemory>
    ensures { OnOk result (out.new.items ≡ out.old.items ++ counted number) }
{
    out.extend_from_slice(&number.to_be_bytes())
}

/// Appends a number of eight bytes.
#[tactic(auto, unfolding(crate::specs::Front::long))]
pub(crate) fn push_eight(number: u64, out: &mut Vec<u8>) -> Result<(), NoMemory>
    ensures { OnOk result (out.new.items ≡ out.old.items ++ long number) }
{
    out.extend_from_slice(&number.to_be_bytes())
}
