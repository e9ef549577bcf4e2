//! Ids that are four bytes each, and words of eight bytes.
ghost use Rattle.std.specs.Prelude.{◌≡◌, ◌≤◌, ◌<◌, ◌+◌, ◌-◌, ◌*◌, length, take, drop};
ghost use Rattle.bit_column.specs.Bits.{bits, bits_of, field, pieces};
ghost use Rattle.bit_column.specs.Unpacked.{HasWord};

use crate::Width;
use crate::bits::taken;

/// The ids that are four bytes each, from the first byte on.
pub fn put_words(bytes: &[u8], ids: &mut [u32])
    requires { 4 * length ids.old ≤ length bytes.now }
    ensures { ids.new ≡ pieces 32 0 (length ids.old) (bits_of 8 bytes.now) }
{
    for i in 0..ids.len() {
        ids[i] = four_bytes(bytes, 4 * i);
    }
}

// The number of four bytes.
#[inline(always)]
fn four_bytes(bytes: &[u8], at: usize) -> u32
    requires { at + 4 ≤ length bytes.now }
    ensures { bits 32 result ≡ bits_of 8 (take 4 (drop at bytes.now)) }
{
    u32::from_be_bytes([bytes[at], bytes[at + 1], bytes[at + 2], bytes[at + 3]])
}

/// The number of eight bytes from one on.
#[inline(always)]
pub fn word_at(bytes: &[u8], at: usize) -> u64
    requires { at + 8 ≤ length bytes.now }
    ensures { HasWord (8 * at) result (bits_of 8 bytes.now) }
{
    u64::from_be_bytes([
        bytes[at],
        bytes[at + 1],
        bytes[at + 2],
        bytes[at + 3],
        bytes[at + 4],
        bytes[at + 5],
        bytes[at + 6],
        bytes[at + 7],
    ])
}

/// The number of so many bits of a word from one of them on.
#[inline(always)]
#[tactic(auto, using(crate::proofs::WordSteps::in_word))]
pub fn number_in(word: u64, bit: u32, width: Width) -> u32
    requires { bit + width.bits ≤ 64 }
    ensures { result ≡ field width.bits bit (bits 64 word) }
{
    taken(word, 64 - bit - width.bits, width)
}
