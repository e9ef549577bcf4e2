//! Bits in a window of 64, of which each whole byte is written, and from which a number is read.
ghost use Rattle.std.specs.Prelude.{◌≡◌, ◌≤◌, ◌<◌, ◌+◌, ◌-◌, ◌*◌, ◌/◌, ◌%◌, ◌^◌, ◌++◌, length, replicate};
ghost use Rattle.bit_column.specs.Bits.{bits, bits_of, number};

use crate::Width;

/// The window with an id after what it has.
#[tactic(auto, using(crate::proofs::Windows::joined))]
pub fn joined(window: u64, have: u32, id: u32, width: Width) -> u64
    requires room { have + width.bits ≤ 64 }
    requires id { id < 2 ^ width.bits }
    ensures { bits (have + width.bits) result ≡ bits have window ++ bits width.bits id }
{
    window << width.bits | id as u64
}

/// The byte of the window that so many bits follow.
#[tactic(auto, using(crate::proofs::Windows::whole_byte))]
pub fn whole_byte(window: u64, following: u32) -> u8
    requires { following < 56 }
    ensures { bits (8 + following) window ≡ bits 8 result ++ bits following window }
{
    ((window >> following) & 255) as u8
}

/// The byte of the last few bits of the window, with zero bits after them.
#[tactic(auto, using(crate::proofs::Windows::last_byte))]
pub fn last_byte(window: u64, have: u32) -> u8
    requires { have < 8 }
    ensures { bits 8 result ≡ bits have window ++ replicate (8 - have) 0 }
{
    ((window << (8 - have)) & 255) as u8
}

/// So many bits of the window, which so many others follow.
#[tactic(auto, using(crate::proofs::Windows::taken))]
pub fn taken(window: u64, following: u32, width: Width) -> u32
    requires { following < 64 }
    ensures { result ≡ window / 2 ^ following % 2 ^ width.bits }
{
    ((window >> following) & ((1u64 << width.bits) - 1)) as u32
}
