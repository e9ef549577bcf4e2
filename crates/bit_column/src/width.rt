//! How many bits an id takes.
ghost use Rattle.std.specs.Prelude.{◌≡◌, ◌≤◌};
ghost use Rattle.bit_column.specs.Column.{IsWidth, width_of};

/// A number of bits that an id may take.
#[derive(Clone, Copy)]
pub struct Width {
    pub bits: u32,
    pub ghost least: { 1 ≤ bits },
    pub ghost most: { bits ≤ 32 },
}

/// The number of bits of each id where there are so many ids: the least from 1 on that tells them
/// apart. It is at most 32.
pub fn width_for(count: u32) -> u32
    ensures width { result ≡ width_of count }
    ensures least { IsWidth count result }
    ensures bound { result ≤ 32 }
{
    let digits = 32 - count.saturating_sub(1).leading_zeros();
    digits.max(1)
}
