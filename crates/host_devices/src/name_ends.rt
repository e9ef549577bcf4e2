//! The ends of a name, by which names are compared.
ghost use Rattle.std.specs.Prelude.{◌≡◌, ◌≤◌, ◌<◌, ◌+◌, List, ℕ, drop, length, take, true};
ghost use Rattle.std.specs.Int.{to_le_bytes, w64};
ghost use Rattle.host_devices.specs.Names.{AreEnds};

/// The first eight bytes and the last eight of a name of eight bytes to sixteen, as the names of
/// segments' files mostly have; for any other name a size that no name has. Each read compares
/// names: so each end is compared at once.
#[derive(Clone, Copy)]
pub struct NameEnds {
    pub size: usize,
    pub first: u64,
    pub last: u64,
    ghost at_least: { 8 ≤ size },
    ghost none: { 16 < size → size ≡ 18446744073709551615 },
}

impl NameEnds {
    /// The ends of no name.
    pub fn none() -> Self
        ensures { 16 < result.size }
    {
        NameEnds {
            size: usize::MAX,
            first: 0,
            last: 0,
        }
    }

    /// The ends of a name.
    pub fn of(name: &[u8]) -> Self
        ensures { result.size ≤ 16 → AreEnds name.now result.size result.first result.last }
    {
        let size = name.len();
        if size < 8 || size > 16 {
            return NameEnds::none();
        }
        NameEnds {
            size,
            first: eight_at(name, 0),
            last: eight_at(name, size - 8),
        }
    }

    /// Whether a name has these ends.
    #[inline(always)]
    pub fn fit(&self, name: &[u8]) -> bool
        ensures some { result ≡ true → self.now.size ≤ 16 }
        ensures same { result ≡ true → self.now.size ≤ 16 → (bytes : List ℕ) →
            AreEnds bytes self.now.size self.now.first self.now.last → bytes ≡ name.now }
    {
        let size = self.size;
        if name.len() != size {
            return false;
        }
        if eight_at(name, 0) != self.first {
            return false;
        }
        eight_at(name, size - 8) == self.last
    }
}

// The number of eight bytes.
#[inline(always)]
fn eight_at(bytes: &[u8], at: usize) -> u64
    requires { at + 8 ≤ length bytes.now }
    ensures { to_le_bytes w64 result ≡ take 8 (drop at bytes.now) }
{
    u64::from_le_bytes([
        bytes[at],
        bytes[at + 1],
        bytes[at + 2],
        bytes[at + 3],
        bytes[at + 4],
        bytes[at + 5],
        bytes[at + 6],
        bytes[at + 7],
    ])
}
