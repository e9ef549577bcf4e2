//! What a device says of the lengths of its files.

/// What is said of the length of a file.
#[derive(Clone, Copy)]
pub enum Told {
    /// How long it is.
    Truth,
    /// One byte more than the longest that a command reads, of every name.
    Long,
    /// That it is empty.
    Zero,
    /// One byte more than it has.
    More,
    /// One byte less than it has.
    Less,
}

impl Told {
    /// What is said of a length.
    pub fn of(self, length: u64) -> u64 {
        match self {
            Told::Truth => length,
            Told::Long => 134_217_729,
            Told::Zero => 0,
            Told::More => length.saturating_add(1),
            Told::Less => length.saturating_sub(1),
        }
    }
}
