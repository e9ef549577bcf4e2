//! Bounds of ids.
ghost use Rattle.std.specs.Prelude.{◌≤◌, ◌<◌};

/// The ids from one to another, both included, of so many.
#[derive(Clone, Copy)]
pub struct IdBounds {
    pub low: u32,
    pub high: u32,
    pub count: u32,
    pub ghost order: { low ≤ high },
    pub ghost below: { high < count },
    pub ghost at_most: { count ≤ 1048576 },
}
