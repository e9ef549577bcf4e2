//! Documents that follow one another.
ghost use Rattle.std.specs.Prelude.{◌≡◌, ◌≤◌, ◌+◌, ◌-◌};

/// The documents from one to another, both of them included.
#[derive(Clone, Copy, Debug, PartialEq, Eq)]
pub struct Run {
    pub first: u32,
    pub last: u32,
}

impl Run {
    // How many documents there are.
    pub fn count(&self) -> usize
        requires { self.now.first ≤ self.now.last }
        ensures { result ≡ self.now.last + 1 - self.now.first }
    {
        (self.last - self.first) as usize + 1
    }
}
