//! The calls of a device in memory, some of which are to fail.
ghost use Rattle.std.specs.Prelude.{◌≡◌, ◌||◌};
ghost use Rattle.outside.specs.Counts.{next};
ghost use Rattle.memory_devices.specs.Calls.{CountsFault};
ghost use Rattle.memory_devices.specs.Memory.{has_stopped, is_listed};

use outside::Seq;

/// The calls that were made, numbered from 0, and the numbers of those that are to fail.
#[derive(Drop)]
pub struct MemoryCalls {
    pub failing: Seq<u64>,
    pub made: u64,
}

impl MemoryCalls {
    pub fn new(failing: Seq<u64>) -> Self
        ensures failing { result.failing ≡ failing }
        ensures made { result.made ≡ 0 }
    {
        MemoryCalls { failing, made: 0 }
    }

    /// Counts a call, and says whether it is to fail.
    pub fn fails(&mut self) -> bool
        ensures listed { result ≡ is_listed self.old.failing self.old.made }
        ensures failing { self.new.failing ≡ self.old.failing }
        ensures made { self.new.made ≡ next self.old.made }
    {
        let call = self.made;
        self.made = call.saturating_add(1);
        self.failing.as_slice().contains(&call)
    }

    /// Counts a call, and the fault where it is to fail, of a device that may have stopped.
    pub(crate) fn fails_counted(&mut self, stop: Option<u64>, faults: &mut u64) -> bool
        ensures fails { result
            ≡ (is_listed self.old.failing self.old.made || has_stopped stop self.old.made) }
        ensures failing { self.new.failing ≡ self.old.failing }
        ensures made { self.new.made ≡ next self.old.made }
        ensures faults { CountsFault result faults.old faults.new }
    {
        let is_over = is_over(stop, self.made);
        let fails = self.fails() | is_over;
        if fails {
            *faults = faults.saturating_add(1);
        }
        fails
    }
}

// Whether a device that stops with a call, if it does, has stopped when this call comes.
fn is_over(stop: Option<u64>, call: u64) -> bool
    ensures { result ≡ has_stopped stop call }
{
    match stop {
        Some(after) => call >= after,
        None => false,
    }
}
