//! The numbers of the lines of a file.
ghost use Rattle.std.specs.Prelude.{◌≡◌, ◌+◌, ◌<◌, ◌≤◌, ◌^◌, MatchOption, length};

/// Counts a line that comes after so many others. Where it is not empty, it is to be answered, as
/// the line of this number: lines are numbered from 1, the empty ones too.
pub fn count_line(count: &mut u32, line: &str) -> Option<u32>
    requires { count.old + 1 < 2 ^ 32 }
    ensures counted { count.new ≡ count.old + 1 }
    ensures numbered { MatchOption result (length line.now ≡ 0)
        (λ number. (number ≡ count.old + 1) × (1 ≤ length line.now)) }
{
    *count += 1;
    if line.is_empty() {
        return None;
    }
    Some(*count)
}
