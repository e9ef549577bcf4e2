//! Ids that come one after the other.

ghost use Rattle.std.specs.Prelude.{◌≡◌, ◌<◌, ◌≤◌, ◌+◌, ◌-◌, get_or, length, nat_eq};
ghost use Rattle.value_ids.specs.Ids.{IsIdSet};
ghost use Rattle.coded_scan.specs.Marks.{IsRunAt};

/// A first id, and so many more after it, one by one.
#[derive(Clone, Copy)]
pub struct IdRun {
    pub first: u32,
    pub more: u32,
}

/// The run of ids that begins at one of some.
pub fn run_at(ids: &[u32], start: usize) -> IdRun
    requires ids { IsIdSet ids.now }
    requires start { start < length ids.now }
    ensures { IsRunAt ids.now start result }
{
    let first = ids[start];
    let mut last = start;
    let mut end = ids.len();
    while end - last > 1 {
        // The ids ascend, so that up to this one each follows the one before, or none after it
        // does.
        let half = last + (end - last) / 2;
        if follows(ids, start, half) {
            last = half;
        } else {
            end = half;
        }
    }
    IdRun {
        first,
        more: (last - start) as u32,
    }
}

// Whether an id is as far from another as they are apart.
#[inline(always)]
fn follows(ids: &[u32], start: usize, at: usize) -> bool
    requires start { start < length ids.now }
    requires at { at < length ids.now }
    ensures { result ≡ nat_eq (get_or ids.now at 0 + start) (get_or ids.now start 0 + at) }
{
    ids[at] as usize + start == ids[start] as usize + at
}
