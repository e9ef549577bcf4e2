//! The stretch of places that is written.

ghost use Rattle.std.specs.Prelude.{◌≡◌, take, drop};

/// Those after so many, and no more than so many.
pub(crate) fn written_of(places: &[u32], offset: u64, limit: u64) -> &[u32]
    ensures { result.now ≡ take limit (drop offset places.now) }
{
    let start = offset.min(places.len() as u64) as usize;
    let rest = &places[start..];
    let count = limit.min(rest.len() as u64) as usize;
    &rest[..count]
}
