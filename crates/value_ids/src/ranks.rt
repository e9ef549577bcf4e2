//! Ids by their ranks.

ghost use Rattle.std.specs.Prelude.{◌≡◌, length};
ghost use Rattle.value_ids.specs.Coding.{AreBelow, renumbered};

/// Puts the rank of each of these places where it is.
pub fn rank_places(ids: &mut [u32], ranks: &[u32])
    requires { AreBelow (length ranks.now) ids.old }
    ensures { ids.new ≡ renumbered ranks.now ids.old }
{
    'places: for at in 0..ids.len() {
        let id = ids[at] as usize;
        ids[at] = ranks[id];
    }
}
