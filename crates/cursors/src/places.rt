//! Cursors by their names, and the owners of their groups.
ghost use Rattle.std.specs.Prelude.{◌≡◌, ◌<◌, false, length, nat_eq};
ghost use Rattle.std.specs.List.{list_any};
ghost use Rattle.cursor_serve.specs.Machine.{most_cursors};
ghost use Rattle.cursors.specs.Kept.{place_under};

use crate::cursor::Cursor;

/// The most cursors that are open at once.
pub const MOST_CURSORS: usize = 16;

/// The most groups of a cursor.
pub const MOST_CURSOR_GROUPS: u32 = 10_000;

/// The place of the cursor of a name, if there is one.
pub fn place_of(cursors: &[Cursor], name: &str) -> Option<usize>
    ensures { result ≡ place_under name.now cursors.now }
{
    'cursors: for at in 0..cursors.len() {
        if name == cursors[at].name.as_str() {
            return Some(at);
        }
    }
    None
}

/// An owner of the groups of cursors that none of these has. There are fewer cursors than owners.
pub fn free_owner(cursors: &[Cursor]) -> u16
    requires { length cursors.now < most_cursors }
    ensures below { result < most_cursors }
    ensures free { list_any (λ cursor. nat_eq result cursor.owner) cursors.now ≡ false }
{
    'owners: for owner in 0..MOST_CURSORS as u16 {
        if !has_owner(cursors, owner) {
            return owner;
        }
    }
    unreachable!();
}

// Whether one of the cursors has this owner.
fn has_owner(cursors: &[Cursor], owner: u16) -> bool
    ensures { result ≡ list_any (λ cursor. nat_eq owner cursor.owner) cursors.now }
{
    cursors.iter().any(|cursor| owner == cursor.owner)
}
