//! The places of texts among those that are kept.
ghost use Rattle.std.specs.Prelude.{◌≡◌, true, false, MatchOption, OnErr, IfOk};
ghost use Rattle.std.specs.Str.{is_utf8};
ghost use Rattle.data_types.specs.Texts.{Placed};

use data_types::{TextIndex, TextPool, hash_of, text_of};
use std::alloc::AllocError;

/// The place of a text, which is kept unless it is there.
#[inline(always)]
pub fn place(pool: &mut TextPool, index: &mut TextIndex, text: &str) -> Result<u32, AllocError>
    ensures ok { IfOk result (λ id. Placed text.now id pool.old pool.new) }
    ensures err { OnErr result (pool.new ≡ pool.old) }
{
    let hash = hash_of(text.as_bytes());
    match index.find(pool, hash, text.as_bytes()) {
        Some(id) => Ok(id),
        None => keep(pool, index, hash, text),
    }
}

/// The same of some bytes, if they are a text.
#[inline(always)]
pub fn place_of_bytes(
    pool: &mut TextPool,
    index: &mut TextIndex,
    bytes: &[u8],
) -> Result<Option<u32>, AllocError>
    ensures ok { IfOk result (λ place. MatchOption place
        ((pool.new ≡ pool.old) × (is_utf8 bytes.now ≡ false))
        (λ id. Placed bytes.now id pool.old pool.new × (is_utf8 bytes.now ≡ true))) }
    ensures err { OnErr result (pool.new ≡ pool.old) }
{
    let hash = hash_of(bytes);
    if let Some(id) = index.find(pool, hash, bytes) {
        return Ok(Some(id));
    }
    let Some(text) = text_of(bytes) else {
        return Ok(None);
    };
    Ok(Some(keep(pool, index, hash, text)?))
}

// Keeps one more text.
#[inline(never)]
fn keep(
    pool: &mut TextPool,
    index: &mut TextIndex,
    hash: u64,
    text: &str,
) -> Result<u32, AllocError>
    ensures ok { IfOk result (λ id. Placed text.now id pool.old pool.new) }
    ensures err { OnErr result (pool.new ≡ pool.old) }
{
    let Ok(id) = u32::try_from(pool.len()) else {
        return Err(AllocError);
    };
    index.note(pool, hash, id, text)?;
    pool.push(text)?;
    Ok(id)
}
