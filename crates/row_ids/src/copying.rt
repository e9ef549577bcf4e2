//! Ids are copied from one width to another.
ghost use Rattle.std.specs.Prelude.{◌≡◌, ◌<◌, IfOk, All, get_or, length, map};

use data_types::NoMemory;
use std::alloc::Global;

/// Ids in two bytes each.
pub(crate) fn narrowed(alloc: Global, ids: &[u32]) -> Result<Vec<u16>, NoMemory>
    requires { All (λ id. id < 65536) ids.now }
    ensures { IfOk result (λ narrow. narrow.items ≡ ids.now) }
{
    let mut narrow = vec![in alloc; 0u16; ids.len()]?;
    put_narrow(ids, narrow.as_mut_slice());
    Ok(narrow)
}

// Puts ids into two bytes each.
fn put_narrow(ids: &[u32], out: &mut [u16])
    requires below { All (λ id. id < 65536) ids.now }
    requires room { length out.old ≡ length ids.now }
    ensures { out.new ≡ ids.now }
{
    for at in 0..ids.len() {
        out[at] = ids[at] as u16;
    }
}

/// Puts ids into four bytes each.
pub(crate) fn put_wide(ids: &[u16], out: &mut [u32])
    requires { length out.old ≡ length ids.now }
    ensures { out.new ≡ ids.now }
{
    for at in 0..ids.len() {
        out[at] = u32::from(ids[at]);
    }
}

/// Puts the ids of some rows.
pub(crate) fn put_at_narrow(ids: &[u16], rows: &[u32], out: &mut [u32])
    requires within { All (λ row. row < length ids.now) rows.now }
    requires room { length out.old ≡ length rows.now }
    ensures { out.new ≡ map (λ row. get_or ids.now row 0) rows.now }
{
    for at in 0..rows.len() {
        out[at] = u32::from(ids[rows[at] as usize]);
    }
}

/// The same of ids in four bytes each.
pub(crate) fn put_at_wide(ids: &[u32], rows: &[u32], out: &mut [u32])
    requires within { All (λ row. row < length ids.now) rows.now }
    requires room { length out.old ≡ length rows.now }
    ensures { out.new ≡ map (λ row. get_or ids.now row 0) rows.now }
{
    for at in 0..rows.len() {
        out[at] = ids[rows[at] as usize];
    }
}
