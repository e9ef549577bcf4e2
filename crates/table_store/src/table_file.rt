//! The file of a table: its two texts, each after its length.

ghost use Rattle.std.specs.Prelude.{◌≡◌, ◌≢◌, ◌≤◌, ◌++◌, IfOk, OnOk, MatchOption, List, ℕ, length};
ghost use Rattle.std.specs.Int.{from_be_bytes};
ghost use Rattle.table_store.specs.State as state;
ghost use Rattle.table_store.specs.TableFile.{FitsTable, counted, table_file, text_limit};

use std::alloc::{AllocError, Global};

/// The name of the file.
pub const NAME: &str = "table";

/// The most bytes that a text of a table has.
pub const TEXT_LIMIT: u64 = 1_048_576;

/// The most bytes that the file has.
pub const FILE_LIMIT: u64 = 2_097_168;

const MAGIC: &[u8] = b"PINOTTB1";

/// The bytes of the file of these texts.
pub fn file_of(alloc: Global, schema: &[u8], settings: &[u8]) -> Result<Vec<u8>, AllocError>
    requires { FitsTable (record { schema = schema.now; settings = settings.now }) }
    ensures { IfOk result (λ file.
        file.items ≡ table_file (record { schema = schema.now; settings = settings.now })) }
{
    let mut file = Vec::with_capacity(alloc, MAGIC.len() + 8 + schema.len() + settings.len())?;
    file.extend_from_slice(MAGIC)?;
    push_text(&mut file, schema)?;
    push_text(&mut file, settings)?;
    Ok(file)
}

// Adds a text after its length.
fn push_text(file: &mut Vec<u8>, text: &[u8]) -> Result<(), AllocError>
    requires { length text.now ≤ text_limit }
    ensures { OnOk result (file.new.items ≡ file.old.items ++ counted text.now) }
{
    file.extend_from_slice(&(text.len() as u32).to_be_bytes())?;
    file.extend_from_slice(text)
}

/// The texts that a file is spelled of, if it is.
pub fn texts_of(file: &[u8]) -> Option<(&[u8], &[u8])>
    ensures { MatchOption result
        ((texts : state.Texts) → FitsTable texts → file.now ≢ table_file texts)
        (λ t. let texts : state.Texts = record { schema = t.0.now; settings = t.1.now } in
        FitsTable texts × (file.now ≡ table_file texts)) }
{
    let rest = file.strip_prefix(MAGIC)?;
    let (schema, rest) = split_text(rest)?;
    let (settings, rest) = split_text(rest)?;
    if rest.is_empty() {
        Some((schema, settings))
    } else {
        None
    }
}

// The text after its length at the front, and what follows it.
fn split_text(bytes: &[u8]) -> Option<(&[u8], &[u8])>
    ensures { MatchOption result
        ((text rest : List ℕ) → length text ≤ text_limit → bytes.now ≢ counted text ++ rest)
        (λ p. (length p.0.now ≤ text_limit) × (bytes.now ≡ counted p.0.now ++ p.1.now)) }
{
    let (length, rest) = bytes.split_first_chunk::<4>()?;
    let length = u32::from_be_bytes(*length);
    if u64::from(length) > TEXT_LIMIT {
        return None;
    }
    rest.split_at_checked(length as usize)
}
