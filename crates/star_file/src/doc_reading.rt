//! Documents out of bytes.

ghost use Rattle.std.specs.Prelude.{◌≡◌, ◌+◌, ◌-◌, ◌*◌, ◌≤◌, ◌<◌, length, take, drop};
ghost use Rattle.std.specs.Prelude.{IfOk, IsTrue, MatchBool, ◌↔◌, List};
ghost use Rattle.state_columns.specs.Docs.{Doc};
ghost use Rattle.star_file.specs.Rules.{widths};
ghost use Rattle.star_file.specs.Reading.{doc_width, IsId, AreReadable};
ghost use Rattle.star_file.specs.Reading.{RefusesBytes, SpellsDoc, SpellDocs};
ghost use Rattle.star_file.specs.Spelled.{SpellsIds, SpellsStates};
ghost use Rattle.star_table.specs.Tables.{IsOfShape};

use crate::checking::number;
use crate::docs_fault::DocsFault;
use crate::rules::widths;
use crate::spelled_docs::SpelledDocs;
use agg_laws::{AggKind, AggState, TreeShape};
use outside::Bytes;
use state_columns::STAR;

/// How many bytes a document takes.
pub fn width_of(shape: &TreeShape) -> usize
    requires { length shape.now.kinds ≤ 16 }
    ensures value { result ≡ doc_width shape.now }
    ensures bound { result ≤ 1404 }
{
    4 * shape.dims as usize + widths(shape.kinds.as_slice()) as usize
}

/// So many documents, of which each has the same number of bytes.
pub(crate) fn docs_from<'a>(
    bytes: Bytes,
    shape: &'a TreeShape,
    counts: &'a [u32],
    number: u32,
) -> Result<SpelledDocs<'a>, DocsFault>
    requires width { length bytes ≡ number * doc_width shape.now }
    requires shape { AreReadable shape.now counts.now }
    ensures docs { IfOk result (λ table.
        SpellDocs shape.now counts.now number bytes table.docs) }
    ensures shape { IfOk result (IsOfShape shape.now.dims shape.now.kinds) }
    ensures refused { RefusesBytes result ((docs : List Doc)
        → SpellDocs shape.now counts.now number bytes docs → ⊥) }
{
    if !are_docs(bytes.as_slice(), shape, counts, number) {
        return Err(DocsFault::BadDocs);
    }
    Ok(SpelledDocs::of_bytes(bytes, shape, counts, number))
}

// Whether bytes are those of so many documents.
fn are_docs(bytes: &[u8], shape: &TreeShape, counts: &[u32], number: u32) -> bool
    requires width { length bytes.now ≡ number * doc_width shape.now }
    requires shape { AreReadable shape.now counts.now }
    ensures { MatchBool result
        ((docs : List Doc) × SpellDocs shape.now counts.now number bytes.now docs)
        ((docs : List Doc) → SpellDocs shape.now counts.now number bytes.now docs → ⊥) }
{
    let width = width_of(shape);
    for i in 0..number {
        if !is_doc(doc_of(bytes, width, i), shape, counts) {
            return false;
        }
    }
    true
}

// Whether a number is an id of a dimension of so many, or the star.
fn is_id(count: u32, id: u32) -> bool
    ensures { IsTrue result ↔ IsId count id }
{
    id == STAR || id < count
}

// Whether bytes are those of ids, each in four bytes.
fn are_ids(bytes: &[u8], counts: &[u32]) -> bool
    requires { length bytes.now ≡ 4 * length counts.now }
    ensures { MatchBool result (SpellsIds counts.now bytes.now) (¬ SpellsIds counts.now bytes.now) }
{
    for i in 0..counts.len() {
        if !is_id(counts[i], number(bytes, 4 * i)) {
            return false;
        }
    }
    true
}

// The bytes between two places.
pub(crate) fn between(bytes: &[u8], from: usize, to: usize) -> &[u8]
    requires order { from ≤ to }
    requires within { to ≤ length bytes.now }
    ensures part { result.now ≡ take (to - from) (drop from bytes.now) }
    ensures lengths { length result.now ≡ to - from }
{
    &bytes[from..to]
}

// The bytes of one document among those of all, each of which has so many.
pub(crate) fn doc_of(bytes: &[u8], width: usize, at: u32) -> &[u8]
    requires { at * width + width ≤ length bytes.now }
    ensures part { result.now ≡ take width (drop (at * width) bytes.now) }
    ensures lengths { length result.now ≡ width }
{
    let from = at as usize * width;
    between(bytes, from, from + width)
}

// Whether bytes are those of a state of each kind, which have as many as their kinds.
fn are_states(bytes: &[u8], kinds: &[AggKind]) -> bool
    requires width { length bytes.now ≡ widths kinds.now }
    requires at_most { length kinds.now ≤ 16 }
    ensures { MatchBool result (SpellsStates kinds.now bytes.now)
        (¬ SpellsStates kinds.now bytes.now) }
{
    let mut at = 0;
    for i in 0..kinds.len() {
        let end = at + kinds[i].width();
        match AggState::take(kinds[i], between(bytes, at, end)) {
            Ok(_) => at = end,
            Err(_) => return false,
        }
    }
    true
}

// Whether bytes are those of a document.
fn is_doc(bytes: &[u8], shape: &TreeShape, counts: &[u32]) -> bool
    requires width { length bytes.now ≡ doc_width shape.now }
    requires shape { AreReadable shape.now counts.now }
    ensures { MatchBool result ((e : Doc) × SpellsDoc shape.now counts.now bytes.now e)
        ((e : Doc) → SpellsDoc shape.now counts.now bytes.now e → ⊥) }
{
    let end = 4 * counts.len();
    if !are_ids(between(bytes, 0, end), counts) {
        return false;
    }
    are_states(between(bytes, end, bytes.len()), shape.kinds.as_slice())
}
