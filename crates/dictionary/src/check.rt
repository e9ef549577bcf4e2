//! Bytes read as a dictionary.

ghost use Rattle.std.specs.Prelude.{◌≡◌, ◌≢◌, ◌<◌, ◌≤◌, ◌+◌, ◌*◌, ◌^◌, ◌++◌, ◌∷◌, [], List, ℕ, drop, length, map, IfOk, IfErr, OnOk, MatchOption, option_map};
ghost use Rattle.std.specs.Option.{option_copied};
ghost use Rattle.values.specs.declared.value.Value.TheVariants as value;
ghost use Rattle.value_ids.specs.Blocks.{AreParts, texts_in};
ghost use Rattle.value_ids.specs.Dictionary.{Distinct, IsDictionary, most_values};
ghost use Rattle.dictionary.specs.Spelling.{spelling, counted};
ghost use Rattle.dictionary.specs.Reading.{Checks, IsBody, NoBody, is_above, Left, IsNext, NoNext};

use crate::{DictFault, Dictionary, MOST_VALUES, push_numbers};
use data_types::FieldKind;
use std::alloc::{AllocError, Global};
use value_ids::{TextBlock, TextPart, ValueList};
use values::MOST_TEXT_BYTES;

impl Dictionary {
    /// The dictionary of that kind whose spelling the bytes are.
    pub fn check(alloc: Global, kind: FieldKind, bytes: &[u8]) -> Result<Dictionary, DictFault>
        ensures kind { IfOk result (λ d. d.kind ≡ kind) }
        ensures ok { IfOk result (λ d. bytes.now ≡ spelling d) }
        ensures bad { IfErr result (λ fault. fault ≡ DictFault.BadDictionary →
            (d : Distinct) → IsDictionary d → d.kind ≡ kind → bytes.now ≢ spelling d) }
        ensures valid { IfOk result IsDictionary }
    {
        match kind {
            FieldKind::Int | FieldKind::Long => check_numbers(alloc, kind, bytes),
            FieldKind::Text => check_texts(alloc, copied(alloc, bytes)?),
        }
    }

    /// The same of bytes that are given away: those of texts are kept, and not copied.
    pub fn of_bytes(alloc: Global, kind: FieldKind, bytes: Vec<u8>) -> Result<Dictionary, DictFault>
        ensures { Checks kind bytes.items result }
    {
        match kind {
            FieldKind::Int | FieldKind::Long => check_numbers(alloc, kind, &bytes),
            FieldKind::Text => check_texts(alloc, bytes),
        }
    }
}

// Equal bytes.
fn copied(alloc: Global, bytes: &[u8]) -> Result<Vec<u8>, AllocError>
    ensures { IfOk result (λ copy. copy.items ≡ bytes.now) }
{
    let mut copy = Vec::with_capacity(alloc, bytes.len())?;
    copy.extend_from_slice(bytes)?;
    Ok(copy)
}

fn check_numbers(alloc: Global, kind: FieldKind, bytes: &[u8]) -> Result<Dictionary, DictFault>
    requires { kind ≢ FieldKind.Text }
    ensures { Checks kind bytes.now result }
{
    let Some((count, body)) = split_number(bytes) else {
        return Err(DictFault::BadDictionary);
    };
    if count > MOST_VALUES {
        return Err(DictFault::BadDictionary);
    }
    match read_numbers(alloc, kind, count, body) {
        Ok(numbers) => Ok(Dictionary {
            kind,
            values: ValueList::of_numbers(numbers),
        }),
        Err(fault) => Err(fault),
    }
}

fn check_texts(alloc: Global, bytes: Vec<u8>) -> Result<Dictionary, DictFault>
    ensures { Checks FieldKind.Text bytes.items result }
{
    let Some((count, _)) = split_number(&bytes) else {
        return Err(DictFault::BadDictionary);
    };
    if count > MOST_VALUES {
        return Err(DictFault::BadDictionary);
    }
    match read_texts(alloc, count, &bytes) {
        Ok(parts) => Ok(Dictionary {
            kind: FieldKind::Text,
            values: ValueList::of_block(TextBlock::new(bytes, parts)),
        }),
        Err(fault) => Err(fault),
    }
}

// The number that four bytes at the front spell, and the bytes after them.
fn split_number(bytes: &[u8]) -> Option<(usize, &[u8])>
    ensures { MatchOption result
        (length bytes.now < 4)
        (λ p. (p.0 < 2 ^ 32) × (bytes.now ≡ counted p.0 ++ p.1.now)) }
{
    let (number, rest) = bytes.split_first_chunk::<4>()?;
    Some((u32::from_be_bytes(*number) as usize, rest))
}

fn read_numbers(
    alloc: Global,
    kind: FieldKind,
    count: usize,
    body: &[u8],
) -> Result<Vec<i64>, DictFault>
    requires at_most { count ≤ most_values }
    requires numbers { kind ≢ FieldKind.Text }
    ensures ok { IfOk result (λ numbers.
        IsBody kind count body.now (map value.Whole numbers.items)) }
    ensures bad { IfErr result (λ fault. fault ≡ DictFault.BadDictionary →
        NoBody kind count body.now) }
{
    if body.len() != 8 * count {
        return Err(DictFault::BadDictionary);
    }
    let mut numbers = Vec::with_capacity(alloc, count)?;
    match push_numbers(kind, body, &mut numbers) {
        Ok(()) => Ok(numbers),
        Err(fault) => Err(fault),
    }
}

// What is left of the offsets and of the bytes of the texts. The next text begins at `start`.
#[derive(Clone, Copy)]
struct Unread<'a> {
    start: usize,
    offsets: &'a [u8],
    texts: &'a str,
}

// Which of the bytes of a dictionary its texts have, whose number is in the first four.
fn read_texts(alloc: Global, count: usize, bytes: &[u8]) -> Result<Vec<TextPart>, DictFault>
    requires at_most { count ≤ most_values }
    requires front { 4 ≤ length bytes.now }
    ensures ok { IfOk result (λ parts. IsBody FieldKind.Text count (drop 4 bytes.now)
        (map value.Text (texts_in bytes.now parts.items))) }
    ensures parts { IfOk result (λ parts. AreParts bytes.now parts.items) }
    ensures bad { IfErr result (λ fault. fault ≡ DictFault.BadDictionary →
        NoBody FieldKind.Text count (drop 4 bytes.now)) }
{
    let Some(mut ahead) = texts_ahead(count, &bytes[4..]) else {
        return Err(DictFault::BadDictionary);
    };
    let first = 8 + 4 * count;
    let mut parts = Vec::with_capacity(alloc, count)?;
    let mut last: Option<&str> = None;
    for _ in 0..count {
        let Some((text, following)) = next_text(ahead.start, ahead.offsets, ahead.texts) else {
            return Err(DictFault::BadDictionary);
        };
        if !is_after(last, text) {
            return Err(DictFault::BadDictionary);
        }
        keep_part(&mut parts, first + ahead.start, text.len())?;
        last = Some(text);
        ahead = following;
    }
    if !ahead.texts.is_empty() {
        return Err(DictFault::BadDictionary);
    }
    Ok(parts)
}

// Whether a text is greater than the last one, if there is one.
#[inline(always)]
fn is_after(last: Option<&str>, text: &str) -> bool
    ensures { result ≡ is_above (option_map value.Text (option_copied last.entry))
        (value.Text text.now) }
{
    match last {
        None => true,
        Some(last) => last.as_bytes().cmp(text.as_bytes()).is_lt(),
    }
}

#[inline(always)]
fn keep_part(parts: &mut Vec<TextPart>, start: usize, len: usize) -> Result<(), DictFault>
    requires { start + len < 2 ^ 32 }
    ensures ok { OnOk result (parts.new.items
        ≡ parts.old.items ++ record { start = start; len = len } ∷ []) }
    ensures err { IfErr result (λ fault. fault ≡ DictFault.NoMemory) }
{
    let part = TextPart {
        start: start as u32,
        len: len as u32,
    };
    match parts.push(part) {
        Ok(()) => Ok(()),
        Err(_) => Err(DictFault::NoMemory),
    }
}

// The offsets after the first, and the bytes of all texts, which are UTF-8 together.
fn texts_ahead(count: usize, body: &[u8]) -> Option<Unread<'_>>
    requires { count ≤ most_values }
    ensures { MatchOption result
        (NoBody FieldKind.Text count body.now)
        (λ ahead. (ahead.start ≡ 0) × (length ahead.offsets.now ≡ 4 * count) ×
        (body.now ≡ counted 0 ++ ahead.offsets.now ++ ahead.texts.now)) }
{
    let (offsets, texts) = body.split_at_checked(4 * count + 4)?;
    let (first, offsets) = split_number(offsets)?;
    if first != 0 {
        return None;
    }
    let Ok(texts) = str::from_utf8(texts) else {
        return None;
    };
    Some(Unread {
        start: 0,
        offsets,
        texts,
    })
}

// The next text, which begins at `start`, and what is left after it.
#[inline(always)]
fn next_text<'a>(start: usize, offsets: &'a [u8], texts: &'a str) -> Option<(&'a str, Unread<'a>)>
    requires { start ≤ 536870912 }
    ensures { let left : Left = record {
      start = start;
      offsets = offsets.now;
      texts = texts.now;
    } in
        MatchOption result (NoNext left) (λ r. IsNext left r.0.now
        (record { start = r.1.start; offsets = r.1.offsets.now; texts = r.1.texts.now })) }
{
    let (end, offsets) = split_number(offsets)?;
    let length = end.checked_sub(start)?;
    if length > MOST_TEXT_BYTES {
        return None;
    }
    if !texts.is_char_boundary(length) {
        return None;
    }
    let (text, texts) = texts.split_at(length);
    Some((
        text,
        Unread {
            start: end,
            offsets,
            texts,
        },
    ))
}
