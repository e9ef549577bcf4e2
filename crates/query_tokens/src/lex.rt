//! Cuts the token at the front of a text.

ghost use Rattle.std.specs.Prelude.{◌≡◌, ◌≢◌, ◌<◌, ◌≤◌, ◌+◌, ◌-◌, length, map, if◌then◌else◌, ◌==◌, drop, slice_index, IfSome, IfOk, true, false};
ghost use Rattle.std.specs.Str.{str_eq_ignore_ascii_case};
ghost use Rattle.std.specs.Str.{IsUtf8};
ghost use Rattle.std.specs.List.{prefix_len};
ghost use Rattle.query_tokens.specs.Lex as spec;

use crate::token::{KEYWORDS, Kind, Token};
use data_types::{FieldKind, Name, WholeFault, read_whole};
use std::alloc::{AllocError, Global};

// A sort of bytes that run on in one token.
#[derive(Clone, Copy, Debug)]
enum Class {
    Blank,
    Digit,
    Word,
}

const LONGEST_NAME: usize = 128;

const LONGEST_TEXT: usize = 512;

/// The text from a place on.
pub fn rest(z: &[u8], from: usize) -> &[u8]
    requires { from ≤ length z.now }
    ensures { result.now ≡ drop from z.now }
{
    &z[from..]
}

/// The text from its first token on, and how many blanks stand before it.
#[tactic(auto, using(crate::proofs::Streams::blanks_over))]
pub fn skip(z: &[u8]) -> (&[u8], usize)
    ensures rest { result.0.now ≡ drop (spec.blanks z.now) z.now }
    ensures blanks { result.1 ≡ spec.blanks z.now }
    ensures over { spec.blanks result.0.now ≡ 0 }
    ensures within { result.1 + length result.0.now ≡ length z.now }
    ensures text { IsUtf8 z.now → IsUtf8 result.0.now }
{
    let blanks = run(Class::Blank, z);
    (rest(z, blanks), blanks)
}

/// Whether two words are the same but for the case of ASCII letters.
pub fn same_word(a: &[u8], b: &[u8]) -> bool
    ensures { result ≡ str_eq_ignore_ascii_case a.now b.now }
{
    a.eq_ignore_ascii_case(b)
}

fn lookup(mut table: &[(&[u8], Kind)], word: &[u8]) -> Kind
    ensures { result ≡ spec.lookup (map (λ k. (k.0.now, k.1)) table.entry.now) word.now }
{
    while let [entry, rest @ ..] = table {
        if same_word(entry.0, word) {
            return entry.1;
        }
        table = rest;
    }
    Kind::Name
}

#[tactic(auto, unfolding(crate::specs::Lex::keyword))]
fn keyword(word: &[u8]) -> Kind
    ensures { result ≡ spec.keyword word.now }
{
    lookup(&KEYWORDS, word)
}

/// Whether two tokens are of one kind.
pub fn same_kind(a: Kind, b: Kind) -> bool
    ensures value { result ≡ spec.same_kind a b }
    ensures same { result ≡ true → a ≡ b }
    ensures other { result ≡ false → a ≢ b }
{
    a == b
}

/// Whether no token follows one of this kind: the end, or a fault.
#[tactic(auto, unfolding(crate::specs::Lex::is_last))]
pub fn is_last(kind: Kind) -> bool
    ensures { result ≡ spec.is_last kind }
{
    matches!(
        kind,
        Kind::End
            | Kind::BadCharacter
            | Kind::OpenText
            | Kind::NumberTooWide
            | Kind::NameTooLong
            | Kind::TextTooLong
    )
}

fn unnumbered(kind: Kind, len: usize) -> Token
    ensures { result ≡ spec.unnumbered kind len }
{
    Token {
        kind,
        len,
        number: 0,
    }
}

#[tactic(auto, unfolding(crate::specs::Lex::word, crate::specs::Lex::is_last))]
fn word(z: &[u8]) -> Token
    requires some { 0 < length z.now }
    requires begins { spec.is_in Class.Word (slice_index z.now 0) ≡ true }
    ensures value { result ≡ spec.word z.now }
    ensures front { spec.IsAtFront z.now result }
{
    let len = run(Class::Word, z);
    let kind = keyword(&z[..len]);
    if same_kind(kind, Kind::Name) && len > LONGEST_NAME {
        unnumbered(Kind::NameTooLong, 0)
    } else {
        unnumbered(kind, len)
    }
}

// How many bytes the sign of a number takes.
fn sign_len(z: &[u8]) -> usize
    requires some { 0 < length z.now }
    requires begins { slice_index z.now 0 ≢ 45 → spec.is_in Class.Digit (slice_index z.now 0)
        ≡ true }
    ensures value { result ≡ (if slice_index z.now 0 == 45 then 1 else 0) }
    ensures within { result ≤ length z.now }
    ensures digit { result ≡ 0 → spec.is_in Class.Digit (slice_index z.now 0) ≡ true }
    ensures ends { 0 < result → slice_index z.now (result - 1) < 128 }
{
    if byte(z, 0) == b'-' { 1 } else { 0 }
}

#[tactic(auto, unfolding(crate::specs::Lex::number))]
fn number(z: &[u8]) -> Token
    requires some { 0 < length z.now }
    requires begins { slice_index z.now 0 ≢ 45 → spec.is_in Class.Digit (slice_index z.now 0)
        ≡ true }
    ensures value { result ≡ spec.number z.now }
    ensures front { spec.IsAtFront z.now result }
{
    let front = sign_len(z);
    let len = front + run(Class::Digit, &z[front..]);
    number_or_fault(len, read_whole(FieldKind::Long, &z[..len]))
}

#[tactic(auto, unfolding(crate::specs::Lex::is_last))]
fn number_or_fault(len: usize, number: Result<i64, WholeFault>) -> Token
    ensures value { result ≡ spec.number_or_fault len number }
    ensures within { result.len ≤ len }
    ensures moves { 0 < len → result.len ≡ 0 → spec.is_last result.kind ≡ true }
    ensures whole { 0 < result.len → result.len ≡ len }
{
    match number {
        Err(_) => unnumbered(Kind::NumberTooWide, 0),
        Ok(number) => Token {
            kind: Kind::Number,
            len,
            number,
        },
    }
}

/// The length of the value of a text in quotes, and how many bytes there are up to and with the
/// closing quote.
#[tactic(auto, using(crate::proofs::Quotes::lengths_steps))]
fn quoted_len(quote: u8, z: &[u8]) -> Option<(usize, usize)>
    requires { 0 < quote }
    ensures value { result ≡ spec.lengths (spec.quoted quote z.now) }
    ensures within { IfSome result (λ p. p.1 ≤ length z.now) }
    ensures ends { IfSome result (λ p. (0 < p.1) × (slice_index z.now (p.1 - 1) ≡ quote)) }
{
    let mut value = 0;
    let mut at = 0;
    while at < z.len() {
        if z[at] != quote {
            at += 1;
        } else if byte(z, at + 1) == quote {
            at += 2;
        } else {
            return Some((value, at + 1));
        }
        value += 1;
    }
    None
}

/// The value of a text in quotes, from the byte after the first quote on, in `room` bytes or more.
#[tactic(auto, using(crate::proofs::Quotes::values))]
fn quoted_bytes(alloc: Global, quote: u8, z: &[u8], room: usize) -> Result<Vec<u8>, AllocError>
    requires { 0 < quote }
    ensures { IfOk result (λ v. v.items ≡ spec.value_of (spec.quoted quote z.now)) }
{
    let mut value = Vec::with_capacity(alloc, room)?;
    let mut at = 0;
    while at < z.len() {
        if z[at] != quote {
            value.push(z[at])?;
            at += 1;
        } else if byte(z, at + 1) == quote {
            value.push(quote)?;
            at += 2;
        } else {
            return Ok(value);
        }
    }
    value.clear();
    Ok(value)
}

fn name_of(alloc: Global, bytes: Vec<u8>) -> Result<Name, AllocError>
    requires { IsUtf8 bytes.items }
    ensures { IfOk result (λ name. name ≡ bytes.items) }
{
    match String::from_utf8(bytes) {
        Ok(text) => Name::from_string(alloc, text),
        Err(_) => unreachable!(),
    }
}

#[tactic(auto, unfolding(crate::specs::Lex::in_quotes, crate::specs::Lex::is_last))]
fn in_quotes(kind: Kind, too_long: Kind, longest: usize, z: &[u8]) -> Token
    requires some { 0 < length z.now }
    requires begins { (0 < slice_index z.now 0) × (slice_index z.now 0 < 128) }
    requires last { spec.is_last too_long ≡ true }
    ensures value { result ≡ spec.in_quotes kind too_long longest z.now }
    ensures front { spec.IsAtFront z.now result }
{
    match quoted_len(z[0], &z[1..]) {
        None => unnumbered(Kind::OpenText, 0),
        Some((value, len)) => {
            if value > longest {
                unnumbered(too_long, 0)
            } else if value == 0 && same_kind(kind, Kind::Name) {
                unnumbered(Kind::EmptyName, len + 1)
            } else {
                unnumbered(kind, len + 1)
            }
        }
    }
}

#[tactic(auto, unfolding(crate::specs::Lex::is_last))]
fn sign(b: u8, next: u8) -> Token
    ensures value { result ≡ spec.sign b next }
    ensures within { (result.len ≤ 2) × (next ≡ 0 → result.len ≤ 1) }
    ensures first { 0 < result.len → b < 128 }
    ensures second { result.len ≡ 2 → next < 128 }
    ensures moves { result.len ≡ 0 → spec.is_last result.kind ≡ true }
{
    match b {
        b'(' => unnumbered(Kind::LParen, 1),
        b')' => unnumbered(Kind::RParen, 1),
        b',' => unnumbered(Kind::Comma, 1),
        b';' => unnumbered(Kind::Semi, 1),
        b'*' => unnumbered(Kind::Star, 1),
        b'=' => unnumbered(Kind::Eq, 1),
        b'!' if next == b'=' => unnumbered(Kind::Ne, 2),
        b'<' if next == b'>' => unnumbered(Kind::Ne, 2),
        b'<' if next == b'=' => unnumbered(Kind::Le, 2),
        b'<' => unnumbered(Kind::Lt, 1),
        b'>' if next == b'=' => unnumbered(Kind::Ge, 2),
        b'>' => unnumbered(Kind::Gt, 1),
        _ => unnumbered(Kind::BadCharacter, 0),
    }
}

/// The token at the front of a text that does not begin with a blank.
#[tactic(auto, unfolding(crate::specs::Lex::token, crate::specs::Lex::is_last))]
pub fn token(z: &[u8]) -> Token
    ensures value { result ≡ spec.token z.now }
    ensures front { spec.IsAtFront z.now result }
{
    if z.is_empty() {
        return unnumbered(Kind::End, 0);
    }
    let b = z[0];
    let next = byte(z, 1);
    if is_in(Class::Digit, b) || (b == b'-' && is_in(Class::Digit, next)) {
        number(z)
    } else if is_in(Class::Word, b) {
        word(z)
    } else if b == b'"' {
        in_quotes(Kind::Name, Kind::NameTooLong, LONGEST_NAME, z)
    } else if b == b'\'' {
        in_quotes(Kind::Text, Kind::TextTooLong, LONGEST_TEXT, z)
    } else {
        sign(b, next)
    }
}

#[tactic(auto, unfolding(crate::specs::Lex::value))]
fn value_bytes(alloc: Global, z: &[u8], room: usize) -> Result<Vec<u8>, AllocError>
    ensures { IfOk result (λ v. v.items ≡ spec.value z.now) }
{
    let b = byte(z, 0);
    if b == b'"' || b == b'\'' {
        quoted_bytes(alloc, b, &z[1..], room)
    } else {
        Vec::from_slice(alloc, &z[..run(Class::Word, z)])
    }
}

/// The value of the name or text at the front, which takes `room` bytes at most.
pub fn value(alloc: Global, z: &[u8], room: usize) -> Result<Name, AllocError>
    requires { IsUtf8 z.now }
    ensures { IfOk result (λ v. v ≡ spec.value z.now) }
{
    name_of(alloc, value_bytes(alloc, z, room)?)
}

#[tactic(auto, using(crate::proofs::Ends::ascii_in))]
fn is_in(class: Class, b: u8) -> bool
    ensures value { result ≡ spec.is_in class b }
    ensures ascii { result ≡ true → b < 128 }
{
    match class {
        Class::Blank => b == b' ' || b == b'\t' || b == b'\r' || b == b'\n',
        Class::Digit => b.is_ascii_digit(),
        Class::Word => b.is_ascii_alphanumeric() || b == b'_' || b == b'$',
    }
}

fn byte(z: &[u8], at: usize) -> u8
    ensures value { result ≡ slice_index z.now at }
    ensures within { result ≢ 0 → at < length z.now }
{
    if at < z.len() { z[at] } else { 0 }
}

fn run(class: Class, z: &[u8]) -> usize
    ensures value { result ≡ prefix_len (spec.is_in class) z.now }
    ensures within { result ≤ length z.now }
    ensures some { 0 < length z.now → spec.is_in class (slice_index z.now 0) ≡ true → 0 < result }
    ensures last { 0 < result → slice_index z.now (result - 1) < 128 }
{
    let mut end = 0;
    while end < z.len() && is_in(class, z[end]) {
        end += 1;
    }
    end
}
