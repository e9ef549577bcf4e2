//! Texts on one line: `\n`, `\r`, `\t`, `\\` and `\xHH` are bytes.

use std::alloc::Global;
use std::fmt::Write;

// Where the reading of a text is: in a backslash's word, or outside of one.
#[derive(Clone, Copy)]
enum Escape {
    Outside,
    Backslash,
    FirstDigit,
    SecondDigit(u8),
}

fn hex_digit(c: u8) -> u8 {
    match c {
        b'0'..=b'9' => c - b'0',
        b'a'..=b'f' => c - b'a' + 10,
        _ => 0,
    }
}

fn plain_escape(c: u8) -> u8 {
    match c {
        b'n' => b'\n',
        b'r' => b'\r',
        b't' => b'\t',
        _ => c,
    }
}

// Adds a byte. Without memory it is left out.
fn push(bytes: &mut Vec<u8>, c: u8) {
    let _pushed = bytes.push(c);
}

// Reads the next byte of a text.
fn read(bytes: &mut Vec<u8>, escape: Escape, c: u8) -> Escape {
    match escape {
        Escape::Outside if c == b'\\' => return Escape::Backslash,
        Escape::Backslash if c == b'x' => return Escape::FirstDigit,
        Escape::FirstDigit => return Escape::SecondDigit(hex_digit(c)),
        Escape::Outside => push(bytes, c),
        Escape::Backslash => push(bytes, plain_escape(c)),
        Escape::SecondDigit(high) => push(bytes, (high % 16) * 16 + hex_digit(c) % 16),
    }
    Escape::Outside
}

/// The bytes that a text on one line spells.
pub fn unescaped(alloc: Global, text: &str) -> Vec<u8> {
    let mut bytes = Vec::new(alloc);
    let mut escape = Escape::Outside;
    for c in text.as_bytes() {
        escape = read(&mut bytes, escape, *c);
    }
    bytes
}

// Adds a character, or what is written for it.
fn push_shown(line: &mut String, c: char) {
    let _pushed = match c {
        '\n' => line.push_str("\\n"),
        '\r' => line.push_str("\\r"),
        _ if c < ' ' => write!(line, "\\x{:02x}", c as u32),
        _ => line.push(c),
    };
}

/// A text with its line ends spelled, and each other byte below a blank as `\xHH`.
pub fn on_one_line(alloc: Global, text: &str) -> String {
    let mut line = String::new(alloc);
    for c in text.chars() {
        push_shown(&mut line, c);
    }
    line
}
