//! A text that is put together piece by piece, and the parts of one.

use std::alloc::Global;
use std::cell::Cell;
use std::fmt::{Debug, Write};
use values::Value;

/// What is written so far. All that write to it share it, so that it need not be lent anew for each
/// piece. Without memory a piece is left out, and the case that it belongs to is wrong.
#[derive(Drop)]
pub struct Text {
    alloc: Global,
    written: Cell<String>,
}

impl Text {
    pub fn new(alloc: Global) -> Text {
        Text {
            alloc,
            written: Cell::new(String::new(alloc)),
        }
    }

    /// Takes what is written, and begins anew.
    pub fn take(&self) -> String {
        self.written.replace(String::new(self.alloc))
    }

    pub fn add(&self, piece: &str) {
        let mut written = self.take();
        let _added = written.push_str(piece);
        self.written.set(written);
    }

    pub fn add_number(&self, number: i64) {
        let mut written = self.take();
        let _added = write!(written, "{number}");
        self.written.set(written);
    }

    pub fn add_count(&self, count: u64) {
        let mut written = self.take();
        let _added = write!(written, "{count}");
        self.written.set(written);
    }

    pub fn add_debug<T: Debug>(&self, shown: &T) {
        let mut written = self.take();
        let _added = write!(written, "{shown:?}");
        self.written.set(written);
    }

    /// Adds a number, or a text between two marks.
    pub fn add_value(&self, value: &Value, (before, after): (&str, &str)) {
        match value {
            Value::Whole(number) => self.add_number(*number),
            Value::Text(text) => {
                self.add(before);
                self.add(text.as_str());
                self.add(after);
            }
        }
    }

    /// Adds the byte where something is.
    pub fn add_place(&self, place: u32) {
        self.add("@");
        self.add_count(u64::from(place));
    }

    pub fn into_string(self) -> String {
        self.written.into_inner()
    }
}

/// A text of its own. Without memory it is empty.
pub fn string(alloc: Global, text: &str) -> String {
    String::from_str(alloc, text).unwrap_or(String::new(alloc))
}

/// A text up to where it is first parted, and what is after that.
pub fn parted(text: &str, at: char) -> (&str, &str) {
    text.split_once(at).unwrap_or((text, ""))
}

/// The number that a text spells, or none.
pub fn number(text: &str) -> u32 {
    text.parse::<u32>().unwrap_or(0)
}

/// What a word stands for, if it is on the list.
pub fn meaning<T: Copy>(words: &[(&str, T)], word: &str) -> Option<T> {
    for (other, meaning) in words {
        if *other == word {
            return Some(*meaning);
        }
    }
    None
}
