//! The names of the published files, noted after each mark of a file of lines.

use crate::text::Text;
use memory_devices::MemorySink;
use outside::{Bytes, Name, Sink, SinkFault};
use std::alloc::Global;
use std::cell::Cell;

/// Adds the names of files, with blanks between them.
pub fn add_names(files: &[(Name, Bytes)], out: &Text) {
    let mut is_first = true;
    for (name, _) in files {
        out.add(if is_first { "" } else { " " });
        out.add(name.as_str());
        is_first = false;
    }
}

/// The names of a store's published files, kept up to date while they are noted.
#[derive(Drop)]
pub struct Noted {
    alloc: Global,
    is_on: Cell<bool>,
    names: Cell<String>,
}

impl Noted {
    pub fn new(alloc: Global) -> Noted {
        Noted {
            alloc,
            is_on: Cell::new(false),
            names: Cell::new(String::new(alloc)),
        }
    }

    pub fn is_on(&self) -> bool {
        self.is_on.get()
    }

    /// Begins with these files.
    pub fn begin(&self, files: &[(Name, Bytes)]) {
        self.is_on.set(true);
        self.set(files);
    }

    pub fn end(&self) {
        self.is_on.set(false);
    }

    // Takes the names. They are to be put back.
    fn take(&self) -> String {
        self.names.replace(String::new(self.alloc))
    }

    /// These are published now.
    pub fn set(&self, files: &[(Name, Bytes)]) {
        let names = Text::new(self.alloc);
        add_names(files, &names);
        names.add("\n");
        self.names.set(names.into_string());
    }
}

/// A sink in memory that has, while names are noted, a line with them after each mark.
#[derive(Drop)]
pub struct NotingSink<'a> {
    sink: MemorySink,
    noted: &'a Noted,
}

impl<'a> NotingSink<'a> {
    pub fn new(sink: MemorySink, noted: &'a Noted) -> NotingSink<'a> {
        NotingSink { sink, noted }
    }

    /// All that was written.
    pub fn bytes(&self) -> &[u8] {
        self.sink.bytes()
    }
}

impl<'a> Sink for NotingSink<'a> {
    ghost use Rattle.std.specs.Prelude.{None};

    ghost written = { λ _. None };

    ghost faults = { λ noting. noting.sink.faults };

    fn put(&mut self, bytes: &[u8]) -> Result<(), SinkFault> {
        self.sink.put(bytes)?;
        if !self.noted.is_on() || !bytes.starts_with(b"[") {
            return Ok(());
        }
        let names = self.noted.take();
        let noted = self.sink.put(names.as_bytes());
        self.noted.names.set(names);
        noted
    }
}
