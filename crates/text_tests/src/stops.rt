//! A file of lines that is served over and over, cut off at each call of a device in turn.

use crate::command_cases::{Given, copies, serve_words};
use crate::devices::{Devices, Files};
use crate::text::{Text, string};
use std::alloc::Global;

// No run makes as many calls of a device.
const MOST_CALLS: u64 = 10_000;

/// What is served: a file over a store, and the device whose calls fail.
#[derive(Drop)]
pub struct Cuts<'a> {
    given: &'a Given<'a>,
    stored: &'a Files,
    device: &'a str,
    words: Vec<String>,
    empty: Vec<String>,
    list: Vec<String>,
}

// What a run shows: the replies of one that a fault ended, and all of another.
fn replies(shown: &str) -> &str {
    let read = shown
        .strip_prefix("15 ")
        .and_then(|rest| rest.strip_suffix("! read fault\n"));
    let written = shown
        .strip_prefix("16 ")
        .and_then(|rest| rest.strip_suffix("! write fault\n"));
    read.or(written).unwrap_or(shown)
}

impl<'a> Cuts<'a> {
    /// A file that is served over these published files. Of the device each call fails in turn, or
    /// each from one on where two points stand after its name.
    pub fn new(
        alloc: Global,
        given: &'a Given<'a>,
        stored: &'a Files,
        device: &'a str,
        file: &str,
    ) -> Cuts<'a> {
        let mut list = Vec::new(alloc);
        let _added = list.push(string(alloc, "list"));
        Cuts {
            given,
            stored,
            device,
            words: serve_words(alloc, file),
            empty: serve_words(alloc, "empty.pinot"),
            list,
        }
    }

    // The devices of a run whose call of that number fails.
    fn devices(&self, alloc: Global, at: u64) -> Devices<'a> {
        let calls = Text::new(alloc);
        calls.add(self.device.trim_end_matches('.'));
        calls.add(":");
        calls.add_count(at);
        calls.add(if self.device.ends_with('.') { ".." } else { "" });
        let calls = calls.into_string();
        let stored = copies(alloc, self.stored);
        let devices = self.given.devices_over(alloc, stored, calls.as_str());
        drop(calls);
        devices
    }

    // Adds what is left in the store after an empty file of lines was served: the names, and what
    // is listed.
    fn show_left(&self, alloc: Global, left: Files, shown: &Text) {
        let mut devices = self.given.devices_over(alloc, left, "");
        devices.run(alloc, self.empty.as_slice(), shown);
        devices.names(alloc, shown);
        shown.add("\n");
        devices.run(alloc, self.list.as_slice(), shown);
        drop(devices);
    }

    // Adds what comes of a run that is cut off there, and says whether it is.
    fn run_at(&self, alloc: Global, at: u64, shown: &Text) -> bool {
        let mut devices = self.devices(alloc, at);
        let all = Text::new(alloc);
        devices.run(alloc, self.words.as_slice(), &all);
        let all = all.into_string();
        let is_cut = !all.starts_with("0 ");
        shown.add(replies(all.as_str()));
        drop(all);
        self.show_left(alloc, devices.published(alloc), shown);
        drop(devices);
        is_cut
    }

    /// Adds what comes of each run, once where one is as that before it.
    pub fn run(&self, alloc: Global, out: &Text) {
        let shown = Text::new(alloc);
        let mut last = String::new(alloc);
        for at in 0..MOST_CALLS {
            let is_cut = self.run_at(alloc, at, &shown);
            let now = shown.take();
            if now.as_str() != last.as_str() {
                out.add(now.as_str());
            }
            last = now;
            if !is_cut {
                break;
            }
        }
        drop(last);
        drop(shown);
    }
}
