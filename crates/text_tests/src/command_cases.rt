//! Cases of commands: what has to come, the calls that fail, and the words, with bars between them.
//!
//! `file NAME TEXT`, `ones NAME COUNT` and `numbers NAME COUNT` give a file to be read by the
//! commands after it, that text, a column of so many ones, or one of the numbers from 1 on;
//! `multiples NAME FIRST COUNT` gives one of five columns, the numbers from FIRST on, their double,
//! and so on up to their fivefold; `texts NAME FIRST COUNT` gives one of two columns, the numbers
//! from FIRST on and each as a text after a `t`; `padded NAME COUNT TEXT` gives that text and so
//! many blanks; `stored NAME TEXT` gives a published file of the store, and `segments COUNT` so
//! many with names of segments' files, from `g1.seg` on. The calls that fail are `DEVICE:NUMBER`,
//! with blanks between them, or `DEVICE:NUMBER..` for all from one on. In their place `then` keeps
//! the devices of the command before, `again` keeps the published files alone, as after a restart,
//! with calls that fail after it, if any, and `long` says of every input file that it is too long.
//! `length 0`, `length + 1` and `length - 1` say something false of the length of every input file,
//! the same with `stored` of that of every published file, and with `segments` of those with names
//! of segments. A word `pad COUNT TEXT` is the text with so many bytes, by blanks at its end.
//!
//! The word `open?` opens the table, `file?` shows its file, and `names` the names of the published
//! files. `noted FILE` serves a file with such names after each mark, and `cut DEVICE FILE` serves
//! it over and over, with each call of that device failing, or each from one on with `DEVICE..`.

use crate::cases::Report;
use crate::counting::Span;
use crate::devices::{Devices, Files};
use crate::escapes::unescaped;
use crate::noting::Noted;
use crate::stops::Cuts;
use crate::text::{Text, meaning, number, parted, string};
use outside::{Name, Seq};
use std::alloc::Global;
use std::mem;

// What a line gives that is no case.
#[derive(Clone, Copy)]
enum Gift {
    File,
    Stored,
    Ones,
    Numbers,
    Multiples,
    Padded,
    Texts,
    Segments,
    Span,
}

const GIFTS: &[(&str, Gift)] = &[
    ("file", Gift::File),
    ("stored", Gift::Stored),
    ("ones", Gift::Ones),
    ("numbers", Gift::Numbers),
    ("multiples", Gift::Multiples),
    ("padded", Gift::Padded),
    ("texts", Gift::Texts),
    ("segments", Gift::Segments),
    ("span", Gift::Span),
];

// What is asked of the devices by a word that is no command.
#[derive(Clone, Copy)]
enum Question {
    Open,
    File,
    Reads,
    Names,
    Noted,
    Cut,
}

const QUESTIONS: &[(&str, Question)] = &[
    ("open?", Question::Open),
    ("file?", Question::File),
    ("reads", Question::Reads),
    ("names", Question::Names),
    ("noted", Question::Noted),
    ("cut", Question::Cut),
];

// A column `k` of so many ones.
fn ones(alloc: Global, count: u32) -> Vec<u8> {
    let text = Text::new(alloc);
    text.add("k\n");
    for _ in 0..count {
        text.add("1\n");
    }
    text.into_string().into_bytes()
}

// A column `k` of the numbers from 1 on.
fn numbers(alloc: Global, count: u32) -> Vec<u8> {
    let text = Text::new(alloc);
    text.add("k\n");
    for at in 0..count {
        text.add_count(u64::from(at) + 1);
        text.add("\n");
    }
    text.into_string().into_bytes()
}

// A row of a number and its multiples.
fn add_multiples(text: &Text, key: u64) {
    text.add_count(key);
    for times in 2..6u64 {
        text.add(",");
        text.add_count(key.saturating_mul(times));
    }
    text.add("\n");
}

// Columns `k`, `a`, `b`, `c` and `d`: numbers from one on, their double, and so on.
fn multiples(alloc: Global, first: u32, count: u32) -> Vec<u8> {
    let text = Text::new(alloc);
    text.add("k,a,b,c,d\n");
    for at in 0..count {
        add_multiples(&text, u64::from(first) + u64::from(at));
    }
    text.into_string().into_bytes()
}

// A text and so many blanks after it.
fn with_blanks(alloc: Global, text: &str, count: u32) -> Vec<u8> {
    let mut bytes = unescaped(alloc, text);
    for _ in 0..count {
        let _pushed = bytes.push(b' ');
    }
    bytes
}

// A row of a number as a text, and the number.
fn add_spelled(text: &Text, key: u64) {
    text.add("t");
    text.add_count(key);
    text.add(",");
    text.add_count(key);
    text.add("\n");
}

// Columns `k` and `a`: numbers from one on as texts, and as numbers.
fn texts(alloc: Global, first: u32, count: u32) -> Vec<u8> {
    let text = Text::new(alloc);
    text.add("k,a\n");
    for at in 0..count {
        add_spelled(&text, u64::from(first) + u64::from(at));
    }
    text.into_string().into_bytes()
}

// The text of a word, with blanks at its end until it has so many bytes.
fn padded(alloc: Global, text: &str, size: u32) -> String {
    let mut word = string(alloc, text);
    for _ in word.len()..size as usize {
        let _pushed = word.push(' ');
    }
    word
}

fn word(alloc: Global, text: &str) -> String {
    match text.strip_prefix("pad ") {
        Some(rest) => {
            let (size, text) = parted(rest, ' ');
            padded(alloc, text, number(size))
        }
        None => string(alloc, text),
    }
}

fn words_of(alloc: Global, text: &str) -> Vec<String> {
    let mut words = Vec::new(alloc);
    if !text.is_empty() {
        for part in text.split('|') {
            let _pushed = words.push(word(alloc, part));
        }
    }
    words
}

/// The words `serve FILE`.
pub fn serve_words(alloc: Global, file: &str) -> Vec<String> {
    let mut words = Vec::new(alloc);
    let _verb = words.push(string(alloc, "serve"));
    let _file = words.push(string(alloc, file));
    words
}

fn add_file(alloc: Global, files: &mut Files, name: &str, bytes: Vec<u8>) {
    let name = Name::from_text(alloc, name).unwrap_or(Name::new(alloc));
    let _added = files.push((name, Seq::from_vec(bytes)));
}

/// Copies of files.
pub fn copies(alloc: Global, files: &Files) -> Files {
    let mut all = Seq::new(alloc);
    for (name, bytes) in files.as_slice() {
        let bytes = bytes.as_slice().to_vec(alloc).unwrap_or(Vec::new(alloc));
        add_file(alloc, &mut all, name.as_str(), bytes);
    }
    all
}

// The bytes of a file that a line gives: a label, the file's name, and from where up to where.
fn span(alloc: Global, label: &str, text: &str) -> Span {
    let (file, rest) = parted(text, ' ');
    let (from, to) = parted(rest, ' ');
    let ends = (u64::from(number(from)), u64::from(number(to)));
    Span::new(alloc, label, file, ends)
}

/// The files of the commands to come, and who is told of the names of those that are published.
#[derive(Drop)]
pub struct Given<'a> {
    files: Files,
    stored: Files,
    spans: Vec<Span>,
    noted: &'a Noted,
}

impl<'a> Given<'a> {
    fn new(alloc: Global, noted: &'a Noted) -> Given<'a> {
        Given {
            files: Seq::new(alloc),
            stored: Seq::new(alloc),
            spans: Vec::new(alloc),
            noted,
        }
    }

    // Adds what a line gives, after its first word.
    fn add(&mut self, alloc: Global, gift: Gift, text: &str) {
        let (name, rest) = parted(text, ' ');
        match gift {
            Gift::File => add_file(alloc, &mut self.files, name, unescaped(alloc, rest)),
            Gift::Stored => add_file(alloc, &mut self.stored, name, unescaped(alloc, rest)),
            Gift::Ones => add_file(alloc, &mut self.files, name, ones(alloc, number(rest))),
            Gift::Numbers => add_file(alloc, &mut self.files, name, numbers(alloc, number(rest))),
            Gift::Multiples => {
                let (first, count) = parted(rest, ' ');
                let rows = multiples(alloc, number(first), number(count));
                add_file(alloc, &mut self.files, name, rows);
            }
            Gift::Padded => {
                let (count, text) = parted(rest, ' ');
                let bytes = with_blanks(alloc, text, number(count));
                add_file(alloc, &mut self.files, name, bytes);
            }
            Gift::Texts => {
                let (first, count) = parted(rest, ' ');
                let rows = texts(alloc, number(first), number(count));
                add_file(alloc, &mut self.files, name, rows);
            }
            Gift::Segments => add_segments(alloc, &mut self.stored, number(name)),
            Gift::Span => {
                let _added = self.spans.push(span(alloc, name, rest));
            }
        }
    }

    // The devices as they are before the commands to come.
    fn devices(&self, alloc: Global, calls: &str) -> Devices<'a> {
        self.devices_over(alloc, copies(alloc, &self.stored), calls)
    }

    /// The devices with these published files.
    pub fn devices_over(&self, alloc: Global, stored: Files, calls: &str) -> Devices<'a> {
        let files = (copies(alloc, &self.files), stored);
        Devices::new(alloc, files, self.spans.as_slice(), calls, self.noted)
    }
}

// Adds a file without bytes that has the name of a segment's file.
fn add_segment(alloc: Global, files: &mut Files, number: u64) {
    let name = Text::new(alloc);
    name.add("g");
    name.add_count(number);
    name.add(".seg");
    let name = name.into_string();
    add_file(alloc, files, name.as_str(), Vec::new(alloc));
    drop(name);
}

fn add_segments(alloc: Global, files: &mut Files, count: u32) {
    for at in 0..count {
        add_segment(alloc, files, u64::from(at) + 1);
    }
}

// Serves a file, with the names of the published files after each mark.
fn serve_noted(alloc: Global, devices: &mut Devices<'_>, file: &str, out: &Text) {
    let words = serve_words(alloc, file);
    devices.run_noted(alloc, words.as_slice(), out);
    drop(words);
}

// The files of the commands to come, and the devices of the last one.
#[derive(Drop)]
struct Run<'a> {
    given: Given<'a>,
    devices: Devices<'a>,
}

impl<'a> Run<'a> {
    fn new(alloc: Global, noted: &'a Noted) -> Run<'a> {
        let given = Given::new(alloc, noted);
        let devices = given.devices(alloc, "");
        Run { given, devices }
    }

    fn renew(&mut self, alloc: Global, calls: &str) {
        let devices = match calls.strip_prefix("again") {
            Some(calls) => {
                let stored = self.devices.published(alloc);
                self.given.devices_over(alloc, stored, calls.trim_start())
            }
            None => self.given.devices(alloc, calls),
        };
        drop(mem::replace(&mut self.devices, devices));
    }

    // Adds what comes of the words of a case.
    fn answer(&mut self, alloc: Global, text: &str, out: &Text) {
        let (word, rest) = parted(text, ' ');
        match meaning(QUESTIONS, word) {
            Some(Question::Open) => self.devices.open(alloc, out),
            Some(Question::File) => self.devices.table_file(alloc, out),
            Some(Question::Reads) => self.devices.reads(rest, out),
            Some(Question::Names) => self.devices.names(alloc, out),
            Some(Question::Noted) => serve_noted(alloc, &mut self.devices, rest, out),
            Some(Question::Cut) => self.cut(alloc, rest, out),
            None => {
                let words = words_of(alloc, text);
                self.devices.run(alloc, words.as_slice(), out);
                drop(words);
            }
        }
    }

    // Serves a file over the published files, cut off at each call of a device in turn.
    fn cut(&self, alloc: Global, text: &str, out: &Text) {
        let (device, file) = parted(text, ' ');
        let stored = self.devices.published(alloc);
        let cuts = Cuts::new(alloc, &self.given, &stored, device, file);
        cuts.run(alloc, out);
        drop(cuts);
        drop(stored);
    }

    fn case(&mut self, alloc: Global, line: &str, report: &Report) {
        let (expected, rest) = parted(line, '|');
        let (calls, words) = parted(rest, '|');
        if calls != "then" {
            self.renew(alloc, calls);
        }
        self.answer(alloc, words, report.found);
        report.end_case(alloc, expected, line);
    }

    // The next line: a comment, a file or a case.
    fn line(&mut self, alloc: Global, line: &str, report: &Report) {
        let (word, rest) = parted(line, ' ');
        if word.starts_with('#') {
            return;
        }
        match meaning(GIFTS, word) {
            Some(gift) => self.given.add(alloc, gift, rest),
            None => self.case(alloc, line, report),
        }
    }
}

/// Runs the cases of a file, in their order.
pub fn run_commands(alloc: Global, file: &str, report: &Report) {
    let noted = Noted::new(alloc);
    let mut run = Run::new(alloc, &noted);
    for line in file.lines() {
        run.line(alloc, line, report);
    }
    drop(run);
    drop(noted);
}
