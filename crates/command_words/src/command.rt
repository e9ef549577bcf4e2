//! The words of a command.
ghost use Rattle.std.specs.Prelude.{◌≡◌, map, option_map, string_bytes, IfSome, MatchOption};
ghost use Rattle.command_words.specs.Command.{call_of, command_of, request_of, may_write, number_after, number_of, rows_asked};
ghost use Rattle.command_words.specs.CommandView.{IsNamed, batch_view, command_view};

use crate::about::About;
use crate::aim::Aim;
use segment_file::is_segment_name;

/// What the words of a command ask for.
#[derive(Clone, Copy)]
pub enum Command<'a> {
    /// A query over a CSV file: the file's name and the query's text.
    Scan(&'a str, &'a str),
    /// A table from two files in JSON: the names of that of the schema and of that of the settings.
    Create(&'a str, &'a str),
    /// A segment from a CSV file: its name and the file's.
    Build(&'a str, &'a str),
    /// A segment that is to go: its name.
    Drop(&'a str),
    /// A segment whose file is to be looked at: what for, and its name.
    Look(Aim, &'a str),
    /// A segment from the file of one: its name and the file's.
    Attach(&'a str, &'a str),
    /// The segments.
    List,
    /// A query's text, and what it is asked for over the segments.
    Ask(About, &'a str),
}

/// The command that these words spell, if they spell one.
pub fn read_command(words: &[String]) -> Option<Command<'_>>
    ensures spelled { option_map command_view result ≡ command_of (map string_bytes words.now) }
    ensures named { IfSome result IsNamed }
{
    if let [verb] = words {
        if verb.as_str().as_bytes() == b"list".as_slice() {
            return Some(Command::List);
        }
    }
    if let [verb, first] = words {
        if verb.as_str().as_bytes() == b"query".as_slice() {
            return Some(Command::Ask(About::Rows, first.as_str()));
        }
        if verb.as_str().as_bytes() == b"explain".as_slice() {
            return Some(Command::Ask(About::Plans, first.as_str()));
        }
        if verb.as_str().as_bytes() == b"stats".as_slice() {
            return Some(Command::Ask(About::RowsAndPlans, first.as_str()));
        }
        if verb.as_str().as_bytes() == b"drop".as_slice() && is_segment_name(first.as_str()) {
            return Some(Command::Drop(first.as_str()));
        }
        if verb.as_str().as_bytes() == b"verify".as_slice() && is_segment_name(first.as_str()) {
            return Some(Command::Look(Aim::Verify, first.as_str()));
        }
        if verb.as_str().as_bytes() == b"dump".as_slice() && is_segment_name(first.as_str()) {
            return Some(Command::Look(Aim::Dump, first.as_str()));
        }
    }
    if let [verb, first, second] = words {
        if verb.as_str().as_bytes() == b"scan".as_slice() {
            return Some(Command::Scan(first.as_str(), second.as_str()));
        }
        if verb.as_str().as_bytes() == b"create".as_slice() {
            return Some(Command::Create(first.as_str(), second.as_str()));
        }
        if verb.as_str().as_bytes() == b"build".as_slice() && is_segment_name(first.as_str()) {
            return Some(Command::Build(first.as_str(), second.as_str()));
        }
        if verb.as_str().as_bytes() == b"attach".as_slice() && is_segment_name(first.as_str()) {
            return Some(Command::Attach(first.as_str(), second.as_str()));
        }
    }
    None
}

/// A file of lines that is to be run.
#[derive(Clone, Copy)]
pub enum Batch<'a> {
    /// Commands: the file's name.
    Script(&'a str),
    /// Lines on cursors: the file's name.
    Serve(&'a str),
}

/// The file of lines that these words name, if they name one.
pub fn batch_asked(words: &[String]) -> Option<Batch<'_>>
    ensures { MatchOption result (call_of (map string_bytes words.now)
        ≡ request_of (map string_bytes words.now))
        (λ batch. call_of (map string_bytes words.now) ≡ batch_view batch) }
{
    if let [verb, file] = words {
        if verb.as_str().as_bytes() == b"script".as_slice() {
            return Some(Batch::Script(file.as_str()));
        }
        if verb.as_str().as_bytes() == b"serve".as_slice() {
            return Some(Batch::Serve(file.as_str()));
        }
    }
    None
}

/// How many rows these words ask to be generated, if they do.
pub fn rows_asked(words: &[String]) -> Option<u32>
    ensures { result ≡ rows_asked (map string_bytes words.now) }
{
    if let [verb, digits] = words {
        if verb.as_str().as_bytes() == b"generate".as_slice() {
            return number_of(digits.as_str().as_bytes());
        }
    }
    None
}

// The number that one to seven digits spell.
fn number_of(digits: &[u8]) -> Option<u32>
    ensures { result ≡ number_of digits.now }
{
    if digits.is_empty() || digits.len() > 7 {
        return None;
    }
    number_after(0, digits)
}

// The number that digits spell after those of this number, of at most seven digits in all.
fn number_after(before: u32, digits: &[u8]) -> Option<u32>
    ensures { result ≡ number_after before digits.now }
{
    match digits {
        [] => Some(before),
        [digit, rest @ ..] => {
            if !digit.is_ascii_digit() || before >= 1_000_000 {
                return None;
            }
            number_after(before * 10 + u32::from(*digit - b'0'), rest)
        }
    }
}

/// Whether what these words ask for may write the store. Words of which it says no leave each store
/// as it is.
pub fn may_write(words: &[String]) -> bool
    ensures { result ≡ may_write (map string_bytes words.now) }
{
    if batch_asked(words).is_some() || rows_asked(words).is_some() {
        return true;
    }
    match read_command(words) {
        Some(
            Command::Create(_, _) | Command::Build(_, _) | Command::Attach(_, _) | Command::Drop(_),
        ) => true,
        Some(Command::Scan(_, _) | Command::Look(_, _) | Command::List | Command::Ask(_, _))
        | None => false,
    }
}
