//! The words of a line of `serve`.
ghost use Rattle.std.specs.Prelude.{◌≡◌, map, option_map, string_bytes, IfSome};
ghost use Rattle.command_words.specs.ServeLine.{serve_line_of};
ghost use Rattle.command_words.specs.ServeView.{IsNamedLine, line_view};

use segment_file::is_segment_name;

/// What the words of a line of `serve` ask for.
#[derive(Clone, Copy)]
pub enum ServeLine<'a> {
    /// A cursor that is to be opened: its name and the query's text.
    Open(&'a str, &'a str),
    /// The next segment of the cursor of this name.
    Step(&'a str),
    /// The answer of the cursor of this name.
    Fetch(&'a str),
    /// The cursor of this name, which is to be closed.
    Close(&'a str),
    /// A segment from a CSV file: its name and the file's.
    Build(&'a str, &'a str),
    /// A segment that is to go: its name.
    Drop(&'a str),
    /// Other rows for a segment: its name and that of their CSV file.
    Replace(&'a str, &'a str),
}

/// What the words of a line of `serve` ask for, if they ask for anything.
pub fn read_serve_line(words: &[String]) -> Option<ServeLine<'_>>
    ensures spelled { option_map line_view result ≡ serve_line_of (map string_bytes words.now) }
    ensures named { IfSome result IsNamedLine }
{
    if let [verb, name] = words {
        if !is_segment_name(name.as_str()) {
            return None;
        }
        if verb.as_str().as_bytes() == b"step".as_slice() {
            return Some(ServeLine::Step(name.as_str()));
        }
        if verb.as_str().as_bytes() == b"fetch".as_slice() {
            return Some(ServeLine::Fetch(name.as_str()));
        }
        if verb.as_str().as_bytes() == b"close".as_slice() {
            return Some(ServeLine::Close(name.as_str()));
        }
        if verb.as_str().as_bytes() == b"drop".as_slice() {
            return Some(ServeLine::Drop(name.as_str()));
        }
    }
    if let [verb, name, text] = words {
        if !is_segment_name(name.as_str()) {
            return None;
        }
        if verb.as_str().as_bytes() == b"open".as_slice() {
            return Some(ServeLine::Open(name.as_str(), text.as_str()));
        }
        if verb.as_str().as_bytes() == b"build".as_slice() {
            return Some(ServeLine::Build(name.as_str(), text.as_str()));
        }
        if verb.as_str().as_bytes() == b"replace".as_slice() {
            return Some(ServeLine::Replace(name.as_str(), text.as_str()));
        }
    }
    None
}
