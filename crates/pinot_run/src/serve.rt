//! A file of lines on cursors: each is answered over what is kept from line to line.
ghost use Rattle.std.specs.Prelude.{◌≡◌, ◌<◌, ◌≤◌, ◌^◌, Ok, MatchResult, length};
ghost use Rattle.std.specs.Str.Lines.{lines};
ghost use Rattle.outside.specs.Seen.{Heard, Seen, heard, seen};
ghost use Rattle.command_words.specs.ServeLine.{serve_line_of};
ghost use Rattle.command_model.specs.Profile.{script_limit};
ghost use Rattle.command_model.specs.World.{beside, devices, world};
ghost use Rattle.serve_lines.specs.Calls.{AnswersLine};
ghost use Rattle.serve_lines.specs.Kept.{IsSession, kept_of};
ghost use Rattle.pinot_run.specs.Serve.{EndsAll, EndsHere, LeadsOn, RunsNumbered, RunsServe, ServesLine, ServesLines, aside};
ghost use Rattle.pinot_run.specs.Text.{words_of};

use crate::finish::{give_note, give_text, note_fault, status_of_fault};
use crate::script::{give_mark, is_fault, words_in};
use command_words::{Status, Stop};
use commands::script::open_script;
use outside::{Bytes, Depot, Shelf, Sink};
use serve_lines::{Session, answer_line, begin, count_line, finish};
use std::alloc::Global;

/// Runs the lines of a file, one after another, and gives a mark after each. At the end each cursor
/// is closed.
pub(crate) fn run_serve<I: Shelf, D: Depot, O: Sink, N: Sink>(
    alloc: Global,
    file: &str,
    inputs: &mut I,
    depot: &mut D,
    out: &mut O,
    notes: &mut N,
) -> Status
    ensures { RunsServe file.now
        (world I.Shelf D.Shelf O.Sink N.Sink inputs.old depot.old out.old notes.old) result
        (world I.Shelf D.Shelf O.Sink N.Sink inputs.new depot.new out.new notes.new) }
{
    match open_script(alloc, file, inputs) {
        Ok(text) => serve_text(alloc, text.as_str(), inputs, depot, out, notes),
        Err(Stop::Refused(note)) => give_note(alloc, &note, notes),
        Err(Stop::Fault(fault)) => note_fault(status_of_fault(fault), notes),
    }
}

// Begins, runs the lines of a text, and closes what they left open.
fn serve_text<I: Shelf, D: Depot, O: Sink, N: Sink>(
    alloc: Global,
    text: &str,
    inputs: &mut I,
    depot: &mut D,
    out: &mut O,
    notes: &mut N,
) -> Status
    requires { length text.now ≤ script_limit }
    ensures { ServesLines (lines text.now)
        (world I.Shelf D.Shelf O.Sink N.Sink inputs.old depot.old out.old notes.old) result
        (world I.Shelf D.Shelf O.Sink N.Sink inputs.new depot.new out.new notes.new) }
{
    let mut session = match begin(alloc, depot) {
        Ok(session) => session,
        Err(fault) => return note_fault(status_of_fault(fault), notes),
    };
    match serve_lines(alloc, text, &mut session, inputs, depot, out, notes) {
        Ok(()) => end(alloc, &mut session, depot, notes),
        Err(ended) => ended,
    }
}

// Closes each cursor that is open.
fn end<D: Depot, N: Sink>(
    alloc: Global,
    session: &mut Session,
    depot: &mut D,
    notes: &mut N,
) -> Status
    requires { IsSession session.old }
    ensures { (inputs : Seen) (out : Heard) → EndsAll (Ok tt)
        (aside (kept_of session.old) inputs (seen D.Shelf depot.old) out (heard N.Sink notes.old))
        result
        (aside tt inputs (seen D.Shelf depot.new) out (heard N.Sink notes.new)) }
{
    match finish(alloc, session, depot) {
        Ok(()) => Status::Done,
        Err(fault) => note_fault(status_of_fault(fault), notes),
    }
}

// Runs the lines of a text, up to a fault or to the end.
fn serve_lines<I: Shelf, D: Depot, O: Sink, N: Sink>(
    alloc: Global,
    text: &str,
    session: &mut Session,
    inputs: &mut I,
    depot: &mut D,
    out: &mut O,
    notes: &mut N,
) -> Result<(), Status>
    requires session { IsSession session.old }
    requires short { length text.now ≤ script_limit }
    ensures lines { RunsNumbered ServesLine 1 (lines text.now)
        (beside (kept_of session.old)
        (world I.Shelf D.Shelf O.Sink N.Sink inputs.old depot.old out.old notes.old)) result
        (beside (kept_of session.new)
        (world I.Shelf D.Shelf O.Sink N.Sink inputs.new depot.new out.new notes.new)) }
    ensures session { IsSession session.new }
{
    let mut count: u32 = 0;
    'lines: for line in text.lines() {
        let Some(number) = count_line(&mut count, line) else {
            continue;
        };
        match serve_line(alloc, number, line, session, inputs, depot, out, notes) {
            Ok(()) => {}
            Err(ended) => return Err(ended),
        }
    }
    Ok(())
}

// Runs a line and gives its mark; or it is the last, and this is how the lines end.
fn serve_line<I: Shelf, D: Depot, O: Sink, N: Sink>(
    alloc: Global,
    number: u32,
    line: &str,
    session: &mut Session,
    inputs: &mut I,
    depot: &mut D,
    out: &mut O,
    notes: &mut N,
) -> Result<(), Status>
    requires session { IsSession session.old }
    requires small { number < 2 ^ 32 }
    ensures line { MatchResult result
        (λ _. LeadsOn ServesLine number line.now
        (beside (kept_of session.old)
        (world I.Shelf D.Shelf O.Sink N.Sink inputs.old depot.old out.old notes.old))
        (beside (kept_of session.new)
        (world I.Shelf D.Shelf O.Sink N.Sink inputs.new depot.new out.new notes.new)))
        (λ ended. EndsHere ServesLine number line.now
        (beside (kept_of session.old)
        (world I.Shelf D.Shelf O.Sink N.Sink inputs.old depot.old out.old notes.old)) ended
        (beside (kept_of session.new)
        (world I.Shelf D.Shelf O.Sink N.Sink inputs.new depot.new out.new notes.new))) }
    ensures session { IsSession session.new }
{
    let said = give_line(alloc, number, line, session, inputs, depot, out, notes);
    if is_fault(said) {
        return Err(said);
    }
    give_mark(said, out, notes)
}

// Answers a line and gives what is answered.
fn give_line<I: Shelf, D: Depot, O: Sink, N: Sink>(
    alloc: Global,
    number: u32,
    line: &str,
    session: &mut Session,
    inputs: &mut I,
    depot: &mut D,
    out: &mut O,
    notes: &mut N,
) -> Status
    requires session { IsSession session.old }
    requires small { number < 2 ^ 32 }
    ensures line { ServesLine number line.now
        (beside (kept_of session.old)
        (world I.Shelf D.Shelf O.Sink N.Sink inputs.old depot.old out.old notes.old)) result
        (beside (kept_of session.new)
        (world I.Shelf D.Shelf O.Sink N.Sink inputs.new depot.new out.new notes.new)) }
    ensures session { IsSession session.new }
{
    match reply_to_line(alloc, number, line, session, inputs, depot) {
        Ok(text) => give_text(&text, out, notes),
        Err(Stop::Refused(note)) => give_note(alloc, &note, notes),
        Err(Stop::Fault(fault)) => note_fault(status_of_fault(fault), notes),
    }
}

// The reply to a line.
fn reply_to_line<I: Shelf, D: Depot>(
    alloc: Global,
    number: u32,
    line: &str,
    session: &mut Session,
    inputs: &mut I,
    depot: &mut D,
) -> Result<Bytes, Stop>
    requires session { IsSession session.old }
    requires small { number < 2 ^ 32 }
    ensures answers { AnswersLine number (serve_line_of (words_of line.now))
        (devices I.Shelf D.Shelf inputs.old depot.old)
        (devices I.Shelf D.Shelf inputs.new depot.new)
        (kept_of session.old) (kept_of session.new) result }
    ensures session { IsSession session.new }
{
    let words = words_in(alloc, line)?;
    answer_line(alloc, number, words.as_slice(), session, inputs, depot)
}
