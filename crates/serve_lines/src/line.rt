//! What a line of `serve` answers.
ghost use Rattle.std.specs.Prelude.{◌≡◌, ◌<◌, ◌^◌, Some, IfSome, map, string_bytes};
ghost use Rattle.command_words.specs.ServeLine.{serve_line_of};
ghost use Rattle.command_words.specs.ServeView.{IsNamedLine, line_view};
ghost use Rattle.command_model.specs.World.{devices};
ghost use Rattle.serve_lines.specs.Calls.{AnswersLine, AnswersOver};
ghost use Rattle.serve_lines.specs.Step as spec;
ghost use Rattle.serve_lines.specs.Kept.{AreOver, IsSession, cursors_of, kept_of};

use crate::cursor::{close_over, fetch_over, open_over, step_over};
use crate::rows::{drop_over, replace_over};
use crate::session::{Session, find_table};
use crate::stop::no_cursor;
use command_words::{Note, ServeLine, Stop, read_serve_line};
use commands::build::build;
use outside::{Bytes, Depot, Shelf};
use serving::Serving;
use std::alloc::Global;
use table_schema::Table;

/// The reply to the words of the line of this number, and what they do to the cursors and to the
/// store, before anything is written on a stream.
pub fn answer_line<I: Shelf, D: Depot>(
    alloc: Global,
    number: u32,
    words: &[String],
    session: &mut Session,
    inputs: &mut I,
    depot: &mut D,
) -> Result<Bytes, Stop>
    requires session { IsSession session.old }
    requires small { number < 2 ^ 32 }
    ensures answers { AnswersLine number (serve_line_of (map string_bytes words.now))
        (devices I.Shelf D.Shelf inputs.old depot.old)
        (devices I.Shelf D.Shelf inputs.new depot.new)
        (kept_of session.old) (kept_of session.new) result }
    ensures session { IsSession session.new }
{
    match read_serve_line(words) {
        Some(line) => answer_asked(alloc, number, line, session, inputs, depot),
        None => Err(Stop::Refused(Note::BadWords)),
    }
}

// The reply to a line. Where no line has looked for the table, no cursor is open.
fn answer_asked<I: Shelf, D: Depot>(
    alloc: Global,
    number: u32,
    line: ServeLine<'_>,
    session: &mut Session,
    inputs: &mut I,
    depot: &mut D,
) -> Result<Bytes, Stop>
    requires session { IsSession session.old }
    requires small { number < 2 ^ 32 }
    requires named { IsNamedLine line }
    ensures answers { AnswersLine number (Some (line_view line.entry))
        (devices I.Shelf D.Shelf inputs.old depot.old)
        (devices I.Shelf D.Shelf inputs.new depot.new)
        (kept_of session.old) (kept_of session.new) result }
    ensures session { IsSession session.new }
{
    if session.table.is_none() && is_on_cursor(line) {
        return Err(no_cursor(alloc, name_in(line)));
    }
    find_table(alloc, &mut session.table, depot)?;
    match &session.table {
        Some(table) => {
            answer_over(
                alloc,
                number,
                line,
                table,
                &mut session.serving,
                inputs,
                depot,
            )
        }
        None => unreachable!(),
    }
}

// Whether a line is on a cursor that is open.
fn is_on_cursor(line: ServeLine<'_>) -> bool
    ensures { result ≡ spec.is_on_cursor (line_view line.entry) }
{
    matches!(
        line,
        ServeLine::Step(_) | ServeLine::Fetch(_) | ServeLine::Close(_)
    )
}

// The name of the cursor or of the segment that a line is on.
fn name_in(line: ServeLine<'_>) -> &str
    ensures { result.now ≡ spec.name_in (line_view line.entry) }
{
    match line {
        ServeLine::Open(name, _)
        | ServeLine::Step(name)
        | ServeLine::Fetch(name)
        | ServeLine::Close(name)
        | ServeLine::Build(name, _)
        | ServeLine::Drop(name)
        | ServeLine::Replace(name, _) => name,
    }
}

// The reply to a line over the store's table.
fn answer_over<I: Shelf, D: Depot>(
    alloc: Global,
    number: u32,
    line: ServeLine<'_>,
    table: &Table,
    serving: &mut Serving,
    inputs: &mut I,
    depot: &mut D,
) -> Result<Bytes, Stop>
    requires over { AreOver table.now serving.old }
    requires small { number < 2 ^ 32 }
    requires named { IsNamedLine line }
    ensures answers { AnswersOver number (line_view line.entry) table.now
        (devices I.Shelf D.Shelf inputs.old depot.old)
        (devices I.Shelf D.Shelf inputs.new depot.new)
        (cursors_of serving.old) (cursors_of serving.new) result }
    ensures over { AreOver table.now serving.new }
{
    match line {
        ServeLine::Open(cursor, sql) => open_over(alloc, cursor, sql, table, serving, depot),
        ServeLine::Step(cursor) => step_over(alloc, cursor, table, serving, depot),
        ServeLine::Fetch(cursor) => fetch_over(alloc, cursor, table, serving, depot),
        ServeLine::Close(cursor) => close_over(alloc, cursor, table, serving, depot),
        ServeLine::Build(name, csv) => build(alloc, name, csv, inputs, depot),
        ServeLine::Drop(name) => drop_over(alloc, number, name, table, serving, depot),
        ServeLine::Replace(name, csv) => {
            replace_over(alloc, number, name, csv, table, serving, inputs, depot)
        }
    }
}
