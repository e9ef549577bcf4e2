//! The top call.
ghost use Rattle.std.specs.Prelude.{◌≡◌, ◌⊎◌, ◌≤◌, false, map, string_bytes};
ghost use Rattle.command_words.specs.Command.{call_of, command_of, request_of};
ghost use Rattle.command_model.specs.Consulted.{AtMostRead};
ghost use Rattle.command_words.specs.Notes.{is_fault};
ghost use Rattle.pinot_run.specs.Promise.{Counted, IsQuiet, IsStep, Leaves, Noted, Promise};
ghost use Rattle.pinot_run.specs.Generate.{Generates, after};
ghost use Rattle.pinot_run.specs.Script.{Does, DoesOne, OfOne, OfRows, OfScript, OfServe, RunsScript};
ghost use Rattle.pinot_run.specs.Serve.{RunsServe};
ghost use Rattle.command_model.specs.Ran.{Ran, WhereStands};
ghost use Rattle.command_model.specs.Step.{HasStep, status_after};
ghost use Rattle.command_model.specs.Touched.{Touched};
ghost use Rattle.outside.specs.Seen.{Seen, heard, seen};
ghost use Rattle.command_model.specs.World.{devices, world};

use crate::finish::{give_note, give_text, note_fault, status_of_fault};
use crate::script::run_script;
use crate::serve::run_serve;
use command_words::{Batch, Command, Note, Status, Stop, batch_asked, read_command, rows_asked};
use commands::attach::attach;
use commands::build::build;
use commands::create::create;
use commands::drop::drop_named;
use commands::generate::generate;
use commands::list::list;
use commands::look::look;
use commands::query::ask;
use commands::scan::scan;
use outside::{Bytes, Depot, Shelf, Sink};
use std::alloc::Global;

/// Runs one command of the store, or a script of them: the words, the folder that input files are
/// read from, the folder that the store is kept in, and the streams for replies and note lines.
///
/// The reply of a command is made whole before the store is written and before anything is put on a
/// stream, and no memory is taken after the store was written. The note line, one for every status
/// but `Done`, is written last. After the reply of each line of a script comes its mark.
pub fn run_command<I: Shelf, D: Depot, O: Sink, N: Sink>(
    alloc: Global,
    words: &[String],
    inputs: &mut I,
    depot: &mut D,
    out: &mut O,
    notes: &mut N,
) -> Status
    // Where no device failed and there was memory, the command did what its step says.
    ensures step { OfOne (call_of (map string_bytes words.now)) (λ command. is_fault result ≡ false
        → WhereStands (I.held inputs.old) (D.held depot.old) (λ state files.
        HasStep state command files (λ after. IsStep after result
        (world I.Shelf D.Shelf O.Sink N.Sink inputs.old depot.old out.old notes.old)
        (world I.Shelf D.Shelf O.Sink N.Sink inputs.new depot.new out.new notes.new)))) }

    // What is left after each status, over any store, with the cause of each refusal and of each
    // fault.
    ensures leaves { OfOne (call_of (map string_bytes words.now)) (λ command. Leaves command
        (world I.Shelf D.Shelf O.Sink N.Sink inputs.old depot.old out.old notes.old) result
        (world I.Shelf D.Shelf O.Sink N.Sink inputs.new depot.new out.new notes.new)) }

    // It did so wherever no device failed, unless memory ran out.
    ensures complete { OfOne (call_of (map string_bytes words.now)) (λ command. IsQuiet
        (world I.Shelf D.Shelf O.Sink N.Sink inputs.old depot.old out.old notes.old)
        (world I.Shelf D.Shelf O.Sink N.Sink inputs.new depot.new out.new notes.new)
        → WhereStands (I.held inputs.old) (D.held depot.old) (λ state files.
        HasStep state command files (λ after. result ≡ status_after after.answer)
        ⊎ (result ≡ Status.NoMemory))) }

    // The notes grow by the line of the status, or by a part of one line where they fail.
    ensures notes { OfOne (call_of (map string_bytes words.now)) (λ command.
        Noted result (heard N.Sink notes.old) (heard N.Sink notes.new)) }
    // A count of faults rose only where a call that it counts failed.
    ensures counted { OfOne (call_of (map string_bytes words.now)) (λ command. Counted result
        (world I.Shelf D.Shelf O.Sink N.Sink inputs.old depot.old out.old notes.old)
        (world I.Shelf D.Shelf O.Sink N.Sink inputs.new depot.new out.new notes.new)) }

    // What is read and changed on the devices is what the words name.
    ensures touched { OfOne (call_of (map string_bytes words.now)) (λ command. Touched command
        (devices I.Shelf D.Shelf inputs.old depot.old)
        (devices I.Shelf D.Shelf inputs.new depot.new)) }

    // Of each segment no more is read than the plan of its rows says, whatever the status is; for a
    // text that is no query over the table nothing, for `explain` and `list` no byte past its head,
    // and for `verify` and `dump` nothing where there is none of its name.
    ensures reads { OfOne (call_of (map string_bytes words.now)) (λ command. AtMostRead command
        (devices I.Shelf D.Shelf inputs.old depot.old)
        (devices I.Shelf D.Shelf inputs.new depot.new)) }

    // A script is opened, and each of its lines is a command, up to a fault or to the end.
    ensures script { OfScript (call_of (map string_bytes words.now)) (λ file.
        RunsScript Promise file
        (world I.Shelf D.Shelf O.Sink N.Sink inputs.old depot.old out.old notes.old) result
        (world I.Shelf D.Shelf O.Sink N.Sink inputs.new depot.new out.new notes.new)) }

    // The lines of a file are served, up to a fault or to the end.
    ensures serve { OfServe (call_of (map string_bytes words.now)) (λ file. RunsServe file
        (world I.Shelf D.Shelf O.Sink N.Sink inputs.old depot.old out.old notes.old) result
        (world I.Shelf D.Shelf O.Sink N.Sink inputs.new depot.new out.new notes.new)) }

    // Rows are generated by commands one after another, up to the first that is not done.
    ensures generates { OfRows (call_of (map string_bytes words.now)) (λ rows.
        Generates Promise rows
        (world I.Shelf D.Shelf O.Sink N.Sink inputs.old depot.old out.old notes.old) result
        (world I.Shelf D.Shelf O.Sink N.Sink inputs.new depot.new out.new notes.new)) }
{
    run_call(alloc, words, inputs, depot, out, notes)
}

// Does what the words ask for.
fn run_call<I: Shelf, D: Depot, O: Sink, N: Sink>(
    alloc: Global,
    words: &[String],
    inputs: &mut I,
    depot: &mut D,
    out: &mut O,
    notes: &mut N,
) -> Status
    ensures { Does Promise RunsServe (call_of (map string_bytes words.now))
        (world I.Shelf D.Shelf O.Sink N.Sink inputs.old depot.old out.old notes.old) result
        (world I.Shelf D.Shelf O.Sink N.Sink inputs.new depot.new out.new notes.new) }
{
    match batch_asked(words) {
        Some(Batch::Script(file)) => run_script(alloc, file, inputs, depot, out, notes),
        Some(Batch::Serve(file)) => run_serve(alloc, file, inputs, depot, out, notes),
        None => run_one(alloc, words, inputs, depot, out, notes),
    }
}

/// Does what words ask for that name no file of lines, as a line of a script.
pub(crate) fn run_one<I: Shelf, D: Depot, O: Sink, N: Sink>(
    alloc: Global,
    words: &[String],
    inputs: &mut I,
    depot: &mut D,
    out: &mut O,
    notes: &mut N,
) -> Status
    ensures { DoesOne Promise (request_of (map string_bytes words.now))
        (world I.Shelf D.Shelf O.Sink N.Sink inputs.old depot.old out.old notes.old) result
        (world I.Shelf D.Shelf O.Sink N.Sink inputs.new depot.new out.new notes.new) }
{
    match rows_asked(words) {
        Some(rows) => run_generate(alloc, rows, depot, out, notes),
        None => run(alloc, words, inputs, depot, out, notes),
    }
}

// Generates so many rows, and gives their line.
fn run_generate<D: Depot, O: Sink, N: Sink>(
    alloc: Global,
    rows: u32,
    depot: &mut D,
    out: &mut O,
    notes: &mut N,
) -> Status
    ensures { (inputs : Seen) → Generates Promise rows
        (after (record { inputs = inputs; depot = seen D.Shelf depot.old })
        (heard O.Sink out.old) (heard N.Sink notes.old)) result
        (after (record { inputs = inputs; depot = seen D.Shelf depot.new })
        (heard O.Sink out.new) (heard N.Sink notes.new)) }
{
    match generate(alloc, rows, depot) {
        Ok(text) => give_text(&text, out, notes),
        Err(Stop::Refused(note)) => give_note(alloc, &note, notes),
        Err(Stop::Fault(fault)) => note_fault(status_of_fault(fault), notes),
    }
}

// The reply to the words of a command, and what they do to the store, before anything is written on
// a stream.
fn reply_to<I: Shelf, D: Depot>(
    alloc: Global,
    words: &[String],
    inputs: &mut I,
    depot: &mut D,
) -> Result<Bytes, Stop>
    ensures { Ran (command_of (map string_bytes words.now))
        (devices I.Shelf D.Shelf inputs.old depot.old)
        (devices I.Shelf D.Shelf inputs.new depot.new) result }
{
    match read_command(words) {
        Some(Command::Scan(file, sql)) => scan(alloc, file, sql, inputs),
        Some(Command::Create(schema, settings)) => create(alloc, schema, settings, inputs, depot),
        Some(Command::Build(name, csv)) => build(alloc, name, csv, inputs, depot),
        Some(Command::Attach(name, file)) => attach(alloc, name, file, inputs, depot),
        Some(Command::Drop(name)) => drop_named(alloc, name, depot),
        Some(Command::Look(aim, name)) => look(alloc, aim, name, depot),
        Some(Command::List) => list(alloc, depot),
        Some(Command::Ask(about, sql)) => ask(alloc, about, sql, depot),
        None => Err(Stop::Refused(Note::BadWords)),
    }
}

// Runs a command, and gives its reply.
fn run<I: Shelf, D: Depot, O: Sink, N: Sink>(
    alloc: Global,
    words: &[String],
    inputs: &mut I,
    depot: &mut D,
    out: &mut O,
    notes: &mut N,
) -> Status
    ensures { Promise (command_of (map string_bytes words.now))
        (world I.Shelf D.Shelf O.Sink N.Sink inputs.old depot.old out.old notes.old) result
        (world I.Shelf D.Shelf O.Sink N.Sink inputs.new depot.new out.new notes.new) }
{
    match reply_to(alloc, words, inputs, depot) {
        Ok(text) => give_text(&text, out, notes),
        Err(Stop::Refused(note)) => give_note(alloc, &note, notes),
        Err(Stop::Fault(fault)) => note_fault(status_of_fault(fault), notes),
    }
}
