//! What a command leaves on its sinks.
ghost use Rattle.std.specs.Prelude.{◌≡◌, ◌≢◌, ◌⊎◌, ◌≤◌, true, false};
ghost use Rattle.outside.specs.Counts.{Rose};
ghost use Rattle.outside.specs.Sink.{appended, AppendsPrefix};
ghost use Rattle.command_words.specs.Notes.{fault_line, is_fault, note_text, status_of, status_of_fault};
ghost use Rattle.pinot_run.specs.Promise.{Noted};
ghost use Rattle.outside.specs.Seen.{heard};

use command_words::{Fault, Note, Status, note_line, status_of};
use outside::{Bytes, Sink};
use std::alloc::Global;

/// The status of a fault.
pub(crate) fn status_of_fault(fault: Fault) -> Status
    ensures { result ≡ status_of_fault fault }
{
    match fault {
        Fault::Read => Status::ReadFault,
        Fault::Write => Status::WriteFault,
        Fault::Memory => Status::NoMemory,
    }
}

/// Writes what is not empty, and says whether all of it was written.
pub(crate) fn put_some<S: Sink>(bytes: &[u8], sink: &mut S) -> bool
    ensures all { result ≡ true → S.written sink.new ≡ appended bytes.now (S.written sink.old) }
    ensures prefix { AppendsPrefix bytes.now (S.written sink.old) (S.written sink.new) }
    ensures later { S.faults sink.old ≤ S.faults sink.new }
    ensures failed { result ≡ false → Rose (S.faults sink.old) (S.faults sink.new) }
    ensures unchanged { result ≡ true → S.faults sink.new ≡ S.faults sink.old }
{
    bytes.is_empty() || sink.put(bytes).is_ok()
}

/// Notes a fault, which stays what it is even where its line is not written whole.
pub(crate) fn note_fault<N: Sink>(status: Status, notes: &mut N) -> Status
    requires { is_fault status ≡ true }
    ensures status { result ≡ status }
    ensures noted { Noted status (heard N.Sink notes.old) (heard N.Sink notes.new) }
{
    let _ = put_some(fault_line(status), notes);
    status
}

/// Gives the text of a reply.
pub(crate) fn give_text<O: Sink, N: Sink>(text: &Bytes, out: &mut O, notes: &mut N) -> Status
    ensures status { (result ≡ Status.Done) ⊎ (result ≡ Status.WriteFault) }
    ensures done { result ≡ Status.Done →
        (O.written out.new ≡ appended text.now (O.written out.old))
        × (N.written notes.new ≡ N.written notes.old) }
    ensures cut { result ≡ Status.WriteFault → Rose (O.faults out.old) (O.faults out.new) }
    ensures prefix { AppendsPrefix text.now (O.written out.old) (O.written out.new) }
    ensures later { O.faults out.old ≤ O.faults out.new }
    ensures unchanged { result ≡ Status.Done → O.faults out.new ≡ O.faults out.old }
    ensures noted { Noted result (heard N.Sink notes.old) (heard N.Sink notes.new) }
{
    if put_some(text.as_slice(), out) {
        Status::Done
    } else {
        note_fault(Status::WriteFault, notes)
    }
}

/// Gives the note line of a refusal.
pub(crate) fn give_note<N: Sink>(alloc: Global, note: &Note, notes: &mut N) -> Status
    ensures status { (result ≡ status_of note.now) ⊎ (result ≡ Status.WriteFault)
        ⊎ (result ≡ Status.NoMemory) }
    ensures done { result ≡ status_of note.now →
        N.written notes.new ≡ appended (note_text note.now) (N.written notes.old) }
    ensures cut { result ≡ Status.WriteFault → Rose (N.faults notes.old) (N.faults notes.new) }
    ensures noted { Noted result (heard N.Sink notes.old) (heard N.Sink notes.new) }
{
    let Ok(line) = note_line(alloc, note) else {
        return note_fault(Status::NoMemory, notes);
    };
    if put_some(&line, notes) {
        status_of(note)
    } else {
        Status::WriteFault
    }
}

// The note line of a fault.
fn fault_line(status: Status) -> &'static [u8]
    ensures { result.now ≡ fault_line status }
{
    match status {
        Status::ReadFault => b"read fault\n",
        Status::WriteFault => b"write fault\n",
        _ => b"no memory\n",
    }
}
