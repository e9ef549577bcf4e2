//! The opening of a script, which is the file of its commands.
ghost use Rattle.std.specs.Prelude.{◌≡◌, ◌≤◌, Some, IfOk, length};
ghost use Rattle.outside.specs.Files.{OfFile};
ghost use Rattle.outside.specs.Seen.{Seen, seen};
ghost use Rattle.command_words.specs.Command.{Open};
ghost use Rattle.command_model.specs.Gives.{OpensBytes};
ghost use Rattle.command_model.specs.Profile.{script_limit};
ghost use Rattle.command_model.specs.Ran.{Ran, opening};

use command_model::read_input;
use command_words::{Counted, Note, Stop};
use outside::{Bytes, Name, Shelf};
use std::alloc::Global;

/// The most bytes that a script may have.
pub const SCRIPT_LIMIT: u64 = 16_777_216;

/// The text of a script. Nothing is replied so far.
pub fn open_script<I: Shelf>(alloc: Global, file: &str, inputs: &mut I) -> Result<Name, Stop>
    ensures ran { (depot : Seen) → Ran (Some (Open file.now))
        (record { inputs = seen I.Shelf inputs.old; depot = depot })
        (record { inputs = seen I.Shelf inputs.new; depot = depot }) (opening result) }
    ensures text { IfOk result (λ text.
        OfFile (I.held inputs.old) file.now (λ bytes. bytes ≡ text)) }
    ensures short { IfOk result (λ text. length text ≤ script_limit) }
{
    let bytes = read_input(alloc, file, Counted::ScriptBytes, SCRIPT_LIMIT, inputs)?;
    text_of(alloc, bytes)
}

// The text of the bytes of a script, which are not copied.
fn text_of(alloc: Global, bytes: Bytes) -> Result<Name, Stop>
    ensures { OpensBytes bytes result }
{
    match String::from_utf8(bytes.into_vec()) {
        Ok(text) => {
            let _text = text.as_str();
            Ok(Name::from_string(alloc, text)?)
        }
        Err(_) => Err(Stop::Refused(Note::BadWords)),
    }
}
